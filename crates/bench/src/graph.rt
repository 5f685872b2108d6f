//! A graph of full size, drawn at random from one seed.
use inventory::Inventory;
use lattice::{Refusal, Sizes};

pub const NODES: usize = 4096;

pub const FLOWS: usize = 16384;

/// The steps that are taken, besides the one that is there from the start.
pub const STEPS: usize = 31;

pub const SIZES: Sizes = Sizes {
    store: 2,
    purpose: 2,
    role: 2,
    types: 64,
};

// Numbers below `2 ^ 53`, from a state that shifts and exclusive ors stir.
#[derive(Drop)]
struct Random {
    state: u64,
}

impl Random {
    fn next(&mut self) -> u64 {
        let mut x = self.state;
        x ^= x << 13;
        x ^= x >> 7;
        x ^= x << 17;
        self.state = x;
        x >> 11
    }
}

// A node in 16 has a mark, and one in 8 is verified.
fn enter_node(inventory: &mut Inventory, random: &mut Random) -> Result<(), Refusal> {
    let node = inventory.enter(0, 0, 0)?;
    let number = random.next();
    if number % 16 == 0 {
        inventory.mark(node, (number / 16 % 63) as u8 + 1)?;
    }
    inventory.verify(node, number / 1024 % 8 == 0)
}

// A step that makes any value of any value, and at times none.
fn take_step(inventory: &mut Inventory, random: &mut Random) -> Result<(), Refusal> {
    let mut row = [0; 64];
    for entry in row.iter_mut().skip(1) {
        *entry = (random.next() % 64) as u8;
    }
    inventory.step(&row)?;
    Ok(())
}

// A flow between any two nodes by any step; whether it was drawn, since it may stand already.
fn draw_flow(inventory: &mut Inventory, random: &mut Random) -> bool {
    let from = random.next() % NODES as u64;
    let to = random.next() % NODES as u64;
    let step = random.next() % (STEPS as u64 + 1);
    inventory
        .draw(from as usize, to as usize, step as usize)
        .is_ok()
}

/// Draws the graph, and gives how many flows it has. Some more are tried than are wanted: of flows that stand already there
/// are few.
pub fn draw(inventory: &mut Inventory) -> Result<usize, Refusal> {
    let mut random = Random {
        state: 88172645463325252,
    };
    (0..NODES).try_for_each(|_| enter_node(inventory, &mut random))?;
    (0..STEPS).try_for_each(|_| take_step(inventory, &mut random))?;
    let flows = (0..2 * FLOWS)
        .filter(|_| draw_flow(inventory, &mut random))
        .take(FLOWS)
        .count();
    Ok(flows)
}
