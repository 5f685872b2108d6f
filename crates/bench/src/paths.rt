//! Every value at every node is asked for its path.
use crate::graph::NODES;
use inventory::Inventory;

/// The paths that were found: how many, how many flows they have together, and how many the longest has.
#[derive(Clone, Copy, Default)]
pub struct Found {
    pub paths: usize,
    pub flows: usize,
    pub longest: usize,
}

impl Found {
    // One path more, with so many flows.
    fn with(self, flows: usize) -> Found {
        Found {
            paths: self.paths.saturating_add(1),
            flows: self.flows.saturating_add(flows),
            longest: self.longest.max(flows),
        }
    }
}

// How many flows the path has by which a value comes to a node. Of more than 64 flows it would not be found.
fn path_length(inventory: &Inventory, node: usize, value: u8) -> Option<usize> {
    let mut piece = [0u32; 64];
    inventory.path(node, value, &mut piece).ok()
}

// The paths of all values of one node, added to those before.
fn find_at(inventory: &Inventory, node: usize, before: Found) -> Found {
    (1..64u8)
        .filter_map(|value| path_length(inventory, node, value))
        .fold(before, Found::with)
}

/// Finds every path.
pub fn find_all(inventory: &Inventory) -> Found {
    (0..NODES).fold(Found::default(), |found, node| {
        find_at(inventory, node, found)
    })
}
