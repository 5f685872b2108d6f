//! Every node is judged by one policy.
use crate::graph::NODES;
use inventory::Inventory;
use lattice::{Ladder, Pair, Refusal, Scheme};
use policy::{Policy, Verdict};

// A data type is a kind out of 9 in a state out of 7.
type Kinds = Scheme<Ladder, Ladder, Ladder, Pair<Ladder, Ladder>>;

// Nothing that joins up to the last kind in the last state: what is of a lower kind or in a lower state is excepted.
const POLICY: [u32; 8] = [
    0x2000_0000,
    0x3300_003f,
    0x4000_0000,
    0x1000_0000,
    0x3300_0038,
    0x3300_003e,
    0x5000_0000,
    0x5000_0000,
];

/// How the nodes were judged.
#[derive(Clone, Copy, Default)]
pub struct Tally {
    pub passed: usize,
    pub refused: usize,
    pub evidence: u32,
}

impl Tally {
    fn count(&mut self, verdict: Verdict) {
        if verdict.passed {
            self.passed = self.passed.saturating_add(1);
        } else {
            self.refused = self.refused.saturating_add(1);
            self.evidence = self.evidence.saturating_add(verdict.evidence.count_ones());
        }
    }
}

fn kinds() -> Result<Kinds, Refusal> {
    Ok(Scheme {
        store: Ladder::two(),
        purpose: Ladder::two(),
        role: Ladder::two(),
        types: Pair {
            first: Ladder::new(10)?,
            second: Ladder::new(8)?,
        },
    })
}

/// Judges every node.
pub fn judge_all(inventory: &Inventory) -> Result<Tally, Refusal> {
    let scheme = kinds()?;
    let mut policy = Policy::new();
    policy.read(&POLICY, &scheme)?;
    let mut tally = Tally::default();
    for node in 0..NODES {
        tally.count(inventory.judge(node, &scheme, &policy)?);
    }
    Ok(tally)
}
