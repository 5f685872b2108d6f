//! Memory for a small inventory, and a number that tells whether any of it was changed.
use crate::lattices;
use inventory::{FlowRecord, NodeRecord};
use policy::{Policy, Vocabulary};
use runs::{Answer, Call};
use std::alloc::Global;

/// Room for four nodes and four flows. Every entry begins with something in it, so that a write shows.
#[derive(Drop)]
pub struct Memory {
    pub nodes: [NodeRecord; 4],
    pub flows: [FlowRecord; 4],
    pub workspace: [u32; 512],
}

const NODE: NodeRecord = NodeRecord {
    store: 7,
    purpose: 7,
    role: 7,
    marks: 7,
    label: 7,
    verified: true,
};

const FLOW: FlowRecord = FlowRecord {
    from: 7,
    to: 7,
    step: 7,
};

fn node_parts(node: &NodeRecord) -> [u64; 6] {
    [
        node.store,
        node.purpose,
        node.role,
        node.marks,
        node.label,
        u64::from(node.verified),
    ]
}

fn flow_parts(flow: &FlowRecord) -> [u64; 3] {
    [
        u64::from(flow.from),
        u64::from(flow.to),
        u64::from(flow.step),
    ]
}

fn mixed(sum: u64, part: u64) -> u64 {
    sum.rotate_left(5).wrapping_mul(0x9E37_79B9_7F4A_7C15) ^ part
}

impl Memory {
    pub fn new() -> Memory {
        Memory {
            nodes: [NODE; 4],
            flows: [FLOW; 4],
            workspace: [7; 512],
        }
    }

    /// A number made of every entry.
    pub fn digest(&self) -> u64 {
        let nodes = self.nodes.iter().flat_map(node_parts);
        let flows = self.flows.iter().flat_map(flow_parts);
        let workspace = self.workspace.iter().map(|word| u64::from(*word));
        nodes.chain(flows).chain(workspace).fold(0, mixed)
    }
}

/// Runs the calls over fresh memory: gives the answers and the digest. Policy 0 is for the ladders, policy 1 for sizes of 2.
pub fn run(heap: Global, calls: &[Call]) -> anyhow::Result<(Vec<Option<Answer>>, u64)> {
    let scheme = lattices::ladders(2, 2, 2, 7)?;
    let mut memory = Memory::new();
    let mut policies = [Policy::new(), Policy::new()];
    policies[0].read(&[0x2000_0000, 0x5000_0000], &scheme)?;
    let answers = runs::run(
        heap,
        scheme.sizes(),
        &mut memory.nodes,
        &mut memory.flows,
        &mut memory.workspace,
        &[scheme],
        &policies,
        calls,
    )?;
    Ok((answers, memory.digest()))
}
