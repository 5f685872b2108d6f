//! The struct with its invariant, in a file of its own: it imports every `ghost use` of its file.
ghost use Rattle.std.specs.Prelude.{length};
ghost use Rattle.inventory.specs.Sound.{GoodSizes, NodeRoom, FlowRoom, GoodNodes, GoodFlows, Apart, GoodRows, BoundedRows, SilentRows, SettledLabels};

use arrayvec::ArrayVec;
use flows::{FlowRecord, NodeRecord};
use lattice::Sizes;

mod checks;
mod edits;
mod judging;
pub mod making;
mod paths;
mod settling;

/// An inventory over three pieces of memory that the caller lends.
#[derive(Drop)]
pub struct Inventory<'a> {
    // The caller lends the records and the words, and of these slices the first `node_count` and `flow_count` are in use.
    nodes: &'a mut [NodeRecord],
    flows: &'a mut [FlowRecord],
    workspace: &'a mut [u32],
    steps: ArrayVec<[u8; 64], 32>,
    node_count: usize,
    flow_count: usize,
    node_room: usize,
    flow_room: usize,
    sizes: Sizes,
    settled: bool,
    ghost sized: { GoodSizes sizes },
    ghost node_fits: { NodeRoom nodes.now workspace.now node_count node_room },
    ghost flow_fits: { FlowRoom flows.now flow_count flow_room },
    ghost nodes_good: { GoodNodes sizes nodes.now node_count },
    ghost flows_good: { GoodFlows node_count (length steps.items) flows.now flow_count },
    ghost flows_apart: { Apart flows.now flow_count },
    ghost rows_good: { GoodRows sizes.types steps.items },
    ghost rows_bounded: { BoundedRows sizes.types steps.items },
    ghost rows_silent: { SilentRows sizes.types steps.items },
    ghost labels_settled: { SettledLabels nodes.now flows.now steps.items workspace.now node_count flow_count settled },
}
