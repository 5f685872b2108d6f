//! The way by which a value came to a node, read off the workspace.
ghost use Rattle.std.specs.Prelude.{◌≡◌, ◌≤◌, true, false, length, take, drop, Decides, slice_index_or};
ghost use Rattle.flows.specs.Certificate.{arrival};
ghost use Rattle.flows.specs.Graph.{no_flow};
ghost use Rattle.flows.specs.Paths.{hops};

use crate::records::FlowRecord;

/// The word that says how `value` came to `node`, or 0 past the end of the workspace.
fn arrival_of(workspace: &[u32], node: u16, value: u8) -> u32
    ensures { result ≡ arrival workspace.now node value }
{
    let place = 128 * node as usize + 64 + value as usize;
    workspace.get(place).copied().unwrap_or(0)
}

/// The node where a flow starts, or 0 where there is no such flow.
fn start_of(flows: &[FlowRecord], number: u32) -> u16
    ensures { result ≡ (slice_index_or flows.now number no_flow).«from» }
{
    flows.get(number as usize).map_or(0, |flow| flow.from)
}

/// Fills the piece with the numbers of the last flows by which `value` came to `node`, in their order.
///
/// After [`spread`](crate::spread) a value of a label has as many hops as its distance, `workspace[128 * node + value]`, and those are a shortest path from a mark.
/// Past the end of the workspace and of the flows all reads give 0, so any arguments will do.
pub fn walk_all(workspace: &[u32], flows: &[FlowRecord], node: u16, value: u8, piece: &mut [u32])
    ensures { piece.new ≡ hops workspace.now flows.now (length piece.old) node value }
{
    let mut at = node;
    let mut held = value;
    for hop in piece.iter_mut() {
        let arrival = arrival_of(workspace, at, held);
        *hop = arrival / 64;
        at = start_of(flows, arrival / 64);
        held = (arrival % 64) as u8;
    }
    // The walk goes back from the end of the path.
    piece.reverse();
}

/// Writes the numbers of the last `count` flows by which `value` came to `node`, in their order, and leaves the rest of the piece.
///
/// Where the piece has fewer entries, the answer is false, and nothing is written. For the rest see [`walk_all`].
pub fn walk(
    workspace: &[u32],
    flows: &[FlowRecord],
    node: u16,
    value: u8,
    count: usize,
    piece: &mut [u32],
) -> bool
    ensures fits { Decides result (count ≤ length piece.old) }
    ensures hops { result ≡ true → take count piece.new ≡ hops workspace.now flows.now count node value }
    ensures rest { drop count piece.new ≡ drop count piece.old }
    ensures refused { result ≡ false → piece.new ≡ piece.old }
{
    if count > piece.len() {
        return false;
    }
    walk_all(workspace, flows, node, value, &mut piece[..count]);
    true
}
