//! The flows that start at each node, chained, so that a round visits no others.
ghost use Rattle.std.specs.Prelude.{◌≡◌, ℕ, ◌<◌, ◌≤◌, length, slice_index_or};
ghost use Rattle.flows.specs.Graph.{no_flow};
ghost use Rattle.flows.specs.Rounds.{Chained};

use crate::records::FlowRecord;

/// Chains the flows that start at one node: `head` leads to the last flow of each node, and `link` to the flow before.
pub(crate) fn chain(flows: &[FlowRecord], head: &mut [Option<u16>], link: &mut [Option<u16>])
    requires room { (length flows.now ≤ length link.old) × (length flows.now ≤ 16384) }
    requires starts { (f : ℕ) → f < length flows.now → (slice_index_or flows.now f no_flow).«from» < length head.old }
    requires none { (n : ℕ) → slice_index_or head.old n None ≡ None }
    ensures { Chained flows.now (length flows.now) head.new link.new }
{
    for (number, flow) in flows.iter().enumerate() {
        link[number] = head[flow.from as usize].replace(number as u16);
    }
}
