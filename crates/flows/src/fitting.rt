//! Whether nodes, workspace, flows and steps fit each other.
ghost use Rattle.std.specs.Prelude.{ℕ, ◌*◌, ◌<◌, ◌≤◌, length, All, Decides, slice_index_or};
ghost use Rattle.flows.specs.Fitting.{Fitting, FlowFits};
ghost use Rattle.flows.specs.Graph.{whole, no_flow};

use crate::records::{FlowRecord, NodeRecord};

/// Whether a step makes values below 64 alone.
fn row_fits(row: &[u8; 64]) -> bool
    ensures { Decides result (All (λ v. v < 64) row.now) }
{
    row.iter().all(|value| *value < 64)
}

/// Whether all steps make values below 64 alone.
fn rows_fit(rows: &[[u8; 64]]) -> bool
    ensures { Decides result (All (All (λ v. v < 64)) rows.now) }
{
    rows.iter().all(|row| row_fits(row))
}

/// Whether each flow starts and ends at a node, and takes a step that is there.
fn flows_fit(flows: &[FlowRecord], node_count: usize, step_count: usize) -> bool
    ensures { Decides result ((f : ℕ) → f < length flows.now → FlowFits node_count step_count (slice_index_or flows.now f no_flow)) }
{
    flows.iter().all(|flow| {
        (flow.from as usize) < node_count
            && (flow.to as usize) < node_count
            && (flow.step as usize) < step_count
    })
}

/// Whether there are no more nodes and flows than the limits, and 128 words for each node.
fn sizes_fit(node_count: usize, flow_count: usize, word_count: usize) -> bool
    ensures { Decides result ((node_count ≤ 4096) × (flow_count ≤ 16384) × (128 * node_count ≤ word_count)) }
{
    node_count <= 4096 && flow_count <= 16384 && 128 * node_count <= word_count
}

/// Whether the sizes fit, and the flows and steps name what is there.
pub(crate) fn fits(
    nodes: &[NodeRecord],
    workspace: &[u32],
    flows: &[FlowRecord],
    rows: &[[u8; 64]],
) -> bool
    ensures { Decides result (Fitting (whole nodes.now flows.now rows.now) workspace.now) }
{
    sizes_fit(nodes.len(), flows.len(), workspace.len())
        && flows_fit(flows, nodes.len(), rows.len())
        && rows_fit(rows)
}
