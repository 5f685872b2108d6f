//! Values spread round by round: in round `d` the values at distance `d` from a mark are led on.
ghost use Rattle.std.specs.Prelude.{◌≡◌, ℕ, ◌*◌, ◌^◌, ◌<◌, ◌≤◌, length, slice_index_or, IsOk, OnOk, OnErr, ◌↔◌};
ghost use Rattle.flows.specs.Certificate.{Certified};
ghost use Rattle.flows.specs.Charts.{Charted, graph_on};
ghost use Rattle.flows.specs.Fitting.{Fitting};
ghost use Rattle.flows.specs.Graph.{graph, whole, no_node};
ghost use Rattle.flows.specs.Rounds.{Begun, Cleared, Starts};
ghost use Rattle.flows.specs.Settled.{Beyond, Relabeled, Settled};

use crate::chaining::chain;
use crate::charts::Chart;
use crate::fitting;
use crate::fronts::Front;
use crate::leading::{Round, Wave};
use crate::misfit::Misfit;
use crate::records::{FlowRecord, NodeRecord};

/// Makes each label the node's marks, clears the words of the nodes, and gives the marks as fresh values.
fn begin(nodes: &mut [NodeRecord], workspace: &mut [u32]) -> Front
    requires { (length nodes.old ≤ 4096) × (128 * length nodes.old ≤ length workspace.old) }
    ensures begun { Begun (length nodes.old) nodes.old nodes.new result }
    ensures cleared { Cleared (128 * length nodes.old) workspace.old workspace.new }
{
    workspace[..128 * nodes.len()].fill(0);
    let mut fresh = Front::new();
    for (number, node) in nodes.iter_mut().enumerate() {
        node.label = node.marks;
        fresh.add(number as u16, node.marks);
    }
    fresh
}

/// Goes on from round to round, until nothing is fresh.
fn run(nodes: &mut [NodeRecord], workspace: &mut [u32], chart: Chart, fresh: &mut Front)
    requires charted { Charted chart }
    requires starts { Starts (graph_on chart nodes.old) workspace.old fresh.old }
    ensures same { Relabeled (length chart.entry.head.now) nodes.old nodes.new }
    ensures past { Beyond (length chart.entry.head.now) workspace.old workspace.new }
    ensures small { (n : ℕ) → n < length chart.entry.head.now → (slice_index_or nodes.new n no_node).label < 2 ^ 64 }
    ensures certified { Certified (graph_on chart.entry nodes.new) workspace.new }
{
    let mut next = Front::new();
    let mut wave = Wave {
        nodes,
        workspace,
        next: &mut next,
    };
    let mut distance = 0;
    // The rounds end with the values, so the distance is counted beside.
    while !fresh.is_empty() {
        let round = Round {
            chart,
            fresh,
            distance,
        };
        round.lead(&mut wave);
        fresh.take(wave.next);
        distance += 1;
    }
}

/// Fills the labels with every value that reaches a node, and the workspace with the distances and arrivals.
fn settle(nodes: &mut [NodeRecord], workspace: &mut [u32], flows: &[FlowRecord], rows: &[[u8; 64]])
    requires { Fitting (whole nodes.old flows.now rows.now) workspace.old }
    ensures { Settled flows.now rows.now (length nodes.old) (length flows.now) nodes.old nodes.new workspace.old workspace.new }
{
    let mut heads = [None; 4096];
    let mut links = [None; 16384];
    let head = &mut heads[..nodes.len()];
    let link = &mut links[..flows.len()];
    chain(flows, head, link);
    let mut fresh = begin(nodes, workspace);
    let chart = Chart {
        flows,
        rows,
        head,
        link,
    };
    run(nodes, workspace, chart, &mut fresh);
}

/// Fills the labels with every value that reaches a node, and the workspace with the distances and arrivals.
///
/// All nodes and flows of the lists count. The workspace has 128 words for each node. Where the arguments do not fit each other,
/// nothing is written.
pub fn spread_all(
    nodes: &mut [NodeRecord],
    workspace: &mut [u32],
    flows: &[FlowRecord],
    rows: &[[u8; 64]],
) -> Result<(), Misfit>
    ensures fits { IsOk result ↔ Fitting (whole nodes.old flows.now rows.now) workspace.old }
    ensures refused { OnErr result ((nodes.new ≡ nodes.old) × (workspace.new ≡ workspace.old)) }
    ensures settled { OnOk result (Settled flows.now rows.now (length nodes.old) (length flows.now) nodes.old nodes.new workspace.old workspace.new) }
{
    if !fitting::fits(nodes, workspace, flows, rows) {
        return Err(Misfit);
    }
    settle(nodes, workspace, flows, rows);
    Ok(())
}

/// The same for the first `node_count` nodes and the first `flow_count` flows: those past them are left as they are.
///
/// Counts past the lists do not fit, as little as the rest that [`spread_all`] refuses.
pub fn spread(
    nodes: &mut [NodeRecord],
    workspace: &mut [u32],
    flows: &[FlowRecord],
    rows: &[[u8; 64]],
    node_count: usize,
    flow_count: usize,
) -> Result<(), Misfit>
    ensures fits { IsOk result ↔ Fitting (graph nodes.old flows.now rows.now node_count flow_count) workspace.old }
    ensures refused { OnErr result ((nodes.new ≡ nodes.old) × (workspace.new ≡ workspace.old)) }
    ensures settled { OnOk result (Settled flows.now rows.now node_count flow_count nodes.old nodes.new workspace.old workspace.new) }
{
    if node_count <= nodes.len() && flow_count <= flows.len() {
        let counted = &mut nodes[..node_count];
        spread_all(counted, workspace, &flows[..flow_count], rows)
    } else {
        Err(Misfit)
    }
}
