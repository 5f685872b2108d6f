//! How long an inventory of full size takes to be drawn, settled and judged, and what it then holds.
#![tactic(auto)]

mod graph;
mod judging;
mod paths;

use inventory::{FlowRecord, Inventory, NodeRecord};
use std::io;
use std::time::Instant;

// Does the work, and says how long it took. Only what is the same at each run goes to the output.
fn timed<T: Drop, F: FnOnce() -> T>(rt: &HostRuntime, what: &str, work: F) -> io::Result<T>
    requires { F.IsAlwaysCallable work }
{
    let start = Instant::now(rt)?;
    let outcome = work();
    let us = start.elapsed(rt)?.as_micros();
    eprintln!(rt; "{what} in {us} us")?;
    Ok(outcome)
}

fn draw(rt: &HostRuntime, inventory: &mut Inventory) -> io::Result<()> {
    match timed(rt, "drawn", || graph::draw(inventory))? {
        // One step is there from the start.
        Ok(flows) => println!(rt;
            "{} nodes, {flows} flows, {} steps, 64 data types",
            graph::NODES,
            graph::STEPS + 1
        ),
        Err(refusal) => println!(rt; "not drawn: {refusal}"),
    }
}

fn judge(rt: &HostRuntime, inventory: &Inventory) -> io::Result<()> {
    match timed(rt, "judged", || judging::judge_all(inventory))? {
        Ok(tally) => println!(rt;
            "{} passed, {} refused on {} values of evidence",
            tally.passed, tally.refused, tally.evidence
        ),
        Err(refusal) => println!(rt; "not judged: {refusal}"),
    }
}

// Not timed: what is written to a piece and never read, a compiler need not write.
fn find_paths(rt: &HostRuntime, inventory: &Inventory) -> io::Result<()> {
    let found = paths::find_all(inventory);
    println!(rt;
        "{} paths of {} flows together, {} at most",
        found.paths, found.flows, found.longest
    )
}

fn show_labels(rt: &HostRuntime, nodes: &[NodeRecord]) -> io::Result<()> {
    let many = nodes
        .iter()
        .filter(|node| node.label.count_ones() >= 32)
        .count();
    let all = nodes
        .iter()
        .map(|node| node.label.count_ones())
        .fold(0, u32::saturating_add);
    println!(rt; "{many} nodes hold 32 values or more, all nodes together {all}")
}

fn main(rt: HostRuntime) -> io::Result<()> {
    let mut nodes = vec![in rt.alloc(); NodeRecord::default(); graph::NODES]?;
    let mut flows = vec![in rt.alloc(); FlowRecord::default(); graph::FLOWS]?;
    let mut workspace = vec![in rt.alloc(); 0u32; 128 * graph::NODES]?;
    let mut inventory = Inventory::new(
        graph::SIZES,
        nodes.as_mut_slice(),
        flows.as_mut_slice(),
        workspace.as_mut_slice(),
    );
    draw(&rt, &mut inventory)?;
    // The first time the memory is touched, the second is the usual case.
    timed(&rt, "settled", || inventory.settle())?;
    timed(&rt, "settled", || inventory.settle())?;
    judge(&rt, &inventory)?;
    find_paths(&rt, &inventory)?;
    let lent = inventory.release();
    show_labels(&rt, lent.nodes)
}
