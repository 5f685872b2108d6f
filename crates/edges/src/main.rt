//! The edges: what is still taken and what is refused first, each refusal with its place and layer, and the memory that it
//! leaves as it was.
#![tactic(auto)]

mod calls;
mod lattices;
mod memory;
mod outcome;
mod words;

fn main(rt: HostRuntime) -> anyhow::Result<()> {
    lattices::show(&rt)?;
    words::show(&rt)?;
    calls::show_sizes(&rt)?;
    calls::show_rooms(&rt)?;
    calls::show_refusals(&rt)?;
    calls::show_steps(&rt)
}
