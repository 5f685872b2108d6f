//! The calls at their limits, and what a refused one leaves.
use crate::memory;
use crate::memory::Memory;
use inventory::Inventory;
use lattice::Sizes;
use runs::{Answer, Call};
use std::fmt;

const SIZES: Sizes = Sizes {
    store: 2,
    purpose: 2,
    role: 2,
    types: 7,
};

// The calls in short: written out, most of them would take five lines in the lists below.
fn enter(store: u64) -> Call {
    Call::Enter {
        store,
        purpose: 0,
        role: 0,
    }
}

fn mark(node: usize, value: u8) -> Call {
    Call::Mark { node, value }
}

fn draw(from: usize, to: usize, step: usize) -> Call {
    Call::Draw { from, to, step }
}

fn strike(from: usize, to: usize, step: usize) -> Call {
    Call::Strike { from, to, step }
}

fn judge(node: usize, policy: usize) -> Call {
    Call::Judge {
        node,
        scheme: 0,
        policy,
    }
}

fn path(node: usize, value: u8, room: usize) -> Call {
    Call::Path { node, value, room }
}

// A step that leaves seven values as they are, by the first so many entries of a row. `week` and the tests fill rows of their
// own likewise: a constructor in `runs` would be a public function with a contract, for three lines each.
fn copy(len: usize) -> Call {
    let mut row = [0; 64];
    row[0..7].copy_from_slice(&[0, 1, 2, 3, 4, 5, 6]);
    Call::Step { row, len }
}

// An answer in words; none where no call was made.
#[derive(Clone, Copy)]
struct Words<'a>(Option<&'a Answer>);

impl fmt::Display for Words<'_> {
    fn fmt<W: fmt::Write>(&self, f: &mut fmt::Formatter<W>) -> fmt::Result {
        match self.0 {
            None => f.write_str("no call"),
            Some(Answer::Refused(refusal)) => write!(f, "{refusal}"),
            Some(Answer::Done) => f.write_str("done"),
            Some(Answer::Numbered(number)) => write!(f, "number {number}"),
            Some(Answer::Judged(verdict)) => {
                let passed = verdict.passed;
                write!(f, "passed {passed}")
            }
            Some(Answer::Shown(piece)) => {
                let count = piece.len();
                write!(f, "{count} flows")?;
                for flow in piece {
                    write!(f, " {flow}")?;
                }
                Ok(())
            }
        }
    }
}

// Shows the answer to the last of the calls, and the memory before it and after.
fn show(rt: &HostRuntime, what: &str, before: &[Call], last: Call) -> anyhow::Result<()> {
    let mut calls = before.to_vec(rt.alloc())?;
    let (_, old) = memory::run(rt.alloc(), calls.as_slice())?;
    calls.push(last)?;
    let (answers, new) = memory::run(rt.alloc(), calls.as_slice())?;
    let answer = Words(answers.last().and_then(Option::as_ref));
    println!(rt; "{what}: {answer}; memory {old:016x} before and {new:016x} after")?;
    Ok(())
}

/// Each refusal of the calls.
pub fn show_refusals(rt: &HostRuntime) -> anyhow::Result<()> {
    let begun = [enter(0), enter(2), mark(0, 2), draw(0, 1, 0), Call::Settle];
    let last_calls = [
        ("mark at node 9", mark(9, 1)),
        ("draw from 9 to 8", draw(9, 8, 0)),
        ("strike from 0 to 8", strike(0, 8, 0)),
        ("draw by step 5", draw(0, 1, 5)),
        ("enter with the bottom", enter(1)),
        ("a row of 6", copy(6)),
        ("mark with 0", mark(0, 0)),
        ("path for value 7 of 7", path(0, 7, 4)),
        ("draw what stands", draw(0, 1, 0)),
        ("strike what does not stand", strike(1, 0, 0)),
        ("judge by a policy of other sizes", judge(1, 1)),
        ("path for what is not there", path(1, 3, 4)),
        ("path without room", path(1, 2, 0)),
        ("path with room", path(1, 2, 1)),
        ("path of no flow", path(0, 2, 0)),
    ];
    for (what, last) in last_calls {
        show(rt, what, &begun, last)?;
    }
    let changed = [enter(0), enter(0), enter(0), enter(0), mark(0, 2)];
    show(rt, "judge unsettled", &changed, judge(0, 0))?;
    show(rt, "path unsettled", &changed, path(0, 2, 4))?;
    show(rt, "enter a fifth node", &changed, enter(0))?;
    show_numbers(rt)
}

// The last flow takes the number of the struck one, and a fifth flow has no room.
fn show_numbers(rt: &HostRuntime) -> anyhow::Result<()> {
    let drawn = [
        enter(0),
        enter(0),
        enter(0),
        mark(1, 2),
        draw(0, 1, 0),
        draw(0, 2, 0),
        draw(2, 0, 0),
        draw(1, 2, 0),
        Call::Settle,
    ];
    show(rt, "path by the last flow", &drawn, path(2, 2, 4))?;
    show(rt, "a fifth flow", &drawn, draw(2, 1, 0))?;
    let mut struck = drawn.to_vec(rt.alloc())?;
    struck.insert(8, strike(0, 1, 0))?;
    let what = "path once the first is struck";
    show(rt, what, struck.as_slice(), path(2, 2, 4))
}

/// 32 steps, and the 33rd.
pub fn show_steps(rt: &HostRuntime) -> anyhow::Result<()> {
    let steps = [copy(7); 31];
    show(rt, "step 31", &steps[0..30], copy(7))?;
    show(rt, "step 32", &steps, copy(7))
}

// How many nodes there is room for, with so many words of workspace.
fn room(words: usize) -> usize {
    let Memory {
        mut nodes,
        mut flows,
        mut workspace,
    } = Memory::new();
    let mut inventory = Inventory::new(
        SIZES,
        &mut nodes,
        &mut flows,
        &mut workspace[0..words.min(512)],
    );
    (0..4)
        .take_while(|_| inventory.enter(0, 0, 0).is_ok())
        .count()
}

// Which of the declared sets {1}, {2} and {63} an inventory of this size takes: three answers, named as the line shows them.
// The inventory is asked itself, since `memory::run` takes its sizes from ladders, and none has 0, 1 or 65 levels.
fn show_size(rt: &impl Print, size: u8) -> anyhow::Result<()> {
    let mut memory = Memory::new();
    let sizes = Sizes {
        store: size,
        purpose: size,
        role: size,
        types: size,
    };
    let mut inventory = Inventory::new(
        sizes,
        &mut memory.nodes,
        &mut memory.flows,
        &mut memory.workspace,
    );
    let one = inventory.enter(1 << 1, 0, 0).is_ok();
    let two = inventory.enter(1 << 2, 0, 0).is_ok();
    let most = inventory.enter(1 << 63, 0, 0).is_ok();
    println!(rt; "size {size}: value 1 {one}, value 2 {two}, value 63 {most}")?;
    Ok(())
}

/// Sizes at the making.
pub fn show_sizes(rt: &impl Print) -> anyhow::Result<()> {
    for size in [0u8, 1, 2, 3, 64, 65] {
        show_size(rt, size)?;
    }
    Ok(())
}

/// Rooms at the making.
pub fn show_rooms(rt: &impl Print) -> anyhow::Result<()> {
    for words in [127usize, 128, 255, 256, 512] {
        println!(rt; "{words} words: room for {} nodes", room(words))?;
    }
    Ok(())
}
