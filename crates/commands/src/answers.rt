//! What is printed for an answer.
ghost use Rattle.std.specs.Prelude.{◌≡◌, IfOk, string_bytes, OnOk};
ghost use Rattle.runs.specs.Calls.{answer_of};
ghost use Rattle.commands.specs.Answers.{answer_text, refusal_text, verdict_text, number_text, path_text, set_text, one_more, size_text, count_text, room_text};

use lattice::{Refusal, bitset};
use policy::Verdict;
use runs::{Answer, Call};
use std::alloc::{AllocError, Global};

/// What is printed for a refusal.
pub fn refusal_text(heap: Global, refusal: Refusal) -> Result<String, AllocError>
    ensures { IfOk result (λ s. string_bytes s ≡ refusal_text refusal) }
{
    let Refusal { reason, place } = refusal;
    let number = reason.number();
    let layer = reason.layer();
    format!(in heap; "declined {number} at {place} ({layer}): {reason}")
}

// The number of a node that was entered, or of a step that was added.
fn number_text(heap: Global, call: &Call, number: usize) -> Result<String, AllocError>
    ensures { IfOk result (λ s. string_bytes s ≡ number_text call.now number) }
{
    match call {
        Call::Step { .. } => format!(in heap; "step {number}"),
        _ => format!(in heap; "node {number}"),
    }
}

// One value more, after a comma where it is not the first.
fn push_value(values: &mut String, value: u8) -> Result<(), AllocError>
    ensures { OnOk result (string_bytes values.new ≡ one_more (string_bytes values.old) value) }
{
    if values.is_empty() {
        write!(values, "{value}")
    } else {
        write!(values, ", {value}")
    }
}

/// The values of a set in rising order, in braces.
pub fn set_text(heap: Global, set: u64) -> Result<String, AllocError>
    ensures { IfOk result (λ s. string_bytes s ≡ set_text set) }
{
    let mut values = String::new(heap);
    for value in bitset::values(set) {
        push_value(&mut values, value)?;
    }
    format!(in heap; "{{{values}}}")
}

fn verdict_text(heap: Global, verdict: Verdict) -> Result<String, AllocError>
    ensures { IfOk result (λ s. string_bytes s ≡ verdict_text verdict.passed verdict.clause verdict.evidence) }
{
    let Verdict {
        passed,
        clause,
        evidence,
    } = verdict;
    if passed {
        return format!(in heap; "passed by clause {clause}");
    }
    let evidence = set_text(heap, evidence)?;
    format!(in heap; "refused by clause {clause}, evidence {evidence}")
}

// The flows of a path.
fn path_text(heap: Global, flows: &[u32]) -> Result<String, AllocError>
    ensures { IfOk result (λ s. string_bytes s ≡ path_text flows.now) }
{
    if flows.is_empty() {
        return String::from_str(heap, "no flow");
    }
    let mut text = String::from_str(heap, "flows")?;
    for flow in flows {
        write!(text, " {flow}")?;
    }
    Ok(text)
}

/// What is printed for the answer to a call.
pub fn answer_text(heap: Global, call: &Call, answer: &Answer) -> Result<String, AllocError>
    ensures { IfOk result (λ s. string_bytes s ≡ answer_text call.now (answer_of answer.now)) }
{
    match answer {
        Answer::Refused(refusal) => refusal_text(heap, *refusal),
        Answer::Done => String::from_str(heap, "done"),
        Answer::Numbered(number) => number_text(heap, call, *number),
        Answer::Judged(verdict) => verdict_text(heap, *verdict),
        Answer::Shown(piece) => path_text(heap, piece.as_slice()),
    }
}

/// What is printed for a lattice.
pub fn size_text(heap: Global, size: u8) -> Result<String, AllocError>
    ensures { IfOk result (λ s. string_bytes s ≡ size_text size) }
{
    format!(in heap; "size {size}")
}

/// What is printed for a policy of so many clauses.
pub fn count_text(heap: Global, clauses: usize) -> Result<String, AllocError>
    ensures { IfOk result (λ s. string_bytes s ≡ count_text clauses) }
{
    format!(in heap; "{clauses} clauses")
}

/// What is printed for an inventory with room for so much.
pub fn room_text(heap: Global, nodes: usize, flows: usize) -> Result<String, AllocError>
    ensures { IfOk result (λ s. string_bytes s ≡ room_text nodes flows) }
{
    format!(in heap; "room for {nodes} nodes and {flows} flows")
}
