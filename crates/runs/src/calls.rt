//! Calls and answers, as a run takes and gives them.
use lattice::Refusal;
use policy::Verdict;

/// One of the ten calls. It holds no reference, so that a program can write it down: a row is the first `len` entries of
/// `row`, a scheme and a policy go by their number among those handed to the run, and a path has room for `room` flows.
#[derive(Clone, Copy, PartialEq, Eq, Debug)]
pub enum Call {
    Enter {
        store: u64,
        purpose: u64,
        role: u64,
    },
    // A buffer with its length: a call is `Copy`, and an inline vector is not. A `len` above 64 counts as 64.
    Step {
        row: [u8; 64],
        len: usize,
    },
    Mark {
        node: usize,
        value: u8,
    },
    Unmark {
        node: usize,
        value: u8,
    },
    Verify {
        node: usize,
        verified: bool,
    },
    Draw {
        from: usize,
        to: usize,
        step: usize,
    },
    Strike {
        from: usize,
        to: usize,
        step: usize,
    },
    Settle,
    Judge {
        node: usize,
        scheme: usize,
        policy: usize,
    },
    Path {
        node: usize,
        value: u8,
        room: usize,
    },
}

/// What a call was answered.
// An enum of its own and no `Result`: the ledger's answers have this shape, where a refusal is an answer like the others.
#[derive(Drop, PartialEq, Eq, Debug)]
pub enum Answer {
    Refused(Refusal),
    Done,
    Numbered(usize),
    Judged(Verdict),
    Shown(Vec<u32>),
}
