//! A policy whose words are being read.
use crate::clause::{ClauseRecord, Kind};
use crate::word::Value;
use arrayvec::ArrayVec;
use lattice::Sizes;

/// Where the reading of a clause stands: among its values, right after EXCEPT, or after an exception.
#[derive(Clone, Copy)]
pub(crate) enum Phase {
    Listing,
    Excepting,
    Excepted,
}

/// How far a clause is read: its kind, its phase, the last value, and how many clauses are open with it.
#[derive(Clone, Copy)]
pub(crate) struct Open {
    pub(crate) kind: Kind,
    pub(crate) phase: Phase,
    pub(crate) last: Value,
    pub(crate) depth: usize,
}

/// The records of a policy whose words are being read; `total` is the number of all its words.
#[derive(Drop)]
pub(crate) struct Draft {
    pub(crate) clauses: ArrayVec<ClauseRecord, 256>,
    pub(crate) sizes: Sizes,
    pub(crate) total: usize,
}
