//! A policy: the records of its clauses, and the sizes of the lattices that it was read for.
ghost use Rattle.std.specs.Prelude.{◌<◌, length};
ghost use Rattle.policy.specs.Records.{Nested};

use crate::clause::ClauseRecord;
use arrayvec::ArrayVec;
use lattice::Sizes;

pub mod judging;
mod reading;

/// A policy. Its clause is that of the first record.
#[derive(Drop)]
pub struct Policy {
    clauses: ArrayVec<ClauseRecord, 256>,
    sizes: Sizes,
    ghost some: { 0 < length clauses.items },
    ghost nested: { ∥ Nested clauses.items ∥₁ },
}
