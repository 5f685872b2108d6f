//! What a list has in common with a label, in one lattice.
ghost use Rattle.std.specs.Prelude.{◌≡◌};
ghost use Rattle.lattice.specs.Sets.{some_of};
ghost use Rattle.policy.specs.Clauses.{covered_in, overlap, narrowed_in};

use lattice::Lattice;
use lattice::bitset::{insert, values};

// Whether `value` is at or below some value of `list`.
fn is_reached<L: Lattice>(lattice: &L, value: u8, list: u64) -> bool
    ensures { result ≡ some_of list (λ w. (L.order lattice.now).below value w) }
{
    values(list).any(|w| lattice.below(value, w))
}

/// Whether each value of `label` is at or below some value of `list`.
pub(crate) fn covers<L: Lattice>(lattice: &L, label: u64, list: u64) -> bool
    ensures { result ≡ covered_in (L.order lattice.now) label list }
{
    values(label).all(|v| is_reached(lattice, v, list))
}

// What `value` has in common with `label`: the join of its meets with the values of `label`.
fn common<L: Lattice>(lattice: &L, label: u64, value: u8) -> u8
    ensures { result ≡ overlap (L.order lattice.now) label value }
{
    values(label).fold(0, |sum, v| {
        let part = lattice.meet(value, v).unwrap_or(0);
        lattice.join(sum, part).unwrap_or(0)
    })
}

/// What each value of `list` has in common with `label`.
pub(crate) fn narrow<L: Lattice>(lattice: &L, label: u64, list: u64) -> u64
    ensures { result ≡ narrowed_in (L.order lattice.now) label list }
{
    values(list).fold(0, |narrowed, w| insert(narrowed, common(lattice, label, w)))
}
