//! Sets of values as the bits of a `u64`: bit v says that value v is in the set, so no set has a value at or above 64.
ghost use Rattle.std.specs.Prelude.{◌≡◌, ℕ};
ghost use Rattle.std.specs.Iterator.{YieldsFirst, item_count};
ghost use Rattle.std.specs.Iterator.Runs.{YieldsInOrder};
ghost use Rattle.lattice.specs.Sets.{has, inserted, without, values_of};

use std::marker::Model;

/// Whether `value` is in `set`.
#[tactic(auto, using(crate::proofs::Masks::has_by_and, crate::proofs::Masks::has_past))]
pub fn contains(set: u64, value: u8) -> bool
    ensures { result ≡ has set value }
{
    value < 64 && set >> value & 1 == 1
}

/// `set` with `value` in it, and `set` itself where no set can have the value.
#[tactic(auto, using(crate::proofs::Masks::with_by_or))]
pub fn insert(set: u64, value: u8) -> u64
    ensures { result ≡ inserted set value }
{
    if value < 64 { set | 1 << value } else { set }
}

/// `set` without `value`.
#[tactic(auto, using(crate::proofs::Masks::without_by_and, crate::proofs::Masks::without_past))]
pub fn remove(set: u64, value: u8) -> u64
    ensures { result ≡ without set value }
{
    if value < 64 { set & !(1 << value) } else { set }
}

/// The values of `set`, rising.
#[tactic(auto, using(crate::proofs::Values::values_run))]
pub fn values(set: u64) -> SetValues
    ensures left { result ≡ values_of set }
    ensures runs { YieldsInOrder (YieldsFirst {A = ℕ} (λ rest. rest)) (λ rest. rest) }
{
    SetValues { left: set }
}

/// The values of a set that are left to come, the lowest first.
#[derive(Drop)]
pub struct SetValues {
    left: u64,
}

impl Model for SetValues {
    ghost use Rattle.std.specs.Prelude.{ℕ, List};
    ghost use Rattle.lattice.specs.Sets.{values_of};

    ghost Value = { List ℕ };

    ghost view = { λ s. values_of s.left };
}

impl Iterator for SetValues {
    type Item = u8;

    ghost next_gives = { YieldsFirst (λ rest. rest) };

    ghost remaining = { item_count (λ rest. rest) };

    #[tactic(auto, using(crate::proofs::Values::values_of_none, crate::proofs::Values::values_of_first))]
    fn next(&mut self) -> Option<u8> {
        if self.left == 0 {
            return None;
        }
        let value = self.left.trailing_zeros() as u8;
        self.left = remove(self.left, value);
        Some(value)
    }
}
