//! Rows of bits, where row i has bit j if value i is at or below value j, and what may be at fault in them.
ghost use Rattle.std.specs.Prelude.{◌≡◌, ℕ, ◌^◌, ◌<◌, ◌≤◌, Bool, false, length, None, IfErr, IfOk, IfSome, OnOk, Some, MatchResult, slice_index};
ghost use Rattle.lattice.specs.Sets.{least};
ghost use Rattle.lattice.specs.Order.{join, table};
ghost use Rattle.lattice.specs.Bounds.{Ordered};
ghost use Rattle.lattice.specs.Faults.{Clean, AsksBelow, stray_bits, stray, twinned, gapped, unbounded, joinless, at_row, order_fault, fault, answer};

use crate::bitset::contains;
use refusals::{Reason, Refusal};

/// Refuses rows whose order is no lattice, by the first reason and at the lowest row at fault.
pub(crate) fn check(rows: &[u64]) -> Result<(), Refusal>
    ensures value { result ≡ answer (fault rows.now) }
    ensures clean { OnOk result (Clean rows.now) }
{
    Rows::new(rows)?.check_order()
}

/// Whether a row of a table of `count` rows has a bit at or above the count.
fn is_stray(row: u64, count: usize) -> bool
    requires { count ≤ 64 }
    ensures value { result ≡ stray_bits count row }
    ensures clean { result ≡ false → row < 2 ^ count }
{
    count < 64 && row >> count != 0
}

/// The first row that has a bit at or above the row count.
fn first_stray(rows: &[u64]) -> Option<usize>
    requires { length rows.now ≤ 64 }
    ensures value { result ≡ least (stray rows.now) (length rows.now) }
    ensures clean { result ≡ None → Clean rows.now }
{
    rows.iter().position(|row| is_stray(*row, rows.len()))
}

/// Rows without stray bits, of which the order is still to be looked at.
#[derive(Clone, Copy)]
pub(crate) struct Rows<'a> {
    pub(crate) rows: &'a [u64],
    ghost count: { (2 ≤ length rows.now) × (length rows.now ≤ 64) },
    ghost clean: { Clean rows.now },
}

impl<'a> Rows<'a> {
    /// Refuses too few or too many rows, and rows with a stray bit.
    fn new(rows: &'a [u64]) -> Result<Rows<'a>, Refusal>
        ensures ok { IfOk result (λ made. (made.rows.now ≡ rows.now) × (fault rows.now ≡ order_fault (table rows.now))) }
        ensures err { IfErr result (λ why. fault rows.now ≡ Some why) }
    {
        if rows.len() < 2 || rows.len() > 64 {
            return Err(Reason::RowCount.at(0));
        }
        if let Some(place) = first_stray(rows) {
            return Err(Reason::StrayBit.at(place));
        }
        Ok(Rows { rows })
    }

    /// The count of rows.
    pub(crate) fn size(&self) -> u8
        ensures { result ≡ length self.now.rows.now }
    {
        self.rows.len() as u8
    }

    /// The row of value i, and an empty row where there is no such value.
    fn row(&self, i: u8) -> u64
        ensures { result ≡ slice_index self.now.rows.now i }
    {
        self.rows.get(usize::from(i)).copied().unwrap_or(0)
    }

    /// Whether value i is at or below value j.
    #[tactic(auto, using(crate::specs::Tables::clean_below))]
    pub(crate) fn below(&self, i: u8, j: u8) -> bool
        ensures { result ≡ (table self.now.rows.now).below i j }
    {
        contains(self.row(i), j)
    }

    /// Whether value i and another are each at or below the other.
    fn is_twinned(&self, i: u8) -> bool
        ensures { result ≡ twinned (table self.now.rows.now) i }
    {
        (0..self.size()).any(|j| j != i && self.below(i, j) && self.below(j, i))
    }

    /// Whether value i is below a value that is below a third, and i is not below the third: row i has then not all of the second's row.
    fn is_gapped(&self, i: u8) -> bool
        ensures { result ≡ gapped (table self.now.rows.now) i }
    {
        let own = self.row(i);
        (0..self.size()).any(|j| self.below(i, j) && own & self.row(j) != self.row(j))
    }

    /// Whether value i is not between value 0 and the last.
    #[tactic(auto, unfolding(crate::specs::Faults::unbounded))]
    fn is_unbounded(&self, i: u8) -> bool
        ensures { result ≡ unbounded (table self.now.rows.now) i }
    {
        !(self.below(0, i) && self.below(i, self.size() - 1))
    }

    /// The join of two values, which has the row that their rows share.
    pub(crate) fn join(&self, a: u8, b: u8) -> Option<u8>
        ensures { Ordered (table self.now.rows.now) → result ≡ join (table self.now.rows.now) a b }
    {
        let shared = self.row(a) & self.row(b);
        self.rows
            .iter()
            .position(|row| *row == shared)
            .map(|i| i as u8)
    }

    /// Whether value i and another have no least upper bound.
    fn is_joinless(&self, i: u8) -> bool
        ensures { Ordered (table self.now.rows.now) → result ≡ joinless (table self.now.rows.now) i }
    {
        (0..self.size()).any(|j| self.join(i, j).is_none())
    }

    /// Refuses the first value that is at fault.
    fn refuse_first<F: FnMut(&u8) -> bool>(
        &self,
        reason: Reason,
        is_fault: F,
    ) -> Result<(), Refusal>
        requires { (state : F) (i : _) → F.pre state i }
        ensures { (test : ℕ → Bool) → AsksBelow F.FnMut is_fault (length self.now.rows.now) test → result ≡ answer (at_row reason (least test (length self.now.rows.now))) }
    {
        match (0..self.size()).find(is_fault) {
            Some(i) => Err(reason.at(usize::from(i))),
            None => Ok(()),
        }
    }

    /// Refuses an order that is no lattice.
    fn check_order(&self) -> Result<(), Refusal>
        ensures { result ≡ answer (order_fault (table self.now.rows.now)) }
    {
        self.refuse_first(Reason::NotReflexive, |i| !self.below(*i, *i))?;
        self.refuse_first(Reason::NotAntisymmetric, |i| self.is_twinned(*i))?;
        self.refuse_first(Reason::NotTransitive, |i| self.is_gapped(*i))?;
        self.refuse_first(Reason::NotBounded, |i| self.is_unbounded(*i))?;
        self.refuse_first(Reason::NoJoin, |i| self.is_joinless(*i))
    }
}
