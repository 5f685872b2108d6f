//! A lattice given by its rows: row i has bit j where value i is at or below value j.
ghost use Rattle.std.specs.Prelude.{◌≡◌, ℕ, None, Some, length, is_ok, Decides, MatchResult};
ghost use Rattle.lattice.specs.Order.{Lattice as Laws, table, ladder};
ghost use Rattle.lattice.specs.Faults.{Clean, fault, answer};
ghost use Rattle.lattice.specs.Tables.{table_back};

use crate::Lattice;
use crate::rows::{self, Rows};
use arrayvec::ArrayVec;
use refusals::Refusal;

/// Rows that are a lattice.
#[derive(Drop)]
pub struct Table {
    rows: ArrayVec<u64, 64>,
    // No row has a bit at or above the row count.
    ghost clean: { Clean rows.items },
    // The rows are a lattice.
    ghost lawful: { ∥ Laws (table rows.items) ∥₁ },
}

impl Table {
    /// The ladder of two levels.
    pub fn new() -> Table
        ensures size { length result.rows.items ≡ 2 }
        ensures below { (a b : ℕ) → (table result.rows.items).below a b ≡ (ladder 2).below a b }
    {
        let mut rows = ArrayVec::new();
        rows.push(0b11);
        rows.push(0b10);
        Table { rows }
    }

    /// Takes the rows where they are a lattice. Refused rows leave the table as it was.
    pub fn read(&mut self, rows: &[u64]) -> Result<(), Refusal>
        ensures value { result ≡ answer (fault rows.now) }
        ensures accepted { Decides (is_ok result) (Clean rows.now × Laws (table rows.now)) }
        ensures after { MatchResult result (λ _. self.new.rows.items ≡ rows.now) (λ _. self.new ≡ self.old) }
    {
        *self = Table::try_from(rows)?;
        Ok(())
    }

    // The rows as they are searched.
    fn rows(&self) -> Rows<'_>
        ensures { result.rows.now ≡ self.now.rows.items }
    {
        Rows {
            rows: self.rows.as_slice(),
        }
    }
}

// The table of these rows, where they are a lattice.
impl TryFrom<&[u64]> for Table {
    type Error = Refusal;

    ghost try_from_gives = { λ rows made. MatchResult made (λ t. (t.rows.items ≡ rows.now) × (fault rows.now ≡ None)) (λ why. fault rows.now ≡ Some why) };

    fn try_from(rows: &[u64]) -> Result<Table, Refusal>
        ensures gives { MatchResult result (λ t. (t.rows.items ≡ rows.now) × (fault rows.now ≡ None)) (λ why. fault rows.now ≡ Some why) }
        ensures accepted { Decides (is_ok result) (Clean rows.now × Laws (table rows.now)) }
    {
        rows::check(rows)?;
        Ok(Table {
            rows: ArrayVec::try_from(rows).unwrap(),
        })
    }
}

impl Lattice for Table {
    ghost order = { λ s. table s.rows.items };

    ghost lawful = { λ s. table_back s.rows.items s.lawful };

    fn size(&self) -> u8 {
        self.rows().size()
    }

    fn below(&self, a: u8, b: u8) -> bool {
        self.rows().below(a, b)
    }

    // A lower bound gives way to each greater one, and the meet is greater than all others.
    fn meet(&self, a: u8, b: u8) -> Option<u8> {
        let rows = self.rows();
        if a >= rows.size() || b >= rows.size() {
            return None;
        }
        Some((0..rows.size()).fold(0, |best, x| {
            if rows.below(x, a) & rows.below(x, b) & rows.below(best, x) {
                x
            } else {
                best
            }
        }))
    }

    // What is no value has no row to be searched for.
    fn join(&self, a: u8, b: u8) -> Option<u8> {
        if a >= self.size() || b >= self.size() {
            return None;
        }
        self.rows().join(a, b)
    }
}
