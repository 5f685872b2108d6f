//! A lattice that is chosen at run time: a ladder, a table, or the pair of two tables.
#![tactic(auto)]

ghost use Rattle.std.specs.Prelude.{◌≡◌, ◌≤◌, true, false, is_ok, Some, None, Decides, MatchResult};
ghost use Rattle.lattice.specs.Order.{Lattice as Laws, ladder, table, pair, fits as within};
ghost use Rattle.lattice.specs.Faults.{Clean, fault};
ghost use Rattle.choice.specs.Choices.{choice_order};
ghost use Rattle.lattice.specs.Ladders.{ladder_lattice};
ghost use Rattle.lattice.specs.Tables.{table_back};
ghost use Rattle.lattice.specs.Pairs.{pair_lattice};
ghost use Rattle.choice.specs.declared.Choice.TheVariants.{Ladder, Table, Pair};

use lattice::{Ladder, Lattice, Pair, Reason, Refusal, Table, fits};

pub mod tabulate;

pub use tabulate::{TooFewEntries, tabulated, write_rows};

/// A lattice of a kind that is chosen at run time.
#[derive(Drop)]
pub enum Choice {
    Ladder(Ladder),
    Table(Table),
    Pair(Pair<Table, Table>),
}

impl Choice {
    /// The ladder of that many levels, 2 to 64.
    pub fn ladder(levels: usize) -> Result<Choice, Refusal>
        ensures { MatchResult result (λ l. (choice_order l ≡ ladder levels) × (2 ≤ levels) × (levels ≤ 64)) (λ e. (e.reason ≡ Reason.LadderSize) × (e.place ≡ 0) × ((2 ≤ levels) × (levels ≤ 64) → ⊥)) }
    {
        let ladder = Ladder::new(levels)?;
        Ok(Choice::Ladder(ladder))
    }

    /// The lattice that has these rows. Rows that are no lattice are refused for their first fault.
    pub fn table(rows: &[u64]) -> Result<Choice, Refusal>
        ensures value { MatchResult result (λ t. (fault rows.now ≡ None) × (choice_order t ≡ table rows.now)) (λ e. fault rows.now ≡ Some e) }
        ensures accepted { Decides (is_ok result) (Clean rows.now × Laws (table rows.now)) }
    {
        let table = Table::try_from(rows)?;
        Ok(Choice::Table(table))
    }

    /// The pair of two choices, each written as a table, so that a pair of pairs needs no other form.
    /// Parts whose pair would pass 64 values are refused.
    pub fn pair(first: &Choice, second: &Choice) -> Result<Choice, Refusal>
        ensures { MatchResult result (λ p. (choice_order p ≡ pair (choice_order first.now) (choice_order second.now)) × (within (choice_order first.now) (choice_order second.now) ≡ true)) (λ e. (e.reason ≡ Reason.PairSize) × (e.place ≡ 0) × (within (choice_order first.now) (choice_order second.now) ≡ false)) }
    {
        fits(first, second)?;
        Ok(Choice::Pair(Pair {
            first: tabulated(first),
            second: tabulated(second),
        }))
    }

    /// A second choice of the same order. A `clone` gives a `Result`, and this cannot fail.
    pub fn copied(&self) -> Choice
        ensures { choice_order result ≡ choice_order self.now }
    {
        match self {
            Choice::Ladder(ladder) => Choice::Ladder(*ladder),
            Choice::Table(table) => Choice::Table(tabulated(table)),
            Choice::Pair(pair) => Choice::Pair(Pair {
                first: tabulated(&pair.first),
                second: tabulated(&pair.second),
            }),
        }
    }
}

impl Lattice for Choice {
    ghost order = { choice_order };

    ghost lawful = { elim [
      | Ladder l ↦ ladder_lattice l.levels l.ok.0 l.ok.1
      | Table t ↦ table_back t.rows.items t.lawful
      | Pair p ↦
          pair_lattice _ _
          (table_back p.first.rows.items p.first.lawful)
          (table_back p.second.rows.items p.second.lawful)
    ] };

    // Each method asks by a match which lattice was chosen: a value of a `dyn` type may not be handed out.
    fn size(&self) -> u8 {
        match self {
            Choice::Ladder(ladder) => ladder.size(),
            Choice::Table(table) => table.size(),
            Choice::Pair(pair) => pair.size(),
        }
    }

    fn below(&self, a: u8, b: u8) -> bool {
        match self {
            Choice::Ladder(ladder) => ladder.below(a, b),
            Choice::Table(table) => table.below(a, b),
            Choice::Pair(pair) => pair.below(a, b),
        }
    }

    fn meet(&self, a: u8, b: u8) -> Option<u8> {
        match self {
            Choice::Ladder(ladder) => ladder.meet(a, b),
            Choice::Table(table) => table.meet(a, b),
            Choice::Pair(pair) => pair.meet(a, b),
        }
    }

    fn join(&self, a: u8, b: u8) -> Option<u8> {
        match self {
            Choice::Ladder(ladder) => ladder.join(a, b),
            Choice::Table(table) => table.join(a, b),
            Choice::Pair(pair) => pair.join(a, b),
        }
    }
}
