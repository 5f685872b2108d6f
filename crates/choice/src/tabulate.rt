//! Any lattice written as rows of bits, and as a table.
ghost use Rattle.std.specs.Prelude.{◌≡◌, OnOk, Some, codes, is_ok, length, take, nat_le};
ghost use Rattle.lattice.specs.Order.{table};
ghost use Rattle.choice.specs.Rows.{row, all_rows, with_rows, table_order};

use arrayvec::ArrayVec;
use lattice::bitset::insert;
use lattice::{Lattice, Table};
use std::error::Error;
use std::fmt;

/// There are fewer entries than the lattice has values.
#[derive(Clone, Copy, PartialEq, Eq, Debug)]
pub struct TooFewEntries;

impl fmt::Display for TooFewEntries {
    ghost output = { λ _. Some (codes "there are fewer entries than values") };

    fn fmt<W: fmt::Write>(&self, f: &mut fmt::Formatter<W>) -> fmt::Result {
        f.write_str("there are fewer entries than values")
    }
}

impl Error for TooFewEntries {}

/// The row of value i: the set of the values that it is at or below.
fn row_of<L: Lattice>(lattice: &L, i: u8) -> u64
    ensures { result ≡ row (L.order lattice.now) i }
{
    (0..lattice.size()).fold(
        0,
        |row, j| if lattice.below(i, j) {
            insert(row, j)
        } else {
            row
        },
    )
}

/// The rows of the lattice, one for each value.
fn rows_of<L: Lattice>(lattice: &L) -> ArrayVec<u64, 64>
    ensures { result.items ≡ all_rows (L.order lattice.now) }
{
    let mut rows = ArrayVec::new();
    // A `collect` into an inline vector may fail, and a push where there is room cannot.
    for i in 0..lattice.size() {
        rows.push(row_of(lattice, i));
    }
    rows
}

/// Writes the rows of the lattice into the first entries, one for each value, and leaves the rest.
/// Writes nothing where there are fewer entries than values.
pub fn write_rows<L: Lattice>(lattice: &L, rows: &mut [u64]) -> Result<(), TooFewEntries>
    ensures value { is_ok result ≡ nat_le (L.order lattice.now).size (length rows.old) }
    ensures written { rows.new ≡ with_rows (L.order lattice.now) rows.old }
    ensures same { OnOk result (table (take (L.order lattice.now).size rows.new) ≡ L.order lattice.now) }
{
    if rows.len() < usize::from(lattice.size()) {
        return Err(TooFewEntries);
    }
    let own = rows_of(lattice);
    rows[..own.len()].copy_from_slice(own.as_slice());
    Ok(())
}

/// The table whose order is that of the lattice.
pub fn tabulated<L: Lattice>(lattice: &L) -> Table
    ensures { table_order result ≡ L.order lattice.now }
{
    Table::try_from(rows_of(lattice).as_slice()).unwrap()
}
