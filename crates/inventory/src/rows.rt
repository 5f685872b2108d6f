//! The rows of steps: what each value becomes.
ghost use Rattle.std.specs.Prelude.{◌≡◌, ℕ, ◌-◌, ◌<◌, ◌≤◌, ◌++◌, length, nat_lt, replicate};
ghost use Rattle.std.specs.List.{list_all};
ghost use Rattle.ledger.specs.Ledger.{good_row, counting};
ghost use Rattle.inventory.specs.View.{first_steps};

use arrayvec::ArrayVec;

/// Whether each entry is a value.
fn all_values(size: u8, row: &[u8]) -> bool
    ensures { result ≡ list_all (λ v. nat_lt v size) row.now }
{
    row.iter().all(|value| *value < size)
}

/// Whether the row has an entry for each value, each a value, and 0 becomes 0.
pub(crate) fn good_row(size: u8, row: &[u8]) -> bool
    requires { 2 ≤ size }
    ensures { result ≡ good_row size row.now }
{
    row.len() == size as usize && row[0] == 0 && all_values(size, row)
}

/// The row with zeros behind it.
pub(crate) fn padded(row: &[u8]) -> [u8; 64]
    requires { length row.now ≤ 64 }
    ensures { result ≡ row.now ++ replicate (64 - length row.now) 0 }
{
    let mut all = [0; 64];
    all[..row.len()].copy_from_slice(row);
    all
}

/// The row that leaves each value as it is, with zeros behind it.
fn identity(size: u8) -> [u8; 64]
    requires { size ≤ 64 }
    ensures { result ≡ counting size ++ replicate (64 - size) 0 }
{
    let values: [u8; 64] = std::array::from_fn(|value| value as u8);
    padded(&values[..size as usize])
}

/// The rows of a new inventory: the identity alone.
pub(crate) fn first_steps(size: u8) -> ArrayVec<[u8; 64], 32>
    requires { size ≤ 64 }
    ensures { result.items ≡ first_steps size }
{
    let mut steps = ArrayVec::new();
    steps.push(identity(size));
    steps
}
