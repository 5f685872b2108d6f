//! Sets of values that are in range.
ghost use Rattle.std.specs.Prelude.{◌≡◌, ◌≤◌};
ghost use Rattle.policy.specs.Words.{in_range};

/// Whether every value of the set is from 1 to the size less 1.
// The first test is asked of rows in crate `lattice` too: one line there and here, which a function would not shorten.
pub(crate) fn in_range(size: u8, set: u64) -> bool
    requires { size ≤ 64 }
    ensures { result ≡ in_range size set }
{
    if size < 64 && set >> size != 0 {
        return false;
    }
    set % 2 == 0
}
