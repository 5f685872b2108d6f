//! The sizes that an inventory takes.
ghost use Rattle.std.specs.Prelude.{◌≡◌};
ghost use Rattle.ledger.specs.Ledger.{nearest_size};
ghost use Rattle.inventory.specs.View.{nearest_sizes};

use lattice::Sizes;

/// The size from 2 to 64 that is nearest.
fn nearest(size: u8) -> u8
    ensures { result ≡ nearest_size size }
{
    size.max(2).min(64)
}

/// The sizes from 2 to 64 that are nearest to those asked for.
pub(crate) fn clamped(sizes: Sizes) -> Sizes
    ensures { result ≡ nearest_sizes sizes }
{
    Sizes {
        store: nearest(sizes.store),
        purpose: nearest(sizes.purpose),
        role: nearest(sizes.role),
        types: nearest(sizes.types),
    }
}
