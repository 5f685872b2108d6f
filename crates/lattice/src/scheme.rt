//! A lattice for each of the four attributes.
ghost use Rattle.std.specs.Prelude.{◌≡◌};
ghost use Rattle.lattice.specs.Schemes.{scheme_of, scheme_sizes};

use crate::Lattice;
use crate::sizes::Sizes;

/// One lattice for each attribute.
#[derive(Drop)]
pub struct Scheme<S, P, R, T> {
    pub store: S,
    pub purpose: P,
    pub role: R,
    pub types: T,
}

impl<S: Lattice, P: Lattice, R: Lattice, T: Lattice> Scheme<S, P, R, T> {
    /// The sizes of the four lattices.
    pub fn sizes(&self) -> Sizes
        ensures { result ≡ scheme_sizes (scheme_of (S.Lattice.order self.now.store) (P.Lattice.order self.now.purpose) (R.Lattice.order self.now.role) (T.Lattice.order self.now.types)) }
    {
        Sizes {
            store: self.store.size(),
            purpose: self.purpose.size(),
            role: self.role.size(),
            types: self.types.size(),
        }
    }
}
