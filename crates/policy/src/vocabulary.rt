//! The four lattices behind one trait, so that what is built on them has one type parameter and not four.
ghost use Rattle.std.specs.Prelude.{◌≡◌};
ghost use Rattle.lattice.specs.Schemes.{Scheme as Orders, Lattices, scheme_of, scheme_sizes};
ghost use Rattle.policy.specs.Clauses.{covered, narrowed};

use crate::label::Label;
use crate::narrowing;
use lattice::{Lattice, Scheme, Sizes};

/// The lattices of the four attributes, as a policy asks them.
pub trait Vocabulary {
    /// The orders of the four attributes.
    ghost orders: { Self → Orders };

    /// The sizes of the four lattices.
    fn sizes(&self) -> Sizes
        ensures { result ≡ scheme_sizes (orders self.now) };

    /// Whether each value of `label` is at or below some value of `list`.
    fn covers(&self, label: Label, list: Label) -> bool
        ensures { result ≡ covered (orders self.now) label list };

    /// What `list` has in common with `label`.
    fn narrow(&self, label: Label, list: Label) -> Label
        ensures { result ≡ narrowed (orders self.now) label list };

    ghost lawful: { (s : Self) → Lattices (orders s) };
}

impl<S: Lattice, P: Lattice, R: Lattice, T: Lattice> Vocabulary for Scheme<S, P, R, T> {
    ghost orders = { λ s. scheme_of (S.Lattice.order s.store) (P.Lattice.order s.purpose) (R.Lattice.order s.role) (T.Lattice.order s.types) };

    ghost lawful = { λ s.
        record {
          store = S.Lattice.lawful s.store;
          purpose = P.Lattice.lawful s.purpose;
          role = R.Lattice.lawful s.role;
          types = T.Lattice.lawful s.types;
        } };

    fn sizes(&self) -> Sizes {
        Scheme::sizes(self)
    }

    fn covers(&self, label: Label, list: Label) -> bool {
        narrowing::covers(&self.store, label.store, list.store)
            && narrowing::covers(&self.purpose, label.purpose, list.purpose)
            && narrowing::covers(&self.role, label.role, list.role)
            && narrowing::covers(&self.types, label.types, list.types)
    }

    fn narrow(&self, label: Label, list: Label) -> Label {
        Label {
            store: narrowing::narrow(&self.store, label.store, list.store),
            purpose: narrowing::narrow(&self.purpose, label.purpose, list.purpose),
            role: narrowing::narrow(&self.role, label.role, list.role),
            types: narrowing::narrow(&self.types, label.types, list.types),
        }
    }
}
