//! What a policy is asked about: a set of values for each attribute.
ghost use Rattle.std.specs.Prelude.{◌≡◌, ◌≤◌};
ghost use Rattle.lattice.specs.Schemes.{scheme_sizes};
ghost use Rattle.policy.specs.Sized.{Sized};
ghost use Rattle.policy.specs.Labels.{or_top, filled, declared};

use crate::vocabulary::Vocabulary;
use lattice::Sizes;

/// A set of values for each attribute, a bit for each value.
// The four names of `Sizes` again: one struct over the type of its fields would save these lines and hide what they hold.
#[derive(Clone, Copy, PartialEq, Eq, Debug, Default)]
pub struct Label {
    pub store: u64,
    pub purpose: u64,
    pub role: u64,
    pub types: u64,
}

// The set, or the top alone where the set is empty.
fn or_top(size: u8, set: u64) -> u64
    requires { (1 ≤ size) × (size ≤ 64) }
    ensures { result ≡ or_top size set }
{
    if set == 0 { 1u64 << (size - 1) } else { set }
}

impl Label {
    /// The label with each attribute that is left out, an empty set, as its top alone.
    pub(crate) fn filled(self, sizes: Sizes) -> Label
        requires { Sized sizes }
        ensures { result ≡ filled sizes self }
    {
        Label {
            store: or_top(sizes.store, self.store),
            purpose: or_top(sizes.purpose, self.purpose),
            role: or_top(sizes.role, self.role),
            types: or_top(sizes.types, self.types),
        }
    }

    /// The label with each attribute that is left out, an empty set, as its top alone. Data types are never left out: there may be none.
    pub fn declared<V: Vocabulary>(self, scheme: &V) -> Label
        ensures { result ≡ declared (scheme_sizes (V.orders scheme.now)) self }
    {
        Label {
            types: self.types,
            ..self.filled(scheme.sizes())
        }
    }
}
