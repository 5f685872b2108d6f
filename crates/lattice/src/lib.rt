//! Finite lattices behind one trait: values are the numbers below a size of 2 to 64, 0 is the bottom and the last value the top.
#![tactic(auto)]

ghost use Rattle.std.specs.Prelude.{◌≡◌};
ghost use Rattle.lattice.specs.Order.{Order, Lattice as Laws, meet, join};
ghost use Rattle.lattice.specs.Algebra.{Algebra};

pub mod attribute;
pub mod bitset;
pub mod ladder;
pub mod pair;
mod rows;
pub mod scheme;
pub mod sizes;
pub mod table;

pub use attribute::Attribute;
pub use ladder::Ladder;
pub use pair::{Pair, fits};
pub use refusals::{Layer, Reason, Refusal};
pub use scheme::Scheme;
pub use sizes::Sizes;
pub use table::Table;

/// A finite lattice: a size, an order on the values below it, and their meets and joins.
pub trait Lattice {
    // What the value means: a size, and which value is at or below which.
    ghost order: { Self → Order };

    /// How many values there are.
    fn size(&self) -> u8
        ensures { result ≡ (order self.now).size };

    /// Whether `a` is at or below `b`; no value outside the lattice is.
    fn below(&self, a: u8, b: u8) -> bool
        ensures { result ≡ (order self.now).below a b };

    /// The greatest value at or below both, absent where `a` or `b` is no value of the lattice.
    fn meet(&self, a: u8, b: u8) -> Option<u8>
        ensures { result ≡ meet (order self.now) a b };

    /// The least value at or above both, absent where `a` or `b` is no value of the lattice.
    fn join(&self, a: u8, b: u8) -> Option<u8>
        ensures { result ≡ join (order self.now) a b };

    ghost lawful: { (s : Self) → Laws (order s) };
}

/// The meets and joins of every lattice are idempotent, commutative, associative and monotone, and agree with the order.
/// It does nothing: a caller learns the fact.
pub fn algebra<L: Lattice>(l: &L)
    ensures { Algebra (L.order l.now) }
{}
