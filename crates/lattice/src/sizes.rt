//! How many values each attribute's lattice has.

/// A size for each attribute.
#[derive(Clone, Copy, PartialEq, Eq, Debug)]
pub struct Sizes {
    pub store: u8,
    pub purpose: u8,
    pub role: u8,
    pub types: u8,
}
