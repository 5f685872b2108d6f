//! Sets of data types, and paths, in words.
use lattice::bitset;
use std::fmt;

// Of the data types by their numbers.
const NAMES: [&str; 7] = [
    "nothing",
    "identity coarse",
    "identity full",
    "turns coarse",
    "turns full",
    "anything coarse",
    "anything full",
];

fn name(value: u8) -> &'static str {
    NAMES.get(usize::from(value)).unwrap_or(&"nothing")
}

/// A set of data types, shown by their names.
#[derive(Clone, Copy)]
pub struct DataTypes(pub u64);

impl DataTypes {
    /// The set that has this one value.
    pub fn only(value: u8) -> DataTypes {
        DataTypes(bitset::insert(0, value))
    }
}

impl fmt::Display for DataTypes {
    fn fmt<W: fmt::Write>(&self, f: &mut fmt::Formatter<W>) -> fmt::Result {
        f.write_str("{")?;
        let mut values = bitset::values(self.0);
        if let Some(first) = values.next() {
            f.write_str(name(first))?;
            for value in values {
                f.write_str(", ")?;
                f.write_str(name(value))?;
            }
        }
        f.write_str("}")
    }
}

/// The numbers of the flows of a path.
#[derive(Clone, Copy)]
pub struct Flows<'a>(pub &'a [u32]);

impl fmt::Display for Flows<'_> {
    fn fmt<W: fmt::Write>(&self, f: &mut fmt::Formatter<W>) -> fmt::Result {
        if let Some((first, rest)) = self.0.split_first() {
            write!(f, "{first}")?;
            for flow in rest {
                write!(f, ", {flow}")?;
            }
        }
        Ok(())
    }
}
