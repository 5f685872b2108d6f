//! What became of a reading.
use lattice::Refusal;
use std::fmt;

#[derive(Clone, Copy)]
pub struct Outcome(pub Result<(), Refusal>);

impl fmt::Display for Outcome {
    fn fmt<W: fmt::Write>(&self, f: &mut fmt::Formatter<W>) -> fmt::Result {
        match self.0 {
            Ok(()) => f.write_str("taken,"),
            Err(refusal) => write!(f, "{refusal};"),
        }
    }
}
