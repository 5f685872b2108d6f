//! The arguments of [`spread`](crate::spread) do not fit each other.
ghost use Rattle.std.specs.Prelude.{Some, codes};

use std::error::Error;
use std::fmt;

/// There are too many nodes or flows, too few words, or a flow or step names what is not there.
#[derive(Clone, Copy, PartialEq, Eq, Debug)]
pub struct Misfit;

impl fmt::Display for Misfit {
    ghost output = { λ _. Some (codes "nodes, workspace, flows and steps do not fit each other") };

    fn fmt<W: fmt::Write>(&self, f: &mut fmt::Formatter<W>) -> fmt::Result {
        write!(f, "nodes, workspace, flows and steps do not fit each other")
    }
}

impl Error for Misfit {}
