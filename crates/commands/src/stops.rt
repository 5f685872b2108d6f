//! Why a line could not be read.
ghost use Rattle.std.specs.Prelude.{◌≡◌, Some};
ghost use Rattle.commands.specs.declared.stops.Stop.TheVariants.{NoMemory};
ghost use Rattle.commands.specs.declared.stops.Stop.TheVariants as stops;
ghost use Rattle.commands.specs.Stops.{stop_words};

use crate::faults::Fault;
use std::alloc::{AllocError, AllocFailed};
use std::error::Error;
use std::fmt;

/// A fault of the line, or no memory for what it says.
#[derive(Clone, Copy, PartialEq, Eq, Debug)]
pub enum Stop {
    Fault(Fault),
    NoMemory,
}

impl fmt::Display for Stop {
    ghost output = { λ s. Some (stop_words s) };

    fn fmt<W: fmt::Write>(&self, f: &mut fmt::Formatter<W>) -> fmt::Result {
        f.write_str(match self {
            Stop::Fault(cause) => cause.words(),
            Stop::NoMemory => "there is no memory left",
        })
    }
}

impl Error for Stop {}

impl From<Fault> for Stop {
    ghost from_gives = { λ f r. r ≡ stops.Fault f };

    fn from(fault: Fault) -> Stop {
        Stop::Fault(fault)
    }
}

impl From<AllocError> for Stop {
    ghost from_gives = { λ _ r. r ≡ NoMemory };

    fn from(_error: AllocError) -> Stop {
        Stop::NoMemory
    }
}

impl<T: Drop> From<AllocFailed<T>> for Stop {
    ghost from_gives = { λ _ r. r ≡ NoMemory };

    fn from(_error: AllocFailed<T>) -> Stop {
        Stop::NoMemory
    }
}
