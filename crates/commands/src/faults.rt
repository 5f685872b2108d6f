//! What is wrong with a line that asks for nothing.
ghost use Rattle.std.specs.Prelude.{◌≡◌, Some};
ghost use Rattle.commands.specs.Faults.{fault_words, no_number};

use lexer::NumberFault;
use std::error::Error;
use std::fmt;

#[derive(Clone, Copy, PartialEq, Eq, Debug)]
pub enum Fault {
    /// The first word is no command.
    NoCommand,
    MissingWord,
    SurplusWord,
    NotANumber,
    TooLarge,
    NotAName,
    NotASet,
    NotYesOrNo,
    NoLattice,
    NoScheme,
    NoPolicy,
    /// No line has made an inventory yet.
    NoInventory,
    /// More lattices, schemes or policies than a script may have.
    TooMany,
}

impl Fault {
    /// The fault in plain words.
    pub fn words(self) -> &'static str
        ensures { result.now ≡ fault_words self }
    {
        match self {
            Fault::NoCommand => "there is no such command",
            Fault::MissingWord => "a word is missing",
            Fault::SurplusWord => "there is a word too many",
            Fault::NotANumber => "a word is not a number",
            Fault::TooLarge => "a number is too large",
            Fault::NotAName => "a name has only letters, digits and -",
            Fault::NotASet => "a set is - or values with commas between",
            Fault::NotYesOrNo => "the last word is neither yes nor no",
            Fault::NoLattice => "no lattice has this name",
            Fault::NoScheme => "no scheme has this name",
            Fault::NoPolicy => "no policy has this name",
            Fault::NoInventory => "there is no inventory yet",
            Fault::TooMany => "a script has at most 4096 lattices, schemes and policies each",
        }
    }
}

impl fmt::Display for Fault {
    ghost output = { λ f. Some (fault_words f) };

    fn fmt<W: fmt::Write>(&self, f: &mut fmt::Formatter<W>) -> fmt::Result {
        f.write_str(self.words())
    }
}

impl Error for Fault {}

impl From<NumberFault> for Fault {
    ghost from_gives = { λ e f. f ≡ no_number e };

    fn from(fault: NumberFault) -> Fault {
        match fault {
            NumberFault::NotANumber => Fault::NotANumber,
            NumberFault::TooLarge => Fault::TooLarge,
        }
    }
}
