//! The commands of a script, each with the kinds of its arguments.
ghost use Rattle.std.specs.Prelude.{◌≡◌, MatchOption, ◌≢◌};
ghost use Rattle.commands.specs.Verbs.{Names, word_of, kinds_of, more_of};

use crate::faults::Fault;
use std::str::{FromStr, from_utf8};

/// What the first word of a line asks for.
#[derive(Clone, Copy, PartialEq, Eq, Debug)]
pub enum Verb {
    Ladder,
    Table,
    Pair,
    Scheme,
    Policy,
    Inventory,
    Enter,
    Step,
    Mark,
    Unmark,
    Verify,
    Draw,
    Strike,
    Settle,
    Judge,
    Path,
}

/// What a word of a line has to be.
#[derive(Clone, Copy, PartialEq, Eq, Debug)]
pub enum Kind {
    Name,
    /// A number of 64 bits.
    Number,
    /// A number of 32 bits.
    Word,
    /// A number of 8 bits.
    Byte,
    /// A number of flows: no path has more than 262,144.
    Room,
    Set,
    YesOrNo,
}

impl FromStr for Verb {
    type Err = Fault;

    ghost from_str_gives = { Names };

    fn from_str(word: &str) -> Result<Verb, Fault> {
        match word {
            "ladder" => Ok(Verb::Ladder),
            "table" => Ok(Verb::Table),
            "pair" => Ok(Verb::Pair),
            "scheme" => Ok(Verb::Scheme),
            "policy" => Ok(Verb::Policy),
            "inventory" => Ok(Verb::Inventory),
            "enter" => Ok(Verb::Enter),
            "step" => Ok(Verb::Step),
            "mark" => Ok(Verb::Mark),
            "unmark" => Ok(Verb::Unmark),
            "verify" => Ok(Verb::Verify),
            "draw" => Ok(Verb::Draw),
            "strike" => Ok(Verb::Strike),
            "settle" => Ok(Verb::Settle),
            "judge" => Ok(Verb::Judge),
            "path" => Ok(Verb::Path),
            _ => Err(Fault::NoCommand),
        }
    }
}

impl<'a> TryFrom<&'a [u8]> for Verb {
    type Error = Fault;

    ghost try_from_gives = { λ word r. Names word.now r };

    fn try_from(word: &'a [u8]) -> Result<Verb, Fault> {
        match from_utf8(word) {
            Ok(text) => text.parse(),
            Err(_) => Err(Fault::NoCommand),
        }
    }
}

impl Verb {
    /// The command that a word names; any other word names none.
    pub fn named(word: &[u8]) -> Option<Verb>
        ensures { MatchOption result ((v : Verb) → word.now ≢ word_of v) (λ v. word.now ≡ word_of v) }
    {
        Verb::try_from(word).ok()
    }

    /// The kinds of the arguments that the command always has.
    pub fn kinds(self) -> &'static [Kind]
        ensures { result.now ≡ kinds_of self }
    {
        match self {
            Verb::Ladder => &[Kind::Name, Kind::Number],
            Verb::Table => &[Kind::Name],
            Verb::Pair => &[Kind::Name, Kind::Name, Kind::Name],
            Verb::Scheme => &[Kind::Name, Kind::Name, Kind::Name, Kind::Name, Kind::Name],
            Verb::Policy => &[Kind::Name, Kind::Name],
            Verb::Inventory => &[
                Kind::Byte,
                Kind::Byte,
                Kind::Byte,
                Kind::Byte,
                Kind::Number,
                Kind::Number,
                Kind::Number,
            ],
            Verb::Enter => &[Kind::Set, Kind::Set, Kind::Set],
            Verb::Step | Verb::Settle => &[],
            Verb::Mark | Verb::Unmark => &[Kind::Number, Kind::Byte],
            Verb::Verify => &[Kind::Number, Kind::YesOrNo],
            Verb::Draw | Verb::Strike => &[Kind::Number, Kind::Number, Kind::Number],
            Verb::Judge => &[Kind::Number, Kind::Name, Kind::Name],
            Verb::Path => &[Kind::Number, Kind::Byte, Kind::Room],
        }
    }

    /// The kind of the further argument number `at`, where the command takes one: a row has at most 64 entries.
    pub fn more(self, at: usize) -> Option<Kind>
        ensures { result ≡ more_of self at }
    {
        match self {
            Verb::Table => Some(Kind::Number),
            Verb::Policy => Some(Kind::Word),
            Verb::Step if at < 64 => Some(Kind::Byte),
            _ => None,
        }
    }
}
