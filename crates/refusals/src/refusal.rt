//! Why a call is refused, and where what it was given is at fault.
ghost use Rattle.std.specs.Prelude.{◌≡◌, Some};
ghost use Rattle.refusals.specs.Refusals.{number_of, layer_of};
ghost use Rattle.refusals.specs.Texts.{words_of, layer_word};

use std::error::Error;
use std::fmt;

/// The reasons, in the order in which they are tried.
#[derive(Clone, Copy, PartialEq, Eq, Debug)]
pub enum Reason {
    /// The table has fewer than 2 or more than 64 rows.
    RowCount = 1,
    /// The row has a bit at or above the row count.
    StrayBit = 2,
    /// The row lacks its own bit.
    NotReflexive = 3,
    /// The value and another are each at or below the other.
    NotAntisymmetric = 4,
    /// The value is below a second and that below a third, yet the value is not below the third.
    NotTransitive = 5,
    /// Value 0 is not at or below the value, or the last value is not at or above it.
    NotBounded = 6,
    /// The value and another have no least upper bound.
    NoJoin = 7,
    /// The ladder has fewer than 2 or more than 64 levels.
    LadderSize = 8,
    /// The pair would have more than 64 values.
    PairSize = 9,
    /// There are no words, or more than 4,096.
    WordCount = 10,
    /// The word has none of the five kinds, or a bit that must be 0.
    BadWord = 11,
    /// A word of this kind cannot stand here, or the words end too early.
    MisplacedWord = 12,
    /// The exception has the kind of the clause around it.
    SameKind = 13,
    /// There is no such attribute, or it has no such value past its bottom.
    BadValue = 14,
    /// The value does not come after the one before it.
    NotRising = 15,
    /// The clause is deeper than 16, or one more than 256.
    TooNested = 16,
    /// There is no such node.
    NoNode = 17,
    /// There is no such step.
    NoStep = 18,
    /// A value, a declared set or a row that the sizes do not have.
    BadArgument = 19,
    /// This flow stands already.
    FlowStands = 20,
    /// No such flow stands.
    NoFlow = 21,
    /// All node room, flow room or the 32 steps are in use.
    NoRoom = 22,
    /// The inventory was changed since it was settled.
    Unsettled = 23,
    /// The scheme, the policy and the inventory differ in a size.
    SizesDiffer = 24,
    /// The value is not in the node's label.
    NotInLabel = 25,
    /// The piece has fewer entries than the path has flows.
    ShortPiece = 26,
}

/// The part of the library that refused.
#[derive(Clone, Copy, PartialEq, Eq, Debug)]
pub enum Layer {
    Lattice,
    Words,
    Clauses,
    Inventory,
}

/// A refusal: nothing was written.
#[derive(Clone, Copy, PartialEq, Eq, Debug)]
pub struct Refusal {
    pub reason: Reason,
    /// Where the fault is: a row, a value, a word, a node or a step by its number, and 0 where nothing is numbered.
    pub place: usize,
}

impl Reason {
    /// The refusal for this reason, with its place.
    pub fn at(self, place: usize) -> Refusal
        ensures { result ≡ record { reason = self; place = place } }
    {
        Refusal {
            reason: self,
            place,
        }
    }

    /// The number by which the reason is known.
    pub fn number(self) -> u8
        ensures { result ≡ number_of self }
    {
        self as u8
    }

    /// The layer that refuses for this reason.
    pub fn layer(self) -> Layer
        ensures { result ≡ layer_of self }
    {
        match self {
            Reason::RowCount
            | Reason::StrayBit
            | Reason::NotReflexive
            | Reason::NotAntisymmetric
            | Reason::NotTransitive
            | Reason::NotBounded
            | Reason::NoJoin
            | Reason::LadderSize
            | Reason::PairSize => Layer::Lattice,
            Reason::WordCount | Reason::BadWord | Reason::MisplacedWord => Layer::Words,
            Reason::SameKind | Reason::BadValue | Reason::NotRising | Reason::TooNested =>
                Layer::Clauses,
            Reason::NoNode
            | Reason::NoStep
            | Reason::BadArgument
            | Reason::FlowStands
            | Reason::NoFlow
            | Reason::NoRoom
            | Reason::Unsettled
            | Reason::SizesDiffer
            | Reason::NotInLabel
            | Reason::ShortPiece => Layer::Inventory,
        }
    }

    /// The reason in plain words.
    pub fn words(self) -> &'static str
        ensures { result.now ≡ words_of self }
    {
        match self {
            Reason::RowCount => "a table has from 2 to 64 rows",
            Reason::StrayBit => "the row has a bit at or above the row count",
            Reason::NotReflexive => "the row lacks its own bit",
            Reason::NotAntisymmetric => "the value and another are each at or below the other",
            Reason::NotTransitive =>
                "the value is below a second and that below a third, yet not below the third",
            Reason::NotBounded =>
                "value 0 is not at or below the value, or the last value not at or above it",
            Reason::NoJoin => "the value and another have no least upper bound",
            Reason::LadderSize => "a ladder has from 2 to 64 levels",
            Reason::PairSize => "the pair would have more than 64 values",
            Reason::WordCount => "a policy has from 1 to 4,096 words",
            Reason::BadWord => "the word has none of the five kinds, or a bit that must be 0",
            Reason::MisplacedWord =>
                "a word of this kind cannot stand here, or the words end too early",
            Reason::SameKind => "an exception has the other kind than the clause around it",
            Reason::BadValue =>
                "there is no such attribute, or it has no such value past its bottom",
            Reason::NotRising => "values rise by attribute, then code",
            Reason::TooNested => "a policy has at most 256 clauses, at most 16 deep",
            Reason::NoNode => "there is no such node",
            Reason::NoStep => "there is no such step",
            Reason::BadArgument => "a value, a declared set or a row that the sizes do not have",
            Reason::FlowStands => "this flow stands already",
            Reason::NoFlow => "no such flow stands",
            Reason::NoRoom => "all node room, flow room or the 32 steps are in use",
            Reason::Unsettled => "the inventory was changed since it was settled",
            Reason::SizesDiffer => "the scheme, the policy and the inventory differ in a size",
            Reason::NotInLabel => "the value is not in the node's label",
            Reason::ShortPiece => "the piece has fewer entries than the path has flows",
        }
    }
}

impl Layer {
    /// The layer's name.
    pub fn word(self) -> &'static str
        ensures { result.now ≡ layer_word self }
    {
        match self {
            Layer::Lattice => "lattice",
            Layer::Words => "words",
            Layer::Clauses => "clauses",
            Layer::Inventory => "inventory",
        }
    }
}

impl fmt::Display for Reason {
    ghost output = { λ r. Some (words_of r) };

    fn fmt<W: fmt::Write>(&self, f: &mut fmt::Formatter<W>) -> fmt::Result {
        f.write_str(self.words())
    }
}

impl fmt::Display for Layer {
    ghost output = { λ l. Some (layer_word l) };

    fn fmt<W: fmt::Write>(&self, f: &mut fmt::Formatter<W>) -> fmt::Result {
        f.write_str(self.word())
    }
}

impl fmt::Display for Refusal {
    fn fmt<W: fmt::Write>(&self, f: &mut fmt::Formatter<W>) -> fmt::Result {
        let number = self.reason.number();
        let place = self.place;
        let layer = self.reason.layer();
        let reason = self.reason;
        write!(
            f,
            "refusal {number} at place {place}, layer {layer}: {reason}"
        )
    }
}

impl Error for Refusal {}
