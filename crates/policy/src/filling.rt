//! A clause record while its words are read: its list grows, and is filled up at the end.
ghost use Rattle.std.specs.Prelude.{◌≡◌, ◌<◌};
ghost use Rattle.policy.specs.Sized.{Sized};
ghost use Rattle.policy.specs.Walk.{listed, with_value, closed, fresh};

use crate::clause::{ClauseRecord, Kind};
use crate::label::Label;
use crate::word::Value;
use lattice::Sizes;
use lattice::bitset::insert;

impl Label {
    // Adds a value of an attribute. By number, as in `size_of`: a `Value` keeps the number that its word says.
    #[tactic(auto, using(crate::proofs::Values::inserted_by_or))]
    fn insert(&mut self, value: Value)
        requires { value.code < 64 }
        ensures { self.new ≡ listed value.attribute value.code self.old }
    {
        match value.attribute {
            0 => self.store = insert(self.store, value.code),
            1 => self.purpose = insert(self.purpose, value.code),
            2 => self.role = insert(self.role, value.code),
            _ => self.types = insert(self.types, value.code),
        }
    }
}

impl ClauseRecord {
    /// The record of a clause whose head alone is read.
    pub(crate) fn opened(kind: Kind) -> ClauseRecord
        ensures { result ≡ fresh kind }
    {
        ClauseRecord {
            kind,
            list: Label::default(),
            end: 0,
        }
    }

    /// Adds a value to the list.
    pub(crate) fn insert(&mut self, value: Value)
        requires { value.code < 64 }
        ensures { self.new ≡ with_value value.attribute value.code self.old }
    {
        self.list.insert(value);
    }

    /// Fills the list up and sets the end.
    pub(crate) fn close(&mut self, sizes: Sizes, end: u16)
        requires { Sized sizes }
        ensures { self.new ≡ closed sizes end self.old }
    {
        self.list = self.list.filled(sizes);
        self.end = end;
    }
}
