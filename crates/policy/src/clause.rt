//! Clauses as records in a row: a clause is followed by its exceptions, each with its own.
ghost use Rattle.std.specs.Prelude.{◌≡◌};
ghost use Rattle.policy.specs.Records.{is_allow};

use crate::label::Label;

#[derive(Clone, Copy, PartialEq, Eq, Debug, Default)]
pub(crate) enum Kind {
    #[default]
    Allow,
    Deny,
}

impl Kind {
    /// Whether a clause of this kind allows where nothing speaks against it.
    pub(crate) fn is_allow(self) -> bool
        ensures { result ≡ is_allow self }
    {
        self == Kind::Allow
    }
}

/// A clause of a policy. It points into the row by number, since a policy takes no heap: its clauses stand in one row and not in boxes.
#[derive(Clone, Copy, Default)]
pub(crate) struct ClauseRecord {
    pub(crate) kind: Kind,
    pub(crate) list: Label,
    /// The number of the first record behind this clause and its exceptions.
    pub(crate) end: u16,
}
