//! What a clause allows, which clause decides, and which data types a denial rests on.
ghost use Rattle.std.specs.Prelude.{◌≡◌, ◌<◌, length};
ghost use Rattle.policy.specs.Clauses.{has_bottom, allows, decider, evidence};
ghost use Rattle.policy.specs.Records.{tree, Nested, Opens};
ghost use Rattle.policy.specs.Verdicts.{left_after};

use crate::clause::{ClauseRecord, Kind};
use crate::label::Label;
use crate::vocabulary::Vocabulary;
use lattice::bitset::{contains, remove, values};

/// The answer of a clause, and the number of the clause that it rests on.
// A clause decides whether the label passes or not, so an enum of the two answers would hold the number twice.
#[derive(Clone, Copy, PartialEq, Eq, Debug)]
pub struct Decision {
    pub passed: bool,
    pub clause: usize,
}

/// A clause by its number among the records of a policy, and the lattices in which it is asked.
#[derive(Drop)]
pub(crate) struct Asked<'a, V> {
    pub(crate) scheme: &'a V,
    pub(crate) records: &'a [ClauseRecord],
    pub(crate) number: usize,
    ghost nested: { ∥ Nested records.now ∥₁ },
    ghost inside: { number < length records.now },
}

// Whether the bottom stands in some attribute.
fn meets_nothing(label: Label) -> bool
    ensures { result ≡ has_bottom label }
{
    contains(label.store, 0)
        || contains(label.purpose, 0)
        || contains(label.role, 0)
        || contains(label.types, 0)
}

// The label that a clause asks its exceptions about. Where there is none it decides itself, and not as is usual for its kind.
fn opened<V: Vocabulary>(scheme: &V, clause: ClauseRecord, label: Label) -> Option<Label>
    ensures { Opens (V.orders scheme.now) clause label result }
{
    match clause.kind {
        Kind::Allow => scheme.covers(label, clause.list).then_some(label),
        Kind::Deny => {
            let common = scheme.narrow(label, clause.list);
            (!meets_nothing(common)).then_some(common)
        }
    }
}

impl<V: Vocabulary> Asked<'_, V> {
    /// What the clause answers.
    pub(crate) fn decide(&self, label: Label) -> Decision
        ensures passed { result.passed ≡ allows (V.orders self.now.scheme.now) (tree self.now.records.now self.now.number) label }
        ensures clause { result.clause ≡ decider (V.orders self.now.scheme.now) self.now.number (tree self.now.records.now self.now.number) label }
    {
        let own = self.records[self.number];
        let usual = own.kind.is_allow();
        let Some(asked) = opened(self.scheme, own, label) else {
            return Decision {
                passed: !usual,
                clause: self.number,
            };
        };
        // The numbers between are those of exceptions' own exceptions: each next one stands at the end of the one before.
        let mut next = self.number + 1;
        while next < usize::from(own.end) {
            let exception = Asked {
                scheme: self.scheme,
                records: self.records,
                number: next,
            };
            let decision = exception.decide(asked);
            if decision.passed != usual {
                return decision;
            }
            next = usize::from(self.records[next].end);
        }
        Decision {
            passed: usual,
            clause: self.number,
        }
    }

    // Whether the clause allows `label`.
    fn allows(&self, label: Label) -> bool
        ensures { result ≡ allows (V.orders self.now.scheme.now) (tree self.now.records.now self.now.number) label }
    {
        self.decide(label).passed
    }

    // `left` without `value`, where `label` with that as its data types is still denied.
    fn leave_out(&self, label: Label, left: u64, value: u8) -> u64
        ensures { result ≡ left_after (V.orders self.now.scheme.now) (tree self.now.records.now self.now.number) label left value }
    {
        let types = remove(left, value);
        if self.allows(Label { types, ..label }) {
            left
        } else {
            types
        }
    }

    /// The data types that a denial of `label` rests on.
    pub(crate) fn evidence(&self, label: Label) -> u64
        ensures { result ≡ evidence (V.orders self.now.scheme.now) (tree self.now.records.now self.now.number) label }
    {
        if self.allows(label) {
            return 0;
        }
        values(label.types).fold(label.types, |left, v| self.leave_out(label, left, v))
    }
}
