//! What a policy says of a label.
ghost use Rattle.std.specs.Prelude.{◌≡◌};
ghost use Rattle.policy.specs.Clauses.{allows, decider, evidence};
ghost use Rattle.policy.specs.Policies.{policy_of};
ghost use Rattle.policy.specs.Records.{tree};
ghost use Rattle.policy.specs.Verdicts.{Just};

use super::Policy;
use crate::deciding::{Asked, Decision};
use crate::label::Label;
use crate::vocabulary::Vocabulary;

/// What a policy says of a label: whether it passes, the clause that decides, and the data types that a refusal rests on.
// The clause stands in both cases and the evidence of a passed label is the empty set, so an enum would be no plainer.
#[derive(Clone, Copy, PartialEq, Eq, Debug)]
pub struct Verdict {
    pub passed: bool,
    pub clause: usize,
    pub evidence: u64,
}

impl Policy {
    // The policy's clause, asked in the lattices of `scheme`.
    fn asked<'a, V: Vocabulary>(&'a self, scheme: &'a V) -> Asked<'a, V>
        ensures scheme { result.scheme.now ≡ scheme.now }
        ensures clause { tree result.records.now result.number ≡ (policy_of self.now).clause }
        ensures number { result.number ≡ 0 }
    {
        Asked {
            scheme,
            records: &self.clauses,
            number: 0,
        }
    }

    /// Whether the policy allows `label`, and the number of the clause that decides.
    pub fn decide<V: Vocabulary>(&self, scheme: &V, label: Label) -> Decision
        ensures passed { result.passed ≡ allows (V.orders scheme.now) (policy_of self.now).clause label }
        ensures clause { result.clause ≡ decider (V.orders scheme.now) 0 (policy_of self.now).clause label }
    {
        self.asked(scheme).decide(label)
    }

    /// The data types that a refusal of `label` rests on: none where it passes.
    pub fn evidence<V: Vocabulary>(&self, scheme: &V, label: Label) -> u64
        ensures { result ≡ evidence (V.orders scheme.now) (policy_of self.now).clause label }
    {
        self.asked(scheme).evidence(label)
    }

    /// The whole verdict on `label`.
    pub fn judge<V: Vocabulary>(&self, scheme: &V, label: Label) -> Verdict
        ensures passed { result.passed ≡ allows (V.orders scheme.now) (policy_of self.now).clause label }
        ensures clause { result.clause ≡ decider (V.orders scheme.now) 0 (policy_of self.now).clause label }
        ensures evidence { result.evidence ≡ evidence (V.orders scheme.now) (policy_of self.now).clause label }
        ensures just { Just (V.orders scheme.now) (policy_of self.now).clause label result.passed result.clause result.evidence }
    {
        let decision = self.decide(scheme, label);
        Verdict {
            passed: decision.passed,
            clause: decision.clause,
            evidence: self.evidence(scheme, label),
        }
    }
}
