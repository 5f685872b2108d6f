//! Policies are made of words.
ghost use Rattle.std.specs.Prelude.{◌≡◌};
ghost use Rattle.lattice.specs.Schemes.{scheme_sizes};
ghost use Rattle.policy.specs.Policies.{Takes, policy_of, starting};

use super::Policy;
use crate::clause::{ClauseRecord, Kind};
use crate::draft::Draft;
use crate::label::Label;
use crate::vocabulary::Vocabulary;
use arrayvec::ArrayVec;
use lattice::{Refusal, Sizes};

impl Policy {
    /// One DENY without values, for lattices of two values.
    pub fn new() -> Policy
        ensures { policy_of result ≡ starting }
    {
        // An attribute that is left out is its top alone, here value 1.
        let list = Label {
            store: 2,
            purpose: 2,
            role: 2,
            types: 2,
        };
        let mut clauses = ArrayVec::new();
        clauses.push(ClauseRecord {
            kind: Kind::Deny,
            list,
            end: 1,
        });
        Policy {
            clauses,
            sizes: Sizes {
                store: 2,
                purpose: 2,
                role: 2,
                types: 2,
            },
        }
    }

    /// Makes this the policy that the words spell for the lattices of `scheme`. Words that spell none are refused, and the policy is as it was.
    pub fn read<V: Vocabulary>(&mut self, words: &[u32], scheme: &V) -> Result<(), Refusal>
        ensures { Takes (scheme_sizes (V.orders scheme.now)) words.now self.old result self.new }
    {
        let Draft { clauses, sizes, .. } = Draft::read(words, scheme.sizes())?;
        *self = Policy { clauses, sizes };
        Ok(())
    }

    /// The sizes of the lattices that the policy was read for.
    pub fn sizes(&self) -> Sizes
        ensures { result ≡ (policy_of self.now).sizes }
    {
        self.sizes
    }
}
