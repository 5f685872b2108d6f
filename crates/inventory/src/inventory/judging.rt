//! What a policy says of a node.
ghost use Rattle.std.specs.Prelude.{◌≡◌, ◌^◌, ◌<◌};
ghost use Rattle.policy.specs.Policies.{policy_of};
ghost use Rattle.ledger.specs.Ledger.{judge as judging};
ghost use Rattle.ledger.specs.Run.{Answered};
ghost use Rattle.inventory.specs.Answers.{judged_answer};
ghost use Rattle.inventory.specs.Inventories.{view, ledger};
ghost use Rattle.inventory.specs.Promised.{Promised};
ghost use Rattle.inventory.specs.View.{held_of};

use super::Inventory;
use flows::NodeRecord;
use lattice::Refusal;
use policy::{Label, Policy, Verdict, Vocabulary};

/// What is declared of a node, with the data types that reach it.
fn held(node: NodeRecord) -> Label
    ensures label { result ≡ held_of node }
    ensures small { node.label < 2 ^ 64 }
{
    Label {
        store: node.store,
        purpose: node.purpose,
        role: node.role,
        types: node.label,
    }
}

impl Inventory<'_> {
    /// Judges a node: whether the policy allows every set of values that flow paths can bring to it, and if not, on what that rests.
    pub fn judge<V: Vocabulary>(
        &self,
        node: usize,
        scheme: &V,
        policy: &Policy,
    ) -> Result<Verdict, Refusal>
        ensures answered { Answered (ledger self.now) (judging node (V.orders scheme.now) (policy_of policy.now)) (judged_answer result) }
        ensures promised { Promised (ledger self.now) node (V.orders scheme.now) (policy_of policy.now) result }
    {
        self.check_judge(node, scheme.sizes(), policy.sizes())?;
        let label = held(self.nodes[node]).declared(scheme);
        Ok(policy.judge(scheme, label))
    }
}
