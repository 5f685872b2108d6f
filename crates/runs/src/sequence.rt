//! Whole runs.
ghost use Rattle.std.specs.Prelude.{◌≡◌, length, take, IfOk, OnErr};
ghost use Rattle.ledger.specs.Ledger.{fresh, path as asking};
ghost use Rattle.ledger.specs.Run.{EveryCallAnswered, EveryJudgementRight};
ghost use Rattle.runs.specs.Calls.{DoneBy, Made, Matched, One, answer_of, events, judged_by, named};
ghost use Rattle.inventory.specs.Inventories.{SameMemory, view};
ghost use Rattle.inventory.specs.View.{View, made_new};

use crate::calls::{Answer, Call};
use flows::{FlowRecord, NodeRecord};
use inventory::Inventory;
use lattice::Sizes;
use policy::{Policy, Vocabulary};
use std::alloc::{AllocError, Global};

// The path by which a value comes to a node, in a piece of its own.
fn shown(
    heap: Global,
    inventory: &Inventory,
    node: usize,
    value: u8,
    room: usize,
) -> Result<Answer, AllocError>
    ensures { IfOk result (λ a. Made (view inventory.now) (view inventory.now) (asking node value room) (answer_of a)) }
{
    let mut piece = vec![in heap; 0u32; room]?;
    match inventory.path(node, value, piece.as_mut_slice()) {
        Ok(count) => {
            piece.truncate(count);
            Ok(Answer::Shown(piece))
        }
        Err(refusal) => Ok(Answer::Refused(refusal)),
    }
}

// The first `len` entries of a row.
fn front(row: &[u8; 64], len: usize) -> &[u8]
    ensures { result.now ≡ take len row.now }
{
    &row[..len.min(64)]
}

// The schemes and the policies that a run is handed: a call names one by its number.
#[derive(Drop)]
struct Handed<'a, V> {
    schemes: &'a [V],
    policies: &'a [Policy],
}

impl<V: Vocabulary> Handed<'_, V> {
    // A node judged by the scheme and the policy of these numbers, where both were handed over.
    fn judge_by(
        &self,
        inventory: &Inventory,
        node: usize,
        scheme: usize,
        policy: usize,
    ) -> Option<Answer>
        ensures { One (view inventory.now) (view inventory.now) (judged_by V.orders self.now.schemes.now self.now.policies.now node scheme policy) result }
    {
        let scheme = self.schemes.get(scheme)?;
        let policy = self.policies.get(policy)?;
        Some(inventory.judge(node, scheme, policy).into())
    }

    // One call: a function of its own, so that the loop has one way.
    fn make(
        &self,
        heap: Global,
        inventory: &mut Inventory,
        call: &Call,
    ) -> Result<Option<Answer>, AllocError>
        ensures one { IfOk result (One (view inventory.old) (view inventory.new) (named V.orders self.now.schemes.now self.now.policies.now call.now)) }
        ensures failed { OnErr result (view inventory.new ≡ view inventory.old) }
        ensures lent { SameMemory inventory.old inventory.new }
    {
        match call {
            Call::Enter {
                store,
                purpose,
                role,
            } => Ok(Some(inventory.enter(*store, *purpose, *role).into())),
            Call::Step { row, len } => Ok(Some(inventory.step(front(row, *len)).into())),
            Call::Mark { node, value } => Ok(Some(inventory.mark(*node, *value).into())),
            Call::Unmark { node, value } => Ok(Some(inventory.unmark(*node, *value).into())),
            Call::Verify { node, verified } => Ok(Some(inventory.verify(*node, *verified).into())),
            Call::Draw { from, to, step } => Ok(Some(inventory.draw(*from, *to, *step).into())),
            Call::Strike { from, to, step } => Ok(Some(inventory.strike(*from, *to, *step).into())),
            Call::Settle => {
                inventory.settle();
                Ok(Some(Answer::Done))
            }
            Call::Judge {
                node,
                scheme,
                policy,
            } => Ok(self.judge_by(inventory, *node, *scheme, *policy)),
            Call::Path { node, value, room } => {
                let answer = shown(heap, inventory, *node, *value, *room)?;
                Ok(Some(answer))
            }
        }
    }
}

/// Makes an inventory over the memory lent, makes every call of it in turn, and gives the answers: none for a call that
/// names a scheme or a policy that was not handed over, which is no call then.
///
/// Each call is answered as the ledger before it says, so every judgement is right.
// The memory lent is three parameters and no struct, as for `Inventory::new`: each caller has the pieces apart.
pub fn run<V: Vocabulary>(
    heap: Global,
    sizes: Sizes,
    nodes: &mut [NodeRecord],
    flows: &mut [FlowRecord],
    workspace: &mut [u32],
    schemes: &[V],
    policies: &[Policy],
    calls: &[Call],
) -> Result<Vec<Option<Answer>>, AllocError>
    ensures matched { IfOk result (λ v. Matched V.Vocabulary.orders schemes.now policies.now calls.now v.items) }
    ensures memory { IfOk result (λ v. (w : View) × DoneBy V.Vocabulary.orders schemes.now policies.now (made_new sizes nodes.old flows.old workspace.old) calls.now v.items w × (nodes.new ≡ w.nodes) × (flows.new ≡ w.flows) × (workspace.new ≡ w.workspace)) }
    ensures answered { IfOk result (λ v. EveryCallAnswered (fresh sizes (length nodes.old) (length flows.old) (length workspace.old)) (events V.Vocabulary.orders schemes.now policies.now calls.now v.items)) }
    ensures right { IfOk result (λ v. EveryJudgementRight (fresh sizes (length nodes.old) (length flows.old) (length workspace.old)) (events V.Vocabulary.orders schemes.now policies.now calls.now v.items)) }
{
    let mut inventory = Inventory::new(sizes, nodes, flows, workspace);
    let handed = Handed { schemes, policies };
    let mut answers = Vec::new(heap);
    for call in calls {
        let answer = handed.make(heap, &mut inventory, call)?;
        answers.push(answer)?;
    }
    Ok(answers)
}
