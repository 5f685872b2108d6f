//! Whole runs over memory that is brought for them: what a host needs that lends none.
#![tactic(auto)]

ghost use Rattle.std.specs.Prelude.{◌≡◌, IfOk};
ghost use Rattle.ledger.specs.Ledger.{fresh};
ghost use Rattle.ledger.specs.Run.{EveryCallAnswered, EveryJudgementRight};
ghost use Rattle.runs.specs.Calls.{DoneBy, Matched, events};
ghost use Rattle.inventory.specs.View.{View, made_new};
ghost use Rattle.sessions.specs.Brought.{node_records, flow_records, workspace_words};

use flows::{FlowRecord, NodeRecord};
use lattice::Sizes;
use policy::{Policy, Vocabulary};
use runs::{Answer, Call};
use std::alloc::{AllocError, Global};

/// How many node records, flow records and workspace words an inventory may use.
#[derive(Clone, Copy)]
pub struct Rooms {
    pub nodes: usize,
    pub flows: usize,
    pub words: usize,
}

/// What a run was answered, and the records that it leaves.
#[derive(Drop)]
pub struct Session {
    pub answers: Vec<Option<Answer>>,
    pub nodes: Vec<NodeRecord>,
    pub flows: Vec<FlowRecord>,
}

/// Makes an inventory with these rooms over memory from the heap, and every call of it in turn.
///
/// Each call is answered as the ledger before it says, so every judgement is right.
pub fn run<V: Vocabulary>(
    heap: Global,
    sizes: Sizes,
    rooms: Rooms,
    schemes: &[V],
    policies: &[Policy],
    calls: &[Call],
) -> Result<Session, AllocError>
    ensures matched { IfOk result (λ s. Matched V.Vocabulary.orders schemes.now policies.now calls.now s.answers.items) }
    ensures memory { IfOk result (λ s. (w : View) × DoneBy V.Vocabulary.orders schemes.now policies.now (made_new sizes (node_records rooms.nodes) (flow_records rooms.flows) (workspace_words rooms.words)) calls.now s.answers.items w × (s.nodes.items ≡ w.nodes) × (s.flows.items ≡ w.flows)) }
    ensures answered { IfOk result (λ s. EveryCallAnswered (fresh sizes rooms.nodes rooms.flows rooms.words) (events V.Vocabulary.orders schemes.now policies.now calls.now s.answers.items)) }
    ensures right { IfOk result (λ s. EveryJudgementRight (fresh sizes rooms.nodes rooms.flows rooms.words) (events V.Vocabulary.orders schemes.now policies.now calls.now s.answers.items)) }
{
    // No inventory uses more than 4,096 node records with 128 words each, and 16,384 flow records: more is not brought.
    let mut nodes = vec![in heap; NodeRecord::default(); rooms.nodes.min(4096)]?;
    let mut flows = vec![in heap; FlowRecord::default(); rooms.flows.min(16_384)]?;
    let mut words = vec![in heap; 0u32; rooms.words.min(524_288)]?;
    let answers = runs::run(
        heap,
        sizes,
        nodes.as_mut_slice(),
        flows.as_mut_slice(),
        words.as_mut_slice(),
        schemes,
        policies,
        calls,
    )?;
    Ok(Session {
        answers,
        nodes,
        flows,
    })
}
