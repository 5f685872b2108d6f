//! What reaches the nodes.
ghost use Rattle.std.specs.Prelude.{◌≡◌, ℕ, ◌<◌};
ghost use Rattle.ledger.specs.Ledger.{after, settle as settling};
ghost use Rattle.ledger.specs.Run.{LabelOf};
ghost use Rattle.inventory.specs.Inventories.{SameMemory, view, ledger};
ghost use Rattle.inventory.specs.View.{record_at};
ghost use Rattle.inventory.specs.Resettled.{Resettled};

use super::Inventory;
use lattice::Sizes;

impl<'a> Inventory<'a> {
    /// An inventory over no memory: what stands in another's place while that is settled.
    fn empty() -> Self {
        let sizes = Sizes {
            store: 2,
            purpose: 2,
            role: 2,
            types: 2,
        };
        Inventory::new(sizes, &mut [], &mut [], &mut [])
    }

    /// The inventory settled. It is taken apart: a slice behind `&mut self` of a struct with an invariant cannot be handed on.
    fn resettled(self) -> Self
        ensures ledger { ledger result ≡ after (ledger self.entry) settling }
        ensures labels { (n : ℕ) → n < result.node_count → LabelOf (ledger result) n (record_at (view result) n).label }
        ensures rest { Resettled (view self.entry) (view result) }
        ensures lent { SameMemory self.entry result }
    {
        let Inventory {
            nodes,
            flows,
            workspace,
            steps,
            node_count,
            flow_count,
            node_room,
            flow_room,
            sizes,
            settled: _,
        } = self;
        // What the inventory holds fits, so the answer is never an error.
        let rows = steps.as_slice();
        let _ = flows::spread(nodes, workspace, flows, rows, node_count, flow_count);
        Inventory {
            nodes,
            flows,
            workspace,
            steps,
            node_count,
            flow_count,
            node_room,
            flow_room,
            sizes,
            settled: true,
        }
    }

    /// Fills each node's label with the values that reach it, so that `judge` and `path` can be asked.
    pub fn settle(&mut self)
        ensures ledger { ledger self.new ≡ after (ledger self.old) settling }
        ensures labels { (n : ℕ) → n < self.new.node_count → LabelOf (ledger self.new) n (record_at (view self.new) n).label }
        ensures rest { Resettled (view self.old) (view self.new) }
        ensures lent { SameMemory self.old self.new }
    {
        let whole = std::mem::replace(self, Inventory::empty());
        *self = whole.resettled();
    }
}
