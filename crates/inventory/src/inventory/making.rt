//! An inventory is made over lent memory, and gives it back.
ghost use Rattle.std.specs.Prelude.{◌≡◌, length};
ghost use Rattle.ledger.specs.Ledger.{fresh};
ghost use Rattle.inventory.specs.Inventories.{view, ledger};
ghost use Rattle.inventory.specs.View.{made_new};

use super::Inventory;
use crate::{rows, sizes};
use flows::{FlowRecord, NodeRecord};
use lattice::Sizes;

/// The three pieces of memory of an inventory.
#[derive(Drop)]
pub struct Lent<'a> {
    pub nodes: &'a mut [NodeRecord],
    pub flows: &'a mut [FlowRecord],
    pub workspace: &'a mut [u32],
}

impl<'a> Inventory<'a> {
    /// An inventory with no nodes and no flows, over the memory lent. Its one step leaves every value as it is.
    /// There is room for as many nodes as there are records and 128 words of workspace for each, and for 4096 at most,
    /// and for as many flows as there are records, and for 16384 at most.
    // The pieces are three parameters and no `Lent`: each caller has them apart, and would wrap them up only to be unwrapped here.
    pub fn new(
        sizes: Sizes,
        nodes: &'a mut [NodeRecord],
        flows: &'a mut [FlowRecord],
        workspace: &'a mut [u32],
    ) -> Self
        ensures memory { view result ≡ made_new sizes nodes.old flows.old workspace.old }
        ensures ledger { ledger result ≡ fresh sizes (length nodes.old) (length flows.old) (length workspace.old) }
        ensures nodes_lent { result.nodes.ghost_name ≡ nodes.entry.ghost_name }
        ensures flows_lent { result.flows.ghost_name ≡ flows.entry.ghost_name }
        ensures workspace_lent { result.workspace.ghost_name ≡ workspace.entry.ghost_name }
    {
        let sizes = sizes::clamped(sizes);
        let node_room = 4096usize.min(nodes.len().min(workspace.len() / 128));
        let flow_room = 16384usize.min(flows.len());
        Inventory {
            nodes,
            flows,
            workspace,
            steps: rows::first_steps(sizes.types),
            node_count: 0,
            flow_count: 0,
            node_room,
            flow_room,
            sizes,
            settled: true,
        }
    }

    /// Gives the memory back, with all that the inventory wrote there.
    pub fn release(self) -> Lent<'a>
        ensures nodes { result.nodes.now ≡ (view self.entry).nodes }
        ensures flows { result.flows.now ≡ (view self.entry).flows }
        ensures workspace { result.workspace.now ≡ (view self.entry).workspace }
        ensures nodes_lent { result.nodes.ghost_name ≡ self.entry.nodes.ghost_name }
        ensures flows_lent { result.flows.ghost_name ≡ self.entry.flows.ghost_name }
        ensures workspace_lent { result.workspace.ghost_name ≡ self.entry.workspace.ghost_name }
    {
        let Inventory {
            nodes,
            flows,
            workspace,
            ..
        } = self;
        Lent {
            nodes,
            flows,
            workspace,
        }
    }
}
