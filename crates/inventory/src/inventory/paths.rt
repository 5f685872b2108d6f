//! How a value comes to a node.
ghost use Rattle.std.specs.Prelude.{◌≡◌, ◌≤◌, length, drop, MatchResult};
ghost use Rattle.ledger.specs.Ledger.{path as asking};
ghost use Rattle.ledger.specs.Run.{Answered};
ghost use Rattle.inventory.specs.Answers.{path_answer};
ghost use Rattle.inventory.specs.Inventories.{view, ledger};
ghost use Rattle.inventory.specs.Paths.{told};
ghost use Rattle.inventory.specs.Promised.{PathPromised};

use super::Inventory;
use lattice::{Reason, Refusal, bitset};

impl Inventory<'_> {
    /// Writes the numbers of the flows of a shortest path by which `value` comes to `node`, from a mark onward, and gives their count.
    pub fn path(&self, node: usize, value: u8, piece: &mut [u32]) -> Result<usize, Refusal>
        ensures answered { Answered (ledger self.now) (asking node value (length piece.old)) (path_answer result piece.new) }
        ensures promised { PathPromised (ledger self.now) node value (length piece.old) (path_answer result piece.new) }
        ensures told { path_answer result piece.new ≡ told (view self.now) node value (length piece.old) }
        ensures rest { MatchResult result (λ k. (k ≤ length piece.old) × (drop k piece.new ≡ drop k piece.old)) (λ _. piece.new ≡ piece.old) }
    {
        self.check_path(node, value)?;
        if !bitset::contains(self.nodes[node].label, value) {
            return Err(Reason::NotInLabel.at(value as usize));
        }
        let count = self.workspace[128 * node + value as usize] as usize;
        let from = node as u16;
        if !flows::walk(self.workspace, self.flows, from, value, count, piece) {
            return Err(Reason::ShortPiece.at(0));
        }
        Ok(count)
    }
}
