//! The editing calls: a module below the struct's, so that it sees the private fields.
ghost use Rattle.inventory.specs.Inventories.{SameMemory, view};
ghost use Rattle.inventory.specs.View.{Called};
ghost use Rattle.inventory.specs.Answers.{plain_answer, number_answer};
ghost use Rattle.ledger.specs.Ledger.{enter as entering, step as stepping, mark as marking, unmark as unmarking, verify as verifying, draw as drawing, strike as striking};

use super::Inventory;
use crate::rows;
use flows::NodeRecord;
use lattice::{Refusal, bitset};

impl Inventory<'_> {
    /// Enters a node with the values declared for it, and gives its number.
    pub fn enter(&mut self, store: u64, purpose: u64, role: u64) -> Result<usize, Refusal>
        ensures called { Called (view self.old) (view self.new) (entering store purpose role) (number_answer result) }
        ensures lent { SameMemory self.old self.new }
    {
        self.check_enter(store, purpose, role)?;
        let node = self.node_count;
        self.nodes[node] = NodeRecord {
            store,
            purpose,
            role,
            ..NodeRecord::default()
        };
        self.node_count = node + 1;
        self.settled = false;
        Ok(node)
    }

    /// Takes a step's row, which says what each value becomes, and gives the step's number.
    pub fn step(&mut self, row: &[u8]) -> Result<usize, Refusal>
        ensures called { Called (view self.old) (view self.new) (stepping row.now) (number_answer result) }
        ensures lent { SameMemory self.old self.new }
    {
        self.check_step(row)?;
        let number = self.steps.len();
        self.steps.push(rows::padded(row));
        self.settled = false;
        Ok(number)
    }

    /// Adds a value to a node's marks.
    pub fn mark(&mut self, node: usize, value: u8) -> Result<(), Refusal>
        ensures called { Called (view self.old) (view self.new) (marking node value) (plain_answer result) }
        ensures lent { SameMemory self.old self.new }
    {
        self.check_value(node, value)?;
        self.nodes[node].marks = bitset::insert(self.nodes[node].marks, value);
        self.settled = false;
        Ok(())
    }

    /// Takes a value from a node's marks.
    pub fn unmark(&mut self, node: usize, value: u8) -> Result<(), Refusal>
        ensures called { Called (view self.old) (view self.new) (unmarking node value) (plain_answer result) }
        ensures lent { SameMemory self.old self.new }
    {
        self.check_value(node, value)?;
        self.nodes[node].marks = bitset::remove(self.nodes[node].marks, value);
        self.settled = false;
        Ok(())
    }

    /// Says whether a node is verified.
    pub fn verify(&mut self, node: usize, verified: bool) -> Result<(), Refusal>
        ensures called { Called (view self.old) (view self.new) (verifying node verified) (plain_answer result) }
        ensures lent { SameMemory self.old self.new }
    {
        self.check_node(node)?;
        self.nodes[node].verified = verified;
        self.settled = false;
        Ok(())
    }

    /// Draws a flow from one node to another by a step.
    pub fn draw(&mut self, from: usize, to: usize, step: usize) -> Result<(), Refusal>
        ensures called { Called (view self.old) (view self.new) (drawing from to step) (plain_answer result) }
        ensures lent { SameMemory self.old self.new }
    {
        let flow = self.check_draw(from, to, step)?;
        let last = self.flow_count;
        self.flows[last] = flow;
        self.flow_count = last + 1;
        self.settled = false;
        Ok(())
    }

    /// Strikes a flow out: the last flow takes its number.
    pub fn strike(&mut self, from: usize, to: usize, step: usize) -> Result<(), Refusal>
        ensures called { Called (view self.old) (view self.new) (striking from to step) (plain_answer result) }
        ensures lent { SameMemory self.old self.new }
    {
        let place = self.check_strike(from, to, step)?;
        let last = self.flow_count - 1;
        self.flows[place] = self.flows[last];
        self.flow_count = last;
        self.settled = false;
        Ok(())
    }
}
