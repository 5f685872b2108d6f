//! Why a call is declined, by the counts.
ghost use Rattle.std.specs.Prelude.{◌≡◌, ◌<◌, true, Some, None, IfOk};
ghost use Rattle.inventory.specs.Inventories.{view};
ghost use Rattle.inventory.specs.View.{flows_of, drawn};
ghost use Rattle.inventory.specs.Answers.{declined_by};
ghost use Rattle.inventory.specs.Checks.{refusal_of, judge_refusal, ends_there};
ghost use Rattle.refusals.specs.declared.refusal.Reason.TheVariants.{Unsettled};
ghost use Rattle.ledger.specs.Ledger.{unless, flow_number, enter as entering, step as stepping, mark as marking, verify as verifying, path as asking, draw as drawing, strike as striking};

use super::Inventory;
use crate::{finding, rows, sets};
use flows::FlowRecord;
use lattice::{Reason, Refusal, Sizes};

impl Inventory<'_> {
    /// Whether a node with these values can be entered.
    pub(super) fn check_enter(&self, store: u64, purpose: u64, role: u64) -> Result<(), Refusal>
        ensures { declined_by result ≡ refusal_of (view self.now) (entering store purpose role) }
    {
        let sizes = self.sizes;
        if !sets::in_range(sizes.store, store)
            || !sets::in_range(sizes.purpose, purpose)
            || !sets::in_range(sizes.role, role)
        {
            return Err(Reason::BadArgument.at(0));
        }
        if self.node_count >= self.node_room {
            return Err(Reason::NoRoom.at(0));
        }
        Ok(())
    }

    /// Whether a step with this row can be taken.
    pub(super) fn check_step(&self, row: &[u8]) -> Result<(), Refusal>
        ensures { declined_by result ≡ refusal_of (view self.now) (stepping row.now) }
    {
        if !rows::good_row(self.sizes.types, row) {
            return Err(Reason::BadArgument.at(0));
        }
        if self.steps.is_full() {
            return Err(Reason::NoRoom.at(0));
        }
        Ok(())
    }

    /// Whether the node is there.
    pub(super) fn check_node(&self, node: usize) -> Result<(), Refusal>
        ensures { declined_by result ≡ refusal_of (view self.now) (verifying node true) }
    {
        if node >= self.node_count {
            return Err(Reason::NoNode.at(node));
        }
        Ok(())
    }

    /// Whether the node is there, and the value is one that a node can be marked with.
    pub(super) fn check_value(&self, node: usize, value: u8) -> Result<(), Refusal>
        ensures { declined_by result ≡ refusal_of (view self.now) (marking node value) }
    {
        self.check_node(node)?;
        if value == 0 || value >= self.sizes.types {
            return Err(Reason::BadArgument.at(0));
        }
        Ok(())
    }

    /// Whether the labels are what the flows make of the marks.
    fn check_settled(&self) -> Result<(), Refusal>
        ensures { declined_by result ≡ unless (view self.now).settled Unsettled 0 }
    {
        if !self.settled {
            return Err(Reason::Unsettled.at(0));
        }
        Ok(())
    }

    /// Whether it can be asked how the value comes to the node.
    pub(super) fn check_path(&self, node: usize, value: u8) -> Result<(), Refusal>
        ensures { declined_by result ≡ refusal_of (view self.now) (asking node value 0) }
    {
        self.check_value(node, value)?;
        self.check_settled()
    }

    /// Whether a node can be judged by lattices and a policy of these sizes.
    pub(super) fn check_judge(
        &self,
        node: usize,
        scheme: Sizes,
        policy: Sizes,
    ) -> Result<(), Refusal>
        ensures { declined_by result ≡ judge_refusal (view self.now) node scheme policy }
    {
        self.check_node(node)?;
        self.check_settled()?;
        if scheme != self.sizes || policy != self.sizes {
            return Err(Reason::SizesDiffer.at(0));
        }
        Ok(())
    }

    /// The record of a flow, where its nodes and its step are there.
    fn check_ends(&self, from: usize, to: usize, step: usize) -> Result<FlowRecord, Refusal>
        ensures declined { declined_by result ≡ ends_there (view self.now) from to step None }
        ensures drawn { IfOk result (λ r. r ≡ drawn from to step) }
    {
        self.check_node(from)?;
        self.check_node(to)?;
        if step >= self.steps.len() {
            return Err(Reason::NoStep.at(step));
        }
        Ok(FlowRecord {
            from: from as u16,
            to: to as u16,
            step: step as u8,
        })
    }

    /// The number of a flow, where it stands.
    fn find(&self, flow: FlowRecord) -> Option<usize>
        ensures { result ≡ flow_number (flows_of (view self.now)) flow.«from» flow.to flow.step }
    {
        finding::flow_number(&self.flows[..self.flow_count], flow)
    }

    /// The record of the flow to draw.
    pub(super) fn check_draw(
        &self,
        from: usize,
        to: usize,
        step: usize,
    ) -> Result<FlowRecord, Refusal>
        ensures declined { declined_by result ≡ refusal_of (view self.now) (drawing from to step) }
        ensures drawn { IfOk result (λ r. r ≡ drawn from to step) }
    {
        let flow = self.check_ends(from, to, step)?;
        if self.find(flow).is_some() {
            return Err(Reason::FlowStands.at(0));
        }
        if self.flow_count >= self.flow_room {
            return Err(Reason::NoRoom.at(0));
        }
        Ok(flow)
    }

    /// The number of the flow to strike out.
    pub(super) fn check_strike(&self, from: usize, to: usize, step: usize) -> Result<usize, Refusal>
        ensures declined { declined_by result ≡ refusal_of (view self.now) (striking from to step) }
        ensures number { IfOk result (λ k. (flow_number (flows_of (view self.now)) from to step ≡ Some k) × (k < self.now.flow_count)) }
    {
        let flow = self.check_ends(from, to, step)?;
        self.find(flow).ok_or(Reason::NoFlow.at(0))
    }
}
