//! The place of a flow among those that stand.
ghost use Rattle.std.specs.Prelude.{◌≡◌};
ghost use Rattle.std.specs.List.{position};
ghost use Rattle.ledger.specs.Ledger.{same_flow};
ghost use Rattle.inventory.specs.View.{flow_of};

use flows::FlowRecord;

/// The number of the first flow that is this one.
pub(crate) fn flow_number(flows: &[FlowRecord], flow: FlowRecord) -> Option<usize>
    ensures { result ≡ position (λ r. same_flow (flow_of r) flow.«from» flow.to flow.step) flows.now }
{
    flows.iter().position(|other| *other == flow)
}
