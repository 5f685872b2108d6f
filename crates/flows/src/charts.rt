//! What the rounds read and do not write.
use crate::records::FlowRecord;

/// The flows, with the chains that lead to them from the nodes where they start, and the steps.
#[derive(Clone, Copy)]
pub(crate) struct Chart<'a> {
    pub(crate) flows: &'a [FlowRecord],
    pub(crate) rows: &'a [[u8; 64]],
    /// For each node the last flow that starts there.
    pub(crate) head: &'a [Option<u16>],
    /// For each flow the flow before it that starts at the same node: lists by number, since all memory is fixed.
    pub(crate) link: &'a [Option<u16>],
}
