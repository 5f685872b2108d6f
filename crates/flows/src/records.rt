//! The plain records of nodes and flows. They have no ghost fields, so the files of specs/ may name them.

/// A node: the attributes declared for it, its marks, the label found for it, and whether it was verified.
///
/// Each set of values is a number: bit `v` says that value `v` is in the set.
#[derive(Clone, Copy, PartialEq, Eq, Debug, Default)]
pub struct NodeRecord {
    pub store: u64,
    pub purpose: u64,
    pub role: u64,
    /// The values that start here.
    pub marks: u64,
    /// The values that reach the node.
    pub label: u64,
    /// Nothing flows into a verified node.
    pub verified: bool,
}

/// A flow from one node to another, by a step that makes a value of each value.
#[derive(Clone, Copy, PartialEq, Eq, Debug, Default)]
pub struct FlowRecord {
    pub from: u16,
    pub to: u16,
    pub step: u8,
}
