//! The spreading of values along the flows between nodes, and the paths by which values come to nodes.
#![tactic(auto)]

mod chaining;
mod charts;
mod fitting;
mod fronts;
mod leading;
mod misfit;
mod records;
mod rounds;
mod theorems;
mod walking;

pub use misfit::Misfit;
pub use records::{FlowRecord, NodeRecord};
pub use rounds::{spread, spread_all};
pub use theorems::certificates_stand;
pub use walking::{walk, walk_all};
