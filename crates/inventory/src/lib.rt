//! A data-flow inventory: nodes, steps and the flows between nodes, in memory that the caller lends.
#![tactic(auto)]

mod finding;
pub mod inventory;
mod rows;
mod sets;
mod sizes;

pub use flows::{FlowRecord, NodeRecord};
pub use inventory::Inventory;
pub use inventory::making::Lent;
