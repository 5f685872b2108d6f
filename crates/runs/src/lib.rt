//! Whole runs of the inventory: calls and answers that hold no reference, and one function that makes every call in turn.
#![tactic(auto)]

mod answers;
pub mod calls;
pub mod sequence;

pub use calls::{Answer, Call};
pub use sequence::run;
