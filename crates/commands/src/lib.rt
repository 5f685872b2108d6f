//! What a line of a script asks for, and what is printed for the answer.
#![tactic(auto)]

pub mod answers;
pub mod arguments;
pub mod command;
pub mod faults;
pub mod stops;
pub mod verbs;

pub use arguments::values;
pub use command::Command;
pub use faults::Fault;
pub use stops::Stop;
pub use verbs::{Kind, Verb};
