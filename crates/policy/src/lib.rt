//! LEGALEASE policies: clauses over labels, the words that spell them, and what they allow.
#![tactic(auto)]

mod clause;
pub mod deciding;
mod draft;
mod faults;
mod filling;
pub mod label;
mod narrowing;
pub mod policy;
mod readers;
pub mod vocabulary;
mod word;

pub use deciding::Decision;
pub use label::Label;
pub use policy::Policy;
pub use policy::judging::Verdict;
pub use vocabulary::Vocabulary;
