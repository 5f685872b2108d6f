//! Why a call of any layer is refused: one list of reasons, each with its number, its layer and its plain words.
#![tactic(auto)]

pub mod refusal;

pub use refusal::{Layer, Reason, Refusal};
