//! Reading the text of a script: its lines, the words of a line, and the numbers, names and sets that words write; and writing numbers and sets.
//!
//! All text is bytes, of any kind. Every function takes any text.
#![tactic(auto)]

mod classes;
pub mod lines;
pub mod names;
pub mod numbers;
pub mod sets;
pub mod words;

pub use lines::first_line;
pub use names::is_name;
pub use numbers::{NumberFault, number};
pub use sets::set;
pub use words::{LineWords, first_word};
