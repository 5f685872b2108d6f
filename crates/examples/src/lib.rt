//! The worked examples as one proved statement, and examples of each layer, run as tests.
#![tactic(auto)]

#[cfg(test)]
mod clauses;
#[cfg(test)]
mod inventories;
#[cfg(test)]
mod lattices;
#[cfg(test)]
mod office;
#[cfg(test)]
mod scripts;
pub mod table;
#[cfg(test)]
mod words;
