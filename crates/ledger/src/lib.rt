//! The ledger of an inventory: what a list of calls makes of it, and what is promised of every list.
#![tactic(auto)]

pub mod theorems;
