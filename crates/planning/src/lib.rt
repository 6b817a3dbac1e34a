//! The best table that each side's controller can have, from the sheets of a bay and both sides' terms, and in words.

#![tactic(auto)]

pub mod plans;
pub mod refusals;
mod words;
