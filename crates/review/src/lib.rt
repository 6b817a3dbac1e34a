//! A controller record checked for a side of a bay, with what is wrong said in words.

#![tactic(auto)]

pub mod cases;
pub mod refusals;
mod sentences;
pub mod texts;
