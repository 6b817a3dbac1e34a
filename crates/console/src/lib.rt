//! What the programs share: input up to a limit, and the words after a program's name.

#![tactic(auto)]

pub mod input;
pub mod words;
