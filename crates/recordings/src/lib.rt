//! A recorded shift: a bay and the calls that were put to its cell, read from one input, replayed, and told line by line.

#![tactic(auto)]

pub mod calls;
pub mod damage;
pub mod lines;
mod parts;
pub mod recording;
pub mod replaying;
pub mod words;
