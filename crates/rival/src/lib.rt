//! A second solver, checker and search, for tests: other ways to the same answers, on lists written out beforehand.
//! It shares no code with the first, so that a slip has to be made twice to go unseen.

#![tactic(auto)]

pub mod arena;
mod bytes;
pub mod candidates;
pub mod judging;
mod layers;
pub mod lifting;
pub mod random;
pub mod seat;
