//! Ranked controllers: whether a record is one, the best one that there is, and which positions can come up.

#![tactic(auto)]

pub mod check;
pub mod faults;
mod ranking;
pub mod reach;
pub mod search;
mod seat;
mod snapshot;
pub mod solve;
mod state_set;
