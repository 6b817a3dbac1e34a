//! Machines and games with one meaning; the four machines; and the talk that both sides sign a deal by.

#![tactic(auto)]

pub mod deal;
pub mod lift;
pub mod machine;
pub mod marked;
mod sets;
pub mod sheet_machine;
pub mod watched;
