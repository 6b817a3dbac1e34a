//! The cell: two games that run side by side under the offer in force, whatever is offered, reported and asked.

#![tactic(auto)]

pub mod calls;
pub mod cell;
mod copies;
pub mod faults;
mod kept;
mod records;
pub mod replay;
