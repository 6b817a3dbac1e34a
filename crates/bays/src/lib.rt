//! A bay from one input: two watched machines and the phase table that they share; and in words what is wrong with one.

#![tactic(auto)]

pub mod bay;
pub mod faults;
pub mod input;
pub mod words;
