//! The negotiation of a bay: from its five sheets to the first workable deal and what each side's solved controller can keep to; and in one line.

#![tactic(auto)]

pub mod line;
pub mod negotiator;
pub mod refusals;
pub mod words;
