//! Examples: shown from the definitions, and as tests. They have a crate of their own so that the layers stay quick to prove.

#![tactic(auto)]

#[cfg(test)]
mod changes;
#[cfg(test)]
mod checking_tests;
#[cfg(test)]
mod deal_tests;
#[cfg(test)]
mod games_tests;
#[cfg(test)]
mod inspection_tests;
#[cfg(test)]
mod negotiation_tests;
#[cfg(test)]
mod planning_tests;
#[cfg(test)]
mod reading_tests;
#[cfg(test)]
mod recordings_tests;
#[cfg(test)]
mod refusals_tests;
pub mod replays;
#[cfg(test)]
mod replays_tests;
#[cfg(test)]
mod review_tests;
mod samples;
#[cfg(test)]
mod searching_tests;
pub mod shown;
#[cfg(test)]
mod solving_tests;
#[cfg(test)]
mod tables_tests;
#[cfg(test)]
mod words_tests;
