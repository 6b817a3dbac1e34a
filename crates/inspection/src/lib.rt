//! What a sheet, a product or a lift means, in words that a fitter reads.

#![tactic(auto)]

mod frame_words;
pub mod kinds;
mod machine;
pub mod machines;
mod marks;
mod phases;
mod places;
mod records;
mod refusals;
mod rule;
pub mod sheets;
mod titles;
