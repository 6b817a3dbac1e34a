//! What is drawn for tests: sheets, phase tables, terms and records, and damage to records. The same for each seed.

#![tactic(auto)]

pub mod damage;
pub mod draws;
