//! The five formats: bytes of each are read to their sheet, or to the first fault.

#![tactic(auto)]

pub mod bytes;
mod entries;
pub mod faults;
pub mod machine_sheet;
pub mod mark_sheet;
pub mod phase_table;
pub mod records;
pub mod rule_sheet;
pub mod sides;
pub mod sizes;
pub mod words;
