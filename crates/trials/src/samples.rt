//! Sheets that several examples read.

// two states, labels 0 and 1, two signals each way; it changes state if both show 1
pub(crate) const TOGGLE: [u8; 42] = [
    2, 0, 2, 2, 0, 0, 8, 0, 0, 1, 0, 0, 1, 0, 2, 0, 3, 0, 4, 0, 5, 0, 6, 0, 7, 0, 0, 0, 0, 0, 0, 0,
    1, 0, 1, 0, 1, 0, 1, 0, 0, 0,
];
// accepting in state 1, which label 1 leads to
pub(crate) const RULE: [u8; 20] = [2, 2, 0, 0, 0, 1, 0, 0, 0, 0, 0, 0, 0, 1, 0, 0, 0, 0, 0, 0];
// two phases, one signal of side 0, two of side 1
pub(crate) const PHASES: [u8; 7] = [2, 1, 2, 0, 1, 1, 0];
