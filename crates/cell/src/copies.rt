mod steps;

use crate::kept::Kept;
use games::deal::Deal;
use reading::phase_table::PhaseTable;
use reading::sides::Sides;

/// Whether a cell has an offer in force.
#[derive(Clone, Copy, PartialEq, Eq, Debug)]
pub(crate) enum Mode {
    Idle,
    Running,
}

/// Where a cell's machines stand, how long each has waited for a goal, and the largest bound that an offer was accepted with.
#[derive(Clone, Copy, PartialEq, Eq, Debug)]
pub(crate) struct Standing {
    pub(crate) states: Sides<u16>,
    pub(crate) phase: u8,
    pub(crate) waits: Sides<u32>,
    pub(crate) bounds: Sides<u16>,
}

/// Where a cell's machines stand, and its own copy of the offer in force.
#[derive(Drop)]
pub(crate) struct Copies {
    pub(crate) standing: Standing,
    pub(crate) table: PhaseTable,
    pub(crate) deal: Deal,
    pub(crate) records: Sides<Kept>,
}
