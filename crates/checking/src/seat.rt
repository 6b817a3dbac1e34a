mod ask;
mod leads;

use games::deal::Deal;
use reading::phase_table::PhaseTable;

/// One side's place at a bay: its game, under a phase table and a deal.
#[derive_where(Clone, Copy)]
pub(crate) struct Seat<'a, G> {
    // the public calls take these four by themselves: their shape is settled
    pub(crate) game: &'a G,
    pub(crate) table: &'a PhaseTable,
    pub(crate) deal: &'a Deal,
    pub(crate) side: u8,
}
