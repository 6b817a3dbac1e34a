use crate::faults::CellFault;
use games::deal::Deal;
use reading::phase_table::PhaseTable;
use reading::sides::Sides;

/// What a cell can be asked.
#[derive(Clone, Copy, PartialEq, Eq, Debug)]
pub enum Question {
    States,
    Phase,
    Waits,
    Signals,
    Ranks,
}

/// An offer: how both sides are to go on, from phase 0. The caller keeps what it names.
#[derive(Clone, Copy)]
pub struct Offer<'a> {
    pub table: &'a PhaseTable,
    pub deal: &'a Deal,
    pub records: Sides<&'a [u8]>,
}

/// A report: the states that both machines have come to.
#[derive(Clone, Copy, PartialEq, Eq, Debug)]
pub struct Report {
    pub states: Sides<u16>,
}

/// An offer that is kept for a later call.
#[derive(Drop)]
pub struct OwnedOffer {
    pub table: PhaseTable,
    pub deal: Deal,
    pub records: Sides<Vec<u8>>,
}

/// A call that is kept for later.
#[derive(Drop)]
pub enum Call {
    Offer(OwnedOffer),
    Report(Report),
    Ask(Question),
}

/// What a cell answers to a call: to an offer that it accepts the bounds of both records, to a report the signals shown next.
#[derive(Clone, Copy, PartialEq, Eq, Debug)]
pub enum Answer {
    Offered(Result<Sides<u16>, CellFault>),
    Reported(Result<Sides<u8>, CellFault>),
    States(Sides<u16>),
    Phase(u8),
    Waits(Sides<u32>),
    Signals(Sides<u8>),
    Ranks(Sides<u16>),
}
