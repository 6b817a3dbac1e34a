ghost use Rattle.std.specs.Prelude.{◌^◌, ◌<◌};

use crate::arena::Arena;
use crate::bytes::byte;
use std::alloc::{AllocError, Global};

/// One side of a bay, in numbers as they are handed in.
#[derive(Clone, Copy)]
pub struct Side {
    pub number: u8,
    pub promise: u32,
    pub reliance: u32,
    /// Phases and both sides' signals of the table that the deal was signed on.
    pub signed: [u8; 3],
}

/// A side of a bay at its machine, with what it may show and has to expect written out by phases.
#[derive(Drop)]
pub struct Seat<'a> {
    pub(crate) arena: &'a Arena,
    table: &'a [u8],
    side: Side,
    promised: Vec<Vec<u8>>,
    relied: Vec<Vec<u8>>,
}

/// The signals of each phase that a number names, ascending.
fn signals(heap: Global, set: u32, phases: u8) -> Result<Vec<Vec<u8>>, AllocError> {
    let mut by_phase = Vec::new(heap);
    let mut left = set;
    for _ in 0..phases {
        let mut named = Vec::new(heap);
        for signal in 0..4 {
            if (left >> signal) & 1 == 1 {
                named.push(signal)?;
            }
        }
        by_phase.push(named)?;
        left >>= 4;
    }
    Ok(by_phase)
}

fn listed(by_phase: &Vec<Vec<u8>>, phase: u8) -> &[u8] {
    match by_phase.get(usize::from(phase)) {
        Some(signals) => signals.as_slice(),
        None => &[],
    }
}

impl<'a> Seat<'a> {
    /// A side under a phase table that is as the format wants it.
    pub fn new(
        heap: Global,
        arena: &'a Arena,
        table: &'a [u8],
        side: Side,
    ) -> Result<Seat<'a>, AllocError> {
        let phases = byte(table, 0);
        Ok(Seat {
            arena,
            table,
            side,
            promised: signals(heap, side.promise, phases)?,
            relied: signals(heap, side.reliance, phases)?,
        })
    }

    pub fn phases(&self) -> u8 {
        byte(self.table, 0)
    }

    /// How many positions there are.
    pub fn places(&self) -> usize
        ensures { result < 2 ^ 32 }
    {
        usize::from(self.arena.states) * usize::from(self.phases())
    }

    /// The place of a position among them.
    pub(crate) fn place(&self, state: u16, phase: u8) -> usize
        ensures { result < 2 ^ 32 }
    {
        usize::from(state) * usize::from(self.phases()) + usize::from(phase)
    }

    /// Whether there is such a side, and machine, table and deal are of the same sizes.
    pub(crate) fn suits(&self) -> bool {
        let sizes = [
            byte(self.table, 0),
            byte(self.table, 1),
            byte(self.table, 2),
        ];
        let (own, partner) = (self.arena.own, self.arena.partner);
        let machine = match self.side.number {
            0 => (sizes[1], sizes[2]) == (own, partner),
            1 => (sizes[2], sizes[1]) == (own, partner),
            _ => false,
        };
        machine && sizes == self.side.signed
    }

    pub(crate) fn promised(&self, phase: u8) -> &[u8] {
        listed(&self.promised, phase)
    }

    pub(crate) fn relied(&self, phase: u8) -> &[u8] {
        listed(&self.relied, phase)
    }

    /// The phase after a phase and both signals.
    pub(crate) fn follow(&self, phase: u8, own: u8, partner: u8) -> u8 {
        let (first, second) = if self.side.number == 0 {
            (own, partner)
        } else {
            (partner, own)
        };
        let row = usize::from(phase) * usize::from(byte(self.table, 1)) + usize::from(first);
        let place = row * usize::from(byte(self.table, 2)) + usize::from(second);
        byte(self.table, 3 + place)
    }
}
