use crate::seat::Seat;
use std::alloc::{AllocError, Global};

/// Where there is no rank.
pub const ABSENT: u16 = 65_535;

/// Where there is no choice.
pub const NO_CHOICE: u8 = 255;

/// Why there is no record: a refusal's number.
pub type Refusal = u16;

/// A solved record, and its largest rank.
#[derive(Drop)]
pub struct Solved {
    pub bytes: Vec<u8>,
    pub bound: u16,
}

/// Ranks on their way up: none is ever above the least that a rival can have.
#[derive(Drop)]
struct Ranks<'a> {
    seat: &'a Seat<'a>,
    by_place: Vec<u16>,
    /// No least rank is above the number of states that are no goals, in all phases.
    most: u16,
}

impl<'a> Ranks<'a> {
    /// The lowest ranks that any position could have.
    fn new(heap: Global, seat: &'a Seat<'a>) -> Result<Ranks<'a>, AllocError> {
        let mut by_place = Vec::new(heap);
        let mut most = 0u16;
        for state in 0..seat.arena.states {
            let lowest = if seat.arena.is_forbidden(state) {
                ABSENT
            } else if seat.arena.is_goal(state) {
                0
            } else {
                1
            };
            for _ in 0..seat.phases() {
                by_place.push(lowest)?;
                if lowest == 1 {
                    most = most.saturating_add(1);
                }
            }
        }
        Ok(Ranks {
            seat,
            by_place,
            most,
        })
    }

    fn rank(&self, state: u16, phase: u8) -> u16 {
        match self.by_place.get(self.seat.place(state, phase)) {
            Some(rank) => *rank,
            None => ABSENT,
        }
    }

    /// The largest rank that a signal can lead to; absent where it may lead nowhere, too.
    fn forced(&self, state: u16, phase: u8, own: u8) -> u16 {
        let mut worst = 0;
        for partner in self.seat.relied(phase) {
            let next = self.seat.arena.next(state, own, *partner);
            if next.is_empty() {
                return ABSENT;
            }
            let then = self.seat.follow(phase, own, *partner);
            for state in next {
                worst = self.rank(*state, then).max(worst);
            }
        }
        worst
    }

    /// What the best promised signal forces.
    fn best(&self, state: u16, phase: u8) -> u16 {
        let mut best = ABSENT;
        for own in self.seat.promised(phase) {
            best = self.forced(state, phase, *own).min(best);
        }
        best
    }

    /// The rank that a position has to have at least, by the present ranks.
    fn due(&self, state: u16, phase: u8) -> u16 {
        let best = self.best(state, phase);
        if self.seat.arena.is_forbidden(state) || best == ABSENT {
            ABSENT
        } else if self.seat.arena.is_goal(state) {
            0
        } else if best >= self.most {
            ABSENT
        } else {
            best + 1
        }
    }

    /// Raises each rank that is too low. Whether any was.
    fn lift(&mut self) -> bool {
        let mut lifted = false;
        for state in 0..self.seat.arena.states {
            for phase in 0..self.seat.phases() {
                if self.rank(state, phase) == ABSENT {
                    continue;
                }
                let due = self.due(state, phase);
                let place = self.seat.place(state, phase);
                if let Some(rank) = self.by_place.get_mut(place) {
                    if *rank < due {
                        *rank = due;
                        lifted = true;
                    }
                }
            }
        }
        lifted
    }

    /// The lowest promised signal that serves a position by these ranks.
    fn choice(&self, state: u16, phase: u8) -> u8 {
        let rank = self.rank(state, phase);
        for own in self.seat.promised(phase) {
            let forced = self.forced(state, phase, *own);
            let serves = if rank == 0 {
                forced != ABSENT
            } else {
                forced < rank
            };
            if serves && rank != ABSENT {
                return *own;
            }
        }
        NO_CHOICE
    }

    /// The record of these ranks.
    fn record(&self, heap: Global) -> Result<Vec<u8>, AllocError> {
        let mut bytes = Vec::new(heap);
        bytes.extend_from_slice(&self.seat.arena.states.to_le_bytes())?;
        bytes.extend_from_slice(&[self.seat.phases(), self.seat.arena.own])?;
        for state in 0..self.seat.arena.states {
            for phase in 0..self.seat.phases() {
                bytes.push(self.choice(state, phase))?;
            }
        }
        for rank in &self.by_place {
            bytes.extend_from_slice(&rank.to_le_bytes())?;
        }
        Ok(bytes)
    }

    fn bound(&self) -> u16 {
        let mut bound = 0;
        for rank in &self.by_place {
            if *rank != ABSENT {
                bound = bound.max(*rank);
            }
        }
        bound
    }
}

/// The least ranks that a rival can have, by lifting from below.
fn settled<'a>(heap: Global, seat: &'a Seat<'a>) -> Result<Ranks<'a>, AllocError> {
    let mut ranks = Ranks::new(heap, seat)?;
    // each round but the last lifts a rank, so it ends long before
    for _ in 0..u64::MAX {
        if !ranks.lift() {
            break;
        }
    }
    Ok(ranks)
}

/// Whether a seat that suits its machine has a ranked controller.
pub fn has_controller(heap: Global, seat: &Seat<'_>) -> Result<bool, AllocError> {
    let ranks = settled(heap, seat)?;
    Ok(ranks.rank(seat.arena.start, 0) != ABSENT)
}

/// The solved record for a seat, if a buffer of so many bytes is to hold it.
pub fn solve(
    heap: Global,
    seat: &Seat<'_>,
    room: usize,
) -> Result<Result<Solved, Refusal>, AllocError> {
    if !seat.suits() {
        return Ok(Err(10));
    }
    if room != 4 + 3 * seat.places() {
        return Ok(Err(22));
    }
    let ranks = settled(heap, seat)?;
    if ranks.rank(seat.arena.start, 0) == ABSENT {
        return Ok(Err(23));
    }
    Ok(Ok(Solved {
        bytes: ranks.record(heap)?,
        bound: ranks.bound(),
    }))
}
