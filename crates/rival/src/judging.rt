use crate::bytes::{byte, pair};
use crate::lifting::{ABSENT, NO_CHOICE};
use crate::seat::Seat;

/// Stands for what a fault does not name.
pub const NONE: u16 = 65_535;

/// What is wrong with a record, in numbers.
#[derive(Clone, Copy, PartialEq, Eq, Debug)]
pub struct Fault {
    pub number: u16,
    /// Of a fault of reading.
    pub place: u16,
    pub state: u16,
    pub phase: u16,
    pub partner: u16,
    pub next: u16,
}

impl Fault {
    /// A fault that names nothing.
    fn bare(number: u16) -> Fault {
        Fault {
            number,
            place: NONE,
            state: NONE,
            phase: NONE,
            partner: NONE,
            next: NONE,
        }
    }

    /// A fault of reading.
    fn reading(number: u16, place: usize) -> Fault {
        let place = u16::try_from(place).unwrap_or(NONE);
        Fault {
            place,
            ..Fault::bare(number)
        }
    }

    /// What decides which fault comes first: position, then what the position says for itself, then what it leads to.
    fn order(&self) -> [u16; 5] {
        [
            self.state,
            self.phase,
            self.number.min(17),
            // what names no partner signal has a lower number
            self.partner,
            self.next,
        ]
    }
}

/// The bytes of a record put forward for a seat, and the first fault of those found so far.
#[derive(Drop)]
struct Judge<'a> {
    seat: &'a Seat<'a>,
    bytes: &'a [u8],
    first: Option<Fault>,
}

impl Judge<'_> {
    fn choice(&self, state: u16, phase: u8) -> u8 {
        byte(self.bytes, 4 + self.seat.place(state, phase))
    }

    fn rank(&self, state: u16, phase: u8) -> u16 {
        let ranks = 4 + self.seat.places();
        pair(self.bytes, ranks + 2 * self.seat.place(state, phase))
    }

    fn keeps(&self, state: u16, phase: u8) -> bool {
        (self.choice(state, phase), self.rank(state, phase)) != (NO_CHOICE, ABSENT)
    }

    /// Notes a fault, in whatever order they are found.
    fn note(&mut self, fault: Fault) {
        let first = self.first;
        if first.is_none_or(|first| fault.order() < first.order()) {
            self.first = Some(fault);
        }
    }

    /// Notes what is wrong with a position by itself.
    fn judge_kept(&mut self, state: u16, phase: u8) {
        let (choice, rank) = (self.choice(state, phase), self.rank(state, phase));
        let at = Fault {
            state,
            phase: phase.into(),
            ..Fault::bare(NONE)
        };
        if choice == NO_CHOICE || rank == ABSENT {
            self.note(Fault { number: 12, ..at });
        }
        if self.seat.arena.is_forbidden(state) {
            self.note(Fault { number: 14, ..at });
        }
        if !self.seat.promised(phase).contains(&choice) {
            self.note(Fault { number: 15, ..at });
        }
        if self.seat.arena.is_goal(state) != (rank == 0) {
            self.note(Fault { number: 16, ..at });
        }
    }

    /// Notes what is wrong where a choice leads to under a partner signal.
    fn judge_moves(&mut self, state: u16, phase: u8, partner: u8) {
        let seat = self.seat;
        let (choice, rank) = (self.choice(state, phase), self.rank(state, phase));
        let at = Fault {
            state,
            phase: phase.into(),
            partner: partner.into(),
            ..Fault::bare(NONE)
        };
        let moves = seat.arena.next(state, choice, partner);
        if moves.is_empty() {
            self.note(Fault { number: 17, ..at });
        }
        let then = seat.follow(phase, choice, partner);
        for next in moves {
            let at = Fault { next: *next, ..at };
            if !self.keeps(*next, then) {
                self.note(Fault { number: 18, ..at });
            } else if !seat.arena.is_goal(state) && self.rank(*next, then) >= rank {
                self.note(Fault { number: 19, ..at });
            }
        }
    }

    /// Notes what is wrong anywhere.
    fn judge(&mut self) {
        let seat = self.seat;
        for phase in 0..seat.phases() {
            for state in 0..seat.arena.states {
                if self.keeps(state, phase) {
                    self.judge_kept(state, phase);
                    // what comes first may stand under the last signal looked at
                    for partner in seat.relied(phase).iter().rev() {
                        self.judge_moves(state, phase, *partner);
                    }
                }
            }
        }
    }

    fn bound(&self) -> u16 {
        let mut bound = 0;
        for phase in 0..self.seat.phases() {
            for state in 0..self.seat.arena.states {
                if self.keeps(state, phase) {
                    bound = self.rank(state, phase).max(bound);
                }
            }
        }
        bound
    }
}

/// The first fault of reading bytes as a record.
fn read(bytes: &[u8]) -> Option<Fault> {
    if bytes.len() < 4 {
        return Some(Fault::reading(1, bytes.len()));
    }
    let (states, phases, signals) = (pair(bytes, 0), byte(bytes, 2), byte(bytes, 3));
    if states == 0 || states > 256 {
        return Some(Fault::reading(2, 0));
    }
    if phases == 0 || phases > 8 {
        return Some(Fault::reading(2, 2));
    }
    if signals == 0 || signals > 4 {
        return Some(Fault::reading(2, 3));
    }
    let size = usize::from(states) * usize::from(phases);
    if bytes.len() != 4 + 3 * size {
        return Some(Fault::reading(3, bytes.len()));
    }
    for place in 4..4 + size {
        let choice = byte(bytes, place);
        if choice >= signals && choice != NO_CHOICE {
            return Some(Fault::reading(4, place));
        }
    }
    None
}

/// The bound of the ranked controller that bytes hold for a seat, or the first of all faults.
pub fn check(seat: &Seat<'_>, bytes: &[u8]) -> Result<u16, Fault> {
    if !seat.suits() {
        return Err(Fault::bare(10));
    }
    if let Some(fault) = read(bytes) {
        return Err(fault);
    }
    let sizes = (pair(bytes, 0), byte(bytes, 2), byte(bytes, 3));
    if sizes != (seat.arena.states, seat.phases(), seat.arena.own) {
        return Err(Fault::bare(11));
    }
    let mut judge = Judge {
        seat,
        bytes,
        first: None,
    };
    let start = seat.arena.start;
    if !judge.keeps(start, 0) {
        return Err(Fault {
            state: start,
            phase: 0,
            ..Fault::bare(13)
        });
    }
    judge.judge();
    match judge.first {
        Some(fault) => Err(fault),
        None => Ok(judge.bound()),
    }
}
