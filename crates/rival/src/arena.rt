use crate::bytes::{byte, pair};
use std::alloc::{AllocError, Global};

/// A machine with marks, every answer written out in a list.
#[derive(Drop)]
pub struct Arena {
    pub states: u16,
    pub own: u8,
    pub partner: u8,
    pub(crate) start: u16,
    /// By state, as the next two.
    pub(crate) labels: Vec<u8>,
    pub(crate) forbidden: Vec<bool>,
    pub(crate) goals: Vec<bool>,
    /// The next states, ascending, of each state, own signal and partner signal in turn.
    pub(crate) moves: Vec<Vec<u16>>,
}

impl Arena {
    /// Room for the moves of a machine: none yet.
    pub(crate) fn no_moves(
        heap: Global,
        states: u16,
        own: u8,
        partner: u8,
    ) -> Result<Vec<Vec<u16>>, AllocError> {
        let mut moves = Vec::new(heap);
        for _ in 0..states {
            for _ in 0..u16::from(own) * u16::from(partner) {
                moves.push(Vec::new(heap))?;
            }
        }
        Ok(moves)
    }

    /// Nothing marked.
    pub(crate) fn no_marks(heap: Global, states: u16) -> Result<Vec<bool>, AllocError> {
        let mut marks = Vec::new(heap);
        for _ in 0..states {
            marks.push(false)?;
        }
        Ok(marks)
    }

    /// The machine of a machine sheet that is as the format wants it.
    pub fn of_sheet(heap: Global, sheet: &[u8]) -> Result<Arena, AllocError> {
        let (states, own, partner) = (pair(sheet, 0), byte(sheet, 2), byte(sheet, 3));
        let (start, count) = (pair(sheet, 4), usize::from(pair(sheet, 6)));
        let mut labels = Vec::new(heap);
        for state in 0..usize::from(states) {
            labels.push(byte(sheet, 8 + state))?;
        }
        let mut moves = Arena::no_moves(heap, states, own, partner)?;
        let keys = 8 + usize::from(states);
        for i in 0..count {
            let key = usize::from(pair(sheet, keys + 2 * i));
            if let Some(next) = moves.get_mut(key) {
                next.push(pair(sheet, keys + 2 * count + 2 * i))?;
            }
        }
        Ok(Arena {
            states,
            own,
            partner,
            start,
            labels,
            forbidden: Arena::no_marks(heap, states)?,
            goals: Arena::no_marks(heap, states)?,
            moves,
        })
    }

    /// The lift of so many floors for a partner with that many signals.
    pub fn lift(heap: Global, floors: u8, partner: u8) -> Result<Arena, AllocError> {
        let states = 2 * u16::from(floors);
        let mut labels = Vec::new(heap);
        let mut moves = Vec::new(heap);
        for floor in 0..floors {
            for loaded in [false, true] {
                labels.push(lift_label(floors, floor, loaded))?;
                for own in 0..4 {
                    for signal in 0..partner {
                        moves.push(lift_moves(heap, floors, (floor, loaded), own, signal)?)?;
                    }
                }
            }
        }
        Ok(Arena {
            states,
            own: 4,
            partner,
            start: 0,
            labels,
            forbidden: Arena::no_marks(heap, states)?,
            goals: Arena::no_marks(heap, states)?,
            moves,
        })
    }

    /// The next states, ascending; none where a signal is out of range.
    pub(crate) fn next(&self, state: u16, own: u8, partner: u8) -> &[u16] {
        if own >= self.own || partner >= self.partner {
            return &[];
        }
        let row = usize::from(state) * usize::from(self.own) + usize::from(own);
        let key = row * usize::from(self.partner) + usize::from(partner);
        match self.moves.get(key) {
            Some(next) => next.as_slice(),
            None => &[],
        }
    }

    pub(crate) fn label(&self, state: u16) -> u8 {
        byte(self.labels.as_slice(), usize::from(state))
    }

    pub(crate) fn is_forbidden(&self, state: u16) -> bool {
        self.forbidden.get(usize::from(state)) != Some(&false)
    }

    pub(crate) fn is_goal(&self, state: u16) -> bool {
        self.goals.get(usize::from(state)) == Some(&true)
    }
}

fn lift_label(floors: u8, floor: u8, loaded: bool) -> u8 {
    let at_end = if floor == 0 {
        1
    } else if u16::from(floor) + 1 == u16::from(floors) {
        3
    } else {
        return 0;
    };
    at_end + u8::from(loaded)
}

/// Where a lift may go: from a floor, empty or loaded, under an own and a partner signal.
fn lift_moves(
    heap: Global,
    floors: u8,
    from: (u8, bool),
    own: u8,
    partner: u8,
) -> Result<Vec<u16>, AllocError> {
    let (floor, loaded) = (u16::from(from.0), from.1);
    let (end, load) = (u16::from(floors), u16::from(loaded));
    let mut next = Vec::new(heap);
    if own == 0 {
        next.push(2 * floor + load)?;
    }
    if own == 1 && floor + 1 < end {
        next.push(2 * (floor + 1) + load)?;
    }
    if own == 1 && floor + 2 < end && !loaded {
        next.push(2 * (floor + 2))?;
    }
    if own == 2 && floor > 0 {
        next.push(2 * (floor - 1) + load)?;
    }
    if own == 3 && partner == 1 && (floor == 0 || floor + 1 == end) {
        next.push(2 * floor + (1 - load))?;
    }
    Ok(next)
}
