use crate::bytes::{byte, has, pair};
use std::alloc::{AllocError, Global};

/// A move that is possible: under which own and which partner signal, and to which state.
#[derive(Clone, Copy, PartialEq, Eq, Debug)]
pub struct Move {
    pub own: u8,
    pub partner: u8,
    pub to: u16,
}

/// A game as the log knows it: every move that is possible, by the state that it begins in.
#[derive(Drop)]
pub struct Ground {
    pub start: u16,
    labels: Vec<u8>,
    goals: Vec<bool>,
    moves: Vec<Vec<Move>>,
}

/// No moves and no marks yet, for each of these labels' states.
fn bare(heap: Global, start: u16, labels: Vec<u8>) -> Result<Ground, AllocError> {
    let mut goals = Vec::new(heap);
    let mut moves = Vec::new(heap);
    for _ in 0..labels.len() {
        goals.push(false)?;
        moves.push(Vec::new(heap))?;
    }
    Ok(Ground {
        start,
        labels,
        goals,
        moves,
    })
}

impl Ground {
    /// The machine of a machine sheet: a move for each key with its target.
    pub fn of_sheet(heap: Global, sheet: &[u8]) -> Result<Ground, AllocError> {
        let states = usize::from(pair(sheet, 0));
        let (owns, partners) = (
            u16::from(byte(sheet, 2)).max(1),
            u16::from(byte(sheet, 3)).max(1),
        );
        let (keys, count) = (8 + states, usize::from(pair(sheet, 6)));
        let mut labels = Vec::new(heap);
        for state in 0..states {
            labels.push(byte(sheet, 8 + state))?;
        }
        let mut ground = bare(heap, pair(sheet, 4), labels)?;
        for i in 0..count {
            let key = pair(sheet, keys + 2 * i);
            let row = key / partners;
            let (own, partner) = ((row % owns) as u8, (key % partners) as u8);
            let to = pair(sheet, keys + 2 * count + 2 * i);
            ground.push(row / owns, Move { own, partner, to })?;
        }
        Ok(ground)
    }

    /// The lift: of all pairs of states those that it can go between.
    pub fn lift(heap: Global, floors: u8, partners: u8) -> Result<Ground, AllocError> {
        let top = floors.saturating_sub(1);
        let mut labels = Vec::new(heap);
        for floor in 0..floors {
            let label = match floor {
                0 => 1,
                _ if floor == top => 3,
                _ => 0,
            };
            let loaded = if label == 0 { 0 } else { label + 1 };
            labels.extend_from_slice(&[label, loaded])?;
        }
        let mut ground = bare(heap, 0, labels)?;
        let states = 2 * u16::from(floors);
        for from in 0..states {
            for to in 0..states {
                for own in 0..4 {
                    for partner in 0..partners {
                        if lift_goes(top, from, (own, partner), to) {
                            ground.push(from, Move { own, partner, to })?;
                        }
                    }
                }
            }
        }
        Ok(ground)
    }

    fn push(&mut self, from: u16, step: Move) -> Result<(), AllocError> {
        if let Some(moves) = self.moves.get_mut(usize::from(from)) {
            moves.push(step)?;
        }
        Ok(())
    }

    /// The same with the goals of a mark sheet.
    pub fn marked(mut self, sheet: &[u8]) -> Ground {
        for (state, goal) in self.goals.iter_mut().enumerate() {
            *goal = has(byte(sheet, 32 + state / 8), (state % 8) as u8);
        }
        self
    }

    /// This machine together with the automaton of a rule sheet: each move once for each state of the automaton.
    pub fn watched(&self, heap: Global, rule: &[u8]) -> Result<Ground, AllocError> {
        let count = byte(rule, 0);
        let mut labels = Vec::new(heap);
        for label in &self.labels {
            for _ in 0..count {
                labels.push(*label)?;
            }
        }
        let start = self.entered(rule, byte(rule, 3), self.start);
        let mut ground = bare(heap, start, labels)?;
        for (state, goal) in ground.goals.iter_mut().enumerate() {
            let read = state % usize::from(count).max(1);
            *goal = has(byte(rule, 1), read as u8);
        }
        let mut from = 0u16;
        for moves in &self.moves {
            for read in 0..count {
                for step in moves {
                    let to = self.entered(rule, read, step.to);
                    ground.push(from, Move { to, ..*step })?;
                }
                from = from.saturating_add(1);
            }
        }
        Ok(ground)
    }

    /// Where the two together are once the machine enters a state and the automaton reads its label.
    fn entered(&self, rule: &[u8], read: u8, state: u16) -> u16 {
        let label = byte(self.labels.as_slice(), usize::from(state));
        let next = byte(rule, 4 + 8 * usize::from(read) + usize::from(label));
        let before = state.saturating_mul(u16::from(byte(rule, 0)));
        before.saturating_add(u16::from(next))
    }

    pub fn moves(&self, state: u16) -> &[Move] {
        match self.moves.get(usize::from(state)) {
            Some(moves) => moves.as_slice(),
            None => &[],
        }
    }

    pub fn is_goal(&self, state: u16) -> bool {
        self.goals.get(usize::from(state)) == Some(&true)
    }
}

/// Whether a lift with this top floor goes from a state to a state.
fn lift_goes(top: u8, from: u16, (own, partner): (u8, u8), to: u16) -> bool {
    let (floor, load) = (from / 2, from % 2);
    let (to_floor, to_load) = (to / 2, to % 2);
    let at_end = floor == 0 || floor == u16::from(top);
    let coasts = load == 0 && to_floor == floor.saturating_add(2);
    match own {
        0 => to == from,
        1 => to_load == load && (to_floor == floor.saturating_add(1) || coasts),
        2 => to_load == load && floor == to_floor.saturating_add(1),
        _ => partner == 1 && at_end && to_floor == floor && to_load != load,
    }
}
