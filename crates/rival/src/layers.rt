use crate::arena::Arena;
use crate::bytes::byte;
use std::alloc::{AllocError, Global};

impl Arena {
    /// The same machine with the marks of a mark sheet.
    pub fn marked(self, heap: Global, sheet: &[u8]) -> Result<Arena, AllocError> {
        let states = self.states;
        Ok(Arena {
            forbidden: half(heap, sheet, 0, states)?,
            goals: half(heap, sheet, 32, states)?,
            ..self
        })
    }

    /// This machine and the automaton of a rule sheet, which reads the label of each state entered.
    pub fn watched(&self, heap: Global, rule: &[u8]) -> Result<Arena, AllocError> {
        let count = byte(rule, 0);
        let mut labels = Vec::new(heap);
        let mut forbidden = Vec::new(heap);
        let mut goals = Vec::new(heap);
        let mut moves = Vec::new(heap);
        for state in 0..self.states {
            let label = self.label(state);
            for read in 0..count {
                labels.push(label)?;
                forbidden.push(bit(byte(rule, 2), label))?;
                goals.push(bit(byte(rule, 1), read))?;
                self.push_moves(heap, rule, (state, read), &mut moves)?;
            }
        }
        Ok(Arena {
            states: self.states.saturating_mul(u16::from(count)),
            own: self.own,
            partner: self.partner,
            start: entered(rule, self, byte(rule, 3), self.start),
            labels,
            forbidden,
            goals,
            moves,
        })
    }

    /// The moves from a state and what the automaton has read, signals in turn.
    fn push_moves(
        &self,
        heap: Global,
        rule: &[u8],
        from: (u16, u8),
        moves: &mut Vec<Vec<u16>>,
    ) -> Result<(), AllocError> {
        for own in 0..self.own {
            for partner in 0..self.partner {
                let mut next = Vec::new(heap);
                for state in self.next(from.0, own, partner) {
                    next.push(entered(rule, self, from.1, *state))?;
                }
                moves.push(next)?;
            }
        }
        Ok(())
    }
}

/// The state of the product where a state below is entered and so much had been read.
fn entered(rule: &[u8], below: &Arena, read: u8, state: u16) -> u16 {
    let row = 4 + 8 * usize::from(read);
    let next = byte(rule, row + usize::from(below.label(state)));
    let before = state.saturating_mul(u16::from(byte(rule, 0)));
    before.saturating_add(u16::from(next))
}

fn bit(set: u8, i: u8) -> bool {
    i < 8 && (set >> i) & 1 == 1
}

/// Half of a mark sheet as a list.
fn half(heap: Global, sheet: &[u8], from: usize, states: u16) -> Result<Vec<bool>, AllocError> {
    let mut marks = Vec::new(heap);
    for state in 0..usize::from(states) {
        let set = byte(sheet, from.saturating_add(state / 8));
        marks.push(bit(set, (state % 8) as u8))?;
    }
    Ok(marks)
}
