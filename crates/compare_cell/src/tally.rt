use crate::told::{Heard, Refusal};
use std::fmt;

/// How many answers to one kind of call agreed.
#[derive(Clone, Copy)]
pub struct Tally {
    /// What is said of a call that is not refused.
    word: &'static str,
    passed: u32,
    /// By the side that a refusal is about, and its number.
    refused: [[u32; 35]; 3],
}

fn count(number: &mut u32) {
    *number = number.saturating_add(1);
}

impl Tally {
    pub fn new(word: &'static str) -> Tally {
        Tally {
            word,
            passed: 0,
            refused: [[0; 35]; 3],
        }
    }

    pub fn pass(&mut self) {
        count(&mut self.passed);
    }

    pub fn refuse(&mut self, refusal: Refusal) {
        let side = self.refused.get_mut(usize::from(refusal.side));
        let number = usize::from(refusal.fault.number);
        if let Some(times) = side.and_then(|side| side.get_mut(number)) {
            count(times);
        }
    }

    fn all(&self) -> u32 {
        let mut all = self.passed;
        for side in &self.refused {
            for times in side {
                all = all.saturating_add(*times);
            }
        }
        all
    }
}

impl fmt::Display for Tally {
    fn fmt<W: fmt::Write>(&self, f: &mut fmt::Formatter<W>) -> fmt::Result {
        let (all, passed, word) = (self.all(), self.passed, self.word);
        write!(f, "{all} agreed: {passed} {word}")?;
        for (side, by_number) in self.refused.iter().enumerate() {
            let about = match side {
                0 => "side 0",
                1 => "side 1",
                _ => "neither side",
            };
            for (number, times) in by_number.iter().enumerate() {
                if *times > 0 {
                    write!(f, ", {times} refused {number} for {about}")?;
                }
            }
        }
        Ok(())
    }
}
