use std::fmt;

/// How many answers agreed.
#[derive(Clone, Copy)]
pub struct Tally {
    /// What a bound is an answer to.
    word: &'static str,
    bounds: u32,
    // by the refusal's number
    refused: [u32; 28],
}

impl Tally {
    pub fn new(word: &'static str) -> Tally {
        Tally {
            word,
            bounds: 0,
            refused: [0; 28],
        }
    }

    /// Counts an answer: a bound, or a refusal's number.
    pub fn add(&mut self, answer: Result<u16, u16>) {
        match answer {
            Ok(_) => self.bounds = self.bounds.saturating_add(1),
            Err(number) => {
                if let Some(count) = self.refused.get_mut(usize::from(number)) {
                    *count = count.saturating_add(1);
                }
            }
        }
    }

    fn all(&self) -> u32 {
        let mut all = self.bounds;
        for count in &self.refused {
            all = all.saturating_add(*count);
        }
        all
    }
}

impl fmt::Display for Tally {
    fn fmt<W: fmt::Write>(&self, f: &mut fmt::Formatter<W>) -> fmt::Result {
        let (all, bounds, word) = (self.all(), self.bounds, self.word);
        write!(f, "{all} agreed: {bounds} {word}")?;
        for (number, count) in self.refused.iter().enumerate() {
            if *count > 0 {
                write!(f, ", {count} refused {number}")?;
            }
        }
        Ok(())
    }
}
