use reading::sides::Sides;
use std::fmt::{self, Formatter, Write};

/// What a cell answers to its five questions.
#[derive(Clone, Copy, PartialEq, Eq, Debug)]
pub(crate) struct Look {
    pub(crate) states: Sides<u16>,
    pub(crate) phase: u8,
    pub(crate) waits: Sides<u32>,
    pub(crate) signals: Sides<u8>,
    pub(crate) ranks: Sides<u16>,
}

/// How long until something comes, at most.
#[derive(Clone, Copy)]
pub(crate) struct Within(pub(crate) u16);

impl fmt::Display for Within {
    fn fmt<W: Write>(&self, f: &mut Formatter<W>) -> fmt::Result {
        match self.0 {
            0 => write!(f, "now"),
            1 => write!(f, "in at most 1 tick"),
            ticks => write!(f, "in at most {ticks} ticks"),
        }
    }
}

impl Look {
    /// In how many ticks, at most, both machines have been at a goal: the larger of both ranks.
    fn due(&self) -> u16 {
        self.ranks.first.max(self.ranks.second)
    }
}

impl fmt::Display for Look {
    fn fmt<W: Write>(&self, f: &mut Formatter<W>) -> fmt::Result {
        for (side, name) in [(0, "lift"), (1, "; shuttle")] {
            let (state, rank) = (self.states.own(side), self.ranks.own(side));
            let (signal, wait) = (self.signals.own(side), self.waits.own(side));
            write!(
                f,
                "{name} in state {state} (rank {rank}), shows {signal}, waited {wait}"
            )?;
        }
        write!(f, "; cold pallet {}", Within(self.due()))
    }
}
