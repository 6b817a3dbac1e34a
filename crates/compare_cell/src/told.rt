use cell::calls::{Answer, Question};
use cell::faults::CellFault;
use reading::sides::Sides;
use rival::judging::{Fault, NONE};

/// Why a call is refused, in numbers.
#[derive(Clone, Copy, PartialEq, Eq, Debug)]
pub struct Refusal {
    pub side: u8,
    pub fault: Fault,
}

/// What is answered to a call, a value for each side.
#[derive(Clone, Copy, PartialEq, Eq, Debug)]
pub enum Heard {
    Offered(Result<[u16; 2], Refusal>),
    Reported(Result<[u8; 2], Refusal>),
    States([u16; 2]),
    Phase(u8),
    Waits([u32; 2]),
    Signals([u8; 2]),
    Ranks([u16; 2]),
}

/// What the five questions answer at one time, a value for each side.
#[derive(Clone, Copy, PartialEq, Eq, Debug)]
pub struct Shown {
    pub states: [u16; 2],
    pub phase: u8,
    pub waits: [u32; 2],
    pub signals: [u8; 2],
    pub ranks: [u16; 2],
}

/// The five questions.
pub const QUESTIONS: [Question; 5] = [
    Question::States,
    Question::Phase,
    Question::Waits,
    Question::Signals,
    Question::Ranks,
];

impl Shown {
    /// The first question that is not answered as it is due.
    pub fn slip(&self, due: &Shown) -> Option<&'static str> {
        if self.states != due.states {
            Some("states")
        } else if self.phase != due.phase {
            Some("phase")
        } else if self.waits != due.waits {
            Some("waits")
        } else if self.signals != due.signals {
            Some("signals")
        } else if self.ranks != due.ranks {
            Some("ranks")
        } else {
            None
        }
    }

    /// The answer to one question.
    pub fn one(&self, question: Question) -> Heard {
        match question {
            Question::States => Heard::States(self.states),
            Question::Phase => Heard::Phase(self.phase),
            Question::Waits => Heard::Waits(self.waits),
            Question::Signals => Heard::Signals(self.signals),
            Question::Ranks => Heard::Ranks(self.ranks),
        }
    }
}

impl Heard {
    pub fn is_refusal(&self) -> bool {
        matches!(self, Heard::Offered(Err(_)) | Heard::Reported(Err(_)))
    }
}

impl Refusal {
    /// A refusal that has a number and a side alone.
    pub fn bare(number: u16, side: u8) -> Refusal {
        Refusal {
            side,
            fault: Fault {
                number,
                place: NONE,
                state: NONE,
                phase: NONE,
                partner: NONE,
                next: NONE,
            },
        }
    }
}

impl From<CellFault> for Refusal {
    fn from(fault: CellFault) -> Refusal {
        Refusal {
            side: fault.side(),
            fault: Fault {
                number: fault.number().into(),
                place: fault.reading().map_or(NONE, |reading| reading.place()),
                state: fault.state(),
                phase: fault.phase(),
                partner: fault.partner(),
                next: fault.next(),
            },
        }
    }
}

/// A value for each side.
pub fn both<T>(sides: Sides<T>) -> [T; 2] {
    [sides.first, sides.second]
}

impl From<Answer> for Heard {
    fn from(answer: Answer) -> Heard {
        match answer {
            Answer::Offered(Ok(bounds)) => Heard::Offered(Ok(both(bounds))),
            Answer::Offered(Err(fault)) => Heard::Offered(Err(fault.into())),
            Answer::Reported(Ok(signals)) => Heard::Reported(Ok(both(signals))),
            Answer::Reported(Err(fault)) => Heard::Reported(Err(fault.into())),
            Answer::States(states) => Heard::States(both(states)),
            Answer::Phase(phase) => Heard::Phase(phase),
            Answer::Waits(waits) => Heard::Waits(both(waits)),
            Answer::Signals(signals) => Heard::Signals(both(signals)),
            Answer::Ranks(ranks) => Heard::Ranks(both(ranks)),
        }
    }
}
