use crate::look::Look;
use anyhow::{Result, anyhow, bail};
use bays::bay::Bay;
use cell::calls::{Answer, Call, Question};
use cell::cell::Room;
use cell::replay::replay;
use games::sheet_machine::SheetMachine;
use reading::sides::Sides;
use std::alloc::{AllocError, Global};

/// The questions of a look, in the order in which it takes their answers.
const QUESTIONS: [Question; 5] = [
    Question::States,
    Question::Phase,
    Question::Waits,
    Question::Signals,
    Question::Ranks,
];

/// Every call of a shift so far. Each further one is answered by a replay of them all.
#[derive(Drop)]
pub(crate) struct Log<'a> {
    heap: Global,
    bay: &'a [u8],
    calls: Vec<Call>,
}

/// The answer to a call, and what the bay looks like after it.
#[derive(Clone, Copy)]
pub(crate) struct Heard {
    pub(crate) answer: Answer,
    pub(crate) look: Look,
}

/// The bay of an input that was read before.
pub(crate) fn read_bay(heap: Global, bytes: &[u8]) -> Result<Bay> {
    let machines = Sides {
        first: SheetMachine::new(heap)?,
        second: SheetMachine::new(heap)?,
    };
    Bay::read(machines, bytes).map_err(|fault| anyhow!("{fault}"))
}

impl<'a> Log<'a> {
    /// No calls yet.
    pub(crate) fn new(heap: Global, bay: &'a [u8]) -> Log<'a> {
        let calls = Vec::new(heap);
        Log { heap, bay, calls }
    }

    /// The answers to every call so far, by a cell made anew.
    fn answers(&self) -> Result<Vec<Answer>> {
        let Bay { games, .. } = read_bay(self.heap, self.bay)?;
        let calls = self.calls.as_slice();
        let mut answers = vec![in self.heap; Answer::Phase(0); calls.len()]?;
        let room = Room::new(self.heap)?;
        replay(
            room,
            games.first,
            games.second,
            calls,
            answers.as_mut_slice(),
        );
        Ok(answers)
    }

    /// Puts a call to the cell, and looks at it.
    pub(crate) fn put(&mut self, call: Call) -> Result<Heard> {
        self.calls.push(call).map_err(AllocError::from)?;
        for question in QUESTIONS {
            self.calls
                .push(Call::Ask(question))
                .map_err(AllocError::from)?;
        }
        let answers = self.answers()?;
        let [
            ..,
            answer,
            Answer::States(states),
            Answer::Phase(phase),
            Answer::Waits(waits),
            Answer::Signals(signals),
            Answer::Ranks(ranks),
        ] = answers.as_slice()
        else {
            bail!("a question was not answered");
        };
        Ok(Heard {
            answer: *answer,
            look: Look {
                states: *states,
                phase: *phase,
                waits: *waits,
                signals: *signals,
                ranks: *ranks,
            },
        })
    }
}
