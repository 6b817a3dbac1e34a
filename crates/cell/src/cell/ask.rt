ghost use Rattle.cell.specs.declared.calls.Question.TheVariants as question;
ghost use Rattle.cell.specs.Logs.{states, phase, waits, signals_shown, ranks_shown};
ghost use Rattle.cell.specs.Cells.{told, Answered};

use crate::calls::{Answer, Question};
use crate::cell::Cell;
use crate::copies::Mode;
use games::machine::{Game, Machine};
use reading::records::{NO_CHOICE, NO_RANK};
use reading::sides::Sides;

// The five questions; before an offer was accepted there are no signals and no ranks.
impl<A: Game + Drop, B: Game + Drop> Cell<A, B> {
    /// The states of both machines.
    pub fn states(&self) -> Sides<u16>
        ensures { Answered A.Machine.meaning A.Game.marks B.Machine.meaning B.Game.marks self.now question.States (states result) }
    {
        self.copies.standing.states
    }

    /// The phase.
    pub fn phase(&self) -> u8
        ensures { Answered A.Machine.meaning A.Game.marks B.Machine.meaning B.Game.marks self.now question.Phase (phase result) }
    {
        self.copies.standing.phase
    }

    /// How many ticks each machine has waited for a goal.
    pub fn waits(&self) -> Sides<u32>
        ensures { Answered A.Machine.meaning A.Game.marks B.Machine.meaning B.Game.marks self.now question.Waits (waits result) }
    {
        self.copies.standing.waits
    }

    /// The signals shown; 255 each with no offer in force.
    pub fn signals(&self) -> Sides<u8>
        ensures { Answered A.Machine.meaning A.Game.marks B.Machine.meaning B.Game.marks self.now question.Signals (signals_shown result) }
    {
        match self.mode {
            Mode::Idle => Sides {
                first: NO_CHOICE,
                second: NO_CHOICE,
            },
            Mode::Running => self.copies.signals(),
        }
    }

    /// The ranks at the present positions; 65,535 each with no offer in force.
    pub fn ranks(&self) -> Sides<u16>
        ensures { Answered A.Machine.meaning A.Game.marks B.Machine.meaning B.Game.marks self.now question.Ranks (ranks_shown result) }
    {
        match self.mode {
            Mode::Idle => Sides {
                first: NO_RANK,
                second: NO_RANK,
            },
            Mode::Running => self.copies.ranks(),
        }
    }

    /// The answer to a question.
    pub fn ask(&self, question: Question) -> Answer
        ensures { Answered A.Machine.meaning A.Game.marks B.Machine.meaning B.Game.marks self.now question (told result) }
    {
        match question {
            Question::States => Answer::States(self.states()),
            Question::Phase => Answer::Phase(self.phase()),
            Question::Waits => Answer::Waits(self.waits()),
            Question::Signals => Answer::Signals(self.signals()),
            Question::Ranks => Answer::Ranks(self.ranks()),
        }
    }
}
