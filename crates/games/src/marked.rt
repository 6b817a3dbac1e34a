ghost use Rattle.std.specs.Prelude.{◌≡◌, MatchResult};
ghost use Rattle.reading.specs.Faults.{told};
ghost use Rattle.reading.specs.MarkSheets.{sets_in, sets_of, unmarked, mark_fault};
ghost use Rattle.games.specs.Layers.{marks_of};

use crate::machine::{Game, Machine};
use reading::faults::ReadFault;
use reading::mark_sheet::MarkSheet;

/// Any machine with marks of its own: forbidden and goal below do not count.
#[derive(Drop)]
pub struct Marked<M: Machine + Drop> {
    below: M,
    marks: MarkSheet,
}

impl<M: Machine + Drop> Marked<M> {
    /// The machine with no marks.
    pub fn new(below: M) -> Marked<M>
        ensures below { result.below ≡ below }
        ensures marks { sets_of result.marks ≡ unmarked (M.Machine.meaning below).states }
    {
        let states = below.states();
        Marked {
            below,
            marks: MarkSheet::new(states),
        }
    }

    /// Takes over the marks of a sheet; on a refusal it stays as it was.
    pub fn mark(&mut self, bytes: &[u8]) -> Result<(), ReadFault>
        ensures first { told result ≡ mark_fault (M.Machine.meaning self.old.below).states bytes.now }
        ensures below { self.new.below ≡ self.old.below }
        ensures value { MatchResult result (λ _. sets_of self.new.marks ≡ sets_in (M.Machine.meaning self.old.below).states bytes.now) (λ _. self.new ≡ self.old) }
    {
        // two lines like those of `watch`, for a sheet of another type
        let states = self.below.states();
        self.marks = MarkSheet::read(bytes, states)?;
        Ok(())
    }
}

impl<M: Machine + Drop> Machine for Marked<M> {
    ghost meaning = { λ x. M.Machine.meaning x.below };

    ghost lawful = { λ x. M.Machine.lawful x.below };

    // each question is handed on, as in `Watched`: no form hands on a trait's questions
    fn states(&self) -> u16 {
        self.below.states()
    }

    fn own(&self) -> u8 {
        self.below.own()
    }

    fn partner(&self) -> u8 {
        self.below.partner()
    }

    fn start(&self) -> u16 {
        self.below.start()
    }

    fn label(&self, state: u16) -> u8 {
        self.below.label(state)
    }

    fn may_move(&self, state: u16, own: u8, partner: u8, next: u16) -> bool {
        self.below.may_move(state, own, partner, next)
    }
}

impl<M: Machine + Drop> Game for Marked<M> {
    ghost marks = { λ x. marks_of (sets_of x.marks) };

    fn forbidden(&self, state: u16) -> bool {
        state >= self.below.states() || self.marks.forbidden(state)
    }

    fn goal(&self, state: u16) -> bool {
        state < self.below.states() && self.marks.goal(state)
    }
}
