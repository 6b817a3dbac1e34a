ghost use Rattle.std.specs.Prelude.{◌≡◌};
ghost use Rattle.games.specs.Machines.{Model, Marks, Lawful, forbidden_in, goal_in};

use reading::machine_sheet::Frame;

/// A machine answers each question from its meaning alone, whatever numbers it is asked about: numbers, and no types that would ask more.
pub trait Machine {
    ghost meaning: { Self → Model };

    /// How many states there are.
    fn states(&self) -> u16
        ensures { result ≡ (meaning self.now).states };

    /// How many signals it can show.
    fn own(&self) -> u8
        ensures { result ≡ (meaning self.now).own };

    /// How many signals its partner can show.
    fn partner(&self) -> u8
        ensures { result ≡ (meaning self.now).partner };

    /// The state that it starts in.
    fn start(&self) -> u16
        ensures { result ≡ (meaning self.now).start };

    /// The label of a state; 0 out of range.
    fn label(&self, state: u16) -> u8
        ensures { result ≡ (meaning self.now).label state };

    /// Whether it can move to `next` under the two signals; not where a number is out of range.
    fn may_move(&self, state: u16, own: u8, partner: u8, next: u16) -> bool
        ensures { result ≡ (meaning self.now).move state own partner next };

    ghost lawful: { (x : Self) → Lawful (meaning x) };
}

/// How large a machine is, and where it starts, as one value.
pub fn frame<M: Machine>(machine: &M) -> Frame
    ensures states { result.states ≡ (M.Machine.meaning machine.now).states }
    ensures own { result.own ≡ (M.Machine.meaning machine.now).own }
    ensures partner { result.partner ≡ (M.Machine.meaning machine.now).partner }
    ensures start { result.start ≡ (M.Machine.meaning machine.now).start }
{
    Frame {
        states: machine.states(),
        own: machine.own(),
        partner: machine.partner(),
        start: machine.start(),
    }
}

/// A game is a machine with two more questions.
pub trait Game: Machine {
    ghost marks: { Self → Marks };

    /// Whether a state is forbidden; out of range it is.
    fn forbidden(&self, state: u16) -> bool
        ensures { result ≡ forbidden_in (Self.Machine.meaning self.now) (marks self.now) state };

    /// Whether a state is a goal; out of range it is none.
    fn goal(&self, state: u16) -> bool
        ensures { result ≡ goal_in (Self.Machine.meaning self.now) (marks self.now) state };
}
