ghost use Rattle.std.specs.Prelude.{◌*◌, ◌<◌, ◌≡◌, is_ok, IfOk, Decides, OnOk};
ghost use Rattle.reading.specs.Faults.{told};
ghost use Rattle.games.specs.Machines.{in_range};
ghost use Rattle.games.specs.Lifts.{lift, rises, sinks, flips, lift_fault, Sizes, Steps};
ghost use Rattle.games.specs.LiftLaws.{lift_lawful};

use crate::lift::Lift;
use crate::machine::Machine;
use reading::faults::{ReadFault, check};

/// Empty on floor 0.
const START: u16 = 0;

// Both steps ask for states of a lift: sums of 16 bits, which hold of no others, are tested many at a time.

/// One floor up; an empty lift may also coast up two.
fn goes_up(state: u16, next: u16) -> bool
    requires { state < 64 }
    ensures { result ≡ rises state next }
{
    next == state + 2 || state % 2 == 0 && next == state + 4
}

/// One floor down.
fn goes_down(state: u16, next: u16) -> bool
    requires { next < 64 }
    ensures { result ≡ sinks state next }
{
    state == next + 2
}

impl Lift {
    /// A lift for a partner with that many signals.
    pub fn new(floors: u8, signals: u8) -> Result<Lift, ReadFault>
        ensures first { told result ≡ lift_fault floors signals }
        ensures value { IfOk result (λ x. (x.floors ≡ floors) × (x.signals ≡ signals)) }
        ensures sizes { Decides (is_ok result) (Sizes floors signals) }
        ensures steps { OnOk result (Steps floors signals) }
    {
        check((2..=32).contains(&floors), ReadFault::Field(0))?;
        check((2..=4).contains(&signals), ReadFault::Field(1))?;
        Ok(Lift { floors, signals })
    }

    // as a sheet machine tests them: a function over any machine cannot be called in the impl that makes it one (tried)
    /// Whether the four numbers of a move are in range.
    fn in_range(&self, state: u16, own: u8, partner: u8, next: u16) -> bool
        ensures { result ≡ in_range (2 * self.now.floors) 4 self.now.signals state own partner next }
    {
        let states = self.states();
        state < states && next < states && own < 4 && partner < self.signals
    }

    /// The other load on the same floor, at one of the two ends.
    fn flips(&self, state: u16, next: u16) -> bool
        ensures { result ≡ flips self.now.floors state next }
    {
        let at_end = state < 2 || state >= self.states() - 2;
        at_end && state / 2 == next / 2 && state != next
    }
}

impl Machine for Lift {
    ghost meaning = { λ x. lift x.floors x.signals };

    ghost lawful = { λ x. lift_lawful x.floors x.signals x.some_floors x.few_floors x.some_signals x.few_signals };

    fn states(&self) -> u16 {
        2 * u16::from(self.floors)
    }

    fn own(&self) -> u8 {
        4
    }

    fn partner(&self) -> u8 {
        self.signals
    }

    fn start(&self) -> u16 {
        START
    }

    fn label(&self, state: u16) -> u8 {
        // empty on the top floor; loaded comes next
        let top = self.states() - 2;
        match state {
            0 => 1,
            1 => 2,
            s if s == top => 3,
            s if s == top + 1 => 4,
            _ => 0,
        }
    }

    fn may_move(&self, state: u16, own: u8, partner: u8, next: u16) -> bool {
        if !self.in_range(state, own, partner, next) {
            return false;
        }
        // own signals are numbers at every machine; these four have no other use
        match own {
            0 => next == state,
            1 => goes_up(state, next),
            2 => goes_down(state, next),
            3 => partner == 1 && self.flips(state, next),
            _ => false,
        }
    }
}
