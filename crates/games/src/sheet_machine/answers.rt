ghost use Rattle.std.specs.Prelude.{◌≡◌};
ghost use Rattle.games.specs.Listings.{Ascending, listed};
ghost use Rattle.games.specs.SheetMachines.{machine_of};
ghost use Rattle.std.proofs.Common.{rules};

use crate::machine::Machine;
use crate::sheet_machine::SheetMachine;
use reading::machine_sheet::{Frame, Move};

/// Lists of so many moves are searched from the front, which takes less time there than by halves.
const SHORT: usize = 8;

/// Whether a move is in a list, searched from the front.
fn scan(moves: &[Move], key: u16, target: u16) -> bool
    ensures { result ≡ listed moves.now key target }
{
    for m in moves {
        if m.key == key && m.target == target {
            return true;
        }
    }
    false
}

/// Whether a move is in the list.
fn lists(moves: &[Move], key: u16, target: u16) -> bool
    requires { Ascending moves.now }
    ensures { result ≡ listed moves.now key target }
{
    if moves.len() <= SHORT {
        scan(moves, key, target)
    } else {
        moves.binary_search(&Move { key, target }).is_ok()
    }
}

impl Machine for SheetMachine {
    ghost meaning = { machine_of };

    ghost lawful = { Prim.search rules };

    fn states(&self) -> u16 {
        self.frame.states
    }

    fn own(&self) -> u8 {
        self.frame.own
    }

    fn partner(&self) -> u8 {
        self.frame.partner
    }

    fn start(&self) -> u16 {
        self.frame.start
    }

    fn label(&self, state: u16) -> u8 {
        if state < self.frame.states {
            self.labels[usize::from(state)]
        } else {
            0
        }
    }

    fn may_move(&self, state: u16, own: u8, partner: u8, next: u16) -> bool {
        let frame = &self.frame;
        if state >= frame.states || next >= frame.states {
            return false;
        }
        if own >= frame.own || partner >= frame.partner {
            return false;
        }
        let row = state * u16::from(frame.own) + u16::from(own);
        let key = row * u16::from(frame.partner) + u16::from(partner);
        lists(&self.moves, key, next)
    }
}
