ghost use Rattle.std.specs.Prelude.{◌≡◌};
ghost use Rattle.solver_c.specs.BitMachines.{bit_model};
ghost use Rattle.std.proofs.Common.{rules};

use games::machine::Machine;
use reading::bytes::{byte_at, has_bit};
use reading::machine_sheet::Frame;

/// A machine whose moves stand as bits, so that each question is answered by one look: what a solve takes beside them is then seen.
#[derive(Clone, Copy)]
pub(crate) struct BitMachine<'a> {
    frame: Frame,
    // 32 bytes for each state and four signals each way
    rows: &'a [u8],
}

impl<'a> BitMachine<'a> {
    /// The machine in bytes: the fields of a machine sheet up to the start, two bytes of nothing, then the moves; none where a field is out of range.
    pub(crate) fn read(bytes: &'a [u8]) -> Option<BitMachine<'a>> {
        let [
            low,
            high,
            own,
            partner,
            start_low,
            start_high,
            _,
            _,
            rows @ ..,
        ] = bytes
        else {
            return None;
        };
        let states = u16::from_le_bytes([*low, *high]);
        let start = u16::from_le_bytes([*start_low, *start_high]);
        let (own, partner) = (*own, *partner);
        if states < 1 || states > 256 || start >= states {
            return None;
        }
        if own < 1 || own > 4 || partner < 1 || partner > 4 {
            return None;
        }
        let frame = Frame {
            states,
            own,
            partner,
            start,
        };
        Some(BitMachine { frame, rows })
    }
}

impl Machine for BitMachine<'_> {
    ghost meaning = { λ x. bit_model x.frame x.rows.now };

    ghost lawful = { Prim.search rules };

    fn states(&self) -> u16 {
        self.frame.states
    }

    fn own(&self) -> u8 {
        self.frame.own
    }

    fn partner(&self) -> u8 {
        self.frame.partner
    }

    fn start(&self) -> u16 {
        self.frame.start
    }

    fn label(&self, _state: u16) -> u8 {
        0
    }

    fn may_move(&self, state: u16, own: u8, partner: u8, next: u16) -> bool {
        let frame = &self.frame;
        if state >= frame.states || next >= frame.states {
            return false;
        }
        if own >= frame.own || partner >= frame.partner {
            return false;
        }
        let row = 16 * usize::from(state) + 4 * usize::from(own) + usize::from(partner);
        // what is left of a division fits
        has_bit(
            byte_at(self.rows, 32 * row + usize::from(next / 8)),
            (next % 8) as u8,
        )
    }
}
