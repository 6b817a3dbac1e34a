ghost use Rattle.std.specs.Prelude.{◌<◌, ◌≡◌, is_ok, IfOk, Some, Decides, MatchResult};
ghost use Rattle.reading.specs.Firsts.{first_below};
ghost use Rattle.reading.specs.Bytes.{byte};
ghost use Rattle.reading.specs.Faults.{numbers, told};
ghost use Rattle.reading.specs.MachineSheets.{sheet_in, sheet_of, key_at, target_at, frame_fault, move_fault, head_fault, machine_fault, Headed, SizesRead, Lawful};

use crate::bytes::{byte_at, length_place, pair_at};
use crate::entries::check_entries;
use crate::faults::{ReadFault, check};
use crate::machine_sheet::{Frame, Listed, MachineSheet, Move};

impl Frame {
    /// The sizes in the fields of a sheet, or the first that is out of range.
    fn new(states: u16, own: u8, partner: u8, start: u16) -> Result<Frame, ReadFault>
        ensures first { told result ≡ frame_fault states own partner start }
        ensures value { IfOk result (λ f. (f.states ≡ states) × (f.own ≡ own) × (f.partner ≡ partner) × (f.start ≡ start)) }
    {
        check((1..=256).contains(&states), ReadFault::Field(0))?;
        check((1..=4).contains(&own), ReadFault::Field(2))?;
        check((1..=4).contains(&partner), ReadFault::Field(3))?;
        check(start < states, ReadFault::Field(4))?;
        Ok(Frame {
            states,
            own,
            partner,
            start,
        })
    }
}

/// The sizes and the parts of a sheet, or its first fault of fields and length.
fn cut(bytes: &[u8]) -> Result<MachineSheet<'_>, ReadFault>
    ensures parts { MatchResult result (λ s. Headed bytes.now (sheet_of s)) (λ f. head_fault bytes.now ≡ Some (numbers f)) }
    ensures sizes { IfOk result SizesRead }
{
    // an `else` must leave, so that it returns the fault
    let [n0, n1, own, partner, s0, s1, e0, e1, rest @ ..] = bytes else {
        return Err(ReadFault::Short(length_place(bytes)));
    };
    let states = u16::from_le_bytes([*n0, *n1]);
    let start = u16::from_le_bytes([*s0, *s1]);
    let moves = u16::from_le_bytes([*e0, *e1]);
    let frame = Frame::new(states, *own, *partner, start)?;
    check(moves <= 4096, ReadFault::Field(6))?;
    let size = usize::from(states) + 4 * usize::from(moves);
    check(rest.len() == size, ReadFault::Size(length_place(bytes)))?;
    let (labels, entries) = rest.split_at(usize::from(states));
    let (keys, targets) = entries.split_at(2 * usize::from(moves));
    let listed = Listed {
        frame,
        moves,
        labels,
        keys,
        targets,
    };
    Ok(MachineSheet {
        states,
        own: *own,
        partner: *partner,
        start,
        moves,
        listed,
    })
}

impl<'a> MachineSheet<'a> {
    /// The sheet in the bytes, or their first fault.
    pub fn read(bytes: &'a [u8]) -> Result<MachineSheet<'a>, ReadFault>
        ensures first { told result ≡ machine_fault bytes.now }
        ensures value { IfOk result (λ s. sheet_of s ≡ sheet_in bytes.now) }
        ensures sizes { IfOk result SizesRead }
        ensures lawful { Decides (is_ok result) (Lawful bytes.now) }
    {
        let sheet = cut(bytes)?;
        check_entries(sheet.listed.labels, 8, 8)?;
        sheet.check_moves()?;
        Ok(sheet)
    }

    /// The label of a state; 0 out of range.
    pub fn label(&self, state: u16) -> u8
        ensures { result ≡ byte (sheet_of self.now).labels state }
    {
        byte_at(self.listed.labels, usize::from(state))
    }

    /// A move by its place in the list; zeros past the last.
    pub fn entry(&self, i: u16) -> Move
        ensures key { result.key ≡ key_at (sheet_of self.now) i }
        ensures target { result.target ≡ target_at (sheet_of self.now) i }
    {
        let place = 2 * usize::from(i);
        Move {
            key: pair_at(self.listed.keys, place),
            target: pair_at(self.listed.targets, place),
        }
    }

    /// Checks a move: its key, its target, its order.
    fn check_move(&self, i: u16) -> Result<(), ReadFault>
        requires { i < self.now.listed.moves }
        ensures { told result ≡ move_fault (sheet_of self.now) i }
    {
        let here = self.entry(i);
        let Frame {
            states,
            own,
            partner,
            ..
        } = self.listed.frame;
        let keys = states * u16::from(own) * u16::from(partner);
        let key_place = 8 + states + 2 * i;
        check(here.key < keys, ReadFault::Entry(key_place))?;
        let target_place = key_place + 2 * self.listed.moves;
        check(here.target < states, ReadFault::Entry(target_place))?;
        let ascends = i == 0 || self.entry(i - 1) < here;
        check(ascends, ReadFault::Order(key_place))
    }

    /// Checks move by move.
    fn check_moves(&self) -> Result<(), ReadFault>
        ensures { told result ≡ first_below self.now.listed.moves (move_fault (sheet_of self.now)) }
    {
        // the index, since a fault names its place
        for i in 0..self.listed.moves {
            self.check_move(i)?;
        }
        Ok(())
    }
}
