ghost use Rattle.std.specs.Prelude.{◌*◌, ◌%◌, ◌^◌, ◌≡◌, ◌-◌, length, is_ok, IfOk, Decides, nat_lt};
ghost use Rattle.reading.specs.Firsts.{first_below};
ghost use Rattle.reading.specs.Faults.{told};
ghost use Rattle.reading.specs.Marks.{marked};
ghost use Rattle.reading.specs.MarkSheets.{sets_in, sets_of, unmarked, stray_fault, clash_fault, mark_fault, Lawful};

use crate::bytes::{fits, has_bit, length_place, put_front};
use crate::faults::{ReadFault, check};
use crate::mark_sheet::MarkSheet;

/// Whether the byte at a place has only states of the machine; each half of a sheet begins with state 0.
fn fits_at(byte: u8, states: u16, j: usize) -> bool
    ensures { result ≡ nat_lt byte (2 ^ (states - 8 * (j % 32))) }
{
    // what is left of a division fits
    fits(byte, states.saturating_sub(8 * (j % 32) as u16))
}

/// The first byte with a state out of range is a fault.
fn check_strays(bytes: &[u8], states: u16) -> Result<(), ReadFault>
    requires { length bytes.now ≡ 64 }
    ensures { told result ≡ first_below (length bytes.now) (stray_fault states bytes.now) }
{
    // the index, since a fault names its place, which fits by the length
    for (j, byte) in bytes.iter().enumerate() {
        check(fits_at(*byte, states, j), ReadFault::Entry(j as u16))?;
    }
    Ok(())
}

/// The first byte of forbidden states that shares a state with the goals is a fault.
fn check_clashes(forbidden: &[u8], goals: &[u8]) -> Result<(), ReadFault>
    requires few { length forbidden.now ≡ 32 }
    requires alike { length goals.now ≡ 32 }
    ensures { told result ≡ first_below (length forbidden.now) (clash_fault forbidden.now goals.now) }
{
    // by index: of `zip` under `enumerate` the loop has no index for its invariant (tried)
    for (j, byte) in forbidden.iter().enumerate() {
        check(*byte & goals[j] == 0, ReadFault::Clash(j as u16))?;
    }
    Ok(())
}

/// Whether a state is in a set.
fn contains(set: &[u8; 32], state: u16) -> bool
    ensures { result ≡ marked set.now state }
{
    let j = usize::from(state / 8);
    // what is left of a division fits
    j < 32 && has_bit(set[j], (state % 8) as u8)
}

impl MarkSheet {
    /// No marks, for a machine of so many states.
    pub fn new(states: u16) -> MarkSheet
        ensures { sets_of result ≡ unmarked states }
    {
        MarkSheet {
            states,
            forbidden: [0; 32],
            goals: [0; 32],
        }
    }

    /// The marks in the bytes, for a machine of so many states, or the first fault.
    pub fn read(bytes: &[u8], states: u16) -> Result<MarkSheet, ReadFault>
        ensures first { told result ≡ mark_fault states bytes.now }
        ensures value { IfOk result (λ m. sets_of m ≡ sets_in states bytes.now) }
        ensures lawful { Decides (is_ok result) (Lawful states bytes.now) }
    {
        check(bytes.len() == 64, ReadFault::Size(length_place(bytes)))?;
        check_strays(bytes, states)?;
        let (first, second) = bytes.split_at(32);
        check_clashes(first, second)?;
        let mut forbidden = [0; 32];
        put_front(&mut forbidden, first);
        let mut goals = [0; 32];
        put_front(&mut goals, second);
        Ok(MarkSheet {
            states,
            forbidden,
            goals,
        })
    }

    // Two questions in the format's own words: a game's two questions call one each.

    /// Whether a state is marked forbidden.
    pub fn forbidden(&self, state: u16) -> bool
        ensures { result ≡ marked (sets_of self.now).forbidden state }
    {
        contains(&self.forbidden, state)
    }

    /// Whether a state is marked as a goal.
    pub fn goal(&self, state: u16) -> bool
        ensures { result ≡ marked (sets_of self.now).goals state }
    {
        contains(&self.goals, state)
    }
}
