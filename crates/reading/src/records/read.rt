ghost use Rattle.std.specs.Prelude.{◌+◌, ◌*◌, ◌^◌, ◌<◌, ◌≡◌, ◌≤◌, length, is_ok, IfOk, Decides};
ghost use Rattle.reading.specs.Firsts.{first_below};
ghost use Rattle.reading.specs.Faults.{told};
ghost use Rattle.reading.specs.Records.{parts_in, parts_of, inside, choice_at, rank_at, kept_rank, bound_of, field_fault, choice_fault, record_fault, Lawful};

use crate::bytes::{byte_at, length_place, pair_at};
use crate::faults::{ReadFault, check};
use crate::records::{NO_CHOICE, NO_RANK, Position, Record, length, places};

/// The first size out of range is a fault.
fn check_fields(states: u16, phases: u8, signals: u8) -> Result<(), ReadFault>
    ensures { told result ≡ field_fault states phases signals }
{
    check((1..=256).contains(&states), ReadFault::Field(0))?;
    check((1..=8).contains(&phases), ReadFault::Field(2))?;
    check((1..=4).contains(&signals), ReadFault::Field(3))
}

/// The first choice that is no signal and not absent is a fault.
fn check_choices(choices: &[u8], signals: u8) -> Result<(), ReadFault>
    requires { length choices.now ≤ 2048 }
    ensures { told result ≡ first_below (length choices.now) (choice_fault choices.now signals) }
{
    for (i, choice) in choices.iter().enumerate() {
        // the index, since a fault names its place, which fits by the length
        let fits = *choice < signals || *choice == NO_CHOICE;
        check(fits, ReadFault::Entry(4 + i as u16))?;
    }
    Ok(())
}

impl<'a> Record<'a> {
    /// The record in the bytes, or their first fault.
    pub fn read(bytes: &'a [u8]) -> Result<Record<'a>, ReadFault>
        ensures first { told result ≡ record_fault bytes.now }
        ensures value { IfOk result (λ p. parts_of p ≡ parts_in bytes.now) }
        ensures lawful { Decides (is_ok result) (Lawful bytes.now) }
    {
        // an `else` must leave, so that it returns the fault
        let [low, high, phases, signals, rest @ ..] = bytes else {
            return Err(ReadFault::Short(length_place(bytes)));
        };
        let states = u16::from_le_bytes([*low, *high]);
        check_fields(states, *phases, *signals)?;
        let size = length(states, *phases);
        check(bytes.len() == size, ReadFault::Size(length_place(bytes)))?;
        let (choices, ranks) = rest.split_at(places(states, *phases));
        check_choices(choices, *signals)?;
        Ok(Record {
            states,
            phases: *phases,
            signals: *signals,
            choices,
            ranks,
        })
    }

    /// Whether the record has a position.
    fn inside(&self, at: Position) -> bool
        ensures { result ≡ inside (parts_of self.now) at.state at.phase }
    {
        at.state < self.states && at.phase < self.phases
    }

    // Choice and rank are two questions in the format's own words: one function would take which is meant.

    /// The signal to show; 255 where there is none.
    pub fn choice(&self, at: Position) -> u8
        ensures { result ≡ choice_at (parts_of self.now) at.state at.phase }
    {
        if self.inside(at) {
            byte_at(self.choices, at.place(self.phases))
        } else {
            NO_CHOICE
        }
    }

    /// At most how many ticks to a goal; 65,535 where there is no rank.
    pub fn rank(&self, at: Position) -> u16
        ensures { result ≡ rank_at (parts_of self.now) at.state at.phase }
    {
        if self.inside(at) {
            pair_at(self.ranks, 2 * at.place(self.phases))
        } else {
            NO_RANK
        }
    }

    /// The rank at a place, or 0 where the position is not kept.
    fn kept_rank(&self, place: usize) -> u16
        requires { place < 2 ^ 32 }
        ensures { result ≡ kept_rank (parts_of self.now) place }
    {
        let rank = pair_at(self.ranks, 2 * place);
        if byte_at(self.choices, place) == NO_CHOICE && rank == NO_RANK {
            return 0;
        }
        rank
    }

    /// The largest kept rank, reached or not; 0 where nothing is kept.
    pub fn bound(&self) -> u16
        ensures { result ≡ bound_of (parts_of self.now) }
    {
        // 32 bits, so that twice a place is a place too; `usize::from` takes none
        (0..u32::from(self.states) * u32::from(self.phases))
            .map(|place| self.kept_rank(place as usize))
            .max()
            .unwrap_or(0)
    }
}
