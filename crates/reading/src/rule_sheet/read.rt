ghost use Rattle.std.specs.Prelude.{◌≡◌, is_ok, IfOk, Decides};
ghost use Rattle.reading.specs.Faults.{told};
ghost use Rattle.reading.specs.RuleSheets.{automaton_in, automaton_of, blank, next_state, accepts, forbids, field_fault, rule_fault, Lawful};

use crate::bytes::{fits, has_bit, length_place, put_front};
use crate::entries::check_entries;
use crate::faults::{ReadFault, check};
use crate::rule_sheet::{RuleSheet, can_watch};

/// The first field out of range is a fault.
fn check_fields(states: u8, accepting: u8, start: u8) -> Result<(), ReadFault>
    ensures { told result ≡ field_fault states accepting start }
{
    check((1..=8).contains(&states), ReadFault::Field(0))?;
    check(fits(accepting, u16::from(states)), ReadFault::Field(1))?;
    check(start < states, ReadFault::Field(3))
}

impl RuleSheet {
    /// One automaton state, nothing accepting, nothing forbidden.
    pub fn new() -> RuleSheet
        ensures { automaton_of result ≡ blank }
    {
        RuleSheet {
            states: 1,
            accepting: 0,
            forbidden: 0,
            start: 0,
            next: [0; 64],
        }
    }

    /// The automaton in the bytes, for a machine of so many states, or the first fault.
    pub fn read(bytes: &[u8], states: u16) -> Result<RuleSheet, ReadFault>
        ensures first { told result ≡ rule_fault states bytes.now }
        ensures value { IfOk result (λ a. automaton_of a ≡ automaton_in bytes.now) }
        ensures lawful { Decides (is_ok result) (Lawful states bytes.now) }
    {
        // an `else` must leave, so that it returns the fault
        let [count, accepting, forbidden, start, rest @ ..] = bytes else {
            return Err(ReadFault::Short(length_place(bytes)));
        };
        check_fields(*count, *accepting, *start)?;
        let size = 8 * usize::from(*count);
        check(rest.len() == size, ReadFault::Size(length_place(bytes)))?;
        check_entries(rest, *count, 4)?;
        check(can_watch(states, *count), ReadFault::TooLarge)?;
        let mut next = [0; 64];
        put_front(&mut next, rest);
        Ok(RuleSheet {
            states: *count,
            accepting: *accepting,
            forbidden: *forbidden,
            start: *start,
            next,
        })
    }

    // Two questions in the format's own words: one function would take which is meant.

    /// Whether a state of the automaton is accepting.
    pub fn accepting(&self, state: u8) -> bool
        ensures { result ≡ accepts (automaton_of self.now) state }
    {
        has_bit(self.accepting, state)
    }

    /// Whether a label is forbidden.
    pub fn forbidden(&self, label: u8) -> bool
        ensures { result ≡ forbids (automaton_of self.now) label }
    {
        has_bit(self.forbidden, label)
    }

    /// The state after a state and a label; 0 where one of them is out of range.
    pub fn next(&self, state: u8, label: u8) -> u8
        ensures { result ≡ next_state (automaton_of self.now) state label }
    {
        if state < self.states && label < 8 {
            self.next[8 * usize::from(state) + usize::from(label)]
        } else {
            0
        }
    }
}
