ghost use Rattle.std.specs.Prelude.{◌+◌, ◌*◌, ◌≡◌, IfOk};
ghost use Rattle.reading.specs.Faults.{told};
ghost use Rattle.bays.specs.Inputs.{input_fault, parted, parts_in};

use reading::bytes::length_place;
use reading::faults::{ReadFault, check};
use reading::sides::Sides;

/// A longer input is refused.
pub const LIMIT: usize = 40_000;

/// The five sheets of a bay, as parts of one input: for each side its machine sheet and the rule sheet that its machine is watched by,
/// then the phase table.
#[derive(Clone, Copy)]
pub struct Input<'a> {
    pub machines: Sides<&'a [u8]>,
    pub rules: Sides<&'a [u8]>,
    pub table: &'a [u8],
}

/// A two-byte length.
fn length(low: u8, high: u8) -> usize
    ensures { result ≡ low + 256 * high }
{
    usize::from(u16::from_le_bytes([low, high]))
}

impl<'a> Input<'a> {
    /// Cuts an input at its five lengths; each part can be anything.
    pub fn cut(bytes: &'a [u8]) -> Result<Input<'a>, ReadFault>
        ensures first { told result ≡ input_fault bytes.now }
        ensures value { IfOk result (λ i. parted i ≡ parts_in bytes.now) }
    {
        // an `else` must leave, so that it returns the fault
        let [a0, a1, b0, b1, c0, c1, d0, d1, e0, e1, rest @ ..] = bytes else {
            return Err(ReadFault::Short(length_place(bytes)));
        };
        let machine0 = length(*a0, *a1);
        let rule0 = length(*b0, *b1);
        let machine1 = length(*c0, *c1);
        let rule1 = length(*d0, *d1);
        let table = length(*e0, *e1);
        let size = 10 + machine0 + rule0 + machine1 + rule1 + table;
        let fits = bytes.len() == size && size <= LIMIT;
        check(fits, ReadFault::Size(length_place(bytes)))?;
        let (machine0, rest) = rest.split_at(machine0);
        let (rule0, rest) = rest.split_at(rule0);
        let (machine1, rest) = rest.split_at(machine1);
        let (rule1, table) = rest.split_at(rule1);
        Ok(Input {
            machines: Sides {
                first: machine0,
                second: machine1,
            },
            rules: Sides {
                first: rule0,
                second: rule1,
            },
            table,
        })
    }
}
