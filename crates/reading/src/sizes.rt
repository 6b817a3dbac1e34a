ghost use Rattle.std.specs.Prelude.{◌≡◌, ◌≤◌, IfOk};
ghost use Rattle.reading.specs.Faults.{told};
ghost use Rattle.reading.specs.Sizes.{field_fault};

use crate::faults::{ReadFault, check};
use crate::sides::Sides;

/// How many phases a bay has, and how many signals each side can show.
#[derive(Clone, Copy, PartialEq, Eq, Debug)]
pub struct Sizes {
    pub phases: u8,
    pub signals: Sides<u8>,
    ghost some_phases: { 1 ≤ phases },
    ghost few_phases: { phases ≤ 8 },
    ghost some0: { 1 ≤ signals.first },
    ghost few0: { signals.first ≤ 4 },
    ghost some1: { 1 ≤ signals.second },
    ghost few1: { signals.second ≤ 4 },
}

impl Sizes {
    /// The sizes in the fields of a table, or the first that is out of range.
    pub(crate) fn new(phases: u8, signals0: u8, signals1: u8) -> Result<Sizes, ReadFault>
        ensures first { told result ≡ field_fault phases signals0 signals1 }
        ensures value { IfOk result (λ s. (s.phases ≡ phases) × (s.signals.first ≡ signals0) × (s.signals.second ≡ signals1)) }
    {
        check((1..=8).contains(&phases), ReadFault::Field(0))?;
        check((1..=4).contains(&signals0), ReadFault::Field(1))?;
        check((1..=4).contains(&signals1), ReadFault::Field(2))?;
        let signals = Sides {
            first: signals0,
            second: signals1,
        };
        Ok(Sizes { phases, signals })
    }

    /// One phase, one signal each way.
    pub(crate) fn least() -> Sizes
        ensures phases { result.phases ≡ 1 }
        ensures first { result.signals.first ≡ 1 }
        ensures second { result.signals.second ≡ 1 }
    {
        let signals = Sides {
            first: 1,
            second: 1,
        };
        Sizes { phases: 1, signals }
    }
}
