ghost use Rattle.std.specs.Prelude.{◌≡◌, is_ok, IfOk, Decides, MatchResult};
ghost use Rattle.reading.specs.Faults.{told};
ghost use Rattle.reading.specs.Sides.{pick};
ghost use Rattle.reading.specs.PhaseTables.{table_in, table_of, single, next_phase, phase_fault, Lawful};

use crate::bytes::{byte_at, length_place, put_front};
use crate::entries::check_entries;
use crate::faults::{ReadFault, check};
use crate::phase_table::PhaseTable;
use crate::sizes::Sizes;

impl PhaseTable {
    /// One phase, one signal each way, entry 0.
    pub fn new() -> PhaseTable
        ensures { table_of result ≡ single }
    {
        PhaseTable {
            sizes: Sizes::least(),
            entries: [0; 128],
        }
    }

    /// The table in the bytes, or their first fault.
    pub fn parse(bytes: &[u8]) -> Result<PhaseTable, ReadFault>
        ensures first { told result ≡ phase_fault bytes.now }
        ensures value { IfOk result (λ t. table_of t ≡ table_in bytes.now) }
        ensures lawful { Decides (is_ok result) (Lawful bytes.now) }
    {
        // an `else` must leave, so that it returns the fault
        let [phases, signals0, signals1, rest @ ..] = bytes else {
            return Err(ReadFault::Short(length_place(bytes)));
        };
        let sizes = Sizes::new(*phases, *signals0, *signals1)?;
        let size = usize::from(*phases) * usize::from(*signals0) * usize::from(*signals1);
        check(rest.len() == size, ReadFault::Size(length_place(bytes)))?;
        check_entries(rest, *phases, 3)?;
        let mut entries = [0; 128];
        put_front(&mut entries, rest);
        Ok(PhaseTable { sizes, entries })
    }

    /// Replaces the table by the one in the bytes; on a refusal it stays as it was.
    pub fn read(&mut self, bytes: &[u8]) -> Result<(), ReadFault>
        ensures first { told result ≡ phase_fault bytes.now }
        ensures value { MatchResult result (λ _. table_of self.new ≡ table_in bytes.now) (λ _. self.new ≡ self.old) }
        ensures lawful { Decides (is_ok result) (Lawful bytes.now) }
    {
        *self = PhaseTable::parse(bytes)?;
        Ok(())
    }

    /// The phase after a phase and the signals of both sides; 0 where one of them is out of range.
    pub fn next(&self, phase: u8, first: u8, second: u8) -> u8
        ensures { result ≡ next_phase (table_of self.now) phase first second }
    {
        let Sizes { phases, signals } = self.sizes;
        if phase < phases && first < signals.first && second < signals.second {
            let row = usize::from(phase) * usize::from(signals.first) + usize::from(first);
            byte_at(
                &self.entries,
                row * usize::from(signals.second) + usize::from(second),
            )
        } else {
            0
        }
    }

    /// The phase after a phase, as a side sees it: its own signal and its partner's; any side but 0 is side 1.
    pub fn follow(&self, side: u8, phase: u8, own: u8, partner: u8) -> u8
        ensures { result ≡ pick side (next_phase (table_of self.now) phase own partner) (next_phase (table_of self.now) phase partner own) }
    {
        if side == 0 {
            self.next(phase, own, partner)
        } else {
            self.next(phase, partner, own)
        }
    }
}
