ghost use Rattle.std.specs.Prelude.{◌≡◌, IfOk, string_bytes};
ghost use Rattle.reading.specs.Faults.{told};
ghost use Rattle.inspection.specs.Refusals.{sheet_fault, title, Tells};

use crate::kinds::Kind;
use crate::refusals::{Sentence, refusal};
use crate::titles::titled;
use crate::{machine, marks, phases, records, rule};
use reading::bytes::length_place;
use reading::faults::{ReadFault, check};
use reading::machine_sheet::MachineSheet;
use reading::mark_sheet::MarkSheet;
use reading::phase_table::PhaseTable;
use reading::records::Record;
use reading::rule_sheet::RuleSheet;
use std::alloc::{AllocError, Global};
use std::fmt;

/// Longer input is refused unread.
pub const LIMIT: usize = 40_000;

/// A sheet that is held; its `Display` says what it means, as it stands under its title.
#[derive(Clone, Copy)]
pub enum Sheet<'a> {
    Machine(MachineSheet<'a>),
    Marks(MarkSheet),
    Rule(RuleSheet),
    Phases(PhaseTable),
    Record(Record<'a>),
}

impl<'a> Sheet<'a> {
    /// The sheet of that kind in the bytes, or their first fault.
    fn read(kind: Kind, bytes: &'a [u8]) -> Result<Sheet<'a>, ReadFault>
        ensures { told result ≡ sheet_fault kind bytes.now }
    {
        check(bytes.len() <= LIMIT, ReadFault::Size(length_place(bytes)))?;
        Ok(match kind {
            Kind::Machine => Sheet::Machine(MachineSheet::read(bytes)?),
            Kind::Marks(states) => Sheet::Marks(MarkSheet::read(bytes, states)?),
            Kind::Rule(states) => Sheet::Rule(RuleSheet::read(bytes, states)?),
            Kind::Phases => Sheet::Phases(PhaseTable::parse(bytes)?),
            Kind::Record => Sheet::Record(Record::read(bytes)?),
        })
    }
}

impl fmt::Display for Sheet<'_> {
    fn fmt<W: fmt::Write>(&self, f: &mut fmt::Formatter<W>) -> fmt::Result {
        // five functions: five wrappers with a `Display` each would say no more
        match self {
            Sheet::Machine(sheet) => machine::write(f, sheet),
            Sheet::Marks(sheet) => marks::write(f, sheet),
            Sheet::Rule(sheet) => rule::write(f, sheet),
            Sheet::Phases(table) => phases::write(f, table),
            Sheet::Record(record) => records::write(f, record),
        }
    }
}

/// What a sheet means, or why it is refused, in words.
pub fn inspect(heap: Global, kind: Kind, bytes: &[u8]) -> Result<String, AllocError>
    ensures { IfOk result (λ text. Tells (title kind) (sheet_fault kind bytes.now) (string_bytes text)) }
{
    match Sheet::read(kind, bytes) {
        Ok(sheet) => titled(heap, kind.title(), sheet),
        Err(fault) => refusal(heap, fault, Sentence::new(kind, bytes, fault)),
    }
}
