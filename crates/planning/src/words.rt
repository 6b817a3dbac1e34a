ghost use Rattle.std.specs.Prelude.{◌≡◌, ◌++◌, Some, IfOk, OnOk, codes, string_bytes};
ghost use Rattle.reading.specs.Records.{parts_in, parts_of, record_fault};
ghost use Rattle.planning.specs.Lines.{action, lines, reason, side_lines, state_lines, table_lines, table_of};

use crate::plans::{Plan, Plans};
use checking::faults::SolveFault;
use reading::records::{NO_CHOICE, NO_RANK, Position, Record};
use std::alloc::{AllocError, Global};
use std::fmt::{self, Formatter, Write};

/// What a controller does at a position, in print.
#[derive(Clone, Copy)]
struct Action {
    choice: u8,
    rank: u16,
}

impl fmt::Display for Action {
    ghost output = { λ x. Some (action x.choice x.rank) };

    fn fmt<W: Write>(&self, f: &mut Formatter<W>) -> fmt::Result {
        match (self.choice, self.rank) {
            (NO_CHOICE, NO_RANK) => f.write_str("no way to a goal"),
            (signal, 0) => write!(f, "show signal {signal}, at a goal"),
            (signal, 1) => write!(f, "show signal {signal}, goal in at most 1 tick"),
            (signal, rank) => write!(f, "show signal {signal}, goal in at most {rank} ticks"),
        }
    }
}

/// Adds the lines of a state, one for each phase.
fn add_state(text: &mut String, table: &Record<'_>, state: u16) -> Result<(), AllocError>
    ensures { OnOk result (string_bytes text.new ≡ string_bytes text.old ++ state_lines (parts_of table.now) state table.now.phases) }
{
    for phase in 0..table.phases {
        let at = Position { state, phase };
        let action = Action {
            choice: table.choice(at),
            rank: table.rank(at),
        };
        writeln!(text, "  state {state}, phase {phase}: {action}")?;
    }
    Ok(())
}

/// Adds the table of a record, state by state.
fn add_table(text: &mut String, table: &Record<'_>) -> Result<(), AllocError>
    ensures { OnOk result (string_bytes text.new ≡ string_bytes text.old ++ table_lines (parts_of table.now) table.now.states) }
{
    for state in 0..table.states {
        add_state(text, table, state)?;
    }
    Ok(())
}

/// Adds the table of a record, if its bytes can be read; what solving wrote can be.
fn add_record(text: &mut String, bytes: &[u8]) -> Result<(), AllocError>
    ensures { OnOk result (string_bytes text.new ≡ string_bytes text.old ++ table_of (record_fault bytes.now) (parts_in bytes.now)) }
{
    if let Ok(table) = Record::read(bytes) {
        add_table(text, &table)?;
    }
    Ok(())
}

/// Why a side has no table, and what to do.
fn reason(fault: SolveFault) -> &'static str
    ensures { result.now ≡ reason fault }
{
    match fault {
        SolveFault::Sizes => {
            "the signals of its machine are not those of the phase table. Use a machine and a table that fit."
        }
        SolveFault::Buffer => "there is no room for its record. Make room for one.",
        SolveFault::NoController => {
            "it has no controller. Let it promise more or rely on less, or ease its rules."
        }
    }
}

impl Plan {
    /// Adds what solving answered, and the table that it wrote.
    fn add(&self, text: &mut String) -> Result<(), AllocError>
        ensures { OnOk result (string_bytes text.new ≡ string_bytes text.old ++ side_lines self.now) }
    {
        match self.answer {
            Ok(bound) => {
                writeln!(
                    text,
                    "from anywhere that it keeps, a goal in at most {bound} ticks"
                )?;
                add_record(text, self.record.as_slice())?;
            }
            Err(fault) => writeln!(text, "{fault}: {}", reason(fault))?,
        }
        Ok(())
    }
}

impl Plans {
    /// Both plans in print: each side's table, position by position, or why it has none.
    pub fn text(&self, heap: Global) -> Result<String, AllocError>
        ensures { IfOk result (λ text. string_bytes text ≡ lines self.now) }
    {
        let mut text = String::new(heap);
        write!(text, "side 0: ")?;
        self.sides.first.add(&mut text)?;
        write!(text, "side 1: ")?;
        self.sides.second.add(&mut text)?;
        Ok(text)
    }
}
