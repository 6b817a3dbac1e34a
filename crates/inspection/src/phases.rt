use reading::phase_table::PhaseTable;
use std::fmt::{self, Formatter, Write};

fn write_sizes<W: Write>(f: &mut Formatter<W>, table: &PhaseTable) -> fmt::Result {
    writeln!(
        f,
        "phases             {}\n\
         signals of side 0  {}\n\
         signals of side 1  {}\n\n\
         next phase, by the signals of side 0 (rows) and side 1 (columns)",
        table.phases(),
        table.signals(0),
        table.signals(1)
    )
}

fn write_row<W: Write>(
    f: &mut Formatter<W>,
    table: &PhaseTable,
    phase: u8,
    first: u8,
) -> fmt::Result {
    write!(f, "{first:>7} |")?;
    for second in 0..table.signals(1) {
        write!(f, "  {}", table.next(phase, first, second))?;
    }
    writeln!(f)
}

/// One table: a row for each signal of side 0, a column for each of side 1.
fn write_phase<W: Write>(f: &mut Formatter<W>, table: &PhaseTable, phase: u8) -> fmt::Result {
    write!(f, "\nphase {phase} |")?;
    for second in 0..table.signals(1) {
        write!(f, "  {second}")?;
    }
    writeln!(f)?;
    for first in 0..table.signals(0) {
        write_row(f, table, phase, first)?;
    }
    Ok(())
}

/// The sizes, then a table for each phase.
pub(crate) fn write<W: Write>(f: &mut Formatter<W>, table: &PhaseTable) -> fmt::Result {
    write_sizes(f, table)?;
    for phase in 0..table.phases() {
        write_phase(f, table, phase)?;
    }
    Ok(())
}
