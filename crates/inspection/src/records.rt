use reading::records::{NO_CHOICE, NO_RANK, Position, Record};
use std::fmt::{self, Formatter, Write};

/// A position's row: a position with neither choice nor rank is not kept.
fn write_row<W: Write>(f: &mut Formatter<W>, record: &Record<'_>, at: Position) -> fmt::Result {
    let Position { state, phase } = at;
    write!(f, "{state:>5}  {phase:>5}  ")?;
    match (record.choice(at), record.rank(at)) {
        (NO_CHOICE, NO_RANK) => writeln!(f, "not kept"),
        (NO_CHOICE, rank) => writeln!(f, "  none  {rank:>5}"),
        (choice, rank) => writeln!(f, "{choice:>6}  {rank:>5}"),
    }
}

fn write_sizes<W: Write>(f: &mut Formatter<W>, record: &Record<'_>) -> fmt::Result {
    writeln!(
        f,
        "states   {:>3}\n\
         phases   {:>3}\n\
         signals  {:>3}\n",
        record.states, record.phases, record.signals
    )
}

/// The sizes, a row for each position, then the bound.
pub(crate) fn write<W: Write>(f: &mut Formatter<W>, record: &Record<'_>) -> fmt::Result {
    write_sizes(f, record)?;
    writeln!(f, "state  phase  choice   rank")?;
    for state in 0..record.states {
        for phase in 0..record.phases {
            write_row(f, record, Position { state, phase })?;
        }
    }
    writeln!(f, "\nbound: {} (the largest kept rank)", record.bound())
}
