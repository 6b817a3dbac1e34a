ghost use Rattle.std.specs.Prelude.{◌≡◌};
ghost use Rattle.reading.specs.Marks.{marked};
ghost use Rattle.reading.specs.MarkSheets.{sets_of};
ghost use Rattle.inspection.specs.Tallies.{set_of, tally};

use reading::mark_sheet::MarkSheet;
use std::fmt::{self, Formatter, Write};

/// A mark sheet has bits for so many states.
const STATES: u16 = 256;

/// The two ways that a state can be marked.
#[derive(Clone, Copy, PartialEq, Eq, Debug)]
enum Mark {
    Forbidden,
    Goal,
}

impl Mark {
    fn name(self) -> &'static str {
        match self {
            Mark::Forbidden => "forbidden",
            Mark::Goal => "goals",
        }
    }

    fn holds(self, sheet: &MarkSheet, state: u16) -> bool
        ensures { result ≡ marked (set_of self (sets_of sheet.now)) state }
    {
        match self {
            Mark::Forbidden => sheet.forbidden(state),
            Mark::Goal => sheet.goal(state),
        }
    }

    /// How many states have the mark.
    fn count(self, sheet: &MarkSheet) -> usize
        ensures { result ≡ tally 256 (marked (set_of self (sets_of sheet.now))) }
    {
        (0..STATES)
            .filter(|&state| self.holds(sheet, state))
            .count()
    }
}

/// The states with a mark, sixteen to a line.
fn write_states<W: Write>(f: &mut Formatter<W>, sheet: &MarkSheet, mark: Mark) -> fmt::Result {
    let states = (0..STATES).filter(|&state| mark.holds(sheet, state));
    for (i, state) in states.enumerate() {
        let line = if i % 16 == 0 { "\n" } else { "" };
        write!(f, "{line} {state:>3}")?;
    }
    writeln!(f)
}

fn write_set<W: Write>(f: &mut Formatter<W>, sheet: &MarkSheet, mark: Mark) -> fmt::Result {
    let name = mark.name();
    match mark.count(sheet) {
        0 => writeln!(f, "{name}: none"),
        count => {
            write!(f, "{name} ({count}):")?;
            write_states(f, sheet, mark)
        }
    }
}

/// The marked states, forbidden ones first.
pub(crate) fn write<W: Write>(f: &mut Formatter<W>, sheet: &MarkSheet) -> fmt::Result {
    writeln!(f)?;
    write_set(f, sheet, Mark::Forbidden)?;
    write_set(f, sheet, Mark::Goal)
}
