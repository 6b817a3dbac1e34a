use reading::rule_sheet::RuleSheet;
use std::fmt::{self, Formatter, Write};

/// The forbidden labels, or `none`.
fn write_forbidden<W: Write>(f: &mut Formatter<W>, sheet: &RuleSheet) -> fmt::Result {
    write!(f, "forbidden labels")?;
    let mut labels = (0..8).filter(|&label| sheet.forbidden(label)).peekable();
    if labels.peek().is_none() {
        write!(f, "  none")?;
    }
    for label in labels {
        write!(f, "  {label}")?;
    }
    writeln!(f)
}

/// What is to be said of a state besides its row.
fn note(sheet: &RuleSheet, state: u8) -> &'static str {
    match (state == sheet.start(), sheet.accepting(state)) {
        (true, true) => "  start, accepting",
        (true, false) => "  start",
        (false, true) => "  accepting",
        (false, false) => "",
    }
}

fn write_row<W: Write>(f: &mut Formatter<W>, sheet: &RuleSheet, state: u8) -> fmt::Result {
    write!(f, "{state:>5} |")?;
    for label in 0..8 {
        write!(f, "  {}", sheet.next(state, label))?;
    }
    writeln!(f, "{}", note(sheet, state))
}

/// The automaton as a table: a row for each state, a column for each label.
pub(crate) fn write<W: Write>(f: &mut Formatter<W>, sheet: &RuleSheet) -> fmt::Result {
    writeln!(f, "states            {}", sheet.states())?;
    write_forbidden(f, sheet)?;
    writeln!(
        f,
        "\nnext state, by state and label\n\
         state |  0  1  2  3  4  5  6  7"
    )?;
    for state in 0..sheet.states() {
        write_row(f, sheet, state)?;
    }
    Ok(())
}
