ghost use Rattle.std.specs.Prelude.{◌+◌, ◌<◌, ◌≡◌, ℕ, ◌-◌, ◌≤◌, ◌||◌, ◌≢◌, nat_le};
ghost use Rattle.reading.specs.MachineSheets.{sheet_of};
ghost use Rattle.inspection.specs.Sources.{state_at, opens_at};

use crate::frame_words::FrameWords;
use crate::places::Source;
use reading::machine_sheet::MachineSheet;
use std::fmt::{self, Formatter, Write};

/// Where a move of the list starts.
fn source_at(sheet: &MachineSheet<'_>, i: u16) -> Source
    ensures { result.from ≡ state_at (sheet_of sheet.now) i }
{
    Source::of(sheet.entry(i).key, sheet.frame().own, sheet.frame().partner)
}

/// The first move from `from` on that does not start in the state.
fn end_of(sheet: &MachineSheet<'_>, state: u16, from: u16) -> u16
    ensures within { from ≤ (sheet_of sheet.now).moves → (from ≤ result) × (result ≤ (sheet_of sheet.now).moves) }
    ensures before { (i : ℕ) → from ≤ i → i < result → i < (sheet_of sheet.now).moves → state_at (sheet_of sheet.now) i ≡ state }
    ensures stops { result < (sheet_of sheet.now).moves → state_at (sheet_of sheet.now) result ≢ state }
{
    (from..sheet.moves())
        .find(|&i| source_at(sheet, i).from != state)
        .unwrap_or(sheet.moves())
}

/// Whether a move is the first of its key.
fn opens(sheet: &MachineSheet<'_>, i: u16) -> bool
    ensures { result ≡ opens_at (sheet_of sheet.now) i }
{
    i == 0 || sheet.entry(i - 1).key != sheet.entry(i).key
}

/// Whether a move is the last of its key.
fn closes(sheet: &MachineSheet<'_>, i: u16) -> bool
    ensures { result ≡ (nat_le ((sheet_of sheet.now).moves - 1) i || opens_at (sheet_of sheet.now) (i + 1)) }
{
    i >= sheet.moves().saturating_sub(1) || opens(sheet, i + 1)
}

/// One line for all targets of a key: the move that opens the key begins it.
fn write_move<W: Write>(f: &mut Formatter<W>, sheet: &MachineSheet<'_>, i: u16) -> fmt::Result {
    let target = sheet.entry(i).target;
    if opens(sheet, i) {
        let Source { first, second, .. } = source_at(sheet, i);
        write!(f, "\n  own {first}, partner {second}: to {target}")
    } else if closes(sheet, i) {
        write!(f, " or {target}")
    } else {
        write!(f, ", {target}")
    }
}

/// The moves of one state, which are those from `from` up to `end`.
fn write_moves<W: Write>(
    f: &mut Formatter<W>,
    sheet: &MachineSheet<'_>,
    from: u16,
    end: u16,
) -> fmt::Result {
    for i in from..end {
        write_move(f, sheet, i)?;
    }
    let keys = (from..end).filter(|&i| opens(sheet, i)).count();
    if keys == 0 {
        writeln!(f, " no moves")
    } else if keys < usize::from(sheet.frame().own) * usize::from(sheet.frame().partner) {
        writeln!(f, "\n  no other move")
    } else {
        writeln!(f)
    }
}

fn write_heading<W: Write>(
    f: &mut Formatter<W>,
    sheet: &MachineSheet<'_>,
    state: u16,
) -> fmt::Result {
    let label = sheet.label(state);
    let start = if state == sheet.frame().start {
        ", start"
    } else {
        ""
    };
    write!(f, "state {state} (label {label}{start}):")
}

/// The sizes, then the moves of each state.
pub(crate) fn write<W: Write>(f: &mut Formatter<W>, sheet: &MachineSheet<'_>) -> fmt::Result {
    let sizes = FrameWords(sheet.frame());
    let moves = sheet.moves();
    writeln!(f, "{sizes}moves            {moves:>4}\n")?;
    let mut from = 0;
    for state in 0..sheet.frame().states {
        // Moves stand in the order of their states, so one walk meets them all.
        let end = end_of(sheet, state, from);
        write_heading(f, sheet, state)?;
        write_moves(f, sheet, from, end)?;
        from = end;
    }
    Ok(())
}
