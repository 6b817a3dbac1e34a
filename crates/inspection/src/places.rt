ghost use Rattle.std.specs.Prelude.{◌+◌, ◌/◌, ◌%◌, ◌<◌, ◌≡◌, ◌*◌, ◌≤◌, max, true, IfSome};
ghost use Rattle.reading.specs.Bytes.{bit};
ghost use Rattle.inspection.specs.Places.{Stands};
ghost use Rattle.inspection.specs.Sources.{state_of};

use reading::bytes::has_bit;
use reading::records::Position;

/// What a byte of a machine sheet behind its fields belongs to.
#[derive(Clone, Copy, PartialEq, Eq, Debug)]
pub enum Part {
    Label(u16),
    Key(u16),
    Target(u16),
}

/// Where an entry of a table stands, if the table is listed row by row.
#[derive(Clone, Copy, PartialEq, Eq, Debug)]
struct Cell {
    row: u16,
    column: u8,
}

impl Cell {
    /// The cell of an entry by its index; no columns count as one, so that the division is defined.
    fn of(i: u16, columns: u8) -> Cell
        ensures row { result.row ≡ i / max columns 1 }
        ensures whole { 1 ≤ columns → result.row * columns + result.column ≡ i }
        ensures column { 1 ≤ columns → result.column < columns }
    {
        let columns = u16::from(columns.max(1));
        Cell {
            row: i / columns,
            // what is left of a division fits
            column: (i % columns) as u8,
        }
    }
}

/// Where a move starts: a state or a phase, and the signals that both sides show there.
#[derive(Clone, Copy, PartialEq, Eq, Debug)]
pub(crate) struct Source {
    pub from: u16,
    pub first: u8,
    pub second: u8,
}

impl Source {
    /// A key read backward: it is (state × first signals + first) × second signals + second.
    pub(crate) fn of(key: u16, firsts: u8, seconds: u8) -> Source
        ensures from { result.from ≡ state_of firsts seconds key }
        ensures whole { 1 ≤ firsts → 1 ≤ seconds → (result.from * firsts + result.first) * seconds + result.second ≡ key }
        ensures first { 1 ≤ firsts → result.first < firsts }
        ensures second { 1 ≤ seconds → result.second < seconds }
    {
        let below = Cell::of(key, seconds);
        let above = Cell::of(below.row, firsts);
        Source {
            from: above.row,
            first: above.column,
            second: below.column,
        }
    }
}

/// The part at a place of a machine sheet: 8 bytes of fields, the labels, then two bytes for each key and each target.
pub(crate) fn machine_part(place: u16, states: u16, moves: u16) -> Part
    ensures { 8 ≤ place → Stands states moves result place }
{
    let behind = place.saturating_sub(8);
    if behind < states {
        return Part::Label(behind);
    }
    let i = (behind - states) / 2;
    if i < moves {
        Part::Key(i)
    } else {
        Part::Target(i - moves)
    }
}

/// A step of an automaton: its state, and the label that it reads there.
#[derive(Clone, Copy, PartialEq, Eq, Debug)]
pub(crate) struct Step {
    pub state: u16,
    pub label: u8,
}

// A step and a position are cells by other names, each for its own sentence.

/// The step whose next state stands at a place of a rule sheet.
pub(crate) fn rule_step(place: u16) -> Step
    ensures whole { 4 ≤ place → 4 + (result.state * 8 + result.label) ≡ place }
    ensures label { result.label < 8 }
{
    let Cell { row, column } = Cell::of(place.saturating_sub(4), 8);
    Step {
        state: row,
        label: column,
    }
}

/// Phase and signals whose next phase stands at a place of a phase table.
pub(crate) fn phase_source(place: u16, signals0: u8, signals1: u8) -> Source
    ensures whole { 3 ≤ place → 1 ≤ signals0 → 1 ≤ signals1 → 3 + ((result.from * signals0 + result.first) * signals1 + result.second) ≡ place }
    ensures first { 1 ≤ signals0 → result.first < signals0 }
    ensures second { 1 ≤ signals1 → result.second < signals1 }
{
    Source::of(place.saturating_sub(3), signals0, signals1)
}

/// The position whose choice stands at a place of a controller record.
pub(crate) fn record_position(place: u16, phases: u8) -> Position
    ensures whole { 4 ≤ place → 1 ≤ phases → 4 + (result.state * phases + result.phase) ≡ place }
    ensures phase { 1 ≤ phases → result.phase < phases }
{
    let Cell { row, column } = Cell::of(place.saturating_sub(4), phases);
    Position {
        state: row,
        phase: column,
    }
}

/// The first marked state from `low` up in the byte at a place of a mark sheet.
pub(crate) fn marked_state(byte: u8, place: u16, low: u16) -> Option<u16>
    ensures { IfSome result (λ s. (low ≤ s) × (s / 8 ≡ place % 32) × (bit byte (s % 8) ≡ true)) }
{
    let first = 8 * (place % 32);
    // what is left of a division fits
    (first..first + 8).find(|&state| low <= state && has_bit(byte, (state % 8) as u8))
}
