ghost use Rattle.std.specs.Prelude.{IfOk, string_bytes};
ghost use Rattle.reading.specs.Faults.{numbers};
ghost use Rattle.inspection.specs.Refusals.{Refuses};

use crate::kinds::Kind;
use crate::places::{
    Part, Source, Step, machine_part, marked_state, phase_source, record_position, rule_step,
};
use crate::sheets::LIMIT;
use reading::bytes::{byte_at, pair_at};
use reading::faults::ReadFault;
use reading::records::Position;
use reading::words::Remedy;
use std::alloc::{AllocError, Global};
use std::fmt::{self, Formatter, Write};

/// Said of a fault that its kind of sheet does not have.
const UNLAWFUL: &str = "The sheet is not lawful there.";

// Sentences differ from kind to kind, and so are matched by kind for each fault, and by the place that it has.

/// What is wrong with a refused sheet, as a sentence.
#[derive(Clone, Copy)]
pub(crate) struct Sentence<'a> {
    kind: Kind,
    bytes: &'a [u8],
    fault: ReadFault,
}

impl<'a> Sentence<'a> {
    pub(crate) fn new(kind: Kind, bytes: &'a [u8], fault: ReadFault) -> Sentence<'a> {
        Sentence { kind, bytes, fault }
    }
}

impl fmt::Display for Sentence<'_> {
    fn fmt<W: Write>(&self, f: &mut Formatter<W>) -> fmt::Result {
        match self.fault {
            ReadFault::Short(len) => self.write_short(f, len),
            ReadFault::Field(place) => f.write_str(self.field(place)),
            ReadFault::Size(len) => self.write_size(f, len),
            ReadFault::Entry(place) => self.write_entry(f, place),
            ReadFault::Order(place) => self.write_order(f, place),
            ReadFault::Clash(place) => self.write_clash(f, place),
            ReadFault::TooLarge => self.write_too_large(f),
        }
    }
}

impl Sentence<'_> {
    fn byte(&self, i: usize) -> u8 {
        byte_at(self.bytes, i)
    }

    /// Too short for the fixed fields.
    fn write_short<W: Write>(&self, f: &mut Formatter<W>, len: u16) -> fmt::Result {
        let (name, fixed) = match self.kind {
            Kind::Machine => ("machine sheet", 8),
            Kind::Marks(_) => ("mark sheet", 64),
            Kind::Rule(_) => ("rule sheet", 4),
            Kind::Phases => ("phase table", 3),
            Kind::Record => ("controller record", 4),
        };
        write!(
            f,
            "A {name} has at least {fixed} bytes; this one has {len}."
        )
    }

    /// A field out of range.
    fn field(&self, place: u16) -> &'static str {
        match (self.kind, place) {
            (Kind::Machine | Kind::Record, 0) => "The number of states is not 1 to 256.",
            (Kind::Machine, 2) => "The number of own signals is not 1 to 4.",
            (Kind::Machine, 3) => "The number of partner signals is not 1 to 4.",
            (Kind::Machine, 4) => "The start is not a state of the machine.",
            (Kind::Machine, _) => "The number of moves is above 4,096.",
            (Kind::Rule(_), 0) => "The number of states is not 1 to 8.",
            (Kind::Rule(_), 1) => "An accepting state is not a state of the automaton.",
            (Kind::Rule(_), _) => "The start is not a state of the automaton.",
            (Kind::Phases, 0) | (Kind::Record, 2) => "The number of phases is not 1 to 8.",
            (Kind::Phases, 1) => "The number of signals of side 0 is not 1 to 4.",
            (Kind::Phases, _) => "The number of signals of side 1 is not 1 to 4.",
            (Kind::Record, _) => "The number of signals is not 1 to 4.",
            (Kind::Marks(_), _) => UNLAWFUL,
        }
    }

    /// Too long for any sheet, or of another length than its kind or its fields say.
    fn write_size<W: Write>(&self, f: &mut Formatter<W>, len: u16) -> fmt::Result {
        if usize::from(len) > LIMIT {
            return f.write_str("A sheet has at most 40,000 bytes; this one has more.");
        }
        match self.kind {
            Kind::Marks(_) => write!(f, "A mark sheet has 64 bytes; this one has {len}."),
            _ => f.write_str("The length does not fit the sizes in its fields."),
        }
    }

    /// The part of a machine sheet at a place, by the sizes in its fields.
    fn part(&self, place: u16) -> Part {
        machine_part(place, pair_at(self.bytes, 0), pair_at(self.bytes, 6))
    }

    /// A label, a key or a target out of range.
    fn write_part<W: Write>(&self, f: &mut Formatter<W>, place: u16) -> fmt::Result {
        match self.part(place) {
            Part::Label(state) => write!(f, "The label of state {state} is above 7."),
            Part::Key(i) => write!(f, "The key of move {i} names no state of the machine."),
            Part::Target(i) => write!(f, "The target of move {i} is not a state of the machine."),
        }
    }

    /// A move out of order.
    fn write_order<W: Write>(&self, f: &mut Formatter<W>, place: u16) -> fmt::Result {
        match self.part(place) {
            Part::Key(i) => write!(f, "Move {i} does not come after the move before it."),
            Part::Label(_) | Part::Target(_) => f.write_str(UNLAWFUL),
        }
    }

    /// A mark on a state that the machine does not have.
    fn write_stray<W: Write>(&self, f: &mut Formatter<W>, states: u16, place: u16) -> fmt::Result {
        let mark = if place < 32 { "forbidden" } else { "as a goal" };
        match marked_state(self.byte(place.into()), place, states) {
            Some(state) => write!(
                f,
                "State {state} is marked {mark}, but the machine has {states} states."
            ),
            None => f.write_str(UNLAWFUL),
        }
    }

    /// A state in both sets; its bytes lie 32 apart.
    fn write_clash<W: Write>(&self, f: &mut Formatter<W>, place: u16) -> fmt::Result {
        let i = usize::from(place);
        let both = self.byte(i) & self.byte(i + 32);
        match marked_state(both, place, 0) {
            Some(state) => write!(f, "State {state} is marked forbidden and as a goal."),
            None => f.write_str(UNLAWFUL),
        }
    }

    /// An entry out of range.
    fn write_entry<W: Write>(&self, f: &mut Formatter<W>, place: u16) -> fmt::Result {
        match self.kind {
            Kind::Machine => self.write_part(f, place),
            Kind::Marks(states) => self.write_stray(f, states, place),
            Kind::Rule(_) => {
                let Step { state, label } = rule_step(place);
                write!(
                    f,
                    "The next state of state {state} on label {label} is not a state of the automaton."
                )
            }
            Kind::Phases => {
                let Source {
                    from,
                    first,
                    second,
                } = phase_source(place, self.byte(1), self.byte(2));
                write!(
                    f,
                    "The phase after phase {from} on signals {first} and {second} is not a phase of the table."
                )
            }
            Kind::Record => {
                let Position { state, phase } = record_position(place, self.byte(2));
                write!(
                    f,
                    "The choice for state {state} in phase {phase} is neither a signal nor absent."
                )
            }
        }
    }

    /// Too many states for the machine and the automaton together.
    fn write_too_large<W: Write>(&self, f: &mut Formatter<W>) -> fmt::Result {
        let own = self.byte(0);
        match self.kind {
            Kind::Rule(states) => write!(
                f,
                "The machine's {states} states times the automaton's {own} are above 256."
            ),
            _ => f.write_str(UNLAWFUL),
        }
    }
}

/// What is refused: the fault's number and place, then what is wrong there and what to do.
pub(crate) fn refusal<S: fmt::Display + Drop>(
    heap: Global,
    fault: ReadFault,
    sentence: S,
) -> Result<String, AllocError>
    ensures { IfOk result (λ text. Refuses (numbers fault) (string_bytes text)) }
{
    let why = format!(in heap; "{sentence} {}", Remedy(fault))?;
    format!(in heap; "{fault}\n{why}\n")
}
