ghost use Rattle.std.specs.Prelude.{IfOk, codes, string_bytes};
ghost use Rattle.games.specs.Lifts.{lift_fault};
ghost use Rattle.inspection.specs.Refusals.{Tells, product_fault};

use crate::frame_words::FrameWords;
use crate::kinds::Kind;
use crate::refusals::{Sentence, refusal};
use crate::titles::titled;
use games::lift::Lift;
use games::machine::{Game, Machine, frame};
use games::sheet_machine::SheetMachine;
use games::watched::Watched;
use reading::faults::ReadFault;
use reading::rule_sheet::Pair;
use std::alloc::{AllocError, Global};
use std::fmt::{self, Formatter, Write};

/// One line for the next states under two signals, if there are any.
fn write_nexts<W: Write, M: Machine>(
    f: &mut Formatter<W>,
    machine: &M,
    state: u16,
    own: u8,
    partner: u8,
) -> fmt::Result {
    // a loop over what may follow: as a `filter` this walk took up to three times as long
    let mut some = false;
    for next in 0..machine.states() {
        if !machine.may_move(state, own, partner, next) {
            continue;
        }
        if some {
            write!(f, " or {next}")?;
        } else {
            write!(f, "  own {own}, partner {partner}: to {next}")?;
        }
        some = true;
    }
    if some { writeln!(f) } else { Ok(()) }
}

/// The moves of a state, a line for each pair of signals that has one; of any machine, and so not as a sheet lists them.
fn write_moves<W: Write, M: Machine>(f: &mut Formatter<W>, machine: &M, state: u16) -> fmt::Result {
    for own in 0..machine.own() {
        for partner in 0..machine.partner() {
            write_nexts(f, machine, state, own, partner)?;
        }
    }
    Ok(())
}

/// A machine watched by an automaton, in words.
#[derive(Clone, Copy)]
struct WatchedWords<'a>(&'a Watched<SheetMachine>);

impl WatchedWords<'_> {
    /// A state: the state below, the automaton's state, the label and the marks.
    fn write_state<W: Write>(&self, f: &mut Formatter<W>, state: u16) -> fmt::Result {
        let game = self.0;
        let Pair { below, read } = game.pair(state);
        let label = game.label(state);
        let goal = if game.goal(state) { ", goal" } else { "" };
        let forbidden = if game.forbidden(state) {
            ", forbidden"
        } else {
            ""
        };
        writeln!(
            f,
            "state {state} (machine {below}, automaton {read}, label {label}{goal}{forbidden}):"
        )?;
        write_moves(f, game, state)
    }
}

impl fmt::Display for WatchedWords<'_> {
    fn fmt<W: Write>(&self, f: &mut Formatter<W>) -> fmt::Result {
        let sizes = FrameWords(frame(self.0));
        writeln!(f, "{sizes}")?;
        for state in 0..self.0.states() {
            self.write_state(f, state)?;
        }
        Ok(())
    }
}

/// A lift, in words.
#[derive(Clone, Copy)]
struct LiftWords<'a>(&'a Lift);

impl fmt::Display for LiftWords<'_> {
    fn fmt<W: Write>(&self, f: &mut Formatter<W>) -> fmt::Result {
        let lift = self.0;
        let sizes = FrameWords(frame(lift));
        writeln!(f, "{sizes}")?;
        for state in 0..lift.states() {
            let floor = state / 2;
            let load = if state % 2 == 0 { "empty" } else { "loaded" };
            let label = lift.label(state);
            writeln!(f, "state {state} (floor {floor}, {load}, label {label}):")?;
            write_moves(f, lift, state)?;
        }
        Ok(())
    }
}

/// A lift of so many floors, for a partner with so many signals, or why there is none.
pub fn lift(heap: Global, floors: u8, signals: u8) -> Result<String, AllocError>
    ensures { IfOk result (λ text. Tells (codes "lift") (lift_fault floors signals) (string_bytes text)) }
{
    match Lift::new(floors, signals) {
        Ok(lift) => titled(heap, "lift", LiftWords(&lift)),
        Err(fault @ ReadFault::Field(0)) => refusal(heap, fault, "A lift has 2 to 32 floors."),
        Err(fault) => refusal(heap, fault, "A lift has 2 to 4 partner signals."),
    }
}

/// A machine sheet watched by a rule sheet, or why the first of them that is refused is.
pub fn product(heap: Global, machine: &[u8], rule: &[u8]) -> Result<String, AllocError>
    ensures { IfOk result (λ text. Tells (codes "machine watched by an automaton") (product_fault machine.now rule.now) (string_bytes text)) }
{
    let mut below = SheetMachine::new(heap)?;
    if let Err(fault) = below.load(machine) {
        return refusal(heap, fault, Sentence::new(Kind::Machine, machine, fault));
    }
    let states = below.states();
    let mut game = Watched::new(below);
    if let Err(fault) = game.watch(rule) {
        return refusal(heap, fault, Sentence::new(Kind::Rule(states), rule, fault));
    }
    titled(heap, "machine watched by an automaton", WatchedWords(&game))
}
