use crate::counts::Counts;
use crate::script::Script;
use crate::told::{Heard, Refusal, Shown, both};
use anyhow::{Result, bail, ensure};
use cell::calls::{Answer, Call};
use cell::cell::{Cell, Room};
use cell::replay::replay;
use games::machine::Game;
use rival::random::Random;
use std::alloc::Global;

/// What a cell answers to a call.
fn hear<A: Game + Drop, B: Game + Drop>(cell: &mut Cell<A, B>, call: &Call) -> Heard {
    match call {
        Call::Offer(offer) => Heard::Offered(match cell.offer(offer.as_offer()) {
            Ok(bounds) => Ok(both(bounds)),
            Err(fault) => Err(Refusal::from(fault)),
        }),
        Call::Report(report) => Heard::Reported(match cell.report(*report) {
            Ok(signals) => Ok(both(signals)),
            Err(fault) => Err(Refusal::from(fault)),
        }),
        Call::Ask(question) => Heard::from(cell.ask(*question)),
    }
}

/// What a cell answers to the five questions.
fn shown<A: Game + Drop, B: Game + Drop>(cell: &Cell<A, B>) -> Shown {
    Shown {
        states: both(cell.states()),
        phase: cell.phase(),
        waits: both(cell.waits()),
        signals: both(cell.signals()),
        ranks: both(cell.ranks()),
    }
}

/// Puts the calls to a cell one by one, and after each the five questions.
pub fn play<A: Game + Drop, B: Game + Drop>(
    counts: &mut Counts,
    mut cell: Cell<A, B>,
    script: &Script,
) -> Result<()> {
    let mut before = shown(&cell);
    if let Some(question) = before.slip(&script.at_first) {
        bail!("before any call: {question}");
    }
    let log = script.heard.iter().zip(script.shown.iter());
    for (i, (call, (heard, due))) in script.calls.iter().zip(log).enumerate() {
        ensure!(hear(&mut cell, call) == *heard, "call {i}: its answer");
        let after = shown(&cell);
        if let Some(question) = after.slip(due) {
            bail!("call {i}: {question} after it");
        }
        ensure!(
            !heard.is_refusal() || after == before,
            "call {i}: a refusal that changes something"
        );
        before = after;
        counts.add_call(heard, &after);
    }
    counts.add_cell(&before);
    Ok(())
}

/// What an answer is before it is written.
const BEFORE: Answer = Answer::Phase(200);

/// Replays the calls, with room for as many answers, for fewer or for more.
pub fn replay_all<A: Game + Drop, B: Game + Drop>(
    heap: Global,
    random: &mut Random,
    counts: &mut Counts,
    (first, second): (A, B),
    script: &Script,
) -> Result<()> {
    let room = match random.up_to(3) {
        0 => script.calls.len().saturating_sub(random.up_to(200).into()),
        1 => script.calls.len().saturating_add(random.up_to(200).into()),
        _ => script.calls.len(),
    };
    let mut answers = Vec::new(heap);
    answers.resize(room, BEFORE)?;
    let calls = script.calls.as_slice();
    let count = replay(
        Room::new(heap)?,
        first,
        second,
        calls,
        answers.as_mut_slice(),
    );
    ensure!(
        count == calls.len().min(room),
        "replayed: the number of answers"
    );
    for (i, answer) in answers.iter().enumerate() {
        let due = match script.heard.get(i) {
            Some(heard) if i < count => *heard,
            _ => Heard::from(BEFORE),
        };
        ensure!(Heard::from(*answer) == due, "replayed call {i}: its answer");
    }
    counts.add_list(count);
    Ok(())
}
