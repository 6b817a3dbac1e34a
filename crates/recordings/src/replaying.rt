ghost use Rattle.std.specs.Prelude.{◌≡◌, ◌++◌, map, IfOk, string_bytes};
ghost use Rattle.cell.specs.Cells.{both_mean, event, told, Replayed};
ghost use Rattle.recordings.specs.Lines.{line_of, left, lines};
ghost use Rattle.recordings.specs.Recordings.{Shows, Tells, last_line};

use crate::lines::{AnswerLine, UnreadLine, UnsignedLine};
use crate::recording::{Calls, Mark, Recording};
use cell::calls::{Answer, Call};
use cell::cell::Room;
use cell::replay::replay;
use games::machine::{Game, Machine};
use std::alloc::{AllocError, Global};
use std::fmt::Write;

/// What a cell of two games answers to calls, one for one.
fn answers<A: Game + Drop, B: Game + Drop>(
    heap: Global,
    first: A,
    second: B,
    calls: &[Call],
) -> Result<Vec<Answer>, AllocError>
    ensures { IfOk result (λ given. Replayed (both_mean A.Machine.meaning A.Game.marks B.Machine.meaning B.Game.marks first second) (map event calls.now) (map told given.items)) }
{
    let mut answers = vec![in heap; Answer::Phase(0); calls.len()]?;
    let room = Room::new(heap)?;
    replay(room, first, second, calls, answers.as_mut_slice());
    Ok(answers)
}

/// Adds the line of a call, by the answers from it on. Answers those that are left behind it.
fn add_line<'a>(
    text: &mut String,
    mark: Mark,
    answers: &'a [Answer],
) -> Result<&'a [Answer], AllocError>
    ensures added { IfOk result (λ _. string_bytes text.new ≡ string_bytes text.old ++ line_of mark (map told answers.now)) }
    ensures left { IfOk result (λ rest. map told rest.now ≡ left mark (map told answers.now)) }
{
    match (mark, answers) {
        (Mark::Put, [answer, rest @ ..]) => {
            writeln!(text, "{}", AnswerLine(*answer))?;
            Ok(rest)
        }
        (Mark::Put, []) => Ok(answers),
        (Mark::Unread(fault), _) => {
            writeln!(text, "{}", UnreadLine(fault))?;
            Ok(answers)
        }
        (Mark::Unsigned(fault), _) => {
            writeln!(text, "{}", UnsignedLine(fault))?;
            Ok(answers)
        }
    }
}

/// The lines of calls, in order: of those that were put to the cell by its answers, one for one.
fn lines(heap: Global, marks: &[Mark], answers: &[Answer]) -> Result<String, AllocError>
    ensures { IfOk result (λ text. string_bytes text ≡ lines marks.now (map told answers.now)) }
{
    let mut text = String::new(heap);
    let mut rest = answers;
    for mark in marks {
        rest = add_line(&mut text, *mark, rest)?;
    }
    Ok(text)
}

/// The lines of calls, and a last one where they are damaged.
fn all_lines(heap: Global, calls: &Calls, answers: &[Answer]) -> Result<String, AllocError>
    ensures { IfOk result (λ text. string_bytes text ≡ lines calls.now.marks.items (map told answers.now) ++ last_line calls.now.damage) }
{
    let mut text = lines(heap, calls.marks.as_slice(), answers)?;
    if let Some(damage) = calls.damage {
        writeln!(text, "{damage}")?;
    }
    Ok(text)
}

impl Recording {
    /// What its replay tells: a line for each call, and a last one where the calls are damaged.
    pub fn replay(self, heap: Global) -> Result<String, AllocError>
        ensures { IfOk result (λ text. Shows self (string_bytes text)) }
    {
        let Recording { games, calls } = self;
        let answers = answers(heap, games.first, games.second, calls.put.as_slice())?;
        all_lines(heap, &calls, answers.as_slice())
    }
}

/// What the replay of an input tells; one line where it is damaged before the calls.
pub fn text(heap: Global, bytes: &[u8]) -> Result<String, AllocError>
    ensures { IfOk result (λ text. Tells bytes.now (string_bytes text)) }
{
    match Recording::read(heap, bytes)? {
        Ok(recording) => recording.replay(heap),
        Err(damage) => format!(in heap; "{damage}\n"),
    }
}
