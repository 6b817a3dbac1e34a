ghost use Rattle.std.specs.Prelude.{◌≡◌, ◌+◌, ◌<◌, ◌≤◌, ◌++◌, length, decimal};
ghost use Rattle.arrayvec.specs.ArrayString.{array_string_len};
ghost use Rattle.negotiation.specs.Lines.{settled, refused, line};
ghost use Rattle.negotiation.specs.Negotiations.{Negotiates};

use crate::negotiator::{Negotiator, Settlement};
use crate::refusals::Refusal;
use arrayvec::ArrayString;
use itoa::Buffer;

/// Room for the longest line, even if each of its numbers had ten digits.
pub type Line = ArrayString<80>;

/// What comes of a negotiation, and the one line that tells it.
#[derive(Clone, Copy)]
pub struct Answer {
    pub outcome: Result<Settlement, Refusal>,
    pub line: Line,
}

/// Appends some words and a number.
fn field(line: &mut Line, words: &str, number: u32)
    requires { array_string_len line.old + length words.now + 10 ≤ 80 }
    ensures bytes { line.new.bytes ≡ line.old.bytes ++ words.now ++ decimal number }
    ensures len { array_string_len line.new ≤ array_string_len line.old + length words.now + 10 }
{
    line.push_str(words);
    line.push_str(Buffer::new().format(number));
}

/// The words of a deal.
fn deal(settlement: &Settlement) -> Line
    ensures bytes { result.bytes ≡ settled settlement.now }
    ensures len { array_string_len result < 80 }
{
    let Settlement {
        promises,
        tries,
        bounds,
    } = *settlement;
    let mut line = Line::new();
    field(&mut line, "deal ", promises.first);
    field(&mut line, " ", promises.second);
    field(&mut line, " tries ", u32::from(tries));
    field(&mut line, " bounds ", u32::from(bounds.first));
    field(&mut line, " ", u32::from(bounds.second));
    line
}

/// The words of a refusal.
fn refused(refusal: &Refusal) -> Line
    ensures bytes { result.bytes ≡ refused refusal.now }
    ensures len { array_string_len result < 80 }
{
    let mut line = Line::new();
    field(&mut line, "refused ", u32::from(refusal.number()));
    line
}

/// The one line that tells an outcome.
pub fn line(outcome: &Result<Settlement, Refusal>) -> Line
    ensures { result.bytes ≡ line outcome.now }
{
    let mut line = match outcome {
        Ok(settlement) => deal(settlement),
        Err(refusal) => refused(refusal),
    };
    line.push_str("\n");
    line
}

impl Negotiator {
    /// What both sides of an input's bay settle on, or the first refusal, with the line that tells it.
    pub fn answer(self, bytes: &[u8]) -> Answer
        ensures outcome { Negotiates bytes.now result.outcome }
        ensures line { result.line.bytes ≡ line result.outcome }
    {
        let outcome = self.negotiate(bytes);
        let line = line(&outcome);
        Answer { outcome, line }
    }
}
