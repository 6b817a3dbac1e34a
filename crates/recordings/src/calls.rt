ghost use Rattle.std.specs.Prelude.{◌≡◌, ◌+◌, ◌<◌, length, IfOk};
ghost use Rattle.recordings.specs.Calls.{terms_at, offer_at, offer_said, report_at, call_end, call_said, question_in, call_fault, Says};
ghost use Rattle.recordings.specs.Damages.{refused};

use crate::damage::Damage;
use crate::parts::{part_at, part_end, quad_at};
use cell::calls::{Question, Report};
use games::deal::Terms;
use reading::bytes::{byte_at, pair_at};
use reading::faults::check;
use reading::sides::Sides;

/// The first byte of an offer.
const OFFER: u8 = 1;

/// The first byte of a report.
const REPORT: u8 = 2;

/// The first byte of a question.
const QUESTION: u8 = 3;

/// How many bytes tell what a side promises and relies on: four each.
const TERMS: usize = 8;

/// An offer as it was recorded: nothing of it has been read yet.
#[derive(Clone, Copy)]
pub struct OfferBytes<'a> {
    pub table: &'a [u8],
    pub terms: Sides<Terms>,
    pub records: Sides<&'a [u8]>,
}

/// A call as it was recorded.
#[derive(Clone, Copy)]
pub enum RecordedCall<'a> {
    Offer(OfferBytes<'a>),
    Report(Report),
    Ask(Question),
}

/// What a side promises and relies on, four bytes each.
fn terms_at(bytes: &[u8], at: usize) -> Terms
    requires { at < length bytes.now + 900000 }
    ensures { result ≡ terms_at bytes.now at }
{
    Terms {
        promise: quad_at(bytes, at),
        reliance: quad_at(bytes, at + 4),
    }
}

/// The offer at a place behind its first byte.
fn offer_at(bytes: &[u8], at: usize) -> OfferBytes<'_>
    requires { at < length bytes.now + 1 }
    ensures { offer_said result ≡ offer_at bytes.now at }
{
    let terms = part_end(bytes, at);
    let first = terms + 2 * TERMS;
    let second = part_end(bytes, first);
    OfferBytes {
        table: part_at(bytes, at),
        terms: Sides {
            first: terms_at(bytes, terms),
            second: terms_at(bytes, terms + TERMS),
        },
        records: Sides {
            first: part_at(bytes, first),
            second: part_at(bytes, second),
        },
    }
}

/// Where the call at a place ends, if it is one.
fn call_end(bytes: &[u8], at: usize) -> usize
    requires { at < length bytes.now }
    ensures { result ≡ call_end bytes.now at }
{
    match byte_at(bytes, at) {
        OFFER => {
            let first = part_end(bytes, at + 1) + 2 * TERMS;
            part_end(bytes, part_end(bytes, first))
        }
        REPORT => at + 5,
        _ => at + 2,
    }
}

/// The question that a byte stands for.
fn question_in(byte: u8) -> Option<Question>
    ensures { result ≡ question_in byte }
{
    match byte {
        0 => Some(Question::States),
        1 => Some(Question::Phase),
        2 => Some(Question::Waits),
        3 => Some(Question::Signals),
        4 => Some(Question::Ranks),
        _ => None,
    }
}

/// The states that a report at a place behind its first byte names.
fn report_at(bytes: &[u8], at: usize) -> Report
    requires { at < length bytes.now + 1 }
    ensures { result.states ≡ report_at bytes.now at }
{
    Report {
        states: Sides {
            first: pair_at(bytes, at),
            second: pair_at(bytes, at + 2),
        },
    }
}

impl<'a> RecordedCall<'a> {
    /// The call at a place of an input, and where the next begins.
    pub(crate) fn read(bytes: &'a [u8], at: usize) -> Result<(RecordedCall<'a>, usize), Damage>
        requires { at < length bytes.now }
        ensures first { refused result ≡ call_fault bytes.now at }
        ensures value { IfOk result (λ r. (r.1 ≡ call_end bytes.now at) × Says bytes.now at (call_said r.0)) }
    {
        let kind = byte_at(bytes, at);
        check((OFFER..=QUESTION).contains(&kind), Damage::Unknown(at))?;
        let end = call_end(bytes, at);
        check(end <= bytes.len(), Damage::Ends(bytes.len()))?;
        let call = match kind {
            OFFER => RecordedCall::Offer(offer_at(bytes, at + 1)),
            REPORT => RecordedCall::Report(report_at(bytes, at + 1)),
            _ => {
                let question = question_in(byte_at(bytes, at + 1));
                RecordedCall::Ask(question.ok_or(Damage::Unknown(at + 1))?)
            }
        };
        Ok((call, end))
    }
}
