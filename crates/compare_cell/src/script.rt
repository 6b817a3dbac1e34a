use crate::log::Log;
use crate::made::Known;
use crate::plans::{self, Plans};
use crate::told::{Heard, QUESTIONS, Shown};
use crate::twists;
use anyhow::{Context, Result, ensure};
use cell::calls::{Call, Report};
use reading::sides::Sides;
use rival::random::Random;
use std::alloc::{AllocError, Global};

/// Calls to a cell, what its log answers to each, and what the log answers to the five questions after each.
#[derive(Drop)]
pub struct Script {
    /// What the log answers to the five questions before any call.
    pub at_first: Shown,
    pub calls: Vec<Call>,
    pub heard: Vec<Heard>,
    pub shown: Vec<Shown>,
}

/// What calls are drawn from.
#[derive(Drop)]
struct Writer<'a> {
    heap: Global,
    known: Sides<&'a Known>,
    plans: Plans,
    log: Log<'a>,
}

impl Writer<'_> {
    /// An offer, mostly one that can be accepted.
    fn offer(&mut self, random: &mut Random) -> Result<(Call, Heard)> {
        let one = self.plans.any(random).context("no plan")?;
        let other = self.plans.any(random).context("no plan")?;
        let proposal = twists::draw(self.heap, random, self.known, (one, other))?;
        let heard = Heard::Offered(self.log.offer(&proposal)?);
        Ok((Call::Offer(proposal.as_offer(self.heap, random)?), heard))
    }

    /// One of the states that a side's machine can go to, seldom any other.
    fn state(&self, random: &mut Random, side: u8, present: u16) -> Result<u16, AllocError> {
        if random.once_in(14) {
            return Ok(match random.up_to(3) {
                0 => random.up_to(65_535),
                1 => present,
                2 => 65_535,
                _ => random.up_to(12),
            });
        }
        let next = self.log.next(side)?;
        let last = u16::try_from(next.len()).unwrap_or(0).saturating_sub(1);
        let one = usize::from(random.up_to(last));
        Ok(next.get(one).copied().unwrap_or(present))
    }

    /// A report, mostly one of possible moves.
    fn report(&mut self, random: &mut Random) -> Result<(Call, Heard)> {
        let [present, other] = self.log.states;
        let first = self.state(random, 0, present)?;
        let second = self.state(random, 1, other)?;
        let heard = Heard::Reported(self.log.report([first, second]));
        let states = Sides { first, second };
        Ok((Call::Report(Report { states }), heard))
    }

    fn call(&mut self, random: &mut Random, offers: u16) -> Result<(Call, Heard)> {
        let offers = if self.log.is_running() { offers } else { 60 };
        let drawn = random.up_to(99);
        if drawn < offers {
            self.offer(random)
        } else if drawn < 92 {
            self.report(random)
        } else {
            let question = QUESTIONS[usize::from(random.up_to(4))];
            Ok((Call::Ask(question), self.log.shown().one(question)))
        }
    }

    fn script(&mut self, random: &mut Random, (calls, offers): (u16, u16)) -> Result<Script> {
        let mut script = Script {
            at_first: self.log.shown(),
            calls: Vec::new(self.heap),
            heard: Vec::new(self.heap),
            shown: Vec::new(self.heap),
        };
        for _ in 0..calls {
            let (call, heard) = self.call(random, offers)?;
            script.calls.push(call)?;
            script.heard.push(heard)?;
            script.shown.push(self.log.shown())?;
            ensure!(self.log.keeps_bounds(), "a wait is above the largest bound");
        }
        Ok(script)
    }
}

/// Draws so many calls, of which so many in a hundred are offers once the cell runs. Of games that find no offer to which both
/// sides can agree most are left out, and the others hear fewer calls.
pub fn write(
    heap: Global,
    random: &mut Random,
    first: &Known,
    second: &Known,
    (calls, offers): (u16, u16),
) -> Result<Option<Script>> {
    let known = Sides { first, second };
    let plans = plans::draw(heap, random, known)?;
    let calls = if plans.agreed {
        calls
    } else if random.once_in(5) {
        30
    } else {
        return Ok(None);
    };
    let mut writer = Writer {
        heap,
        known,
        plans,
        log: Log::new(heap, known),
    };
    Ok(Some(writer.script(random, (calls, offers))?))
}
