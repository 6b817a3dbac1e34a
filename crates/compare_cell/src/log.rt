use crate::bytes::followed;
use crate::ground::Move;
use crate::made::Known;
use crate::proposals::Proposal;
use crate::records::{NO_CHOICE, NO_RANK, Spot, choice, keeps, rank};
use crate::told::{Refusal, Shown};
use reading::sides::Sides;
use std::alloc::{AllocError, Global};

/// What a cell has to know and to answer, kept beside it from the games and the calls alone.
#[derive(Drop)]
pub struct Log<'a> {
    heap: Global,
    known: Sides<&'a Known>,
    pub states: [u16; 2],
    phase: u8,
    waits: [u32; 2],
    bounds: [u16; 2],
    in_force: Option<Proposal>,
}

impl<'a> Log<'a> {
    /// No offer yet, and both machines at their start.
    pub fn new(heap: Global, known: Sides<&'a Known>) -> Log<'a> {
        Log {
            heap,
            known,
            states: [known.first.ground.start, known.second.ground.start],
            phase: 0,
            waits: [0, 0],
            bounds: [0, 0],
            in_force: None,
        }
    }

    pub fn is_running(&self) -> bool {
        self.in_force.is_some()
    }

    /// The present positions.
    fn spots(&self) -> [Spot; 2] {
        self.states.map(|state| Spot {
            state,
            phase: self.phase,
        })
    }

    fn signals(&self) -> [u8; 2] {
        let [first, second] = self.spots();
        match &self.in_force {
            None => [NO_CHOICE; 2],
            Some(offer) => [
                choice(offer.record(0), first),
                choice(offer.record(1), second),
            ],
        }
    }

    fn ranks(&self) -> [u16; 2] {
        let [first, second] = self.spots();
        match &self.in_force {
            None => [NO_RANK; 2],
            Some(offer) => [rank(offer.record(0), first), rank(offer.record(1), second)],
        }
    }

    /// What the five questions answer.
    pub fn shown(&self) -> Shown {
        Shown {
            states: self.states,
            phase: self.phase,
            waits: self.waits,
            signals: self.signals(),
            ranks: self.ranks(),
        }
    }

    /// Why a running cell cannot go over to an offer.
    fn change_refused(&self, proposal: &Proposal) -> Option<Refusal> {
        let [first, second] = self.states;
        let [first_rank, second_rank] = self.ranks();
        for (side, state, present) in [(0, first, first_rank), (1, second, second_rank)] {
            let (record, at) = (proposal.record(side), Spot { state, phase: 0 });
            if !keeps(record, at) {
                return Some(Refusal::bare(30, side));
            }
            if present < rank(record, at) {
                return Some(Refusal::bare(31, side));
            }
        }
        None
    }

    /// Hears an offer: both bounds, or the refusal.
    pub fn offer(&mut self, proposal: &Proposal) -> Result<Result<[u16; 2], Refusal>, AllocError> {
        let Sides { first, second } = self.known;
        let judged = (
            proposal.judge(self.heap, first, 0)?,
            proposal.judge(self.heap, second, 1)?,
        );
        let bounds = match judged {
            (Err(fault), _) => return Ok(Err(Refusal { side: 0, fault })),
            (_, Err(fault)) => return Ok(Err(Refusal { side: 1, fault })),
            (Ok(first), Ok(second)) => [first, second],
        };
        if self.is_running() {
            if let Some(refusal) = self.change_refused(proposal) {
                return Ok(Err(refusal));
            }
        }
        self.in_force = Some(proposal.copy()?);
        self.phase = 0;
        let ([first, second], [most, other_most]) = (bounds, self.bounds);
        self.bounds = [first.max(most), second.max(other_most)];
        Ok(Ok(bounds))
    }

    /// The moves under the signals shown that would lead to these states.
    fn steps(&self, [to, other_to]: [u16; 2]) -> [Move; 2] {
        let [own, partner] = self.signals();
        [
            Move { own, partner, to },
            Move {
                own: partner,
                partner: own,
                to: other_to,
            },
        ]
    }

    /// Why a running cell cannot take over the states of a report.
    fn report_refused(&self, to: [u16; 2]) -> Option<Refusal> {
        let Sides { first, second } = self.known;
        let ([state, other], [step, other_step]) = (self.states, self.steps(to));
        if step.own == NO_CHOICE {
            Some(Refusal::bare(34, 0))
        } else if other_step.own == NO_CHOICE {
            Some(Refusal::bare(34, 1))
        } else if !first.ground.moves(state).contains(&step) {
            Some(Refusal::bare(33, 0))
        } else if !second.ground.moves(other).contains(&other_step) {
            Some(Refusal::bare(33, 1))
        } else {
            None
        }
    }

    /// Hears a report: the signals shown next, or the refusal.
    pub fn report(&mut self, to: [u16; 2]) -> Result<[u8; 2], Refusal> {
        let Some(offer) = &self.in_force else {
            return Err(Refusal::bare(32, 2));
        };
        if let Some(refusal) = self.report_refused(to) {
            return Err(refusal);
        }
        self.phase = followed(offer.table.as_slice(), self.phase, self.signals());
        self.states = to;
        let Sides { first, second } = self.known;
        let ([state, other], [wait, other_wait]) = (to, self.waits);
        self.waits = [
            waited(first, state, wait),
            waited(second, other, other_wait),
        ];
        Ok(self.signals())
    }

    /// The states that a side's machine can go to under the signals shown, maybe none.
    pub fn next(&self, side: u8) -> Result<Vec<u16>, AllocError> {
        let Sides { first, second } = self.known;
        let ([state, other], [shown, other_shown]) = (self.states, self.steps([0, 0]));
        let (moves, shown) = if side == 0 {
            (first.ground.moves(state), shown)
        } else {
            (second.ground.moves(other), other_shown)
        };
        let mut next = Vec::new(self.heap);
        for step in moves {
            if (step.own, step.partner) == (shown.own, shown.partner) {
                next.push(step.to)?;
            }
        }
        Ok(next)
    }

    /// Whether no machine has waited for a goal for longer than the largest bound of its records.
    pub fn keeps_bounds(&self) -> bool {
        let ([wait, other_wait], [bound, other_bound]) = (self.waits, self.bounds);
        wait <= bound.into() && other_wait <= other_bound.into()
    }
}

/// How long a machine that enters a state has waited.
fn waited(known: &Known, state: u16, before: u32) -> u32 {
    if known.ground.is_goal(state) {
        0
    } else {
        before.saturating_add(1)
    }
}
