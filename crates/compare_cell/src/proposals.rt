use crate::made::Known;
use anyhow::Result;
use cell::calls::OwnedOffer;
use drawn::draws;
use games::deal::Terms;
use games::deal::signing::sign;
use reading::phase_table::PhaseTable;
use reading::sides::Sides;
use rival::judging::{self, Fault};
use rival::random::Random;
use rival::seat::{Seat, Side};
use std::alloc::{AllocError, Global};

/// An offer in bytes and numbers.
#[derive(Drop)]
pub struct Proposal {
    pub table: Vec<u8>,
    /// The sizes of the table that the deal is signed on.
    pub signed: [u8; 3],
    pub terms: Sides<Terms>,
    pub records: Sides<Vec<u8>>,
}

impl Proposal {
    pub fn copy(&self) -> Result<Proposal, AllocError> {
        Ok(Proposal {
            table: self.table.clone()?,
            signed: self.signed,
            terms: self.terms,
            records: Sides {
                first: self.records.first.clone()?,
                second: self.records.second.clone()?,
            },
        })
    }

    /// A side's record.
    pub fn record(&self, side: u8) -> &[u8] {
        if side == 0 {
            self.records.first.as_slice()
        } else {
            self.records.second.as_slice()
        }
    }

    pub fn set_record(&mut self, side: u8, record: Vec<u8>) {
        if side == 0 {
            self.records.first = record;
        } else {
            self.records.second = record;
        }
    }

    /// A side at its game.
    pub fn seat<'a>(
        &'a self,
        heap: Global,
        known: &'a Known,
        side: u8,
    ) -> Result<Seat<'a>, AllocError> {
        let terms = self.terms.own(side);
        let side = Side {
            number: side,
            promise: terms.promise,
            reliance: terms.reliance,
            signed: self.signed,
        };
        Seat::new(heap, &known.arena, self.table.as_slice(), side)
    }

    /// What the second checker says of a side's record.
    pub fn judge(
        &self,
        heap: Global,
        known: &Known,
        side: u8,
    ) -> Result<Result<u16, Fault>, AllocError> {
        let seat = self.seat(heap, known, side)?;
        Ok(judging::check(&seat, self.record(side)))
    }

    /// The offer as a cell takes it, its deal signed on a table that is drawn.
    pub fn as_offer(&self, heap: Global, random: &mut Random) -> Result<OwnedOffer> {
        let on = draws::table(heap, random, self.signed)?;
        let Proposal { records, .. } = self.copy()?;
        Ok(OwnedOffer {
            table: PhaseTable::parse(self.table.as_slice())?,
            deal: sign(&PhaseTable::parse(on.as_slice())?, self.terms)?,
            records,
        })
    }
}
