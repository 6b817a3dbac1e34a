ghost use Rattle.std.specs.Prelude.{◌≡◌, ◌++◌, Some, IfOk, codes, decimal};
ghost use Rattle.reading.specs.PhaseTables.{table_of};
ghost use Rattle.games.specs.Deals.{numbers as talk_numbers};
ghost use Rattle.games.specs.Signings.{deal_fault, Dealt, numbers, refused};

use crate::deal::talk::{Talk, TalkFault};
use crate::deal::{Deal, Terms};
use reading::phase_table::PhaseTable;
use reading::sides::Sides;
use std::error::Error;
use std::fmt;

/// Why both sides' terms make no deal.
#[derive(Clone, Copy, PartialEq, Eq, Debug)]
pub enum Unsigned {
    /// This side's terms are not as described.
    NotTerms { side: u8 },
    /// At a phase, this side promises more than the other relies on.
    TooFar { phase: u8, side: u8 },
}

impl Unsigned {
    /// The fault of a talk that could not be signed.
    fn at_signing(fault: TalkFault) -> Unsigned
        ensures { numbers result ≡ talk_numbers fault }
    {
        match fault {
            TalkFault::NotTerms => Unsigned::NotTerms { side: fault.side() },
            TalkFault::TooFar { phase, side } => Unsigned::TooFar { phase, side },
        }
    }

    /// The refusal's number.
    pub fn number(&self) -> u8
        ensures { result ≡ (numbers self.now).number }
    {
        match *self {
            Unsigned::NotTerms { .. } => 20,
            Unsigned::TooFar { .. } => 21,
        }
    }

    /// The phase that it is about; 65,535 where there is none.
    pub fn phase(&self) -> u16
        ensures { result ≡ (numbers self.now).phase }
    {
        match *self {
            Unsigned::NotTerms { .. } => 65535,
            Unsigned::TooFar { phase, .. } => u16::from(phase),
        }
    }

    /// The side that it is about.
    pub fn side(&self) -> u8
        ensures { result ≡ (numbers self.now).side }
    {
        match *self {
            Unsigned::NotTerms { side } | Unsigned::TooFar { side, .. } => side,
        }
    }
}

impl fmt::Display for Unsigned {
    ghost output = { λ x. Some (codes "refused " ++ decimal (numbers x).number) };

    fn fmt<W: fmt::Write>(&self, f: &mut fmt::Formatter<W>) -> fmt::Result {
        let number = self.number();
        write!(f, "refused {number}")
    }
}

impl Error for Unsigned {}

/// The deal of both sides' terms on a table, by a talk: side 0 bids, side 1 replies, and the reply is signed.
pub fn sign(table: &PhaseTable, terms: Sides<Terms>) -> Result<Deal, Unsigned>
    ensures first { refused result ≡ deal_fault (table_of table.now) terms }
    ensures value { IfOk result (Dealt table.now.sizes terms) }
{
    // what comes back is closed, and bound whole before it is taken apart
    let bid = Talk::open(table).bid(terms.first).map_err(|back| {
        let (talk, _) = back;
        talk.close();
        Unsigned::NotTerms { side: 0 }
    })?;
    let reply = bid.reply(terms.second).map_err(|back| {
        let (bid, _) = back;
        bid.close();
        Unsigned::NotTerms { side: 1 }
    })?;
    reply.sign().map_err(|back| {
        let (talk, fault) = back;
        talk.close();
        Unsigned::at_signing(fault)
    })
}
