ghost use Rattle.std.specs.Prelude.{◌≡◌, ◌+◌, ◌≤◌, [], ◌∷◌, OnOk, IfOk};
ghost use Rattle.std.specs.Option.{option_map};
ghost use Rattle.bays.specs.Bays.{blame, bay_fault};
ghost use Rattle.cell.specs.Cells.{event};
ghost use Rattle.recordings.specs.Calls.{offer as an_offer, offer_said, call_said};
ghost use Rattle.recordings.specs.Damages.{refused};
ghost use Rattle.recordings.specs.Marks.{Adds, Keeps, Owned, Recorded, events};
ghost use Rattle.recordings.specs.Recordings.{Reads, GamesRead, bay_in, placed, short_fault, start_in};

use crate::calls::{OfferBytes, RecordedCall};
use crate::damage::Damage;
use crate::parts::{part_at, part_end};
use bays::bay::Bay;
use bays::faults::BayFault;
use cell::calls::{Call, OwnedOffer};
use games::deal::signing::{Unsigned, sign};
use games::sheet_machine::SheetMachine;
use games::watched::Watched;
use games::watched::sheets::SheetsFault;
use reading::bytes::pair_at;
use reading::faults::{ReadFault, check};
use reading::phase_table::PhaseTable;
use reading::sides::Sides;
use std::alloc::{AllocError, Global};

/// What became of a recorded call: it is put to the cell, or it is an offer that no cell can be asked about.
#[derive(Clone, Copy, PartialEq, Eq, Debug)]
pub enum Mark {
    Put,
    /// The phase table cannot be read.
    Unread(ReadFault),
    /// The terms make no deal.
    Unsigned(Unsigned),
}

/// The calls of a recording: what became of each, those that are put to the cell, and the damage that ends them early.
#[derive(Drop)]
pub struct Calls {
    pub marks: Vec<Mark>,
    pub put: Vec<Call>,
    pub damage: Option<Damage>,
}

/// A recorded shift.
#[derive(Drop)]
pub struct Recording {
    pub games: Sides<Watched<SheetMachine>>,
    pub calls: Calls,
}

/// An offer on a table that was read, or why its terms make no deal.
fn own(
    heap: Global,
    table: PhaseTable,
    offer: OfferBytes<'_>,
) -> Result<Result<OwnedOffer, Unsigned>, AllocError>
    ensures { IfOk result (Owned table (offer_said offer.entry)) }
{
    let deal = match sign(&table, offer.terms) {
        Ok(deal) => deal,
        Err(fault) => return Ok(Err(fault)),
    };
    let records = Sides {
        first: offer.records.first.to_vec(heap)?,
        second: offer.records.second.to_vec(heap)?,
    };
    Ok(Ok(OwnedOffer {
        table,
        deal,
        records,
    }))
}

impl Calls {
    /// Keeps a call that is put to the cell.
    fn put(&mut self, call: Call) -> Result<(), AllocError>
        ensures { OnOk result (Adds Mark.Put (event call ∷ []) self.old self.new) }
    {
        self.put.push(call)?;
        self.marks.push(Mark::Put)?;
        Ok(())
    }

    /// Keeps why the cell is not asked about an offer.
    fn pass_over(&mut self, mark: Mark) -> Result<(), AllocError>
        ensures { OnOk result (Adds mark [] self.old self.new) }
    {
        self.marks.push(mark)?;
        Ok(())
    }

    /// Keeps an offer, or why the cell is not asked about it.
    fn keep_offer(&mut self, heap: Global, offer: OfferBytes<'_>) -> Result<(), AllocError>
        ensures { OnOk result (Keeps (an_offer (offer_said offer.entry)) self.old self.new) }
    {
        match PhaseTable::parse(offer.table) {
            Ok(table) => match own(heap, table, offer)? {
                Ok(owned) => self.put(Call::Offer(owned)),
                Err(fault) => self.pass_over(Mark::Unsigned(fault)),
            },
            Err(fault) => self.pass_over(Mark::Unread(fault)),
        }
    }

    /// Keeps a call as it was recorded.
    fn keep(&mut self, heap: Global, call: RecordedCall<'_>) -> Result<(), AllocError>
        ensures { OnOk result (Keeps (call_said call.entry) self.old self.new) }
    {
        match call {
            RecordedCall::Offer(offer) => self.keep_offer(heap, offer),
            RecordedCall::Report(report) => self.put(Call::Report(report)),
            RecordedCall::Ask(question) => self.put(Call::Ask(question)),
        }
    }

    /// The calls of an input from a place on, up to the damage if there is any.
    pub fn read(heap: Global, bytes: &[u8], start: usize) -> Result<Calls, AllocError>
        ensures { IfOk result (λ c. Recorded bytes.now start c.marks.items (events c) c.damage) }
    {
        let mut calls = Calls {
            marks: Vec::new(heap),
            put: Vec::new(heap),
            damage: None,
        };
        let mut at = start;
        while at < bytes.len() {
            match RecordedCall::read(bytes, at) {
                Ok((call, end)) => {
                    calls.keep(heap, call)?;
                    at = end;
                }
                Err(damage) => {
                    calls.damage = Some(damage);
                    return Ok(calls);
                }
            }
        }
        Ok(calls)
    }
}

/// Where the part of a bay begins that a fault is in.
fn part_start(bay: &[u8], fault: &BayFault) -> usize
    ensures value { result ≡ start_in bay.now (blame fault.now).part }
    ensures small { result ≤ 262150 }
{
    let machine0 = 10;
    let rule0 = machine0 + usize::from(pair_at(bay, 0));
    let machine1 = rule0 + usize::from(pair_at(bay, 2));
    let rule1 = machine1 + usize::from(pair_at(bay, 4));
    match fault {
        BayFault::Lengths(_) => 0,
        BayFault::First(SheetsFault::Machine(_)) => machine0,
        BayFault::First(SheetsFault::Rule(_)) => rule0,
        BayFault::Second(SheetsFault::Machine(_)) => machine1,
        BayFault::Second(SheetsFault::Rule(_)) => rule1,
        BayFault::Table(_) => rule1 + usize::from(pair_at(bay, 6)),
    }
}

/// The bytes of a recording's bay, behind their length.
fn cut_bay(bytes: &[u8]) -> Result<&[u8], Damage>
    ensures first { refused result ≡ short_fault bytes.now }
    ensures value { IfOk result (λ bay. bay.now ≡ bay_in bytes.now) }
{
    check(part_end(bytes, 0) <= bytes.len(), Damage::Ends(bytes.len()))?;
    Ok(part_at(bytes, 0))
}

/// The games of a bay, or why there are none.
fn read_games(
    machines: Sides<SheetMachine>,
    bay: &[u8],
) -> Result<Sides<Watched<SheetMachine>>, Damage>
    ensures first { refused result ≡ option_map (placed bay.now) (bay_fault bay.now) }
    ensures value { IfOk result (GamesRead bay.now) }
{
    match Bay::read(machines, bay) {
        Ok(read) => Ok(read.games),
        Err(fault) => {
            let place = 2 + part_start(bay, &fault) + usize::from(fault.reading().place());
            Err(Damage::Bay { fault, place })
        }
    }
}

impl Recording {
    /// The shift that an input records, or why its bay cannot be had.
    pub fn read(heap: Global, bytes: &[u8]) -> Result<Result<Recording, Damage>, AllocError>
        ensures { IfOk result (Reads bytes.now) }
    {
        let machines = Sides {
            first: SheetMachine::new(heap)?,
            second: SheetMachine::new(heap)?,
        };
        let games = match cut_bay(bytes).and_then(|bay| read_games(machines, bay)) {
            Ok(games) => games,
            Err(damage) => return Ok(Err(damage)),
        };
        let calls = Calls::read(heap, bytes, part_end(bytes, 0))?;
        Ok(Ok(Recording { games, calls }))
    }
}
