use crate::bytes::byte;
use crate::changes::{damaged, slower, thinner};
use crate::made::Known;
use crate::proposals::Proposal;
use drawn::{damage, draws};
use reading::sides::Sides;
use rival::random::Random;
use std::alloc::{AllocError, Global};

/// How an offer differs from one of solved records.
#[derive(Clone, Copy)]
enum Twist {
    None,
    /// Higher ranks.
    Slower,
    /// Only the positions kept that come up.
    Thinner,
    Damaged,
    Swapped,
    OtherTable,
    OtherDeal,
    OtherRecords,
    Drawn,
}

/// Mostly an offer that can be accepted.
fn draw_twist(random: &mut Random) -> Twist {
    match random.up_to(99) {
        0..=34 => Twist::None,
        35..=54 => Twist::Slower,
        55..=69 => Twist::Thinner,
        70..=84 => Twist::Damaged,
        85..=87 => Twist::Swapped,
        88..=89 => Twist::OtherTable,
        90..=91 => Twist::OtherDeal,
        92..=96 => Twist::OtherRecords,
        _ => Twist::Drawn,
    }
}

/// An offer made of two that are known.
pub fn draw(
    heap: Global,
    random: &mut Random,
    known: Sides<&Known>,
    (plan, other): (&Proposal, &Proposal),
) -> Result<Proposal, AllocError> {
    let mut offer = plan.copy()?;
    match draw_twist(random) {
        Twist::None => (),
        Twist::Swapped => {
            offer.set_record(0, plan.records.second.clone()?);
            offer.set_record(1, plan.records.first.clone()?);
        }
        Twist::OtherTable => {
            let sizes = draws::sizes(random);
            offer.table = draws::table(heap, random, sizes)?;
        }
        Twist::OtherDeal => {
            let sizes = draws::sizes(random);
            let side = random.byte_up_to(1);
            offer.terms = draws::terms(random, sizes, side);
            offer.signed = sizes;
        }
        Twist::OtherRecords => offer.records = other.copy()?.records,
        twist => one_by_one(heap, random, known, &mut offer, twist)?,
    }
    Ok(offer)
}

/// Changes one side's record, or both.
fn one_by_one(
    heap: Global,
    random: &mut Random,
    known: Sides<&Known>,
    offer: &mut Proposal,
    twist: Twist,
) -> Result<(), AllocError> {
    let sides = random.up_to(2);
    if sides != 1 {
        let record = changed(heap, random, known.first, offer, (0, twist))?;
        offer.set_record(0, record);
    }
    if sides != 0 {
        let record = changed(heap, random, known.second, offer, (1, twist))?;
        offer.set_record(1, record);
    }
    Ok(())
}

/// A side's record with a change.
fn changed(
    heap: Global,
    random: &mut Random,
    known: &Known,
    offer: &Proposal,
    (side, twist): (u8, Twist),
) -> Result<Vec<u8>, AllocError> {
    let record = offer.record(side);
    match twist {
        Twist::Slower => slower(heap, random, record),
        Twist::Thinner => thinner(heap, known, offer, side),
        Twist::Drawn => {
            let sizes = (
                known.arena.states,
                byte(offer.table.as_slice(), 0),
                known.arena.own,
            );
            damage::draw(heap, random, sizes)
        }
        _ => damaged(heap, random, record),
    }
}
