use crate::bytes::{byte, followed, pair};
use crate::made::Known;
use crate::proposals::Proposal;
use crate::records::{NO_CHOICE, NO_RANK, Spot, choice, place, ranks_at, spots};
use drawn::damage::Damage;
use rival::random::Random;
use std::alloc::{AllocError, Global};

/// A copy of a record with damage of one kind, sometimes of two.
pub fn damaged(heap: Global, random: &mut Random, record: &[u8]) -> Result<Vec<u8>, AllocError> {
    let mut bytes = record.to_vec(heap)?;
    let kind = usize::from(random.up_to(6));
    for (i, damage) in Damage::ALL.iter().enumerate() {
        if i == kind || random.once_in(30) {
            damage.apply(random, &mut bytes)?;
        }
    }
    Ok(bytes)
}

/// The rank at a place among the positions of a record.
fn rank_at(record: &[u8], place: usize) -> u16 {
    pair(
        record,
        ranks_at(record).saturating_add(place.saturating_mul(2)),
    )
}

/// The largest rank of a record.
fn largest(record: &[u8]) -> u16 {
    let mut largest = 0;
    for place in 0..spots(record) {
        let rank = rank_at(record, place);
        if rank != NO_RANK {
            largest = rank.max(largest);
        }
    }
    largest
}

/// The same choices with higher ranks: those from some rank on are all raised by as much, now and then as far as ranks go.
pub fn slower(heap: Global, random: &mut Random, record: &[u8]) -> Result<Vec<u8>, AllocError> {
    let largest = largest(record);
    let room = (NO_RANK - 1).saturating_sub(largest);
    let more = match random.up_to(9) {
        0 => room,
        _ => (1 + random.up_to(4)).min(room),
    };
    let least = random.up_to(largest).max(1);
    let mut bytes = Vec::new(heap);
    for place in 0..ranks_at(record) {
        bytes.push(byte(record, place))?;
    }
    for place in 0..spots(record) {
        let rank = rank_at(record, place);
        let raised = if rank >= least && rank != NO_RANK {
            rank.saturating_add(more)
        } else {
            rank
        };
        bytes.extend_from_slice(&raised.to_le_bytes())?;
    }
    Ok(bytes)
}

/// Which positions can come up from the start if a side's record is kept to, by their places.
fn reached(
    heap: Global,
    known: &Known,
    offer: &Proposal,
    side: u8,
) -> Result<Vec<bool>, AllocError> {
    let (record, reliance) = (offer.record(side), offer.terms.own(side).reliance);
    let mut reached = Vec::new(heap);
    reached.resize(spots(record), false)?;
    let mut left = Vec::new(heap);
    left.push(Spot {
        state: known.ground.start,
        phase: 0,
    })?;
    // each position is marked once, so it ends long before
    for _ in 0..u64::MAX {
        let Some(at) = left.pop() else { break };
        let Some(mark) = reached.get_mut(place(record, at)) else {
            continue;
        };
        if *mark {
            continue;
        }
        *mark = true;
        let own = choice(record, at);
        for step in known.ground.moves(at.state) {
            if step.own == own && is_relied(reliance, at.phase, step.partner) {
                let signals = in_order(side, own, step.partner);
                left.push(Spot {
                    state: step.to,
                    phase: followed(offer.table.as_slice(), at.phase, signals),
                })?;
            }
        }
    }
    Ok(reached)
}

/// The signals of side 0 and of side 1.
fn in_order(side: u8, own: u8, partner: u8) -> [u8; 2] {
    if side == 0 {
        [own, partner]
    } else {
        [partner, own]
    }
}

fn is_relied(reliance: u32, phase: u8, signal: u8) -> bool {
    let bit = u32::from(phase) * 4 + u32::from(signal);
    bit < 32 && (reliance >> bit) & 1 == 1
}

/// The same record with none kept but the positions that can come up from the start.
pub fn thinner(
    heap: Global,
    known: &Known,
    offer: &Proposal,
    side: u8,
) -> Result<Vec<u8>, AllocError> {
    let record = offer.record(side);
    let reached = reached(heap, known, offer, side)?;
    let mut bytes = Vec::new(heap);
    for place in 0..4 {
        bytes.push(byte(record, place))?;
    }
    for (place, mark) in reached.iter().enumerate() {
        bytes.push(if *mark {
            byte(record, place.saturating_add(4))
        } else {
            NO_CHOICE
        })?;
    }
    for (place, mark) in reached.iter().enumerate() {
        let rank = if *mark {
            rank_at(record, place)
        } else {
            NO_RANK
        };
        bytes.extend_from_slice(&rank.to_le_bytes())?;
    }
    Ok(bytes)
}
