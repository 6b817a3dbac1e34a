use crate::arena::Arena;
use crate::bytes::byte;
use crate::lifting::has_controller;
use crate::seat::{Seat, Side};
use std::alloc::{AllocError, Global};

/// What a search finds: a deal, told by both sides' terms and the sizes of its table, and its tries.
#[derive(Clone, Copy, PartialEq, Eq, Debug)]
pub struct Found {
    pub promises: [u32; 2],
    pub reliances: [u32; 2],
    pub signed: [u8; 3],
    pub tries: u16,
}

/// Why a search finds nothing: a refusal's number, and the tries where they are told.
#[derive(Clone, Copy, PartialEq, Eq, Debug)]
pub struct Unfound {
    pub number: u16,
    pub tries: Option<u16>,
}

/// The most candidates that a search takes on, and the largest allowance.
const MOST: u64 = 65_535;

/// Two machines that face each other under a phase table that is as the format wants it.
#[derive(Clone, Copy)]
pub struct Facing<'a> {
    pub first: &'a Arena,
    pub second: &'a Arena,
    pub table: &'a [u8],
}

/// The largest set of so many signals: all of them.
fn all(signals: u8) -> u32 {
    match signals {
        0 => 0,
        1 => 1,
        2 => 3,
        3 => 7,
        _ => 15,
    }
}

/// Every promise of a side in ascending order: a set that is not empty for each phase, and a later phase weighs more.
fn promises(heap: Global, phases: u8, signals: u8) -> Result<Vec<u32>, AllocError> {
    let mut numbers = vec![in heap; 0u32]?;
    let mut weight = 1u32;
    for _ in 0..phases {
        let mut more = Vec::new(heap);
        for set in 1..=all(signals) {
            for low in &numbers {
                more.push(weight.wrapping_mul(set) | *low)?;
            }
        }
        numbers = more;
        weight = weight.wrapping_mul(16);
    }
    Ok(numbers)
}

impl Facing<'_> {
    fn sizes(&self) -> [u8; 3] {
        [
            byte(self.table, 0),
            byte(self.table, 1),
            byte(self.table, 2),
        ]
    }

    /// Whether both machines and the table are of the same sizes.
    fn suits(&self) -> bool {
        let [_, own, partner] = self.sizes();
        (self.first.own, self.first.partner) == (own, partner)
            && (self.second.own, self.second.partner) == (partner, own)
    }

    /// How many candidates there are, if the machines suit the table.
    pub fn candidates(&self) -> u64 {
        let [phases, own, partner] = self.sizes();
        let in_a_phase = u64::from(all(own)) * u64::from(all(partner));
        let mut count = 1u64;
        for _ in 0..phases {
            count = count.saturating_mul(in_a_phase);
        }
        count
    }

    /// Whether both sides have ranked controllers if each relies on the other's promise.
    fn workable(&self, heap: Global, promises: [u32; 2]) -> Result<bool, AllocError> {
        let signed = self.sizes();
        let first = Side {
            number: 0,
            promise: promises[0],
            reliance: promises[1],
            signed,
        };
        let second = Side {
            number: 1,
            promise: promises[1],
            reliance: promises[0],
            signed,
        };
        let first = Seat::new(heap, self.first, self.table, first)?;
        let second = Seat::new(heap, self.second, self.table, second)?;
        Ok(has_controller(heap, &first)? && has_controller(heap, &second)?)
    }

    /// The first workable candidate, by trying one after the other.
    fn find(&self, heap: Global, allowance: u32) -> Result<Result<Found, Unfound>, AllocError> {
        let [phases, own, partner] = self.sizes();
        let (owns, partners) = (
            promises(heap, phases, own)?,
            promises(heap, phases, partner)?,
        );
        let mut tries = 0u16;
        for own in &owns {
            for partner in &partners {
                if u32::from(tries) == allowance {
                    return Ok(refused(26, Some(tries)));
                }
                tries = tries.saturating_add(1);
                let promises = [*own, *partner];
                if self.workable(heap, promises)? {
                    return Ok(Ok(Found {
                        promises,
                        reliances: [*partner, *own],
                        signed: self.sizes(),
                        tries,
                    }));
                }
            }
        }
        Ok(refused(27, Some(tries)))
    }
}

fn refused(number: u16, tries: Option<u16>) -> Result<Found, Unfound> {
    Err(Unfound { number, tries })
}

/// The first deal that both sides can keep to, within so many tries.
pub fn search(
    heap: Global,
    facing: &Facing<'_>,
    allowance: u32,
) -> Result<Result<Found, Unfound>, AllocError> {
    if !facing.suits() {
        return Ok(refused(10, None));
    }
    if allowance == 0 || u64::from(allowance) > MOST {
        return Ok(refused(24, None));
    }
    if facing.candidates() > MOST {
        return Ok(refused(25, None));
    }
    facing.find(heap, allowance)
}
