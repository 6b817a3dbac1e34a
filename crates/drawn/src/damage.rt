use rival::random::Random;
use std::alloc::{AllocError, Global};

/// What is done to a record.
#[derive(Clone, Copy)]
pub enum Damage {
    None,
    Byte,
    Choice,
    Rank,
    RankNearby,
    Length,
    Signals,
}

impl Damage {
    pub const ALL: [Damage; 7] = [
        Damage::None,
        Damage::Byte,
        Damage::Choice,
        Damage::Rank,
        Damage::RankNearby,
        Damage::Length,
        Damage::Signals,
    ];

    /// Does it to a record of so many positions, at a place drawn.
    pub fn apply(self, random: &mut Random, record: &mut Vec<u8>) -> Result<(), AllocError> {
        let length = u16::try_from(record.len()).unwrap_or(0);
        let positions = length.saturating_sub(4) / 3;
        let position = random.up_to(positions.saturating_sub(1));
        let rank = 4 + usize::from(positions) + 2 * usize::from(position);
        match self {
            Damage::None => (),
            Damage::Byte => {
                let place = random.up_to(length.saturating_sub(1));
                set(record, usize::from(place), random.byte_up_to(255));
            }
            Damage::Choice => {
                let choice = if random.once_in(4) {
                    255
                } else {
                    random.byte_up_to(4)
                };
                set(record, 4 + usize::from(position), choice);
            }
            Damage::Rank => {
                let high = if random.once_in(4) { 255 } else { 0 };
                set(record, rank, random.byte_up_to(3));
                set(record, rank + 1, high);
            }
            Damage::RankNearby => {
                if let Some(low) = record.get_mut(rank) {
                    *low = low.wrapping_add(1).wrapping_sub(2 * random.byte_up_to(1));
                }
            }
            Damage::Signals => set(record, 3, 1 + random.byte_up_to(3)),
            Damage::Length => resize(random, record)?,
        }
        Ok(())
    }
}

/// A byte less or more, and sometimes hardly a head.
fn resize(random: &mut Random, record: &mut Vec<u8>) -> Result<(), AllocError> {
    if random.once_in(2) {
        let _ = record.pop();
    } else {
        record.push(random.byte_up_to(255))?;
    }
    if random.once_in(4) {
        record.truncate(usize::from(random.up_to(4)));
    }
    Ok(())
}

fn set(record: &mut Vec<u8>, place: usize, to: u8) {
    if let Some(byte) = record.get_mut(place) {
        *byte = to;
    }
}

/// A record of the right sizes, with low ranks.
pub fn draw(
    heap: Global,
    random: &mut Random,
    sizes: (u16, u8, u8),
) -> Result<Vec<u8>, AllocError> {
    let (states, phases, signals) = sizes;
    let mut bytes = Vec::new(heap);
    let mut ranks = Vec::new(heap);
    bytes.extend_from_slice(&states.to_le_bytes())?;
    bytes.extend_from_slice(&[phases, signals])?;
    let (gaps, high) = (2 + random.up_to(10), random.up_to(5));
    for _ in 0..states {
        for _ in 0..phases {
            if random.once_in(gaps) {
                bytes.push(255)?;
                ranks.extend_from_slice(&[255, 255])?;
            } else {
                bytes.push(random.byte_up_to(signals.saturating_sub(1)))?;
                ranks.extend_from_slice(&random.up_to(high).to_le_bytes())?;
            }
        }
    }
    bytes.extend_from_slice(ranks.as_slice())?;
    Ok(bytes)
}
