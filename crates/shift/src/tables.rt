use cell::calls::{Call, OwnedOffer};
use games::deal::Deal;
use reading::phase_table::PhaseTable;
use reading::records::{NO_RANK, Record};
use reading::sides::Sides;
use std::alloc::{AllocError, Global};

/// So many ticks more a slow table allows.
const MORE: u16 = 3;

/// A rank of a slow table: none and 0 stay as they are.
fn slow_rank(rank: u16) -> u16 {
    match rank {
        0 | NO_RANK => rank,
        rank => rank.saturating_add(MORE),
    }
}

/// The same record with three ticks more at each position that is no goal: it shows the same, and promises less.
fn slow_record(heap: Global, bytes: &[u8]) -> Result<Vec<u8>, AllocError> {
    let mut slow = Vec::new(heap);
    if let Ok(record) = Record::read(bytes) {
        slow.extend_from_slice(&record.states.to_le_bytes())?;
        slow.extend_from_slice(&[record.phases, record.signals])?;
        slow.extend_from_slice(record.choices())?;
        for rank in record.ranks().chunks(2) {
            if let [low, high] = rank {
                let rank = slow_rank(u16::from_le_bytes([*low, *high]));
                slow.extend_from_slice(&rank.to_le_bytes())?;
            }
        }
    }
    Ok(slow)
}

/// The same record with a byte that stands for no signal.
fn broken_record(heap: Global, bytes: &[u8]) -> Result<Vec<u8>, AllocError> {
    let mut broken = bytes.to_vec(heap)?;
    if broken.len() > 4 {
        broken[4] = 9;
    }
    Ok(broken)
}

/// Both sides' records.
#[derive(Drop)]
pub(crate) struct Tables {
    pub(crate) records: Sides<Vec<u8>>,
}

impl Tables {
    /// Both made slow.
    pub(crate) fn slow(&self, heap: Global) -> Result<Tables, AllocError> {
        let records = Sides {
            first: slow_record(heap, self.records.first.as_slice())?,
            second: slow_record(heap, self.records.second.as_slice())?,
        };
        Ok(Tables { records })
    }

    /// The lift's with a broken byte.
    pub(crate) fn broken(&self, heap: Global) -> Result<Tables, AllocError> {
        let records = Sides {
            first: broken_record(heap, self.records.first.as_slice())?,
            second: self.records.second.clone()?,
        };
        Ok(Tables { records })
    }

    /// The offer of them.
    pub(crate) fn offer(&self, table: PhaseTable, deal: Deal) -> Result<Call, AllocError> {
        let records = Sides {
            first: self.records.first.clone()?,
            second: self.records.second.clone()?,
        };
        Ok(Call::Offer(OwnedOffer {
            table,
            deal,
            records,
        }))
    }

    /// A side's record.
    pub(crate) fn record(&self, side: u8) -> &[u8] {
        if side == 0 {
            self.records.first.as_slice()
        } else {
            self.records.second.as_slice()
        }
    }
}
