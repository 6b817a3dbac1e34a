use crate::bytes::{byte, pair};

/// Where there is no choice.
pub const NO_CHOICE: u8 = 255;

/// Where there is no rank.
pub const NO_RANK: u16 = 65_535;

/// A position: a state in a phase.
#[derive(Clone, Copy, PartialEq, Eq, Debug)]
pub struct Spot {
    pub state: u16,
    pub phase: u8,
}

/// How many positions a record has.
pub fn spots(record: &[u8]) -> usize {
    usize::from(pair(record, 0)).saturating_mul(byte(record, 2).into())
}

/// The place of a position among them.
pub fn place(record: &[u8], at: Spot) -> usize {
    let row = usize::from(at.state).saturating_mul(byte(record, 2).into());
    row.saturating_add(at.phase.into())
}

/// Where the ranks of a record begin: after its head and its choices.
pub fn ranks_at(record: &[u8]) -> usize {
    spots(record).saturating_add(4)
}

/// The choice that a record has at a position.
pub fn choice(record: &[u8], at: Spot) -> u8 {
    byte(record, place(record, at).saturating_add(4))
}

/// The rank that a record has at a position.
pub fn rank(record: &[u8], at: Spot) -> u16 {
    let double = place(record, at).saturating_mul(2);
    pair(record, ranks_at(record).saturating_add(double))
}

/// Whether a record keeps a position.
pub fn keeps(record: &[u8], at: Spot) -> bool {
    choice(record, at) != NO_CHOICE || rank(record, at) != NO_RANK
}
