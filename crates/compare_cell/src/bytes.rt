/// A byte of what was drawn; 0 past the end.
pub fn byte(bytes: &[u8], i: usize) -> u8 {
    bytes.get(i).copied().unwrap_or(0)
}

/// Two bytes as a number, the low one first.
pub fn pair(bytes: &[u8], i: usize) -> u16 {
    u16::from_le_bytes([byte(bytes, i), byte(bytes, i.saturating_add(1))])
}

/// Whether a set has a number; none has 8 or more.
pub fn has(set: u8, number: u8) -> bool {
    number < 8 && set & (1 << number) != 0
}

/// The phase after a phase and the signals of side 0 and side 1.
pub fn followed(table: &[u8], phase: u8, [first, second]: [u8; 2]) -> u8 {
    let row = usize::from(phase) * usize::from(byte(table, 1)) + usize::from(first);
    let entry = row * usize::from(byte(table, 2)) + usize::from(second);
    byte(table, 3 + entry)
}
