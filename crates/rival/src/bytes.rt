/// A byte of a sheet that was checked before; 0 past the end.
pub(crate) fn byte(bytes: &[u8], i: usize) -> u8 {
    match bytes.get(i) {
        Some(byte) => *byte,
        None => 0,
    }
}

/// Two bytes as a number, the low one first.
pub(crate) fn pair(bytes: &[u8], i: usize) -> u16 {
    let high = u16::from(byte(bytes, i.saturating_add(1)));
    256 * high + u16::from(byte(bytes, i))
}
