ghost use Rattle.std.specs.Prelude.{◌^◌, ◌≡◌, ◌≤◌, ◌&&◌, ◌++◌, length, drop, nat_lt};
ghost use Rattle.reading.specs.Bytes.{byte, pair, bit};
ghost use Rattle.reading.specs.Faults.{length_place};

/// A byte, or 0 past the end: the formats ask for bytes that a sheet may not have.
pub fn byte_at(bytes: &[u8], i: usize) -> u8
    ensures { result ≡ byte bytes.now i }
{
    bytes.get(i).copied().unwrap_or(0)
}

/// A two-byte number, the low byte first; bytes past the end are 0.
pub fn pair_at(bytes: &[u8], i: usize) -> u16
    ensures { result ≡ pair bytes.now i }
{
    u16::from_le_bytes([byte_at(bytes, i), byte_at(bytes, i.saturating_add(1))])
}

/// The length as a place: at most 65,535.
pub fn length_place(bytes: &[u8]) -> u16
    ensures { result ≡ length_place bytes.now }
{
    u16::try_from(bytes.len()).unwrap_or(u16::MAX)
}

/// Whether a byte has a bit; there are eight.
pub fn has_bit(x: u8, i: u8) -> bool
    ensures { result ≡ (nat_lt i 8 && bit x i) }
{
    i < 8 && (x >> i) % 2 == 1
}

/// Whether a byte has no bit from `room` up.
pub(crate) fn fits(x: u8, room: u16) -> bool
    ensures { result ≡ nat_lt x (2 ^ room) }
{
    room >= 8 || x >> room == 0
}

/// Copies bytes to the front of a buffer.
pub(crate) fn put_front(buffer: &mut [u8], part: &[u8])
    requires { length part.now ≤ length buffer.old }
    ensures { buffer.new ≡ part.now ++ drop (length part.now) buffer.old }
{
    buffer[..part.len()].copy_from_slice(part);
}
