ghost use Rattle.std.specs.Prelude.{◌≡◌, ◌+◌, ◌<◌, length};
ghost use Rattle.recordings.specs.Calls.{quad, part, part_end};

use reading::bytes::pair_at;

/// How many bytes tell the length of a part.
const HEAD: usize = 2;

/// A four-byte number, the low byte first; bytes past the end are 0.
pub(crate) fn quad_at(bytes: &[u8], at: usize) -> u32
    requires { at < length bytes.now + 1000000 }
    ensures { result ≡ quad bytes.now at }
{
    let low = u32::from(pair_at(bytes, at));
    let high = u32::from(pair_at(bytes, at + 2));
    low + 65_536 * high
}

/// Where a part ends that begins at a place with its two-byte length.
pub(crate) fn part_end(bytes: &[u8], at: usize) -> usize
    requires { at < length bytes.now + 1000000 }
    ensures { result ≡ part_end bytes.now at }
{
    at + HEAD + usize::from(pair_at(bytes, at))
}

/// The bytes of a part behind its length, as far as there are any.
pub(crate) fn part_at(bytes: &[u8], at: usize) -> &[u8]
    requires { at < length bytes.now + 1000000 }
    ensures { result.now ≡ part bytes.now at }
{
    let end = part_end(bytes, at).min(bytes.len());
    let start = (at + HEAD).min(end);
    &bytes[start..end]
}
