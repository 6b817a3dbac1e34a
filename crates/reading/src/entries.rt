ghost use Rattle.std.specs.Prelude.{◌+◌, ◌<◌, ◌≡◌, length};
ghost use Rattle.reading.specs.Firsts.{first_below};
ghost use Rattle.reading.specs.Faults.{told, entry_fault};

use crate::faults::{ReadFault, check};

/// The first entry that is not below its limit is a fault, placed from an offset on.
pub(crate) fn check_entries(entries: &[u8], limit: u8, offset: u16) -> Result<(), ReadFault>
    requires { offset + length entries.now < 65536 }
    ensures { told result ≡ first_below (length entries.now) (entry_fault entries.now limit offset) }
{
    // A loop of its own: with a closure for the test, each caller would show what it answers at each index.
    for (i, entry) in entries.iter().enumerate() {
        // the index, since a fault names its place, which fits by the length
        check(*entry < limit, ReadFault::Entry(offset + i as u16))?;
    }
    Ok(())
}
