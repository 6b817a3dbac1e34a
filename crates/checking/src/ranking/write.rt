ghost use Rattle.std.specs.Prelude.{◌+◌, ◌*◌, ◌<◌, ◌≡◌, ℕ, length, ◌≢◌};
ghost use Rattle.reading.specs.Bytes.{byte, pair};
ghost use Rattle.checking.specs.declared.ranking.Entry.{Entry};
ghost use Rattle.checking.specs.Snapshots.{played};
ghost use Rattle.checking.specs.Solving.{Holds, Wrote};

use crate::ranking::{Entry, Ranking};
use crate::seat::Seat;
use crate::snapshot::Snapshot;
use reading::records::{Position, places};

/// Two bytes of a number, the low byte first.
fn put_pair(buffer: &mut [u8], place: usize, number: u16)
    requires { place + 1 < length buffer.old }
    ensures value { pair buffer.new place ≡ number }
    ensures rest { (i : ℕ) → (i ≢ place) → (i ≢ place + 1) → byte buffer.new i ≡ byte buffer.old i }
{
    let [low, high] = number.to_le_bytes();
    buffer[place] = low;
    buffer[place + 1] = high;
}

/// The entry of one position, in a record of so many.
fn put_entry(buffer: &mut [u8], size: usize, place: usize, entry: Entry)
    requires place { place < size }
    requires long { length buffer.old ≡ 4 + 3 * size }
    ensures entry { Holds buffer.new size place entry }
    ensures head { (i : ℕ) → i < 4 → byte buffer.new i ≡ byte buffer.old i }
    ensures others { (i : ℕ) (e : Entry) → i < size → (i ≢ place) → Holds buffer.old size i e → Holds buffer.new size i e }
{
    buffer[4 + place] = entry.choice;
    put_pair(buffer, 4 + size + 2 * place, entry.rank);
}

impl Ranking {
    /// Writes the record that holds the ranks and choices.
    pub(crate) fn write(&self, seat: &Seat<'_, Snapshot>, buffer: &mut [u8])
        requires { length buffer.old ≡ 4 + 3 * (seat.now.game.now.frame.states * seat.now.table.now.sizes.phases) }
        ensures { Wrote (played seat.now) self.now buffer.new }
    {
        let states = seat.game.states();
        let phases = seat.table.phases();
        let size = places(states, phases);
        put_pair(buffer, 0, states);
        buffer[2] = phases;
        buffer[3] = seat.game.own();
        // two loops that fill: places are states by phases
        for state in 0..states {
            for phase in 0..phases {
                let at = Position { state, phase };
                put_entry(buffer, size, at.place(phases), self.entry(at));
            }
        }
    }
}
