ghost use Rattle.std.specs.Prelude.{◌≡◌, ◌≢◌, ◌+◌, ◌*◌, ◌<◌, true, ◌&&◌, length, MatchOption};
ghost use Rattle.reading.specs.Bytes.{byte};
ghost use Rattle.checking.specs.Arenas.{promised, relied};
ghost use Rattle.checking.specs.Reach.{Reached, ReachedBytes};
ghost use Rattle.checking.specs.Marking.{Marked, Grown, Moved, Followed, Waiting, Idle};

use crate::reach::Marks;
use crate::seat::Seat;
use games::machine::Machine;
use reading::records::Position;

// A mark is a number, since it stands in the caller's bytes, and no memory is taken.

/// The position is not reached.
const UNREACHED: u8 = 0;

/// The position is reached, and so is marked whatever comes next.
const REACHED: u8 = 1;

/// The position is reached, and what comes next is not marked yet.
const WAITING: u8 = 2;

/// Marks a place, if it has no mark yet.
fn mark(marks: &mut [u8], place: usize)
    requires { place < length marks.old }
    ensures marked { Marked (λ i. i ≡ place) marks.old marks.new }
    ensures there { byte marks.new place ≢ 0 }
{
    if marks[place] == UNREACHED {
        marks[place] = WAITING;
    }
}

impl<G: Machine> Seat<'_, G> {
    /// Where a position's mark stands.
    fn place(&self, at: Position) -> usize
        ensures { result ≡ at.state * self.now.table.now.sizes.phases + at.phase }
    {
        at.place(self.table.phases())
    }

    /// Whether two signals may come together in a phase: the side promises its own, and relies on its partner's.
    fn plays(&self, phase: u8, own: u8, partner: u8) -> bool
        ensures { result ≡ (promised self.now.deal.now self.now.side phase own && relied self.now.deal.now self.now.side phase partner) }
    {
        self.promised(phase, own) && self.relied(phase, partner)
    }
}

impl<G: Machine> Marks<'_, G> {
    /// A position that waits.
    fn waiting(&self) -> Option<Position>
        ensures { MatchOption result (Idle self.now.bytes.now) (Waiting (G.Machine.meaning self.now.seat.game.now) self.now.seat.table.now self.now.bytes.now) }
    {
        // by state and phase: the place that `position` would find had to be taken apart again
        for state in 0..self.seat.game.states() {
            for phase in 0..self.seat.table.phases() {
                let at = Position { state, phase };
                if self.bytes[self.seat.place(at)] == WAITING {
                    return Some(at);
                }
            }
        }
        None
    }

    /// Marks the positions that come next under two signals.
    fn mark_moves(&mut self, at: Position, own: u8, partner: u8)
        requires reached { Reached (G.Machine.meaning self.old.seat.game.now) self.old.seat.table.now self.old.seat.deal.now self.old.seat.side at.state at.phase }
        requires promised { promised self.old.seat.deal.now self.old.seat.side at.phase own ≡ true }
        requires relied { relied self.old.seat.deal.now self.old.seat.side at.phase partner ≡ true }
        ensures grown { Grown self.old self.new }
        ensures moves { Moved (G.Machine.meaning self.old.seat.game.now) self.old.seat.table.now self.old.seat.side self.new.bytes.now at.state at.phase own partner }
    {
        let seat = self.seat;
        let phase = seat.follow(at.phase, own, partner);
        for state in 0..seat.game.states() {
            if seat.game.may_move(at.state, own, partner, state) {
                mark(self.bytes, seat.place(Position { state, phase }));
            }
        }
    }

    /// Marks the positions that come next, under each promised and each relied signal.
    fn mark_next(&mut self, at: Position)
        requires { Reached (G.Machine.meaning self.old.seat.game.now) self.old.seat.table.now self.old.seat.deal.now self.old.seat.side at.state at.phase }
        ensures grown { Grown self.old self.new }
        ensures followed { Followed (G.Machine.meaning self.old.seat.game.now) self.old.seat.table.now self.old.seat.deal.now self.old.seat.side self.new.bytes.now at.state at.phase }
    {
        let seat = self.seat;
        for own in 0..seat.game.own() {
            for partner in 0..seat.game.partner() {
                if seat.plays(at.phase, own, partner) {
                    self.mark_moves(at, own, partner);
                }
            }
        }
    }

    /// Marks every position that is reached, and no other.
    pub(crate) fn mark_reached(&mut self)
        ensures same_reference { self.new.bytes.ghost_name ≡ self.old.bytes.ghost_name }
        ensures reached { ReachedBytes (G.Machine.meaning self.old.seat.game.now) self.old.seat.table.now self.old.seat.deal.now self.old.seat.side self.new.bytes.now }
    {
        let seat = self.seat;
        self.bytes.fill(UNREACHED);
        self.bytes[seat.place(seat.start())] = WAITING;
        while let Some(at) = self.waiting() {
            self.bytes[seat.place(at)] = REACHED;
            self.mark_next(at);
        }
    }
}
