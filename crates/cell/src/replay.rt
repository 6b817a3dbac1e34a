ghost use Rattle.std.specs.Prelude.{◌≡◌, map};
ghost use Rattle.cell.specs.Cells.{both_mean, offering, owned, event, told, Heard, Stays, Fills};

use crate::calls::{Answer, Call, Offer, OwnedOffer};
use crate::cell::{Cell, Room};
use games::machine::{Game, Machine};
use reading::sides::Sides;

impl OwnedOffer {
    /// The offer, as a cell takes it.
    pub fn as_offer(&self) -> Offer<'_>
        ensures { offering result ≡ owned self.now }
    {
        Offer {
            table: &self.table,
            deal: &self.deal,
            records: Sides {
                first: self.records.first.as_slice(),
                second: self.records.second.as_slice(),
            },
        }
    }
}

impl<A: Game + Drop, B: Game + Drop> Cell<A, B> {
    /// The answer to a call.
    pub fn hear(&mut self, call: &Call) -> Answer
        ensures heard { Heard A.Machine.meaning A.Game.marks B.Machine.meaning B.Game.marks self.old (event call.now) (told result) self.new }
        ensures unchanged { Stays result self.old self.new }
    {
        match call {
            Call::Offer(offer) => Answer::Offered(self.offer(offer.as_offer())),
            Call::Report(report) => Answer::Reported(self.report(*report)),
            Call::Ask(question) => self.ask(*question),
        }
    }
}

/// Puts calls, in any order, to a cell just made over two games, as many as there is room for their answers, and answers how many.
/// Each answer is the log's, and the law of the cell holds after every call.
pub fn replay<A: Game + Drop, B: Game + Drop>(
    room: Room,
    first: A,
    second: B,
    calls: &[Call],
    answers: &mut [Answer],
) -> usize
    ensures { Fills (both_mean A.Machine.meaning A.Game.marks B.Machine.meaning B.Game.marks first second) (map event calls.now) answers.old answers.new result }
{
    let mut cell = Cell::within(room, first, second);
    let count = calls.len().min(answers.len());
    for i in 0..count {
        answers[i] = cell.hear(&calls[i]);
    }
    count
}
