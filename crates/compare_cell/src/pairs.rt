use crate::counts::Counts;
use crate::made::{Drawn, Wanted};
use crate::{live, script};
use anyhow::Result;
use cell::cell::Cell;
use drawn::draws::Size;
use games::lift::Lift;
use games::machine::Game;
use games::marked::Marked;
use games::sheet_machine::SheetMachine;
use games::watched::Watched;
use rival::random::Random;
use std::alloc::Global;
use std::fmt;

/// Which games a cell holds.
#[derive(Clone, Copy, PartialEq, Eq)]
pub enum Pair {
    MarkedSheets,
    WatchedSheets,
    WatchedAndMarkedSheets,
    LiftAndSheet,
    SheetAndLift,
    Lifts,
    TwoLayersAndSheet,
    Rings,
}

/// What the games of a cell are to be like, how many calls it hears, and how many in a hundred are offers.
#[derive(Clone, Copy)]
struct Plot {
    first: Wanted,
    second: Wanted,
    calls: u16,
    offers: u16,
}

/// A cell of games that are drawn, and another of the same games, which hears the calls again.
fn play<A: Drawn + Game, B: Drawn + Game>(
    heap: Global,
    counts: &mut Counts,
    random: &mut Random,
    plot: &Plot,
) -> Result<()> {
    let mut again = *random;
    let first = A::draw(heap, random, plot.first)?;
    let second = B::draw(heap, random, plot.second)?;
    let length = (plot.calls, plot.offers);
    let script = script::write(heap, random, &first.known, &second.known, length)?;
    let Some(script) = script else { return Ok(()) };
    let cell = Cell::new(heap, first.game, second.game)?;
    live::play(counts, cell, &script)?;
    let first = A::draw(heap, &mut again, plot.first)?;
    let second = B::draw(heap, &mut again, plot.second)?;
    let games = (first.game, second.game);
    live::replay_all(heap, random, counts, games, &script)
}

/// How many signals one machine has each way, seldom other than the other machine expects.
fn slipped(random: &mut Random, signals: u8) -> u8 {
    if random.once_in(50) {
        2 + random.byte_up_to(2)
    } else {
        signals
    }
}

impl Pair {
    pub const ALL: [Pair; 8] = [
        Pair::MarkedSheets,
        Pair::WatchedSheets,
        Pair::WatchedAndMarkedSheets,
        Pair::LiftAndSheet,
        Pair::SheetAndLift,
        Pair::Lifts,
        Pair::TwoLayersAndSheet,
        Pair::Rings,
    ];

    /// How many times such games are drawn.
    pub fn cells(self) -> u64 {
        match self {
            Pair::Rings => 8,
            _ => 120,
        }
    }

    /// Sizes for these games: a lift has four signals of its own.
    fn plot(self, random: &mut Random) -> Plot {
        let (some, others) = (1 + random.byte_up_to(3), 1 + random.byte_up_to(3));
        let (own, partner) = match self {
            Pair::LiftAndSheet => (4, others.max(2)),
            Pair::SheetAndLift => (some.max(2), 4),
            Pair::Lifts => (4, 4),
            _ => (some, others),
        };
        let ring = self == Pair::Rings;
        let states = if ring { 200 } else { 1 };
        let first = Size {
            states: states + random.up_to(9),
            own: slipped(random, own),
            partner: slipped(random, partner),
        };
        let second = Size {
            states: states + random.up_to(9),
            own: slipped(random, partner),
            partner: slipped(random, own),
        };
        Plot {
            first: Wanted { size: first, ring },
            second: Wanted { size: second, ring },
            calls: if ring { 600 } else { 200 },
            offers: if ring { 4 } else { 16 },
        }
    }

    /// Draws a cell of these games, and compares what it answers.
    pub fn play(self, heap: Global, counts: &mut Counts, random: &mut Random) -> Result<()> {
        type Sheet = SheetMachine;
        let plot = &self.plot(random);
        match self {
            Pair::MarkedSheets | Pair::Rings => {
                play::<Marked<Sheet>, Marked<Sheet>>(heap, counts, random, plot)
            }
            Pair::WatchedSheets => {
                play::<Watched<Sheet>, Watched<Sheet>>(heap, counts, random, plot)
            }
            Pair::WatchedAndMarkedSheets => {
                play::<Watched<Sheet>, Marked<Sheet>>(heap, counts, random, plot)
            }
            Pair::LiftAndSheet => play::<Watched<Lift>, Marked<Sheet>>(heap, counts, random, plot),
            Pair::SheetAndLift => play::<Watched<Sheet>, Marked<Lift>>(heap, counts, random, plot),
            Pair::Lifts => play::<Marked<Lift>, Watched<Lift>>(heap, counts, random, plot),
            Pair::TwoLayersAndSheet => {
                play::<Marked<Watched<Sheet>>, Watched<Sheet>>(heap, counts, random, plot)
            }
        }
    }
}

impl fmt::Display for Pair {
    fn fmt<W: fmt::Write>(&self, f: &mut fmt::Formatter<W>) -> fmt::Result {
        f.write_str(match self {
            Pair::MarkedSheets => "marked sheets",
            Pair::WatchedSheets => "watched sheets",
            Pair::WatchedAndMarkedSheets => "a watched and a marked sheet",
            Pair::LiftAndSheet => "a watched lift and a marked sheet",
            Pair::SheetAndLift => "a watched sheet and a marked lift",
            Pair::Lifts => "a marked and a watched lift",
            Pair::TwoLayersAndSheet => "a marked watched and a watched sheet",
            Pair::Rings => "rings",
        })
    }
}
