use crate::made::{lift, marked, sheet, watched};
use crate::meeting::Meeting;
use anyhow::Result;
use drawn::draws::{self, Size};
use rival::random::Random;
use std::alloc::Global;
use std::fmt;

/// Which games meet.
#[derive(Clone, Copy, PartialEq, Eq)]
pub enum Pair {
    MarkedSheets,
    WatchedSheets,
    WatchedAndMarkedSheets,
    LiftAndSheet,
    SheetAndLift,
    Lifts,
}

/// Machines for both sides of a table of these sizes.
#[derive(Clone, Copy)]
struct Sizes {
    first: Size,
    second: Size,
    table: [u8; 3],
}

/// Sizes of a phase table with at most 729 candidates, seldom any.
fn few_candidates(random: &mut Random) -> [u8; 3] {
    let (many, some, few) = (
        1 + random.byte_up_to(7),
        1 + random.byte_up_to(4),
        1 + random.byte_up_to(1),
    );
    match random.up_to(12) {
        0 => [many, 1, 1],
        1 => [some, 2, 1],
        2 => [some, 1, 2],
        3..=5 => [few, 2, 2],
        6 => [few, 3, 2],
        7 => [few, 2, 3],
        8 => [1, 3, 3],
        9 => [1, 4, 4],
        10..=11 => [3, 2, 2],
        _ => draws::sizes(random),
    }
}

/// How many signals one machine has each way, seldom other than the table has.
fn slipped(random: &mut Random, signals: u8) -> u8 {
    if random.once_in(100) {
        2 + random.byte_up_to(2)
    } else {
        signals
    }
}

/// How large a machine is for these signals.
fn size(random: &mut Random, own: u8, partner: u8) -> Size {
    Size {
        states: 1 + random.up_to(5),
        own: slipped(random, own),
        partner: slipped(random, partner),
    }
}

impl Pair {
    pub const ALL: [Pair; 6] = [
        Pair::MarkedSheets,
        Pair::WatchedSheets,
        Pair::WatchedAndMarkedSheets,
        Pair::LiftAndSheet,
        Pair::SheetAndLift,
        Pair::Lifts,
    ];

    /// Sizes for these games, mostly such that there are few candidates: a lift has four signals of its own.
    fn sizes(self, random: &mut Random) -> Sizes {
        let [phases, first, second] = few_candidates(random);
        let some = 2 + random.byte_up_to(2);
        let or_two = if random.once_in(8) { 2 } else { 1 };
        let table = match self {
            Pair::MarkedSheets | Pair::WatchedSheets | Pair::WatchedAndMarkedSheets => {
                [phases, first, second]
            }
            Pair::LiftAndSheet => [or_two, 4, some],
            Pair::SheetAndLift => [or_two, some, 4],
            Pair::Lifts => [or_two, 4, 4],
        };
        let [_, own, partner] = table;
        Sizes {
            first: size(random, own, partner),
            second: size(random, partner, own),
            table,
        }
    }

    /// Makes two games, and lets them meet.
    pub fn play(self, heap: Global, meeting: &mut Meeting, random: &mut Random) -> Result<()> {
        let sizes = self.sizes(random);
        let floors = 2 + random.byte_up_to(4);
        match self {
            Pair::MarkedSheets | Pair::WatchedSheets | Pair::WatchedAndMarkedSheets => {
                self.play_sheets(heap, meeting, random, &sizes)
            }
            Pair::LiftAndSheet | Pair::SheetAndLift | Pair::Lifts => {
                self.play_lifts(heap, meeting, random, &sizes, floors)
            }
        }
    }

    /// Both sides' machines are sheets.
    fn play_sheets(
        self,
        heap: Global,
        meeting: &mut Meeting,
        random: &mut Random,
        sizes: &Sizes,
    ) -> Result<()> {
        let first = sheet(heap, random, sizes.first)?;
        let second = sheet(heap, random, sizes.second)?;
        if self == Pair::MarkedSheets {
            let first = marked(heap, random, first)?;
            let second = marked(heap, random, second)?;
            return meeting.play(random, sizes.table, &first, &second);
        }
        let first = watched(heap, random, first)?;
        if self == Pair::WatchedSheets {
            let second = watched(heap, random, second)?;
            meeting.play(random, sizes.table, &first, &second)
        } else {
            let second = marked(heap, random, second)?;
            meeting.play(random, sizes.table, &first, &second)
        }
    }

    /// One side's machine is a lift, or both sides' are.
    fn play_lifts(
        self,
        heap: Global,
        meeting: &mut Meeting,
        random: &mut Random,
        sizes: &Sizes,
        floors: u8,
    ) -> Result<()> {
        if self == Pair::Lifts {
            let first = marked(heap, random, lift(heap, floors, sizes.first.partner)?)?;
            let second = watched(heap, random, lift(heap, floors, sizes.second.partner)?)?;
            return meeting.play(random, sizes.table, &first, &second);
        }
        if self == Pair::LiftAndSheet {
            let second = sheet(heap, random, sizes.second)?;
            let first = watched(heap, random, lift(heap, floors, sizes.first.partner)?)?;
            let second = marked(heap, random, second)?;
            meeting.play(random, sizes.table, &first, &second)
        } else {
            let first = sheet(heap, random, sizes.first)?;
            let first = watched(heap, random, first)?;
            let second = marked(heap, random, lift(heap, floors, sizes.second.partner)?)?;
            meeting.play(random, sizes.table, &first, &second)
        }
    }
}

impl fmt::Display for Pair {
    fn fmt<W: fmt::Write>(&self, f: &mut fmt::Formatter<W>) -> fmt::Result {
        f.write_str(match self {
            Pair::MarkedSheets => "marked sheets",
            Pair::WatchedSheets => "watched sheets",
            Pair::WatchedAndMarkedSheets => "a watched and a marked sheet",
            Pair::LiftAndSheet => "a watched lift and a marked sheet",
            Pair::SheetAndLift => "a watched sheet and a marked lift",
            Pair::Lifts => "a marked and a watched lift",
        })
    }
}
