use crate::contest::Contest;
use crate::made::{lift, marked, sheet, watched};
use anyhow::Result;
use drawn::draws::{self, Size};
use rival::random::Random;
use std::alloc::Global;
use std::fmt;

/// What a game is made of.
#[derive(Clone, Copy, PartialEq, Eq)]
pub enum Kind {
    MarkedSheet,
    WatchedSheet,
    MarkedLift,
    WatchedLift,
    MarkedWatchedSheet,
    WatchedMarkedLift,
    WatchedWatchedSheet,
}

impl Kind {
    pub const ALL: [Kind; 7] = [
        Kind::MarkedSheet,
        Kind::WatchedSheet,
        Kind::MarkedLift,
        Kind::WatchedLift,
        Kind::MarkedWatchedSheet,
        Kind::WatchedMarkedLift,
        Kind::WatchedWatchedSheet,
    ];

    /// Makes a game of this kind, and plays it against its arena.
    pub fn play(self, heap: Global, contest: &mut Contest, random: &mut Random) -> Result<()> {
        let size = draws::small(random);
        let (floors, signals) = draws::lift(random);
        match self {
            Kind::MarkedSheet => {
                let machine = sheet(heap, random, size)?;
                let game = marked(heap, random, machine)?;
                contest.play(random, &game)
            }
            Kind::WatchedSheet => {
                let machine = sheet(heap, random, size)?;
                let game = watched(heap, random, machine)?;
                contest.play(random, &game)
            }
            Kind::MarkedLift => {
                let machine = lift(heap, floors, signals)?;
                let game = marked(heap, random, machine)?;
                contest.play(random, &game)
            }
            Kind::WatchedLift => {
                let machine = lift(heap, floors, signals)?;
                let game = watched(heap, random, machine)?;
                contest.play(random, &game)
            }
            Kind::MarkedWatchedSheet | Kind::WatchedMarkedLift | Kind::WatchedWatchedSheet => {
                self.play_twice(heap, contest, random, size, (floors, signals))
            }
        }
    }

    /// Two layers, one on the other.
    fn play_twice(
        self,
        heap: Global,
        contest: &mut Contest,
        random: &mut Random,
        size: Size,
        (floors, signals): (u8, u8),
    ) -> Result<()> {
        if self == Kind::WatchedMarkedLift {
            let machine = lift(heap, floors, signals)?;
            let below = marked(heap, random, machine)?;
            let game = watched(heap, random, below)?;
            return contest.play(random, &game);
        }
        let machine = sheet(heap, random, size)?;
        let below = watched(heap, random, machine)?;
        if self == Kind::MarkedWatchedSheet {
            let game = marked(heap, random, below)?;
            contest.play(random, &game)
        } else {
            let game = watched(heap, random, below)?;
            contest.play(random, &game)
        }
    }
}

impl fmt::Display for Kind {
    fn fmt<W: fmt::Write>(&self, f: &mut fmt::Formatter<W>) -> fmt::Result {
        f.write_str(match self {
            Kind::MarkedSheet => "marked sheets",
            Kind::WatchedSheet => "watched sheets",
            Kind::MarkedLift => "marked lifts",
            Kind::WatchedLift => "watched lifts",
            Kind::MarkedWatchedSheet => "marked watched sheets",
            Kind::WatchedMarkedLift => "watched marked lifts",
            Kind::WatchedWatchedSheet => "watched watched sheets",
        })
    }
}
