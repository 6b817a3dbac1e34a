// Runs solving, checking and searching beside a second solver on pseudo-random games of every kind, and says where they differ.
#![tactic(auto)]

mod bays;
mod contest;
mod deals;
mod kinds;
mod made;
mod meeting;
mod pairs;
mod tally;

use crate::contest::Contest;
use crate::kinds::Kind;
use crate::meeting::Meeting;
use crate::pairs::Pair;
use anyhow::Context;
use rival::random::Random;

/// How many games of each kind.
const GAMES: u64 = 1200;

/// How many pairs of games of each kind meet.
const MEETINGS: u64 = 800;

fn main(rt: HostRuntime) -> anyhow::Result<()> {
    let heap = rt.alloc();
    let mut contest = Contest::new(heap)?;
    for kind in Kind::ALL {
        contest.clear();
        for seed in 0..GAMES {
            kind.play(heap, &mut contest, &mut Random::new(seed))
                .context(format_args!("{kind}, seed {seed}"))?;
        }
        println!(rt;
            "solve, {kind}: {}, largest bound {}",
            &contest.solved, contest.farthest
        )?;
        println!(rt; "check, {kind}: {}", &contest.checked)?;
    }
    let mut meeting = Meeting::new(heap)?;
    for pair in Pair::ALL {
        meeting.clear();
        for seed in 0..MEETINGS {
            pair.play(heap, &mut meeting, &mut Random::new(seed))
                .context(format_args!("{pair}, seed {seed}"))?;
        }
        println!(rt; "search, {pair}: {}", &meeting.searched)?;
        println!(rt; "deals, {pair}: {}", &meeting.deals)?;
    }
    Ok(())
}
