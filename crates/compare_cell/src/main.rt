// Plays cells of pseudo-random games beside a log that is kept from the calls alone, and says where they differ.
#![tactic(auto)]

mod bytes;
mod changes;
mod counts;
mod ground;
mod live;
mod log;
mod made;
mod pairs;
mod plans;
mod proposals;
mod records;
mod script;
mod tally;
mod told;
mod twists;

use crate::counts::Counts;
use crate::pairs::Pair;
use anyhow::bail;
use rival::random::Random;

fn main(rt: HostRuntime) -> anyhow::Result<()> {
    let heap = rt.alloc();
    let mut counts = Counts::new();
    for pair in Pair::ALL {
        for seed in 0..pair.cells() {
            if let Err(error) = pair.play(heap, &mut counts, &mut Random::new(seed)) {
                bail!("differs: {pair}, seed {seed}, {error}");
            }
        }
    }
    println!(rt; "offer: {}", &counts.offers)?;
    println!(rt; "report: {}", &counts.reports)?;
    println!(rt; "{counts}")?;
    Ok(())
}
