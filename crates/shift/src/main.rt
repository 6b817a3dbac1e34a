// Plays whole shifts of a bay and prints them as the bay's screen would show them.
#![tactic(auto)]

mod log;
mod look;
mod manner;
mod setting;
mod shift;
mod tables;
mod words;

use crate::manner::MANNERS;
use crate::setting::Setting;
use crate::shift::play;
use anyhow::bail;
use console::input::{BAY_LIMIT, read_input};
use console::words::ask_help;
use negotiation::words::Explained;
use std::env;

const USAGE: &str = "usage: shift < BAY
       shift --help
  BAY   five two-byte lengths, then machine sheet and rule sheet of side 0, of side 1, and the phase table
plays a shift of the bay's lift (side 0) and shuttle (side 1) for each of four manners of choosing among possible next states:
the lowest, the highest, the kindest (of lowest rank) and the worst (of highest rank)
and prints for every tick where both are, what they show, how long they have waited, and in how many ticks there is a cold pallet
or: refused N, with the number of what is wrong, and a sentence
";

/// Plays a shift for each manner.
fn run(rt: &HostRuntime, bay: &[u8]) -> anyhow::Result<()> {
    match Setting::make(rt.alloc(), bay)? {
        Ok(setting) => {
            print!(rt; "{setting}")?;
            for manner in MANNERS {
                play(rt, bay, &setting, manner)?;
            }
        }
        Err(refusal) => println!(rt; "{}", Explained(refusal))?,
    }
    Ok(())
}

fn main(rt: HostRuntime) -> anyhow::Result<()> {
    let heap = rt.alloc();
    let words: Vec<String> = env::args(&rt)?.skip(1).collect(heap)?;
    if ask_help(words.as_slice()) {
        return Ok(rt.print(USAGE)?);
    }
    if !words.is_empty() {
        rt.eprint(USAGE)?;
        bail!("the bay is read from standard input");
    }
    let bytes = read_input(heap, rt.stdin(), BAY_LIMIT)?;
    run(&rt, bytes.as_slice())
}
