// Prints the one line that tells what both sides of a bay settle on, or why they do not.
#![tactic(auto)]

use anyhow::bail;
use console::input::{BAY_LIMIT, read_input};
use console::words::ask_help;
use negotiation::line::Answer;
use negotiation::negotiator::Negotiator;
use negotiation::words::Explained;
use std::env;

const USAGE: &str = "usage: bay < BAY
       bay --help
  BAY   five two-byte lengths, then machine sheet and rule sheet of side 0, of side 1, and the phase table
prints one line: deal A B tries T bounds X Y
  A B   what side 0 and side 1 promise, each in one number: bit 4 x p + j is signal j in phase p
  T     the place of that deal among all candidates
  X Y   at most so many ticks is each side's machine from a goal
or: refused N, with the number of what is wrong; where it is, what it means and what to do goes to standard error
";

fn main(rt: HostRuntime) -> anyhow::Result<()> {
    let heap = rt.alloc();
    let words: Vec<String> = env::args(&rt)?.skip(1).collect(heap)?;
    if ask_help(words.as_slice()) {
        return Ok(rt.print(USAGE)?);
    }
    if !words.is_empty() {
        rt.eprint(USAGE)?;
        bail!("the bay is read from standard input");
    }
    let bytes = read_input(heap, rt.stdin(), BAY_LIMIT)?;
    let Answer { outcome, line } = Negotiator::new(heap)?.answer(bytes.as_slice());
    rt.print(line.as_str())?;
    // the one line is for the machines that read it; whoever looks on is told why
    if let Err(refusal) = outcome {
        eprintln!(rt; "{}", Explained(refusal))?;
    }
    Ok(())
}
