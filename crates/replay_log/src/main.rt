// Prints what a cell answers to the calls of a recorded shift, a line for each.
#![tactic(auto)]

use anyhow::bail;
use console::input::read_input;
use console::words::ask_help;
use recordings::damage::Damage;
use recordings::recording::Recording;
use recordings::replaying::text;
use recordings::words::DamageSentence;
use std::alloc::{AllocError, Global};
use std::env;

const USAGE: &str = "usage: replay_log < SHIFT
       replay_log --help
  SHIFT   a two-byte length and a bay of that length, then the calls that were put to its cell:
          1 offer: two-byte length and phase table; promise and reliance of side 0, of side 1 (four bytes each);
            two-byte length and record of side 0, of side 1
          2 report: both states (two bytes each)
          3 question: 0 states, 1 phase, 2 waits, 3 signals, 4 ranks
prints a line for each call:
  offer bounds X Y | offer refused N side S at STATE PHASE PARTNER NEXT | offer refused N side S byte P
  unsigned 20 side S | unsigned 21 phase P side S
  report signals A B | report refused N side S
  states A B | phase P | waits A B | signals A B | ranks A B
and where the input is damaged a last one: refused N byte P; what it means and what to do goes to standard error
a value that does not apply is 65535, side 2 is neither; what the numbers of a refused call mean, and what to do:
  1-4    the phase table (side 2) or a record is damaged at byte P: send the whole of it again
  10 11  sizes of machine, phase table and record do not fit: write the record for this machine and table
  12-19  the record does not keep what it promises: check_record says more; solve it anew
  20     terms that name no signal, or one that there is not, in some phase: name some of those that there are
  21     a promise beyond what the partner relies on: let it promise less, or the partner rely on more
  30     the record says nothing of the state in which its machine stands: offer it when the machine stands in one that it keeps
  31     its machine would have to wait longer than it was told: offer it at a goal
  32     a report before any offer was accepted: offer tables first
  33     a state to which the machine cannot have come: look where it is
";

/// A shift can be as long as it was.
const LIMIT: u64 = u64::MAX;

/// What is wrong with a shift, if it is damaged.
fn damage(heap: Global, bytes: &[u8]) -> Result<Option<Damage>, AllocError> {
    Ok(match Recording::read(heap, bytes)? {
        Ok(recording) => recording.calls.damage,
        Err(damage) => Some(damage),
    })
}

fn main(rt: HostRuntime) -> anyhow::Result<()> {
    let heap = rt.alloc();
    let words: Vec<String> = env::args(&rt)?.skip(1).collect(heap)?;
    if ask_help(words.as_slice()) {
        return Ok(rt.print(USAGE)?);
    }
    if !words.is_empty() {
        rt.eprint(USAGE)?;
        bail!("the shift is read from standard input");
    }
    let bytes = read_input(heap, rt.stdin(), LIMIT)?;
    rt.print(text(heap, bytes.as_slice())?)?;
    if let Some(damage) = damage(heap, bytes.as_slice())? {
        eprintln!(rt; "{damage}: {}", DamageSentence(damage))?;
    }
    Ok(())
}
