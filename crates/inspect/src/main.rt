// Says in words what a sheet, a product of two sheets, or a lift means.
#![tactic(auto)]

use anyhow::{Context, bail};
use console::input::{SHEET_LIMIT, read_input, read_sheet};
use inspection::kinds::Request;
use inspection::machines::{lift, product};
use inspection::sheets::inspect;
use std::env;
use std::num::ParseIntError;

const USAGE: &str = "usage: inspect KIND < SHEET
  inspect machine              a machine sheet
  inspect marks N              a mark sheet for a machine of N states, 1 to 256
  inspect rule N               a rule sheet for a machine of N states, 1 to 256
  inspect phases               a phase table
  inspect record               a controller record
  inspect product FILE FILE    a machine sheet watched by a rule sheet, from two files
  inspect lift F M             a lift of F floors for a partner with M signals
  inspect --help               this text
";

/// A size of a lift; a number that does not fit into a byte as 255, which is out of range, too.
fn size(word: &str) -> Result<u8, ParseIntError> {
    let number: u64 = word.parse()?;
    Ok(u8::try_from(number).unwrap_or(u8::MAX))
}

fn main(rt: HostRuntime) -> anyhow::Result<()> {
    let heap = rt.alloc();
    let words: Vec<String> = env::args(&rt)?.skip(1).collect(heap)?;
    let text = match words.as_slice() {
        [kind, machine, rule] if kind.as_str() == "product" => {
            let machine = read_sheet(&rt, heap, machine.as_str())?;
            let rule = read_sheet(&rt, heap, rule.as_str())?;
            product(heap, machine.as_slice(), rule.as_slice())?
        }
        [kind, floors, signals] if kind.as_str() == "lift" => {
            let floors = size(floors.as_str()).context("F is no number")?;
            let signals = size(signals.as_str()).context("M is no number")?;
            lift(heap, floors, signals)?
        }
        words => match Request::parse(words) {
            Some(Request::Help) => return Ok(rt.print(USAGE)?),
            Some(Request::Sheet(kind)) => {
                let sheet = read_input(heap, rt.stdin(), SHEET_LIMIT)?;
                inspect(heap, kind, sheet.as_slice())?
            }
            None => {
                rt.eprint(USAGE)?;
                bail!("no kind of sheet was given");
            }
        },
    };
    rt.print(text)?;
    Ok(())
}
