// Prints the table of each side's solved controller, and writes both records where two files are named for them.
#![tactic(auto)]

use anyhow::bail;
use console::input::{BAY_LIMIT, read_input};
use console::words::{ask_help, parse_terms};
use games::deal::Terms;
use planning::plans::{Plan, Plans};
use reading::sides::Sides;
use std::{env, fs, io};

const USAGE: &str = "usage: tables P0 R0 P1 R1 < BAY
       tables P0 R0 P1 R1 RECORD0 RECORD1 < BAY
       tables --help
  P0 R0 P1 R1       numbers: what side 0 promises and relies on, then what side 1 does
  RECORD0 RECORD1   files: where the record of side 0's controller is written, and that of side 1's
  BAY               five two-byte lengths, then machine sheet and rule sheet of side 0, of side 1, and the phase table
";

/// What the words after the program's name say: the terms, and the files for the records.
#[derive(Clone, Copy)]
struct Arguments<'a> {
    terms: Sides<Terms>,
    files: Option<Sides<&'a str>>,
}

impl<'a> Arguments<'a> {
    fn parse(words: &'a [String]) -> Option<Arguments<'a>> {
        let [p0, r0, p1, r1, files @ ..] = words else {
            return None;
        };
        let terms = Sides {
            first: parse_terms(p0.as_str(), r0.as_str())?,
            second: parse_terms(p1.as_str(), r1.as_str())?,
        };
        let files = match files {
            [] => None,
            [first, second] => Some(Sides {
                first: first.as_str(),
                second: second.as_str(),
            }),
            _ => return None,
        };
        Some(Arguments { terms, files })
    }
}

/// Writes a plan's record, if it has one.
fn write(rt: &HostRuntime, file: &str, plan: &Plan) -> io::Result<()> {
    if plan.answer.is_ok() {
        fs::write(rt, file, plan.record.as_slice())?;
    }
    Ok(())
}

fn main(rt: HostRuntime) -> anyhow::Result<()> {
    let heap = rt.alloc();
    let words: Vec<String> = env::args(&rt)?.skip(1).collect(heap)?;
    if ask_help(words.as_slice()) {
        return Ok(rt.print(USAGE)?);
    }
    let Some(Arguments { terms, files }) = Arguments::parse(words.as_slice()) else {
        rt.eprint(USAGE)?;
        bail!("these are not four numbers, and two files or none");
    };
    let bytes = read_input(heap, rt.stdin(), BAY_LIMIT)?;
    match Plans::make(heap, bytes.as_slice(), terms)? {
        Ok(plans) => {
            rt.print(plans.text(heap)?)?;
            if let Some(files) = files {
                write(&rt, files.first, &plans.sides.first)?;
                write(&rt, files.second, &plans.sides.second)?;
            }
        }
        Err(refusal) => rt.print(refusal.text(heap)?)?,
    }
    Ok(())
}
