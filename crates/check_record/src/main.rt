// Checks a controller record for a side of a bay, and says its bound or what is wrong.
#![tactic(auto)]

use anyhow::bail;
use console::input::read_sheet;
use console::words::{ask_help, parse_terms};
use games::deal::Terms;
use reading::sides::Sides;
use review::cases::Case;
use review::texts::review;
use std::env;

const USAGE: &str = "usage: check_record MACHINE RULE TABLE SIDE P0 R0 P1 R1 RECORD
  MACHINE RULE   files: the side's machine sheet, and the rule sheet that its machine is watched by
  TABLE          a file: the phase table
  SIDE           0 or 1: whose record is checked
  P0 R0 P1 R1    numbers: what side 0 promises and relies on, then what side 1 does
  RECORD         a file: the controller record
usage: check_record --help     this text
";

/// What the words after the program's name say: names of files, and numbers. A case has bytes where this has names.
#[derive(Clone, Copy)]
struct Arguments<'a> {
    machine: &'a str,
    rule: &'a str,
    table: &'a str,
    side: u8,
    terms: Sides<Terms>,
    record: &'a str,
}

impl<'a> Arguments<'a> {
    fn parse(words: &'a [String]) -> Option<Arguments<'a>> {
        let [machine, rule, table, side, p0, r0, p1, r1, record] = words else {
            return None;
        };
        Some(Arguments {
            machine: machine.as_str(),
            rule: rule.as_str(),
            table: table.as_str(),
            side: side.as_str().parse().ok()?,
            terms: Sides {
                first: parse_terms(p0.as_str(), r0.as_str())?,
                second: parse_terms(p1.as_str(), r1.as_str())?,
            },
            record: record.as_str(),
        })
    }
}

fn main(rt: HostRuntime) -> anyhow::Result<()> {
    let heap = rt.alloc();
    let words: Vec<String> = env::args(&rt)?.skip(1).collect(heap)?;
    if ask_help(words.as_slice()) {
        return Ok(rt.print(USAGE)?);
    }
    let Some(arguments) = Arguments::parse(words.as_slice()) else {
        rt.eprint(USAGE)?;
        bail!("these are not nine arguments as described");
    };
    let machine = read_sheet(&rt, heap, arguments.machine)?;
    let rule = read_sheet(&rt, heap, arguments.rule)?;
    let table = read_sheet(&rt, heap, arguments.table)?;
    let record = read_sheet(&rt, heap, arguments.record)?;
    let case = Case {
        machine: machine.as_slice(),
        rule: rule.as_slice(),
        table: table.as_slice(),
        side: arguments.side,
        terms: arguments.terms,
        record: record.as_slice(),
    };
    rt.print(review(heap, &case)?)?;
    Ok(())
}
