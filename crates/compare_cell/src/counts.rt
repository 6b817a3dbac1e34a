use crate::tally::Tally;
use crate::told::{Heard, Shown};
use std::fmt;

/// What was compared so far, and agreed.
#[derive(Clone, Copy)]
pub struct Counts {
    pub offers: Tally,
    pub reports: Tally,
    /// Single questions among the calls.
    asked: u32,
    /// How often all five questions were put together.
    shown: u32,
    cells: u32,
    /// Cells that came to run.
    running: u32,
    longest_wait: u32,
    /// Accepted reports by the phase that they led to.
    phases: [u32; 3],
    replayed: u32,
    lists: u32,
}

fn add(count: &mut u32, more: u32) {
    *count = count.saturating_add(more);
}

impl Counts {
    pub fn new() -> Counts {
        Counts {
            offers: Tally::new("accepted"),
            reports: Tally::new("accepted"),
            asked: 0,
            shown: 0,
            cells: 0,
            running: 0,
            longest_wait: 0,
            phases: [0; 3],
            replayed: 0,
            lists: 0,
        }
    }

    /// Counts a call by its answer, and the questions after it.
    pub fn add_call(&mut self, heard: &Heard, shown: &Shown) {
        match heard {
            Heard::Offered(Ok(_)) => self.offers.pass(),
            Heard::Offered(Err(refusal)) => self.offers.refuse(*refusal),
            Heard::Reported(Ok(_)) => {
                self.reports.pass();
                if let Some(count) = self.phases.get_mut(usize::from(shown.phase)) {
                    add(count, 1);
                }
            }
            Heard::Reported(Err(refusal)) => self.reports.refuse(*refusal),
            _ => add(&mut self.asked, 1),
        }
        add(&mut self.shown, 1);
        for wait in &shown.waits {
            self.longest_wait = self.longest_wait.max(*wait);
        }
    }

    /// Counts a cell by what it shows at last.
    pub fn add_cell(&mut self, last: &Shown) {
        add(&mut self.cells, 1);
        if last.signals != [255, 255] {
            add(&mut self.running, 1);
        }
    }

    /// Counts a list that was replayed.
    pub fn add_list(&mut self, calls: usize) {
        add(&mut self.replayed, u32::try_from(calls).unwrap_or(0));
        add(&mut self.lists, 1);
    }
}

impl fmt::Display for Counts {
    fn fmt<W: fmt::Write>(&self, f: &mut fmt::Formatter<W>) -> fmt::Result {
        let [none, one, two] = self.phases;
        let (cells, running, longest) = (self.cells, self.running, self.longest_wait);
        let (asked, shown, replayed, lists) = (self.asked, self.shown, self.replayed, self.lists);
        writeln!(
            f,
            "one question: {asked} agreed; all five: {shown} times agreed"
        )?;
        writeln!(f, "replay: {replayed} calls in {lists} lists agreed")?;
        write!(
            f,
            "{cells} cells, {running} of them came to run; longest wait {longest}; moves into phase 0 {none}, phase 1 {one}, phase 2 {two}"
        )
    }
}
