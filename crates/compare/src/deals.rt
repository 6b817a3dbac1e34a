use rival::candidates::Found;
use std::fmt;

/// What the deals are like that were found.
#[derive(Clone, Copy)]
pub struct Deals {
    at_once: u32,
    /// Those after more than 50 tries.
    late: u32,
    /// The most tries that one took.
    most: u16,
    /// Those whose sides promise different numbers.
    unlike: u32,
}

impl Deals {
    pub fn new() -> Deals {
        Deals {
            at_once: 0,
            late: 0,
            most: 0,
            unlike: 0,
        }
    }

    /// Counts a deal.
    pub fn add(&mut self, found: &Found) {
        let [first, second] = found.promises;
        let (once, late) = (found.tries == 1, found.tries > 50);
        self.at_once = self.at_once.saturating_add(once.into());
        self.late = self.late.saturating_add(late.into());
        self.most = self.most.max(found.tries);
        self.unlike = self.unlike.saturating_add((first != second).into());
    }
}

impl fmt::Display for Deals {
    fn fmt<W: fmt::Write>(&self, f: &mut fmt::Formatter<W>) -> fmt::Result {
        let (once, late, most, unlike) = (self.at_once, self.late, self.most, self.unlike);
        write!(
            f,
            "{once} at the first try, {late} after more than 50, at most {most}; {unlike} of unlike promises"
        )
    }
}
