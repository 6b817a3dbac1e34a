mod read;

ghost use Rattle.std.specs.Prelude.{◌*◌, ◌/◌, ◌%◌, ◌^◌, ◌<◌, ◌≡◌, ◌≤◌, nat_le};
ghost use Rattle.reading.specs.Limits.{AllBelow};

/// A rule sheet that was read: a deterministic Büchi automaton over labels, and the labels that are forbidden.
#[derive(Clone, Copy)]
pub struct RuleSheet {
    states: u8,
    accepting: u8,
    forbidden: u8,
    start: u8,
    // room for the largest automaton, with no heap
    next: [u8; 64],
    ghost some_states: { 1 ≤ states },
    ghost few_states: { states ≤ 8 },
    ghost accepts: { accepting < 2 ^ states },
    ghost starts: { start < states },
    ghost closed: { AllBelow states next },
}

/// A state of a machine that an automaton watches: the machine's own state, and what the automaton has read.
#[derive(Clone, Copy, PartialEq, Eq, Debug)]
pub struct Pair {
    pub below: u16,
    pub read: u8,
}

/// Whether a machine of so many states can be watched by an automaton of so many: a product has at most 256.
pub fn can_watch(states: u16, automaton: u8) -> bool
    ensures { result ≡ nat_le (states * automaton) 256 }
{
    u32::from(states) * u32::from(automaton) <= 256
}

impl RuleSheet {
    /// How many states the automaton has.
    pub fn states(&self) -> u8
        ensures { result ≡ self.now.states }
    {
        self.states
    }

    /// A state of the watched machine, which is the state below times the automaton's states and what it has read.
    pub fn pair(&self, state: u16) -> Pair
        ensures below { result.below ≡ state / self.now.states }
        ensures read { result.read ≡ state % self.now.states }
    {
        let count = u16::from(self.states);
        Pair {
            below: state / count,
            // what is left of a division fits
            read: (state % count) as u8,
        }
    }

    /// The automaton's start.
    pub fn start(&self) -> u8
        ensures { result ≡ self.now.start }
    {
        self.start
    }
}
