mod read;

ghost use Rattle.std.specs.Prelude.{◌+◌, ◌*◌, ◌≡◌};

// No `Option`: both questions of a record promise these numbers, which are the format's own.

/// No choice, as the format writes it.
pub const NO_CHOICE: u8 = 255;

/// No rank, as the format writes it.
pub const NO_RANK: u16 = 65_535;

/// The longest record: of 256 states and 8 phases.
pub const LONGEST: usize = 6_148;

/// A controller record that was read: its sizes, and the parts of the bytes that hold choices and ranks.
#[derive(Clone, Copy)]
pub struct Record<'a> {
    // no facts about the sizes: what is asked of a record is answered for any
    pub states: u16,
    pub phases: u8,
    pub signals: u8,
    // two parallel parts, as the format has them: callers are given either as it stands in their bytes
    choices: &'a [u8],
    ranks: &'a [u8],
}

/// A position of a bay, as one side sees it: its machine's state, and the phase.
#[derive(Clone, Copy, PartialEq, Eq, Debug)]
pub struct Position {
    pub state: u16,
    pub phase: u8,
}

impl Position {
    /// Its place in a list by states, then by so many phases.
    pub fn place(&self, phases: u8) -> usize
        ensures { result ≡ self.now.state * phases + self.now.phase }
    {
        usize::from(self.state) * usize::from(phases) + usize::from(self.phase)
    }
}

/// How many positions there are, of so many states and phases.
pub fn places(states: u16, phases: u8) -> usize
    ensures { result ≡ states * phases }
{
    usize::from(states) * usize::from(phases)
}

/// How long a record is: four bytes of sizes, then one for each choice and two for each rank.
pub fn length(states: u16, phases: u8) -> usize
    ensures { result ≡ 4 + 3 * (states * phases) }
{
    4 + 3 * places(states, phases)
}

impl<'a> Record<'a> {
    /// The very part of the bytes that holds the choices, one byte a position.
    pub fn choices(&self) -> &'a [u8]
        ensures { result ≡ self.now.choices }
    {
        self.choices
    }

    /// The very part of the bytes that holds the ranks, two bytes a position.
    pub fn ranks(&self) -> &'a [u8]
        ensures { result ≡ self.now.ranks }
    {
        self.ranks
    }
}
