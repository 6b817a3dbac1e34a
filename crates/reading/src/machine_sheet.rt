mod read;

ghost use Rattle.std.specs.Prelude.{◌*◌, ◌<◌, ◌≡◌, ◌≤◌, length};

/// How large a machine is, and where it starts.
#[derive(Clone, Copy, PartialEq, Eq, Debug)]
pub struct Frame {
    pub states: u16,
    pub own: u8,
    pub partner: u8,
    pub start: u16,
    ghost some_states: { 1 ≤ states },
    ghost few_states: { states ≤ 256 },
    ghost some_own: { 1 ≤ own },
    ghost few_own: { own ≤ 4 },
    ghost some_partner: { 1 ≤ partner },
    ghost few_partner: { partner ≤ 4 },
    ghost starts: { start < states },
}

impl Frame {
    /// One state, one signal each way.
    pub fn least() -> Frame
        ensures states { result.states ≡ 1 }
        ensures own { result.own ≡ 1 }
        ensures partner { result.partner ≡ 1 }
        ensures start { result.start ≡ 0 }
    {
        Frame {
            states: 1,
            own: 1,
            partner: 1,
            start: 0,
        }
    }
}

/// A machine sheet that was read: its sizes, and the parts of the bytes that hold labels, keys and targets.
#[derive(Clone, Copy)]
pub struct MachineSheet<'a> {
    // plain numbers for whoever holds the sheet: no promise rests on them, and every question is answered whatever they are
    pub states: u16,
    pub own: u8,
    pub partner: u8,
    pub start: u16,
    pub moves: u16,
    listed: Listed<'a>,
}

/// What the bytes of a sheet hold, and what is known of it.
#[derive(Clone, Copy)]
struct Listed<'a> {
    frame: Frame,
    moves: u16,
    // parallel parts, as the format has them: the sheet copies nothing
    labels: &'a [u8],
    keys: &'a [u8],
    targets: &'a [u8],
    ghost few_moves: { moves ≤ 4096 },
    ghost labelled: { length labels.now ≡ frame.states },
    ghost keyed: { length keys.now ≡ 2 * moves },
    ghost targeted: { length targets.now ≡ 2 * moves },
}

/// A move as a sheet lists it: the key is (state × own signals + own) × partner signals + partner.
/// Moves are in order by key, then by target.
#[derive(Clone, Copy, PartialEq, Eq, PartialOrd, Ord, Debug)]
pub struct Move {
    pub key: u16,
    pub target: u16,
}

impl<'a> MachineSheet<'a> {
    /// How large the machine is, and where it starts.
    pub fn frame(&self) -> Frame
        ensures { result ≡ self.now.listed.frame }
    {
        self.listed.frame
    }

    /// How many moves the sheet lists.
    pub fn moves(&self) -> u16
        ensures { result ≡ self.now.listed.moves }
    {
        self.listed.moves
    }

    /// The very part of the bytes that holds the labels, one byte a state.
    pub fn labels(&self) -> &'a [u8]
        ensures { result ≡ self.now.listed.labels }
    {
        self.listed.labels
    }
}
