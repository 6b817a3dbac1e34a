ghost use Rattle.std.specs.Prelude.{◌/◌, ◌^◌, ◌≡◌, ◌==◌};
ghost use Rattle.games.specs.Sets.{width, has, row, after, filled, described, inside};

/// How many signals a phase has room for.
const WIDTH: u32 = 4;

/// What a set holds from a bit on; past its 32 bits that is nothing.
fn from_bit(set: u32, bit: u32) -> u32
    ensures { result ≡ set / 2 ^ bit }
{
    set.checked_shr(bit).unwrap_or(0)
}

/// The signals of one phase.
fn row(set: u32, phase: u8) -> u32
    ensures { result ≡ row width set phase }
{
    from_bit(set, WIDTH * u32::from(phase)) % (1 << WIDTH)
}

/// Whether the signals of a phase are some, and none from `signals` up.
fn filled(row: u32, signals: u8) -> bool
    ensures { result ≡ filled signals row }
{
    row != 0 && from_bit(row, u32::from(signals)) == 0
}

/// Whether a set holds nothing from a phase on.
fn ends(set: u32, phases: u8) -> bool
    ensures { result ≡ ((after width set phases) == 0) }
{
    from_bit(set, WIDTH * u32::from(phases)) == 0
}

/// Whether a set is as described for so many phases and signals.
pub(crate) fn described(set: u32, phases: u8, signals: u8) -> bool
    ensures { result ≡ described width phases signals set }
{
    ends(set, phases) && (0..phases).all(|phase| filled(row(set, phase), signals))
}

/// Whether every signal that one set has in a phase is in the other too.
pub(crate) fn inside(inner: u32, outer: u32, phase: u8) -> bool
    ensures { result ≡ inside width inner outer phase }
{
    let own = row(inner, phase);
    own & row(outer, phase) == own
}

/// Whether a set has a signal in a phase.
pub(crate) fn has(set: u32, phase: u8, signal: u8) -> bool
    ensures { result ≡ has width set phase signal }
{
    let signal = u32::from(signal);
    signal < WIDTH && from_bit(set, WIDTH * u32::from(phase) + signal) % 2 == 1
}
