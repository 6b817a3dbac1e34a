mod read;

ghost use Rattle.std.specs.Prelude.{◌≡◌};
ghost use Rattle.reading.specs.Limits.{AllBelow};
ghost use Rattle.reading.specs.Sides.{pick};

use crate::sizes::Sizes;

/// Which phase follows a phase and two signals, in a place that a table can be read into.
#[derive(Clone, Copy)]
pub struct PhaseTable {
    sizes: Sizes,
    // room for the largest table, since a place is read into without a heap
    entries: [u8; 128],
    ghost closed: { AllBelow sizes.phases entries },
}

impl PhaseTable {
    /// How many phases there are, and how many signals each side has.
    pub fn sizes(&self) -> Sizes
        ensures { result ≡ self.now.sizes }
    {
        self.sizes
    }

    // A table hands on what its sizes say, as a deal does.

    /// How many phases there are.
    pub fn phases(&self) -> u8
        ensures { result ≡ self.now.sizes.phases }
    {
        self.sizes.phases
    }

    /// How many signals a side has; any side but 0 is side 1.
    pub fn signals(&self, side: u8) -> u8
        ensures { result ≡ pick side self.now.sizes.signals.first self.now.sizes.signals.second }
    {
        self.sizes.signals.own(side)
    }
}
