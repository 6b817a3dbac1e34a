ghost use Rattle.std.specs.Prelude.{◌<◌, ◌≡◌, true};
ghost use Rattle.reading.specs.Sides.{pick};
ghost use Rattle.games.specs.Sets.{width, has};

use crate::deal::Deal;
use crate::sets::has;
use reading::sizes::Sizes;

impl Deal {
    /// How many phases there are, and how many signals each side has.
    pub fn sizes(&self) -> Sizes
        ensures { result ≡ self.now.sizes }
    {
        self.sizes
    }

    // A deal hands on what its sizes say, as a phase table does.

    /// How many phases it has.
    pub fn phases(&self) -> u8
        ensures { result ≡ self.now.sizes.phases }
    {
        self.sizes.phases
    }

    /// How many signals a side has; any side but 0 is side 1.
    pub fn signals(&self, side: u8) -> u8
        ensures { result ≡ pick side self.now.sizes.signals.first self.now.sizes.signals.second }
    {
        self.sizes.signals.own(side)
    }

    // Promise and reliance are the two words of a deal: one function would take which is meant.

    /// What a side promises; any side but 0 is side 1.
    pub fn promise(&self, side: u8) -> u32
        ensures { result ≡ pick side self.now.terms.first.promise self.now.terms.second.promise }
    {
        self.terms.own(side).promise
    }

    /// What a side relies on; any side but 0 is side 1.
    pub fn reliance(&self, side: u8) -> u32
        ensures { result ≡ pick side self.now.terms.first.reliance self.now.terms.second.reliance }
    {
        self.terms.own(side).reliance
    }

    /// Whether a side promises a signal of its own in a phase; out of range it does not.
    pub fn promises(&self, side: u8, phase: u8, signal: u8) -> bool
        ensures value { result ≡ has width (pick side self.now.terms.first.promise self.now.terms.second.promise) phase signal }
        ensures inside { result ≡ true → (phase < self.now.sizes.phases) × (signal < pick side self.now.sizes.signals.first self.now.sizes.signals.second) }
    {
        has(self.promise(side), phase, signal)
    }

    /// Whether a side relies on a signal of its partner in a phase; out of range it does not.
    pub fn relies(&self, side: u8, phase: u8, signal: u8) -> bool
        ensures value { result ≡ has width (pick side self.now.terms.first.reliance self.now.terms.second.reliance) phase signal }
        ensures inside { result ≡ true → (phase < self.now.sizes.phases) × (signal < pick side self.now.sizes.signals.second self.now.sizes.signals.first) }
    {
        has(self.reliance(side), phase, signal)
    }
}
