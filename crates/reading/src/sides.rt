ghost use Rattle.std.specs.Prelude.{◌≡◌};
ghost use Rattle.reading.specs.Sides.{pick};

/// A value for each of the two sides of a bay: the first is side 0's, the second side 1's.
/// A side is a number, 0 or any other for side 1: any may be handed in, and an enum would ask more of callers.
#[derive(Clone, Copy, PartialEq, Eq, Debug)]
pub struct Sides<T> {
    pub first: T,
    pub second: T,
}

impl<T: Copy> Sides<T> {
    // Own and partner are one line each, the other way round.

    /// A side's own value; any side but 0 is side 1.
    pub fn own(&self, side: u8) -> T
        ensures { result ≡ pick side self.now.first self.now.second }
    {
        if side == 0 { self.first } else { self.second }
    }

    /// The value of a side's partner.
    pub fn partner(&self, side: u8) -> T
        ensures { result ≡ pick side self.now.second self.now.first }
    {
        if side == 0 { self.second } else { self.first }
    }
}
