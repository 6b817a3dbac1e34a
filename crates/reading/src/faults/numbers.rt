ghost use Rattle.std.specs.Prelude.{◌≡◌};
ghost use Rattle.reading.specs.Faults.{numbers};

use crate::faults::ReadFault;

impl ReadFault {
    /// The refusal's number.
    pub fn number(&self) -> u8
        ensures { result ≡ (numbers self.now).number }
    {
        match *self {
            ReadFault::Short(_) => 1,
            ReadFault::Field(_) => 2,
            ReadFault::Size(_) => 3,
            ReadFault::Entry(_) => 4,
            ReadFault::Order(_) => 5,
            ReadFault::Clash(_) => 6,
            ReadFault::TooLarge => 7,
        }
    }

    /// The place of the first byte that is wrong.
    pub fn place(&self) -> u16
        ensures { result ≡ (numbers self.now).place }
    {
        match *self {
            ReadFault::Short(at)
            | ReadFault::Field(at)
            | ReadFault::Size(at)
            | ReadFault::Entry(at)
            | ReadFault::Order(at)
            | ReadFault::Clash(at) => at,
            ReadFault::TooLarge => 0,
        }
    }
}
