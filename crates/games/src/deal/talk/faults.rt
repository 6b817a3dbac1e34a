ghost use Rattle.std.specs.Prelude.{◌≡◌, ◌++◌, Some, codes, decimal};
ghost use Rattle.games.specs.Deals.{numbers};

use crate::deal::talk::TalkFault;
use std::error::Error;
use std::fmt;

impl fmt::Display for TalkFault {
    ghost output = { λ fault. Some (codes "refused " ++ decimal (numbers fault).number) };

    fn fmt<W: fmt::Write>(&self, f: &mut fmt::Formatter<W>) -> fmt::Result {
        write!(f, "refused {}", self.number())
    }
}

impl Error for TalkFault {}

// Published in numbers: 65,535 and 2 stand for what does not apply.
impl TalkFault {
    /// The refusal's number.
    pub fn number(&self) -> u8
        ensures { result ≡ (numbers self.now).number }
    {
        match *self {
            TalkFault::NotTerms => 20,
            TalkFault::TooFar { .. } => 21,
        }
    }

    /// The phase that it is about; 65,535 where there is none.
    pub fn phase(&self) -> u16
        ensures { result ≡ (numbers self.now).phase }
    {
        match *self {
            TalkFault::NotTerms => 65535,
            TalkFault::TooFar { phase, .. } => u16::from(phase),
        }
    }

    /// The side that it is about; 2 where there is none.
    pub fn side(&self) -> u8
        ensures { result ≡ (numbers self.now).side }
    {
        match *self {
            TalkFault::NotTerms => 2,
            TalkFault::TooFar { side, .. } => side,
        }
    }
}
