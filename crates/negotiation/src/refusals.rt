ghost use Rattle.std.specs.Prelude.{◌≡◌, ◌++◌, Some, codes, decimal};
ghost use Rattle.negotiation.specs.declared.refusals.Refusal.TheVariants.{Bay, Search};
ghost use Rattle.negotiation.specs.Refusals.{number};

use bays::faults::BayFault;
use checking::faults::SearchFault;
use std::error::Error;
use std::fmt;

/// Why there is no deal: the input is no bay, or the search answers none.
#[derive(Clone, Copy, PartialEq, Eq, Debug)]
pub enum Refusal {
    Bay(BayFault),
    Search(SearchFault),
}

impl Refusal {
    /// The refusal's number.
    pub fn number(&self) -> u8
        ensures { result ≡ number self.now }
    {
        match self {
            Refusal::Bay(fault) => fault.reading().number(),
            Refusal::Search(fault) => fault.number(),
        }
    }
}

impl From<BayFault> for Refusal {
    ghost from_gives = { λ f r. r ≡ Bay f };

    fn from(fault: BayFault) -> Refusal {
        Refusal::Bay(fault)
    }
}

impl From<SearchFault> for Refusal {
    ghost from_gives = { λ f r. r ≡ Search f };

    fn from(fault: SearchFault) -> Refusal {
        Refusal::Search(fault)
    }
}

impl fmt::Display for Refusal {
    ghost output = { λ x. Some (codes "refused " ++ decimal (number x)) };

    fn fmt<W: fmt::Write>(&self, f: &mut fmt::Formatter<W>) -> fmt::Result {
        write!(f, "refused {}", self.number())
    }
}

impl Error for Refusal {}
