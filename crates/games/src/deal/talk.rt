mod faults;
mod steps;

ghost use Rattle.std.specs.Prelude.{◌≡◌, true};
ghost use Rattle.games.specs.Terms.{are_terms};

use crate::deal::Terms;
use reading::sizes::Sizes;

/// A talk on a deal, open on a phase table's sizes: it awaits side 0's bid. Each step of a talk spends the one before.
pub struct Talk {
    sizes: Sizes,
}

/// A talk in which side 0 has bid its terms: it awaits side 1's reply.
pub struct Bid {
    talk: Talk,
    terms: Terms,
    ghost described: { are_terms talk.sizes.phases talk.sizes.signals.first talk.sizes.signals.second terms ≡ true },
}

/// A bid that side 1 has replied to with its own terms: it awaits the signing.
pub struct Reply {
    bid: Bid,
    terms: Terms,
    ghost described: { are_terms bid.talk.sizes.phases bid.talk.sizes.signals.second bid.talk.sizes.signals.first terms ≡ true },
}

/// Why a step of a talk is refused.
#[derive(Clone, Copy, PartialEq, Eq, Debug)]
pub enum TalkFault {
    /// Terms that are not as described.
    NotTerms,
    /// At a phase, this side promises more than the other relies on.
    TooFar { phase: u8, side: u8 },
}
