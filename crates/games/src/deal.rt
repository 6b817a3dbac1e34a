mod ask;
pub mod signing;
mod suit;
pub mod talk;

ghost use Rattle.std.specs.Prelude.{◌≡◌, true};
ghost use Rattle.games.specs.Sets.{width, Inside};
ghost use Rattle.games.specs.Terms.{are_terms};

use reading::sides::Sides;
use reading::sizes::Sizes;

/// A side's terms: the signals that it promises to keep to in each phase, and its reliance, the partner's signals that it relies on.
/// Bit 4 × p + j of a number is signal j in phase p.
#[derive(Clone, Copy, PartialEq, Eq, Debug)]
pub struct Terms {
    pub promise: u32,
    pub reliance: u32,
}

/// A signed deal: both sides' terms, each promise within the other's reliance in every phase. It suits any phase table of its sizes.
#[derive(Clone, Copy, PartialEq, Eq, Debug)]
pub struct Deal {
    sizes: Sizes,
    terms: Sides<Terms>,
    ghost described0: { are_terms sizes.phases sizes.signals.first sizes.signals.second terms.first ≡ true },
    ghost described1: { are_terms sizes.phases sizes.signals.second sizes.signals.first terms.second ≡ true },
    ghost kept0: { Inside width sizes.phases terms.first.promise terms.second.reliance },
    ghost kept1: { Inside width sizes.phases terms.second.promise terms.first.reliance },
}
