ghost use Rattle.std.specs.Prelude.{◌≡◌, Decides};
ghost use Rattle.reading.specs.Sides.{pick};
ghost use Rattle.games.specs.Terms.{are_terms, AreTerms};

use crate::deal::Terms;
use crate::sets::described;
use reading::sizes::Sizes;

impl Terms {
    /// Whether they are as described for a side of a bay of these sizes.
    pub(crate) fn suit(&self, sizes: &Sizes, side: u8) -> bool
        ensures test { result ≡ are_terms sizes.now.phases (pick side sizes.now.signals.first sizes.now.signals.second) (pick side sizes.now.signals.second sizes.now.signals.first) self.now }
        ensures words { Decides result (AreTerms sizes.now.phases (pick side sizes.now.signals.first sizes.now.signals.second) (pick side sizes.now.signals.second sizes.now.signals.first) self.now) }
    {
        described(self.promise, sizes.phases, sizes.signals.own(side))
            && described(self.reliance, sizes.phases, sizes.signals.partner(side))
    }
}
