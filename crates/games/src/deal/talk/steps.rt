ghost use Rattle.std.specs.Prelude.{◌≡◌, is_ok, Decides, MatchResult};
ghost use Rattle.games.specs.Terms.{AreTerms};
ghost use Rattle.games.specs.Deals.{told, told_gap, terms_fault, gap_at, first_gap, Agree, Bidden, Replied, Signed};

use crate::deal::talk::{Bid, Reply, Talk, TalkFault};
use crate::deal::{Deal, Terms};
use crate::sets::inside;
use reading::faults::check;
use reading::phase_table::PhaseTable;
use reading::sides::Sides;

/// Checks that neither side promises too much in a phase, side 0 first.
fn check_phase(terms: &Sides<Terms>, phase: u8) -> Result<(), TalkFault>
    ensures { told_gap result ≡ gap_at terms.now.first terms.now.second phase }
{
    let Sides { first, second } = terms;
    let kept0 = inside(first.promise, second.reliance, phase);
    check(kept0, TalkFault::TooFar { phase, side: 0 })?;
    let kept1 = inside(second.promise, first.reliance, phase);
    check(kept1, TalkFault::TooFar { phase, side: 1 })
}

/// Checks phase by phase that neither side promises too much.
fn check_gaps(terms: &Sides<Terms>, phases: u8) -> Result<(), TalkFault>
    ensures first { told_gap result ≡ first_gap phases terms.now.first terms.now.second }
    ensures words { Decides (is_ok result) (Agree phases terms.now.first terms.now.second) }
{
    for phase in 0..phases {
        check_phase(terms, phase)?;
    }
    Ok(())
}

// Each step is a type of its own, with a `close` of its own: no step can be taken twice or out of turn.
impl Talk {
    /// A talk on a table's sizes.
    #[tactic(auto, using(crate::proofs::SizesLaws::same_sizes))]
    pub fn open(table: &PhaseTable) -> Talk
        ensures { result.sizes ≡ table.now.sizes }
    {
        Talk {
            sizes: table.sizes(),
        }
    }

    /// Side 0 bids its terms; refused, the talk stands as it was.
    pub fn bid(self, terms: Terms) -> Result<Bid, (Talk, TalkFault)>
        ensures first { told result ≡ terms_fault self.sizes.phases self.sizes.signals.first self.sizes.signals.second terms }
        ensures value { MatchResult result (λ b. Bidden self terms b) (λ e. e.0 ≡ self) }
        ensures words { Decides (is_ok result) (AreTerms self.sizes.phases self.sizes.signals.first self.sizes.signals.second terms) }
    {
        if !terms.suit(&self.sizes, 0) {
            // beside the talk, which goes back and can stand in one place only
            return Err((self, TalkFault::NotTerms));
        }
        Ok(Bid { talk: self, terms })
    }

    /// Ends the talk with no deal.
    pub fn close(self) {
        let Talk { sizes: _ } = self;
    }
}

impl Bid {
    /// Side 1 replies with its own terms; refused, the bid stands as it was.
    pub fn reply(self, terms: Terms) -> Result<Reply, (Bid, TalkFault)>
        ensures first { told result ≡ terms_fault self.talk.sizes.phases self.talk.sizes.signals.second self.talk.sizes.signals.first terms }
        ensures value { MatchResult result (λ b. Replied self terms b) (λ e. e.0 ≡ self) }
        ensures words { Decides (is_ok result) (AreTerms self.talk.sizes.phases self.talk.sizes.signals.second self.talk.sizes.signals.first terms) }
    {
        if !terms.suit(&self.talk.sizes, 1) {
            return Err((self, TalkFault::NotTerms));
        }
        Ok(Reply { bid: self, terms })
    }

    /// Ends the talk with no deal.
    pub fn close(self) {
        let Bid { talk, terms: _ } = self;
        talk.close();
    }
}

impl Reply {
    /// Signs the two sides' terms; refused, the talk is open again and awaits side 0's bid.
    pub fn sign(self) -> Result<Deal, (Talk, TalkFault)>
        ensures first { told result ≡ first_gap self.bid.talk.sizes.phases self.bid.terms self.terms }
        ensures value { MatchResult result (λ d. Signed self d) (λ e. e.0 ≡ self.bid.talk) }
        ensures words { Decides (is_ok result) (Agree self.bid.talk.sizes.phases self.bid.terms self.terms) }
    {
        let Reply { bid, terms: second } = self;
        let Bid { talk, terms: first } = bid;
        let terms = Sides { first, second };
        if let Err(fault) = check_gaps(&terms, talk.sizes.phases) {
            return Err((talk, fault));
        }
        let Talk { sizes } = talk;
        Ok(Deal { sizes, terms })
    }

    /// Ends the talk with no deal.
    pub fn close(self) {
        let Reply { bid, terms: _ } = self;
        bid.close();
    }
}
