use crate::made::Known;
use crate::proposals::Proposal;
use drawn::{damage, draws};
use games::deal::Terms;
use reading::sides::Sides;
use rival::lifting;
use rival::random::Random;
use rival::seat::Seat;
use std::alloc::{AllocError, Global};

/// The most tables and deals that are drawn for two games.
const TRIES: u16 = 40;

/// So many offers to which both sides can agree are enough.
const MOST: usize = 3;

/// Offers of solved records, from which the offers to a cell are made.
#[derive(Drop)]
pub struct Plans {
    pub offers: Vec<Proposal>,
    /// Whether both sides can agree to them.
    pub agreed: bool,
}

impl Plans {
    /// One of them.
    pub fn any(&self, random: &mut Random) -> Option<&Proposal> {
        let last = u16::try_from(self.offers.len())
            .unwrap_or(0)
            .saturating_sub(1);
        self.offers.get(usize::from(random.up_to(last)))
    }
}

/// A set of signals for each phase that is not empty: often one signal, and no others than those of so many.
fn sets(random: &mut Random, phases: u8, signals: u8) -> u32 {
    let last = signals.clamp(1, 4) - 1;
    let mut sets = 0u32;
    for _ in 0..phases {
        let mut set = 1u32 << random.byte_up_to(last);
        for signal in 0..=last {
            if random.once_in(3) {
                set |= 1 << signal;
            }
        }
        sets = sets << 4 | set;
    }
    sets
}

/// Terms that can be signed, and now and then a reliance on more than is promised.
fn terms(random: &mut Random, [phases, first, second]: [u8; 3]) -> Sides<Terms> {
    let promises = [sets(random, phases, first), sets(random, phases, second)];
    let mut more = [0, 0];
    if random.once_in(5) {
        more = [sets(random, phases, first), sets(random, phases, second)];
    }
    let ([promise, other_promise], [more, other_more]) = (promises, more);
    Sides {
        first: Terms {
            promise,
            reliance: other_promise | other_more,
        },
        second: Terms {
            promise: other_promise,
            reliance: promise | more,
        },
    }
}

/// A side's solved record; where it has no controller, one that is drawn, and whether it has one.
fn record(
    heap: Global,
    random: &mut Random,
    seat: &Seat<'_>,
    known: &Known,
) -> Result<(Vec<u8>, bool), AllocError> {
    let solved = lifting::solve(heap, seat, 4 + 3 * seat.places())?;
    match solved {
        Ok(solved) => Ok((solved.bytes, true)),
        Err(_) => {
            let sizes = (known.arena.states, seat.phases(), known.arena.own);
            Ok((damage::draw(heap, random, sizes)?, false))
        }
    }
}

/// An offer of solved records under a table and a deal that are drawn, and whether both sides have controllers.
fn attempt(
    heap: Global,
    random: &mut Random,
    known: Sides<&Known>,
) -> Result<(Proposal, bool), AllocError> {
    let Sides { first, second } = known;
    let phases = 1 + random.byte_up_to(2);
    let sizes = [phases, first.arena.own, first.arena.partner];
    let mut proposal = Proposal {
        table: draws::table(heap, random, sizes)?,
        signed: sizes,
        terms: terms(random, sizes),
        records: Sides {
            first: Vec::new(heap),
            second: Vec::new(heap),
        },
    };
    let (own, kept) = record(heap, random, &proposal.seat(heap, first, 0)?, first)?;
    let (other, other_kept) = record(heap, random, &proposal.seat(heap, second, 1)?, second)?;
    proposal.records = Sides {
        first: own,
        second: other,
    };
    Ok((proposal, kept && other_kept))
}

/// Draws offers to which both sides can agree; where none is found, one to which they cannot.
pub fn draw(heap: Global, random: &mut Random, known: Sides<&Known>) -> Result<Plans, AllocError> {
    let mut offers = Vec::new(heap);
    for _ in 0..TRIES {
        let (offer, agreed) = attempt(heap, random, known)?;
        if agreed {
            offers.push(offer)?;
        }
        if offers.len() == MOST {
            break;
        }
    }
    let agreed = !offers.is_empty();
    if !agreed {
        let (offer, _) = attempt(heap, random, known)?;
        offers.push(offer)?;
    }
    Ok(Plans { offers, agreed })
}
