use crate::ground::Ground;
use anyhow::Result;
use drawn::draws::{self, Size};
use games::lift::Lift;
use games::machine::Machine;
use games::marked::Marked;
use games::sheet_machine::SheetMachine;
use games::watched::Watched;
use rival::arena::Arena;
use rival::random::Random;
use std::alloc::{AllocError, Global};

/// A machine as the second checker has it, and as the log has it.
#[derive(Drop)]
pub struct Known {
    pub arena: Arena,
    pub ground: Ground,
}

/// A machine made by its public calls, and the same machine as it is known.
#[derive(Drop)]
pub struct Made<G: Drop> {
    pub game: G,
    pub known: Known,
}

/// What a drawn machine is to be like.
#[derive(Clone, Copy)]
pub struct Wanted {
    pub size: Size,
    /// Whether its states are gone through one by one, round and round past a single goal.
    pub ring: bool,
}

/// A machine that can be drawn: the same for the same numbers.
pub trait Drawn: Machine + Drop {
    fn draw(heap: Global, random: &mut Random, wanted: Wanted) -> Result<Made<Self>>;
}

impl Drawn for SheetMachine {
    fn draw(heap: Global, random: &mut Random, wanted: Wanted) -> Result<Made<SheetMachine>> {
        let bytes = if wanted.ring {
            ring(heap, wanted.size)?
        } else {
            draws::sheet(heap, random, wanted.size)?
        };
        let mut game = SheetMachine::new(heap)?;
        game.load(bytes.as_slice())?;
        Ok(Made {
            game,
            known: Known {
                arena: Arena::of_sheet(heap, bytes.as_slice())?,
                ground: Ground::of_sheet(heap, bytes.as_slice())?,
            },
        })
    }
}

impl Drawn for Lift {
    fn draw(heap: Global, random: &mut Random, wanted: Wanted) -> Result<Made<Lift>> {
        let (floors, _) = draws::lift(random);
        let partner = wanted.size.partner.clamp(2, 4);
        Ok(Made {
            game: Lift::new(floors, partner)?,
            known: Known {
                arena: Arena::lift(heap, floors, partner)?,
                ground: Ground::lift(heap, floors, partner)?,
            },
        })
    }
}

impl<M: Drawn> Drawn for Marked<M> {
    fn draw(heap: Global, random: &mut Random, wanted: Wanted) -> Result<Made<Marked<M>>> {
        let Made { game: below, known } = M::draw(heap, random, wanted)?;
        let Known { arena, ground } = known;
        let bytes = if wanted.ring {
            last_mark(heap, wanted.size.states)?
        } else {
            draws::marks(heap, random, arena.states)?
        };
        let mut game = Marked::new(below);
        game.mark(bytes.as_slice())?;
        Ok(Made {
            game,
            known: Known {
                arena: arena.marked(heap, bytes.as_slice())?,
                ground: ground.marked(bytes.as_slice()),
            },
        })
    }
}

impl<M: Drawn> Drawn for Watched<M> {
    fn draw(heap: Global, random: &mut Random, wanted: Wanted) -> Result<Made<Watched<M>>> {
        let Made { game: below, known } = M::draw(heap, random, wanted)?;
        let Known { arena, ground } = known;
        let bytes = draws::rule(heap, random, arena.states)?;
        let mut game = Watched::new(below);
        game.watch(bytes.as_slice())?;
        Ok(Made {
            game,
            known: Known {
                arena: arena.watched(heap, bytes.as_slice())?,
                ground: ground.watched(heap, bytes.as_slice())?,
            },
        })
    }
}

/// A sheet whose only moves go from each state to the one after it, and from the last to the first.
fn ring(heap: Global, size: Size) -> Result<Vec<u8>, AllocError> {
    let pairs = u16::from(size.own) * u16::from(size.partner);
    let count = size.states.saturating_mul(pairs);
    let mut bytes = Vec::new(heap);
    bytes.extend_from_slice(&size.states.to_le_bytes())?;
    bytes.extend_from_slice(&[size.own, size.partner, 0, 0])?;
    bytes.extend_from_slice(&count.to_le_bytes())?;
    for _ in 0..size.states {
        bytes.push(0)?;
    }
    for key in 0..count {
        bytes.extend_from_slice(&key.to_le_bytes())?;
    }
    for key in 0..count {
        let after = (key / pairs.max(1)).saturating_add(1);
        let target = if after < size.states { after } else { 0 };
        bytes.extend_from_slice(&target.to_le_bytes())?;
    }
    Ok(bytes)
}

/// A mark sheet whose one goal is the last of so many states.
fn last_mark(heap: Global, states: u16) -> Result<Vec<u8>, AllocError> {
    let last = usize::from(states.saturating_sub(1));
    let mut bytes = Vec::new(heap);
    for place in 0..64 {
        let set = if place == 32 + last / 8 {
            1 << (last % 8)
        } else {
            0
        };
        bytes.push(set)?;
    }
    Ok(bytes)
}
