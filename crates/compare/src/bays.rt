use anyhow::Result;
use drawn::draws;
use games::deal::signing::sign;
use games::deal::{Deal, Terms};
use reading::phase_table::PhaseTable;
use reading::sides::Sides;
use rival::arena::Arena;
use rival::random::Random;
use rival::seat::Side;
use std::alloc::Global;

/// What stands around a game: a phase table, a signed deal, and the side that plays.
#[derive(Drop)]
pub struct Bay {
    pub bytes: Vec<u8>,
    pub table: PhaseTable,
    pub deal: Deal,
    pub side: u8,
    terms: Sides<Terms>,
    signed: [u8; 3],
}

impl Bay {
    /// A bay for a game, seldom one of other sizes.
    pub fn draw(heap: Global, random: &mut Random, game: &Arena) -> Result<Bay> {
        let side = if random.once_in(60) {
            random.byte_up_to(255)
        } else {
            random.byte_up_to(1)
        };
        let phases = 1 + random.byte_up_to(7);
        let sizes = if random.once_in(60) {
            draws::sizes(random)
        } else if side == 0 {
            [phases, game.own, game.partner]
        } else {
            [phases, game.partner, game.own]
        };
        let bytes = draws::table(heap, random, sizes)?;
        // a deal is signed on a table, seldom on another than this one
        let signed = if random.once_in(60) {
            draws::sizes(random)
        } else {
            sizes
        };
        let on = draws::table(heap, random, signed)?;
        let terms = draws::terms(random, signed, side);
        Ok(Bay {
            deal: sign(&PhaseTable::parse(on.as_slice())?, terms)?,
            table: PhaseTable::parse(bytes.as_slice())?,
            bytes,
            side,
            terms,
            signed,
        })
    }

    /// The side in numbers.
    pub fn numbers(&self) -> Side {
        let terms = self.terms.own(self.side);
        Side {
            number: self.side,
            promise: terms.promise,
            reliance: terms.reliance,
            signed: self.signed,
        }
    }
}
