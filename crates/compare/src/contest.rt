use crate::bays::Bay;
use crate::tally::Tally;
use anyhow::{Result, bail, ensure};
use checking::check::check;
use checking::faults::CheckFault;
use checking::solve::{Workspace, solve};
use drawn::damage::{self, Damage};
use games::machine::Game;
use rival::arena::Arena;
use rival::judging::{Fault, NONE};
use rival::random::Random;
use rival::seat::Seat;
use rival::{judging, lifting};
use std::alloc::{AllocError, Global};

/// A game and what stands around it, as the first solver has them, and as the second does.
#[derive_where(Clone, Copy)]
struct Table<'a, G: Game> {
    game: &'a G,
    bay: &'a Bay,
    seat: &'a Seat<'a>,
}

/// Plays games twice, by each solver and by each checker, and counts the answers that agree.
#[derive(Drop)]
pub struct Contest {
    heap: Global,
    workspace: Workspace,
    pub solved: Tally,
    /// The largest bound of a solved record: how far it is to a goal.
    pub farthest: u16,
    pub checked: Tally,
}

/// What a buffer holds before.
const BEFORE: u8 = 9;

/// A fault in the second checker's words.
fn told(fault: CheckFault) -> Fault {
    Fault {
        number: fault.number().into(),
        place: fault.reading().map_or(NONE, |reading| reading.place()),
        state: fault.state(),
        phase: fault.phase(),
        partner: fault.partner(),
        next: fault.next(),
    }
}

impl Contest {
    pub fn new(heap: Global) -> Result<Contest> {
        Ok(Contest {
            heap,
            workspace: Workspace::new(heap)?,
            solved: Tally::new("solved"),
            farthest: 0,
            checked: Tally::new("ranked"),
        })
    }

    pub fn clear(&mut self) {
        self.solved = Tally::new("solved");
        self.farthest = 0;
        self.checked = Tally::new("ranked");
    }

    /// Draws what stands around a game, and compares what is made of it.
    pub fn play<G: Game>(&mut self, random: &mut Random, both: &(G, Arena)) -> Result<()> {
        let (game, arena) = both;
        let bay = Bay::draw(self.heap, random, arena)?;
        let seat = Seat::new(self.heap, arena, bay.bytes.as_slice(), bay.numbers())?;
        let table = Table {
            game,
            bay: &bay,
            seat: &seat,
        };
        let sizes = (arena.states, seat.phases(), arena.own);
        let drawn = damage::draw(self.heap, random, sizes)?;
        self.play_check(&table, drawn.as_slice())?;
        let solved = self.play_solve(random, &table)?;
        for damage in Damage::ALL {
            let mut record = solved.as_ref().unwrap_or(&drawn).clone()?;
            damage.apply(random, &mut record)?;
            self.play_check(&table, record.as_slice())?;
        }
        Ok(())
    }

    /// Compares bound or refusal, and the whole buffer, whose record comes back.
    fn play_solve<G: Game>(
        &mut self,
        random: &mut Random,
        table: &Table<'_, G>,
    ) -> Result<Option<Vec<u8>>> {
        let bay = table.bay;
        let mut buffer = room(self.heap, random, table.seat)?;
        let before = buffer.clone()?;
        let second = lifting::solve(self.heap, table.seat, buffer.len())?;
        let record = buffer.as_mut_slice();
        let room = &mut self.workspace;
        let first = solve(room, table.game, &bay.table, &bay.deal, bay.side, record);
        match (first, second) {
            (Ok(bound), Ok(solved)) => {
                ensure!(bound == solved.bound, "solving differs in the bound");
                ensure!(
                    buffer.as_slice() == solved.bytes.as_slice(),
                    "solving differs in the record"
                );
                self.solved.add(Ok(bound));
                self.farthest = self.farthest.max(bound);
                Ok(Some(buffer))
            }
            (Err(fault), Err(number)) => {
                ensure!(
                    u16::from(fault.number()) == number,
                    "solving differs in the refusal"
                );
                ensure!(
                    buffer.as_slice() == before.as_slice(),
                    "solving refuses and writes"
                );
                self.solved.add(Err(number));
                Ok(None)
            }
            _ => bail!("solving differs: one refuses"),
        }
    }

    /// Compares bound or fault.
    fn play_check<G: Game>(&mut self, table: &Table<'_, G>, record: &[u8]) -> Result<()> {
        let bay = table.bay;
        let first = check(table.game, &bay.table, &bay.deal, bay.side, record).map_err(told);
        let second = judging::check(table.seat, record);
        ensure!(first == second, "checking differs");
        self.checked.add(first.map_err(|fault| fault.number));
        Ok(())
    }
}

/// A buffer for a record, seldom of another length.
fn room(heap: Global, random: &mut Random, seat: &Seat<'_>) -> Result<Vec<u8>, AllocError> {
    let mut length = 4 + 3 * seat.places();
    if random.once_in(60) {
        length = usize::from(random.up_to(100));
    }
    let mut buffer = Vec::new(heap);
    buffer.resize(length, BEFORE)?;
    Ok(buffer)
}
