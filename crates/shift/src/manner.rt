use crate::look::Look;
use games::machine::Machine;
use reading::phase_table::PhaseTable;
use reading::records::{Position, Record};

/// How a machine chooses among the next states that it can move to.
#[derive(Clone, Copy, PartialEq, Eq, Debug)]
pub(crate) enum Manner {
    Lowest,
    Highest,
    Kind,
    Worst,
}

/// Every manner.
pub(crate) const MANNERS: [Manner; 4] = [
    Manner::Lowest,
    Manner::Highest,
    Manner::Kind,
    Manner::Worst,
];

/// A next state, and its rank in the table in force.
#[derive(Clone, Copy)]
struct Next {
    state: u16,
    rank: u16,
}

impl Manner {
    /// The machines that choose so.
    pub(crate) fn name(self) -> &'static str {
        match self {
            Manner::Lowest => "that take the lowest next state",
            Manner::Highest => "that take the highest next state",
            Manner::Kind => "that are kind, and take the next state of lowest rank",
            Manner::Worst => "at their worst, which take the next state of highest rank",
        }
    }

    /// Whether a next state is chosen over a lower one.
    fn prefers(self, next: Next, lower: Next) -> bool {
        match self {
            Manner::Lowest => false,
            Manner::Highest => true,
            Manner::Kind => next.rank < lower.rank,
            Manner::Worst => next.rank > lower.rank,
        }
    }

    /// The state that a side's machine moves to; where it stands if it can move nowhere.
    pub(crate) fn choose<M: Machine>(
        self,
        machine: &M,
        table: &PhaseTable,
        record: &[u8],
        look: &Look,
        side: u8,
    ) -> u16 {
        let (own, partner) = (look.signals.own(side), look.signals.partner(side));
        let phase = table.next(look.phase, look.signals.first, look.signals.second);
        let from = look.states.own(side);
        let mut chosen: Option<Next> = None;
        for state in 0..machine.states() {
            if machine.may_move(from, own, partner, state) {
                let rank = rank_at(record, Position { state, phase });
                let next = Next { state, rank };
                if chosen.is_none_or(|lower| self.prefers(next, lower)) {
                    chosen = Some(next);
                }
            }
        }
        chosen.map_or(from, |next| next.state)
    }
}

/// The rank that a record has at a position.
pub(crate) fn rank_at(record: &[u8], at: Position) -> u16 {
    Record::read(record).map_or(u16::MAX, |record| record.rank(at))
}
