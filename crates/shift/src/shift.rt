use crate::log::{Heard, Log};
use crate::look::Look;
use crate::manner::{Manner, rank_at};
use crate::setting::Setting;
use crate::tables::Tables;
use crate::words::Refused;
use anyhow::Result;
use cell::calls::{Answer, Call, Question, Report};
use games::machine::Machine;
use games::sheet_machine::SheetMachine;
use games::watched::Watched;
use reading::records::Position;
use reading::sides::Sides;

/// A shift that is being played.
#[derive(Drop)]
struct Shift<'a> {
    setting: &'a Setting,
    manner: Manner,
    log: Log<'a>,
    look: Look,
    // whether the solved tables are in force
    better: bool,
    // whether the slow tables were tried again since then
    tried: bool,
    longest: Sides<u32>,
    bounds: Sides<u16>,
}

/// The larger number of each side.
fn larger<T: Ord + Copy>(x: Sides<T>, y: Sides<T>) -> Sides<T> {
    Sides {
        first: x.first.max(y.first),
        second: x.second.max(y.second),
    }
}

impl<'a> Shift<'a> {
    /// What both sides' machines report next.
    fn next(&self) -> Report {
        let Setting {
            games,
            table,
            slow,
            solved,
            ..
        } = self.setting;
        let tables = if self.better { solved } else { slow };
        let (look, manner) = (&self.look, self.manner);
        Report {
            states: Sides {
                first: manner.choose(&games.first, table, tables.record(0), look, 0),
                second: manner.choose(&games.second, table, tables.record(1), look, 1),
            },
        }
    }

    /// The lowest state that the lift cannot move to.
    fn impossible(&self) -> u16 {
        let Look {
            states,
            signals,
            ..
        } = self.look;
        let lift: &Watched<SheetMachine> = &self.setting.games.first;
        for state in 0..lift.states() {
            if !lift.may_move(states.first, signals.first, signals.second, state) {
                return state;
            }
        }
        lift.states()
    }

    /// Puts a call, and prints what came of it if it was refused.
    fn put(&mut self, rt: &impl Print, what: &str, call: Call) -> Result<bool> {
        let Heard { answer, look } = self.log.put(call)?;
        let kept = if look == self.look {
            "nothing changed"
        } else {
            "but something changed"
        };
        self.look = look;
        match answer {
            Answer::Offered(Err(fault)) | Answer::Reported(Err(fault)) => {
                println!(rt; "  {what}: {}; {kept}", Refused(fault))?;
                Ok(false)
            }
            Answer::Offered(Ok(bounds)) => {
                self.bounds = larger(self.bounds, bounds);
                println!(rt;
                    "  {what}: accepted, lift at a goal in at most {} ticks, shuttle in at most {}",
                    bounds.first, bounds.second
                )?;
                Ok(true)
            }
            _ => Ok(true),
        }
    }

    /// Begins a shift: a report comes too early, and the slow tables come into force.
    fn begin(
        rt: &impl Print,
        setting: &'a Setting,
        bay: &'a [u8],
        manner: Manner,
    ) -> Result<Shift<'a>> {
        println!(rt; "\na shift with machines {}", manner.name())?;
        let mut log = Log::new(setting.heap, bay);
        let look = log.put(Call::Ask(Question::States))?.look;
        let mut shift = Shift {
            setting,
            manner,
            log,
            look,
            better: false,
            tried: false,
            longest: Sides {
                first: 0,
                second: 0,
            },
            bounds: Sides {
                first: 0,
                second: 0,
            },
        };
        let early = Report {
            states: look.states,
        };
        shift.put(rt, "a report before there is a table", Call::Report(early))?;
        shift.offer(rt, "the first table", &setting.slow)?;
        println!(rt; "  start: {}", shift.look)?;
        Ok(shift)
    }

    /// Offers tables, and says whether they came into force.
    fn offer(&mut self, rt: &impl Print, what: &str, tables: &Tables) -> Result<bool> {
        let Setting { table, deal, .. } = self.setting;
        self.put(rt, what, tables.offer(*table, *deal)?)
    }

    /// Offers the solved tables, and once they are in force a report and a table that must be refused.
    fn improve(&mut self, rt: &impl Print) -> Result<()> {
        let setting = self.setting;
        self.better = self.offer(rt, "a better table", &setting.solved)?;
        if self.better {
            let mut report = self.next();
            report.states.first = self.impossible();
            self.put(rt, "a report that the lift jumped", Call::Report(report))?;
            let broken = setting.solved.broken(setting.heap)?;
            self.offer(rt, "a table with a broken byte", &broken)?;
        }
        Ok(())
    }

    /// Whether a side's slow table would let it wait longer than it is told now.
    fn rises(&self, side: u8) -> bool {
        let at = Position {
            state: self.look.states.own(side),
            phase: 0,
        };
        rank_at(self.setting.slow.record(side), at) > self.look.ranks.own(side)
    }

    /// Offers the slow tables again, where they must be refused.
    fn try_slow(&mut self, rt: &impl Print) -> Result<()> {
        if self.better && !self.tried && (self.rises(0) || self.rises(1)) {
            self.tried = true;
            let setting = self.setting;
            self.offer(rt, "the first table again", &setting.slow)?;
        }
        Ok(())
    }

    /// Both machines move, and report where they came to.
    fn tick(&mut self, rt: &impl Print, tick: u16) -> Result<()> {
        let report = self.next();
        if self.put(rt, "a report of possible moves", Call::Report(report))? {
            self.longest = larger(self.longest, self.look.waits);
            println!(rt; "  tick {tick}: {}", self.look)?;
        }
        Ok(())
    }

    /// Sums a shift up.
    fn close(&self, rt: &impl Print, ticks: u16) -> Result<()> {
        let Sides { first, second } = self.longest;
        let most = self.bounds.first.max(self.bounds.second);
        let word = if first.max(second) <= u32::from(most) {
            "no wait was above the largest bound"
        } else {
            "a wait was above the largest bound"
        };
        println!(rt;
            "  {ticks} ticks: the lift waited {first} at the longest, the shuttle {second}; {word}, {most}"
        )?;
        Ok(())
    }
}

/// Plays a shift and prints it.
pub(crate) fn play(rt: &impl Print, bay: &[u8], setting: &Setting, manner: Manner) -> Result<()> {
    let mut shift = Shift::begin(rt, setting, bay, manner)?;
    let ticks = setting.ticks();
    for tick in 1..=ticks {
        if tick > ticks / 3 && !shift.better {
            shift.improve(rt)?;
        }
        shift.try_slow(rt)?;
        shift.tick(rt, tick)?;
    }
    shift.close(rt, ticks)
}
