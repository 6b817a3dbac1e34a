pub mod sheets;

ghost use Rattle.std.specs.Prelude.{◌/◌, ◌%◌, ◌≡◌, MatchResult, OnOk};
ghost use Rattle.reading.specs.Faults.{told};
ghost use Rattle.reading.specs.RuleSheets.{automaton_in, automaton_of, blank, rule_fault};
ghost use Rattle.games.specs.Layers.{fitting, watched, product, watch_marks};
ghost use Rattle.games.specs.Runs.{Paired};
ghost use Rattle.games.specs.Products.{watched_lawful};

use crate::machine::{Game, Machine};
use reading::faults::ReadFault;
use reading::rule_sheet::{Pair, RuleSheet, can_watch};

/// Any machine watched by an automaton that reads the labels of the states entered.
#[derive(Drop)]
pub struct Watched<M: Machine + Drop> {
    below: M,
    rule: RuleSheet,
}

impl<M: Machine + Drop> Watched<M> {
    /// The machine with one automaton state, nothing accepting, nothing forbidden.
    pub fn new(below: M) -> Watched<M>
        ensures below { result.below ≡ below }
        ensures rule { automaton_of result.rule ≡ blank }
    {
        Watched {
            below,
            rule: RuleSheet::new(),
        }
    }

    /// The automaton in force: a blank one where the product would be too large.
    fn in_force(&self) -> RuleSheet
        ensures { automaton_of result ≡ fitting (M.Machine.meaning self.now.below) (automaton_of self.now.rule) }
    {
        if can_watch(self.below.states(), self.rule.states()) {
            self.rule
        } else {
            RuleSheet::new()
        }
    }

    /// A state as the state below and what the automaton in force has read.
    pub fn pair(&self, state: u16) -> Pair
        ensures below { result.below ≡ state / (fitting (M.Machine.meaning self.now.below) (automaton_of self.now.rule)).states }
        ensures read { result.read ≡ state % (fitting (M.Machine.meaning self.now.below) (automaton_of self.now.rule)).states }
    {
        self.in_force().pair(state)
    }

    /// Takes over the automaton of a rule sheet; on a refusal it stays as it was.
    pub fn watch(&mut self, bytes: &[u8]) -> Result<(), ReadFault>
        ensures first { told result ≡ rule_fault (M.Machine.meaning self.old.below).states bytes.now }
        ensures below { self.new.below ≡ self.old.below }
        ensures value { MatchResult result (λ _. automaton_of self.new.rule ≡ automaton_in bytes.now) (λ _. self.new ≡ self.old) }
        ensures means { OnOk result (watched (M.Machine.meaning self.new.below) (automaton_of self.new.rule) ≡ product (M.Machine.meaning self.old.below) (automaton_in bytes.now)) }
        ensures runs { OnOk result (Paired (M.Machine.meaning self.old.below) (automaton_in bytes.now)) }
    {
        let states = self.below.states();
        self.rule = RuleSheet::read(bytes, states)?;
        Ok(())
    }
}

impl<M: Machine + Drop> Machine for Watched<M> {
    ghost meaning = { λ x. watched (M.Machine.meaning x.below) (automaton_of x.rule) };

    ghost lawful = { λ x. watched_lawful _ _ (M.Machine.lawful x.below) (record { some_states = x.rule.some_states; few_states = x.rule.few_states; starts = x.rule.starts; closed = x.rule.closed }) };

    fn states(&self) -> u16 {
        let rule = self.in_force();
        self.below.states() * u16::from(rule.states())
    }

    fn own(&self) -> u8 {
        self.below.own()
    }

    fn partner(&self) -> u8 {
        self.below.partner()
    }

    fn start(&self) -> u16 {
        let rule = self.in_force();
        let start = self.below.start();
        let read = rule.next(rule.start(), self.below.label(start));
        start * u16::from(rule.states()) + u16::from(read)
    }

    fn label(&self, state: u16) -> u8 {
        self.below.label(self.pair(state).below)
    }

    fn may_move(&self, state: u16, own: u8, partner: u8, next: u16) -> bool {
        let rule = self.in_force();
        let (from, to) = (rule.pair(state), rule.pair(next));
        // the label is asked for where there is a move, as seldom as that is
        self.below.may_move(from.below, own, partner, to.below)
            && to.read == rule.next(from.read, self.below.label(to.below))
    }
}

impl<M: Machine + Drop> Game for Watched<M> {
    ghost marks = { λ x. watch_marks (M.Machine.meaning x.below) (automaton_of x.rule) };

    fn forbidden(&self, state: u16) -> bool {
        state >= self.states() || self.in_force().forbidden(self.label(state))
    }

    fn goal(&self, state: u16) -> bool {
        let rule = self.in_force();
        state < self.states() && rule.accepting(rule.pair(state).read)
    }
}
