ghost use Rattle.std.specs.Prelude.{◌+◌, ◌*◌, ◌-◌, ◌^◌, ◌<◌, ◌≤◌, ◌≡◌, ◌++◌, ℕ, true, false, length, map, take, slice_index, vec_capacity, vec_len};
ghost use Rattle.games.specs.Sets.{width};
ghost use Rattle.checking.specs.Searching.{promises};

use crate::search::MOST;
use std::alloc::{AllocError, Global};

/// The promises of a side, ascending.
#[derive(Drop)]
pub(crate) struct Promises {
    // room for as many as a search takes candidates, so that searching takes no memory
    numbers: Vec<u32>,
    ghost room: { 65535 ≤ vec_capacity numbers },
}

/// Adds a unit to every number.
fn raise(numbers: &mut Vec<u32>, unit: u32)
    requires { (i : ℕ) → i < vec_len numbers.old → unit + slice_index numbers.old.items i < 4294967296 }
    ensures each { (i : ℕ) → i < vec_len numbers.old → slice_index numbers.new.items i ≡ unit + slice_index numbers.old.items i }
    ensures len { vec_len numbers.new ≡ vec_len numbers.old }
    ensures room { vec_capacity numbers.new ≡ vec_capacity numbers.old }
{
    for place in 0..numbers.len() {
        numbers[place] += unit;
    }
}

/// Appends the first so many numbers, each by so much more.
fn append_more(numbers: &mut Vec<u32>, many: usize, more: u32)
    requires many { many ≤ vec_len numbers.old }
    requires room { vec_len numbers.old + many ≤ vec_capacity numbers.old }
    requires fits { (i : ℕ) → i < many → more + slice_index numbers.old.items i < 4294967296 }
    ensures items { numbers.new.items ≡ numbers.old.items ++ map (λ x. more + x) (take many numbers.old.items) }
    ensures room { vec_capacity numbers.new ≡ vec_capacity numbers.old }
{
    // a loop, since a chain would hold the list that it adds to
    for place in 0..many {
        let number = numbers[place] + more;
        numbers.push_reserved(number);
    }
}

/// What signal 0 of a phase counts in a promise.
fn unit(phase: u8) -> u32
    requires { phase < 8 }
    ensures { result ≡ 2 ^ (width * phase) }
{
    1 << (4 * u32::from(phase))
}

/// How many sets of signals there are but the empty one.
pub(crate) fn sets(signals: u8) -> u32
    requires { signals ≤ 4 }
    ensures { result ≡ 2 ^ signals - 1 }
{
    (1 << signals) - 1
}

/// Makes promises over so many phases those over one more: each with the first set of the new phase, each with the second, and so on.
fn add_phase(numbers: &mut Vec<u32>, phase: u8, signals: u8)
    requires phase { phase < 8 }
    requires some { 1 ≤ signals }
    requires few { signals ≤ 4 }
    requires listed { numbers.old.items ≡ promises phase signals }
    requires room { vec_len numbers.old * (2 ^ signals - 1) ≤ vec_capacity numbers.old }
    ensures listed { numbers.new.items ≡ promises (phase + 1) signals }
    ensures room { vec_capacity numbers.new ≡ vec_capacity numbers.old }
{
    let unit = unit(phase);
    let many = numbers.len();
    raise(numbers, unit);
    for set in 1..sets(signals) {
        append_more(numbers, many, set * unit);
    }
}

impl Promises {
    /// Room for as many as a search takes candidates.
    pub(crate) fn new(heap: Global) -> Result<Promises, AllocError> {
        Ok(Promises {
            numbers: Vec::with_capacity(heap, MOST)?,
        })
    }

    /// The numbers.
    pub(crate) fn numbers(&self) -> &[u32]
        ensures { result.now ≡ self.now.numbers.items }
    {
        self.numbers.as_slice()
    }

    /// Lists the promises over so many phases and signals. Whether there are no more than a search takes.
    pub(crate) fn list(&mut self, phases: u8, signals: u8) -> bool
        requires phases { phases ≤ 8 }
        requires some { 1 ≤ signals }
        requires few { signals ≤ 4 }
        ensures listed { result ≡ true → self.new.numbers.items ≡ promises phases signals }
        ensures few { result ≡ true → length self.new.numbers.items ≤ 65535 }
        ensures many { result ≡ false → 65535 < length (promises phases signals) }
    {
        self.numbers.clear();
        // the one promise over no phases
        self.numbers.push_reserved(0);
        for phase in 0..phases {
            if self.numbers.len() * sets(signals) as usize > MOST {
                return false;
            }
            add_phase(&mut self.numbers, phase, signals);
        }
        true
    }
}
