//! The states and symbols used by a machine.
ghost use Rattle.std.specs.Prelude.{◌≡◌, ℕ, ◌<◌, ◌≤◌, length};
ghost use Rattle.bb_machine.specs.Entry.{IsEntryOf};
ghost use Rattle.bb_machine.specs.Machine.{Table, symbols_of};
ghost use Rattle.laws_of_verdicts.specs.Walk.{Uses};
ghost use Rattle.bb_cover.specs.Used.{NeedsEntry, NeedsRow};

use bb_machine::{Entry, MAX_STATES, MAX_SYMBOLS, Machine, Next};

/// How many states and symbols, from the first on, a machine uses.
#[derive(Clone, Copy, Debug)]
pub(crate) struct Used {
    pub(crate) states: u8,
    pub(crate) symbols: u8,
}

impl Used {
    /// Adds an entry with its state and symbol.
    fn take_in(&mut self, state: u8, symbol: u8, entry: Entry)
        requires state { state < MAX_STATES }
        requires symbol { symbol < MAX_SYMBOLS }
        requires entry { IsEntryOf MAX_STATES MAX_SYMBOLS entry }
        ensures states { self.old.states ≤ self.new.states }
        ensures symbols { self.old.symbols ≤ self.new.symbols }
        ensures needs { NeedsEntry self.new.states self.new.symbols state symbol entry }
        ensures least { (n k : ℕ) → NeedsEntry n k state symbol entry → self.old.states ≤ n
            → self.old.symbols ≤ k → (self.new.states ≤ n) × (self.new.symbols ≤ k) }
        ensures few { self.old.states ≤ MAX_STATES → self.new.states ≤ MAX_STATES }
        ensures few_symbols { self.old.symbols ≤ MAX_SYMBOLS → self.new.symbols ≤ MAX_SYMBOLS }
    {
        let Entry::Go { write, next, .. } = entry else {
            return;
        };
        self.symbols = self.symbols.max(write + 1).max(symbol + 1);
        self.states = self.states.max(state + 1);
        if let Next::State(to) = next {
            self.states = self.states.max(to + 1);
        }
    }

    /// Takes in the entries for one state.
    fn take_in_row(&mut self, machine: &Machine, state: u8)
        requires { state < length machine.now }
        ensures states { self.old.states ≤ self.new.states }
        ensures symbols { self.old.symbols ≤ self.new.symbols }
        ensures needs { NeedsRow self.new.states self.new.symbols machine.now state }
        ensures least { (n k : ℕ) → NeedsRow n k machine.now state → self.old.states ≤ n
            → self.old.symbols ≤ k → (self.new.states ≤ n) × (self.new.symbols ≤ k) }
        ensures few { self.old.states ≤ MAX_STATES → self.new.states ≤ MAX_STATES }
        ensures few_symbols { self.old.symbols ≤ MAX_SYMBOLS → self.new.symbols ≤ MAX_SYMBOLS }
    {
        for symbol in 0..machine.symbols() {
            let entry = machine.entry(state, symbol);
            self.take_in(state, symbol, entry);
        }
    }
}

/// As many as a machine uses.
pub(crate) fn count_used(machine: &Machine) -> Used
    ensures uses { Uses machine.now result.states result.symbols }
    ensures states { result.states ≤ MAX_STATES }
    ensures symbols { result.symbols ≤ MAX_SYMBOLS }
{
    let mut used = Used {
        states: 1,
        symbols: 1,
    };
    for state in 0..machine.states() {
        used.take_in_row(machine, state);
    }
    used
}
