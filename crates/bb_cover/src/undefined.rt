//! A `---` of a machine, and whether it is one of several.
ghost use Rattle.std.specs.Prelude.{◌≡◌, ◌≢◌, ◌↔◌, ℕ, ◌<◌, false, IsTrue, length};
ghost use Rattle.bb_machine.specs.declared.entry.Entry.{Entry};
ghost use Rattle.bb_machine.specs.Machine.{entry_of, symbols_of};
ghost use Rattle.laws_of_verdicts.specs.UndefinedEntry.{HasOtherUndefined};
ghost use Rattle.bb_cover.specs.UndefinedEntries.{IsOtherUndefined};

use bb_machine::{Entry, Machine};

/// The state and the symbol of an undefined transition.
#[derive(Clone, Copy, Debug, PartialEq, Eq)]
pub(crate) struct UndefinedEntry {
    pub(crate) state: u8,
    pub(crate) symbol: u8,
}

/// Whether a machine has an undefined transition other than this one.
pub(crate) fn has_other_undefined(machine: &Machine, undefined: UndefinedEntry) -> bool
    ensures some { IsTrue result → HasOtherUndefined machine.now undefined.state undefined.symbol }
    ensures none { result ≡ false → HasOtherUndefined machine.now undefined.state undefined.symbol → ⊥ }
{
    for state in 0..machine.states() {
        if has_other_undefined_in(machine, undefined, state) {
            return true;
        }
    }
    false
}

/// The same of one state.
fn has_other_undefined_in(machine: &Machine, undefined: UndefinedEntry, state: u8) -> bool
    requires { state < length machine.now }
    ensures some { IsTrue result → HasOtherUndefined machine.now undefined.state undefined.symbol }
    ensures none { result ≡ false → (s : ℕ) → s < symbols_of machine.now
        → IsOtherUndefined machine.now undefined state s → ⊥ }
{
    for symbol in 0..machine.symbols() {
        if is_other_undefined(machine, undefined, state, symbol) {
            return true;
        }
    }
    false
}

/// Whether a machine's transition for that state and symbol is undefined, and another one.
fn is_other_undefined(machine: &Machine, undefined: UndefinedEntry, state: u8, symbol: u8) -> bool
    requires state { state < length machine.now }
    requires symbol { symbol < symbols_of machine.now }
    ensures { IsTrue result ↔ IsOtherUndefined machine.now undefined state symbol }
{
    if machine.entry(state, symbol) != Entry::Undefined {
        return false;
    }
    if state != undefined.state {
        return true;
    }
    symbol != undefined.symbol
}
