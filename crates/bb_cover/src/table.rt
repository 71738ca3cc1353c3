//! A machine's table, entry by entry.
ghost use Rattle.std.specs.Prelude.{◌≡◌, ◌↔◌, ℕ, ◌+◌, ◌<◌, ◌≤◌, IsTrue, length, slice_index_or, []};
ghost use Rattle.bb_machine.specs.declared.entry.Entry.{Entry};
ghost use Rattle.bb_machine.specs.Machine.{IsMachine, entry_of, symbols_of};
ghost use Rattle.laws_of_verdicts.specs.Closed.{with_entry};
ghost use Rattle.laws_of_verdicts.specs.NormalForm.{IsEmpty};
ghost use Rattle.bb_cover.specs.UndefinedEntries.{undefined_in, undefined_entries_in, undefined_entries_of};

use bb_machine::{Entry, Machine};

/// Whether a machine is another one with this entry for a state and a symbol.
pub(crate) fn is_with_entry(
    parent: &Machine,
    state: u8,
    symbol: u8,
    entry: Entry,
    child: &Machine,
) -> bool
    requires state { state < length parent.now }
    requires symbol { symbol < symbols_of parent.now }
    ensures same { IsTrue result → child.now ≡ with_entry parent.now state symbol entry }
    ensures only { child.now ≡ with_entry parent.now state symbol entry → IsTrue result }
{
    if child.states() != parent.states() {
        return false;
    }
    if child.symbols() != parent.symbols() {
        return false;
    }
    for row in 0..parent.states() {
        if !is_row(parent, state, symbol, entry, child, row) {
            return false;
        }
    }
    true
}

/// The same of one row.
fn is_row(parent: &Machine, state: u8, symbol: u8, entry: Entry, child: &Machine, row: u8) -> bool
    requires state { state < length parent.now }
    requires symbol { symbol < symbols_of parent.now }
    requires row { row < length parent.now }
    requires states { length child.now ≡ length parent.now }
    requires symbols { symbols_of child.now ≡ symbols_of parent.now }
    ensures same { IsTrue result → (s : ℕ) → s < symbols_of parent.now
        → entry_of child.now row s ≡ entry_of (with_entry parent.now state symbol entry) row s }
    ensures only { child.now ≡ with_entry parent.now state symbol entry → IsTrue result }
{
    for column in 0..parent.symbols() {
        if child.entry(row, column) != entry_with(parent, state, symbol, entry, row, column) {
            return false;
        }
    }
    true
}

/// The entry for a row and a column, with this one for a state and a symbol.
pub(crate) fn entry_with(
    parent: &Machine,
    state: u8,
    symbol: u8,
    entry: Entry,
    row: u8,
    column: u8,
) -> Entry
    requires state { state < length parent.now }
    requires symbol { symbol < symbols_of parent.now }
    requires row { row < length parent.now }
    requires column { column < symbols_of parent.now }
    ensures { result ≡ entry_of (with_entry parent.now state symbol entry) row column }
{
    let own = parent.entry(row, column);
    if row != state {
        return own;
    }
    if column != symbol {
        return own;
    }
    entry
}

/// Whether two machines are the same.
pub(crate) fn is_same(machine: &Machine, other: &Machine) -> bool
    ensures same { IsTrue result → machine.now ≡ other.now }
    ensures only { machine.now ≡ other.now → IsTrue result }
{
    other.show_machine();
    is_with_entry(other, 0, 0, other.entry(0, 0), machine)
}

/// Whether a machine has no entry.
pub(crate) fn is_empty(machine: &Machine) -> bool
    ensures { IsTrue result ↔ IsEmpty machine.now }
{
    for state in 0..machine.states() {
        if !is_row_empty(machine, state) {
            return false;
        }
    }
    true
}

/// The same of one row.
fn is_row_empty(machine: &Machine, state: u8) -> bool
    requires { state < length machine.now }
    ensures empty { IsTrue result → (s : ℕ) → s < symbols_of machine.now
        → entry_of machine.now state s ≡ Entry.Undefined }
    ensures only { IsEmpty machine.now → IsTrue result }
{
    for symbol in 0..machine.symbols() {
        if machine.entry(state, symbol) != Entry::Undefined {
            return false;
        }
    }
    true
}

/// How many `---` a machine has.
pub(crate) fn count_undefined_entries(machine: &Machine) -> usize
    ensures { result ≡ undefined_entries_of machine.now }
{
    let mut count = 0;
    for state in 0..machine.states() {
        count += count_undefined_entries_in(machine, state);
    }
    count
}

/// How many it has for one state.
fn count_undefined_entries_in(machine: &Machine, state: u8) -> usize
    requires { state < length machine.now }
    ensures count { result ≡ undefined_entries_in (slice_index_or machine.now state []) }
    ensures few { result ≤ 10 }
{
    let mut count = 0;
    for symbol in 0..machine.symbols() {
        count += count_undefined(machine.entry(state, symbol));
    }
    count
}

fn count_undefined(entry: Entry) -> usize
    ensures { result ≡ undefined_in entry }
{
    match entry {
        Entry::Undefined => 1,
        Entry::Go { .. } => 0,
    }
}
