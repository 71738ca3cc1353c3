//! Machines made from another one, by its text.
ghost use Rattle.std.specs.Prelude.{◌≡◌, ◌<◌, length};
ghost use Rattle.bb_machine.specs.Entry.{IsEntryOf};
ghost use Rattle.bb_machine.specs.Machine.{symbols_of};
ghost use Rattle.laws_of_verdicts.specs.Closed.{blank_table, with_entry};

use crate::text::{blank_text, filled_text};
use crate::undefined::UndefinedEntry;
use bb_machine::{Entry, Machine};

/// The machine of the same size with no entry.
pub(crate) fn blank_like(machine: &Machine) -> Machine
    ensures { result ≡ blank_table (length machine.now) (symbols_of machine.now) }
{
    machine.show_machine();
    match Machine::read(blank_text(machine).as_slice()) {
        Ok(blank) => blank,
        Err(_) => unreachable!(),
    }
}

/// The machine with this entry for a state and a symbol.
pub(crate) fn filled(machine: &Machine, undefined: UndefinedEntry, entry: Entry) -> Machine
    requires state { undefined.state < length machine.now }
    requires symbol { undefined.symbol < symbols_of machine.now }
    requires named { IsEntryOf (length machine.now) (symbols_of machine.now) entry }
    ensures { result ≡ with_entry machine.now undefined.state undefined.symbol entry }
{
    machine.show_machine();
    match Machine::read(filled_text(machine, undefined, entry).as_slice()) {
        Ok(filled) => filled,
        Err(_) => unreachable!(),
    }
}
