//! The texts of machines.
ghost use Rattle.std.specs.Prelude.{◌≡◌, ◌+◌, ◌<◌, ◌≤◌, ◌++◌, length};
ghost use Rattle.arrayvec.specs.ArrayVec.{array_vec_len};
ghost use Rattle.bb_machine.specs.Entry.{IsEntryOf, IsNextOf, dir_letter, entry_text, next_letter};
ghost use Rattle.bb_machine.specs.Machine.{symbols_of, text};
ghost use Rattle.bb_machine.specs.declared.machine.TheConstants.{MAX_STATES, MAX_SYMBOLS};
ghost use Rattle.laws_of_verdicts.specs.Closed.{blank_table, with_entry};

use crate::undefined::UndefinedEntry;
use crate::walk::Walk;
use arrayvec::ArrayVec;
use bb_machine::{Dir, Entry, LINE, Machine, Next};

/// The text of a machine.
pub type Text = ArrayVec<u8, LINE>;

/// The text of a machine.
pub(crate) fn text_of(machine: &Machine) -> Text
    ensures { result.items ≡ text machine.now }
{
    let mut words = ArrayVec::new();
    // A machine's text fits: `states` says so.
    let _ = machine.states();
    machine.text_into(&mut words);
    words
}

/// The text of the next machine of a walk, empty at its end.
pub(crate) fn next_text(walk: &Walk) -> Text {
    match walk.top() {
        Some(top) => filled_text(&top.machine, top.undefined, top.asked.entry(top.next)),
        None => ArrayVec::new(),
    }
}

/// The text of a machine with this entry for a state and a symbol.
pub(crate) fn filled_text(machine: &Machine, undefined: UndefinedEntry, entry: Entry) -> Text
    requires state { undefined.state < length machine.now }
    requires symbol { undefined.symbol < symbols_of machine.now }
    ensures { IsEntryOf MAX_STATES MAX_SYMBOLS entry
        → result.items ≡ text (with_entry machine.now undefined.state undefined.symbol entry) }
{
    let row = 3 * machine.symbols() as usize + 1;
    let place = undefined.state as usize * row + 3 * undefined.symbol as usize;
    let own = text_of(machine);
    let (before, from) = own.as_slice().split_at(place);
    let (_, after) = from.split_at(3);
    let mut words: Text = ArrayVec::new();
    append(before, &mut words);
    append(&bytes_of(entry), &mut words);
    append(after, &mut words);
    words
}

/// Appends bytes.
pub(crate) fn append<const CAP: usize>(bytes: &[u8], words: &mut ArrayVec<u8, CAP>)
    requires room { array_vec_len words.old + length bytes.now ≤ CAP }
    ensures appended { words.new.items ≡ words.old.items ++ bytes.now }
    ensures length { array_vec_len words.new ≡ array_vec_len words.old + length bytes.now }
{
    let _room = words.try_extend_from_slice(bytes);
}

/// The text of the machine of the same size with no entry.
pub(crate) fn blank_text(machine: &Machine) -> Text
    ensures { result.items ≡ text (blank_table (length machine.now) (symbols_of machine.now)) }
{
    machine.show_machine();
    let own = text_of(machine);
    let mut words = ArrayVec::new();
    for byte in own.as_slice() {
        words.push(if *byte == b'_' { b'_' } else { b'-' });
    }
    words
}

/// The three bytes of an entry.
pub(crate) fn bytes_of(entry: Entry) -> [u8; 3]
    ensures { IsEntryOf MAX_STATES MAX_SYMBOLS entry → result ≡ entry_text entry }
{
    match entry {
        Entry::Undefined => [b'-', b'-', b'-'],
        Entry::Go { write, dir, next } => [b'0'.wrapping_add(write), letter_of(dir), letter(next)],
    }
}

fn letter_of(dir: Dir) -> u8
    ensures { result ≡ dir_letter dir }
{
    match dir {
        Dir::L => b'L',
        Dir::R => b'R',
    }
}

fn letter(next: Next) -> u8
    ensures { IsNextOf MAX_STATES next → result ≡ next_letter next }
{
    match next {
        Next::State(state) => b'A'.wrapping_add(state),
        Next::Halt => b'Z',
    }
}
