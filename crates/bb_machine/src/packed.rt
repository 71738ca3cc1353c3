//! The table of a small machine of two symbols in two numbers.
ghost use Rattle.std.specs.Prelude.{◌≡◌, ◌+◌, ◌*◌, ◌/◌, ◌%◌, ◌<◌, ◌≤◌, ◌^◌, ℕ, true, false};
ghost use Rattle.bb_machine.specs.declared.entry.Entry.{Entry};
ghost use Rattle.bb_machine.specs.Entry.{entry_text, step_of, IsEntryOf};
ghost use Rattle.bb_machine.specs.Machine.{Table, text};
ghost use Rattle.bb_machine.specs.Packed.{entry_in_bits, IsPackedEntry, IsTableOf};
ghost use Rattle.bb_machine.specs.Rows.{is_small, IsTable};

use crate::entry::{Dir, Entry, Next, Step};
use std::hint::select_unpredictable;

/// The most states of a small machine: nine bits an entry.
const MOST_STATES: u8 = 7;

/// An entry flips the cell under the head.
pub const FLIP: u64 = 64;

/// An entry moves right.
pub const RIGHT: u64 = 128;

/// An entry goes to no state. It is undefined, or goes to Z.
pub const STOP: u64 = 256;

/// An entry that goes to no state goes to Z.
pub const HALT: u64 = 1;

/// The entries for the symbol 0 and those for the symbol 1, nine bits for each state, the first state lowest:
/// `FLIP`, `RIGHT` and `STOP`, and in the low six bits nine times the next state, or `HALT`.
#[derive(Clone, Copy, Debug)]
pub struct PackedTable {
    zero: u64,
    one: u64,
}

/// Whether the table of so many states and symbols is stored in two numbers.
#[inline(always)]
pub(crate) fn is_small_table(states: u8, symbols: u8) -> bool
    ensures { result ≡ is_small states symbols }
{
    if symbols != 2 {
        return false;
    }
    states <= MOST_STATES
}

/// The nine bits of the entry with this text, without a branch. Nine times the letter of state A is 585, that is
/// -439 modulo 512. Z and its flag make `STOP` and 33, a dash `STOP` and 76 or 140.
#[inline(always)]
fn packed_entry(text: [u8; 3], symbol: u8) -> u64
    requires entry { (e : Entry) × IsEntryOf 7 2 e × (entry_text e ≡ text) }
    requires symbol { symbol < 2 }
    ensures entry { (e : Entry) → IsEntryOf 7 2 e → entry_text e ≡ text
        → (m : ℕ) → IsPackedEntry (m * 512 + result) symbol e }
    ensures small { result < 512 }
{
    let [first, second, third] = text;
    let is_z = u8::from(third == b'Z');
    let flags = u64::from(first.wrapping_add(symbol) % 2 + (second & 2) + is_z);
    let letter = u64::from(third);
    (9 * letter + FLIP * flags + 439) % 512
}

/// The entry that nine bits tell, for a symbol.
#[inline(always)]
fn unpacked_entry(bits: u64, symbol: u8) -> Entry
    requires symbol { symbol < 2 }
    ensures { result ≡ entry_in_bits symbol bits }
{
    let write = (symbol + (bits / FLIP % 2) as u8) % 2;
    let is_right = bits / RIGHT % 2 == 1;
    let dir = if is_right { Dir::R } else { Dir::L };
    if bits / STOP % 2 == 0 {
        return Entry::Go {
            write,
            dir,
            next: Next::State((bits % 64 / 9) as u8),
        };
    }
    if bits % 2 == 0 {
        return Entry::Undefined;
    }
    Entry::Go {
        write,
        dir,
        next: Next::Halt,
    }
}

/// The transition to a state that nine bits tell, for a symbol; none if they tell another entry.
#[inline(always)]
fn unpacked_step(bits: u64, symbol: u8) -> Option<Step>
    requires symbol { symbol < 2 }
    ensures { result ≡ step_of (entry_in_bits symbol bits) }
{
    if bits / STOP % 2 == 1 {
        return None;
    }
    let is_right = bits / RIGHT % 2 == 1;
    Some(Step {
        write: (symbol + (bits / FLIP % 2) as u8) % 2,
        offset: if is_right { 1 } else { -1 },
        state: (bits % 64 / 9) as u8,
    })
}

impl PackedTable {
    /// The table of one state without entries.
    pub(crate) fn blank() -> PackedTable
        ensures zero { result.zero ≡ 256 }
        ensures one { result.one ≡ 256 }
    {
        PackedTable {
            zero: STOP,
            one: STOP,
        }
    }

    /// The table of the machine with this text. Not inlined, since its loop needs many registers.
    #[inline(never)]
    pub(crate) fn read(line: &[u8], states: usize) -> PackedTable
        requires few { states ≤ 7 }
        requires table { (gs : Table) × IsTable states 2 gs × (text gs ≡ line.now) }
        ensures { (gs : Table) → IsTable states 2 gs → text gs ≡ line.now → IsTableOf gs result }
    {
        let mut table = PackedTable { zero: 0, one: 0 };
        for row in (0..states).rev() {
            let text = &line[7 * row..];
            let [first, second, third, fourth, fifth, sixth, ..] = text else {
                unreachable!();
            };
            table.zero = table.zero * 512 + packed_entry([*first, *second, *third], 0);
            table.one = table.one * 512 + packed_entry([*fourth, *fifth, *sixth], 1);
        }
        table
    }

    /// The entry for a state and a symbol.
    #[inline]
    pub(crate) fn entry_at(&self, state: u8, symbol: u8) -> Entry
        requires state { state < 7 }
        requires symbol { symbol < 2 }
        ensures zero { symbol ≡ 0 → result ≡ entry_in_bits 0 (self.now.zero / 2 ^ (9 * state)) }
        ensures one { symbol ≡ 1 → result ≡ entry_in_bits 1 (self.now.one / 2 ^ (9 * state)) }
    {
        let entries = if symbol == 0 { self.zero } else { self.one };
        unpacked_entry(entries >> (9 * state), symbol)
    }

    /// The transition to a state for a state and a symbol, if its entry is one.
    #[inline]
    pub(crate) fn step_at(&self, state: u8, symbol: u8) -> Option<Step>
        requires state { state < 7 }
        requires symbol { symbol < 2 }
        ensures zero { symbol ≡ 0 → result ≡ step_of (entry_in_bits 0 (self.now.zero / 2 ^ (9 * state))) }
        ensures one { symbol ≡ 1 → result ≡ step_of (entry_in_bits 1 (self.now.one / 2 ^ (9 * state))) }
    {
        let entries = if symbol == 0 { self.zero } else { self.one };
        unpacked_step(entries >> (9 * state), symbol)
    }

    /// The entry for a state and a symbol, in the low nine bits. The low six bits of `state` are nine times
    /// the state. `SELECTS` chooses without a branch on the symbol: faster in short runs, slower in long ones.
    #[inline(always)]
    pub fn entry<const SELECTS: bool>(&self, state: u64, is_one: bool) -> u64
        ensures zero { is_one ≡ false → result ≡ self.now.zero / 2 ^ (state % 64) }
        ensures one { is_one ≡ true → result ≡ self.now.one / 2 ^ (state % 64) }
    {
        let entries = if SELECTS {
            select_unpredictable(is_one, self.one, self.zero)
        } else if is_one {
            self.one
        } else {
            self.zero
        };
        entries >> (state & 63)
    }
}
