//! A machine: its table of entries, and its text, one line.
ghost use Rattle.std.specs.Prelude.{◌≡◌, ◌+◌, ◌≤◌, ◌<◌, ◌↔◌, List, ◌++◌, length, codes, IfOk, IfErr, IsTrue, Ok};
ghost use Rattle.std.specs.Int.RustNames.{unsigned_abs};
ghost use Rattle.arrayvec.specs.ArrayVec.{array_vec_len};

mod reader;
mod writer;

use crate::entry::{Dir, Entry, Next, Step};
use crate::packed::{PackedTable, is_small_table};
use arrayvec::ArrayVec;
use std::marker::Model;
use thiserror::Error;

/// The most states of a machine. At most 25, since `Z` is the halting state's letter.
pub const MAX_STATES: usize = 25;

/// The most tape symbols of a machine. At most 10, since a symbol is written as one digit.
pub const MAX_SYMBOLS: usize = 10;

/// The bytes of the longest text: three for each entry, and one between groups.
pub const LINE: usize = MAX_STATES * (3 * MAX_SYMBOLS + 1) - 1;

/// The number of slots for one state in a table: a power of two, so a step finds its entry by a shift.
const STRIDE: usize = 16;

const SLOTS: usize = MAX_STATES * STRIDE;

/// A line without a machine. The column is 1 plus the length of the line's longest prefix shared with the
/// text of some machine.
#[derive(Clone, Copy, Debug, PartialEq, Eq, Error)]
#[error("refused at column {column}")]
pub struct Refused {
    /// 1 plus the length of the longest prefix of the line that starts a machine's text.
    pub column: u32,
}

/// The kind of an entry: undefined, with a next state, or into Z.
#[derive(Clone, Copy)]
enum Kind {
    Undefined,
    State,
    Halt,
}

/// An entry in a table, in four bytes. A step finds it without a multiplication, tests one byte of it, and
/// finds the next position by one addition. The other bytes of an undefined entry are unused, and so is the
/// state of an entry into Z.
#[derive(Clone, Copy)]
struct Slot {
    kind: Kind,
    write: u8,
    offset: i8,
    state: u8,
    ghost one_cell: { unsigned_abs offset ≡ 1 },
}

impl Slot {
    ghost use Rattle.bb_machine.specs.declared.entry.Entry.{Entry};
    ghost use Rattle.bb_machine.specs.Entry.{entry_text, step_of, IsEntryOf};
    ghost use Rattle.bb_machine.specs.Column.{BeginsWith};
    ghost use Rattle.bb_machine.specs.Rows.{entry_in};

    fn undefined() -> Slot
        ensures { entry_in result ≡ Entry.Undefined }
    {
        Slot {
            kind: Kind::Undefined,
            write: 0,
            offset: 1,
            state: 0,
        }
    }

    /// Sets the slot to the entry whose text starts the bytes, field by field: that takes fewer instructions
    /// than building a slot and moving it.
    fn set_first(&mut self, bytes: &[u8])
        requires { (e : Entry) × IsEntryOf MAX_STATES MAX_SYMBOLS e × BeginsWith bytes.now (entry_text e) }
        ensures { (e : Entry) → IsEntryOf MAX_STATES MAX_SYMBOLS e → BeginsWith bytes.now (entry_text e)
            → entry_in self.new ≡ e }
    {
        let [first, second, third, ..] = bytes else {
            return;
        };
        if *first == b'-' {
            self.kind = Kind::Undefined;
            return;
        }
        self.kind = if *third == b'Z' {
            Kind::Halt
        } else {
            Kind::State
        };
        self.write = *first - b'0';
        self.offset = (*second & 2) as i8 - 1;
        self.state = *third - b'A';
    }

    /// The entry in the slot. It takes `&self`, so that after `Machine::step` the kind isn't read again.
    #[inline]
    fn entry(&self) -> Entry
        ensures { result ≡ entry_in self.now }
    {
        let dir = if self.offset < 0 { Dir::L } else { Dir::R };
        match self.kind {
            Kind::Undefined => Entry::Undefined,
            Kind::State => Entry::Go {
                write: self.write,
                dir,
                next: Next::State(self.state),
            },
            Kind::Halt => Entry::Go {
                write: self.write,
                dir,
                next: Next::Halt,
            },
        }
    }

    #[inline]
    fn step(&self) -> Option<Step>
        ensures { result ≡ step_of (entry_in self.now) }
    {
        match self.kind {
            Kind::State => Some(Step {
                write: self.write,
                offset: self.offset,
                state: self.state,
            }),
            Kind::Undefined | Kind::Halt => None,
        }
    }
}

/// A Turing machine. A small table is two numbers; another is an array, each row at a multiple of `STRIDE`.
#[derive(Drop)]
pub struct Machine {
    slots: [Slot; SLOTS],
    packed: PackedTable,
    state_count: u8,
    symbol_count: u8,
}

impl Model for Machine {
    ghost use Rattle.std.specs.Prelude.{List};
    ghost use Rattle.bb_machine.specs.declared.entry.Entry.{Entry};
    ghost use Rattle.bb_machine.specs.Rows.{table_of, IsStored};

    ghost Value = { List (List Entry) };

    ghost view = { λ m. table_of m.state_count m.symbol_count m.packed m.slots };

    ghost invariant = { λ m. IsStored m.state_count m.symbol_count m.packed
        (table_of m.state_count m.symbol_count m.packed m.slots) };
}

impl Machine {
    ghost use Rattle.bb_machine.specs.declared.entry.Entry.{Entry};
    ghost use Rattle.bb_machine.specs.Entry.{IsEntryOf, step_of};
    ghost use Rattle.bb_machine.specs.Machine.{Table, IsMachine, symbols_of, entry_of, text};
    ghost use Rattle.bb_machine.specs.Column.{IsColumn};
    ghost use Rattle.bb_machine.specs.Packed.{IsTableOf};

    /// The machine of one state and two symbols with no defined entry, `------`.
    pub fn blank() -> Machine
        ensures { text result ≡ codes "------" }
    {
        Machine {
            slots: [Slot::undefined(); SLOTS],
            packed: PackedTable::blank(),
            state_count: 1,
            symbol_count: 2,
        }
    }

    /// The machine with this text, or the column of the first error. The line has nothing beside the text,
    /// not even a carriage return.
    pub fn read(line: &[u8]) -> Result<Machine, Refused>
        ensures found { IfOk result (λ machine. IsMachine machine × (text machine ≡ line.now)) }
        ensures only { (machine : Table) → IsMachine machine → text machine ≡ line.now → result ≡ Ok machine }
        ensures column { IfErr result (λ refused. IsColumn line.now refused.column) }
        ensures bounded { IfErr result (λ refused. refused.column ≤ LINE + 1) }
    {
        let mut machine = Machine::blank();
        match machine.read_in_place(line) {
            Ok(()) => Ok(machine),
            Err(refused) => Err(refused),
        }
    }

    /// Appends the machine's text.
    pub fn text_into<const CAP: usize>(&self, out: &mut ArrayVec<u8, CAP>)
        requires { array_vec_len out.old + length (text self.now) ≤ CAP }
        ensures appended { out.new.items ≡ out.old.items ++ text self.now }
        ensures machine { IsMachine self.now }
        ensures short { length (text self.now) ≤ LINE }
    {
        let states = self.states();
        self.group_into(0, out);
        for state in 1..states {
            out.push(b'_');
            self.group_into(state, out);
        }
    }

    /// The entry for a state and a symbol, both counted from 0.
    #[inline]
    pub fn entry(&self, state: u8, symbol: u8) -> Entry
        requires in_states { state < length self.now }
        requires in_symbols { symbol < symbols_of self.now }
        ensures value { result ≡ entry_of self.now state symbol }
        ensures named { IsEntryOf (length self.now) (symbols_of self.now) result }
        ensures machine { IsMachine self.now }
    {
        if is_small_table(self.state_count, self.symbol_count) {
            return self.packed.entry_at(state, symbol);
        }
        self.slots[state as usize * STRIDE + symbol as usize].entry()
    }

    /// The transition for a state and a symbol; none if it is undefined or goes to Z.
    #[inline]
    pub fn step(&self, state: u8, symbol: u8) -> Option<Step>
        requires in_states { state < length self.now }
        requires in_symbols { symbol < symbols_of self.now }
        ensures value { result ≡ step_of (entry_of self.now state symbol) }
        ensures named { IsEntryOf (length self.now) (symbols_of self.now) (entry_of self.now state symbol) }
        ensures machine { IsMachine self.now }
    {
        if is_small_table(self.state_count, self.symbol_count) {
            return self.packed.step_at(state, symbol);
        }
        self.slots[state as usize * STRIDE + symbol as usize].step()
    }

    /// Whether the table is small: two symbols and at most seven states.
    #[inline(always)]
    pub fn is_small(&self) -> bool
        ensures { IsTrue result ↔ ((symbols_of self.now ≡ 2) × (length self.now ≤ 7)) }
    {
        is_small_table(self.state_count, self.symbol_count)
    }

    /// The small table, as it is stored.
    #[inline(always)]
    pub fn packed(&self) -> PackedTable
        requires symbols { symbols_of self.now ≡ 2 }
        requires states { length self.now ≤ 7 }
        ensures { IsTableOf self.now result }
    {
        self.packed
    }

    /// States that the table is a machine's, for proofs. It does nothing at run time.
    #[inline(always)]
    pub fn show_machine(&self)
        ensures machine { IsMachine self.now }
    {
        let _ = &self.state_count;
    }

    /// How many states the machine has, the halting state not counted.
    #[inline]
    pub fn states(&self) -> u8
        ensures value { result ≡ length self.now }
        ensures machine { IsMachine self.now }
        ensures short { length (text self.now) ≤ LINE }
    {
        self.state_count
    }

    /// How many tape symbols the machine has.
    #[inline]
    pub fn symbols(&self) -> u8
        ensures value { result ≡ symbols_of self.now }
        ensures machine { IsMachine self.now }
        ensures short { length (text self.now) ≤ LINE }
    {
        self.symbol_count
    }
}
