//! A configuration in registers.
ghost use Rattle.std.specs.Prelude.{◌≡◌, ◌≢◌, ◌/◌, ◌%◌, ◌^◌, ◌↔◌, IsTrue};
ghost use Rattle.std.specs.Prelude.{bit_and};
ghost use Rattle.std.specs.Int.{bit_at};
ghost use Rattle.bb_registers.specs.Registers.{StepsTo, moved_head, flipped_bits};

use bb_machine::PackedTable;
use bb_machine::packed::{FLIP, HALT, RIGHT, STOP};

/// A configuration within 64 cells.
#[derive(Clone, Copy, Debug)]
pub struct Registers {
    /// The cells: that at position p is bit p + 32.
    pub bits: u64,
    /// The head, as the bit of its position.
    pub head: u64,
    /// The entry of the last step. Its low six bits are nine times the state.
    pub entry: u64,
}

impl Registers {
    /// State A, at position 0, on the blank tape.
    #[inline(always)]
    pub fn start() -> Registers
        ensures { result ≡ record { bits = 0; head = 2 ^ 32; entry = 0 } }
    {
        Registers {
            bits: 0,
            head: 1 << 32,
            entry: 0,
        }
    }

    /// The state, from 0 for A.
    pub fn state(&self) -> u8
        ensures { result ≡ self.now.entry % 64 / 9 }
    {
        ((self.entry & 63) / 9) as u8
    }

    /// Whether there is a 1 under the head.
    #[inline(always)]
    pub fn reads_one(&self) -> bool
        ensures { IsTrue result ↔ (bit_and self.now.bits self.now.head ≢ 0) }
    {
        self.bits & self.head != 0
    }

    /// The registers after the next step, also where its entry goes to no state. `SELECTS` as in
    /// `PackedTable::entry`.
    #[inline(always)]
    pub(crate) fn next<const SELECTS: bool>(&self, table: &PackedTable) -> Registers
        ensures { StepsTo table.now self.now result }
    {
        let entry = table.entry::<SELECTS>(self.entry, self.reads_one());
        Registers {
            bits: self.flipped_bits(entry),
            head: self.moved_head(entry),
            entry,
        }
    }

    /// The cells after the write of an entry.
    #[inline(always)]
    pub fn flipped_bits(&self, entry: u64) -> u64
        ensures { result ≡ flipped_bits self.now.bits self.now.head (bit_at entry 6) }
    {
        if entry & FLIP != 0 {
            self.bits ^ self.head
        } else {
            self.bits
        }
    }

    /// The head after the move of an entry; 0 where it leaves the 64 cells.
    #[inline(always)]
    pub fn moved_head(&self, entry: u64) -> u64
        ensures { result ≡ moved_head self.now.head (bit_at entry 7) }
    {
        if entry & RIGHT != 0 {
            self.head << 1
        } else {
            self.head >> 1
        }
    }
}

/// Whether an entry goes to no state.
#[inline(always)]
pub fn stops(entry: u64) -> bool
    ensures { IsTrue result ↔ (bit_at entry 8 ≡ 1) }
{
    entry & STOP != 0
}

/// Whether an entry that goes to no state goes to Z.
#[inline(always)]
pub fn halts(entry: u64) -> bool
    ensures { IsTrue result ↔ (bit_at entry 0 ≡ 1) }
{
    entry & HALT != 0
}
