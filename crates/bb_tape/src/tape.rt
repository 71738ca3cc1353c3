//! A tape as its users see it, and why a call on one may be refused.

ghost use Rattle.std.specs.Prelude.{◌≡◌, ◌↔◌, ◌≤◌, Bool, IfErr, IsTrue, OnErr, OnOk, pos, ◌+ℤ◌, ◌-ℤ◌, ◌<ℤ◌};
ghost use Rattle.bb_tape.specs.Block.{HasBits, IsBlock, PutsBits};
ghost use Rattle.bb_tape.specs.Content.{cell, score};
ghost use Rattle.bb_tape.specs.TapeView.{TapeView, fresh, visited, written, width, IsInside};
ghost use Rattle.bb_tape.specs.TapeView.{IsBeside, IsStretch, AgreesFrom, IsSound};

/// The greatest limit of a tape, in cells.
pub const MAX_CELLS: u64 = 67_108_864;

/// The greatest symbol of a cell. A machine's symbols are 0 to 9. The walk of the backward tree writes a
/// known symbol r as r + 1, up to 10; its 0 is an unknown cell.
pub const MAX_SYMBOL: u8 = 10;

/// An allocation failed.
#[derive(thiserror::Error, Debug, Drop)]
#[error("out of memory")]
pub struct Memory;

/// Why a call on a tape was refused.
#[derive(thiserror::Error, Debug, Drop)]
pub enum TapeFault {
    /// The window would have more positions than the tape's limit.
    #[error("the tape has no more cells")]
    Cells = 1,
    /// An allocation failed.
    #[error("out of memory")]
    Memory = 2,
}

/// A tape endless both ways, with a window of a limited number of cells. Positions are signed, and a new
/// tape's window is the cell 0 alone. A cell has a symbol from 0 to `MAX_SYMBOL`.
///
/// The trait has no constructor and no clone: generic code has only the tapes lent to it. Calls with a body
/// here may be overridden by faster ones.
pub trait Tape: Drop {
    /// The cells, the window and the limit.
    ghost view: { Self → TapeView };

    ghost GROWS: { Bool };

    /// Whether a call may allocate. If false, no call returns `Memory`.
    const GROWS: bool;

    /// Makes every cell 0 and the window the cell 0 alone.
    fn reset(&mut self)
        ensures { view self.new ≡ fresh (view self.old).limit };

    /// Widens the window to a cell in it or next to it. `Cells` if the window would exceed the limit; it
    /// never allocates.
    fn visit(&mut self, p: i64) -> Result<(), TapeFault>
        requires { IsBeside (view self.old) p }
        ensures ok { OnOk result (view self.new ≡ visited (view self.old) p) }
        ensures err { OnErr result (view self.new ≡ view self.old) }
        ensures cells { (result ≡ Err TapeFault.Cells)
            ↔ (pos (view self.old).limit <ℤ width (visited (view self.old) p)) }
        ensures memory { IfErr result (λ fault. fault ≡ TapeFault.Cells) };

    /// Widens the window by the cell below it, if it has room.
    fn widen_low(&mut self, p: i64)
        requires next { p ≡ (view self.old).low -ℤ pos 1 }
        requires room { width (view self.old) <ℤ pos (view self.old).limit }
        ensures { view self.new ≡ visited (view self.old) p }
    {
        let _below = self.visit(p);
    }

    /// Widens the window by the cell above it, if it has room.
    fn widen_high(&mut self, p: i64)
        requires next { p ≡ (view self.old).high +ℤ pos 1 }
        requires room { width (view self.old) <ℤ pos (view self.old).limit }
        ensures { view self.new ≡ visited (view self.old) p }
    {
        let _above = self.visit(p);
    }

    /// The symbol of any cell, 0 outside the window.
    fn read(&self, p: i64) -> u8
        ensures { result ≡ cell (view self.now).content p };

    /// The symbol of a cell of the window.
    fn read_inside(&self, p: i64) -> u8
        requires { IsInside (view self.now) p }
        ensures { result ≡ cell (view self.now).content p }
    {
        self.read(p)
    }

    /// Puts a symbol into a cell of the window. It never needs more cells.
    fn write(&mut self, p: i64, v: u8) -> Result<(), TapeFault>
        requires inside { IsInside (view self.old) p }
        requires symbol { v ≤ MAX_SYMBOL }
        ensures ok { OnOk result (view self.new ≡ written (view self.old) p v) }
        ensures err { OnErr result (view self.new ≡ view self.old) }
        ensures only_memory { OnErr result ((result ≡ Err TapeFault.Memory) × IsTrue GROWS) };

    /// Copies the cells and the window of another tape with the same limit. After `Memory`, reset the tape
    /// before its next use.
    fn copy_from(&mut self, other: &Self) -> Result<(), TapeFault>
        requires { (view self.old).limit ≡ (view other.now).limit }
        ensures ok { OnOk result (view self.new ≡ view other.now) }
        ensures limit { (view self.new).limit ≡ (view self.old).limit }
        ensures only_memory { OnErr result ((result ≡ Err TapeFault.Memory) × IsTrue GROWS) };

    /// Whether `len` cells from `from` on have the symbols of those of the other tape from `other_from` on.
    fn agrees(&self, from: i64, other: &Self, other_from: i64, len: u64) -> bool
        requires here { IsStretch (view self.now) from len }
        requires there { IsStretch (view other.now) other_from len }
        ensures { IsTrue result
            ↔ AgreesFrom (view self.now).content from (view other.now).content other_from len };

    /// Whether all cells are the same, for any windows.
    fn same(&self, other: &Self) -> bool
        ensures { IsTrue result ↔ ((view self.now).content ≡ (view other.now).content) };

    /// How many cells aren't 0.
    fn score(&self) -> u64
        ensures { result ≡ score (view self.now).content };

    /// Which of the 64 cells of a block aren't 0, as bits: that at `from` is the lowest.
    fn block(&self, from: i64) -> u64
        requires { IsBlock (view self.now) from }
        ensures { HasBits (view self.now).content from result }
    {
        let mut bits = 0;
        for place in 0..64u32 {
            if self.read_inside(from + i64::from(place)) != 0 {
                bits |= 1 << place;
            }
        }
        bits
    }

    /// Puts the bits of a number into the 64 cells of a block.
    fn put_block(&mut self, from: i64, bits: u64) -> Result<(), Memory>
        requires { IsBlock (view self.old) from }
        ensures ok { OnOk result (PutsBits (view self.old) (view self.new) from bits 64) }
        ensures limit { (view self.new).limit ≡ (view self.old).limit }
        ensures memory { OnErr result (IsTrue GROWS) }
    {
        for place in 0..64u32 {
            let symbol = ((bits >> place) & 1) as u8;
            let Ok(()) = self.write(from + i64::from(place), symbol) else {
                return Err(Memory);
            };
        }
        Ok(())
    }

    /// The lowest position of the window.
    fn low(&self) -> i64
        ensures { result ≡ (view self.now).low };

    /// The highest position of the window.
    fn high(&self) -> i64
        ensures { result ≡ (view self.now).high };

    /// The most cells of the window.
    fn limit(&self) -> u64
        ensures { result ≡ (view self.now).limit };

    ghost sound: { (t : Self) → IsSound (view t) };
}
