//! A tape as an ordered map of its nonzero cells.

ghost use Rattle.std.specs.Prelude.{◌≡◌, ◌≤◌, ◌<◌, true, OnErr, OnOk, pos, ◌+ℤ◌, ◌≤ℤ◌};
ghost use Rattle.bb_tape.specs.Content.{cell};
ghost use Rattle.bb_tape.specs.TapeView.{fresh, written, IsInside, IsSound};
ghost use Rattle.bb_tape.specs.Windowed.{view_of};
ghost use Rattle.bb_tape.specs.Entries.{content_of};

use crate::tape::{MAX_CELLS, MAX_SYMBOL, Tape, TapeFault};
use crate::window::Window;
use std::alloc::{AllocError, Allocator, Global};
use std::collections::BTreeMap;

/// A tape of the nonzero cells alone. It allocates as they appear.
#[derive(Drop)]
pub struct MapTape<A: Allocator = Global> {
    /// The number k at a position means symbol k + 1.
    cells: BTreeMap<i64, u8, A>,
    window: Window,
    ghost sound: { IsSound (view_of (content_of cells.entries) window) },
}

impl MapTape {
    /// A blank tape with the window 0 to 0 and room for `s` cells. It allocates nothing.
    pub fn new(alloc: Global, s: u64) -> MapTape
        requires some { 0 < s }
        requires most { s ≤ MAX_CELLS }
        ensures { ⟦<MapTape as Tape>⟧.view result ≡ fresh s }
    {
        MapTape::new_in(alloc, s)
    }
}

impl<A: Allocator + Clone + Drop> MapTape<A> {
    /// The same with any allocator.
    pub fn new_in(alloc: A, s: u64) -> MapTape<A>
        requires some { 0 < s }
        requires most { s ≤ MAX_CELLS }
        ensures { ⟦<MapTape<A> as Tape>⟧.view result ≡ fresh s }
    {
        MapTape {
            cells: BTreeMap::new(alloc),
            window: Window::new(s),
        }
    }

    /// The symbol `k` positions above `from`, both in the window.
    fn symbol_after(&self, from: i64, k: u64) -> u8
        requires begins { self.now.window.low ≤ℤ from }
        requires ends { (from +ℤ pos k) ≤ℤ self.now.window.high }
        ensures { result ≡ cell (content_of self.now.cells.entries) (from +ℤ pos k) }
    {
        self.read(from + k as i64)
    }
}

/// Replaces the entries of a map by those of another one.
fn copy_entries<A: Allocator + Clone>(
    to: &mut BTreeMap<i64, u8, A>,
    from: &BTreeMap<i64, u8, A>,
) -> Result<(), AllocError>
    ensures { OnOk result (to.new.entries ≡ from.now.entries) }
{
    to.clear();
    to.extend(from)
}

impl<A: Allocator + Clone + Drop> Tape for MapTape<A> {
    ghost view = { λ t. view_of (content_of t.cells.entries) t.window };

    ghost GROWS = { true };

    const GROWS: bool = true;

    ghost sound = { λ t. t.sound };

    fn reset(&mut self) {
        self.cells.clear();
        self.window = Window::new(self.window.limit);
    }

    fn visit(&mut self, p: i64) -> Result<(), TapeFault> {
        if self.window.has(p) {
            return Ok(());
        }
        if self.window.is_full() {
            return Err(TapeFault::Cells);
        }
        if p < self.window.low {
            self.window.widen_low(p);
        } else {
            self.window.widen_high(p);
        }
        Ok(())
    }

    #[inline]
    fn read(&self, p: i64) -> u8 {
        match self.cells.get(&p) {
            Some(k) => *k + 1,
            None => 0,
        }
    }

    /// A 0 takes no memory.
    fn write(&mut self, p: i64, v: u8) -> Result<(), TapeFault>
        requires inside { IsInside (view_of (content_of self.old.cells.entries) self.old.window) p }
        requires symbol { v ≤ MAX_SYMBOL }
        ensures ok { OnOk result (view_of (content_of self.new.cells.entries) self.new.window
            ≡ written (view_of (content_of self.old.cells.entries) self.old.window) p v) }
        ensures zero { v ≡ 0 → OnErr result ⊥ }
        ensures err { OnErr result (view_of (content_of self.new.cells.entries) self.new.window
            ≡ view_of (content_of self.old.cells.entries) self.old.window) }
        ensures only_memory { OnErr result (result ≡ Err TapeFault.Memory) }
    {
        if v == 0 {
            self.cells.remove(&p);
            return Ok(());
        }
        match self.cells.insert(p, v - 1) {
            Ok(_) => Ok(()),
            Err(_) => Err(TapeFault::Memory),
        }
    }

    fn copy_from(&mut self, other: &Self) -> Result<(), TapeFault> {
        if copy_entries(&mut self.cells, &other.cells).is_err() {
            self.cells.clear();
            return Err(TapeFault::Memory);
        }
        self.window = other.window;
        Ok(())
    }

    fn agrees(&self, from: i64, other: &Self, other_from: i64, len: u64) -> bool {
        for k in 0..len {
            if self.symbol_after(from, k) != other.symbol_after(other_from, k) {
                return false;
            }
        }
        true
    }

    fn same(&self, other: &Self) -> bool {
        self.cells.len() == other.cells.len() && self.cells == other.cells
    }

    fn score(&self) -> u64 {
        self.cells.len() as u64
    }

    #[inline]
    fn low(&self) -> i64 {
        self.window.low
    }

    #[inline]
    fn high(&self) -> i64 {
        self.window.high
    }

    #[inline]
    fn limit(&self) -> u64 {
        self.window.limit
    }
}
