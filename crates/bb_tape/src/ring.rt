//! A tape kept as a ring of exactly as many cells as the window may have.

ghost use Rattle.std.specs.Prelude.{◌≡◌, ◌↔◌, ◌≤◌, ◌<◌, ◌++◌, ℕ, false, IsTrue, IfOk};
ghost use Rattle.std.specs.Prelude.{length, slice_index, pos, ◌+ℤ◌, ◌≤ℤ◌, ◌<ℤ◌, ℤ, ◌⊎◌};
ghost use Rattle.bb_tape.specs.Content.{cell};
ghost use Rattle.bb_tape.specs.TapeView.{fresh, IsSound, IsStretch};
ghost use Rattle.bb_tape.specs.Windowed.{view_of};
ghost use Rattle.bb_tape.specs.Ring.{CanCopy, IsClear, ring_content, symbols};

use crate::kernels::{count_nonzero, equal, nonzero_bits, put_bits};
use crate::tape::{MAX_CELLS, Memory, Tape, TapeFault};
use crate::window::{NEAR, Window};
use std::alloc::Global;

/// A tape of a fixed number of cells, allocated once. Cell p has index p modulo the number of cells, so the
/// cells below 0 are the last of the ring. Cells outside the window are 0, so the window widens with nothing
/// to clear.
#[derive(Drop)]
pub struct RingTape {
    cells: Vec<u8>,
    window: Window,
    ghost whole: { length cells.items ≡ window.limit },
    ghost clear: { IsClear cells.items window },
    ghost sound: { IsSound (view_of (ring_content cells.items window) window) },
}

impl RingTape {
    /// A blank tape with the window 0 to 0 and room for `s` cells.
    pub fn new(alloc: Global, s: u64) -> Result<RingTape, Memory>
        requires some { 0 < s }
        requires most { s ≤ MAX_CELLS }
        ensures { IfOk result (λ tape. ⟦<RingTape as Tape>⟧.view tape ≡ fresh s) }
    {
        match vec![in alloc; 0u8; s as usize] {
            Ok(cells) => Ok(RingTape {
                cells,
                window: Window::new(s),
            }),
            Err(_) => Err(Memory),
        }
    }

    /// The cells from `from` on, those below 0 and then the others. `from` and the cells are in the window.
    fn pieces(&self, from: i64, len: u64) -> (&[u8], &[u8])
        requires { IsStretch
            (view_of (ring_content self.now.cells.items self.now.window) self.now.window) from len }
        ensures { result.0.now ++ result.1.now
            ≡ symbols (ring_content self.now.cells.items self.now.window) from len }
    {
        let len = len as usize;
        let cells = self.cells.as_slice();
        if len == 0 {
            return (&cells[..0], &cells[..0]);
        }
        let at = self.window.index(from);
        let first = len.min(cells.len() - at);
        (&cells[at..at + first], &cells[..len - first])
    }

    /// Whether the cells from `from` on are all 0.
    fn is_blank(&self, from: i64, len: u64) -> bool
        requires { IsStretch
            (view_of (ring_content self.now.cells.items self.now.window) self.now.window) from len }
        ensures { IsTrue result ↔ ((k : ℕ) → k < len
            → cell (ring_content self.now.cells.items self.now.window) (from +ℤ pos k) ≡ 0) }
    {
        let (first, second) = self.pieces(from, len);
        count_nonzero(first) == 0 && count_nonzero(second) == 0
    }

    /// Whether all cells outside a part of the window are 0.
    fn is_blank_outside(&self, part: Window) -> bool
        requires low { self.now.window.low ≤ℤ part.low }
        requires high { part.high ≤ℤ self.now.window.high }
        ensures { IsTrue result ↔ ((p : ℤ) → ((p <ℤ part.low) ⊎ (part.high <ℤ p))
            → cell (ring_content self.now.cells.items self.now.window) p ≡ 0) }
    {
        self.is_blank(self.window.low, self.window.below(&part))
            && self.is_blank(part.high + 1, self.window.above(&part))
    }
}

/// Whether two lists of bytes are equal, each given in two slices: a and then b, c and then d.
fn equal_in_pieces(a: &[u8], b: &[u8], c: &[u8], d: &[u8]) -> bool
    requires { length (a.now ++ b.now) ≡ length (c.now ++ d.now) }
    ensures { IsTrue result ↔ (a.now ++ b.now ≡ c.now ++ d.now) }
{
    if a.len() <= c.len() {
        equal_from_shorter(a, b, c, d)
    } else {
        equal_from_shorter(c, d, a, b)
    }
}

/// The same, for a first slice no longer than the other one's.
fn equal_from_shorter(a: &[u8], b: &[u8], c: &[u8], d: &[u8]) -> bool
    requires shorter { length a.now ≤ length c.now }
    requires both { length (a.now ++ b.now) ≡ length (c.now ++ d.now) }
    ensures { IsTrue result ↔ (a.now ++ b.now ≡ c.now ++ d.now) }
{
    let (front, middle) = c.split_at(a.len());
    equal(a, front) && equal_to_joined(b, middle, d)
}

/// Whether the bytes are those of c and then those of d.
fn equal_to_joined(b: &[u8], c: &[u8], d: &[u8]) -> bool
    requires { length b.now ≡ length (c.now ++ d.now) }
    ensures { IsTrue result ↔ (b.now ≡ c.now ++ d.now) }
{
    let (first, last) = b.split_at(c.len());
    equal(first, c) && equal(last, d)
}

/// Makes the bytes before `front` and those from `back` on 0.
fn clear_ends(cells: &mut [u8], front: usize, back: usize)
    requires front { front ≤ length cells.old }
    requires back { back ≤ length cells.old }
    ensures front { (k : ℕ) → k < front → slice_index cells.new k ≡ 0 }
    ensures back { (k : ℕ) → back ≤ k → slice_index cells.new k ≡ 0 }
    ensures between { (k : ℕ) → front ≤ k → k < back → slice_index cells.new k ≡ slice_index cells.old k }
    ensures length { length cells.new ≡ length cells.old }
{
    cells[..front].fill(0);
    cells[back..].fill(0);
}

/// Copies the bytes before `front` and those from `back` on. It is inlined, so that for constants no call
/// remains.
#[inline(always)]
fn copy_ends(to: &mut [u8], from: &[u8], front: usize, back: usize)
    requires same { length to.old ≡ length from.now }
    requires front { front ≤ length from.now }
    requires back { back ≤ length from.now }
    ensures front { (k : ℕ) → k < front → slice_index to.new k ≡ slice_index from.now k }
    ensures back { (k : ℕ) → back ≤ k → slice_index to.new k ≡ slice_index from.now k }
    ensures between { (k : ℕ) → front ≤ k → k < back → slice_index to.new k ≡ slice_index to.old k }
    ensures length { length to.new ≡ length to.old }
{
    to[..front].copy_from_slice(&from[..front]);
    to[back..].copy_from_slice(&from[back..]);
}

/// Copies the cells of a ring with the window `new` into a ring with the window `old`. Most windows are near
/// cell 0. For those it copies a fixed number of cells at each end, for any windows: this clears the old
/// cells too, and leaves no length to branch on.
#[inline(always)]
fn copy_cells(to: &mut [u8], old: &Window, from: &[u8], new: &Window)
    requires { CanCopy to.old from.now old.now new.now }
    ensures { to.new ≡ from.now }
{
    if old.is_near() && new.is_near() {
        copy_ends(to, from, NEAR, from.len() - NEAR);
    } else {
        copy_far(to, old, from, new);
    }
}

/// `copy_cells` for any windows. It is not inlined, so that the code around a copy stays small.
#[cold]
#[inline(never)]
fn copy_far(to: &mut [u8], old: &Window, from: &[u8], new: &Window)
    requires { CanCopy to.old from.now old.now new.now }
    ensures { to.new ≡ from.now }
{
    clear_ends(to, old.upper(), old.lower_at());
    copy_ends(to, from, new.upper(), new.lower_at());
}

impl Tape for RingTape {
    ghost view = { λ t. view_of (ring_content t.cells.items t.window) t.window };

    ghost GROWS = { false };

    const GROWS: bool = false;

    ghost sound = { λ t. t.sound };

    fn reset(&mut self) {
        let window = self.window;
        clear_ends(self.cells.as_mut_slice(), window.upper(), window.lower_at());
        self.window = Window::new(window.limit);
    }

    fn visit(&mut self, p: i64) -> Result<(), TapeFault> {
        if self.window.has(p) {
            return Ok(());
        }
        if self.window.is_full() {
            return Err(TapeFault::Cells);
        }
        if p < self.window.low {
            self.widen_low(p);
        } else {
            self.widen_high(p);
        }
        Ok(())
    }

    #[inline]
    fn widen_low(&mut self, p: i64) {
        self.window.widen_low(p);
    }

    #[inline]
    fn widen_high(&mut self, p: i64) {
        self.window.widen_high(p);
    }

    #[inline]
    fn read(&self, p: i64) -> u8 {
        if self.window.has(p) {
            self.read_inside(p)
        } else {
            0
        }
    }

    /// A step waits for this read. So a position below 0 has a path of its own, with the limit first in its
    /// index: the compiler adds the limit to the base address before the step.
    #[inline]
    fn read_inside(&self, p: i64) -> u8 {
        if p < 0 {
            self.cells[(self.window.limit as i64 + p) as usize]
        } else {
            self.cells[p as usize]
        }
    }

    #[inline]
    fn write(&mut self, p: i64, v: u8) -> Result<(), TapeFault> {
        let at = self.window.index(p);
        self.cells[at] = v;
        Ok(())
    }

    #[inline(always)]
    fn copy_from(&mut self, other: &Self) -> Result<(), TapeFault> {
        copy_cells(
            self.cells.as_mut_slice(),
            &self.window,
            other.cells.as_slice(),
            &other.window,
        );
        self.window = other.window;
        Ok(())
    }

    fn agrees(&self, from: i64, other: &Self, other_from: i64, len: u64) -> bool {
        let (a, b) = self.pieces(from, len);
        let (c, d) = other.pieces(other_from, len);
        equal_in_pieces(a, b, c, d)
    }

    fn same(&self, other: &Self) -> bool {
        let intersection = self.window.intersection(&other.window);
        self.agrees(
            intersection.low,
            other,
            intersection.low,
            intersection.width(),
        ) && self.is_blank_outside(intersection)
            && other.is_blank_outside(intersection)
    }

    fn score(&self) -> u64 {
        let (first, second) = self.pieces(self.window.low, self.window.width());
        (count_nonzero(first) + count_nonzero(second)) as u64
    }

    #[inline]
    fn block(&self, from: i64) -> u64 {
        nonzero_bits(self.cells.as_slice(), self.window.index(from))
    }

    #[inline]
    fn put_block(&mut self, from: i64, bits: u64) -> Result<(), Memory> {
        let at = self.window.index(from);
        put_bits(self.cells.as_mut_slice(), at, bits);
        Ok(())
    }

    #[inline]
    fn low(&self) -> i64 {
        self.window.low
    }

    #[inline]
    fn high(&self) -> i64 {
        self.window.high
    }

    #[inline]
    fn limit(&self) -> u64 {
        self.window.limit
    }
}
