//! The window of a tape's visited positions.

ghost use Rattle.std.specs.Prelude.{◌≡◌, ◌↔◌, ◌≤◌, ◌<◌, ◌*◌, IsTrue, pos, ◌+ℤ◌, ◌-ℤ◌, ◌<ℤ◌, ◌≤ℤ◌};
ghost use Rattle.std.specs.Int.{int_min, int_max};
ghost use Rattle.bb_tape.specs.Window.{IsWindow};
ghost use Rattle.bb_tape.specs.RingIndex.{ring_index};

use crate::tape::MAX_CELLS;

/// The reach from 0 of a near window, in cells: most windows of short runs are near.
pub(crate) const NEAR: usize = 16;

/// The positions from `low` to `high`, both counted. 0 is among them.
#[derive(Clone, Copy)]
pub(crate) struct Window {
    pub(crate) low: i64,
    pub(crate) high: i64,
    /// The most positions of the window.
    pub(crate) limit: u64,
    ghost valid: { IsWindow low high limit },
}

impl Window {
    /// The position 0 alone.
    #[inline]
    pub(crate) fn new(limit: u64) -> Window
        requires some { 0 < limit }
        requires most { limit ≤ MAX_CELLS }
        ensures low { result.low ≡ pos 0 }
        ensures high { result.high ≡ pos 0 }
        ensures limit { result.limit ≡ limit }
    {
        Window {
            low: 0,
            high: 0,
            limit,
        }
    }

    #[inline]
    pub(crate) fn has(&self, p: i64) -> bool
        ensures { IsTrue result ↔ ((self.now.low ≤ℤ p) × (p ≤ℤ self.now.high)) }
    {
        self.low <= p && p <= self.high
    }

    /// Whether it has as many positions as it may have.
    #[inline]
    pub(crate) fn is_full(&self) -> bool
        ensures { IsTrue result ↔ (pos self.now.limit ≡ (self.now.high -ℤ self.now.low) +ℤ pos 1) }
    {
        self.width() == self.limit
    }

    /// Takes in the position below it.
    #[inline]
    pub(crate) fn widen_low(&mut self, p: i64)
        requires next { p ≡ self.old.low -ℤ pos 1 }
        requires room { ((self.old.high -ℤ self.old.low) +ℤ pos 1) <ℤ pos self.old.limit }
        ensures low { self.new.low ≡ p }
        ensures high { self.new.high ≡ self.old.high }
        ensures limit { self.new.limit ≡ self.old.limit }
    {
        self.low = p;
    }

    /// Takes in the position above it.
    #[inline]
    pub(crate) fn widen_high(&mut self, p: i64)
        requires next { p ≡ self.old.high +ℤ pos 1 }
        requires room { ((self.old.high -ℤ self.old.low) +ℤ pos 1) <ℤ pos self.old.limit }
        ensures low { self.new.low ≡ self.old.low }
        ensures high { self.new.high ≡ p }
        ensures limit { self.new.limit ≡ self.old.limit }
    {
        self.high = p;
    }

    /// The intersection with another window, with its own limit.
    pub(crate) fn intersection(&self, other: &Window) -> Window
        ensures low { result.low ≡ int_max self.now.low other.now.low }
        ensures high { result.high ≡ int_min self.now.high other.now.high }
    {
        Window {
            low: self.low.max(other.low),
            high: self.high.min(other.high),
            limit: self.limit,
        }
    }

    /// Whether the window is within `NEAR` cells of the seam of a ring, and the ring has more cells than
    /// those.
    #[inline]
    pub(crate) fn is_near(&self) -> bool
        ensures { IsTrue result ↔ (((pos 0 -ℤ pos NEAR) ≤ℤ self.now.low) × (self.now.high <ℤ pos NEAR)
            × (2 * NEAR ≤ self.now.limit)) }
    {
        self.low >= -(NEAR as i64) && self.high < NEAR as i64 && self.limit >= 2 * NEAR as u64
    }

    /// How many positions it has.
    #[inline]
    pub(crate) fn width(&self) -> u64
        ensures { pos result ≡ ((self.now.high -ℤ self.now.low) +ℤ pos 1) }
    {
        (self.high - self.low + 1) as u64
    }

    /// How many of its positions aren't below 0.
    pub(crate) fn upper(&self) -> usize
        ensures { pos result ≡ self.now.high +ℤ pos 1 }
    {
        (self.high + 1) as usize
    }

    /// The index of its lowest position below 0, in a ring with the window's limit of cells.
    pub(crate) fn lower_at(&self) -> usize
        ensures { pos result ≡ self.now.low +ℤ pos self.now.limit }
    {
        (self.low + self.limit as i64) as usize
    }

    /// How many of its positions are below a part of it.
    pub(crate) fn below(&self, part: &Window) -> u64
        requires { self.now.low ≤ℤ part.now.low }
        ensures { pos result ≡ part.now.low -ℤ self.now.low }
    {
        (part.low - self.low) as u64
    }

    /// How many of its positions are above a part of it.
    pub(crate) fn above(&self, part: &Window) -> u64
        requires { part.now.high ≤ℤ self.now.high }
        ensures { pos result ≡ self.now.high -ℤ part.now.high }
    {
        (self.high - part.high) as u64
    }

    /// The index of a position of the window, in a ring of as many cells as the window may have.
    #[inline]
    pub(crate) fn index(&self, p: i64) -> usize
        requires low { self.now.low ≤ℤ p }
        requires high { p ≤ℤ self.now.high }
        ensures modulo { result ≡ ring_index self.now.limit p }
        ensures within { result < self.now.limit }
    {
        if p < 0 {
            (self.limit as i64 + p) as usize
        } else {
            p as usize
        }
    }
}
