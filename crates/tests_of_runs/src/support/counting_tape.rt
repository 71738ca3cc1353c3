//! A tape that counts its writes, and refuses a call on request.
ghost use Rattle.std.specs.Prelude.{◌≡◌};

use bb_tape::{Memory, Tape, TapeFault};

/// A tape that forwards each call to another, with the same answer to whether it grows. A block counts as the
/// cells that it turns to 0 or away from it. Copies of a whole tape and resets don't count as writes. Of a tape that grows, a
/// write of any symbol may be refused, a 0 too.
#[derive(Drop)]
pub(crate) struct CountingTape<T> {
    inner: T,
    pub writes: u64,
    /// How many calls that may allocate come before the refused one.
    before_refusal: u64,
}

/// So many calls are never made.
pub(crate) const NEVER: u64 = u64::MAX;

/// A tape that refuses one call that may allocate, the one after so many.
pub(crate) fn counting_tape<T>(inner: T, before_refusal: u64) -> CountingTape<T>
    ensures { result.inner ≡ inner }
{
    CountingTape {
        inner,
        writes: 0,
        before_refusal,
    }
}

impl<T> CountingTape<T> {
    /// Whether a call is still going to be refused.
    pub(crate) fn will_refuse(&self) -> bool {
        self.before_refusal != NEVER
    }

    /// Whether to refuse the next call that may allocate.
    fn refuses(&mut self) -> bool
        ensures { self.new.inner ≡ self.old.inner }
    {
        if self.before_refusal == 0 {
            self.before_refusal = NEVER;
            return true;
        }
        if self.will_refuse() {
            self.before_refusal -= 1;
        }
        false
    }
}

impl<T: Tape> Tape for CountingTape<T> {
    ghost view = { λ t. T.view t.inner };

    ghost GROWS = { T.GROWS };

    const GROWS: bool = T::GROWS;

    ghost sound = { λ t. T.sound t.inner };

    fn reset(&mut self) {
        self.inner.reset();
    }

    fn visit(&mut self, p: i64) -> Result<(), TapeFault> {
        self.inner.visit(p)
    }

    fn read(&self, p: i64) -> u8 {
        self.inner.read(p)
    }

    fn write(&mut self, p: i64, v: u8) -> Result<(), TapeFault> {
        self.writes = self.writes.saturating_add(1);
        if T::GROWS && self.refuses() {
            return Err(TapeFault::Memory);
        }
        self.inner.write(p, v)
    }

    fn copy_from(&mut self, other: &Self) -> Result<(), TapeFault> {
        if T::GROWS && self.refuses() {
            return Err(TapeFault::Memory);
        }
        self.inner.copy_from(&other.inner)
    }

    fn agrees(&self, from: i64, other: &Self, other_from: i64, len: u64) -> bool {
        self.inner.agrees(from, &other.inner, other_from, len)
    }

    fn same(&self, other: &Self) -> bool {
        self.inner.same(&other.inner)
    }

    fn score(&self) -> u64 {
        self.inner.score()
    }

    fn block(&self, from: i64) -> u64 {
        self.inner.block(from)
    }

    fn put_block(&mut self, from: i64, bits: u64) -> Result<(), Memory> {
        let changed = (self.inner.block(from) ^ bits).count_ones();
        self.writes = self.writes.saturating_add(u64::from(changed));
        if T::GROWS && self.refuses() {
            return Err(Memory);
        }
        self.inner.put_block(from, bits)
    }

    fn low(&self) -> i64 {
        self.inner.low()
    }

    fn high(&self) -> i64 {
        self.inner.high()
    }

    fn limit(&self) -> u64 {
        self.inner.limit()
    }
}
