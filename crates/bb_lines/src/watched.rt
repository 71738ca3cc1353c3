//! A reader or writer with a mark for its first failed call.
ghost use Rattle.std.specs.Prelude.{◌≡◌, ◌+◌, ◌<◌, ◌^◌, ◌-◌, ◌||◌, min};
ghost use Rattle.std.specs.Prelude.{false, true, length, IfOk, OnOk, is_err};
ghost use Rattle.std.specs.Io.KnownBytes.{Keeps, ReadConsumes, WriteAppends};
ghost use Rattle.std.specs.Io.{ReadsAtMost, WritesAtMost};
ghost use Rattle.bb_lines.specs.Watched.{watched_inner, is_marked, reads_of};

use std::io::{Read, Write};
use thiserror::Error;

/// A call of a marked reader or writer failed.
#[derive(Clone, Copy, Debug, PartialEq, Eq, Error)]
#[error("the call failed")]
pub struct Failed;

/// A reader or writer with a mark. The first failed call sets the mark, and nothing clears it.
#[derive(Drop)]
pub struct Watched<X> {
    inner: X,
    mark: bool,
    reads: u64,
}

impl<X> Watched<X> {
    /// Watches `inner`, with no mark set and no read counted.
    pub fn new(inner: X) -> Self
        ensures inner { watched_inner result ≡ inner }
        ensures mark { is_marked result ≡ false }
        ensures reads { reads_of result ≡ 0 }
    {
        Watched {
            inner,
            mark: false,
            reads: 0,
        }
    }

    /// Whether a call answered `Failed` so far.
    pub fn failed(&self) -> bool
        ensures { result ≡ is_marked self.now }
    {
        self.mark
    }

    /// The inner reader or writer.
    pub fn into_inner(self) -> X
        ensures { result ≡ watched_inner self }
    {
        self.inner
    }

    fn fail(&mut self) -> Failed
        ensures { self.new ≡ record self.old { mark = true } }
    {
        self.mark = true;
        Failed
    }
}

impl<R: Read> Watched<R> {
    /// Reads by one call of the inner reader. After `u64::MAX` reads it fails without a call, so each run
    /// ends. After `Failed` no byte was read.
    pub fn read(&mut self, buf: &mut [u8]) -> Result<usize, Failed>
        ensures bound { ReadsAtMost result buf.new }
        ensures bytes { ReadConsumes (R.remaining (watched_inner self.old))
            (R.remaining (watched_inner self.new)) result buf.new }
        ensures mark { is_marked self.new ≡ (is_marked self.old || is_err result) }
        ensures reads { reads_of self.new ≡ min (reads_of self.old + 1) (2 ^ 64 - 1) }
        ensures turns { OnOk result (reads_of self.old < 2 ^ 64 - 1) }
        ensures no_turn { reads_of self.old ≡ 2 ^ 64 - 1 → watched_inner self.new ≡ watched_inner self.old }
    {
        if self.reads == u64::MAX {
            return Err(self.fail());
        }
        self.reads += 1;
        match self.inner.read(buf) {
            Ok(n) => Ok(n),
            Err(_) => Err(self.fail()),
        }
    }
}

impl<W: Write> Watched<W> {
    /// Writes by one call of the inner writer. It also fails if that call accepted none of at least one byte.
    /// After `Failed` no byte was written.
    pub fn write(&mut self, buf: &[u8]) -> Result<usize, Failed>
        ensures bound { WritesAtMost result buf.now }
        ensures bytes { WriteAppends (W.contents (watched_inner self.old))
            (W.contents (watched_inner self.new)) result buf.now }
        ensures some { 0 < length buf.now → IfOk result (λ n. 0 < n) }
        ensures mark { is_marked self.new ≡ (is_marked self.old || is_err result) }
        ensures reads { reads_of self.new ≡ reads_of self.old }
    {
        match self.inner.write(buf) {
            Ok(n) if n > 0 || buf.is_empty() => Ok(n),
            _ => Err(self.fail()),
        }
    }

    /// Flushes by one call of the inner writer.
    pub fn flush(&mut self) -> Result<(), Failed>
        ensures bytes { Keeps (W.contents (watched_inner self.old)) (W.contents (watched_inner self.new)) }
        ensures mark { is_marked self.new ≡ (is_marked self.old || is_err result) }
        ensures reads { reads_of self.new ≡ reads_of self.old }
    {
        match self.inner.flush() {
            Ok(()) => Ok(()),
            Err(_) => Err(self.fail()),
        }
    }
}
