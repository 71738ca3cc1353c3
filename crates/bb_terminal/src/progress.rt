//! How far a list has come, as a line on a terminal.
ghost use Rattle.std.specs.Prelude.{◌≡◌, ◌≤◌, ◌<◌, ◌*◌, ◌^◌, ◌/◌, min, IfSome, MatchOption};

use arrayvec::ArrayString;
use std::cell::Cell;
use std::fmt::{Display, Write};
use std::time::{Duration, Instant};

/// The least time between two lines, in milliseconds.
const REST: u64 = 250;

/// The progress of a list. It writes a line to standard error a few times a second, over the one before,
/// after a read or a write. An error of that changes nothing.
#[derive(Drop)]
pub struct Progress<'a, C> {
    rt: &'a HostRuntime,
    /// The counts so far.
    counts: C,
    /// The size of the list in bytes, if known.
    size: Option<u64>,
    /// How many of them were read.
    read: Cell<u64>,
    /// How many of them were read before the last read: all of their whole lines are done.
    done: Cell<u64>,
    /// When the line was last written.
    shown: Cell<Option<Instant>>,
}

impl<'a, C> Progress<'a, C> {
    /// The progress of a list of `size` bytes, if known, before its first read. The line has the percentage
    /// and `counts`, as far as they fit in 100 bytes.
    pub fn new(rt: &'a HostRuntime, counts: C, size: Option<u64>) -> Self
        ensures counts { result.counts ≡ counts }
        ensures size { result.size ≡ size }
    {
        Progress {
            rt,
            counts,
            size,
            read: Cell::new(0),
            done: Cell::new(0),
            shown: Cell::new(None),
        }
    }

    /// Adds a read of so many bytes. A list is read on only after all its whole lines are answered.
    pub fn add_read(&self, count: usize)
    where
        C: Display,
    {
        self.done.set(self.read.get());
        self.read.set(self.read.get().saturating_add(count as u64));
        self.show();
    }

    /// Writes the line, unless one was written just before.
    pub fn show(&self)
    where
        C: Display,
    {
        let Ok(now) = Instant::now(self.rt) else {
            return;
        };
        if let Some(shown) = self.shown.get() {
            if now.duration_since(shown) < Duration::from_millis(REST) {
                return;
            }
        }
        self.shown.set(Some(now));
        let _ = self.rt.eprint(self.line().as_str());
    }

    /// The line, in a terminal's form: from the left, with nothing after it. It is made a few times a second
    /// and isn't inlined, so that `show`, called at each read and each write, stays small.
    #[cold]
    #[inline(never)]
    fn line(&self) -> ArrayString<100>
    where
        C: Display,
    {
        let mut line = ArrayString::new();
        let _ = write!(line, "\r");
        if let Some(percent) = self.percent() {
            let _ = write!(line, "{percent}% ");
        }
        let _ = write!(line, "{}", self.counts);
        let _ = write!(line, "\x1b[K");
        line
    }

    /// The percentage of bytes in answered lines, if the list's size is known.
    fn percent(&self) -> Option<u64> {
        percent_of(self.done.get(), self.size?)
    }

    /// Takes the line away.
    pub fn end(&self) {
        if self.shown.get().is_some() {
            let _ = self.rt.eprint("\r\x1b[K");
        }
    }
}

/// The percentage of bytes done; none for an empty file, and 100 for a file that grew meanwhile.
fn percent_of(done: u64, size: u64) -> Option<u64>
    ensures bounded { MatchOption result (size ≡ 0) (λ percent. percent ≤ 100) }
    ensures exact { done * 100 < 2 ^ 64
        → IfSome result (λ percent. percent ≡ min (done * 100 / size) 100) }
{
    Some(done.saturating_mul(100).checked_div(size)?.min(100))
}
