//! Streams that come in chunks, fail or accept little.

use arrayvec::ArrayVec;
use bb_lines::fault::Fault;
use bb_run::Summary;
use std::io::{Error, ErrorKind, Read, Result, Write};
use std::process::Abort;

/// A stream has failed exactly if a run over it ended by its fault.
pub(crate) fn assert_failed(
    rt: &impl Abort,
    failed: bool,
    end: std::result::Result<Summary, Fault>,
    fault: Fault,
) {
    assert_eq!(rt; failed, end == Err(fault));
}

/// Gives its bytes a few at a time, a first piece of its own length, and fails at one call.
#[derive(Drop)]
pub(crate) struct Pieces {
    pub bytes: &'static [u8],
    pub first: usize,
    pub most: usize,
    pub before_failure: u64,
    pub error: ErrorKind,
}

impl Pieces {
    /// One piece of `first` bytes, and then pieces of at most `most`.
    pub(crate) fn of(bytes: &'static [u8], first: usize, most: usize) -> Pieces {
        Pieces {
            bytes,
            first,
            most,
            before_failure: u64::MAX,
            error: ErrorKind::Interrupted,
        }
    }

    /// Chunks of at most `most` bytes, and so many calls before a failing one with this error.
    pub(crate) fn failing(
        bytes: &'static [u8],
        most: usize,
        before_failure: u64,
        error: ErrorKind,
    ) -> Pieces {
        Pieces {
            bytes,
            first: most,
            most,
            before_failure,
            error,
        }
    }
}

impl Read for Pieces {
    fn read(&mut self, buf: &mut [u8]) -> Result<usize> {
        if self.before_failure == 0 {
            return Err(Error::from(self.error));
        }
        self.before_failure -= 1;
        let n = self.bytes.len().min(self.first).min(buf.len());
        buf[..n].copy_from_slice(&self.bytes[..n]);
        self.bytes = &self.bytes[n..];
        self.first = self.most;
        Ok(n)
    }
}

/// Takes a few bytes a call and a number of bytes in all, and counts its calls.
#[derive(Drop)]
pub(crate) struct Sink {
    pub bytes: ArrayVec<u8, 128>,
    pub most: usize,
    pub room: usize,
    pub writes: u64,
    pub flushes: u64,
    pub can_flush: bool,
}

impl Sink {
    /// At most `most` bytes a call, and `room` in all.
    pub(crate) fn of(most: usize, room: usize) -> Sink {
        Sink {
            bytes: ArrayVec::new(),
            most,
            room,
            writes: 0,
            flushes: 0,
            can_flush: true,
        }
    }

    /// All bytes, and a failing flush.
    pub(crate) fn without_flush() -> Sink {
        Sink {
            can_flush: false,
            ..Sink::of(128, 128)
        }
    }
}

impl Write for Sink {
    fn write(&mut self, buf: &[u8]) -> Result<usize> {
        self.writes = self.writes.saturating_add(1);
        if self.room == 0 {
            return Err(Error::from(ErrorKind::Interrupted));
        }
        let n = buf.len().min(self.most).min(self.room);
        self.room -= n;
        match self.bytes.try_extend_from_slice(&buf[..n]) {
            Ok(()) => Ok(n),
            Err(_) => Err(Error::from(ErrorKind::WriteZero)),
        }
    }

    fn flush(&mut self) -> Result<()> {
        self.flushes = self.flushes.saturating_add(1);
        if self.can_flush {
            Ok(())
        } else {
            Err(Error::from(ErrorKind::BrokenPipe))
        }
    }
}
