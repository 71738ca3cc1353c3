//! Streams that forward each call, keep the last error, and report progress.
ghost use Rattle.std.specs.Prelude.{◌≡◌, None};

use crate::progress::Progress;
use std::fmt::Display;
use std::io::{Error, Read, Result, Write};

/// A reader or a writer that forwards each call. It keeps the error of the last failed call, and reports each
/// other call to the progress, if there is one.
#[derive(Drop)]
pub struct Observed<'p, 'r, X, C> {
    inner: X,
    error: Option<Error>,
    progress: Option<&'p Progress<'r, C>>,
}

impl<'p, 'r, X, C> Observed<'p, 'r, X, C> {
    /// Observes `inner`, before any failed call.
    pub fn new(inner: X, progress: Option<&'p Progress<'r, C>>) -> Self
        ensures inner { result.inner ≡ inner }
        ensures error { result.error ≡ None }
    {
        Observed {
            inner,
            error: None,
            progress,
        }
    }

    /// The observed stream.
    pub fn inner(&self) -> &X
        ensures { result.now ≡ self.now.inner }
    {
        &self.inner
    }

    /// The reason of the last failed call, if any.
    pub fn into_error(self) -> Option<Error>
    where
        X: Drop,
        ensures { result ≡ self.entry.error }
    {
        self.error
    }
}

impl<R: Read, C: Display> Read for Observed<'_, '_, R, C> {
    ghost remaining = { λ observed. R.remaining observed.inner };

    fn read(&mut self, buf: &mut [u8]) -> Result<usize> {
        let result = self.inner.read(buf);
        match (&result, self.progress) {
            (Ok(count), Some(progress)) => progress.add_read(*count),
            (Ok(_), None) => {}
            (Err(error), _) => self.error = Some(same_error(error)),
        }
        result
    }
}

impl<W: Write, C: Display> Write for Observed<'_, '_, W, C> {
    ghost contents = { λ observed. W.contents observed.inner };

    fn write(&mut self, buf: &[u8]) -> Result<usize> {
        let result = self.inner.write(buf);
        match (&result, self.progress) {
            (Ok(_), Some(progress)) => progress.show(),
            (Ok(_), None) => {}
            (Err(error), _) => self.error = Some(same_error(error)),
        }
        result
    }

    fn flush(&mut self) -> Result<()> {
        let result = self.inner.flush();
        if let Err(error) = &result {
            self.error = Some(same_error(error));
        }
        result
    }
}

/// An error with the same message as another: the same number of the system's, else the same kind.
fn same_error(error: &Error) -> Error {
    match error.raw_os_error() {
        Some(code) => Error::from_raw_os_error(code),
        None => Error::from(error.kind()),
    }
}
