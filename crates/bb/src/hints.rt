//! Hints on standard error beside an answer: the kind of an input without lines, and the form of a number.

ghost use Rattle.std.specs.Prelude.{◌≡◌, ◌↔◌, None, Some};
ghost use Rattle.bb.specs.Hints.{IsGzip, IsUtf16};

use arrayvec::ArrayString;
use std::fmt;
use std::fmt::{Display, Formatter};
use std::io::{Read, Result};

/// The kind of an input by its first bytes, if its first line can't be a machine or a verdict line.
#[derive(Clone, Copy, Debug, PartialEq, Eq)]
pub enum InputHint {
    /// They are those of a gzip file.
    Gzip,
    /// They are the byte order mark of UTF-16.
    Utf16,
    /// The first line ends in a carriage return.
    CarriageReturn,
}

/// A reader that forwards each call, and keeps a hint from the first bytes.
#[derive(Drop)]
pub struct Hinted<R> {
    inner: R,
    hint: Option<InputHint>,
    has_read: bool,
}

impl<R> Hinted<R> {
    /// Reads from `inner`, before its first read.
    pub fn new(inner: R) -> Self
        ensures inner { result.inner ≡ inner }
        ensures hint { result.hint ≡ None }
    {
        Hinted {
            inner,
            hint: None,
            has_read: false,
        }
    }

    /// The hint from the first bytes, if any.
    pub fn hint(&self) -> Option<InputHint>
        ensures { result ≡ self.now.hint }
    {
        self.hint
    }
}

impl<R: Read> Read for Hinted<R> {
    ghost remaining = { λ hinted. R.remaining hinted.inner };

    fn read(&mut self, buf: &mut [u8]) -> Result<usize> {
        let result = self.inner.read(buf);
        if !self.has_read {
            self.has_read = true;
            let count = *result.as_ref().unwrap_or(&0);
            self.hint = input_hint(&buf[..count.min(buf.len())]);
        }
        result
    }
}

/// The hint from the first bytes of an input, if any.
pub fn input_hint(bytes: &[u8]) -> Option<InputHint>
    ensures gzip { (result ≡ Some InputHint.Gzip) ↔ IsGzip bytes.now }
    ensures utf16 { (result ≡ Some InputHint.Utf16) ↔ IsUtf16 bytes.now }
{
    if bytes.starts_with(b"\x1f\x8b") {
        return Some(InputHint::Gzip);
    }
    if bytes.starts_with(b"\xff\xfe") || bytes.starts_with(b"\xfe\xff") {
        return Some(InputHint::Utf16);
    }
    let mut before = b' ';
    for byte in bytes {
        if *byte == b'\n' {
            break;
        }
        before = *byte;
    }
    if before == b'\r' {
        return Some(InputHint::CarriageReturn);
    }
    None
}

impl Display for InputHint {
    fn fmt<W: fmt::Write>(&self, f: &mut Formatter<W>) -> fmt::Result {
        f.write_str(match self {
            InputHint::Gzip => "the input is compressed by gzip: unpack it first, by gzip -dc",
            InputHint::Utf16 =>
                "the input is UTF-16: convert it first, by iconv -f UTF-16 -t UTF-8",
            InputHint::CarriageReturn => {
                "line 1 ends in a carriage return: remove them all first, by tr -d '\\r'"
            }
        })
    }
}

/// A number without separators, for a word such as `1,000,000`, `--steps=1_000_000` or `1e6`. None for other
/// words, and for more than 20 digits.
#[cold]
#[inline(never)]
pub fn plain_number(word: &str) -> Option<ArrayString<20>> {
    let number = match word.split_once('=') {
        Some((_, number)) => number,
        None => word,
    };
    let (digits, zeros) = match number.split_once('e') {
        Some((digits, zeros)) => (digits, zeros.parse::<u8>().ok()?),
        None => (number, 0),
    };
    let mut plain = ArrayString::new();
    for letter in digits.chars() {
        if letter.is_ascii_digit() {
            plain.try_push(letter).ok()?;
        } else if plain.is_empty() || !matches!(letter, ',' | '_' | '\'') {
            return None;
        }
    }
    if plain.is_empty() {
        return None;
    }
    for _ in 0..zeros {
        plain.try_push('0').ok()?;
    }
    if plain.as_str() == number {
        return None;
    }
    Some(plain)
}
