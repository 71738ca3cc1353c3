//! The words of a verdict, recognized with no number computed.
ghost use Rattle.std.specs.Prelude.{◌≡◌, ℕ, ◌≤◌, ◌<◌, ◌^◌, ◌∷◌, ◌++◌, decimal, length, take};
ghost use Rattle.std.specs.Prelude.{IfSome, IsTrue, Option};
ghost use Rattle.std.specs.Str.Parse.{AllDigits};
ghost use Rattle.bb_cert.specs.declared.verdict.Extent.{Extent};
ghost use Rattle.bb_cert.specs.verdict.Line.{pair_text, records_text};
ghost use Rattle.bb_cert.specs.verdict.Verdict.{HasExtentNumbers};
ghost use Rattle.bb_run.specs.inside.Validating.{IsWordsOf};

use crate::reply_validation::ReplyKind;

/// The most digits of numbers surely below 2^64.
const FEW_DIGITS: usize = 19;

/// The kind of the verdict after a machine's text and a space. None for no verdict, and for a number of more
/// than `FEW_DIGITS` digits.
pub(crate) fn kind_of_words(words: &[u8]) -> Option<ReplyKind>
    ensures { IfSome result (λ kind. IsWordsOf kind words.now) }
{
    match words.get(1)? {
        b't' => {
            if are_records(b" translated R ", words) {
                return Some(ReplyKind::Translated);
            }
            if are_records(b" translated L ", words) {
                return Some(ReplyKind::Translated);
            }
        }
        b'h' => {
            if are_pair(b" halt ", words) {
                return Some(ReplyKind::Halt);
            }
        }
        b'c' => {
            if are_pair(b" cycler ", words) {
                return Some(ReplyKind::Cycler);
            }
        }
        b'b' => {
            if are_pair(b" backward ", words) {
                return Some(ReplyKind::Backward);
            }
        }
        _ => {
            if words == b" undecided steps".as_slice() {
                return Some(ReplyKind::UndecidedSteps);
            }
            if words == b" undecided cells".as_slice() {
                return Some(ReplyKind::UndecidedCells);
            }
        }
    }
    None
}

/// Whether the words are these first ones and two numbers.
fn are_pair(first: &[u8], words: &[u8]) -> bool
    ensures { IsTrue result → (a : ℕ) × (b : ℕ) × (a < 2 ^ 64) × (b < 2 ^ 64)
        × (first.now ++ pair_text a b ≡ words.now) }
{
    let Some(numbers) = words.strip_prefix(first) else {
        return false;
    };
    let Some(rest) = after_pair(numbers) else {
        return false;
    };
    rest.is_empty()
}

/// Whether the words are these first ones and the steps of two records, with an extent or without.
fn are_records(first: &[u8], words: &[u8]) -> bool
    ensures { IsTrue result → (a : ℕ) × (b : ℕ) × (extent : Option Extent) × (a < 2 ^ 64) × (b < 2 ^ 64)
        × HasExtentNumbers extent × (first.now ++ records_text a b extent ≡ words.now) }
{
    let Some(numbers) = words.strip_prefix(first) else {
        return false;
    };
    let Some(rest) = after_pair(numbers) else {
        return false;
    };
    if rest.is_empty() {
        return true;
    }
    let Some(extent) = after_space(rest) else {
        return false;
    };
    let Some(nothing) = after_pair(extent) else {
        return false;
    };
    nothing.is_empty()
}

/// The bytes after two numbers and the space between them.
fn after_pair(bytes: &[u8]) -> Option<&[u8]>
    ensures { IfSome result (λ rest. (a : ℕ) × (b : ℕ) × (a < 2 ^ 64) × (b < 2 ^ 64)
        × (pair_text a b ++ rest.now ≡ bytes.now)) }
{
    let second = after_space(after_number(bytes)?)?;
    after_number(second)
}

/// The bytes after a space.
fn after_space(bytes: &[u8]) -> Option<&[u8]>
    ensures { IfSome result (λ rest. 32 ∷ rest.now ≡ bytes.now) }
{
    match bytes {
        [b' ', rest @ ..] => Some(rest),
        _ => None,
    }
}

/// The bytes after a number of few digits.
fn after_number(bytes: &[u8]) -> Option<&[u8]>
    ensures { IfSome result (λ rest. (n : ℕ) × (n < 2 ^ 64) × (decimal n ++ rest.now ≡ bytes.now)) }
{
    let digits = digits_at_first(bytes);
    if digits == 0 || digits > FEW_DIGITS {
        return None;
    }
    if bytes[0] == b'0' && digits > 1 {
        return None;
    }
    Some(&bytes[digits..])
}

/// How many of the first bytes are digits.
fn digits_at_first(bytes: &[u8]) -> usize
    ensures within { result ≤ length bytes.now }
    ensures digits { AllDigits 10 (take result bytes.now) }
{
    for (i, byte) in bytes.iter().enumerate() {
        if !byte.is_ascii_digit() {
            return i;
        }
    }
    bytes.len()
}
