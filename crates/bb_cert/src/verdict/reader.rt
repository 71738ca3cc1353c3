//! The reader of verdict lines.
ghost use Rattle.std.specs.Prelude.{◌≡◌, ◌≢◌, ℕ, ◌+◌, ◌≤◌, ◌<◌, ◌^◌, List, ◌∷◌, ◌++◌, decimal};
ghost use Rattle.std.specs.Prelude.{◌*◌, All, IfNone, IfSome, MatchOption, Option, Some};
ghost use Rattle.std.specs.Char.{digit_value};
ghost use Rattle.std.specs.Str.Parse.{AllDigits, digits_value};
ghost use Rattle.bb_cert.specs.declared.verdict.Extent.{Extent};
ghost use Rattle.bb_cert.specs.declared.verdict.Verdict.{Verdict};
ghost use Rattle.bb_cert.specs.declared.verdict.reader.Line.{Line};
ghost use Rattle.bb_cert.specs.verdict.Verdict.{HasExtentNumbers, HasNumbers};
ghost use Rattle.bb_cert.specs.verdict.Line.{pair_text, records_text, refusal_text, second_text};
ghost use Rattle.bb_cert.specs.verdict.Line.{verdict_text};
ghost use Rattle.bb_cert.specs.verdict.Line.{stated_line, IsLineOf};

use crate::verdict::{Extent, Side, Verdict, Why};
use bb_machine::{LINE, Machine};
use memchr::memchr;

/// The content of a verdict line.
#[derive(Drop)]
pub enum Line {
    /// A verdict on a machine.
    Claim(Machine, Verdict),
    /// The column of a refusal.
    Refusal(u32),
}

/// The content of a verdict line, apart from its machine.
#[derive(Clone, Copy, Debug, PartialEq, Eq)]
pub enum LineContent {
    /// A verdict on the machine.
    Claim(Verdict),
    /// The column of a refusal.
    Refusal(u32),
}

/// Reads a verdict line, without its newline; `None` for other bytes.
///
/// Fields are separated by one space. Numbers are decimal, with no sign and no leading zero.
pub fn read_line(bytes: &[u8]) -> Option<Line>
    ensures found { IfSome result (λ line. IsLineOf line bytes.now) }
    ensures only { (line : Line) → IsLineOf line bytes.now → result ≡ Some line }
    ensures none { IfNone result ((line : Line) → ¬ (IsLineOf line bytes.now)) }
{
    let mut machine = Machine::blank();
    match read_line_in_place(bytes, &mut machine) {
        Some(LineContent::Claim(verdict)) => Some(Line::Claim(machine, verdict)),
        Some(LineContent::Refusal(column)) => Some(Line::Refusal(column)),
        None => None,
    }
}

/// Reads a verdict line and its machine in place of another one, so that no table is cleared or moved. For a
/// line without a machine, `machine` is then unspecified.
pub fn read_line_in_place(bytes: &[u8], machine: &mut Machine) -> Option<LineContent>
    ensures found { IfSome result (λ said. IsLineOf (stated_line machine.new said) bytes.now) }
    ensures none { IfNone result ((line : Line) → ¬ (IsLineOf line bytes.now)) }
{
    if let Some(column) = read_refusal(bytes) {
        return Some(LineContent::Refusal(column));
    }
    let (text, words) = split_at_space(bytes)?;
    match machine.read_in_place(text) {
        Ok(()) => {}
        Err(_) => return None,
    }
    let verdict = read_verdict(words)?;
    Some(LineContent::Claim(verdict))
}

/// The column of a refused line.
fn read_refusal(bytes: &[u8]) -> Option<u32>
    ensures { MatchOption result
        ((column : ℕ) → 0 < column → column ≤ LINE + 1 → refusal_text column ≢ bytes.now)
        (λ column. (0 < column) × (column ≤ LINE + 1) × (refusal_text column ≡ bytes.now)) }
{
    let digits = bytes.strip_prefix(b"refused ".as_slice())?;
    let column = read_number(digits)?;
    if column == 0 || column > LINE as u64 + 1 {
        return None;
    }
    Some(column as u32)
}

/// The verdict after a machine and a space.
fn read_verdict(words: &[u8]) -> Option<Verdict>
    ensures { MatchOption result
        ((verdict : Verdict) → HasNumbers verdict → verdict_text verdict ≢ 32 ∷ words.now)
        (λ verdict. HasNumbers verdict × (verdict_text verdict ≡ 32 ∷ words.now)) }
{
    if let Some((steps, score)) = read_pair(b"halt ", words) {
        return Some(Verdict::Halt { steps, score });
    }
    if let Some((first, second)) = read_pair(b"cycler ", words) {
        return Some(Verdict::Cycler { first, second });
    }
    if let Some((first, second, extent)) = read_records(b"translated L ", words) {
        return Some(Verdict::Translated {
            side: Side::L,
            first,
            second,
            extent,
        });
    }
    if let Some((first, second, extent)) = read_records(b"translated R ", words) {
        return Some(Verdict::Translated {
            side: Side::R,
            first,
            second,
            extent,
        });
    }
    if let Some((levels, nodes)) = read_pair(b"backward ", words) {
        return Some(Verdict::Backward { levels, nodes });
    }
    if words == b"undecided steps".as_slice() {
        return Some(Verdict::Undecided(Why::Steps));
    }
    if words == b"undecided cells".as_slice() {
        return Some(Verdict::Undecided(Why::Cells));
    }
    None
}

/// The two numbers after these words.
#[inline(always)]
fn read_pair(words: &[u8], bytes: &[u8]) -> Option<(u64, u64)>
    ensures { MatchOption result
        ((a b : ℕ) → a < 2 ^ 64 → b < 2 ^ 64 → words.now ++ pair_text a b ≢ bytes.now)
        (λ pair. (pair.0 < 2 ^ 64) × (pair.1 < 2 ^ 64) × (words.now ++ pair_text pair.0 pair.1 ≡ bytes.now)) }
{
    let numbers = bytes.strip_prefix(words)?;
    let (first, second) = split_at_space(numbers)?;
    Some((read_number(first)?, read_number(second)?))
}

/// The steps of two records after these words, and their extent, if given.
#[inline(always)]
fn read_records(words: &[u8], bytes: &[u8]) -> Option<(u64, u64, Option<Extent>)>
    ensures { MatchOption result
        ((a b : ℕ) (extent : Option Extent) → a < 2 ^ 64 → b < 2 ^ 64 → HasExtentNumbers extent
        → words.now ++ records_text a b extent ≢ bytes.now)
        (λ found. (found.0 < 2 ^ 64) × (found.1 < 2 ^ 64) × HasExtentNumbers found.2
        × (words.now ++ records_text found.0 found.1 found.2 ≡ bytes.now)) }
{
    let numbers = bytes.strip_prefix(words)?;
    let (first, others) = split_at_space(numbers)?;
    let first = read_number(first)?;
    let (second, extent) = read_second(others)?;
    Some((first, second, extent))
}

/// The second step of a pair, and the extent, if given.
fn read_second(bytes: &[u8]) -> Option<(u64, Option<Extent>)>
    ensures { MatchOption result
        ((b : ℕ) (extent : Option Extent) → b < 2 ^ 64 → HasExtentNumbers extent
        → second_text b extent ≢ bytes.now)
        (λ found. (found.0 < 2 ^ 64) × HasExtentNumbers found.1 × (second_text found.0 found.1 ≡ bytes.now)) }
{
    let Some((second, extent)) = split_at_space(bytes) else {
        return Some((read_number(bytes)?, None));
    };
    let second = read_number(second)?;
    let (shift, length) = read_pair(b"", extent)?;
    Some((second, Some(Extent { shift, length })))
}

/// The number with this decimal text, without sign and leading zeros.
pub fn read_number(digits: &[u8]) -> Option<u64>
    ensures { MatchOption result
        ((n : ℕ) → n < 2 ^ 64 → decimal n ≢ digits.now)
        (λ n. (n < 2 ^ 64) × (decimal n ≡ digits.now)) }
{
    let first = *digits.first()?;
    if first == b'0' && digits.len() > 1 {
        return None;
    }
    value_of(digits)
}

/// The number that decimal digits write, leading zeros allowed; 0 for none.
fn value_of(digits: &[u8]) -> Option<u64>
    ensures { MatchOption result
        (AllDigits 10 digits.now → 2 ^ 64 ≤ digits_value 10 digits.now)
        (λ n. (n < 2 ^ 64) × AllDigits 10 digits.now × (digits_value 10 digits.now ≡ n)) }
{
    let mut value = 0;
    let mut rest = digits;
    while let Some((digit, others)) = rest.split_first() {
        value = with_digit(value, *digit)?;
        rest = others;
    }
    Some(value)
}

/// A number with one more decimal digit.
#[inline(always)]
fn with_digit(value: u64, digit: u8) -> Option<u64>
    ensures { MatchOption result
        (digit_value digit < 10 → 2 ^ 64 ≤ value * 10 + digit_value digit)
        (λ n. (n < 2 ^ 64) × (digit_value digit < 10) × (value * 10 + digit_value digit ≡ n)) }
{
    let added = char::from(digit).to_digit(10)?;
    value.checked_mul(10)?.checked_add(u64::from(added))
}

/// The bytes before the first space, and those after it.
#[inline(always)]
pub fn split_at_space(bytes: &[u8]) -> Option<(&[u8], &[u8])>
    ensures { MatchOption result
        ((prefix rest : List ℕ) → prefix ++ 32 ∷ rest ≢ bytes.now)
        (λ parts. All (λ byte. byte ≢ 32) parts.0.now × (parts.0.now ++ 32 ∷ parts.1.now ≡ bytes.now)) }
{
    let space = memchr(b' ', bytes)?;
    Some((&bytes[..space], &bytes[space + 1..]))
}
