//! The lines of a list: a machine with a verdict, or with the counts of its shard.
ghost use Rattle.std.specs.Prelude.{◌≡◌, ◌≢◌, ◌↔◌, ℕ, ◌<◌, ◌^◌, ◌∷◌, ◌++◌, List, decimal};
ghost use Rattle.std.specs.Prelude.{All, IfNone, IfSome, IsTrue, MatchOption};
ghost use Rattle.bb_machine.specs.Machine.{Table};
ghost use Rattle.bb_cert.specs.declared.verdict.Verdict.{Verdict};
ghost use Rattle.bb_cert.specs.declared.verdict.reader.Line.{Line};
ghost use Rattle.bb_cert.specs.verdict.Line.{IsLineOf};
ghost use Rattle.bb_cover.specs.Content.{ArePossible, HasCounts, IsDigest, IsHexDigit, IsItemLine, IsShardLine};
ghost use Rattle.bb_cover.specs.Content.{Item, shard_text};

use crate::task::Form;
use bb_cert::{LineContent, Verdict, read_line_in_place, read_number, split_at_space};
use bb_machine::Machine;

/// The bytes of a digest: a SHA-256 in hexadecimal.
const DIGEST: usize = 64;

/// The counts of a shard, the lines of the walk below a machine.
#[derive(Clone, Copy, Debug, PartialEq, Eq)]
pub struct ShardCounts {
    /// Its lines.
    pub lines: u64,
    /// Those that are undecided.
    pub undecided: u64,
    /// Those of them with more than one `---`.
    pub wide: u64,
}

/// The content of a line, apart from its machine.
#[derive(Clone, Copy, Debug)]
pub(crate) enum Content {
    /// A verdict on the machine.
    Claim(Verdict),
    /// The counts of the walk below the machine.
    Shard(ShardCounts),
}

/// The content of a line, if it has one. The machine is read in place of another.
pub(crate) fn read_content(line: &[u8], form: Form, machine: &mut Machine) -> Option<Content>
    ensures found { IfSome result (λ content.
        IsItemLine form (record { table = machine.new; content = content }) line.now) }
    ensures none { IfNone result ((item : Item) → IsItemLine form item line.now → ⊥) }
{
    if let Some(verdict) = read_verdict(line, machine) {
        return Some(Content::Claim(verdict));
    }
    match form {
        Form::Verdicts => None,
        Form::Skeleton => match read_shard(line, machine) {
            Some(shard) => Some(Content::Shard(shard)),
            None => None,
        },
    }
}

/// The verdict in a line, if it has one. The machine is read in place of another.
fn read_verdict(line: &[u8], machine: &mut Machine) -> Option<Verdict>
    ensures found { IfSome result (λ verdict. IsLineOf (Line.Claim machine.new verdict) line.now) }
    ensures none { IfNone result ((table : Table) (verdict : Verdict)
        → IsLineOf (Line.Claim table verdict) line.now → ⊥) }
{
    match read_line_in_place(line, machine) {
        Some(LineContent::Claim(verdict)) => Some(verdict),
        Some(LineContent::Refusal(_)) => None,
        None => None,
    }
}

/// The counts in the line of a shard, if it is one. The machine is read in place of another.
fn read_shard(line: &[u8], machine: &mut Machine) -> Option<ShardCounts>
    ensures found { IfSome result (λ shard. IsShardLine machine.new shard line.now) }
    ensures none { IfNone result ((table : Table) (shard : ShardCounts)
        → IsShardLine table shard line.now → ⊥) }
{
    let (text, words) = split_at_space(line)?;
    match machine.read_in_place(text) {
        Ok(()) => read_counts(words),
        Err(_) => None,
    }
}

/// The counts after a machine and a space, and before a digest.
fn read_counts(words: &[u8]) -> Option<ShardCounts>
    ensures { MatchOption result
        ((shard : ShardCounts) (digest : List ℕ) → HasCounts shard → IsDigest digest
        → shard_text shard digest ≢ words.now)
        (λ shard. HasCounts shard × ((digest : List ℕ) × IsDigest digest
        × (shard_text shard digest ≡ words.now))) }
{
    let counts = words.strip_prefix(b"below ".as_slice())?;
    let (lines, counts) = read_count(counts)?;
    let (undecided, counts) = read_count(counts)?;
    let (wide, digest) = read_count(counts)?;
    if !is_digest(digest) {
        return None;
    }
    let shard = ShardCounts {
        lines,
        undecided,
        wide,
    };
    if !are_possible(shard) {
        return None;
    }
    Some(shard)
}

/// Whether a walk may have these counts.
fn are_possible(shard: ShardCounts) -> bool
    ensures { IsTrue result ↔ ArePossible shard }
{
    1 <= shard.lines && shard.undecided <= shard.lines && shard.wide <= shard.undecided
}

/// The number before the first space, and the bytes after it.
fn read_count(bytes: &[u8]) -> Option<(u64, &[u8])>
    ensures { MatchOption result
        ((n : ℕ) (rest : List ℕ) → n < 2 ^ 64 → decimal n ++ 32 ∷ rest ≢ bytes.now)
        (λ found. (found.0 < 2 ^ 64) × (decimal found.0 ++ 32 ∷ found.1.now ≡ bytes.now)) }
{
    let (digits, rest) = split_at_space(bytes)?;
    let count = read_number(digits)?;
    Some((count, rest))
}

/// Whether the bytes are a digest.
fn is_digest(bytes: &[u8]) -> bool
    ensures { IsTrue result ↔ IsDigest bytes.now }
{
    bytes.len() == DIGEST && bytes.iter().all(|byte| is_hex_digit(*byte))
}

/// Whether a byte is a hexadecimal digit, in lower case.
fn is_hex_digit(byte: u8) -> bool
    ensures { IsTrue result ↔ IsHexDigit byte }
{
    byte.is_ascii_digit() || (b'a'..=b'f').contains(&byte)
}
