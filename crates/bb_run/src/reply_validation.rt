//! The validation of replies to the lines of a list: the form of each, and the number of each kind.
ghost use Rattle.std.specs.Prelude.{◌≡◌, ℕ, ◌+◌, ◌<◌, ◌^◌, [], ◌∷◌, ◌++◌, length, IfErr, IfOk, IsTrue};
ghost use Rattle.std.specs.Prelude.{◌↔◌, IfSome, MatchOption, OnErr, OnOk};
ghost use Rattle.bb_lines.specs.Lines.{AreReplies, HasNoNewline, lines};
ghost use Rattle.bb_machine.specs.Column.{BeginsWith};
ghost use Rattle.bb_machine.specs.Machine.{text};
ghost use Rattle.bb_run.specs.Validation.{CountsReplies, HasForm, IsFirstWithout, IsOfKind, SaysVerdict, counts_of};
ghost use Rattle.bb_run.specs.Validation.{kind_of};
ghost use Rattle.bb_run.specs.inside.Validating.{IsRefusedAt};

use crate::words::kind_of_words;
use bb_cert::{LineContent, Verdict, Why, read_line_in_place};
use bb_machine::Machine;
use memchr::memchr;
use thiserror::Error;

/// The kind of a reply to a line.
#[derive(Clone, Copy, Debug, PartialEq, Eq)]
pub enum ReplyKind {
    /// It halts.
    Halt,
    /// It never halts: a configuration comes again.
    Cycler,
    /// It never halts: records of a side agree.
    Translated,
    /// It never halts: the backward tree ends.
    Backward,
    /// Nothing was found within the limit of steps.
    UndecidedSteps,
    /// Nothing was found within the limit of cells.
    UndecidedCells,
    /// The line is no machine's text.
    Refused,
}

/// How many replies there are of each kind. C sees seven numbers in this order.
#[derive(Clone, Copy, Debug, Default, PartialEq, Eq)]
#[repr(C)]
pub struct KindCounts {
    /// It halts.
    pub halt: u64,
    /// It never halts: a configuration comes again.
    pub cycler: u64,
    /// It never halts: records of a side agree.
    pub translated: u64,
    /// It never halts: the backward tree ends.
    pub backward: u64,
    /// Nothing was found within the limit of steps.
    pub undecided_steps: u64,
    /// Nothing was found within the limit of cells.
    pub undecided_cells: u64,
    /// The line is no machine's text.
    pub refused: u64,
}

/// The result for valid replies.
#[derive(Clone, Copy, Debug, PartialEq, Eq)]
pub struct ReplyCheck {
    /// How many replies there are of each kind.
    pub counts: KindCounts,
    /// How many there are.
    pub lines: u64,
}

/// Some line has no reply of its form, or there are more replies than lines.
#[derive(Clone, Copy, Debug, PartialEq, Eq, Error)]
#[error("line {line} has no reply of its form")]
pub struct Mismatch {
    /// The index, from 0, of the first line without a reply; for superfluous replies, the number of lines.
    pub line: u64,
}

/// Validates the replies to the lines of a list: each line has one reply of its form, in order, with a
/// newline after it, and there are no more. It doesn't check whether a verdict is right, and allocates
/// nothing.
///
/// A line of the list ends at a newline; a last line without one counts if it isn't empty.
pub fn validate_replies(list: &[u8], replies: &[u8]) -> Result<ReplyCheck, Mismatch>
    ensures counts { IfOk result (λ looked.
        CountsReplies (lines list.now) replies.now looked.counts looked.lines) }
    ensures replies { OnOk result (AreReplies HasForm (lines list.now) replies.now) }
    ensures first { IfErr result (λ unanswered. IsFirstWithout (lines list.now) replies.now unanswered.line) }
    ensures no_replies { OnErr result (AreReplies HasForm (lines list.now) replies.now → ⊥) }
{
    let mut machine = Machine::blank();
    let mut looked = ReplyCheck {
        counts: KindCounts::default(),
        lines: 0,
    };
    let mut lines_left = list;
    let mut replies_left = replies;
    while let Some((line, more_lines)) = first_line(lines_left) {
        let Some((reply, more_replies)) = first_reply(replies_left) else {
            return Err(Mismatch { line: looked.lines });
        };
        let Some(kind) = kind_of_reply(line, reply, &mut machine) else {
            return Err(Mismatch { line: looked.lines });
        };
        looked.counts.add(kind);
        looked.lines += 1;
        lines_left = more_lines;
        replies_left = more_replies;
    }
    if !replies_left.is_empty() {
        return Err(Mismatch { line: looked.lines });
    }
    Ok(looked)
}

/// The first line, and the bytes after its newline; none if there are no bytes.
pub(crate) fn first_line(bytes: &[u8]) -> Option<(&[u8], &[u8])>
    ensures { MatchOption result (bytes.now ≡ []) (λ cut. (lines bytes.now ≡ cut.0.now ∷ lines cut.1.now)
        × HasNoNewline cut.0.now × (length cut.1.now < length bytes.now)) }
{
    if bytes.is_empty() {
        return None;
    }
    match memchr(b'\n', bytes) {
        Some(at) => Some((&bytes[..at], &bytes[at + 1..])),
        None => Some((bytes, b"".as_slice())),
    }
}

/// The first reply, and the bytes after its newline; none without a newline.
fn first_reply(bytes: &[u8]) -> Option<(&[u8], &[u8])>
    ensures { MatchOption result (HasNoNewline bytes.now)
        (λ cut. HasNoNewline cut.0.now × ((cut.0.now ++ 10 ∷ []) ++ cut.1.now ≡ bytes.now)) }
{
    let at = memchr(b'\n', bytes)?;
    Some((&bytes[..at], &bytes[at + 1..]))
}

/// The kind of a reply to a line; none for another form. The machine is read in place of another.
fn kind_of_reply(line: &[u8], reply: &[u8], machine: &mut Machine) -> Option<ReplyKind>
    ensures { MatchOption result ((kind : ReplyKind) → IsOfKind kind line.now reply.now → ⊥)
        (λ kind. IsOfKind kind line.now reply.now) }
{
    if let Some(kind) = kind_by_words(line, reply) {
        return Some(kind);
    }
    match read_line_in_place(reply, machine)? {
        LineContent::Claim(verdict) => {
            if !is_text(machine, line, reply) {
                return None;
            }
            Some(ReplyKind::of(&verdict))
        }
        LineContent::Refusal(column) => {
            if !is_refused_at(line, column, machine) {
                return None;
            }
            Some(ReplyKind::Refused)
        }
    }
}

/// The kind of a reply that starts with the line's own text, if its numbers have few digits, as most have:
/// that takes less than half the time of reading the whole reply.
fn kind_by_words(line: &[u8], reply: &[u8]) -> Option<ReplyKind>
    ensures { IfSome result (λ kind. SaysVerdict kind line.now reply.now) }
{
    let kind = kind_of_words(reply.strip_prefix(line)?)?;
    if Machine::can_read(line) {
        Some(kind)
    } else {
        None
    }
}

/// Whether a line is the text of the machine at the start of the reply.
fn is_text(machine: &Machine, line: &[u8], reply: &[u8]) -> bool
    requires { BeginsWith reply.now (text machine.now) }
    ensures { IsTrue result ↔ (text machine.now ≡ line.now) }
{
    let length = machine.states() as usize * (3 * machine.symbols() as usize + 1) - 1;
    line.len() == length && reply.starts_with(line)
}

/// Whether a line is no machine's text, and has this column. The machine is read in place of another.
fn is_refused_at(line: &[u8], column: u32, machine: &mut Machine) -> bool
    ensures { IsTrue result ↔ IsRefusedAt line.now column }
{
    match machine.read_in_place(line) {
        Ok(()) => false,
        Err(refused) => refused.column == column,
    }
}

impl ReplyKind {
    /// The kind of a verdict.
    fn of(verdict: &Verdict) -> ReplyKind
        ensures { result ≡ kind_of verdict.now }
    {
        match verdict {
            Verdict::Halt { .. } => ReplyKind::Halt,
            Verdict::Cycler { .. } => ReplyKind::Cycler,
            Verdict::Translated { .. } => ReplyKind::Translated,
            Verdict::Backward { .. } => ReplyKind::Backward,
            Verdict::Undecided(Why::Steps) => ReplyKind::UndecidedSteps,
            Verdict::Undecided(Why::Cells) => ReplyKind::UndecidedCells,
        }
    }
}

impl KindCounts {
    ghost use Rattle.std.specs.Prelude.{List};

    /// Counts one more reply, of this kind.
    fn add(&mut self, kind: ReplyKind)
        requires { (kinds : List ReplyKind) × (length kinds + 1 < 2 ^ 64) × (self.old ≡ counts_of kinds) }
        ensures { (kinds : List ReplyKind) → self.old ≡ counts_of kinds
            → self.new ≡ counts_of (kinds ++ kind ∷ []) }
    {
        match kind {
            ReplyKind::Halt => self.halt += 1,
            ReplyKind::Cycler => self.cycler += 1,
            ReplyKind::Translated => self.translated += 1,
            ReplyKind::Backward => self.backward += 1,
            ReplyKind::UndecidedSteps => self.undecided_steps += 1,
            ReplyKind::UndecidedCells => self.undecided_cells += 1,
            ReplyKind::Refused => self.refused += 1,
        }
    }
}
