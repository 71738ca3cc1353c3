//! The line of a machine and a verdict, written.
ghost use Rattle.std.specs.Prelude.{◌≡◌, ◌+◌, ◌≤◌, List, [], ◌++◌, length};
ghost use Rattle.arrayvec.specs.ArrayVec.{array_vec_len};
ghost use Rattle.bb_machine.specs.declared.entry.Entry.{Entry};
ghost use Rattle.bb_machine.specs.Machine.{text};
ghost use Rattle.bb_cert.specs.declared.verdict.Verdict.{Verdict};
ghost use Rattle.bb_cert.specs.verdict.Verdict.{HasNumbers};
ghost use Rattle.bb_cert.specs.verdict.Line.{line_text, pair_text, records_text, refusal_text, side_text};
ghost use Rattle.bb_cert.specs.verdict.Line.{verdict_text};

use crate::verdict::{Extent, Side, Verdict, Why};
use arrayvec::ArrayVec;
use bb_machine::{LINE, Machine};
use itoa::Buffer;

/// The bytes of the longest verdict line: the longest machine, ` translated R `, and four numbers
/// of 20 digits with spaces between them.
pub const LONGEST: usize = LINE + 97;

/// The bytes of a line's buffer.
pub const LINE_BUFFER: usize = 1023;

/// Appends the line of a machine and a verdict, without a newline.
pub fn line_into(machine: &Machine, verdict: &Verdict, out: &mut ArrayVec<u8, LINE_BUFFER>)
    requires { array_vec_len out.old + length (line_text machine.now verdict.now) ≤ LINE_BUFFER }
    ensures { out.new.items ≡ out.old.items ++ line_text machine.now verdict.now }
{
    machine.text_into(out);
    verdict_into(verdict, out);
}

/// Appends the line of a machine and a verdict without the machine's text, from the space after it on.
#[inline(always)]
pub fn verdict_into<const CAP: usize>(verdict: &Verdict, out: &mut ArrayVec<u8, CAP>)
    requires { array_vec_len out.old + length (verdict_text verdict.now) ≤ CAP }
    ensures { out.new.items ≡ out.old.items ++ verdict_text verdict.now }
{
    match *verdict {
        Verdict::Halt { steps, score } => pair_into(b" halt ", steps, score, out),
        Verdict::Cycler { first, second } => pair_into(b" cycler ", first, second, out),
        Verdict::Translated {
            side,
            first,
            second,
            extent,
        } => records_into(side, first, second, extent, out),
        Verdict::Backward { levels, nodes } => pair_into(b" backward ", levels, nodes, out),
        Verdict::Undecided(Why::Steps) => append(b" undecided steps", out),
        Verdict::Undecided(Why::Cells) => append(b" undecided cells", out),
    }
}

/// No verdict line is longer than `LONGEST`, if the machine's text isn't longer than `LINE`.
pub fn lines_are_short()
    ensures { (table : List (List Entry)) (verdict : Verdict) → length (text table) ≤ LINE
        → HasNumbers verdict → length (line_text table verdict) ≤ LONGEST }
{}

/// Writes the reply to a refused line, with its column, into an empty text, without a newline.
pub fn refusal_into(column: u32, text: &mut ArrayVec<u8, LINE_BUFFER>)
    requires { text.old.items ≡ [] }
    ensures { text.new.items ≡ refusal_text column }
{
    let mut digits = Buffer::new();
    append(b"refused ", text);
    append(digits.format(column).as_bytes(), text);
}

fn records_into<const CAP: usize>(
    side: Side,
    first: u64,
    second: u64,
    extent: Option<Extent>,
    out: &mut ArrayVec<u8, CAP>,
)
    requires { array_vec_len out.old + length (side_text side ++ records_text first second extent) ≤ CAP }
    ensures { out.new.items ≡ out.old.items ++ (side_text side ++ records_text first second extent) }
{
    pair_into(side_words(side), first, second, out);
    match extent {
        Some(extent) => pair_into(b" ", extent.shift, extent.length, out),
        None => {}
    }
}

fn side_words(side: Side) -> &'static [u8]
    ensures { result.now ≡ side_text side }
{
    match side {
        Side::L => b" translated L ",
        Side::R => b" translated R ",
    }
}

fn pair_into<const CAP: usize>(word: &[u8], first: u64, second: u64, out: &mut ArrayVec<u8, CAP>)
    requires { array_vec_len out.old + length (word.now ++ pair_text first second) ≤ CAP }
    ensures { out.new.items ≡ out.old.items ++ (word.now ++ pair_text first second) }
{
    let mut digits = Buffer::new();
    append(word, out);
    append(digits.format(first).as_bytes(), out);
    out.push(b' ');
    append(digits.format(second).as_bytes(), out);
}

fn append<const CAP: usize>(bytes: &[u8], out: &mut ArrayVec<u8, CAP>)
    requires { array_vec_len out.old + length bytes.now ≤ CAP }
    ensures { out.new.items ≡ out.old.items ++ bytes.now }
{
    let _room = out.try_extend_from_slice(bytes);
}
