//! The reply to a machine, written: its line.
ghost use Rattle.std.specs.Prelude.{◌≡◌, ◌+◌, ◌<◌, ◌≤◌, [], ◌++◌, codes, decimal, length};
ghost use Rattle.arrayvec.specs.ArrayVec.{array_vec_len};
ghost use Rattle.bb_machine.specs.declared.machine.TheConstants.{MAX_STATES};
ghost use Rattle.bb_machine.specs.Machine.{symbols_of, text};
ghost use Rattle.bb_cover.specs.LineReply.{HasEntryText, how_text, line_text, mirror_text, names_text};
ghost use Rattle.bb_cover.specs.LineReply.{naming_text};

use crate::line::{How, Line};
use crate::naming::{Names, Naming};
use crate::text::{append, bytes_of};
use arrayvec::ArrayVec;
use bb_lines::responder::REPLY;
use bb_machine::Machine;
use itoa::Buffer;

/// The text of a reply.
pub(crate) type Reply = ArrayVec<u8, REPLY>;

/// Writes a machine and its line into the empty text.
pub(crate) fn line_into(machine: &Machine, line: &Line, reply: &mut Reply)
    requires empty { reply.old.items ≡ [] }
    requires entry { HasEntryText line.now.how }
    ensures { reply.new.items ≡ line_text machine.now line.now }
{
    let states = machine.states();
    let symbols = machine.symbols();
    machine.text_into(reply);
    append(b" line ", reply);
    let _short = line.machine.states();
    line.machine.text_into(reply);
    naming_into(&line.change, states, symbols, reply);
    how_into(&line.how, reply);
}

/// Appends the change.
fn naming_into(naming: &Naming, states: u8, symbols: u8, reply: &mut Reply)
    requires states { states ≤ MAX_STATES }
    requires symbols { symbols ≤ MAX_STATES }
    requires room { array_vec_len reply.old + 100 ≤ REPLY }
    ensures appended { reply.new.items ≡ reply.old.items ++ naming_text states symbols naming.now }
    ensures short { array_vec_len reply.new ≤ array_vec_len reply.old + 100 }
{
    append(mirror_word(naming.mirrored), reply);
    names_into(b'A', &naming.states, states, reply);
    append(b" ", reply);
    names_into(b'0', &naming.symbols, symbols, reply);
}

fn mirror_word(mirrored: bool) -> &'static [u8]
    ensures word { result.now ≡ mirror_text mirrored }
    ensures short { length result.now ≤ 8 }
{
    if mirrored { b" mirror " } else { b" same " }
}

/// Appends the new names of the first so many numbers, as letters from this one on.
fn names_into(first: u8, names: &Names, count: u8, reply: &mut Reply)
    requires first { first ≤ 65 }
    requires count { count ≤ MAX_STATES }
    requires room { array_vec_len reply.old + count ≤ REPLY }
    ensures appended { reply.new.items ≡ reply.old.items ++ names_text first names.now.new count }
    ensures length { array_vec_len reply.new ≡ array_vec_len reply.old + count }
{
    for name in 0..count {
        append(&[first + names.new_name(name)], reply);
    }
}

/// Appends the end of the line's run.
fn how_into(how: &How, reply: &mut Reply)
    requires entry { HasEntryText how.now }
    requires room { array_vec_len reply.old + 60 ≤ REPLY }
    ensures { reply.new.items ≡ reply.old.items ++ how_text how.now }
{
    match how {
        How::Runs => append(b" runs", reply),
        How::Halts(halt) => {
            append(b" halt ", reply);
            number_into(halt.steps, reply);
            append(b" ", reply);
            number_into(halt.score, reply);
            append(b" ", reply);
            append(&bytes_of(halt.entry), reply);
        }
    }
}

fn number_into(number: u64, reply: &mut Reply)
    requires room { array_vec_len reply.old + 20 ≤ REPLY }
    ensures appended { reply.new.items ≡ reply.old.items ++ decimal number }
    ensures short { array_vec_len reply.new ≤ array_vec_len reply.old + 20 }
{
    let mut digits = Buffer::new();
    append(digits.format(number).as_bytes(), reply);
}
