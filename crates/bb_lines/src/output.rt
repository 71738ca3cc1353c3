//! Buffered output.
ghost use Rattle.std.specs.Prelude.{◌≡◌, ◌≤◌, [], ◌∷◌, ◌++◌, false};
ghost use Rattle.std.specs.Prelude.{length, OnOk, OnErr, IsOkUnless, is_err};
ghost use Rattle.std.specs.Io.KnownBytes.{Appends};
ghost use Rattle.bb_lines.specs.Watched.{watched_inner, is_marked};
ghost use Rattle.bb_lines.specs.Ends.{AppendsPrefix};
ghost use Rattle.bb_lines.specs.Output.{Sends};

use crate::fault::Fault;
use crate::responder::REPLY;
use crate::watched::{Failed, Watched};
use arrayvec::ArrayVec;
use std::io::Write;

/// How many bytes may wait.
pub const WAITING: usize = 16384;

/// Bytes to be written later.
pub type Waiting = ArrayVec<u8, WAITING>;

/// Buffers bytes, and writes the buffer first if it has no room for them. After an error, always
/// `Fault::Write`, the bytes are lost.
pub fn add<W: Write>(
    writer: &mut Watched<W>,
    waiting: &mut Waiting,
    bytes: &[u8],
) -> Result<(), Fault>
    requires writer { is_marked writer.old ≡ false }
    requires few { length bytes.now ≤ WAITING }
    ensures sent { OnOk result (Sends (W.contents (watched_inner writer.old))
        (W.contents (watched_inner writer.new)) waiting.old.items waiting.new.items bytes.now) }
    ensures err { OnErr result (AppendsPrefix (W.contents (watched_inner writer.old))
        (W.contents (watched_inner writer.new)) waiting.old.items) }
    ensures only_write { IsOkUnless result Fault.Write }
    ensures mark { is_marked writer.new ≡ is_err result }
{
    if waiting.remaining_capacity() < bytes.len() {
        write_waiting(writer, waiting)?;
    }
    waiting.try_extend_from_slice(bytes).unwrap();
    Ok(())
}

/// Buffers a text of at most `REPLY` bytes and a newline, and writes the buffer first if it has no room for
/// both. After an error the text is lost.
#[inline(always)]
pub fn add_line<W: Write>(
    writer: &mut Watched<W>,
    waiting: &mut Waiting,
    text: &[u8],
) -> Result<(), Fault>
    requires writer { is_marked writer.old ≡ false }
    requires short { length text.now ≤ REPLY }
    ensures sent { OnOk result (Sends (W.contents (watched_inner writer.old))
        (W.contents (watched_inner writer.new)) waiting.old.items waiting.new.items (text.now ++ 10 ∷ [])) }
    ensures err { OnErr result (AppendsPrefix (W.contents (watched_inner writer.old))
        (W.contents (watched_inner writer.new)) waiting.old.items) }
    ensures only_write { IsOkUnless result Fault.Write }
    ensures mark { is_marked writer.new ≡ is_err result }
{
    if waiting.remaining_capacity() <= text.len() {
        write_waiting(writer, waiting)?;
    }
    waiting.try_extend_from_slice(text).unwrap();
    waiting.push(b'\n');
    Ok(())
}

/// Writes the whole buffer, by as many calls as necessary.
pub fn write_waiting<W: Write>(writer: &mut Watched<W>, waiting: &mut Waiting) -> Result<(), Fault>
    requires { is_marked writer.old ≡ false }
    ensures ok { OnOk result (Appends (W.contents (watched_inner writer.old))
        (W.contents (watched_inner writer.new)) waiting.old.items) }
    ensures empty { OnOk result (waiting.new.items ≡ []) }
    ensures err { OnErr result (AppendsPrefix (W.contents (watched_inner writer.old))
        (W.contents (watched_inner writer.new)) waiting.old.items) }
    ensures only_write { IsOkUnless result Fault.Write }
    ensures mark { is_marked writer.new ≡ is_err result }
{
    let mut rest = waiting.as_slice();
    while !rest.is_empty() {
        match writer.write(rest) {
            Ok(n) => rest = &rest[n..],
            Err(Failed) => return Err(Fault::Write),
        }
    }
    waiting.clear();
    Ok(())
}

/// Writes the whole buffer and flushes the writer once.
pub fn write_and_flush<W: Write>(
    writer: &mut Watched<W>,
    waiting: &mut Waiting,
) -> Result<(), Fault>
    requires { is_marked writer.old ≡ false }
    ensures ok { OnOk result (Appends (W.contents (watched_inner writer.old))
        (W.contents (watched_inner writer.new)) waiting.old.items) }
    ensures empty { OnOk result (waiting.new.items ≡ []) }
    ensures err { OnErr result (AppendsPrefix (W.contents (watched_inner writer.old))
        (W.contents (watched_inner writer.new)) waiting.old.items) }
    ensures only_write { IsOkUnless result Fault.Write }
    ensures mark { is_marked writer.new ≡ is_err result }
{
    write_waiting(writer, waiting)?;
    match writer.flush() {
        Ok(()) => Ok(()),
        Err(Failed) => Err(Fault::Write),
    }
}
