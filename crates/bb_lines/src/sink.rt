//! Passes each line of an input to a sink. It writes nothing.
ghost use Rattle.std.specs.Prelude.{◌≡◌, ◌≢◌, ◌↔◌, ◌<◌, ◌≤◌, ◌++◌, ℕ, Bool, List, []};
ghost use Rattle.std.specs.Prelude.{false, length, take, true, IsTrue, OnErr, OnOk};
ghost use Rattle.std.specs.List.{FoldsTo};
ghost use Rattle.std.specs.Io.KnownBytes.{Consumes, IsAtEnd};
ghost use Rattle.bb_lines.specs.Watched.{is_marked, watched_inner};
ghost use Rattle.bb_lines.specs.Lines.{HasNoNewline, complete, unfinished};
ghost use Rattle.bb_lines.specs.Sink.{DrainsLines};
ghost use Rattle.bb_lines.specs.inside.Progress.{prefixes};
ghost use Rattle.bb_lines.specs.declared.responder.TheConstants.{MAX_KEPT};

use crate::fault::Fault;
use crate::lines::{CHUNK, keep_prefix};
use crate::responder::MAX_KEPT;
use crate::watched::{Failed, Watched};
use arrayvec::ArrayVec;
use memchr::memchr;
use std::alloc::AllocError;
use std::io::Read;

/// Accepts the lines of an input, one after the other.
pub trait LineSink {
    // The effect of one line on the sink.
    ghost took: { Self → List ℕ → Self → Type 0 };

    // The part of the sink's state preserved by every line: limits, targets of references.
    ghost keeps: { Self → Self → Type 0 };

    // The sink's invariant, before each line and after it.
    ghost is_ready: { Self → Type 0 };

    // Whether a line may allocate.
    ghost GROWS: { Bool };

    // The number of kept bytes of a line; the effect depends on those alone.
    ghost KEEP: { ℕ };

    /// How many bytes of a line are kept for it.
    fn bytes_kept(&self) -> usize
        ensures { result ≡ KEEP };

    /// Takes the next line. `Err` is an allocation failure.
    fn accept_line(&mut self, line: &[u8]) -> Result<(), AllocError>
        requires ready { is_ready self.old }
        requires kept { length line.now ≤ KEEP }
        ensures took { OnOk result (took self.old line.now self.new) }
        ensures keeps { keeps self.old self.new }
        ensures ready { is_ready self.new }
        ensures grows { OnErr result (IsTrue GROWS) };

    // The preserved part is preserved over many lines.
    ghost keeps_at_first: { (a : Self) → keeps a a };

    ghost keeps_on: { (a b c : Self) → keeps a b → keeps b c → keeps a c };

    // A line is kept up to here: at least one byte, and no more than there is room for.
    ghost keeps_some: { 0 < KEEP };

    ghost keeps_few: { KEEP ≤ MAX_KEPT };

    // The kept bytes of a line decide all.
    ghost took_by_kept: { (a : Self) (line : List ℕ) (b : Self) → took a (take KEEP line) b → took a line b };
}

/// Passes each line of the reader to the sink, in order. Reads to end of file.
///
/// After a fault, don't use the reader again.
pub fn drain_lines<R: Read, A: LineSink>(reader: &mut Watched<R>, sink: &mut A) -> Result<(), Fault>
    requires reader { is_marked reader.old ≡ false }
    requires ready { A.is_ready sink.old }

    // Without a fault the sink accepted all lines, and the reader is at its end.
    ensures ends { DrainsLines A.took sink.old sink.new
        (R.remaining (watched_inner reader.old)) (R.remaining (watched_inner reader.new)) result }

    // When each fault comes.
    ensures memory { result ≡ Err Fault.Memory → IsTrue A.GROWS }
    ensures read { (result ≡ Err Fault.Read) ↔ (is_marked reader.new ≡ true) }
    ensures no_write { result ≢ Err Fault.Write }

    // The sink's own state survives every result.
    ensures keeps { A.keeps sink.old sink.new }
    ensures ready { A.is_ready sink.new }
{
    let mut kept = ArrayVec::new();
    drain_reads(reader, sink, &mut kept)?;
    if kept.is_empty() {
        return Ok(());
    }
    match sink.accept_line(kept.as_slice()) {
        Ok(()) => Ok(()),
        Err(_) => Err(Fault::Memory),
    }
}

// Reads to end of file, passes on every line ended by a newline, and keeps the rest.
fn drain_reads<R: Read, A: LineSink>(
    reader: &mut Watched<R>,
    sink: &mut A,
    kept: &mut ArrayVec<u8, MAX_KEPT>,
) -> Result<(), Fault>
    requires reader { is_marked reader.old ≡ false }
    requires ready { A.is_ready sink.old }
    requires kept { kept.old.items ≡ [] }
    ensures ends { let left = R.remaining (watched_inner reader.old) in
        let left_then = R.remaining (watched_inner reader.new) in
        (taken : List ℕ) × Consumes left left_then taken × OnOk result (IsAtEnd left_then
        × FoldsTo A.took sink.old (prefixes A.KEEP (complete taken)) sink.new
        × (kept.new.items ≡ take A.KEEP (unfinished taken))) }
    ensures kept { OnOk result (length kept.new.items ≤ A.KEEP) }
    ensures memory { result ≡ Err Fault.Memory → IsTrue A.GROWS }
    ensures read { (result ≡ Err Fault.Read) ↔ (is_marked reader.new ≡ true) }
    ensures no_write { result ≢ Err Fault.Write }
    ensures keeps { A.keeps sink.old sink.new }
    ensures ready { A.is_ready sink.new }
{
    let mut chunk = [0; CHUNK];
    loop {
        let n = match reader.read(&mut chunk) {
            Ok(n) => n,
            Err(Failed) => return Err(Fault::Read),
        };
        if n == 0 {
            return Ok(());
        }
        let Ok(()) = accept_chunk(sink, kept, &chunk[..n]) else {
            return Err(Fault::Memory);
        };
    }
}

// Passes on the lines that end in this chunk of the input, and keeps the bytes after the last newline.
fn accept_chunk<A: LineSink>(
    sink: &mut A,
    kept: &mut ArrayVec<u8, MAX_KEPT>,
    piece: &[u8],
) -> Result<(), AllocError>
    requires ready { A.is_ready sink.old }
    requires kept { length kept.old.items ≤ A.KEEP }
    requires one_line { HasNoNewline kept.old.items }
    ensures took { OnOk result (FoldsTo A.took sink.old
        (prefixes A.KEEP (complete (kept.old.items ++ piece.now))) sink.new) }
    ensures kept { OnOk result (kept.new.items ≡ take A.KEEP (unfinished (kept.old.items ++ piece.now))) }
    ensures one_line { OnOk result (HasNoNewline kept.new.items) }
    ensures grows { OnErr result (IsTrue A.GROWS) }
    ensures keeps { A.keeps sink.old sink.new }
    ensures ready { A.is_ready sink.new }
{
    let most = sink.bytes_kept();
    let mut rest = piece;
    while let Some(at) = memchr(b'\n', rest) {
        accept_whole(sink, kept, &rest[..at], most)?;
        rest = &rest[at + 1..];
    }
    keep_prefix(kept, rest, most);
    Ok(())
}

// Passes on the line made of the kept bytes and this chunk, without its newline. With nothing kept, it passes
// on the line in place.
#[inline(always)]
fn accept_whole<A: LineSink>(
    sink: &mut A,
    kept: &mut ArrayVec<u8, MAX_KEPT>,
    piece: &[u8],
    most: usize,
) -> Result<(), AllocError>
    requires most { most ≡ A.KEEP }
    requires ready { A.is_ready sink.old }
    requires kept { length kept.old.items ≤ A.KEEP }
    ensures took { OnOk result (A.took sink.old (take A.KEEP (kept.old.items ++ piece.now)) sink.new) }
    ensures kept { OnOk result (kept.new.items ≡ []) }
    ensures grows { OnErr result (IsTrue A.GROWS) }
    ensures keeps { A.keeps sink.old sink.new }
    ensures ready { A.is_ready sink.new }
{
    if kept.is_empty() {
        return sink.accept_line(&piece[..piece.len().min(most)]);
    }
    keep_prefix(kept, piece, most);
    sink.accept_line(kept.as_slice())?;
    kept.clear();
    Ok(())
}
