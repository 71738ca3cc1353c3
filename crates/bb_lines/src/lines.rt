//! Reads lines, replies to each, and writes the replies.
ghost use Rattle.std.specs.Prelude.{◌≡◌, ◌≢◌, ◌↔◌, ℕ, ◌+◌, ◌<◌, ◌≤◌, ◌^◌, ◌-◌, ◌||◌, min, List, []};
ghost use Rattle.std.specs.Prelude.{◌∷◌, ◌++◌, true, false, length, take, IsTrue, OnOk, is_err};
ghost use Rattle.std.specs.List.{FoldsTo};
ghost use Rattle.std.specs.Io.{ReadsAtMost};
ghost use Rattle.std.specs.Io.KnownBytes.{Consumes, IsAtEnd, ReadConsumes};
ghost use Rattle.bb_lines.specs.Watched.{watched_inner, is_marked, reads_of};
ghost use Rattle.bb_lines.specs.Lines.{HasNoNewline, complete, lines, unfinished};
ghost use Rattle.bb_lines.specs.Cost.{high_cost};
ghost use Rattle.bb_lines.specs.Ends.{MatchEnd, AppendsPrefixOfReplies};
ghost use Rattle.bb_lines.specs.Ends.{AppendsReplies, AppendsSome, ListEnds};
ghost use Rattle.bb_lines.specs.inside.Progress.{Answers, EngineAnswers, KeepsReferences, prefixes};
ghost use Rattle.arrayvec.specs.ArrayVec.{array_vec_len};

use crate::fault::Fault;
use crate::output::{Waiting, add_line, write_and_flush, write_waiting};
use crate::responder::{HIGH_COST, MAX_KEPT, REPLY, Responder};
use crate::watched::{Failed, Watched};
use arrayvec::ArrayVec;
use memchr::memchr;
use std::io::{Read, Write};

/// The most bytes of one read.
pub(crate) const CHUNK: usize = 16384;

/// Replies to each line of the reader, in order, one line each. Reads to end of file. Replies are buffered
/// and written before the next read, when the buffer has no room for one more, or at once after a high cost.
/// The writer is flushed once, at the end of a run without a fault.
///
/// After a fault, don't use the reader and the writer again.
pub fn run<R: Read, W: Write, A: Responder>(
    reader: &mut Watched<R>,
    writer: &mut Watched<W>,
    responder: &mut A,
) -> Result<(), Fault>
    requires reader { is_marked reader.old ≡ false }
    requires writer { is_marked writer.old ≡ false }
    requires ready { A.is_ready responder.old }

    // The result of the run and the output written, for the bytes read.
    ensures ends { ListEnds (A.replies_with responder.old)
        (λ lines _. FoldsTo A.saw responder.old lines responder.new)
        (R.remaining (watched_inner reader.old)) (R.remaining (watched_inner reader.new))
        (W.contents (watched_inner writer.old)) (W.contents (watched_inner writer.new)) result }

    // When each fault comes.
    ensures memory { result ≡ Err Fault.Memory → IsTrue A.GROWS }
    ensures read { (result ≡ Err Fault.Read) ↔ (is_marked reader.new ≡ true) }
    ensures write { (result ≡ Err Fault.Write) ↔ (is_marked writer.new ≡ true) }

    // The responder's own state survives every result.
    ensures keeps { A.keeps responder.old responder.new }
    ensures ready { A.is_ready responder.new }
{
    let mut engine = Engine::new(reader, writer, responder);
    engine.answer_all()
}

// A run over the lines of a reader.
#[derive(Drop)]
struct Engine<'a, R, W, A> {
    reader: &'a mut Watched<R>,
    writer: &'a mut Watched<W>,
    responder: &'a mut A,
    // The first bytes of the line at work.
    kept: ArrayVec<u8, MAX_KEPT>,
    // The last reply.
    text: ArrayVec<u8, REPLY>,
    // The replies not yet written.
    waiting: Waiting,
}

impl<'a, R: Read, W: Write, A: Responder> Engine<'a, R, W, A> {
    // A run before its first read and write.
    fn new(
        reader: &'a mut Watched<R>,
        writer: &'a mut Watched<W>,
        responder: &'a mut A,
    ) -> Engine<'a, R, W, A>
        ensures reader_reference { result.reader.ghost_name ≡ reader.entry.ghost_name }
        ensures writer_reference { result.writer.ghost_name ≡ writer.entry.ghost_name }
        ensures responder_reference { result.responder.ghost_name ≡ responder.entry.ghost_name }
        ensures reader { result.reader.now ≡ reader.old }
        ensures writer { result.writer.now ≡ writer.old }
        ensures responder { result.responder.now ≡ responder.old }
        ensures kept { result.kept.items ≡ [] }
        ensures waiting { result.waiting.items ≡ [] }
    {
        Engine {
            reader,
            writer,
            responder,
            kept: ArrayVec::new(),
            text: ArrayVec::new(),
            waiting: ArrayVec::new(),
        }
    }

    // Answers all lines, writes all replies and flushes the writer.
    fn answer_all(&mut self) -> Result<(), Fault>
        requires reader { is_marked self.old.reader.now ≡ false }
        requires writer { is_marked self.old.writer.now ≡ false }
        requires ready { A.is_ready self.old.responder.now }
        requires kept { self.old.kept.items ≡ [] }
        requires waiting { self.old.waiting.items ≡ [] }
        ensures ends { ListEnds (A.replies_with self.old.responder.now)
            (λ lines _. FoldsTo A.saw self.old.responder.now lines self.new.responder.now)
            (R.remaining (watched_inner self.old.reader.now))
            (R.remaining (watched_inner self.new.reader.now))
            (W.contents (watched_inner self.old.writer.now))
            (W.contents (watched_inner self.new.writer.now)) result }
        ensures memory { result ≡ Err Fault.Memory → IsTrue A.GROWS }
        ensures read { (result ≡ Err Fault.Read) ↔ (is_marked self.new.reader.now ≡ true) }
        ensures write { (result ≡ Err Fault.Write) ↔ (is_marked self.new.writer.now ≡ true) }
        ensures keeps { A.keeps self.old.responder.now self.new.responder.now }
        ensures ready { A.is_ready self.new.responder.now }
        ensures references { KeepsReferences self.old self.new }
    {
        self.answer_reads()?;
        if !self.kept.is_empty() {
            self.answer_kept()?;
        }
        write_and_flush(self.writer, &mut self.waiting)
    }

    // Reads to end of file, answers every line ended by a newline, and keeps the rest.
    fn answer_reads(&mut self) -> Result<(), Fault>
        requires reader { is_marked self.old.reader.now ≡ false }
        requires writer { is_marked self.old.writer.now ≡ false }
        requires ready { A.is_ready self.old.responder.now }
        requires kept { self.old.kept.items ≡ [] }
        requires waiting { self.old.waiting.items ≡ [] }
        ensures ends { let left = R.remaining (watched_inner self.old.reader.now) in
            let left_then = R.remaining (watched_inner self.new.reader.now) in
            let held = W.contents (watched_inner self.old.writer.now) in
            let held_then = W.contents (watched_inner self.new.writer.now) in
            let Reply = A.replies_with self.old.responder.now in
            (taken : List ℕ) × Consumes left left_then taken × MatchEnd result
            (λ _. IsAtEnd left_then × AppendsReplies Reply held held_then (prefixes A.KEEP (complete taken))
            × FoldsTo A.saw self.old.responder.now (prefixes A.KEEP (complete taken)) self.new.responder.now
            × (self.new.kept.items ≡ take A.KEEP (unfinished taken)))
            (AppendsSome Reply held held_then (prefixes A.KEEP (lines taken)))
            (AppendsReplies Reply held held_then (prefixes A.KEEP (complete taken)))
            (AppendsPrefixOfReplies Reply held held_then (prefixes A.KEEP (lines taken))) }
        ensures kept { OnOk result (length self.new.kept.items ≤ A.KEEP) }
        ensures written { OnOk result (self.new.waiting.items ≡ []) }
        ensures memory { result ≡ Err Fault.Memory → IsTrue A.GROWS }
        ensures read { (result ≡ Err Fault.Read) ↔ (is_marked self.new.reader.now ≡ true) }
        ensures write { (result ≡ Err Fault.Write) ↔ (is_marked self.new.writer.now ≡ true) }
        ensures keeps { A.keeps self.old.responder.now self.new.responder.now }
        ensures ready { A.is_ready self.new.responder.now }
        ensures references { KeepsReferences self.old self.new }
    {
        let mut chunk = [0; CHUNK];
        loop {
            write_waiting(self.writer, &mut self.waiting)?;
            let n = match self.read_chunk(&mut chunk) {
                Ok(n) => n,
                Err(Failed) => return Err(Fault::Read),
            };
            if n == 0 {
                return Ok(());
            }
            self.answer_lines(&chunk[..n])?;
        }
    }

    // Reads the next bytes. No reply waits meanwhile.
    fn read_chunk(&mut self, chunk: &mut [u8]) -> Result<usize, Failed>
        requires written { self.old.waiting.items ≡ [] }
        ensures bound { ReadsAtMost result chunk.new }
        ensures bytes { ReadConsumes (R.remaining (watched_inner self.old.reader.now))
            (R.remaining (watched_inner self.new.reader.now)) result chunk.new }
        ensures mark { is_marked self.new.reader.now ≡ (is_marked self.old.reader.now || is_err result) }
        ensures reads { reads_of self.new.reader.now ≡ min (reads_of self.old.reader.now + 1) (2 ^ 64 - 1) }
        ensures turns { OnOk result (reads_of self.old.reader.now < 2 ^ 64 - 1) }
        ensures writer { self.new.writer ≡ self.old.writer }
        ensures waiting { self.new.waiting ≡ self.old.waiting }
        ensures responder { self.new.responder ≡ self.old.responder }
        ensures kept { self.new.kept ≡ self.old.kept }
        ensures references { KeepsReferences self.old self.new }
    {
        self.reader.read(chunk)
    }

    // Answers the lines that end in this chunk of the input, and keeps the bytes after the last newline.
    fn answer_lines(&mut self, piece: &[u8]) -> Result<(), Fault>
        requires writer { is_marked self.old.writer.now ≡ false }
        requires ready { A.is_ready self.old.responder.now }
        requires kept { length self.old.kept.items ≤ A.KEEP }
        requires one_line { HasNoNewline self.old.kept.items }
        requires prompt { high_cost < A.cost self.old.responder.now → self.old.waiting.items ≡ [] }
        ensures answers { let ended = prefixes A.KEEP (complete (self.old.kept.items ++ piece.now)) in
            EngineAnswers A.replies_with A.saw A.cost A.keeps A.is_ready A.GROWS W.contents
            self.old self.new ended result }
        ensures kept { let left = unfinished (self.old.kept.items ++ piece.now) in
            OnOk result (self.new.kept.items ≡ take A.KEEP left) }
        ensures one_line { OnOk result (HasNoNewline self.new.kept.items) }
        ensures reader { self.new.reader.now ≡ self.old.reader.now }
        ensures references { KeepsReferences self.old self.new }
    {
        let most = self.responder.bytes_kept();
        let mut rest = piece;
        while let Some(at) = memchr(b'\n', rest) {
            self.answer_line(&rest[..at], most)?;
            rest = &rest[at + 1..];
        }
        keep_prefix(&mut self.kept, rest, most);
        Ok(())
    }

    // Answers the line made of the kept bytes and this chunk, without its newline. With nothing kept, it
    // answers the line in place. No reply of a high cost waits meanwhile.
    #[inline(always)]
    fn answer_line(&mut self, piece: &[u8], most: usize) -> Result<(), Fault>
        requires most { most ≡ A.KEEP }
        requires writer { is_marked self.old.writer.now ≡ false }
        requires ready { A.is_ready self.old.responder.now }
        requires kept { length self.old.kept.items ≤ A.KEEP }
        requires prompt { high_cost < A.cost self.old.responder.now → self.old.waiting.items ≡ [] }
        ensures answers { let line = take A.KEEP (self.old.kept.items ++ piece.now) in
            EngineAnswers A.replies_with A.saw A.cost A.keeps A.is_ready A.GROWS W.contents
            self.old self.new (line ∷ []) result }
        ensures kept { OnOk result (self.new.kept.items ≡ []) }
        ensures reader { self.new.reader.now ≡ self.old.reader.now }
        ensures references { KeepsReferences self.old self.new }
    {
        if self.kept.is_empty() {
            let line = &piece[..piece.len().min(most)];
            return answer(
                self.writer,
                self.responder,
                &mut self.text,
                &mut self.waiting,
                line,
            );
        }
        keep_prefix(&mut self.kept, piece, most);
        self.answer_kept()
    }

    // Answers the kept line. No reply of a high cost waits meanwhile.
    fn answer_kept(&mut self) -> Result<(), Fault>
        requires writer { is_marked self.old.writer.now ≡ false }
        requires ready { A.is_ready self.old.responder.now }
        requires kept { length self.old.kept.items ≤ A.KEEP }
        requires prompt { high_cost < A.cost self.old.responder.now → self.old.waiting.items ≡ [] }
        ensures answers { EngineAnswers A.replies_with A.saw A.cost A.keeps A.is_ready A.GROWS W.contents
            self.old self.new (self.old.kept.items ∷ []) result }
        ensures kept { OnOk result (self.new.kept.items ≡ []) }
        ensures reader { self.new.reader.now ≡ self.old.reader.now }
        ensures references { KeepsReferences self.old self.new }
    {
        answer(
            self.writer,
            self.responder,
            &mut self.text,
            &mut self.waiting,
            self.kept.as_slice(),
        )?;
        self.kept.clear();
        Ok(())
    }
}

// Answers a line by its first bytes. No reply of a high cost waits meanwhile.
fn answer<W: Write, A: Responder>(
    writer: &mut Watched<W>,
    responder: &mut A,
    text: &mut ArrayVec<u8, REPLY>,
    waiting: &mut Waiting,
    line: &[u8],
) -> Result<(), Fault>
    requires writer { is_marked writer.old ≡ false }
    requires ready { A.is_ready responder.old }
    requires few { length line.now ≤ A.KEEP }
    requires prompt { high_cost < A.cost responder.old → waiting.old.items ≡ [] }
    ensures { Answers A.replies_with A.saw A.cost A.keeps A.is_ready A.GROWS
        (W.contents (watched_inner writer.old)) (W.contents (watched_inner writer.new)) (is_marked writer.new)
        waiting.old.items waiting.new.items responder.old responder.new (line.now ∷ []) result }
{
    text.clear();
    let cost = match responder.respond(line, text) {
        Ok(cost) => cost,
        Err(_) => {
            write_waiting(writer, waiting)?;
            return Err(Fault::Memory);
        }
    };
    add_line(writer, waiting, text.as_slice())?;
    if cost > HIGH_COST {
        return write_waiting(writer, waiting);
    }
    Ok(())
}

// Keeps the first `most` bytes of the kept bytes followed by a chunk.
pub(crate) fn keep_prefix(kept: &mut ArrayVec<u8, MAX_KEPT>, piece: &[u8], most: usize)
    requires kept { array_vec_len kept.old ≤ most }
    requires most { most ≤ MAX_KEPT }
    ensures { kept.new.items ≡ take most (kept.old.items ++ piece.now) }
{
    let n = piece.len().min(most - kept.len());
    kept.try_extend_from_slice(&piece[..n]).unwrap();
}
