//! Replies to a list on rings of its own, and returns the result.
ghost use Rattle.std.specs.Prelude.{◌≡◌, ◌↔◌, ◌⊎◌, false, true};
ghost use Rattle.bb_lines.specs.Watched.{is_marked, watched_inner};
ghost use Rattle.bb_recurrence.specs.RecurrenceEnds.{RecurrenceEnds};
ghost use Rattle.bb_terminal.specs.NotBegun.{IsNotBegun};
ghost use Rattle.recurrence.specs.Status.{end_status};

use crate::command::Asked;
use bb_lines::fault::Fault;
use bb_lines::watched::Watched;
use bb_recurrence::{RecurrenceCounts, ring_finder, run_recurrence};
use bb_run::Summary;
use std::alloc::Global;
use std::io::{Read, Write};

/// Replies to the lines of a list, on rings and a path of its own, allocated once. A line is counted once its
/// reply is known, before it is written.
pub fn list_recurrences<R: Read, W: Write>(
    alloc: Global,
    asked: &Asked,
    reader: &mut Watched<R>,
    writer: &mut Watched<W>,
    counts: &RecurrenceCounts,
) -> Result<Summary, Fault>
    requires reader { is_marked reader.old ≡ false }
    requires writer { is_marked writer.old ≡ false }

    // The result of the run, the input read and the output written; or an allocation failure before it
    // started.
    ensures ends { RecurrenceEnds asked.now.limits asked.now.entries
        (R.remaining (watched_inner reader.old)) (R.remaining (watched_inner reader.new))
        (W.contents (watched_inner writer.old)) (W.contents (watched_inner writer.new)) result
        ⊎ IsNotBegun
        (R.remaining (watched_inner reader.old)) (R.remaining (watched_inner reader.new))
        (W.contents (watched_inner writer.old)) (W.contents (watched_inner writer.new)) result }

    // Memory runs out only before it begins: nothing was read or written.
    ensures memory { result ≡ Err Fault.Memory → IsNotBegun
        (R.remaining (watched_inner reader.old)) (R.remaining (watched_inner reader.new))
        (W.contents (watched_inner writer.old)) (W.contents (watched_inner writer.new)) result }

    ensures read { (result ≡ Err Fault.Read) ↔ (is_marked reader.new ≡ true) }
    ensures write { (result ≡ Err Fault.Write) ↔ (is_marked writer.new ≡ true) }
{
    let limits = asked.limits;
    match ring_finder(alloc, &limits) {
        Ok(mut finder) => run_recurrence(
            reader,
            writer,
            &limits,
            asked.entries,
            &mut finder,
            counts,
        ),
        Err(_) => Err(Fault::Memory),
    }
}

/// The program's exit status: 0 for a clean summary, 1 for another one, 3 for a fault.
pub fn status(end: &Result<Summary, Fault>) -> u8
    ensures { result ≡ end_status end.now }
{
    match end {
        Ok(summary) if summary.clean => 0,
        Ok(_) => 1,
        Err(_) => 3,
    }
}
