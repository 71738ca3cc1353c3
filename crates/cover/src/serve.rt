//! Walks along a list on rings of its own, and returns the result.
ghost use Rattle.std.specs.Prelude.{◌≡◌, ◌≢◌, ◌↔◌, ◌⊎◌, IfOk, false, true};
ghost use Rattle.bb_lines.specs.Watched.{is_marked, watched_inner};
ghost use Rattle.bb_cover.specs.Covering.{CoverEnds};
ghost use Rattle.bb_cover.specs.LineEnds.{LineEnds};
ghost use Rattle.bb_terminal.specs.NotBegun.{IsNotBegun};
ghost use Rattle.cover.specs.Sought.{IsLineText};
ghost use Rattle.cover.specs.Status.{end_status, lines_status};

use crate::report::machine_text;
use bb_cert::ring_pair;
use bb_cover::{Cover, Found, Task, Text, line_of, run_cover, run_lines};
use bb_lines::fault::Fault;
use bb_lines::watched::Watched;
use bb_machine::{Limits, Machine};
use bb_tape::{Memory, RingTape};
use std::alloc::Global;
use std::cell::Cell;
use std::io::{Read, Write};

/// The result of a walk along a list, on rings and a path of its own, allocated once. It is that of
/// `run_cover`, or an allocation failure before the first read.
pub fn cover_list<R: Read>(
    alloc: Global,
    task: &Task,
    reader: &mut Watched<R>,
    seen: &Cell<u64>,
) -> Result<Cover, Fault>
    requires { is_marked reader.old ≡ false }
    ensures ends { CoverEnds task.now
        (R.remaining (watched_inner reader.old)) (R.remaining (watched_inner reader.new)) result }
    ensures memory { result ≡ Err Fault.Memory → reader.new ≡ reader.old }
    ensures read { (result ≡ Err Fault.Read) ↔ (is_marked reader.new ≡ true) }
    ensures no_write { result ≢ Err Fault.Write }
{
    match ring_pair(alloc, &task.limits) {
        Ok((mut pair, mut path)) => run_cover(alloc, reader, task, &mut pair, &mut path, seen),
        Err(_) => Err(Fault::Memory),
    }
}

/// Replies to the machines of a list with their lines, on a ring of its own, allocated once.
pub fn list_lines<R: Read, W: Write>(
    alloc: Global,
    limits: &Limits,
    reader: &mut Watched<R>,
    writer: &mut Watched<W>,
    seen: &Cell<u64>,
) -> Result<(), Fault>
    requires reader { is_marked reader.old ≡ false }
    requires writer { is_marked writer.old ≡ false }

    // The result of the run, the input read and the output written; or an allocation failure before it
    // started.
    ensures ends { LineEnds limits.now
        (R.remaining (watched_inner reader.old)) (R.remaining (watched_inner reader.new))
        (W.contents (watched_inner writer.old)) (W.contents (watched_inner writer.new)) result
        ⊎ IsNotBegun
        (R.remaining (watched_inner reader.old)) (R.remaining (watched_inner reader.new))
        (W.contents (watched_inner writer.old)) (W.contents (watched_inner writer.new)) result }

    ensures read { (result ≡ Err Fault.Read) ↔ (is_marked reader.new ≡ true) }
    ensures write { (result ≡ Err Fault.Write) ↔ (is_marked writer.new ≡ true) }
{
    let Ok(mut tape) = RingTape::new(alloc, limits.cells()) else {
        return Err(Fault::Memory);
    };
    run_lines(reader, writer, limits, &mut tape, seen)
}

/// The text of a machine's line within limits, on a ring of its own, allocated once.
pub fn sought_text(alloc: Global, machine: &Machine, limits: &Limits) -> Result<Text, Memory>
    ensures { IfOk result (λ words. IsLineText machine.now limits.now words.items) }
{
    let mut tape = RingTape::new(alloc, limits.cells())?;
    let line = line_of(machine, limits, &mut tape)?;
    Ok(machine_text(&line.machine))
}

/// The exit status after the lines of a list: 0, or 3 for a fault.
pub fn lines_status(end: &Result<(), Fault>) -> u8
    ensures { result ≡ lines_status end.now }
{
    match end {
        Ok(()) => 0,
        Err(_) => 3,
    }
}

/// The program's exit status: 0 if the list covers its size, 1 if it doesn't, 3 for a fault.
pub fn status(end: &Result<Cover, Fault>) -> u8
    ensures { result ≡ end_status end.now }
{
    match end {
        Ok(cover) => match cover.found {
            Found::Covers { .. } => 0,
            Found::Stops(_) => 1,
        },
        Err(_) => 3,
    }
}
