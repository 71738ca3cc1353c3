//! Whether a list covers a size, from its bytes.
ghost use Rattle.std.specs.Prelude.{◌≡◌, ◌≢◌, ◌↔◌, ◌⊎◌, ◌+◌, ◌≤◌, [], List, false, true};
ghost use Rattle.std.specs.Prelude.{IfNone, IfOk, IfSome, IsTrue, None};
ghost use Rattle.bb_machine.specs.Machine.{Table};
ghost use Rattle.bb_cert.specs.checker.Pair.{PairHasCells};
ghost use Rattle.bb_tree.specs.Path.{depth_of};
ghost use Rattle.bb_lines.specs.Watched.{is_marked, watched_inner};
ghost use Rattle.bb_cover.specs.Counts.{counted, marks_of, saturated};
ghost use Rattle.bb_cover.specs.CoverProgress.{GoesOn, IsAsked, IsFoundBy, Starts};
ghost use Rattle.bb_cover.specs.Covering.{CoverEnds};
ghost use Rattle.bb_cover.specs.UndefinedEntries.{IsUndefinedOf};

use crate::claim::{Judged, judge_content};
use crate::content::{Content, read_content};
use crate::counts::Counts;
use crate::found::{Found, Stop, Why};
use crate::table::{is_empty, is_same};
use crate::task::Task;
use crate::text::{Text, next_text, text_of};
use crate::undefined::UndefinedEntry;
use crate::walk::Walk;
use bb_cert::{LINE_BUFFER, Pair, Path};
use bb_lines::fault::Fault;
use bb_lines::sink::{LineSink, drain_lines};
use bb_lines::watched::Watched;
use bb_machine::Machine;
use bb_tape::Tape;
use std::alloc::{AllocError, Global};
use std::cell::Cell;
use std::io::Read;

/// Of how many states and symbols the machines of a walk are.
#[derive(Clone, Copy, Debug)]
struct Size {
    states: u8,
    symbols: u8,
}

/// How far a walk along a list has come.
#[derive(Drop)]
struct CoverProgress {
    /// None before the first line.
    size: Option<Size>,
    walk: Walk,
    /// None until a line is wrong. After that nothing changes.
    stop: Option<Stop>,
    counts: Counts,
}

/// The result for a list.
#[derive(Drop)]
pub struct Cover {
    /// Whether it covers a size.
    pub found: Found,
    /// The counts of the lines before the stop, or of all lines.
    pub counts: Counts,
    /// The next machine of the walk, for messages; empty at its end. No clause mentions it.
    pub asked: Text,
    /// The last line's machine, if it has one and the walk didn't take it, likewise.
    pub given: Text,
}

/// The sink for the lines of a list.
#[derive(Drop)]
struct Checker<'a, T> {
    task: &'a Task,
    pair: &'a mut Pair<T>,
    path: &'a mut Path,
    // The machine of the last line with one. Each is read in its place.
    machine: Machine,
    progress: &'a mut CoverProgress,
    // The number of lines so far, for progress reports.
    seen: &'a Cell<u64>,
}

impl CoverProgress {
    /// Whether the machine is the next one to be visited.
    fn asks(&self, below: &Option<Machine>, machine: &Machine) -> bool
        ensures next { IsTrue result
            → (rest : List Table) × IsAsked below.now self.now.size self.now.walk machine.now rest }
        ensures only { result ≡ false
            → (rest : List Table) → IsAsked below.now self.now.size self.now.walk machine.now rest → ⊥ }
    {
        match self.size {
            None => starts(below, machine),
            Some(_) => self.walk.is_next(machine),
        }
    }

    /// Whether all machines of the size were visited.
    fn is_done(&self) -> bool
        ensures { IsTrue result ↔ ((self.now.size ≢ None) × (self.now.walk ≡ [])) }
    {
        match self.size {
            None => false,
            Some(_) => self.walk.is_done(),
        }
    }

    /// Stops at the line after the visited ones.
    fn stop_for(&mut self, why: Why)
        ensures { self.new ≡ record self.old {
          stop = Some (record { line = saturated (self.old.counts.read + 1); why = why });
        } }
    {
        self.stop = Some(Stop {
            line: self.counts.read.saturating_add(1),
            why,
        });
    }

    /// Visits the next machine, with its content and its undefined transition, if it halts on one of several.
    /// The machine is moved then.
    fn visit(
        &mut self,
        task: &Task,
        machine: &mut Machine,
        content: &Content,
        undefined: Option<UndefinedEntry>,
    )
        requires asked { (rest : List Table)
            × IsAsked task.now.below self.old.size self.old.walk machine.old rest }
        requires unbegun { self.old.size ≡ None → self.old.walk ≡ [] }
        requires undefined { IfSome undefined (IsUndefinedOf machine.old) }
        ensures goes { GoesOn task.now.below self.old machine.old undefined self.new }
        ensures counts { self.new.counts ≡ counted (marks_of task.now) self.old.counts
            (record { table = machine.old; content = content.now }) }
    {
        self.counts.add(task, machine, content);
        match self.size {
            None => {
                self.size = Some(Size {
                    states: machine.states(),
                    symbols: machine.symbols(),
                });
                self.walk.begin(machine, undefined);
            }
            Some(_) => self.walk.visit(machine, undefined),
        }
    }

    /// The result after the last line.
    fn found(&self) -> Found
        ensures { IsFoundBy self.now result }
    {
        if let Some(stop) = self.stop {
            return Found::Stops(stop);
        }
        let Some(size) = self.size else {
            return Found::Stops(self.too_soon());
        };
        if !self.walk.is_done() {
            return Found::Stops(self.too_soon());
        }
        Found::Covers {
            states: size.states,
            symbols: size.symbols,
        }
    }

    /// The text of the next machine, for messages. Before the first line it is empty, if the size is open.
    fn asked_text(&self, below: &Option<Machine>) -> Text {
        match (self.size, below) {
            (None, Some(first)) => text_of(first),
            _ => next_text(&self.walk),
        }
    }

    /// The list ends before the walk does.
    fn too_soon(&self) -> Stop
        ensures { result ≡ record { line = saturated (self.now.counts.read + 1); why = Why.TooSoon } }
    {
        Stop {
            line: self.counts.read.saturating_add(1),
            why: Why::TooSoon,
        }
    }
}

impl<T: Tape> LineSink for Checker<'_, T> {
    ghost use Rattle.std.specs.Prelude.{◌≡◌, ◌+◌, ◌≤◌, [], None};
    ghost use Rattle.std.proofs.Common.{rules};
    ghost use Rattle.bb_cert.specs.declared.verdict.line.TheConstants.{LINE_BUFFER};
    ghost use Rattle.bb_cert.specs.checker.Pair.{PairHasCells};
    ghost use Rattle.bb_tree.specs.Path.{depth_of};
    ghost use Rattle.bb_cover.specs.CoverProgress.{Took};
    ghost use Rattle.bb_cover.specs.KeptBytes.{took_of_kept};

    ghost took = { λ a line b. (b.task.now ≡ a.task.now)
        × Took a.task.now a.progress.now line b.progress.now };

    ghost keeps = { λ a b. (b.task ≡ a.task) × (b.pair.ghost_name ≡ a.pair.ghost_name)
        × (b.path.ghost_name ≡ a.path.ghost_name) × (depth_of b.path.now ≡ depth_of a.path.now)
        × (b.progress.ghost_name ≡ a.progress.ghost_name) };

    ghost is_ready = { λ c. PairHasCells T.view c.task.now.limits.cells c.pair.now
        × (c.task.now.limits.depth ≤ depth_of c.path.now)
        × (c.progress.now.size ≡ None → c.progress.now.walk ≡ []) };

    ghost GROWS = { T.GROWS };

    ghost KEEP = { LINE_BUFFER + 1 };

    ghost keeps_at_first = { Prim.search rules };

    ghost keeps_on = { Prim.search rules };

    ghost keeps_some = { Prim.search rules };

    ghost keeps_few = { Prim.search rules };

    ghost took_by_kept = { λ a line b took. (
      took.0,
      took_of_kept a.task.now line a.progress.now b.progress.now took.1,
    ) };

    fn bytes_kept(&self) -> usize {
        LINE_BUFFER + 1
    }

    fn accept_line(&mut self, line: &[u8]) -> Result<(), AllocError> {
        if self.progress.stop.is_some() {
            return Ok(());
        }
        if self.progress.is_done() {
            self.progress.stop_for(Why::Beyond);
            return Ok(());
        }
        let Some(content) = read_content(line, self.task.form, &mut self.machine) else {
            self.progress.stop_for(Why::Unread);
            return Ok(());
        };
        if !self.progress.asks(&self.task.below, &self.machine) {
            self.progress.stop_for(Why::NotNext);
            return Ok(());
        }
        match judge_content(
            &self.machine,
            &content,
            &self.task.limits,
            self.pair,
            self.path,
        ) {
            Ok(Judged::Fine(undefined)) => {
                if !self.progress.counts.has_room(&content) {
                    self.progress.stop_for(Why::TooMany);
                    return Ok(());
                }
                self.progress
                    .visit(self.task, &mut self.machine, &content, undefined);
                self.seen.set(self.progress.counts.read);
                Ok(())
            }
            Ok(Judged::Refused(answer)) => {
                self.progress.stop_for(Why::Refused(answer));
                Ok(())
            }
            Err(_) => Err(AllocError),
        }
    }
}

/// Whether the walk begins at a machine.
fn starts(below: &Option<Machine>, machine: &Machine) -> bool
    ensures some { IsTrue result → Starts below.now machine.now }
    ensures none { result ≡ false → Starts below.now machine.now → ⊥ }
{
    match below {
        Some(first) => is_same(machine, first),
        None => is_empty(machine),
    }
}

/// Walks along the lines of a list, and checks each claim: whether they are those of a walk in depth through
/// all machines of a size, or below a machine, in tree normal form. It allocates once, before the first line.
/// `seen` has the number of lines so far.
///
/// A line ends at a newline; a last line without one counts if it isn't empty. Reads to end of file, also
/// after the walk stops. After a fault, don't use the reader again.
pub fn run_cover<R: Read, T: Tape>(
    alloc: Global,
    reader: &mut Watched<R>,
    task: &Task,
    pair: &mut Pair<T>,
    path: &mut Path,
    seen: &Cell<u64>,
) -> Result<Cover, Fault>
    requires reader { is_marked reader.old ≡ false }
    requires tapes { PairHasCells T.view task.now.limits.cells pair.old }
    requires path { task.now.limits.depth ≤ depth_of path.old }

    // The result of the run and of the walk.
    ensures ends { CoverEnds task.now
        (R.remaining (watched_inner reader.old)) (R.remaining (watched_inner reader.new)) result }

    // The fault, if any. Allocation fails only in the tapes, or before the first read.
    ensures memory { result ≡ Err Fault.Memory → IsTrue T.GROWS ⊎ (reader.new ≡ reader.old) }
    ensures read { (result ≡ Err Fault.Read) ↔ (is_marked reader.new ≡ true) }
    ensures no_write { result ≢ Err Fault.Write }

    ensures tapes { PairHasCells T.view task.now.limits.cells pair.new }
    ensures path { depth_of path.new ≡ depth_of path.old }
{
    let Ok(walk) = Walk::new(alloc) else {
        return Err(Fault::Memory);
    };
    let mut progress = CoverProgress {
        size: None,
        walk,
        stop: None,
        counts: Counts::new(),
    };
    let mut checker = Checker {
        task,
        pair,
        path,
        machine: Machine::blank(),
        progress: &mut progress,
        seen,
    };
    drain_lines(reader, &mut checker)?;
    Ok(Cover {
        found: checker.progress.found(),
        counts: checker.progress.counts,
        asked: checker.progress.asked_text(&task.below),
        given: text_of(&checker.machine),
    })
}
