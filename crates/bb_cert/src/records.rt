//! The records of one side of a run, and the kept one, to be compared with a later one.
ghost use Rattle.std.specs.Prelude.{◌≡◌, ◌≢◌, ◌↔◌, ◌+ℤ◌, ◌-ℤ◌, ◌≤ℤ◌, pos, IsTrue};
ghost use Rattle.bb_tape.specs.TapeView.{IsInside};
ghost use Rattle.bb_sim.specs.CellsBetween.{cells_between};
ghost use Rattle.bb_sim.specs.Runner.{position_of, state_of};
ghost use Rattle.bb_cert.specs.records.Follow.{AgreesWithKept, HasSameCells, IsComparable, IsKeptInStateOf};
ghost use Rattle.bb_cert.specs.records.Follow.{IsNarrow, IsWidened, LiesAs, TellsWidening};
ghost use Rattle.bb_cert.specs.records.Follow.{nearest_out, number_of};
ghost use Rattle.bb_cert.specs.records.Follow.{passed, top_of, with_kept};
ghost use Rattle.bb_cert.specs.records.Word.{AgreesInWord, IsComparableInWord};
ghost use Rattle.bb_registers.specs.BitCells.{content_of};

use crate::verdict::{Extent, Side};
use bb_machine::Next;
use bb_registers::BitCells;
use bb_sim::Runner;
use bb_tape::Tape;
use bb_tape::widening::widen_to;

/// The kept record of a side, and the head's position nearest to the start since. A record's number is the
/// distance of its head from the start.
#[derive(Clone, Copy, Debug)]
pub struct Records {
    /// The side of the records.
    pub side: Side,
    /// The runner at the kept record; at position 0 before the first one.
    pub kept: Runner,
    /// The head's least position since then on the right, its greatest on the left.
    pub nearest: i64,
}

impl Records {
    /// The records of a side of a run at its start: none.
    pub fn new(side: Side, start: Runner) -> Records
        ensures { result ≡ record { side = side; kept = start; nearest = pos 0 } }
    {
        Records {
            side,
            kept: start,
            nearest: 0,
        }
    }

    /// Takes in the next position of the head. This is done at each step, and compares it with nothing else.
    #[inline(always)]
    pub fn pass(&mut self, position: i64)
        ensures { self.new ≡ passed self.old position }
    {
        self.nearest = match self.side {
            Side::R => self.nearest.min(position),
            Side::L => self.nearest.max(position),
        };
    }

    /// Keeps the record just made by the runner.
    pub fn keep_record(&mut self, runner: &Runner)
        ensures { self.new ≡ with_kept self.old runner.now }
    {
        self.kept = *runner;
        self.nearest = runner.position();
    }

    /// Copies the kept record of other records of the same side. The side isn't written, so a loop for one
    /// side stays one.
    #[inline(always)]
    pub fn copy_kept(&mut self, other: &Records)
        ensures { self.new ≡ record self.old { kept = other.now.kept; nearest = other.now.nearest } }
    {
        self.kept = other.kept;
        self.nearest = other.nearest;
    }

    /// Whether the kept record, if any, agrees with the one just made by the runner. The kept one's tape may
    /// be widened.
    pub fn agrees<T: Tape>(&self, runner: &Runner, run: &T, saved: &mut T) -> bool
        requires limit { (T.view saved.old).limit ≡ (T.view run.now).limit }
        requires comparable { IsKeptInStateOf self.now runner.now
            → IsComparable self.now runner.now (T.view saved.old) (T.view run.now) }
        ensures agree { IsTrue result
            ↔ AgreesWithKept self.now runner.now (T.view saved.old) (T.view run.now) }
        ensures saved { IsWidened self.now (T.view run.now) (T.view saved.old) (T.view saved.new) }
    {
        if !self.is_kept_in_state_of(runner) {
            return false;
        }
        let Ok(()) = widen_to(saved, self.nearest) else {
            unreachable!();
        };
        self.has_same_cells(runner, run, saved)
    }

    /// `agrees` for a run in registers, with the cells of the run and those of the kept record.
    pub(crate) fn agrees_in_registers(
        &self,
        runner: &Runner,
        run: &BitCells,
        saved: &BitCells,
    ) -> bool
        requires { IsKeptInStateOf self.now runner.now
            → IsComparableInWord self.now runner.now saved.now run.now }
        ensures { IsTrue result ↔ AgreesInWord self.now runner.now saved.now run.now }
    {
        if !self.is_kept_in_state_of(runner) {
            return false;
        }
        self.has_same_bits(runner, run, saved)
    }

    /// The extent of the kept record and the one just made by the runner, if they agree. It isn't inlined:
    /// the alignment of the searches beside the single-pass run depends on it (docs/performance-tried.md).
    #[inline(never)]
    pub fn extent(&self, runner: &Runner) -> Extent
        requires nearest { IsNarrow self.now.nearest }
        requires kept { IsNarrow (position_of self.now.kept) }
        requires order { nearest_out self.now ≤ℤ number_of self.now }
        requires later { number_of self.now ≤ℤ top_of self.now runner.now }
        ensures { LiesAs self.now runner.now result }
    {
        Extent {
            shift: runner.position().abs_diff(self.kept.position()),
            length: length_of(self.nearest, self.kept.position()),
        }
    }

    /// Whether the cells from the nearest position out to the kept record equal those just as far before the
    /// record just made by the runner.
    fn has_same_cells<T: Tape>(&self, runner: &Runner, run: &T, saved: &T) -> bool
        requires comparable { IsComparable self.now runner.now (T.view saved.now) (T.view run.now) }
        requires far { IsInside (T.view saved.now) self.now.nearest }
        ensures { IsTrue result
            ↔ HasSameCells self.now runner.now (T.view saved.now).content (T.view run.now).content }
    {
        let kept = self.kept.position();
        let from = self.nearest.min(kept);
        let run_from = moved(from, kept, runner.position());
        let length = length_of(self.nearest, kept);
        saved.agrees(from, run, run_from, length)
    }

    /// Whether a record is kept, in the state of the runner, not in Z.
    fn is_kept_in_state_of(&self, runner: &Runner) -> bool
        ensures { IsTrue result ↔ IsKeptInStateOf self.now runner.now }
    {
        if self.kept.position() == 0 {
            return false;
        }
        is_in_same_state(&self.kept, runner)
    }

    /// `has_same_cells` for a run in registers.
    fn has_same_bits(&self, runner: &Runner, run: &BitCells, saved: &BitCells) -> bool
        requires { IsComparableInWord self.now runner.now saved.now run.now }
        ensures { IsTrue result
            ↔ HasSameCells self.now runner.now (content_of saved.now) (content_of run.now) }
    {
        let kept = self.kept.position();
        let from = self.nearest.min(kept);
        let there = moved(from, kept, runner.position());
        let length = length_of(self.nearest, kept);
        saved.agrees(from, run, there, length)
    }
}

/// The side on which the last step widened the window, if it did. Before that step the window had `cells`
/// cells.
#[inline(always)]
pub fn widened_side(runner: &Runner, cells: u64) -> Option<Side>
    ensures { TellsWidening runner.now cells result }
{
    if runner.cells() == cells {
        return None;
    }
    if runner.position() == runner.low() {
        return Some(Side::L);
    }
    Some(Side::R)
}

/// A position as far from another as `to` is from `from`.
fn moved(position: i64, from: i64, to: i64) -> i64
    requires position { IsNarrow position }
    requires from { IsNarrow from }
    requires to { IsNarrow to }
    ensures { result ≡ position +ℤ (to -ℤ from) }
{
    position + (to - from)
}

/// How many positions there are from one to another, both counted.
fn length_of(from: i64, to: i64) -> u64
    requires from { IsNarrow from }
    requires to { IsNarrow to }
    ensures { result ≡ cells_between from to }
{
    to.abs_diff(from) + 1
}

/// Whether two runners are in one state, and not in Z.
fn is_in_same_state(one: &Runner, other: &Runner) -> bool
    ensures { IsTrue result ↔ ((state_of one.now ≡ state_of other.now) × (state_of one.now ≢ Next.Halt)) }
{
    let Some(first) = one.state() else {
        return false;
    };
    let Some(second) = other.state() else {
        return false;
    };
    first == second
}
