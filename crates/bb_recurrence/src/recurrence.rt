//! The exact recurrence of a run, and the pair of steps that it is found from.
ghost use Rattle.std.specs.Prelude.{◌≡◌, ◌+◌, ◌-◌, ◌<◌, ◌≤◌, ◌^◌, IfOk, IsTrue, OnErr, OnOk};
ghost use Rattle.bb_sim.specs.Runner.{steps_of};
ghost use Rattle.laws_of_recurrence.specs.Seen.{IsSeenStart};
ghost use Rattle.laws_of_recurrence.specs.Shift.{IsShift};
ghost use Rattle.bb_recurrence.specs.LastUses.{AreRecorded, AreSeen};
ghost use Rattle.bb_recurrence.specs.Lockstep.{IsNear};
ghost use Rattle.bb_recurrence.specs.Pairs.{IsAtStep, IsOpenPair, distance_of};
ghost use Rattle.bb_recurrence.specs.Tapes.{TapesHaveCells};

use crate::finder::Tapes;
use crate::lockstep::Lockstep;
use crate::uses::LastUses;
use bb_cert::Course;
use bb_machine::{Limits, Machine};
use bb_sim::{Meter, Moved, Runner};
use bb_tape::{Memory, Tape};

/// How a run repeats.
#[derive(Clone, Copy, Debug, PartialEq, Eq)]
pub struct Recurrence {
    /// The first step of the recurrence, counted from 0.
    pub start: u64,
    /// After so many steps it uses the same transitions again.
    pub period: u64,
    /// How many cells the head is farther to the right after a period; negative means to the left.
    pub shift: i64,
}

/// Two steps of a machine's run: it repeats from the first on, and their distance is a period.
#[derive(Clone, Copy)]
pub struct KnownPair<'a> {
    /// The machine of the run.
    pub machine: &'a Machine,
    /// The limits of the run.
    pub limits: &'a Limits,
    /// The first step, counted from 0.
    pub first: u64,
    /// The second step, one period or several later.
    pub second: u64,
}

/// The start of a recurrence, and the run at the first step of the pair.
#[derive(Clone, Copy)]
pub(crate) struct Start {
    /// The first step from which on the transitions are those of `second - first` steps later.
    pub(crate) step: u64,
    /// The run at the first step of the pair, on the tape `pair.saved`.
    pub(crate) runner: Runner,
    /// How many cells the head is farther to the right at the second step.
    pub(crate) whole: i64,
}

impl KnownPair<'_> {
    /// Advances a run to the first step, and one ahead of it to the second, and records the last uses. Saves
    /// the tape of the first step.
    pub(crate) fn find_start<T: Tape>(
        &self,
        tapes: &mut Tapes<T>,
        uses: &mut LastUses,
        meter: &mut Meter,
    ) -> Result<Start, Memory>
        requires goes_on { IsOpenPair self.now }
        requires tapes { TapesHaveCells T.view self.now.limits.now.cells tapes.old }
        requires order { self.now.first ≤ self.now.second }
        requires room { meter.old.steps + self.now.first + self.now.second < 2 ^ 64 }
        requires recorded { AreRecorded self.now.machine.now 0 uses.old }
        ensures at { IfOk result (λ found.
            IsAtStep self.now self.now.first found.runner (T.view tapes.new.pair.saved)) }
        ensures start { IfOk result (λ found.
            IsSeenStart self.now.machine.now self.now.first (distance_of self.now) found.step) }
        ensures shift { IfOk result (λ found.
            IsShift self.now.machine.now self.now.first (distance_of self.now) found.whole) }
        ensures near { IfOk result (λ found. IsNear found.whole) }
        ensures uses { OnOk result (AreSeen self.now.machine.now self.now.second uses.new) }
        ensures counted { OnOk result
            (meter.new.steps ≡ meter.old.steps + self.now.first + self.now.second) }
        ensures few { meter.new.steps ≤ meter.old.steps + self.now.first + self.now.second }
        ensures tapes { TapesHaveCells T.view self.now.limits.now.cells tapes.new }
        ensures memory { OnErr result (IsTrue T.GROWS) }
    {
        let mut both = Lockstep {
            runner: Runner::start(self.machine, &mut tapes.pair.run),
            ahead: Runner::start(self.machine, &mut tapes.ahead),
        };
        let distance = self.second - self.first;
        self.run_to(&mut both.ahead, &mut tapes.ahead, distance, uses, meter)?;
        let step = both.follow(self, tapes, uses, meter)?;
        let whole = both.ahead.position() - both.runner.position();
        let Ok(()) = tapes.pair.saved.copy_from(&tapes.pair.run) else {
            return Err(Memory);
        };
        Ok(Start {
            step,
            runner: both.runner,
            whole,
        })
    }

    /// Advances a run to a step, with something followed along it.
    pub(crate) fn run_to<C: Course, T: Tape>(
        &self,
        runner: &mut Runner,
        tape: &mut T,
        to: u64,
        course: &mut C,
        meter: &mut Meter,
    ) -> Result<(), Memory>
        requires goes_on { IsOpenPair self.now }
        requires at { IsAtStep self.now (steps_of runner.old) runner.old (T.view tape.old) }
        requires later { steps_of runner.old ≤ to }
        requires within { to ≤ self.now.second }
        requires room { meter.old.steps + (to - steps_of runner.old) < 2 ^ 64 }
        ensures at { OnOk result (IsAtStep self.now to runner.new (T.view tape.new)) }
        ensures goes_on { OnOk result
            (C.goes_on self.now.machine.now (steps_of runner.old) to course.old course.new) }
        ensures counted { OnOk result
            (meter.new.steps ≡ meter.old.steps + (to - steps_of runner.old)) }
        ensures no_less { meter.old.steps ≤ meter.new.steps }
        ensures few { meter.new.steps ≤ meter.old.steps + (to - steps_of runner.old) }
        ensures limit { (T.view tape.new).limit ≡ self.now.limits.now.cells }
        ensures memory { OnErr result (IsTrue T.GROWS) }
    {
        while runner.steps() < to {
            self.step(runner, tape, course, meter)?;
        }
        Ok(())
    }

    /// Makes one step, and takes it in.
    #[inline(always)]
    pub(crate) fn step<C: Course, T: Tape>(
        &self,
        runner: &mut Runner,
        tape: &mut T,
        course: &mut C,
        meter: &mut Meter,
    ) -> Result<(), Memory>
        requires goes_on { IsOpenPair self.now }
        requires at { IsAtStep self.now (steps_of runner.old) runner.old (T.view tape.old) }
        requires before { steps_of runner.old < self.now.second }
        requires room { meter.old.steps + 1 < 2 ^ 64 }
        ensures at { OnOk result
            (IsAtStep self.now (steps_of runner.old + 1) runner.new (T.view tape.new)) }
        ensures goes_on { OnOk result (C.goes_on self.now.machine.now (steps_of runner.old)
            (steps_of runner.old + 1) course.old course.new) }
        ensures counted { OnOk result (meter.new.steps ≡ meter.old.steps + 1) }
        ensures uncounted { OnErr result (meter.new.steps ≡ meter.old.steps) }
        ensures limit { (T.view tape.new).limit ≡ self.now.limits.now.cells }
        ensures memory { OnErr result (IsTrue T.GROWS) }
    {
        let before = *runner;
        let symbol = tape.read_inside(before.position());
        match runner.advance(self.machine, tape, self.limits, meter)? {
            Moved::Stepped => {
                course.take_in(self.machine, &before, symbol, runner);
                Ok(())
            }
            Moved::Halted => unreachable!(),
            Moved::NoSteps => unreachable!(),
            Moved::NoCells => unreachable!(),
        }
    }
}
