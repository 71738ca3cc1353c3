//! Two copies of a run, advanced together.
ghost use Rattle.std.specs.Prelude.{◌≡◌, ◌+◌, ◌-◌, ◌*◌, ◌<◌, ◌≤◌, ◌^◌, ◌↔◌};
ghost use Rattle.std.specs.Prelude.{IfOk, IsTrue, MatchBool, OnErr, OnOk};
ghost use Rattle.bb_tape.specs.TapeView.{IsInside};
ghost use Rattle.bb_sim.specs.Runner.{position_of, steps_of};
ghost use Rattle.laws_of_recurrence.specs.Seen.{IsSeenStart};
ghost use Rattle.bb_recurrence.specs.LastUses.{AreRecorded};
ghost use Rattle.bb_recurrence.specs.Lockstep.{TellsRepeats, transition_here};
ghost use Rattle.bb_recurrence.specs.Pairs.{IsAtStep, IsOpenPair, distance_of};
ghost use Rattle.bb_recurrence.specs.Tapes.{TapesHaveCells};

use crate::finder::Tapes;
use crate::recurrence::KnownPair;
use crate::uses::LastUses;
use bb_sim::{Meter, Runner};
use bb_tape::{Memory, Tape};

/// Two copies of a run, one ahead of the other, each on a tape of its own.
#[derive(Clone, Copy)]
pub(crate) struct Lockstep {
    /// The run, on the tape `pair.run`.
    pub(crate) runner: Runner,
    /// The run ahead, on the tape `ahead`.
    pub(crate) ahead: Runner,
}

impl Lockstep {
    /// Advances both to the two steps of a pair, the one ahead from `second - first` on, and records the last
    /// uses. Returns the first step from which on both use the same transitions.
    pub(crate) fn follow<T: Tape>(
        &mut self,
        pair: &KnownPair,
        tapes: &mut Tapes<T>,
        uses: &mut LastUses,
        meter: &mut Meter,
    ) -> Result<u64, Memory>
        requires goes_on { IsOpenPair pair.now }
        requires tapes { TapesHaveCells T.view pair.now.limits.now.cells tapes.old }
        requires order { pair.now.first ≤ pair.now.second }
        requires at { IsAtStep pair.now 0 self.old.runner (T.view tapes.old.pair.run) }
        requires ahead { IsAtStep pair.now (distance_of pair.now) self.old.ahead (T.view tapes.old.ahead) }
        requires room { meter.old.steps + 2 * pair.now.first < 2 ^ 64 }
        requires recorded { AreRecorded pair.now.machine.now (distance_of pair.now) uses.old }
        ensures at { OnOk result
            (IsAtStep pair.now pair.now.first self.new.runner (T.view tapes.new.pair.run)) }
        ensures ahead { OnOk result
            (IsAtStep pair.now pair.now.second self.new.ahead (T.view tapes.new.ahead)) }
        ensures start { IfOk result
            (IsSeenStart pair.now.machine.now pair.now.first (distance_of pair.now)) }
        ensures recorded { OnOk result (AreRecorded pair.now.machine.now pair.now.second uses.new) }
        ensures counted { OnOk result (meter.new.steps ≡ meter.old.steps + 2 * pair.now.first) }
        ensures few { meter.new.steps ≤ meter.old.steps + 2 * pair.now.first }
        ensures tapes { TapesHaveCells T.view pair.now.limits.now.cells tapes.new }
        ensures memory { OnErr result (IsTrue T.GROWS) }
    {
        let mut start = 0;
        while self.runner.steps() < pair.first {
            let same = self.has_same_transition(tapes);
            start = start_after(start, self.runner.steps(), same);
            pair.step(&mut self.runner, &mut tapes.pair.run, &mut (), meter)?;
            pair.step(&mut self.ahead, &mut tapes.ahead, uses, meter)?;
        }
        Ok(start)
    }

    /// Whether both use the same transitions until the one ahead comes to a step.
    pub(crate) fn are_alike<T: Tape>(
        &mut self,
        pair: &KnownPair,
        tapes: &mut Tapes<T>,
        end: u64,
        meter: &mut Meter,
    ) -> Result<bool, Memory>
        requires goes_on { IsOpenPair pair.now }
        requires tapes { TapesHaveCells T.view pair.now.limits.now.cells tapes.old }
        requires at { IsAtStep pair.now (steps_of self.old.runner)
            self.old.runner (T.view tapes.old.pair.run) }
        requires ahead { IsAtStep pair.now (steps_of self.old.ahead)
            self.old.ahead (T.view tapes.old.ahead) }
        requires later { steps_of self.old.runner ≤ steps_of self.old.ahead }
        requires within { end ≤ pair.now.second }
        requires room { meter.old.steps + 2 * (end - steps_of self.old.ahead) < 2 ^ 64 }
        ensures tells { IfOk result (TellsRepeats pair.now.machine.now (steps_of self.old.runner)
            (steps_of self.old.ahead - steps_of self.old.runner) end) }
        ensures no_less { meter.old.steps ≤ meter.new.steps }
        ensures few { meter.new.steps ≤ meter.old.steps + 2 * (end - steps_of self.old.ahead) }
        ensures saved { T.view tapes.new.pair.saved ≡ T.view tapes.old.pair.saved }
        ensures tapes { TapesHaveCells T.view pair.now.limits.now.cells tapes.new }
        ensures memory { OnErr result (IsTrue T.GROWS) }
    {
        while self.ahead.steps() < end {
            if !self.has_same_transition(tapes) {
                return Ok(false);
            }
            pair.step(&mut self.runner, &mut tapes.pair.run, &mut (), meter)?;
            pair.step(&mut self.ahead, &mut tapes.ahead, &mut (), meter)?;
        }
        Ok(true)
    }

    /// Whether both use the same transition next.
    #[inline]
    fn has_same_transition<T: Tape>(&self, tapes: &Tapes<T>) -> bool
        requires inside { IsInside (T.view tapes.now.pair.run) (position_of self.now.runner) }
        requires ahead_inside { IsInside (T.view tapes.now.ahead) (position_of self.now.ahead) }
        ensures { IsTrue result ↔ (transition_here self.now.runner (T.view tapes.now.pair.run)
            ≡ transition_here self.now.ahead (T.view tapes.now.ahead)) }
    {
        let symbol = tapes.pair.run.read_inside(self.runner.position());
        symbol == tapes.ahead.read_inside(self.ahead.position())
            && self.runner.state() == self.ahead.state()
    }
}

/// The start of the same transitions in two runs, after a step with the same transition or another one.
#[inline(always)]
fn start_after(start: u64, step: u64, same: bool) -> u64
    requires { step + 1 < 2 ^ 64 }
    ensures { MatchBool same (result ≡ start) (result ≡ step + 1) }
{
    if same { start } else { step + 1 }
}
