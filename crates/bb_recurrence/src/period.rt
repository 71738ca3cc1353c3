//! The least period of a run and its shift, from the first step of a pair on.
ghost use Rattle.std.specs.Prelude.{◌≡◌, ◌+◌, ◌-◌, ◌*◌, ◌/◌, ◌%◌, ◌<◌, ◌≤◌, ◌^◌};
ghost use Rattle.std.specs.Prelude.{IfOk, IsTrue, OnErr, OnOk};
ghost use Rattle.laws_of_recurrence.specs.Recurrence.{IsMultipleOf, Repeats};
ghost use Rattle.laws_of_recurrence.specs.Shift.{IsShift};
ghost use Rattle.bb_recurrence.specs.Lockstep.{IsNear};
ghost use Rattle.bb_recurrence.specs.Pairs.{IsSaved, distance_of};
ghost use Rattle.bb_recurrence.specs.Period.{CountsTests, IsLeastFrom, IsReduced, TellsPeriod};
ghost use Rattle.bb_recurrence.specs.Recurrence.{CountsShift};
ghost use Rattle.bb_recurrence.specs.Tapes.{TapesHaveCells};

use crate::factors::{next_divisor, without};
use crate::finder::Tapes;
use crate::lockstep::Lockstep;
use crate::recurrence::KnownPair;
use bb_sim::{Meter, Runner};
use bb_tape::{Memory, Tape};

/// A pair, and its run at the first step, from which it is tried again and again.
#[derive(Clone, Copy)]
pub(crate) struct SavedPair<'a> {
    pub(crate) pair: KnownPair<'a>,
    /// The run at the first step, on the tape `pair.saved`.
    pub(crate) runner: Runner,
}

impl SavedPair<'_> {
    /// The least period from the first step on. It tests quotients of the distance by primes: at most twice
    /// the logarithm of the distance to base 2.
    pub(crate) fn least_period<T: Tape>(
        &self,
        tapes: &mut Tapes<T>,
        meter: &mut Meter,
    ) -> Result<u64, Memory>
        requires saved { IsSaved T.view tapes.old self.now }
        requires tapes { TapesHaveCells T.view self.now.pair.limits.now.cells tapes.old }
        requires order { self.now.pair.first < self.now.pair.second }
        requires pair { Repeats self.now.pair.machine.now self.now.pair.first (distance_of self.now.pair) }
        requires room { meter.old.steps < 2 ^ 48 }
        ensures least { IfOk result (IsLeastFrom self.now.pair.machine.now self.now.pair.first) }
        ensures within { IfOk result (λ period. self.now.pair.first + period ≤ self.now.pair.second) }
        ensures no_less { meter.old.steps ≤ meter.new.steps }
        ensures few { CountsTests (distance_of self.now.pair) meter.old.steps meter.new.steps }
        ensures saved { T.view tapes.new.pair.saved ≡ T.view tapes.old.pair.saved }
        ensures tapes { TapesHaveCells T.view self.now.pair.limits.now.cells tapes.new }
        ensures memory { OnErr result (IsTrue T.GROWS) }
    {
        self.pair.limits.show_accepted();
        let mut period = self.pair.second - self.pair.first;
        let mut rest = period;
        let mut divisor = 2;
        while rest > 1 {
            if rest % divisor == 0 {
                period = self.reduce(period, divisor, tapes, meter)?;
                rest = without(rest, divisor);
                divisor += 1;
            } else {
                divisor = next_divisor(rest, divisor);
            }
        }
        Ok(period)
    }

    /// A period divided by a number as often as the quotient is a period.
    fn reduce<T: Tape>(
        &self,
        known: u64,
        divisor: u64,
        tapes: &mut Tapes<T>,
        meter: &mut Meter,
    ) -> Result<u64, Memory>
        requires saved { IsSaved T.view tapes.old self.now }
        requires tapes { TapesHaveCells T.view self.now.pair.limits.now.cells tapes.old }
        requires above { 1 < divisor }
        requires within { self.now.pair.first + known ≤ self.now.pair.second }
        requires repeats { Repeats self.now.pair.machine.now self.now.pair.first known }
        requires room { meter.old.steps + 4 * known < 2 ^ 64 }
        ensures reduced { IfOk result
            (IsReduced self.now.pair.machine.now self.now.pair.first known divisor) }
        ensures no_less { meter.old.steps ≤ meter.new.steps }
        ensures few { meter.new.steps ≤ meter.old.steps + 4 * known }
        ensures saved { T.view tapes.new.pair.saved ≡ T.view tapes.old.pair.saved }
        ensures tapes { TapesHaveCells T.view self.now.pair.limits.now.cells tapes.new }
        ensures memory { OnErr result (IsTrue T.GROWS) }
    {
        let mut period = known;
        while period % divisor == 0 {
            let quotient = period / divisor;
            if !self.repeats_with(period, quotient, tapes, meter)? {
                return Ok(period);
            }
            period = quotient;
        }
        Ok(period)
    }

    /// Whether a quotient of a period is a period too.
    fn repeats_with<T: Tape>(
        &self,
        period: u64,
        quotient: u64,
        tapes: &mut Tapes<T>,
        meter: &mut Meter,
    ) -> Result<bool, Memory>
        requires saved { IsSaved T.view tapes.old self.now }
        requires tapes { TapesHaveCells T.view self.now.pair.limits.now.cells tapes.old }
        requires divides { IsMultipleOf quotient period }
        requires some { 0 < quotient }
        requires within { self.now.pair.first + period ≤ self.now.pair.second }
        requires repeats { Repeats self.now.pair.machine.now self.now.pair.first period }
        requires room { meter.old.steps + 2 * period < 2 ^ 64 }
        ensures tells { IfOk result (TellsPeriod self.now.pair.machine.now self.now.pair.first quotient) }
        ensures no_less { meter.old.steps ≤ meter.new.steps }
        ensures few { meter.new.steps ≤ meter.old.steps + 2 * period }
        ensures saved { T.view tapes.new.pair.saved ≡ T.view tapes.old.pair.saved }
        ensures tapes { TapesHaveCells T.view self.now.pair.limits.now.cells tapes.new }
        ensures memory { OnErr result (IsTrue T.GROWS) }
    {
        self.pair.limits.show_accepted();
        let Ok(()) = tapes.pair.run.copy_from(&tapes.pair.saved) else {
            return Err(Memory);
        };
        let Ok(()) = tapes.ahead.copy_from(&tapes.pair.saved) else {
            return Err(Memory);
        };
        let pair = &self.pair;
        let (from, end) = (pair.first + quotient, pair.first + period);
        let mut both = Lockstep {
            runner: self.runner,
            ahead: self.runner,
        };
        pair.run_to(&mut both.ahead, &mut tapes.ahead, from, &mut (), meter)?;
        both.are_alike(pair, tapes, end, meter)
    }

    /// How many cells the head is farther to the right a period after the first step. `whole` is that of the
    /// second step: a run is needed only for a smaller period.
    pub(crate) fn find_shift<T: Tape>(
        &self,
        period: u64,
        whole: i64,
        tapes: &mut Tapes<T>,
        meter: &mut Meter,
    ) -> Result<i64, Memory>
        requires saved { IsSaved T.view tapes.old self.now }
        requires tapes { TapesHaveCells T.view self.now.pair.limits.now.cells tapes.old }
        requires within { self.now.pair.first + period ≤ self.now.pair.second }
        requires whole { IsShift self.now.pair.machine.now self.now.pair.first
            (distance_of self.now.pair) whole }
        requires near { IsNear whole }
        requires room { meter.old.steps + period < 2 ^ 64 }
        ensures shift { IfOk result (IsShift self.now.pair.machine.now self.now.pair.first period) }
        ensures near { IfOk result IsNear }
        ensures counted { OnOk result (CountsShift self.now.pair.first self.now.pair.second period
            meter.old.steps meter.new.steps) }
        ensures few { meter.new.steps ≤ meter.old.steps + period }
        ensures tapes { TapesHaveCells T.view self.now.pair.limits.now.cells tapes.new }
        ensures memory { OnErr result (IsTrue T.GROWS) }
    {
        let pair = &self.pair;
        if period == pair.second - pair.first {
            return Ok(whole);
        }
        let Ok(()) = tapes.pair.run.copy_from(&tapes.pair.saved) else {
            return Err(Memory);
        };
        let mut runner = self.runner;
        let end = pair.first + period;
        pair.run_to(&mut runner, &mut tapes.pair.run, end, &mut (), meter)?;
        Ok(runner.position() - self.runner.position())
    }
}
