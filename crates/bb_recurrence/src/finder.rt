//! The recurrence behind a verdict from any source, or behind a known pair.
ghost use Rattle.std.specs.Prelude.{◌≡◌, ◌+◌, ◌*◌, ◌≤◌, ◌^◌, IfOk, IsTrue, OnErr, OnOk};
ghost use Rattle.bb_machine.specs.Machine.{IsMachine, Table};
ghost use Rattle.bb_tree.specs.Path.{depth_of};
ghost use Rattle.laws_of_recurrence.specs.Recurrence.{RepeatsExactly};
ghost use Rattle.laws_of_recurrence.specs.Shift.{IsShift};
ghost use Rattle.bb_recurrence.specs.Finding.{CountsFinding, IsFinding};
ghost use Rattle.bb_recurrence.specs.LastUses.{AreSeen};
ghost use Rattle.bb_recurrence.specs.Pairs.{IsRepeating};
ghost use Rattle.bb_recurrence.specs.Recurrence.{CountsAtMost, CountsRecurrence};
ghost use Rattle.bb_recurrence.specs.Tapes.{HasMemoryFor, TapesHaveCells};

use crate::history::MAX_RECORDED;
use crate::period::SavedPair;
use crate::recurrence::{KnownPair, Recurrence};
use crate::uses::LastUses;
use crate::verdict::{Finding, pair_of, show_repeats};
use bb_cert::{Answer, Pair, Path, Verdict, check, check_along};
use bb_machine::{Limits, Machine};
use bb_sim::{Meter, Runner};
use bb_tape::{Memory, Tape};

/// The tapes for finding a recurrence. Each call resets those it uses.
#[derive(Drop)]
pub struct Tapes<T> {
    /// The tape of the run, and the one saved at the first step of a pair.
    pub pair: Pair<T>,
    /// The tape of the run ahead.
    pub ahead: T,
}

impl<T> Tapes<T> {
    /// Three tapes for finding recurrences.
    pub fn new(pair: Pair<T>, ahead: T) -> Tapes<T>
        ensures pair { result.pair ≡ pair }
        ensures ahead { result.ahead ≡ ahead }
    {
        Tapes { pair, ahead }
    }
}

/// Finds recurrences, one after the other in the same memory.
///
/// After an error the contents of the tapes are unspecified; the next call resets them.
#[derive(Drop)]
pub struct Finder<T> {
    /// The tapes of the runs.
    pub tapes: Tapes<T>,
    /// The path of a backward tree, for the checker.
    pub path: Path,
    /// The last uses by the run of the last pair.
    pub uses: LastUses,
}

impl<T: Tape> Finder<T> {
    /// A finder on these tapes. No step was made.
    pub fn new(tapes: Tapes<T>, path: Path) -> Finder<T>
        ensures tapes { result.tapes ≡ tapes }
        ensures path { result.path ≡ path }
        ensures uses { (table : Table) → IsMachine table → AreSeen table 0 result.uses }
    {
        Finder {
            tapes,
            path,
            uses: LastUses::new(),
        }
    }

    /// Finds the exact recurrence of a machine's run, if a verdict is a pair and the checker confirms it
    /// under these limits. Resets `meter`, and counts there the steps and the cells of the check. If its
    /// second step is past 4,096, the steps of `find_recurrence` are added; else the checker's run is
    /// recorded, and no other is made. For a confirmed pair `uses` then has the last uses up to its second
    /// step.
    pub fn find(
        &mut self,
        machine: &Machine,
        verdict: &Verdict,
        limits: &Limits,
        meter: &mut Meter,
    ) -> Result<Finding, Memory>
        requires memory { HasMemoryFor T.view limits.now self.old }
        ensures found { IfOk result (IsFinding machine.now limits.now verdict.now self.new.uses) }
        ensures counted { IfOk result (CountsFinding machine.now limits.now verdict.now meter.new) }
        ensures few_steps { meter.new.steps ≤ 160 * limits.now.steps }
        ensures few_cells { meter.new.most_cells ≤ limits.now.cells }
        ensures tapes { TapesHaveCells T.view limits.now.cells self.new.tapes }
        ensures depth { depth_of self.new.path ≡ depth_of self.old.path }
        ensures memory { OnErr result (IsTrue T.GROWS) }
    {
        *meter = Meter::new();
        let Some((first, second)) = pair_of(verdict) else {
            return Ok(Finding::NoPair);
        };
        limits.show_accepted();
        let pair = KnownPair {
            machine,
            limits,
            first,
            second,
        };
        let Finder { tapes, path, uses } = self;
        if second <= MAX_RECORDED {
            uses.reset(machine);
            let answer = check_along(machine, verdict, limits, &mut tapes.pair, path, uses, meter)?;
            if answer != Answer::Ok {
                return Ok(Finding::Answered(answer));
            }
            show_repeats(verdict, &pair);
            return Ok(Finding::Recurs(uses.history.recurrence(&pair)));
        }
        let answer = check(machine, verdict, limits, &mut tapes.pair, path, meter)?;
        if answer != Answer::Ok {
            return Ok(Finding::Answered(answer));
        }
        show_repeats(verdict, &pair);
        let mut own = Meter::new();
        let found = self.find_recurrence(&pair, &mut own);
        meter.steps += own.steps;
        Ok(Finding::Recurs(found?))
    }

    /// Finds the exact recurrence of a run that repeats. The second step of the pair is inside the limits; no
    /// other step needs to be. Resets `uses`, and records there the last uses up to the second step.
    ///
    /// The steps are counted in `meter`. A run of at most 4,096 steps is made once and recorded: it costs
    /// `second`. A longer one costs `first + second` for the start and the last uses, the period for the
    /// shift if that is less than the distance, and at most 4 * log2(`second - first`) times the distance
    /// for the least period.
    pub fn find_recurrence(
        &mut self,
        pair: &KnownPair,
        meter: &mut Meter,
    ) -> Result<Recurrence, Memory>
        requires tapes { TapesHaveCells T.view pair.now.limits.now.cells self.old.tapes }
        requires pair { IsRepeating pair.now }
        requires room { meter.old.steps ≤ 10 ^ 12 }
        ensures exact { IfOk result (λ found. RepeatsExactly pair.now.machine.now found.start found.period) }
        ensures shift { IfOk result (λ found.
            IsShift pair.now.machine.now found.start found.period found.shift) }
        ensures early { IfOk result (λ found. found.start ≤ pair.now.first) }
        ensures uses { OnOk result (AreSeen pair.now.machine.now pair.now.second self.new.uses) }
        ensures whole { IfOk result (λ found. found.start + found.period ≤ pair.now.second) }
        ensures counted { IfOk result (λ found. CountsRecurrence pair.now.first pair.now.second
            found.period meter.old.steps meter.new.steps) }
        ensures few { CountsAtMost pair.now.first pair.now.second meter.old.steps meter.new.steps }
        ensures tapes { TapesHaveCells T.view pair.now.limits.now.cells self.new.tapes }
        ensures path { self.new.path ≡ self.old.path }
        ensures memory { OnErr result (IsTrue T.GROWS) }
    {
        pair.limits.show_accepted();
        let Finder { tapes, uses, .. } = self;
        uses.reset(pair.machine);
        if pair.second <= MAX_RECORDED {
            let run = &mut tapes.pair.run;
            let mut runner = Runner::start(pair.machine, run);
            pair.run_to(&mut runner, run, pair.second, uses, meter)?;
            return Ok(uses.history.recurrence(pair));
        }
        let start = pair.find_start(tapes, uses, meter)?;
        let saved = SavedPair {
            pair: *pair,
            runner: start.runner,
        };
        let period = saved.least_period(tapes, meter)?;
        let shift = saved.find_shift(period, start.whole, tapes, meter)?;
        Ok(Recurrence {
            start: start.step,
            period,
            shift,
        })
    }
}
