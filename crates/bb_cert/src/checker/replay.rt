//! The run of a claim, up to the steps named in it.
ghost use Rattle.std.specs.Prelude.{◌≡◌, ◌≤◌, false, IfOk, IsTrue, MatchBool, MatchOption};
ghost use Rattle.std.specs.Prelude.{OnErr, OnOk};
ghost use Rattle.bb_sim.specs.Meter.{IsWithinRun, zero_meter};
ghost use Rattle.bb_sim.specs.Runner.{steps_of};
ghost use Rattle.bb_registers.specs.Registers.{IsRegisterRun};
ghost use Rattle.bb_cert.specs.checker.Pair.{PairHasCells};
ghost use Rattle.bb_cert.specs.inside.Checks.{GoesOn, IsUnderWay, Passes, goes_further, goes_nowhere};
ghost use Rattle.bb_cert.specs.inside.Runs.{IsAnswered, IsRegisterPair, IsRun, MatchProgress};
ghost use Rattle.bb_cert.specs.inside.Runs.{StandsSaved, made_of, register_steps, saved_steps};
ghost use Rattle.bb_cert.specs.records.Follow.{with_kept};

use crate::checker::answer::Answer;
use crate::checker::checking::Pair;
use crate::checker::course::Course;
use crate::checker::run::{Progress, Run, RunWithTable, Steps};
use crate::records::{Records, widened_side};
use bb_machine::{Limits, Machine};
use bb_registers::RegisterRun;
use bb_sim::{Meter, Runner};
use bb_tape::{Memory, Tape};

/// The records of a side of a run, and whether the last step makes one.
#[derive(Clone, Copy)]
pub(crate) struct ReplayState {
    pub(crate) records: Records,
    pub(crate) is_record: bool,
}

impl ReplayState {
    /// Records the runner's last step; `cells` is the width of its window before that step.
    #[inline(always)]
    pub(crate) fn pass(&mut self, runner: &Runner, cells: u64)
        ensures { Passes runner.now cells self.old self.new }
    {
        self.records.pass(runner.position());
        self.is_record = match widened_side(runner, cells) {
            Some(side) => side == self.records.side,
            None => false,
        };
    }

    /// Keeps the record made by the runner's last step, if it made one.
    pub(crate) fn keep_if_record(&mut self, runner: &Runner)
        ensures { MatchBool self.old.is_record
            (self.new ≡ record self.old { records = with_kept self.old.records runner.now })
            (self.new ≡ self.old) }
    {
        if self.is_record {
            self.records.keep_record(runner);
        }
    }
}

impl Course for ReplayState {
    ghost READS = { false };

    const READS: bool = false;

    ghost goes_on = { GoesOn };

    ghost stays = { λ table n course. goes_nowhere };

    ghost goes_further = { λ table a b c first second third one other. goes_further one other };

    #[inline(always)]
    fn take_in(&mut self, _machine: &Machine, before: &Runner, _symbol: u8, after: &Runner) {
        self.pass(after, before.cells());
    }
}

/// Continues a run in registers, or one on a tape, up to a step on the way to its limit of steps. The check's
/// own course is copied, so the loop keeps it in registers; the caller's may be large, and stays in its place.
#[inline(never)]
fn go_on<R: Steps, C: Course + Copy, A: Course, T: Tape>(
    machine: &Machine,
    start: &mut R,
    tape: &mut T,
    limits: &Limits,
    step: u64,
    from: &mut C,
    along: &mut A,
    meter: &mut Meter,
) -> Result<Progress, Memory>
    requires under_way { R.is_under_way machine.now limits.now start.old (T.view tape.old) meter.old }
    requires counted { IsWithinRun limits.now zero_meter meter.old }
    requires ahead { R.made start.old ≤ step }
    requires within { step ≤ limits.now.steps }
    ensures progress { IfOk result (λ progress. MatchProgress progress
        (R.is_under_way machine.now limits.now start.new (T.view tape.new) meter.new
        × (R.made start.new ≡ step) × C.goes_on machine.now (R.made start.old) step from.old from.new
        × A.goes_on machine.now (R.made start.old) step along.old along.new)
        (IsAnswered machine.now limits.now meter.new)
        (R.is_under_way machine.now limits.now start.new (T.view tape.new) meter.new
        × (R.made start.old ≤ R.made start.new) × (R.made start.new ≤ step) × R.may_leave
        × C.goes_on machine.now (R.made start.old) (R.made start.new) from.old from.new
        × A.goes_on machine.now (R.made start.old) (R.made start.new) along.old along.new)) }
    ensures within { IsWithinRun limits.now zero_meter meter.new }
    ensures limit { (T.view tape.new).limit ≡ (T.view tape.old).limit }
    ensures memory { OnErr result (IsTrue T.GROWS) }
{
    let mut run = *start;
    let mut course = *from;
    while run.steps() < step {
        let before = run.runner(machine, limits);
        let symbol = run.symbol(tape, C::READS || A::READS);
        let progress = run.advance(machine, tape, limits, meter)?;
        match progress {
            Progress::There => {}
            Progress::Cut(answer) => return Ok(Progress::Cut(answer)),
            Progress::Outside => {
                *start = run;
                *from = course;
                return Ok(Progress::Outside);
            }
        }
        let after = run.runner(machine, limits);
        course.take_in(machine, &before, symbol, &after);
        along.take_in(machine, &before, symbol, &after);
    }
    *start = run;
    *from = course;
    Ok(Progress::There)
}

/// Continues a run up to a step, on the way to its limit of steps, and leaves the registers once it needs
/// more than 64 cells. Returns the answer if the run can't reach the limit.
#[inline(always)]
pub(crate) fn run_to<C: Course + Copy, A: Course, T: Tape>(
    machine: &Machine,
    run: &mut Run,
    pair: &mut Pair<T>,
    limits: &Limits,
    step: u64,
    course: &mut C,
    along: &mut A,
    meter: &mut Meter,
) -> Result<Option<Answer>, Memory>
    requires run { IsRun machine.now limits.now run.old (T.view pair.old.run) meter.old }
    requires tapes { PairHasCells T.view limits.now.cells pair.old }
    requires counted { IsWithinRun limits.now zero_meter meter.old }
    requires ahead { made_of run.old ≤ step }
    requires within { step ≤ limits.now.steps }
    ensures runs { IfOk result (λ cut. MatchOption cut
        (IsRun machine.now limits.now run.new (T.view pair.new.run) meter.new × (made_of run.new ≡ step)
        × C.goes_on machine.now (made_of run.old) step course.old course.new
        × A.goes_on machine.now (made_of run.old) step along.old along.new)
        (IsAnswered machine.now limits.now meter.new)) }
    ensures saved { StandsSaved machine.now limits.now run.old (T.view pair.old.saved)
        → OnOk result (StandsSaved machine.now limits.now run.new (T.view pair.new.saved)) }
    ensures saved_steps { OnOk result (saved_steps run.new ≡ saved_steps run.old) }
    ensures within { IsWithinRun limits.now zero_meter meter.new }
    ensures tapes { PairHasCells T.view limits.now.cells pair.new }
    ensures memory { OnErr result (IsTrue T.GROWS) }
{
    if let Run::InRegisters { active, saved } = run {
        match go_on(
            machine,
            active,
            &mut pair.run,
            limits,
            step,
            course,
            along,
            meter,
        )? {
            Progress::There => return Ok(None),
            Progress::Cut(answer) => return Ok(Some(answer)),
            Progress::Outside => {
                let runner = leave(machine, active, saved, limits, pair, meter)?;
                let saved = saved.runner(machine, limits);
                *run = Run::OnTape { runner, saved };
            }
        }
    }
    let Run::OnTape { runner, .. } = run else {
        unreachable!();
    };
    match go_on(
        machine,
        runner,
        &mut pair.run,
        limits,
        step,
        course,
        along,
        meter,
    )? {
        Progress::There => Ok(None),
        Progress::Cut(answer) => Ok(Some(answer)),
        Progress::Outside => unreachable!(),
    }
}

/// Moves a run and its saved configuration onto the tapes of a pair, and counts the run so far. The saved
/// tape is a copy of the run's, which then gets the cells that changed since.
#[cold]
#[inline(never)]
fn leave<T: Tape>(
    machine: &Machine,
    active: &RunWithTable,
    saved: &RegisterRun,
    limits: &Limits,
    pair: &mut Pair<T>,
    meter: &mut Meter,
) -> Result<Runner, Memory>
    requires run { IsRegisterPair machine.now limits.now active.now saved.now (T.view pair.old.run) meter.old }
    requires tapes { PairHasCells T.view limits.now.cells pair.old }
    ensures under_way { IfOk result (λ runner.
        IsUnderWay machine.now limits.now runner (T.view pair.new.run) meter.new) }
    ensures steps { IfOk result (λ runner. steps_of runner ≡ register_steps active.now) }
    ensures saved { (known : IsRegisterRun machine.now limits.now saved.now)
        → OnOk result (T.view pair.new.saved ≡ known.view) }
    ensures within { IsWithinRun limits.now zero_meter meter.new }
    ensures tapes { PairHasCells T.view limits.now.cells pair.new }
    ensures memory { OnErr result (IsTrue T.GROWS) }
{
    limits.show_accepted();
    saved.move_to_tape(machine, limits, &mut pair.run)?;
    let Ok(()) = pair.saved.copy_from(&pair.run) else {
        return Err(Memory);
    };
    let runner = active.run.move_over(saved, machine, limits, &mut pair.run)?;
    active.run.count(active.run.steps, limits, meter);
    Ok(runner)
}
