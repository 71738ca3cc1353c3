//! A run of a claim: in registers as long as it keeps within 64 cells, and on a tape from then on.
ghost use Rattle.std.specs.Prelude.{◌≡◌, ℕ, ◌+◌, ◌<◌, ◌↔◌, IfOk, IsTrue, OnErr, OnOk};
ghost use Rattle.bb_machine.specs.Limits.{Bounds};
ghost use Rattle.bb_machine.specs.Machine.{Table};
ghost use Rattle.bb_tape.specs.TapeView.{TapeView};
ghost use Rattle.bb_sim.specs.declared.meter.Meter.{Meter};
ghost use Rattle.bb_sim.specs.Meter.{CountsTo, IsWithinRun, zero_meter};
ghost use Rattle.bb_sim.specs.Runner.{steps_of};
ghost use Rattle.bb_sim.specs.Span.{Inside};
ghost use Rattle.bb_cert.specs.claims.Repeat.{Same};
ghost use Rattle.bb_cert.specs.inside.Checks.{IsUnderWay};
ghost use Rattle.bb_cert.specs.inside.RegisterChecks as checks;
ghost use Rattle.bb_cert.specs.checker.Course.{IsReadAt, IsRunnerAt};
ghost use Rattle.bb_cert.specs.inside.Runs.{IsAnswered, IsRunWithTable, IsRun, IsSomewhere};
ghost use Rattle.bb_cert.specs.inside.Runs.{MatchProgress, StandsSaved, StandsThere, made_of, register_steps};
ghost use Rattle.bb_cert.specs.inside.Runs.{saved_steps};

use crate::checker::answer::Answer;
use crate::checker::checking::Pair;
use bb_machine::{Limits, Machine, PackedTable};
use bb_registers::{RegisterMove, RegisterRun};
use bb_sim::{Meter, Moved, Outcome, Runner, is_same};
use bb_tape::{Memory, Tape};

/// How far a run came towards a step.
#[derive(Clone, Copy)]
pub(crate) enum Progress {
    /// It is there.
    There,
    /// It can't reach its limit of steps; this is the answer.
    Cut(Answer),
    /// Its next step would leave the 64 cells.
    Outside,
}

/// A run in registers, or one on a tape.
pub(crate) trait Steps: Copy {
    /// It is under way inside the bounds, with a tape and a meter beside it.
    ghost is_under_way: { Table → Bounds → Self → TapeView → Meter → Type 0 };

    /// How many steps were made.
    ghost made: { Self → ℕ };

    /// It may have to leave the 64 cells.
    ghost may_leave: { Type 0 };

    /// How many steps were made.
    fn steps(&self) -> u64
        ensures { result ≡ made self.now };

    /// The runner that stands where the run does.
    fn runner(&self, machine: &Machine, limits: &Limits) -> Runner
        requires run { IsSomewhere (is_under_way machine.now limits.now self.now) }
        ensures { IsRunnerAt machine.now (made self.now) result };

    /// The symbol under the head, if it is wanted.
    fn symbol<T: Tape>(&self, tape: &T, wanted: bool) -> u8
        ensures { (table : Table) (bounds : Bounds) (meter : Meter)
            → is_under_way table bounds self.now (T.view tape.now) meter
            → IsTrue wanted → IsReadAt table (made self.now) result };

    /// Makes one step towards the limit of steps.
    fn advance<T: Tape>(
        &mut self,
        machine: &Machine,
        tape: &mut T,
        limits: &Limits,
        meter: &mut Meter,
    ) -> Result<Progress, Memory>
        requires under_way { is_under_way machine.now limits.now self.old (T.view tape.old) meter.old }
        requires ahead { made self.old < limits.now.steps }
        ensures progress { IfOk result (λ progress. MatchProgress progress
            (is_under_way machine.now limits.now self.new (T.view tape.new) meter.new
            × (made self.new ≡ made self.old + 1))
            (IsAnswered machine.now limits.now meter.new)
            (is_under_way machine.now limits.now self.new (T.view tape.new) meter.new
            × (made self.new ≡ made self.old) × may_leave)) }
        ensures within { IsWithinRun limits.now zero_meter meter.new }
        ensures limit { (T.view tape.new).limit ≡ (T.view tape.old).limit }
        ensures memory { OnErr result (IsTrue T.GROWS) };
}

/// A run in registers, not counted so far, with its machine's table.
#[derive(Clone, Copy)]
pub(crate) struct RunWithTable {
    pub(crate) run: RegisterRun,
    pub(crate) table: PackedTable,
}

impl Steps for RunWithTable {
    ghost is_under_way = { IsRunWithTable };

    ghost made = { register_steps };

    ghost may_leave = { Unit {0} };

    #[inline(always)]
    fn steps(&self) -> u64 {
        self.run.steps
    }

    #[inline(always)]
    fn runner(&self, machine: &Machine, limits: &Limits) -> Runner {
        self.run.runner(machine, limits)
    }

    #[inline(always)]
    fn symbol<T: Tape>(&self, _tape: &T, _wanted: bool) -> u8 {
        u8::from(self.run.registers.reads_one())
    }

    #[inline(always)]
    fn advance<T: Tape>(
        &mut self,
        machine: &Machine,
        _tape: &mut T,
        limits: &Limits,
        meter: &mut Meter,
    ) -> Result<Progress, Memory> {
        limits.show_accepted();
        match self.run.advance(machine, &self.table, limits) {
            RegisterMove::Stepped => Ok(Progress::There),
            RegisterMove::Ended(outcome) => {
                machine.show_machine();
                self.run.count(self.run.last_step(outcome), limits, meter);
                Ok(Progress::Cut(answer_of(outcome)))
            }
            RegisterMove::Outside => Ok(Progress::Outside),
        }
    }
}

impl Steps for Runner {
    ghost is_under_way = { IsUnderWay };

    ghost made = { steps_of };

    ghost may_leave = { ⊥ };

    #[inline(always)]
    fn steps(&self) -> u64 {
        Runner::steps(self)
    }

    #[inline(always)]
    fn runner(&self, _machine: &Machine, _limits: &Limits) -> Runner {
        *self
    }

    #[inline(always)]
    fn symbol<T: Tape>(&self, tape: &T, wanted: bool) -> u8 {
        if wanted {
            tape.read(self.position())
        } else {
            0
        }
    }

    #[inline(always)]
    fn advance<T: Tape>(
        &mut self,
        machine: &Machine,
        tape: &mut T,
        limits: &Limits,
        meter: &mut Meter,
    ) -> Result<Progress, Memory> {
        limits.show_accepted();
        match Runner::advance(self, machine, tape, limits, meter)? {
            Moved::Stepped => Ok(Progress::There),
            Moved::Halted => Ok(Progress::Cut(Answer::Bad)),
            Moved::NoSteps => Ok(Progress::Cut(Answer::Bad)),
            Moved::NoCells => Ok(Progress::Cut(Answer::Over)),
        }
    }
}

/// The answer by the outcome of a run that ended on its way.
fn answer_of(outcome: Outcome) -> Answer
    ensures { result ≡ checks.answer_of outcome }
{
    match outcome {
        Outcome::Halt { .. } => Answer::Bad,
        Outcome::NoSteps => Answer::Bad,
        Outcome::NoCells => Answer::Over,
    }
}

/// A run of a claim, with its configuration at an earlier step: the start, until [`Run::save`].
#[derive(Clone, Copy)]
pub(crate) enum Run {
    /// Both in registers.
    InRegisters {
        active: RunWithTable,
        saved: RegisterRun,
    },
    /// Each on a tape of a pair. The start isn't on the saved one.
    OnTape {
        runner: Runner,
        saved: Runner,
    },
}

impl Run {
    /// Starts the run of a claim, under a meter at zero. A tape that grows is used from the start.
    #[inline(always)]
    pub(crate) fn begin<T: Tape>(
        machine: &Machine,
        limits: &Limits,
        tape: &mut T,
        meter: &mut Meter,
    ) -> Run
        requires limit { (T.view tape.old).limit ≡ limits.now.cells }
        requires meter { meter.old ≡ zero_meter }
        ensures run { IsRun machine.now limits.now result (T.view tape.new) meter.new }
        ensures made { made_of result ≡ 0 }
        ensures within { IsWithinRun limits.now zero_meter meter.new }
        ensures limit { (T.view tape.new).limit ≡ (T.view tape.old).limit }
    {
        limits.show_accepted();
        if !T::GROWS {
            if machine.is_small() {
                let table = machine.packed();
                let run = RegisterRun::start(machine, limits);
                let active = RunWithTable { run, table };
                return Run::InRegisters { active, saved: run };
            }
        }
        meter.begin_run();
        let runner = Runner::start(machine, tape);
        Run::OnTape {
            runner,
            saved: runner,
        }
    }

    /// The runner that stands where the run does.
    #[inline(always)]
    pub(crate) fn runner(&self, machine: &Machine, limits: &Limits) -> Runner
        requires run { IsSomewhere (IsRun machine.now limits.now self.now) }
        ensures { IsRunnerAt machine.now (made_of self.now) result }
    {
        match self {
            Run::InRegisters { active, .. } => active.run.runner(machine, limits),
            Run::OnTape { runner, .. } => *runner,
        }
    }

    /// Saves the configuration of the run, with a copy of its tape if it is on one.
    #[inline(always)]
    pub(crate) fn save<T: Tape>(&mut self, pair: &mut Pair<T>) -> Result<(), Memory>
        requires limit { (T.view pair.old.saved).limit ≡ (T.view pair.old.run).limit }
        ensures run { (table : Table) (bounds : Bounds) (meter : Meter)
            → IsRun table bounds self.old (T.view pair.old.run) meter
            → OnOk result (IsRun table bounds self.new (T.view pair.new.run) meter
            × StandsSaved table bounds self.new (T.view pair.new.saved)) }
        ensures made { made_of self.new ≡ made_of self.old }
        ensures at { OnOk result (saved_steps self.new ≡ made_of self.old) }
        ensures run_tape { T.view pair.new.run ≡ T.view pair.old.run }
        ensures limit { (T.view pair.new.saved).limit ≡ (T.view pair.old.saved).limit }
        ensures memory { OnErr result (IsTrue T.GROWS) }
    {
        match self {
            Run::InRegisters { active, saved } => {
                *saved = active.run;
            }
            Run::OnTape { runner, saved } => {
                *saved = *runner;
                let Ok(()) = pair.saved.copy_from(&pair.run) else {
                    return Err(Memory);
                };
            }
        }
        Ok(())
    }

    /// Counts the run, if it is in registers.
    #[inline(always)]
    pub(crate) fn count<T: Tape>(
        &self,
        machine: &Machine,
        tape: &T,
        limits: &Limits,
        meter: &mut Meter,
    )
        requires run { IsRun machine.now limits.now self.now (T.view tape.now) meter.old }
        ensures stands { StandsThere machine.now limits.now self.now (T.view tape.now) }
        ensures inside { Inside machine.now limits.now (made_of self.now) }
        ensures counts { CountsTo machine.now (made_of self.now) zero_meter meter.new }
    {
        limits.show_accepted();
        machine.show_machine();
        match self {
            Run::InRegisters { active, .. } => active.run.count(active.run.steps, limits, meter),
            Run::OnTape { .. } => {}
        }
    }

    /// Whether the run has the saved configuration again.
    #[inline(always)]
    pub(crate) fn is_as_saved<T: Tape>(&self, pair: &Pair<T>) -> bool
        ensures { (table : Table) (bounds : Bounds)
            → StandsThere table bounds self.now (T.view pair.now.run)
            → StandsSaved table bounds self.now (T.view pair.now.saved)
            → (IsTrue result ↔ Same table (saved_steps self.now) (made_of self.now)) }
    {
        match self {
            Run::InRegisters { active, saved } => active.run.has_same_configuration(saved),
            Run::OnTape { runner, saved } => is_same(runner, &pair.run, saved, &pair.saved),
        }
    }
}
