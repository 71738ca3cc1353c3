//! A whole run within limits.
ghost use Rattle.std.specs.Prelude.{◌≡◌, ◌+◌, ◌<◌, ◌≤◌, ◌^◌, IfOk, IsTrue, OnErr, OnOk};
ghost use Rattle.bb_sim.specs.declared.meter.Meter.{Meter};
ghost use Rattle.bb_sim.specs.Meter.{CountsPart, CountsRun, CountsTo, IsWithinRun};
ghost use Rattle.bb_sim.specs.Outcome.{IsOutcome};
ghost use Rattle.bb_sim.specs.Runner.{Stands, steps_of};
ghost use Rattle.bb_sim.specs.inside.Simulating.{Simulates};

use crate::meter::Meter;
use crate::runner::{Moved, Runner};
use bb_machine::{Limits, Machine};
use bb_tape::{Memory, Tape};

/// How a simulation within limits ends.
#[derive(Clone, Copy, Debug, PartialEq, Eq)]
pub enum Outcome {
    /// The machine halts after so many steps, with so many nonzero cells.
    Halt { steps: u64, score: u64 },
    /// It doesn't halt within the steps.
    NoSteps,
    /// It doesn't halt within the steps, and would pass the cells.
    NoCells,
}

/// Runs a machine from its start until it halts or a limit is met.
///
/// After an error the tape has the configuration of the last counted step; the next run resets it.
#[inline(never)]
pub fn simulate<T: Tape>(
    machine: &Machine,
    tape: &mut T,
    limits: &Limits,
    meter: &mut Meter,
) -> Result<Outcome, Memory>
    requires limit { (T.view tape.old).limit ≡ limits.now.cells }
    requires room { meter.old.steps + limits.now.steps + 1 < 2 ^ 64 }
    ensures outcome { IfOk result (IsOutcome machine.now limits.now) }
    ensures counted { OnOk result (CountsRun machine.now limits.now meter.old meter.new) }
    ensures cut { OnErr result (CountsPart machine.now limits.now (T.view tape.new).content
        meter.old meter.new) }
    ensures within { IsWithinRun limits.now meter.old meter.new }
    ensures limit { (T.view tape.new).limit ≡ (T.view tape.old).limit }
    ensures memory { OnErr result (IsTrue T.GROWS) }
{
    let runner = Runner::start(machine, tape);
    limits.show_accepted();
    meter.begin_run();
    simulate_from(machine, runner, tape, limits, meter)
}

/// Continues a run from where its runner stands, until the machine halts or a limit is met. The meter has
/// counted the run up to there; what it had counted before the run is `begun`.
///
/// After an error the tape has the configuration of the last counted step.
#[inline(never)]
pub fn simulate_from<T: Tape>(
    machine: &Machine,
    runner: Runner,
    tape: &mut T,
    limits: &Limits,
    meter: &mut Meter,
) -> Result<Outcome, Memory>
    requires stands { Stands machine.now runner (T.view tape.old) }
    requires limit { (T.view tape.old).limit ≡ limits.now.cells }
    requires steps { steps_of runner ≤ limits.now.steps }
    requires counted { (begun : Meter) × CountsTo machine.now (steps_of runner) begun meter.old
        × (begun.steps + limits.now.steps + 1 < 2 ^ 64) }
    ensures outcome { IfOk result (IsOutcome machine.now limits.now) }
    ensures counted { (begun : Meter) → CountsTo machine.now (steps_of runner) begun meter.old
        → OnOk result (CountsRun machine.now limits.now begun meter.new) }
    ensures cut { (begun : Meter) → CountsTo machine.now (steps_of runner) begun meter.old
        → OnErr result (CountsPart machine.now limits.now (T.view tape.new).content begun meter.new) }
    ensures within { (begun : Meter) → CountsTo machine.now (steps_of runner) begun meter.old
        → IsWithinRun limits.now begun meter.new }
    ensures limit { (T.view tape.new).limit ≡ (T.view tape.old).limit }
    ensures memory { OnErr result (IsTrue T.GROWS) }
{
    let limits = *limits;
    let mut spent = *meter;
    let outcome = run_machine(machine, runner, tape, &limits, &mut spent);
    *meter = spent;
    outcome
}

/// The body of `simulate_from`, inlined there: limits and meter are its locals and stay in registers.
#[inline(always)]
fn run_machine<T: Tape>(
    machine: &Machine,
    runner: Runner,
    tape: &mut T,
    limits: &Limits,
    meter: &mut Meter,
) -> Result<Outcome, Memory>
    requires stands { Stands machine.now runner (T.view tape.old) }
    requires limit { (T.view tape.old).limit ≡ limits.now.cells }
    requires steps { steps_of runner ≤ limits.now.steps }
    requires counted { (begun : Meter) × CountsTo machine.now (steps_of runner) begun meter.old
        × (begun.steps + limits.now.steps + 1 < 2 ^ 64) }
    ensures { (begun : Meter) → CountsTo machine.now (steps_of runner) begun meter.old
        → Simulates T.GROWS machine.now limits.now (T.view tape.old) (T.view tape.new) begun meter.new
        result }
{
    let mut runner = runner;
    loop {
        match runner.advance(machine, tape, limits, meter)? {
            Moved::Stepped => {}
            Moved::Halted => {
                return Ok(Outcome::Halt {
                    steps: runner.steps(),
                    score: tape.score(),
                });
            }
            Moved::NoSteps => return Ok(Outcome::NoSteps),
            Moved::NoCells => return Ok(Outcome::NoCells),
        }
    }
}
