//! A whole run within limits, in registers while it stays within 64 cells.
ghost use Rattle.std.specs.Prelude.{◌≡◌, ◌+◌, ◌<◌, ◌≤◌, ◌↔◌, ◌^◌, IfOk, IfSome, IsTrue, OnErr, OnOk, length};
ghost use Rattle.bb_machine.specs.Machine.{symbols_of};
ghost use Rattle.bb_sim.specs.Meter.{CountsPart, CountsRun, IsWithinRun};
ghost use Rattle.bb_sim.specs.Outcome.{IsOutcome};
ghost use Rattle.bb_registers.specs.Registers.{EndsWith, IsRegisterRun};

use crate::blocks::simulate_in_blocks;
use crate::run::{RegisterMove, RegisterRun};
use bb_machine::{Limits, Machine};
use bb_sim::{Meter, Outcome, simulate};
use bb_tape::{Memory, Tape};

/// A run in registers and its outcome; none where its next step would leave the 64 cells.
#[derive(Clone, Copy)]
struct RegisterEnd {
    /// The run after its last step in registers.
    run: RegisterRun,
    /// How it ends, if it does there.
    outcome: Option<Outcome>,
}

/// Runs a machine from its start, as [`simulate`] does, but in registers while it stays within 64 cells. The
/// rest of a longer run is made on the tape, in blocks of 64 cells. A tape that grows is used from the start.
///
/// After an error the tape has the configuration of the last counted step; the next run resets it.
pub fn simulate_in_registers<T: Tape>(
    machine: &Machine,
    tape: &mut T,
    limits: &Limits,
    meter: &mut Meter,
) -> Result<Outcome, Memory>
    requires limit { (T.view tape.old).limit ≡ limits.now.cells }
    requires room { meter.old.steps + limits.now.steps + 1 < 2 ^ 64 }
    ensures outcome { IfOk result (IsOutcome machine.now limits.now) }
    ensures counted { OnOk result (CountsRun machine.now limits.now meter.old meter.new) }
    ensures cut { OnErr result (CountsPart machine.now limits.now (T.view tape.new).content
        meter.old meter.new) }
    ensures within { IsWithinRun limits.now meter.old meter.new }
    ensures limit { (T.view tape.new).limit ≡ (T.view tape.old).limit }
    ensures memory { OnErr result (IsTrue T.GROWS) }
{
    if T::GROWS {
        return simulate(machine, tape, limits, meter);
    }
    if !machine.is_small() {
        return simulate(machine, tape, limits, meter);
    }
    let end = run_in_registers(machine, limits);
    let Some(outcome) = end.outcome else {
        let Ok(runner) = end.run.move_to_tape(machine, limits, tape) else {
            unreachable!();
        };
        end.run.count(end.run.steps, limits, meter);
        return simulate_in_blocks(machine, runner, tape, limits, meter);
    };
    end.run.count(end.run.last_step(outcome), limits, meter);
    Ok(outcome)
}

/// Runs a machine in registers from its start, until it halts, a limit is met or its next step would leave
/// the 64 cells.
fn run_in_registers(machine: &Machine, limits: &Limits) -> RegisterEnd
    requires symbols { symbols_of machine.now ≡ 2 }
    requires states { length machine.now ≤ 7 }
    ensures run { IsRegisterRun machine.now limits.now result.run }
    ensures ended { IfSome result.outcome (λ outcome.
        (known : IsRegisterRun machine.now limits.now result.run) → EndsWith known outcome) }
{
    let table = machine.packed();
    let limits = *limits;
    let mut run = RegisterRun::start(machine, &limits);
    loop {
        match run.advance(machine, &table, &limits) {
            RegisterMove::Stepped => {}
            RegisterMove::Ended(outcome) => {
                return RegisterEnd {
                    run,
                    outcome: Some(outcome),
                };
            }
            RegisterMove::Outside => return RegisterEnd { run, outcome: None },
        }
    }
}
