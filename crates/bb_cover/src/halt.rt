//! The transition and the score of a halt.
ghost use Rattle.std.specs.Prelude.{◌≡◌, ℕ, ◌≤◌, IfOk, IsTrue, MatchOption, OnErr};
ghost use Rattle.bb_sim.specs.Run.{HaltsAt, IsScore};
ghost use Rattle.bb_sim.specs.Runner.{Stands, steps_of};
ghost use Rattle.bb_sim.specs.Span.{Inside};
ghost use Rattle.bb_cover.specs.UndefinedEntries.{HaltsOn};
ghost use Rattle.bb_cover.specs.Halts.{EndsSo};

use crate::undefined::UndefinedEntry;
use bb_machine::{Entry, Limits, Machine};
use bb_sim::{Meter, Moved, Runner};
use bb_tape::{Memory, Tape};

/// A halt.
#[derive(Clone, Copy, Debug)]
pub(crate) struct Halted {
    pub(crate) steps: u64,
    /// How many cells aren't 0.
    pub(crate) score: u64,
    /// Its undefined transition; none for a step into Z.
    pub(crate) undefined: Option<UndefinedEntry>,
}

/// Runs a machine for so many steps: how it ends, if it halts just then and within the limits; none else.
pub(crate) fn halt_at<T: Tape>(
    machine: &Machine,
    steps: u64,
    limits: &Limits,
    tape: &mut T,
) -> Result<Option<Halted>, Memory>
    requires steps { steps ≤ limits.now.steps }
    requires limit { (T.view tape.old).limit ≡ limits.now.cells }
    ensures ends { IfOk result (λ found. MatchOption found
        (HaltsAt machine.now steps → Inside machine.now limits.now steps → ⊥)
        (EndsSo machine.now limits.now steps)) }
    ensures limit { (T.view tape.new).limit ≡ (T.view tape.old).limit }
    ensures memory { OnErr result (IsTrue T.GROWS) }
{
    limits.show_accepted();
    let Some(halted) = first_halt(machine, &limits.with_steps(steps), tape)? else {
        return Ok(None);
    };
    if halted.steps != steps {
        return Ok(None);
    }
    Ok(Some(halted))
}

/// Runs a machine: how it ends, if it halts within the limits.
pub(crate) fn first_halt<T: Tape>(
    machine: &Machine,
    limits: &Limits,
    tape: &mut T,
) -> Result<Option<Halted>, Memory>
    requires limit { (T.view tape.old).limit ≡ limits.now.cells }
    ensures ends { IfOk result (λ found. MatchOption found
        ((steps : ℕ) → HaltsAt machine.now steps → Inside machine.now limits.now steps → ⊥)
        (λ halted. EndsSo machine.now limits.now halted.steps halted)) }
    ensures limit { (T.view tape.new).limit ≡ (T.view tape.old).limit }
    ensures memory { OnErr result (IsTrue T.GROWS) }
{
    limits.show_accepted();
    let mut meter = Meter::new();
    let mut runner = Runner::start(machine, tape);
    loop {
        match runner.advance(machine, tape, limits, &mut meter)? {
            Moved::Stepped => {}
            Moved::Halted => {
                return Ok(Some(Halted {
                    steps: runner.steps(),
                    score: tape.score(),
                    undefined: undefined_here(machine, &runner, tape),
                }));
            }
            Moved::NoSteps => return Ok(None),
            Moved::NoCells => return Ok(None),
        }
    }
}

/// The undefined transition under a halted runner; none in Z.
fn undefined_here<T: Tape>(machine: &Machine, runner: &Runner, tape: &T) -> Option<UndefinedEntry>
    requires stands { Stands machine.now runner.now (T.view tape.now) }
    requires halts { HaltsAt machine.now (steps_of runner.now) }
    ensures { HaltsOn machine.now (steps_of runner.now) result }
{
    let state = runner.state()?;
    let symbol = tape.read(runner.position());
    Some(UndefinedEntry { state, symbol })
}
