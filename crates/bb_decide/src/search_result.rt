//! The steps of a search's run, and its result.
ghost use Rattle.std.specs.Prelude.{◌≡◌, ◌+◌, ◌*◌, ◌<◌, ◌≤◌, ◌^◌};
ghost use Rattle.bb_sim.specs.Runner.{Stands, steps_of};
ghost use Rattle.bb_tape.specs.Content.{score};
ghost use Rattle.bb_decide.specs.inside.SearchResult.{found_of, is_settled};
ghost use Rattle.bb_decide.specs.inside.Step.{StepsOn, TakesOver, TellsEnd};

use bb_cert::Verdict;
use bb_machine::{Limits, Machine};
use bb_sim::{Meter, Moved, Outcome, Runner};
use bb_tape::{Memory, Tape};

/// The verdict found by a search, or else the outcome of its run.
#[derive(Clone, Copy, Debug)]
pub enum SearchResult {
    Found(Verdict),
    Ran(Outcome),
}

impl SearchResult {
    /// The verdict found, if any.
    #[inline]
    pub fn found(self) -> Option<Verdict>
        ensures { result ≡ found_of self }
    {
        match self {
            SearchResult::Found(verdict) => Some(verdict),
            SearchResult::Ran(_) => None,
        }
    }

    /// Whether it is final, with any other searches in use: a verdict was found, or the machine halts.
    pub fn is_settled(&self) -> bool
        ensures { result ≡ is_settled self.now }
    {
        match self {
            SearchResult::Found(_) => true,
            SearchResult::Ran(Outcome::Halt { .. }) => true,
            SearchResult::Ran(Outcome::NoSteps) => false,
            SearchResult::Ran(Outcome::NoCells) => false,
        }
    }
}

/// Makes the next step of a run, if there is one inside the limits; the runner counts its steps and cells.
/// The run ends without a step, by a step into Z, or without memory for the step; then the meter adds the
/// run. It is inlined into loops, so that the runner stays in their registers.
#[inline(always)]
pub fn step_on<T: Tape>(
    machine: &Machine,
    runner: &mut Runner,
    tape: &mut T,
    limits: &Limits,
    meter: &mut Meter,
) -> Result<Moved, Memory>
    requires stands { Stands machine.now runner.old (T.view tape.old) }
    requires limit { (T.view tape.old).limit ≡ limits.now.cells }
    requires steps { steps_of runner.old ≤ limits.now.steps }
    requires room { meter.old.steps ≤ 2 * limits.now.steps }
    ensures { StepsOn T.GROWS machine.now limits.now runner.old runner.new (T.view tape.old)
        (T.view tape.new) meter.old meter.new result }
{
    limits.show_accepted();
    let mut uncounted = Meter::new();
    let Ok(moved) = runner.advance(machine, tape, limits, &mut uncounted) else {
        count_run(meter, *runner);
        return Err(Memory);
    };
    match moved {
        Moved::Stepped => {}
        moved => {
            count_run(meter, *runner);
            return Ok(moved);
        }
    }
    // Z is never met twice, so this step can't be a repeat: the run ends.
    let Some(_) = runner.state() else {
        count_run(meter, *runner);
        return Ok(Moved::Halted);
    };
    Ok(Moved::Stepped)
}

/// Adds a run to the meter: its steps, and the cells of its window. It is not inlined, so that the loop
/// before it keeps its registers.
#[cold]
#[inline(never)]
pub fn count_run(meter: &mut Meter, runner: Runner)
    requires { meter.old.steps + steps_of runner < 2 ^ 64 }
    ensures { TakesOver runner meter.old meter.new }
{
    meter.steps += runner.steps();
    meter.most_cells = meter.most_cells.max(runner.cells());
}

/// The outcome of a search's run, after the runner's last step or a step into Z.
#[cold]
#[inline(never)]
pub fn outcome_of<T: Tape>(moved: Moved, runner: Runner, tape: &T) -> Outcome
    ensures { TellsEnd moved (steps_of runner) (score (T.view tape.now).content) result }
{
    match moved {
        Moved::NoSteps => Outcome::NoSteps,
        Moved::NoCells => Outcome::NoCells,
        Moved::Halted | Moved::Stepped => Outcome::Halt {
            steps: runner.steps(),
            score: tape.score(),
        },
    }
}
