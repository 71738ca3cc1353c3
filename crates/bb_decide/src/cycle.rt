//! The search for a repeated configuration, by Brent's cycle detection (R. P. Brent, "An improved Monte Carlo
//! factorization algorithm", 1980): it saves one configuration at each power of two, and compares each later
//! one with it.
ghost use Rattle.std.specs.Prelude.{◌≡◌, ◌*◌, ◌≤◌, Err, IfOk, IfSome, IsTrue, OnErr, OnOk};
ghost use Rattle.bb_sim.specs.Meter.{CountsPart, IsWithinRun};
ghost use Rattle.bb_sim.specs.Run.{Never};
ghost use Rattle.bb_cert.specs.claims.Claim.{Claim};
ghost use Rattle.bb_cert.specs.verdict.Verdict.{HasNumbers};
ghost use Rattle.bb_decide.specs.Bench.{BenchHasCells};
ghost use Rattle.bb_decide.specs.Cycle.{CountsSearch, FindsCycle};
ghost use Rattle.bb_decide.specs.FewCells.{FindsInFewCells};
ghost use Rattle.bb_decide.specs.inside.SearchResult.{Seeks};
ghost use Rattle.bb_decide.specs.Sure.{FindsRepeats};

use crate::bench::Bench;
use crate::search_result::{SearchResult, count_run, outcome_of, step_on};
use bb_cert::{Verdict, is_same};
use bb_machine::{Limits, Machine};
use bb_sim::{Meter, Moved, Runner};
use bb_tape::{Memory, Tape, TapeFault};

/// The first step, from step 2 on, with the configuration of its partner, the greatest power of two below it,
/// and that partner. None if there is none inside the limits.
///
/// After an error the run's tape has the configuration of the last counted step; the next call resets all
/// tapes.
#[inline(never)]
pub fn cyclers<T: Tape>(
    machine: &Machine,
    limits: &Limits,
    bench: &mut Bench<T>,
    meter: &mut Meter,
) -> Result<Option<Verdict>, Memory>
    requires tapes { BenchHasCells T.view limits.now.cells bench.old }
    requires room { meter.old.steps ≤ 2 * limits.now.steps }
    ensures found { IfOk result (FindsCycle machine.now limits.now) }
    ensures sure { IfOk result (FindsRepeats machine.now limits.now) }
    ensures few_cells { IfOk result (FindsInFewCells machine.now limits.now) }
    ensures counted { IfOk result (CountsSearch machine.now limits.now meter.old meter.new) }
    ensures cut { OnErr result (CountsPart machine.now limits.now (T.view bench.new.run).content
        meter.old meter.new) }
    ensures within { IsWithinRun limits.now meter.old meter.new }
    ensures never { IfOk result (λ found. IfSome found (λ verdict. Never machine.now)) }
    ensures claim { IfOk result (λ found. IfSome found (Claim machine.now)) }
    ensures numbers { IfOk result (λ found. IfSome found HasNumbers) }
    ensures tapes { BenchHasCells T.view limits.now.cells bench.new }
    ensures path { bench.new.path ≡ bench.old.path }
    ensures memory { OnErr result (IsTrue T.GROWS) }
{
    machine.show_machine();
    let search_result = seek_cycle(machine, limits, bench, meter)?;
    Ok(search_result.found())
}

/// The same, with the outcome of the run if there is no such pair. The limits are a local of the loop, and stay
/// in registers; the runner counts its steps and cells, and the meter adds them at the end of the run.
#[inline(never)]
pub(crate) fn seek_cycle<T: Tape>(
    machine: &Machine,
    limits: &Limits,
    bench: &mut Bench<T>,
    meter: &mut Meter,
) -> Result<SearchResult, Memory>
    requires tapes { BenchHasCells T.view limits.now.cells bench.old }
    requires room { meter.old.steps ≤ 2 * limits.now.steps }
    ensures { Seeks (FindsCycle machine.now limits.now) T.GROWS T.view machine.now limits.now
        bench.old bench.new meter.old meter.new result }
{
    let limits = *limits;
    limits.show_accepted();
    let mut runner = Runner::start(machine, &mut bench.run);
    let mut kept = Runner::start(machine, &mut bench.right);
    let mut next_kept = 0;
    loop {
        let Ok(moved) = step_on(machine, &mut runner, &mut bench.run, &limits, meter) else {
            return Err(Memory);
        };
        match moved {
            Moved::Stepped => {}
            moved => return Ok(SearchResult::Ran(outcome_of(moved, runner, &bench.run))),
        }
        if is_same(&runner, &bench.run, &kept, &bench.right) {
            count_run(meter, runner);
            return Ok(SearchResult::Found(Verdict::Cycler {
                first: kept.steps(),
                second: runner.steps(),
            }));
        }
        if runner.steps() >= next_kept {
            let Ok(()) = save(&mut bench.right, &bench.run) else {
                count_run(meter, runner);
                return Err(Memory);
            };
            kept = runner;
            next_kept = 2 * kept.steps();
        }
    }
}

/// Copies the cells and the window of another tape. It is not inlined, so that the search keeps its
/// registers.
#[cold]
#[inline(never)]
fn save<T: Tape>(saved: &mut T, run: &T) -> Result<(), TapeFault>
    requires { (T.view saved.old).limit ≡ (T.view run.now).limit }
    ensures ok { OnOk result (T.view saved.new ≡ T.view run.now) }
    ensures limit { (T.view saved.new).limit ≡ (T.view saved.old).limit }
    ensures only_memory { OnErr result ((result ≡ Err TapeFault.Memory) × IsTrue T.GROWS) }
{
    saved.copy_from(run)
}
