//! The search for agreeing records.
ghost use Rattle.std.specs.Prelude.{◌≡◌, ◌*◌, ◌≤◌, IfOk, IfSome, IsTrue, OnErr};
ghost use Rattle.bb_sim.specs.Meter.{CountsPart, IsWithinRun};
ghost use Rattle.bb_sim.specs.Run.{Never};
ghost use Rattle.bb_cert.specs.claims.Claim.{Claim};
ghost use Rattle.bb_cert.specs.verdict.Verdict.{HasNumbers};
ghost use Rattle.bb_decide.specs.Bench.{BenchHasCells};
ghost use Rattle.bb_decide.specs.Cycle.{CountsSearch};
ghost use Rattle.bb_decide.specs.inside.SearchResult.{Seeks};
ghost use Rattle.bb_decide.specs.Sure.{FindsAgreeingRecords};
ghost use Rattle.bb_decide.specs.Translation.{FindsTranslation};

use crate::bench::Bench;
use crate::record_search::compare_record;
use crate::search_result::{SearchResult, count_run, outcome_of, step_on};
use bb_cert::records::{Records, widened_side};
use bb_cert::{Side, Verdict};
use bb_machine::{Limits, Machine};
use bb_sim::{Meter, Moved, Runner};
use bb_tape::{Memory, Tape};

/// The first record of either side, from record 2 on, that agrees with its partner, the record of that side
/// numbered by the greatest power of two below its own number. None if there is none inside the limits.
///
/// After an error the run's tape has the configuration of the last counted step; the next call resets all
/// tapes.
#[inline(never)]
pub fn translated<T: Tape>(
    machine: &Machine,
    limits: &Limits,
    bench: &mut Bench<T>,
    meter: &mut Meter,
) -> Result<Option<Verdict>, Memory>
    requires tapes { BenchHasCells T.view limits.now.cells bench.old }
    requires room { meter.old.steps ≤ 2 * limits.now.steps }
    ensures found { IfOk result (FindsTranslation machine.now limits.now) }
    ensures sure { IfOk result (FindsAgreeingRecords machine.now limits.now) }
    ensures counted { IfOk result (CountsSearch machine.now limits.now meter.old meter.new) }
    ensures cut { OnErr result (CountsPart machine.now limits.now (T.view bench.new.run).content
        meter.old meter.new) }
    ensures within { IsWithinRun limits.now meter.old meter.new }
    ensures never { IfOk result (λ found. IfSome found (λ verdict. Never machine.now)) }
    ensures claim { IfOk result (λ found. IfSome found (Claim machine.now)) }
    ensures numbers { IfOk result (λ found. IfSome found HasNumbers) }
    ensures tapes { BenchHasCells T.view limits.now.cells bench.new }
    ensures path { bench.new.path ≡ bench.old.path }
    ensures memory { OnErr result (IsTrue T.GROWS) }
{
    let search_result = seek_translation(machine, limits, bench, meter)?;
    Ok(search_result.found())
}

/// The same, with the outcome of the run if there is no such record. The limits are a local of the loop, and
/// stay in registers; the runner counts its steps and cells, and the meter adds them at the end of the run.
#[inline(never)]
pub(crate) fn seek_translation<T: Tape>(
    machine: &Machine,
    limits: &Limits,
    bench: &mut Bench<T>,
    meter: &mut Meter,
) -> Result<SearchResult, Memory>
    requires tapes { BenchHasCells T.view limits.now.cells bench.old }
    requires room { meter.old.steps ≤ 2 * limits.now.steps }
    ensures { Seeks (FindsTranslation machine.now limits.now) T.GROWS T.view machine.now limits.now
        bench.old bench.new meter.old meter.new result }
{
    let limits = *limits;
    limits.show_accepted();
    let mut runner = Runner::start(machine, &mut bench.run);
    let mut right = Records::new(Side::R, runner);
    let mut left = Records::new(Side::L, runner);
    loop {
        let cells = runner.cells();
        let Ok(moved) = step_on(machine, &mut runner, &mut bench.run, &limits, meter) else {
            return Err(Memory);
        };
        match moved {
            Moved::Stepped => {}
            moved => return Ok(SearchResult::Ran(outcome_of(moved, runner, &bench.run))),
        }
        right.pass(runner.position());
        left.pass(runner.position());
        // A step makes a record exactly if it widens the window.
        let Some(side) = widened_side(&runner, cells) else {
            continue;
        };
        match compare_record(
            side,
            &mut right,
            &mut left,
            &runner,
            &bench.run,
            &mut bench.right,
            &mut bench.left,
            meter,
        )? {
            Some(verdict) => {
                count_run(meter, runner);
                return Ok(SearchResult::Found(verdict));
            }
            None => {}
        }
    }
}
