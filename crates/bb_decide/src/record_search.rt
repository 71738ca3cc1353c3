//! The kept record of a side during a search, for comparison with the next one.
ghost use Rattle.std.specs.Prelude.{◌≡◌, ◌+◌, ◌<◌, ◌^◌, IfOk, IfSome, IsTrue, OnErr};
ghost use Rattle.bb_sim.specs.Runner.{steps_of};
ghost use Rattle.bb_cert.specs.verdict.Verdict.{HasNumbers};
ghost use Rattle.bb_decide.specs.inside.Follow.{IsReady, ComparesRecord, ComparesOnSide, on_side};
ghost use Rattle.bb_decide.specs.inside.Step.{TakesOver};

use crate::search_result::count_run;
use bb_cert::records::Records;
use bb_cert::{Side, Verdict};
use bb_sim::{Meter, Runner};
use bb_tape::{Memory, Tape};

/// Compares the record just made by the runner on a side. If there is no memory to keep it, the meter adds
/// the run.
#[inline(always)]
pub fn compare_record<T: Tape>(
    side: Side,
    right: &mut Records,
    left: &mut Records,
    runner: &Runner,
    run: &T,
    saved_right: &mut T,
    saved_left: &mut T,
    meter: &mut Meter,
) -> Result<Option<Verdict>, Memory>
    requires right_limit { (T.view saved_right.old).limit ≡ (T.view run.now).limit }
    requires left_limit { (T.view saved_left.old).limit ≡ (T.view run.now).limit }
    requires ready { IsReady (on_side side right.old left.old) runner.now
        (on_side side (T.view saved_right.old) (T.view saved_left.old)) (T.view run.now) }
    requires room { meter.old.steps + steps_of runner.now < 2 ^ 64 }
    ensures looks { IfOk result (ComparesRecord side runner.now (T.view run.now) right.old left.old
        (T.view saved_right.old) (T.view saved_left.old) right.new left.new
        (T.view saved_right.new) (T.view saved_left.new)) }
    ensures numbers { IfOk result (λ found. IfSome found HasNumbers) }
    ensures right_limit { (T.view saved_right.new).limit ≡ (T.view saved_right.old).limit }
    ensures left_limit { (T.view saved_left.new).limit ≡ (T.view saved_left.old).limit }
    ensures memory { OnErr result (IsTrue T.GROWS) }
    ensures uncounted { IfOk result (λ found. meter.new ≡ meter.old) }
    ensures cut { OnErr result (TakesOver runner.now meter.old meter.new) }
{
    match side {
        Side::R => compare_on_side(right, runner, run, saved_right, meter),
        Side::L => compare_on_side(left, runner, run, saved_left, meter),
    }
}

/// Compares the record just made by the runner with the kept one. Returns the verdict if they agree;
/// otherwise it keeps the record, if it is its turn. If there is no memory to keep it, the meter adds the
/// run. The records and the runner are locals of a loop: they stay in registers, since the call that isn't
/// inlined gets copies.
#[inline(always)]
fn compare_on_side<T: Tape>(
    records: &mut Records,
    runner: &Runner,
    run: &T,
    saved: &mut T,
    meter: &mut Meter,
) -> Result<Option<Verdict>, Memory>
    requires limit { (T.view saved.old).limit ≡ (T.view run.now).limit }
    requires ready { IsReady records.old runner.now (T.view saved.old) (T.view run.now) }
    requires room { meter.old.steps + steps_of runner.now < 2 ^ 64 }
    ensures { ComparesOnSide T.GROWS records.old runner.now (T.view run.now) (T.view saved.old) records.new
        (T.view saved.new) meter.old meter.new result }
{
    let mut looked = *records;
    let found = compare_and_keep(&mut looked, *runner, run, saved, meter)?;
    records.copy_kept(&looked);
    Ok(found)
}

/// The body of `compare_on_side`, not inlined. It keeps a record with at least twice the number of the kept
/// one.
#[cold]
#[inline(never)]
fn compare_and_keep<T: Tape>(
    records: &mut Records,
    runner: Runner,
    run: &T,
    saved: &mut T,
    meter: &mut Meter,
) -> Result<Option<Verdict>, Memory>
    requires limit { (T.view saved.old).limit ≡ (T.view run.now).limit }
    requires ready { IsReady records.old runner (T.view saved.old) (T.view run.now) }
    requires room { meter.old.steps + steps_of runner < 2 ^ 64 }
    ensures { ComparesOnSide T.GROWS records.old runner (T.view run.now) (T.view saved.old) records.new
        (T.view saved.new) meter.old meter.new result }
{
    if records.agrees(&runner, run, saved) {
        return Ok(Some(Verdict::Translated {
            side: records.side,
            first: records.kept.steps(),
            second: runner.steps(),
            extent: Some(records.extent(&runner)),
        }));
    }
    if runner.position().unsigned_abs() < 2 * records.kept.position().unsigned_abs() {
        return Ok(None);
    }
    let Ok(()) = saved.copy_from(run) else {
        count_run(meter, runner);
        return Err(Memory);
    };
    records.keep_record(&runner);
    Ok(None)
}
