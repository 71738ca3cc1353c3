//! Lists decided from bytes to bytes.
ghost use Rattle.std.specs.Prelude.{◌≡◌};
ghost use Rattle.bb_tree.specs.Path.{depth_of};
ghost use Rattle.bb_decide.specs.Bench.{BenchHasCells};

use crate::support::checking::checked_on_both;
use crate::support::engine::Engine;
use crate::support::rows::{Four, limits_of};
use bb_decide::{Bench, Plan};
use bb_lines::fault::Fault;
use bb_lines::watched::Watched;
use bb_machine::Limits;
use bb_run::{Summary, ring_bench};
use bb_tape::{MapTape, Tape};
use std::process::Abort;
use std::test::Fail;

/// Limits, and verdict lines of machines.
pub(crate) type Decided = (Four, &'static [&'static str]);

/// Decides a list, and returns the output too.
pub(crate) fn decided<T: Tape>(
    rt: &(impl Abort + AllocGlobal),
    engine: Engine,
    bench: &mut Bench<T>,
    limits: &Limits,
    plan: Plan,
    input: &[u8],
) -> (Result<Summary, Fault>, Vec<u8>)
    requires tapes { BenchHasCells T.view limits.now.cells bench.old }
    requires path { depth_of bench.old.path ≡ limits.now.depth }
    ensures tapes { BenchHasCells T.view limits.now.cells bench.new }
    ensures path { depth_of bench.new.path ≡ limits.now.depth }
{
    let mut reader = Watched::new(input);
    let mut writer = Watched::new(Vec::new(rt.alloc()));
    let end = engine.decide(&mut reader, &mut writer, limits, plan, bench);
    (end, writer.into_inner())
}

/// Decides a list on maps, with its output.
fn decided_on_maps(
    rt: &(impl Abort + AllocGlobal),
    limits: &Limits,
    plan: Plan,
    input: &[u8],
) -> (Result<Summary, Fault>, Vec<u8>) {
    let run = MapTape::new(rt.alloc(), limits.cells());
    let right = MapTape::new(rt.alloc(), limits.cells());
    let left = MapTape::new(rt.alloc(), limits.cells());
    let mut bench = Bench::new(rt.alloc(), run, right, left, limits).expect(rt, "a bench");
    decided(rt, Engine::InTurn, &mut bench, limits, plan, input)
}

/// Decides a list on rings, with its output.
fn decided_on_rings(
    rt: &(impl Abort + AllocGlobal),
    engine: Engine,
    limits: &Limits,
    plan: Plan,
    input: &[u8],
) -> (Result<Summary, Fault>, Vec<u8>) {
    let mut bench = ring_bench(rt.alloc(), limits).expect(rt, "a bench");
    decided(rt, engine, &mut bench, limits, plan, input)
}

/// Decides a list on maps, on rings and in a single pass, with the same output. Returns it with the summary, which
/// the two tapes share.
pub(crate) fn decided_each_way(
    rt: &(impl Abort + AllocGlobal),
    limits: &Limits,
    plan: Plan,
    input: &[u8],
) -> (Summary, Vec<u8>) {
    let (end, output) = decided_on_maps(rt, limits, plan, input);
    let (ring_end, ring_output) = decided_on_rings(rt, Engine::InTurn, limits, plan, input);
    assert_eq!(rt; ring_output.as_slice(), output.as_slice());
    assert_eq!(rt; ring_end, end);
    let (one_end, one_output) = decided_on_rings(rt, Engine::InSinglePass, limits, plan, input);
    assert_eq!(rt; one_output.as_slice(), output.as_slice());
    let summary = end.expect(rt, "no fault");
    assert_eq!(rt; one_end.expect(rt, "no fault").clean, summary.clean);
    (summary, output)
}

/// Appends a line to a list.
fn add_line(list: &mut Vec<u8>, line: &str) -> Result<(), Fail> {
    list.extend_from_slice(line.as_bytes())?;
    list.push(b'\n')?;
    Ok(())
}

/// Decides the machines of verdict lines, as a list, each to its line. The checker confirms each decided line
/// under the same limits, on both tapes.
fn assert_list_decided(
    rt: &(impl Abort + AllocGlobal),
    limits: &Limits,
    plan: Plan,
    lines: &[&str],
) -> Result<(), Fail> {
    let mut machines: Vec<u8> = Vec::new(rt.alloc());
    let mut verdicts: Vec<u8> = Vec::new(rt.alloc());
    let mut answers: Vec<u8> = Vec::new(rt.alloc());
    for line in lines {
        let machine = line.split(' ').next().ok_or("a machine")?;
        add_line(&mut machines, machine)?;
        add_line(&mut verdicts, line)?;
        let answer = if line.contains(" undecided ") {
            "open"
        } else {
            "ok"
        };
        add_line(&mut answers, answer)?;
    }
    let (summary, output) = decided_each_way(rt, limits, plan, machines.as_slice());
    assert_eq!(rt; output.as_slice(), verdicts.as_slice());
    assert!(rt; summary.clean);
    let (summary, output) = checked_on_both(rt, limits, verdicts.as_slice());
    assert_eq!(rt; output.as_slice(), answers.as_slice());
    assert!(rt; summary.clean);
    Ok(())
}

/// The same for each of these lists.
pub(crate) fn assert_decided(
    rt: &(impl Abort + AllocGlobal),
    plan: Plan,
    lists: &[Decided],
) -> Result<(), Fail> {
    for (four, lines) in lists {
        assert_list_decided(rt, &limits_of(rt, four), plan, lines)?;
    }
    Ok(())
}
