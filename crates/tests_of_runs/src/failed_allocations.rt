//! Engines over tapes without memory: the output so far, and all lines on the same tapes once there is
//! memory.
ghost use Rattle.std.specs.Prelude.{◌≡◌, ◌≤◌};
ghost use Rattle.bb_tree.specs.Path.{depth_of};
ghost use Rattle.bb_decide.specs.Bench.{BenchHasCells};

use crate::support::checking::checked;
use crate::support::counting_tape::{CountingTape, NEVER, counting_tape};
use crate::support::engine::Engine;
use crate::support::rows::{PAIRS, TREES};
use crate::support::streams::Sink;
use crate::support::tracing::{traced, traced_on_both};
use bb_cert::{Pair, Path};
use bb_decide::{Bench, Plan};
use bb_lines::fault::Fault;
use bb_lines::watched::Watched;
use bb_machine::Limits;
use bb_run::Summary;
use bb_tape::{MapTape, Tape};
use linked_list_allocator::LocalHeap;
use std::process::Abort;
use std::test::Fail;

/// How many bytes the heap of the tapes has.
const HEAP: usize = 1 << 13;

/// These are the first lines of an output, and not all.
fn assert_first_lines(rt: &impl Abort, written: &[u8], output: &[u8]) {
    assert!(rt; output.starts_with(written));
    assert!(rt; written.len() < output.len());
    if !written.is_empty() {
        assert!(rt; written.ends_with(b"\n"));
    }
}

/// Whether a run wanted memory: it then wrote the first lines, not all, and else all.
fn wanted_memory(
    rt: &(impl Abort + AllocGlobal),
    end: &Result<Summary, Fault>,
    written: &[u8],
    output: &[u8],
) -> bool {
    if *end == Err(Fault::Memory) {
        assert_first_lines(rt, written, output);
        return true;
    }
    assert!(rt; end.is_ok());
    assert_eq!(rt; written, output);
    false
}

/// A list of three machines, and what is decided of it by each plan.
struct List {
    machines: &'static [u8],
    by_pairs: &'static [u8],
    by_trees: &'static [u8],
}

static OF_TWO_SYMBOLS: List = List {
    machines: b"1RB1LB_1LA1RZ
1RB0RA_1LA---
0RB---_0LA---
",
    by_pairs: b"1RB1LB_1LA1RZ halt 6 4
1RB0RA_1LA--- translated R 4 8 2 1
0RB---_0LA--- cycler 2 4
",
    by_trees: b"1RB1LB_1LA1RZ halt 6 4
1RB0RA_1LA--- undecided cells
0RB---_0LA--- backward 2 4
",
};

/// The same machines with a symbol that none of them reads: deciding in a single pass doesn't keep them in
/// registers.
static OF_THREE_SYMBOLS: List = List {
    machines: b"1RB1LB---_1LA1RZ---
1RB0RA---_1LA------
0RB------_0LA------
",
    by_pairs: b"1RB1LB---_1LA1RZ--- halt 6 4
1RB0RA---_1LA------ translated R 4 8 2 1
0RB------_0LA------ cycler 2 4
",
    by_trees: b"1RB1LB---_1LA1RZ--- halt 6 4
1RB0RA---_1LA------ undecided cells
0RB------_0LA------ backward 2 8
",
};

impl List {
    /// The output of a plan, that of pairs or that of trees.
    fn output(&self, plan: Plan) -> &'static [u8] {
        if plan.backward {
            self.by_trees
        } else {
            self.by_pairs
        }
    }
}

/// Decides the list, with a reader and a writer over arrays.
fn decided_over_arrays<T: Tape>(
    engine: Engine,
    bench: &mut Bench<T>,
    limits: &Limits,
    plan: Plan,
    list: &List,
) -> (Result<Summary, Fault>, Sink)
    requires tapes { BenchHasCells T.view limits.now.cells bench.old }
    requires path { depth_of bench.old.path ≡ limits.now.depth }
    ensures tapes { BenchHasCells T.view limits.now.cells bench.new }
    ensures path { depth_of bench.new.path ≡ limits.now.depth }
{
    let mut sink = Sink::of(128, 128);
    let mut reader = Watched::new(list.machines);
    let mut writer = Watched::new(&mut sink);
    let end = engine.decide(&mut reader, &mut writer, limits, plan, bench);
    (end, sink)
}

/// Decides a list with so many bytes left for the tapes, and, if that fails, again with all. Returns whether
/// it failed.
fn deciding_wants_more(
    rt: &(impl Abort + AllocGlobal),
    engine: Engine,
    heap: &LocalHeap,
    left: usize,
    plan: Plan,
    list: &List,
) -> Result<bool, Fail>
    requires { left ≤ HEAP }
{
    let limits = Limits::new(1000, 64, 10, 100).expect(rt, "limits");
    let run = MapTape::new_in(heap, limits.cells());
    let right = MapTape::new_in(heap, limits.cells());
    let left_tape = MapTape::new_in(heap, limits.cells());
    let mut bench = Bench::new(rt.alloc(), run, right, left_tape, &limits).expect(rt, "a bench");
    let rest: Vec<u8, &LocalHeap> = Vec::with_capacity(heap, HEAP - left)?;
    let (end, sink) = decided_over_arrays(engine, &mut bench, &limits, plan, list);
    drop(rest);
    let output = list.output(plan);
    let wanted = wanted_memory(rt, &end, sink.bytes.as_slice(), output);
    if wanted {
        let (end, sink) = decided_over_arrays(engine, &mut bench, &limits, plan, list);
        assert!(rt; end.is_ok() && sink.bytes.as_slice() == output, "again");
    }
    Ok(wanted)
}

/// Decides a list with more and more bytes left for the tapes, until they are enough.
fn deciding_on_a_heap(
    rt: &(impl Abort + AllocGlobal),
    engine: Engine,
    plan: Plan,
    list: &List,
) -> Result<(), Fail> {
    let heap = LocalHeap::new(rt.alloc(), HEAP)?;
    for left in 0..HEAP {
        if !deciding_wants_more(rt, engine, &heap, left, plan, list)? {
            assert!(rt; left > 0);
            return Ok(());
        }
    }
    panic!(rt; "never enough");
}

#[test]
fn deciding_on_heaps_that_are_too_small(rt: HostRuntime) -> Result<(), Fail> {
    for plan in [PAIRS, TREES] {
        deciding_on_a_heap(&rt, Engine::InTurn, plan, &OF_TWO_SYMBOLS)?;
        for engine in Engine::BOTH {
            deciding_on_a_heap(&rt, engine, plan, &OF_THREE_SYMBOLS)?;
        }
    }
    Ok(())
}

/// More calls that may allocate than in any run below.
const MOST: u64 = 10_000;

/// A bench of maps that refuse a call, each after so many.
pub(crate) fn refusing_bench(
    rt: &(impl Abort + AllocGlobal),
    limits: &Limits,
    before: [u64; 3],
) -> Bench<CountingTape<MapTape>>
    ensures tapes { BenchHasCells ⟦<CountingTape<MapTape> as Tape>⟧.view limits.now.cells result }
    ensures path { depth_of result.path ≡ limits.now.depth }
{
    let run = counting_tape(MapTape::new(rt.alloc(), limits.cells()), before[0]);
    let right = counting_tape(MapTape::new(rt.alloc(), limits.cells()), before[1]);
    let left = counting_tape(MapTape::new(rt.alloc(), limits.cells()), before[2]);
    Bench::new(rt.alloc(), run, right, left, limits).expect(rt, "a bench")
}

/// Whether one of the tapes is still going to refuse a call.
fn will_refuse(bench: &Bench<CountingTape<MapTape>>) -> bool {
    bench.run.will_refuse() || bench.right.will_refuse() || bench.left.will_refuse()
}

/// Decides a list with a call of a tape refused, and again; whether there was such a call.
fn deciding_is_refused(
    rt: &(impl Abort + AllocGlobal),
    engine: Engine,
    plan: Plan,
    list: &List,
    before: [u64; 3],
) -> bool {
    let limits = Limits::new(1000, 64, 10, 100).expect(rt, "limits");
    let mut bench = refusing_bench(rt, &limits, before);
    let (end, sink) = decided_over_arrays(engine, &mut bench, &limits, plan, list);
    let output = list.output(plan);
    let refused = wanted_memory(rt, &end, sink.bytes.as_slice(), output);
    assert_eq!(rt; refused, !will_refuse(&bench));
    if refused {
        let (end, sink) = decided_over_arrays(engine, &mut bench, &limits, plan, list);
        assert!(rt;
            !wanted_memory(rt, &end, sink.bytes.as_slice(), output),
            "again"
        );
    }
    refused
}

/// The number of refusals that stop deciding, each in a run of its own, all from one of the tapes.
fn refusals_of_deciding(
    rt: &(impl Abort + AllocGlobal),
    engine: Engine,
    plan: Plan,
    list: &List,
    tape: usize,
) -> usize {
    let before = |k| match tape {
        0 => [k, NEVER, NEVER],
        1 => [NEVER, k, NEVER],
        _ => [NEVER, NEVER, k],
    };
    (0..MOST)
        .position(|k| !deciding_is_refused(rt, engine, plan, list, before(k)))
        .expect(rt, "a run that isn't refused")
}

/// The first machine writes a 1 into 4 cells. The second writes a 1 in two steps of four: 64 times in a whole
/// run of 127 steps, and 4 times up to its records. Its whole run is compared with configurations 1, 2, 4 ..
/// 64, its records with the first and the second. The third's run is compared with configurations 1 and 2;
/// its tree has 4 nodes, or 8 with three symbols, each with a cell unknown before.
#[test]
fn deciding_ends_at_each_refusal(rt: HostRuntime) {
    let list = &OF_TWO_SYMBOLS;
    assert_refusals(&rt, Engine::InTurn, PAIRS, list, 4 + 64 + 64 + 4, 7 + 2 + 2);
    assert_refusals(&rt, Engine::InTurn, TREES, list, 4 + 64 + 4, 0);
}

#[test]
fn deciding_three_symbols_ends_at_each_refusal(rt: HostRuntime) {
    let list = &OF_THREE_SYMBOLS;
    assert_refusals(&rt, Engine::InTurn, PAIRS, list, 4 + 64 + 64 + 4, 7 + 2 + 2);
    assert_refusals(&rt, Engine::InTurn, TREES, list, 4 + 64 + 8, 0);
}

/// In a single pass the second machine stops at its records; the third, without a 1, runs to its cycle and once
/// more.
#[test]
fn deciding_in_single_pass_ends_at_each_refusal(rt: HostRuntime) {
    let list = &OF_THREE_SYMBOLS;
    assert_refusals(&rt, Engine::InSinglePass, PAIRS, list, 4 + 4, 2 + 2);
    assert_refusals(&rt, Engine::InSinglePass, TREES, list, 4 + 64 + 8, 0);
}

/// In registers no pair needs a tape. The tree does, and so do the second machine's steps past 32 cells.
#[test]
fn deciding_in_registers_ends_at_each_refusal(rt: HostRuntime) {
    let list = &OF_TWO_SYMBOLS;
    assert_refusals(&rt, Engine::InSinglePass, PAIRS, list, 0, 0);
    assert_refusals(&rt, Engine::InSinglePass, TREES, list, 16 + 4, 0);
}

/// Deciding is stopped by a refusal at least so many times, on the tape of the run and on the saved ones.
fn assert_refusals(
    rt: &(impl Abort + AllocGlobal),
    engine: Engine,
    plan: Plan,
    list: &List,
    changed: usize,
    copied: usize,
) {
    let while_running = refusals_of_deciding(rt, engine, plan, list, 0);
    let at_right = refusals_of_deciding(rt, engine, plan, list, 1);
    let at_left = refusals_of_deciding(rt, engine, plan, list, 2);
    assert!(rt; changed <= while_running, "{while_running}");
    assert!(rt;
        copied <= at_right.saturating_add(at_left),
        "{at_right} {at_left}"
    );
}

const CLAIMS: &[u8] = b"1RB1LB_1LA1RZ halt 6 4
1RB0RA_1LA--- translated R 4 8 2 1
0RB---_0LA--- cycler 2 4
0RB---_0LA--- backward 2 4
";

/// The same for checking a list.
fn checking_is_refused(rt: &(impl Abort + AllocGlobal), before: [u64; 2]) -> bool {
    let output = b"ok\nok\nok\nok\n".as_slice();
    let limits = Limits::new(1000, 64, 10, 100).expect(rt, "limits");
    let mut pair = Pair {
        run: counting_tape(MapTape::new(rt.alloc(), limits.cells()), before[0]),
        saved: counting_tape(MapTape::new(rt.alloc(), limits.cells()), before[1]),
    };
    let mut path = Path::new(rt.alloc(), limits.depth()).expect(rt, "a path");
    let (end, written) = checked(rt, &mut pair, &mut path, &limits, CLAIMS);
    let refused = wanted_memory(rt, &end, written.as_slice(), output);
    assert_eq!(rt;
        refused,
        !(pair.run.will_refuse() || pair.saved.will_refuse())
    );
    if refused {
        let (end, written) = checked(rt, &mut pair, &mut path, &limits, CLAIMS);
        assert!(rt;
            !wanted_memory(rt, &end, written.as_slice(), output),
            "again"
        );
    }
    refused
}

/// The first two claims write a 1 4 times each, the tree has 4 nodes, and of each pair the first
/// configuration is kept.
#[test]
fn checking_ends_at_each_refusal(rt: HostRuntime) {
    let while_running = (0..MOST).position(|k| !checking_is_refused(&rt, [k, NEVER]));
    let at_saving = (0..MOST).position(|k| !checking_is_refused(&rt, [NEVER, k]));
    assert!(rt; while_running.is_some_and(|refused| 4 + 4 + 4 <= refused));
    assert!(rt; at_saving.is_some_and(|refused| 2 <= refused));
}

#[test]
fn tracing_ends_at_each_refusal(rt: HostRuntime) {
    let line = b"1RA1RA".as_slice();
    let limits = Limits::new(30, 64, 0, 0).expect(&rt, "limits");
    let (_, output) = traced_on_both(&rt, line, &limits);
    for k in 0..30 {
        let mut tape = counting_tape(MapTape::new(rt.alloc(), limits.cells()), k);
        let (end, written) = traced(&rt, &mut tape, &limits, line);
        assert!(rt;
            wanted_memory(&rt, &end, written.as_slice(), output.as_slice()),
            "{k}"
        );
        let (end, written) = traced(&rt, &mut tape, &limits, line);
        assert!(rt;
            !wanted_memory(&rt, &end, written.as_slice(), output.as_slice()),
            "again"
        );
    }
}
