//! Verdicts over both tapes, with answers worked out by hand.
ghost use Rattle.std.specs.Prelude.{◌≡◌, IfOk};
ghost use Rattle.bb_tree.specs.Path.{depth_of};
ghost use Rattle.bb_decide.specs.Bench.{BenchHasCells};

use bb_cert::{Line, Verdict, read_line};
use bb_decide::{Bench, Plan, backward, cyclers, decide, translated};
use bb_machine::{Limits, Machine};
use bb_sim::Meter;
use bb_tape::{MapTape, Memory, RingTape, Tape};
use std::alloc::Global;
use std::process::Abort;
use std::test::Fail;

const CELLS: u64 = 64;

/// The line of a machine and its verdict, the limit of steps, and its cost in steps.
type Row = (&'static [u8], u64, u64);

/// Rows for cyclers alone.
static ROWS: [Row; 12] = [
    (b"1RB1LB_1LA1RZ halt 6 4", 1000, 6),
    (b"------ halt 0 0", 0, 0),
    (b"0RB---_0LA--- cycler 2 4", 1000, 1004),
    (b"0RB---_0LA--- cycler 2 4", 4, 8),
    (b"0RB---_0LA--- undecided steps", 3, 6),
    (b"0RB---_0LA--- undecided steps", 0, 0),
    (b"1RB0RB_1LA1LA cycler 4 8", 1000, 1008),
    (b"1RB0RB_1LA1LA cycler 4 8", 8, 16),
    (b"1RB0RB_1LA1LA undecided steps", 7, 14),
    (b"1RB0RB_1LA1LA undecided steps", 2, 4),
    (b"1RB0RB_1LA1LA undecided steps", 1, 2),
    (b"0RA0RA undecided cells", 1000, 126),
];

/// Rows for both searches, each machine's mirror image among them. Between their records the two machines
/// with 300 steps visit cells beyond the first one's window.
static TRANSLATED_ROWS: [Row; 20] = [
    (b"1RA1RA translated R 1 2 1 1", 1000, 128),
    (b"0LA0LA translated L 1 2 1 1", 1000, 128),
    (b"1RB---_1RC---_1RA--- translated R 4 7 3 1", 1000, 133),
    (b"1RB---_1RC---_1RA--- translated R 4 7 3 1", 7, 21),
    (b"1RB---_1RC---_1RA--- undecided steps", 6, 18),
    (b"0LB---_0RC1RC_1RA--- translated R 3 6 1 2", 1000, 382),
    (b"0RB---_0LC1LC_1LA--- translated L 3 6 1 2", 1000, 382),
    (b"1RB1RZ_1LB0RC_1LC1LA undecided steps", 20, 60),
    (b"1RB0RA_1LA--- translated R 4 8 2 1", 1000, 262),
    (b"1LB0LA_1RA--- translated L 4 8 2 1", 1000, 262),
    (b"1RB0RA_1LA--- translated R 4 8 2 1", 8, 24),
    (b"1RB0RA_1LA--- undecided steps", 7, 21),
    (b"1LB0LA_0RB1RA translated L 1 8 1 3", 300, 608),
    (b"1RB0RA_0LB1LA translated R 1 8 1 3", 300, 608),
    (b"0RB---_0LA--- cycler 2 4", 1000, 1004),
    (b"1LA1LA translated L 1 2 1 1", 1000, 128),
    (b"0RA0RA translated R 1 2 1 1", 1000, 128),
    (b"1LB---_1LC---_1LA--- translated L 4 7 3 1", 1000, 133),
    (b"1LB1LZ_1RB0LC_1RC1RA undecided steps", 20, 60),
    (b"0LB---_0RA--- cycler 2 4", 1000, 1004),
];

/// The line of a machine and its verdict by all deciders; the limits of steps, cells, levels and nodes; its
/// cost in steps, and the most nodes entered. The trees are drawn by hand.
type TreeRow = (&'static [u8], [u64; 4], u64, u64);

static TREE_ROWS: [TreeRow; 9] = [
    (b"0RB---_0LA--- backward 2 4", [3, 64, 10, 100], 9, 4),
    (b"0LB---_0RA--- backward 2 4", [3, 64, 10, 100], 9, 4),
    (b"0RB---_0LA--- backward 2 4", [3, 3, 2, 4], 9, 4),
    (b"0RB---_0LA--- undecided steps", [3, 64, 1, 100], 9, 2),
    (b"0RB---_0LA--- undecided steps", [3, 64, 2, 3], 9, 3),
    (b"1RA1RA backward 0 0", [1, 64, 0, 0], 3, 0),
    (b"1RB0RB_1LA1LA backward 0 0", [7, 64, 10, 0], 21, 0),
    (b"1RB---_1LA--- undecided steps", [1, 64, 10, 100], 3, 6),
    (b"1RZ--- undecided steps", [0, 64, 10, 100], 0, 1),
];

/// The line of a machine with the result of one of both searches of its first hundred steps, the steps
/// counted by each, and the cells counted by the search for a cycle. The other search finds nothing.
type Searched = (&'static [u8], [u64; 2], u64);

static SEARCHES: [Searched; 3] = [
    (b"1RB0RB_1LA1LA cycler 4 8", [8, 100], 2),
    (b"0LA0LA translated L 1 2 1 1", [63, 2], 64),
    (b"1RB0RA_1LA--- translated R 4 8 2 1", [100, 8], 51),
];

/// The machine and the verdict of a line.
fn read_claim(rt: &impl Abort, line: &[u8]) -> (Machine, Verdict) {
    match read_line(line) {
        Some(Line::Claim(machine, verdict)) => (machine, verdict),
        _ => panic!(rt; "{line:?} is a claim"),
    }
}

/// Decides a machine, and compares verdict, steps and nodes with the expected ones.
fn is_decided<T: Tape>(
    rt: &impl Abort,
    bench: &mut Bench<T>,
    limits: &Limits,
    plan: Plan,
    row: (&[u8], u64, u64),
) -> Result<(), Fail>
    requires tapes { BenchHasCells T.view limits.now.cells bench.old }
    requires path { depth_of bench.old.path ≡ limits.now.depth }
{
    let (line, steps, most_nodes) = row;
    let (machine, verdict) = read_claim(rt, line);
    let mut meter = Meter::new();
    let decided = decide(&machine, limits, plan, bench, &mut meter)?;
    assert_eq!(rt; decided, verdict, "{line:?} in {limits:?}");
    assert_eq!(rt; meter.steps, steps, "{line:?} in {limits:?}");
    assert!(rt; meter.nodes <= most_nodes, "{line:?} in {limits:?}");
    if let Verdict::Backward { levels, nodes } = verdict {
        assert_eq!(rt;
            (meter.nodes, meter.most_levels),
            (nodes, levels),
            "{line:?}"
        );
    }
    Ok(())
}

/// The same on maps and on rings.
fn is_decided_on_both(
    rt: &(impl Abort + AllocGlobal),
    limits: &Limits,
    plan: Plan,
    row: (&[u8], u64, u64),
) -> Result<(), Fail> {
    is_decided(
        rt,
        &mut bench_on_maps(rt.alloc(), limits)?,
        limits,
        plan,
        row,
    )?;
    let run = RingTape::new(rt.alloc(), limits.cells())?;
    let right = RingTape::new(rt.alloc(), limits.cells())?;
    let left = RingTape::new(rt.alloc(), limits.cells())?;
    let mut bench = Bench::new(rt.alloc(), run, right, left, limits)?;
    is_decided(rt, &mut bench, limits, plan, row)
}

#[test]
fn machines_are_decided(rt: HostRuntime) -> Result<(), Fail> {
    for (rows, translated) in [(ROWS.as_slice(), false), (TRANSLATED_ROWS.as_slice(), true)] {
        let plan = Plan {
            cyclers: true,
            translated,
            backward: false,
        };
        for (line, most_steps, steps) in rows {
            let limits = Limits::new(*most_steps, CELLS, 0, 0)?;
            is_decided_on_both(&rt, &limits, plan, (line, *steps, 0))?;
        }
    }
    Ok(())
}

#[test]
fn trees_are_found(rt: HostRuntime) -> Result<(), Fail> {
    let plan = Plan {
        cyclers: true,
        translated: true,
        backward: true,
    };
    for (line, four, steps, most_nodes) in &TREE_ROWS {
        let limits = Limits::new(four[0], four[1], four[2], four[3])?;
        is_decided_on_both(&rt, &limits, plan, (line, *steps, *most_nodes))?;
    }
    Ok(())
}

/// A bench of maps.
fn bench_on_maps(alloc: Global, limits: &Limits) -> Result<Bench<MapTape>, Memory>
    ensures tapes { IfOk result (BenchHasCells ⟦<MapTape as Tape>⟧.view limits.now.cells) }
    ensures path { IfOk result (λ bench. depth_of bench.path ≡ limits.now.depth) }
{
    let run = MapTape::new(alloc, limits.cells());
    let right = MapTape::new(alloc, limits.cells());
    let left = MapTape::new(alloc, limits.cells());
    Bench::new(alloc, run, right, left, limits)
}

/// Backward reasoning alone finds the trees. Counts of others stay, and the nodes start at 0.
#[test]
fn backward_reasoning_finds_trees(rt: HostRuntime) -> Result<(), Fail> {
    for (line, four, _, most_nodes) in &TREE_ROWS {
        let limits = Limits::new(four[0], four[1], four[2], four[3])?;
        let mut bench = bench_on_maps(rt.alloc(), &limits)?;
        let (machine, verdict) = read_claim(&rt, line);
        let mut meter = Meter {
            steps: 7,
            most_cells: 5,
            nodes: 3,
            most_levels: 9,
        };
        let found = backward(&machine, &limits, &mut bench, &mut meter)?;
        let is_tree = matches!(verdict, Verdict::Backward { .. });
        assert_eq!(rt; found, is_tree.then_some(verdict), "{line:?}");
        assert_eq!(rt; (meter.steps, meter.most_cells), (7, 5));
        assert!(rt; meter.nodes <= *most_nodes, "{line:?}");
    }
    Ok(())
}

/// Each search by its own call.
#[test]
fn each_search_finds_its_pairs(rt: HostRuntime) -> Result<(), Fail> {
    let limits = Limits::new(100, CELLS, 0, 0)?;
    for (line, steps, most_cells) in &SEARCHES {
        let mut bench = bench_on_maps(rt.alloc(), &limits)?;
        let (machine, verdict) = read_claim(&rt, line);
        let is_cycle = matches!(verdict, Verdict::Cycler { .. });
        let mut meter = Meter::new();
        let cycle = cyclers(&machine, &limits, &mut bench, &mut meter)?;
        assert_eq!(rt; cycle, is_cycle.then_some(verdict), "{line:?}");
        assert_eq!(rt;
            (meter.steps, meter.most_cells),
            (steps[0], *most_cells),
            "{line:?}"
        );
        let mut meter = Meter::new();
        let records = translated(&machine, &limits, &mut bench, &mut meter)?;
        assert_eq!(rt; records, (!is_cycle).then_some(verdict), "{line:?}");
        assert_eq!(rt; meter.steps, steps[1], "{line:?}");
    }
    Ok(())
}
