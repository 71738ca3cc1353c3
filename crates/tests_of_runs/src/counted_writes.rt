//! How many writes the engines make, and a walk of the backward tree.
ghost use Rattle.std.specs.Prelude.{◌≡◌};

use crate::support::checking::checked;
use crate::support::counting_tape::{NEVER, counting_tape};
use crate::support::deciding::decided;
use crate::support::engine::Engine;
use crate::support::rows::{ALL, DEFAULTS, Four, limits_of};
use bb_cert::{Pair, Path, walk};
use bb_decide::Bench;
use bb_machine::{Limits, Machine};
use bb_sim::Meter;
use bb_tape::{MapTape, RingTape, Tape};
use std::process::Abort;

/// The limits, a machine, and the most writes of deciding it, on all tapes: one a step, two a node.
static DECIDED: [(Four, &[u8], u64); 4] = [
    (DEFAULTS, b"0RB---_0LA---", 1_000_004),
    ([3, 65_536, 300, 1_000_000], b"0RB---_0LA---", 17),
    (DEFAULTS, b"1RA1RA", 131_072),
    ([1, 65_536, 300, 1_000_000], b"1RA1RA", 3),
];

/// The same for machines of three symbols, none of whose runs are in registers.
static OF_THREE_SYMBOLS: [(Four, &[u8], u64); 4] = [
    (DEFAULTS, b"0RB------_0LA------", 1_000_004),
    ([3, 65_536, 300, 1_000_000], b"0RB------_0LA------", 25),
    (DEFAULTS, b"1RA1RA1RA", 131_072),
    ([1, 65_536, 300, 1_000_000], b"1RA1RA1RA", 3),
];

/// Decides a line on such tapes, and answers how often it wrote.
fn writes_of_deciding<T: Tape>(
    rt: &(impl Abort + AllocGlobal),
    engine: Engine,
    tapes: (T, T, T),
    limits: &Limits,
    line: &[u8],
) -> u64
    requires run { (T.view tapes.0).limit ≡ limits.now.cells }
    requires right { (T.view tapes.1).limit ≡ limits.now.cells }
    requires left { (T.view tapes.2).limit ≡ limits.now.cells }
{
    let run = counting_tape(tapes.0, NEVER);
    let right = counting_tape(tapes.1, NEVER);
    let left = counting_tape(tapes.2, NEVER);
    let mut bench = Bench::new(rt.alloc(), run, right, left, limits).expect(rt, "a bench");
    let (end, _) = decided(rt, engine, &mut bench, limits, ALL, line);
    assert!(rt; end.is_ok());
    let saved = bench.right.writes.saturating_add(bench.left.writes);
    bench.run.writes.saturating_add(saved)
}

/// How often deciding a line writes, on rings and on maps.
fn writes_on_both(
    rt: &(impl Abort + AllocGlobal),
    engine: Engine,
    four: &Four,
    line: &[u8],
) -> (u64, u64) {
    let limits = limits_of(rt, four);
    let rings = (
        RingTape::new(rt.alloc(), limits.cells()).expect(rt, "memory"),
        RingTape::new(rt.alloc(), limits.cells()).expect(rt, "memory"),
        RingTape::new(rt.alloc(), limits.cells()).expect(rt, "memory"),
    );
    let on_rings = writes_of_deciding(rt, engine, rings, &limits, line);
    let maps = (
        MapTape::new(rt.alloc(), limits.cells()),
        MapTape::new(rt.alloc(), limits.cells()),
        MapTape::new(rt.alloc(), limits.cells()),
    );
    (
        on_rings,
        writes_of_deciding(rt, engine, maps, &limits, line),
    )
}

#[test]
fn deciding_writes_once_a_step_and_twice_a_node(rt: HostRuntime) {
    for (four, line, most) in DECIDED.iter().chain(&OF_THREE_SYMBOLS) {
        let (on_rings, on_maps) = writes_on_both(&rt, Engine::InTurn, four, line);
        assert!(rt; (1..=*most).contains(&on_rings), "{on_rings} on rings");
        assert_eq!(rt; on_maps, on_rings);
    }
}

/// In a single pass the first cycle is suspected and found, twice 4 steps, and the first agreeing records are found
/// at step 2; with fewer steps the run and the tree are made.
static IN_SINGLE_PASS: [u64; 4] = [8, 3 + 16, 2, 1];

#[test]
fn deciding_in_single_pass_writes_once_a_step_and_twice_a_node(rt: HostRuntime) {
    for ((four, line, _), most) in OF_THREE_SYMBOLS.iter().zip(&IN_SINGLE_PASS) {
        let (on_rings, on_maps) = writes_on_both(&rt, Engine::InSinglePass, four, line);
        assert!(rt; (1..=*most).contains(&on_rings), "{on_rings} on rings");
        assert_eq!(rt; on_maps, on_rings);
    }
}

/// Of machines of two symbols the same runs stay in registers, and only the tree is written.
static IN_REGISTERS: [u64; 4] = [0, 8, 0, 0];

#[test]
fn deciding_in_registers_writes_only_the_tree(rt: HostRuntime) {
    for ((four, line, _), most) in DECIDED.iter().zip(&IN_REGISTERS) {
        let (on_rings, on_maps) = writes_on_both(&rt, Engine::InSinglePass, four, line);
        assert!(rt; on_rings <= *most, "{on_rings} on rings");
        assert!(rt; on_maps <= *most, "{on_maps} on maps");
    }
}

/// A machine whose run soon leaves the registers, and goes on in blocks. It has neither a pair nor a tree.
const CHAMPION: &[u8] = b"1RB1LC_1RC1RB_1RD0LE_1LA1LD_1RZ0LA";

#[test]
fn a_block_changes_no_more_cells_than_its_steps(rt: HostRuntime) {
    for steps in [10_000, 100_000, 1_000_000] {
        let four = [steps, 65_536, 300, 1_000_000];
        let (on_rings, _) = writes_on_both(&rt, Engine::InSinglePass, &four, CHAMPION);
        assert!(rt; (1..=steps).contains(&on_rings), "{on_rings} of {steps}");
    }
}

/// A claim, its answer, the least and the most steps, the most nodes, and the most writes on both tapes.
static CHECKED: [(&[u8], &[u8], [u64; 2], u64, u64); 5] = [
    (b"1RB1LB_1LA1RZ halt 5 4", b"bad\n", [0, 5], 0, 5),
    (
        b"1RA1RA translated R 1 65535",
        b"ok\n",
        [65_535, 65_535],
        0,
        65_535,
    ),
    (b"1RA1RA cycler 1 1000001", b"over\n", [0, 0], 0, 0),
    (b"0RB---_0LA--- backward 2 3", b"bad\n", [0, 0], 3, 6),
    (b"1RB1LB---_1LA1RZ--- halt 5 4", b"bad\n", [0, 5], 0, 5),
];

/// Checks a line on such tapes, and returns the output, the counts, and the number of writes.
fn writes_of_checking<T: Tape>(
    rt: &(impl Abort + AllocGlobal),
    run: T,
    saved: T,
    limits: &Limits,
    line: &[u8],
) -> (Vec<u8>, Meter, u64)
    requires run { (T.view run).limit ≡ limits.now.cells }
    requires saved { (T.view saved).limit ≡ limits.now.cells }
{
    let mut pair = Pair {
        run: counting_tape(run, NEVER),
        saved: counting_tape(saved, NEVER),
    };
    let mut path = Path::new(rt.alloc(), limits.depth()).expect(rt, "a path");
    let (end, written) = checked(rt, &mut pair, &mut path, limits, line);
    let writes = pair.run.writes.saturating_add(pair.saved.writes);
    (written, end.expect(rt, "no fault").peak, writes)
}

#[test]
fn checking_goes_no_further_than_the_claim(rt: HostRuntime) {
    let limits = limits_of(&rt, &DEFAULTS);
    for (line, answer, steps, nodes, most) in &CHECKED {
        let run = RingTape::new(rt.alloc(), limits.cells()).expect(&rt, "memory");
        let saved = RingTape::new(rt.alloc(), limits.cells()).expect(&rt, "memory");
        let on_rings = writes_of_checking(&rt, run, saved, &limits, line);
        let run = MapTape::new(rt.alloc(), limits.cells());
        let saved = MapTape::new(rt.alloc(), limits.cells());
        let on_maps = writes_of_checking(&rt, run, saved, &limits, line);
        for (written, peak, writes) in [on_rings, on_maps] {
            assert_eq!(rt; written.as_slice(), *answer);
            assert!(rt; steps[0] <= peak.steps && peak.steps <= steps[1]);
            assert!(rt; peak.nodes <= *nodes);
            assert!(rt; writes <= *most, "{line:?}: {writes}");
        }
    }
}

/// Machines, and the bounds of levels and nodes of their walks: trees that end, and walks that give up at a
/// bound or at the start.
static WALKS: [(&[u8], u64, u64); 6] = [
    (b"0RB---_0LA---", 10, 100),
    (b"0RB---_0LA---", 2, 3),
    (b"0RB---_0LA---", 1, 4),
    (b"1RB---_1LA---", 10, 100),
    (b"1RB0RA_1LA---", 10, 100),
    (b"0RB---_0LA1RC_0RC0LB", 10, 100),
];

#[test]
fn a_node_costs_two_writes(rt: HostRuntime) {
    for (text, levels, nodes) in &WALKS {
        let ring = RingTape::new(rt.alloc(), 19).expect(&rt, "memory");
        let mut tape = counting_tape(ring, NEVER);
        let mut path = Path::new(rt.alloc(), 10).expect(&rt, "memory");
        let machine = Machine::read(text).expect(&rt, "a machine");
        let mut meter = Meter::new();
        assert!(rt; *levels <= 10 && *nodes <= 100 && tape.limit() == 19 && path.depth() == 10);
        let found = walk(&machine, *levels, *nodes, &mut tape, &mut path, &mut meter);
        assert!(rt; found.is_ok());
        assert!(rt; tape.writes <= 2 * meter.nodes, "{text:?}");
        assert!(rt; tape.writes >= meter.nodes, "{text:?}");
    }
}
