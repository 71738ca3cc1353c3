//! Trees worked out by hand or by a second program, and bounds at their ends.
ghost use Rattle.std.specs.Prelude.{◌≡◌, ◌≤◌, ◌*◌, ◌+◌, ◌<◌, ◌^◌};
ghost use Rattle.bb_tree.specs.Path.{depth_of};

use bb_cert::{Path, walk};
use bb_machine::Machine;
use bb_sim::Meter;
use bb_tape::{MapTape, RingTape, Tape};
use std::process::Abort;

/// A machine, the bounds of levels and nodes, and the result of the walk.
type Row = (&'static [u8], u64, u64, Option<(u64, u64)>);

const CELLS: u64 = 799;

static ROWS: [Row; 24] = [
    (b"0RB---_0LA---", 400, 1_000_000, Some((2, 4))),
    (b"0RB---_0LA---", 2, 4, Some((2, 4))),
    (b"0RB---_0LA---", 1, 4, None),
    (b"0RB---_0LA---", 2, 3, None),
    (b"0RB---_0LA---", 0, 4, None),
    (b"0RB---_0LA---", 2, 0, None),
    (b"1RB---_1LA---", 400, 1_000_000, None),
    (b"1RA1RA", 400, 1_000_000, Some((0, 0))),
    (b"1RA1RA", 0, 0, Some((0, 0))),
    (b"1RB0RA_1LA---", 400, 1_000_000, None),
    (b"1RB0RB_1LA1LA", 400, 1_000_000, Some((0, 0))),
    (b"1RZ---", 400, 1_000_000, None),
    (b"------", 400, 1_000_000, None),
    (b"0RB---_0LA---_1RB0RA", 400, 1_000_000, Some((3, 8))),
    (b"0RB---_0LA---_1RB0RA", 3, 8, Some((3, 8))),
    (b"0RB---_0LA---_1RB0RA", 2, 8, None),
    (b"0RB---_0LA---_1RB0RA", 3, 7, None),
    (b"1LB1RC_1RA---_0LA---", 4, 8, Some((4, 8))),
    (b"1LB1RC_1RA---_0LA---", 4, 7, None),
    (b"1LB1RC_1RA---_0LA---", 3, 8, None),
    (b"1LB1RC_1RA0RC_0LA---", 5, 9, Some((5, 9))),
    (b"1RB0RB_0LC---_1RA0LC", 6, 9, Some((6, 9))),
    (b"0RC0LB_---0RC_1RC0LA", 7, 10, Some((7, 10))),
    (b"0RB---_0LA1RC_0RC0LB", 8, 9, Some((8, 9))),
];

/// A machine, the bounds of levels and nodes, and the nodes and levels entered, if known.
static COUNTS: [(&[u8], u64, u64, u64, u64); 8] = [
    (b"0RB---_0LA---", 2, 4, 4, 2),
    (b"0RB---_0LA---", 1, 4, 1, 1),
    (b"0RB---_0LA---", 2, 3, 3, 2),
    (b"0RB---_0LA---", 0, 4, 0, 0),
    (b"0RB---_0LA---", 2, 0, 0, 0),
    (b"1RB---_1LA---", 400, 1_000_000, 6, 3),
    (b"1RA1RA", 0, 0, 0, 0),
    (b"1RZ---", 400, 1_000_000, 1, 1),
];

/// Walks, and returns the result and its counts. The tape must be blank then.
fn walked<T: Tape>(
    rt: &impl Abort,
    text: &[u8],
    levels: u64,
    nodes: u64,
    tape: &mut T,
    path: &mut Path,
) -> (Option<(u64, u64)>, u64, u64)
    requires levels { levels ≤ depth_of path.old }
    requires cells { 2 * levels ≤ (T.view tape.old).limit + 1 }
    requires nodes { nodes < 2 ^ 63 }
    ensures depth { depth_of path.new ≡ depth_of path.old }
    ensures limit { (T.view tape.new).limit ≡ (T.view tape.old).limit }
{
    let machine = Machine::read(text).expect(rt, "a machine");
    let mut meter = Meter::new();
    let found = walk(&machine, levels, nodes, tape, path, &mut meter);
    let found = found.expect(rt, "memory");
    assert_eq!(rt; tape.score(), 0, "{text:?}");
    assert_eq!(rt; meter.steps, 0);
    assert_eq!(rt; meter.most_cells, 0);
    assert!(rt; meter.nodes <= nodes && meter.most_levels <= levels);
    if let Some((found_levels, found_nodes)) = found {
        assert_eq!(rt; meter.nodes, found_nodes, "{text:?}");
        assert_eq!(rt; meter.most_levels, found_levels, "{text:?}");
    }
    (found, meter.nodes, meter.most_levels)
}

/// Holds the rows against walks on one tape and one path.
fn rows_hold<T: Tape>(rt: &impl Abort, mut tape: T, mut path: Path)
    requires limit { (T.view tape).limit ≡ CELLS }
    requires depth { depth_of path ≡ 400 }
{
    for (text, levels, nodes, expected) in &ROWS {
        assert!(rt; *levels <= 400 && *nodes <= 1_000_000);
        assert!(rt; tape.limit() == CELLS && path.depth() == 400);
        let (found, _, _) = walked(rt, text, *levels, *nodes, &mut tape, &mut path);
        assert_eq!(rt;
            found,
            *expected,
            "{text:?} in {levels} levels, {nodes} nodes"
        );
    }
    for (text, levels, nodes, entered, on_levels) in &COUNTS {
        assert!(rt; *levels <= 400 && *nodes <= 1_000_000);
        assert!(rt; tape.limit() == CELLS && path.depth() == 400);
        let (_, counted, most) = walked(rt, text, *levels, *nodes, &mut tape, &mut path);
        assert_eq!(rt;
            counted,
            *entered,
            "{text:?} in {levels} levels, {nodes} nodes"
        );
        assert_eq!(rt;
            most,
            *on_levels,
            "{text:?} in {levels} levels, {nodes} nodes"
        );
    }
}

#[test]
fn trees_end_on_a_map(rt: HostRuntime) {
    let tape = MapTape::new(rt.alloc(), CELLS);
    let path = Path::new(rt.alloc(), 400).expect(&rt, "memory");
    assert_eq!(rt; path.depth(), 400);
    rows_hold(&rt, tape, path);
}

#[test]
fn trees_end_on_a_ring(rt: HostRuntime) {
    let tape = RingTape::new(rt.alloc(), CELLS).expect(&rt, "memory");
    let path = Path::new(rt.alloc(), 400).expect(&rt, "memory");
    rows_hold(&rt, tape, path);
}

#[test]
fn the_least_tape_is_enough(rt: HostRuntime) {
    let mut tape = RingTape::new(rt.alloc(), 3).expect(&rt, "memory");
    let mut path = Path::new(rt.alloc(), 2).expect(&rt, "memory");
    let (found, _, _) = walked(&rt, b"0RB---_0LA---", 2, 4, &mut tape, &mut path);
    assert_eq!(rt; found, Some((2, 4)));
}
