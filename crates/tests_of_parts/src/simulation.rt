//! Runs step by step, worked out by hand, and runs that meet a limit at its end.
ghost use Rattle.std.specs.Prelude.{◌≡◌};

use bb_machine::{Limits, Machine};
use bb_sim::{Meter, Moved, Outcome, Runner, simulate};
use bb_tape::{MapTape, RingTape, Tape};
use std::process::Abort;

/// A configuration: the state's letter, the head's position, the positions of each 1, and the span.
type Seen = (char, i64, &'static [i64], i64);

const CELLS: u64 = 64;

/// The text of a machine, and its run from the start.
type Run = (&'static [u8], &'static [Seen]);

static RUNS: [Run; 4] = [
    // The two-state champion.
    (
        b"1RB1LB_1LA1RZ",
        &[
            ('A', 0, &[], 1),
            ('B', 1, &[0], 2),
            ('A', 0, &[0, 1], 2),
            ('B', -1, &[0, 1], 3),
            ('A', -2, &[-1, 0, 1], 4),
            ('B', -1, &[-2, -1, 0, 1], 4),
            ('Z', 0, &[-2, -1, 0, 1], 4),
        ],
    ),
    // The three-state champion in steps.
    (
        b"1RB1RZ_1LB0RC_1LC1LA",
        &[
            ('A', 0, &[], 1),
            ('B', 1, &[0], 2),
            ('B', 0, &[0, 1], 2),
            ('C', 1, &[1], 2),
            ('A', 0, &[1], 2),
            ('B', 1, &[0, 1], 2),
            ('C', 2, &[0], 3),
            ('C', 1, &[0, 2], 3),
            ('C', 0, &[0, 1, 2], 3),
            ('A', -1, &[0, 1, 2], 4),
            ('B', 0, &[-1, 0, 1, 2], 4),
            ('C', 1, &[-1, 1, 2], 4),
            ('A', 0, &[-1, 1, 2], 4),
            ('B', 1, &[-1, 0, 1, 2], 4),
            ('C', 2, &[-1, 0, 2], 4),
            ('A', 1, &[-1, 0, 2], 4),
            ('B', 2, &[-1, 0, 1, 2], 4),
            ('C', 3, &[-1, 0, 1], 5),
            ('C', 2, &[-1, 0, 1, 3], 5),
            ('C', 1, &[-1, 0, 1, 2, 3], 5),
            ('A', 0, &[-1, 0, 1, 2, 3], 5),
            ('Z', 1, &[-1, 0, 1, 2, 3], 5),
        ],
    ),
    // A run to the right, without end.
    (
        b"1RB0RA_1LA---",
        &[
            ('A', 0, &[], 1),
            ('B', 1, &[0], 2),
            ('A', 0, &[0, 1], 2),
            ('A', 1, &[1], 2),
            ('A', 2, &[], 3),
            ('B', 3, &[2], 4),
            ('A', 2, &[2, 3], 4),
            ('A', 3, &[3], 4),
            ('A', 4, &[], 5),
        ],
    ),
    // A run with a repeated configuration.
    (
        b"1RB0RB_1LA1LA",
        &[
            ('A', 0, &[], 1),
            ('B', 1, &[0], 2),
            ('A', 0, &[0, 1], 2),
            ('B', 1, &[1], 2),
            ('A', 0, &[1], 2),
            ('B', 1, &[0, 1], 2),
            ('A', 0, &[0, 1], 2),
            ('B', 1, &[1], 2),
            ('A', 0, &[1], 2),
        ],
    ),
];

fn letter(state: Option<u8>) -> char {
    match state {
        Some(state) if state < 25 => char::from(b'A' + state),
        _ => 'Z',
    }
}

/// How many cells a runner has seen.
fn span(runner: &Runner) -> Option<i64> {
    runner.high().checked_sub(runner.low())?.checked_add(1)
}

/// Holds a runner against the configuration of a step.
fn is_seen(rt: &impl Abort, runner: &Runner, step: usize, seen: &Seen) {
    let (state, position, _ones, cells) = *seen;
    assert_eq!(rt; runner.steps(), step as u64);
    assert_eq!(rt; letter(runner.state()), state, "at step {step}");
    assert_eq!(rt; runner.position(), position, "at step {step}");
    assert_eq!(rt; span(runner), Some(cells), "at step {step}");
}

/// Compares the cells of a tape with the positions of each 1.
fn has_ones<T: Tape>(rt: &impl Abort, tape: &T, step: usize, ones: &[i64]) {
    for position in -40..41 {
        let symbol = u8::from(ones.contains(&position));
        assert_eq!(rt;
            tape.read(position),
            symbol,
            "at step {step}, cell {position}"
        );
    }
}

/// Compares the run of a machine with the expected one.
fn follows<T: Tape>(rt: &impl Abort, mut tape: T, text: &[u8], run: &[Seen])
    requires { (T.view tape).limit ≡ CELLS }
{
    let machine = Machine::read(text).expect(rt, "a machine");
    let limits = Limits::new(1000, CELLS, 0, 0).expect(rt, "limits");
    let mut meter = Meter::new();
    let mut runner = Runner::start(&machine, &mut tape);
    for (n, seen) in run.iter().enumerate() {
        is_seen(rt, &runner, n, seen);
        has_ones(rt, &tape, n, seen.2);
        assert!(rt; meter.steps < 1000);
        assert!(rt; runner.steps() <= limits.steps());
        let moved = runner
            .advance(&machine, &mut tape, &limits, &mut meter)
            .expect(rt, "memory");
        assert_eq!(rt; moved == Moved::Halted, seen.0 == 'Z', "at step {n}");
    }
}

/// The text, the limits of steps and cells, the steps and the score of the halt, and the most cells.
static HALTS: [(&[u8], u64, u64, u64, u64, u64); 7] = [
    (b"------", 0, 1, 0, 0, 1),
    (b"1RZ---", 1, 1, 1, 1, 1),
    (b"1RB1LB_1LA1RZ", 6, 4, 6, 4, 4),
    (b"1RB1LB_1LA---", 5, 4, 5, 4, 4),
    (b"1RB1RZ_1LB0RC_1LC1LA", 21, 5, 21, 5, 5),
    (b"1RB1RZ_0RC1RB_1LC1LA", 1000, 64, 14, 6, 6),
    (b"1RB1LB_1LA0LC_1RZ1LD_1RD0RA", 1000, 64, 107, 13, 14),
];

/// The text, the limits of steps and cells, the outcome at one of them, the steps counted and the most cells.
static STOPS: [(&[u8], u64, u64, Outcome, u64, u64); 5] = [
    (b"1RA1RA", 3, 4, Outcome::NoSteps, 3, 4),
    (b"1RA1RA", 4, 4, Outcome::NoCells, 3, 4),
    (b"1RZ---", 0, 1, Outcome::NoSteps, 0, 1),
    (b"1RB1LB_1LA1RZ", 5, 4, Outcome::NoSteps, 5, 4),
    (b"1RB1LB_1LA1RZ", 6, 3, Outcome::NoCells, 3, 3),
];

/// Simulates a machine, and compares outcome, steps and cells with the expected ones.
fn ends<T: Tape>(
    rt: &impl Abort,
    mut tape: T,
    text: &[u8],
    limits: &Limits,
    expected: (Outcome, u64, u64),
)
    requires { (T.view tape).limit ≡ limits.now.cells }
{
    let machine = Machine::read(text).expect(rt, "a machine");
    let mut meter = Meter::new();
    assert!(rt; limits.steps() <= 1000);
    let found = simulate(&machine, &mut tape, limits, &mut meter).expect(rt, "memory");
    assert_eq!(rt;
        (found, meter.steps, meter.most_cells),
        expected,
        "{text:?} in {limits:?}"
    );
}

/// The same on a map and on a ring.
fn ends_on_both(
    rt: &(impl Abort + AllocGlobal),
    text: &[u8],
    most_steps: u64,
    cells: u64,
    expected: (Outcome, u64, u64),
) {
    let limits = Limits::new(most_steps, cells, 0, 0).expect(rt, "limits");
    ends(
        rt,
        MapTape::new(rt.alloc(), limits.cells()),
        text,
        &limits,
        expected,
    );
    let ring = RingTape::new(rt.alloc(), limits.cells()).expect(rt, "memory");
    ends(rt, ring, text, &limits, expected);
}

#[test]
fn ends_at_its_limits(rt: HostRuntime) {
    for (text, most_steps, most_cells, steps, score, cells) in &HALTS {
        let outcome = Outcome::Halt {
            steps: *steps,
            score: *score,
        };
        ends_on_both(
            &rt,
            text,
            *most_steps,
            *most_cells,
            (outcome, *steps, *cells),
        );
    }
    for (text, most_steps, most_cells, outcome, steps, cells) in &STOPS {
        ends_on_both(
            &rt,
            text,
            *most_steps,
            *most_cells,
            (*outcome, *steps, *cells),
        );
    }
}

#[test]
fn runs_step_by_step_on_a_map(rt: HostRuntime) {
    for (text, run) in &RUNS {
        follows(&rt, MapTape::new(rt.alloc(), CELLS), text, run);
    }
}

#[test]
fn runs_step_by_step_on_a_ring(rt: HostRuntime) {
    for (text, run) in &RUNS {
        let tape = RingTape::new(rt.alloc(), CELLS).expect(&rt, "memory");
        follows(&rt, tape, text, run);
    }
}
