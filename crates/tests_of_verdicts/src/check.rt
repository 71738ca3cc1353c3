//! Claims worked out by hand, and the cost of checking them, over both tapes.
ghost use Rattle.std.specs.Prelude.{◌≡◌, ◌≤◌};
ghost use Rattle.bb_cert.specs.checker.Pair.{PairHasCells};
ghost use Rattle.bb_tree.specs.Path.{depth_of};

use bb_cert::{Answer, Line, Pair, Path, Side, Verdict, check, read_line};
use bb_machine::{Limits, Machine};
use bb_sim::Meter;
use bb_tape::{MapTape, Memory, RingTape, Tape};
use std::process::Abort;
use std::test::Fail;

const CELLS: u64 = 65_536;

const DEPTH: u64 = 300;

/// Limits of steps, cells, levels and nodes; and claims of halts and pairs, with their answers and the steps
/// counted. No node is entered.
type Runs = ([u64; 4], &'static [(&'static [u8], Answer, u64)]);

/// Limits, and claims of trees, with their answers and the nodes and levels counted. No step is made.
type Trees = ([u64; 4], &'static [(&'static [u8], Answer, u64, u64)]);

static OF_RUNS: [Runs; 16] = [
    (
        [1000, 64, 32, 1000],
        &[
            // Halts.
            (b"1RB1LB_1LA1RZ halt 6 4", Answer::Ok, 6),
            (b"1RB1LB_1LA1RZ halt 6 5", Answer::Bad, 6),
            (b"1RB1LB_1LA1RZ halt 5 4", Answer::Bad, 5),
            (b"1RB1LB_1LA1RZ halt 7 4", Answer::Bad, 6),
            (b"1RB1LB_1LA1RZ halt 1000 4", Answer::Bad, 6),
            (b"1RB1LB_1LA1RZ halt 1001 4", Answer::Over, 0),
            (b"1RB1LB_1LA1RZ halt 6 18446744073709551615", Answer::Bad, 6),
            (b"------ halt 18446744073709551615 0", Answer::Over, 0),
            (b"1RZ--- halt 0 0", Answer::Bad, 0),
            (b"1RZ--- halt 1 0", Answer::Bad, 1),
            (b"1RA1RA halt 63 0", Answer::Bad, 63),
            (b"1RA1RA halt 64 0", Answer::Over, 63),
            // Pairs with a comparison of configurations.
            (b"0RB---_0LA--- cycler 0 2", Answer::Ok, 2),
            (b"0RB---_0LA--- cycler 3 9", Answer::Ok, 9),
            (b"0RB---_0LA--- cycler 1 2", Answer::Bad, 2),
            (b"0RB---_0LA--- cycler 2 2", Answer::Bad, 0),
            (b"0RB---_0LA--- cycler 1001 2", Answer::Over, 0),
            (b"1RB0RB_1LA1LA cycler 0 4", Answer::Bad, 4),
            (b"------ cycler 0 1", Answer::Bad, 0),
            (b"1RZ--- cycler 0 1", Answer::Bad, 1),
            (b"1RB1LB_1LA1RZ cycler 7 8", Answer::Bad, 6),
            (b"1RA1RA cycler 1 63", Answer::Bad, 63),
            (b"1RA1RA cycler 1 64", Answer::Over, 63),
            (b"0RA0RA cycler 1 2", Answer::Bad, 2),
            // Records.
            (b"1RA1RA translated R 2 5", Answer::Ok, 5),
            (b"1RA1RA translated R 1 63", Answer::Ok, 63),
            (b"1RA1RA translated R 1 64", Answer::Over, 63),
            (b"1RA1RA translated R 0 64", Answer::Over, 63),
            (b"1RA1RA translated R 0 2", Answer::Bad, 2),
            (b"1RA1RA translated L 1 2", Answer::Bad, 2),
            (
                b"1RA1RA translated R 18446744073709551615 1",
                Answer::Over,
                0,
            ),
            (b"0LA0LA translated L 3 7", Answer::Ok, 7),
            (b"1RB1RZ_1LB0RC_1LC1LA translated R 6 17", Answer::Bad, 17),
            (b"1RB1LB_1LA1RZ translated R 1 7", Answer::Bad, 6),
            (b"1RZ--- translated R 0 1", Answer::Bad, 1),
            (b"1RB0RA_1LA--- translated R 1 13", Answer::Ok, 13),
            (b"1RB0RA_1LA--- translated R 3 7", Answer::Bad, 7),
            (b"1LB0LA_1RA--- translated L 4 12", Answer::Ok, 12),
            (b"1RA1RA translated R 1 2 1 1", Answer::Ok, 2),
            (b"1RA1RA translated R 2 5 3 1", Answer::Ok, 5),
            (b"1RA1RA translated R 1 2 1 2", Answer::Bad, 2),
            (b"1RA1RA translated R 1 2 2 1", Answer::Bad, 2),
            (
                b"1RA1RA translated R 1 2 18446744073709551615 1",
                Answer::Bad,
                2,
            ),
            (b"1RA1RA translated R 2 2 0 1", Answer::Bad, 0),
            (b"1RB0RA_1LA--- translated R 1 5 2 2", Answer::Ok, 5),
            (b"1RB0RA_1LA--- translated R 1 5 2 1", Answer::Bad, 5),
            (b"0LB---_0RC1RC_1RA--- translated R 3 6", Answer::Ok, 6),
            (b"1RB---_1RC---_1RA--- translated R 1 7", Answer::Ok, 7),
            // Between these two records the run visits cells beyond the first one's window.
            (b"1LB0LA_0RB1RA translated L 1 8", Answer::Ok, 8),
            (b"1RB0RA_0LB1LA translated R 1 8", Answer::Ok, 8),
            // Nothing is claimed.
            (b"1RB1LB_1LA1RZ undecided steps", Answer::Open, 0),
        ],
    ),
    (
        [0, 1, 0, 0],
        &[
            (b"------ halt 0 0", Answer::Ok, 0),
            (b"1RA1RA undecided cells", Answer::Open, 0),
        ],
    ),
    (
        [1000, 1, 1, 1000],
        &[
            (b"0RB---_0LA--- cycler 4 2", Answer::Bad, 0),
            (b"1RA1RA translated R 2 2", Answer::Bad, 0),
        ],
    ),
    ([6, 4, 2, 0], &[(b"1RB1LB_1LA1RZ halt 6 4", Answer::Ok, 6)]),
    (
        [5, 64, 32, 1000],
        &[(b"1RB1LB_1LA1RZ halt 6 4", Answer::Over, 0)],
    ),
    (
        [6, 3, 2, 1000],
        &[(b"1RB1LB_1LA1RZ halt 6 4", Answer::Over, 3)],
    ),
    ([1, 1, 1, 0], &[(b"1RZ--- halt 1 1", Answer::Ok, 1)]),
    (
        [21, 5, 3, 0],
        &[(b"1RB1RZ_1LB0RC_1LC1LA halt 21 5", Answer::Ok, 21)],
    ),
    (
        [21, 4, 2, 0],
        &[(b"1RB1RZ_1LB0RC_1LC1LA halt 21 5", Answer::Over, 16)],
    ),
    (
        [20, 5, 3, 0],
        &[(b"1RB1RZ_1LB0RC_1LC1LA halt 21 5", Answer::Over, 0)],
    ),
    (
        [2, 2, 1, 0],
        &[(b"0RB---_0LA--- cycler 0 2", Answer::Ok, 2)],
    ),
    (
        [1, 64, 32, 1000],
        &[(b"0RB---_0LA--- cycler 0 2", Answer::Over, 0)],
    ),
    (
        [2, 1, 1, 0],
        &[(b"0RB---_0LA--- cycler 0 2", Answer::Over, 0)],
    ),
    (
        [6, 2, 1, 0],
        &[(b"1RB0RB_1LA1LA cycler 2 6", Answer::Ok, 6)],
    ),
    ([2, 3, 2, 0], &[(b"1RA1RA translated R 1 2", Answer::Ok, 2)]),
    (
        [8, 5, 3, 0],
        &[(b"1RB0RA_1LA--- translated R 4 8", Answer::Ok, 8)],
    ),
];

static OF_TREES: [Trees; 5] = [
    (
        [1000, 64, 32, 1000],
        &[
            (b"0RB---_0LA--- backward 2 3", Answer::Bad, 3, 2),
            (b"0RB---_0LA--- backward 2 1", Answer::Bad, 1, 1),
            (b"0RB---_0LA--- backward 0 0", Answer::Bad, 0, 0),
            (b"0RB---_0LA--- backward 3 4", Answer::Bad, 4, 2),
            (b"0RB---_0LA--- backward 2 5", Answer::Bad, 4, 2),
            (b"1RZ--- backward 1 2", Answer::Bad, 1, 1),
        ],
    ),
    (
        [0, 3, 2, 4],
        &[(b"0RB---_0LA--- backward 2 4", Answer::Ok, 4, 2)],
    ),
    (
        [1000, 64, 32, 3],
        &[(b"0RB---_0LA--- backward 2 4", Answer::Over, 0, 0)],
    ),
    (
        [1000, 64, 1, 1000],
        &[(b"0RB---_0LA--- backward 2 4", Answer::Over, 0, 0)],
    ),
    ([0, 1, 0, 0], &[(b"1RA1RA backward 0 0", Answer::Ok, 0, 0)]),
];

/// Checks a claim with a fresh meter.
fn answer_to<T: Tape>(
    machine: &Machine,
    verdict: &Verdict,
    limits: &Limits,
    pair: &mut Pair<T>,
    path: &mut Path,
    meter: &mut Meter,
) -> Result<Answer, Memory>
    requires tapes { PairHasCells T.view limits.now.cells pair.old }
    requires path { limits.now.depth ≤ depth_of path.old }
    ensures tapes { PairHasCells T.view limits.now.cells pair.new }
    ensures path { depth_of path.new ≡ depth_of path.old }
{
    *meter = Meter::new();
    check(machine, verdict, limits, pair, path, meter)
}

/// Checks a line's claim, and compares the answer and the steps, nodes and levels counted with the expected
/// ones.
fn is_answered<T: Tape>(
    rt: &impl Abort,
    line: &[u8],
    limits: &Limits,
    pair: &mut Pair<T>,
    path: &mut Path,
    expected: (Answer, [u64; 3]),
) -> Result<(), Fail>
    requires tapes { PairHasCells T.view limits.now.cells pair.old }
    requires path { limits.now.depth ≤ depth_of path.old }
    ensures path { depth_of path.new ≡ depth_of path.old }
{
    let Some(Line::Claim(machine, verdict)) = read_line(line) else {
        panic!(rt; "{line:?} is a claim");
    };
    let mut meter = Meter::new();
    let answer = answer_to(&machine, &verdict, limits, pair, path, &mut meter)?;
    let counted = [meter.steps, meter.nodes, meter.most_levels];
    assert_eq!(rt; (answer, counted), expected, "{line:?}");
    assert!(rt; meter.most_cells <= limits.cells(), "{line:?}");
    Ok(())
}

/// The same on maps and on rings.
fn is_answered_on_both(
    rt: &(impl Abort + AllocGlobal),
    line: &[u8],
    four: &[u64; 4],
    expected: (Answer, [u64; 3]),
) -> Result<(), Fail> {
    let limits = Limits::new(four[0], four[1], four[2], four[3])?;
    let mut path = Path::new(rt.alloc(), limits.depth())?;
    let mut maps = Pair {
        run: MapTape::new(rt.alloc(), limits.cells()),
        saved: MapTape::new(rt.alloc(), limits.cells()),
    };
    is_answered(rt, line, &limits, &mut maps, &mut path, expected)?;
    let mut rings = Pair {
        run: RingTape::new(rt.alloc(), limits.cells())?,
        saved: RingTape::new(rt.alloc(), limits.cells())?,
    };
    is_answered(rt, line, &limits, &mut rings, &mut path, expected)
}

#[test]
fn claims_are_answered(rt: HostRuntime) -> Result<(), Fail> {
    for (four, claims) in &OF_RUNS {
        for (line, answer, steps) in *claims {
            is_answered_on_both(&rt, line, four, (*answer, [*steps, 0, 0]))?;
        }
    }
    for (four, claims) in &OF_TREES {
        for (line, answer, nodes, levels) in *claims {
            is_answered_on_both(&rt, line, four, (*answer, [0, *nodes, *levels]))?;
        }
    }
    Ok(())
}

/// A machine, the kind of claim, with a side for records, and the number of pairs of steps up to 16 for which
/// it is true.
type Family = (&'static [u8], Option<Side>, u64);

static FAMILIES: [Family; 5] = [
    (b"0RB---_0LA---", None, 64),
    (b"1RB0RB_1LA1LA", None, 21),
    (b"1RA1RA", Some(Side::R), 120),
    (b"1RB0RA_1LA---", Some(Side::R), 12),
    (b"1RB0RA_1LA---", Some(Side::L), 0),
];

/// The true pairs for each machine.
fn is_right(index: usize, first: u64, second: u64) -> bool {
    if second <= first {
        return false;
    }
    match index {
        0 => (second - first) % 2 == 0,
        1 => 2 <= first && (second - first) % 4 == 0,
        2 => 1 <= first,
        3 => 1 <= first && first % 4 <= 1 && second % 4 == first % 4,
        _ => false,
    }
}

/// The claim of a pair of steps, of records of a side, or of one configuration.
fn claim_of(side: Option<Side>, first: u64, second: u64) -> Verdict {
    match side {
        None => Verdict::Cycler { first, second },
        Some(side) => Verdict::Translated {
            side,
            first,
            second,
            extent: None,
        },
    }
}

/// The answer to a claim of a pair of steps.
fn answer_to_pair<T: Tape>(
    rt: &impl Abort,
    machine: &Machine,
    claim: &Verdict,
    pair: &mut Pair<T>,
    path: &mut Path,
) -> Result<Answer, Fail>
    ensures tapes { PairHasCells T.view CELLS pair.new }
    ensures path { depth_of path.new ≡ depth_of path.old }
{
    assert!(rt; pair.run.limit() == CELLS);
    assert!(rt; pair.saved.limit() == CELLS);
    assert!(rt; path.depth() == DEPTH);
    let limits = Limits::new(1_000_000, CELLS, DEPTH, 1_000_000)?;
    let mut meter = Meter::new();
    Ok(answer_to(machine, claim, &limits, pair, path, &mut meter)?)
}

/// Checks each pair of steps up to 16, compares the answers with the true pairs, and counts those.
fn right_pairs<T: Tape>(
    rt: &impl Abort,
    index: usize,
    family: &Family,
    pair: &mut Pair<T>,
    path: &mut Path,
) -> Result<u64, Fail> {
    let (text, side, _) = *family;
    let machine = Machine::read(text)?;
    let mut right: u64 = 0;
    for step in 0..289 {
        let (first, second) = (step / 17, step % 17);
        let claim = claim_of(side, first, second);
        let answer = answer_to_pair(rt, &machine, &claim, pair, path)?;
        let holds = is_right(index, first, second);
        assert_eq!(rt; answer == Answer::Ok, holds, "{first} {second} of {text:?}");
        assert!(rt; holds || answer == Answer::Bad);
        right = right.saturating_add(u64::from(holds));
    }
    Ok(right)
}

/// Checks each pair of steps up to 16 of each machine, and holds how many are right against its family.
fn pairs_are_answered<T: Tape>(
    rt: &impl Abort,
    pair: &mut Pair<T>,
    path: &mut Path,
) -> Result<(), Fail>
    requires tapes { PairHasCells T.view CELLS pair.old }
{
    for (index, family) in FAMILIES.iter().enumerate() {
        let right = right_pairs(rt, index, family, pair, path)?;
        let (text, _, count) = family;
        assert_eq!(rt; right, *count, "{text:?}");
    }
    Ok(())
}

#[test]
fn pairs_are_answered_on_maps(rt: HostRuntime) -> Result<(), Fail> {
    let mut pair = Pair {
        run: MapTape::new(rt.alloc(), CELLS),
        saved: MapTape::new(rt.alloc(), CELLS),
    };
    let mut path = Path::new(rt.alloc(), DEPTH)?;
    pairs_are_answered(&rt, &mut pair, &mut path)
}

#[test]
fn pairs_are_answered_on_rings(rt: HostRuntime) -> Result<(), Fail> {
    let mut pair = Pair {
        run: RingTape::new(rt.alloc(), CELLS)?,
        saved: RingTape::new(rt.alloc(), CELLS)?,
    };
    let mut path = Path::new(rt.alloc(), DEPTH)?;
    pairs_are_answered(&rt, &mut pair, &mut path)
}

#[test]
fn answers_have_numbers_and_words(rt: HostRuntime) {
    let answers: [(Answer, u8, &[u8]); 4] = [
        (Answer::Ok, 1, b"ok"),
        (Answer::Bad, 2, b"bad"),
        (Answer::Over, 3, b"over"),
        (Answer::Open, 4, b"open"),
    ];
    for (answer, number, word) in answers {
        assert_eq!(rt; answer as u8, number);
        assert_eq!(rt; answer.word(), word);
    }
}
