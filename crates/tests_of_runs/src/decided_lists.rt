//! Machines of lists, with verdicts worked out by hand. Those of three to ten symbols and up to 25 states have
//! the verdicts of a second program that follows the definitions plainly.

use crate::support::deciding::{Decided, assert_decided, decided_each_way};
use crate::support::rows::{
    ALL, CYCLERS, DEFAULTS, NO_CYCLERS, NO_TRANSLATED, PAIRS, SIMULATION, SMALL, TREES, limits_of,
};
use bb_decide::Plan;
use std::process::Abort;
use std::test::Fail;

/// Halts, found by each plan.
static HALTS: [Decided; 7] = [
    (
        DEFAULTS,
        &[
            "1RB1LB_1LA1RZ halt 6 4",
            "1RB1LB_1LA--- halt 5 4",
            "------ halt 0 0",
            "1RZ--- halt 1 1",
            "1RB1RZ_0RC1RB_1LC1LA halt 14 6",
            "1RB1LB_1LA0LC_1RZ1LD_1RD0RA halt 107 13",
            "1RB---_1LA--- halt 2 2",
            "1RB2LB1RZ_2LA2RB1LB halt 38 9",
            "2LZ------ halt 1 1",
        ],
    ),
    (
        SMALL,
        &[
            "0RC3RB0LE3RF_3LF---3RC2RC_0RB2LA2RF1LD_2LA2RE0LA3RB_3RE---0RC1RB_1LD2LF0RA2RC halt 39 6",
            "3LB3LD4LC2LC3LD_4RD4RC0RB0RD1LA_3RD2LD---4RC2LD_1LA2RZ4RD1RC1RB halt 35 8",
            "4LB2RB1RZ6RA2RC2RB5RC---_3RA5RC5RA7RB4LB3LC0RB1LA_0LB0RA5RC6LC4RA3LB1LC2RC halt 75 10",
            "1RB0LA7RB6RA7LA2LB7RA---4LA3RA_5LB3RB6LZ1LA6RB0RB8LZ6LB4LB5LB halt 76 9",
        ],
    ),
    ([6, 4, 2, 1_000_000], &["1RB1LB_1LA1RZ halt 6 4"]),
    ([0, 65_536, 300, 1_000_000], &["------ halt 0 0"]),
    (
        [1_000_000, 5, 3, 1_000_000],
        &["1RB1RZ_1LB0RC_1LC1LA halt 21 5"],
    ),
    ([1_000_000, 1, 1, 1_000_000], &["1RZ--- halt 1 1"]),
    (
        [1_000_000, 9, 5, 1_000_000],
        &["1RB2LB1RZ_2LA2RB1LB halt 38 9"],
    ),
];

/// Undecided by all deciders, and by a simulation alone.
static LEFT_BY_ALL: [Decided; 9] = [
    ([0, 65_536, 300, 1_000_000], &["1RZ--- undecided steps"]),
    ([5, 4, 2, 1_000_000], &["1RB1LB_1LA1RZ undecided steps"]),
    ([6, 3, 2, 1_000_000], &["1RB1LB_1LA1RZ undecided cells"]),
    (
        [1_000_000, 4, 2, 1_000_000],
        &["1RB1RZ_1LB0RC_1LC1LA undecided cells"],
    ),
    (
        [20, 65_536, 300, 1_000_000],
        &["1RB1RZ_1LB0RC_1LC1LA undecided steps"],
    ),
    (
        [1000, 65_536, 300, 1_000_000],
        &["1RB1LC_1RC1RB_1RD0LE_1LA1LD_1RZ0LA undecided steps"],
    ),
    (
        [1, 65_536, 300, 1_000_000],
        &["1RB---_1LA--- undecided steps"],
    ),
    (
        [1_000_000, 8, 4, 1_000_000],
        &["1RB2LB1RZ_2LA2RB1LB undecided cells"],
    ),
    (
        [37, 65_536, 300, 1_000_000],
        &["1RB2LB1RZ_2LA2RB1LB undecided steps"],
    ),
];

/// Undecided by a simulation alone.
static LEFT_BY_RUNNING: [Decided; 4] = [
    (
        DEFAULTS,
        &[
            "0RB---_0LA--- undecided steps",
            "0RA0RA undecided cells",
            "0RA0RA_0RA0RA_0RA0RA_0RA0RA_0RA0RA_0RA0RA_0RA0RA undecided cells",
            "0RA0RA_0RA0RA_0RA0RA_0RA0RA_0RA0RA_0RA0RA_0RA0RA_0RA0RA undecided cells",
        ],
    ),
    (SMALL, &["5RA7LA8LA7RZ------3RA0RA6RA3RA undecided cells"]),
    (
        [3, 65_536, 300, 1_000_000],
        &["0RB---_0LA--- undecided steps"],
    ),
    (
        [1_000_000, 599, 300, 1_000_000],
        &["1RA1RA undecided cells"],
    ),
];

/// By the search for cyclers alone.
static REPEATS: [Decided; 7] = [
    (
        DEFAULTS,
        &[
            "0RB---_0LA--- cycler 2 4",
            "1RB0RB_1LA1LA cycler 4 8",
            "0RA0RA undecided cells",
        ],
    ),
    (
        SMALL,
        &[
            "0LD2RA1RB_2LZ2RF2LE_1LA0LA1RA_2RA1LC0RE_0RC1RB1LE_0RA0LE0LC cycler 16 28",
            "2LC2RC2LB3LC1LB0LD3RD_5LD3RZ2RA1LB2LB3RD0LC_2LB2RD6LA1RD0RC0RD3RC_0RC4RA3LD6LA1LC0RD0LA cycler 128 130",
            "6LB1LA---0LB3RA5RB3LB6RB_7RA4LA4RB2LA5LA---7RA7RA cycler 8 14",
            "2RA---1LA undecided cells",
        ],
    ),
    (
        [0, 65_536, 300, 1_000_000],
        &["1RB0RB_1LA1LA undecided steps"],
    ),
    ([8, 65_536, 300, 1_000_000], &["1RB0RB_1LA1LA cycler 4 8"]),
    (
        [7, 65_536, 300, 1_000_000],
        &["1RB0RB_1LA1LA undecided steps"],
    ),
    (
        [2, 65_536, 300, 1_000_000],
        &["1RB0RB_1LA1LA undecided steps"],
    ),
    (
        [1, 65_536, 300, 1_000_000],
        &["1RB0RB_1LA1LA undecided steps"],
    ),
];

/// By the searches for cyclers and translated cyclers.
static RECORDS: [Decided; 5] = [
    (
        DEFAULTS,
        &[
            "1RA1RA translated R 1 2 1 1",
            "0LA0LA translated L 1 2 1 1",
            "1RB---_1RC---_1RA--- translated R 4 7 3 1",
            "0LB---_0RC1RC_1RA--- translated R 3 6 1 2",
            "0RB---_0LC1LC_1LA--- translated L 3 6 1 2",
            "1RB0RA_1LA--- translated R 4 8 2 1",
            "1LB0LA_1RA--- translated L 4 8 2 1",
            "0RB---_0LA--- cycler 2 4",
        ],
    ),
    (
        SMALL,
        &[
            "2RA---1LA translated R 1 2 1 1",
            "1LB1RA0LC3RA_2RC2RB0RA3RC_2LB2RA1RC3RA translated R 10 35 3 5",
            "4RB4LA2LB3LA0LB_2LA4LA4RB0RB1RB translated L 140 169 3 8",
            "5LB4RA1LA0LB4LB0RA0RA_2RB3RB1LB0RA5LA2RA3LA translated R 154 178 2 10",
            "0LB4RA4RA2LB2LB9LB7LB8RA4RB8LA_2RA5RB8LB6RA8LA9LZ1RZ1RB0LB0LB translated L 74 98 2 5",
        ],
    ),
    (
        [6, 65_536, 300, 1_000_000],
        &["1RB---_1RC---_1RA--- undecided steps"],
    ),
    (
        [20, 65_536, 300, 1_000_000],
        &["1RB1RZ_1LB0RC_1LC1LA undecided steps"],
    ),
    (
        [7, 65_536, 300, 1_000_000],
        &["1RB0RB_1LA1LA undecided steps"],
    ),
];

/// By backward reasoning alone.
static BY_TREES: [Decided; 10] = [
    (
        DEFAULTS,
        &[
            "0RB---_0LA--- backward 2 4",
            "1RA1RA backward 0 0",
            "1RB0RA_1LA--- undecided cells",
            "1RB0RB_1LA1LA backward 0 0",
            "1RB1LB_1LA1RZ halt 6 4",
        ],
    ),
    (
        SMALL,
        &[
            "2RB2RB2LA_2LC1RC2LC_2LA---2LA_1RB0LB0RC backward 3 12",
            "1RB3RC3LB---_1RB3LB0LB2LB_1RC0LA2RC2LB backward 3 3",
            "4LB1LB0RA4LB3LB_3RA0RA4RA1RA--- backward 4 13",
            "3RA3LA3LA7LA5RA8LA5RA6LA8RA9LA backward 0 0",
        ],
    ),
    (
        [1_000_000, 3, 2, 1_000_000],
        &["0RB---_0LA--- backward 2 4"],
    ),
    (
        [1_000_000, 65_536, 1, 1_000_000],
        &["0RB---_0LA--- undecided steps"],
    ),
    ([1_000_000, 65_536, 300, 4], &["0RB---_0LA--- backward 2 4"]),
    (
        [1_000_000, 65_536, 300, 3],
        &["0RB---_0LA--- undecided steps"],
    ),
    ([1, 65_536, 0, 0], &["1RA1RA backward 0 0"]),
    (
        [1, 65_536, 300, 1_000_000],
        &["1RB---_1LA--- undecided steps"],
    ),
    ([0, 65_536, 300, 1_000_000], &["1RZ--- undecided steps"]),
    (
        [200, 40, 4, 13],
        &["4LB1LB0RA4LB3LB_3RA0RA4RA1RA--- backward 4 13"],
    ),
];

/// By records and trees, without repeats.
static WITHOUT_CYCLERS: [Decided; 4] = [
    (
        [1_000_000, 3, 2, 1_000_000],
        &["0RB---_0LA--- backward 2 4"],
    ),
    (
        [1_000_000, 65_536, 1, 1_000_000],
        &["0RB---_0LA--- undecided steps"],
    ),
    ([1_000_000, 65_536, 300, 4], &["0RB---_0LA--- backward 2 4"]),
    (
        [1_000_000, 65_536, 300, 3],
        &["0RB---_0LA--- undecided steps"],
    ),
];

/// By repeats and trees, without records.
static WITHOUT_TRANSLATED: [Decided; 1] = [(
    DEFAULTS,
    &["1RA1RA backward 0 0", "1RB0RA_1LA--- undecided cells"],
)];

/// By all deciders.
static BY_ALL: [Decided; 12] = [
    (
        DEFAULTS,
        &[
            "1RB0RA_1LA--- translated R 4 8 2 1",
            "1LB0LA_1RA--- translated L 4 8 2 1",
            "0RA0RA_0RA0RA_0RA0RA_0RA0RA_0RA0RA_0RA0RA_0RA0RA translated R 1 2 1 1",
            "0RA0RA_0RA0RA_0RA0RA_0RA0RA_0RA0RA_0RA0RA_0RA0RA_0RA0RA translated R 1 2 1 1",
            "0LB---_0RC1RC_1RA--- translated R 3 6 1 2",
            "1RB---_1RC---_1RA--- translated R 4 7 3 1",
            "1RB0RB_1LA1LA cycler 4 8",
            "0RB---_0LA--- cycler 2 4",
            "1RA1RA translated R 1 2 1 1",
        ],
    ),
    ([1_000_000, 1, 1, 1_000_000], &["1RA1RA backward 0 0"]),
    ([1, 65_536, 300, 1_000_000], &["1RA1RA backward 0 0"]),
    (
        [3, 65_536, 1, 1_000_000],
        &["0RB---_0LA--- undecided steps"],
    ),
    ([3, 65_536, 300, 3], &["0RB---_0LA--- undecided steps"]),
    ([1, 65_536, 0, 0], &["1RA1RA backward 0 0"]),
    ([8, 65_536, 300, 1_000_000], &["1RB0RB_1LA1LA cycler 4 8"]),
    (
        [7, 65_536, 300, 1_000_000],
        &[
            "1RB0RB_1LA1LA backward 0 0",
            "1RB---_1RC---_1RA--- translated R 4 7 3 1",
        ],
    ),
    (
        [6, 65_536, 300, 1_000_000],
        &["1RB---_1RC---_1RA--- undecided steps"],
    ),
    ([3, 65_536, 300, 1_000_000], &["0RB---_0LA--- backward 2 4"]),
    (
        [1_000_000, 4, 2, 1_000_000],
        &["1RB1LB_1LA1RZ halt 6 4", "0RB---_0LA--- cycler 2 4"],
    ),
    (
        [1_000, 64, 10, 100],
        &[
            "1RB1LB_1LA1RZ halt 6 4",
            "1RB0RA_1LA--- translated R 4 8 2 1",
            "0RB---_0LA--- cycler 2 4",
        ],
    ),
];

/// The lists above, each with a plan for its verdicts.
pub(crate) fn decided_lists() -> [(Plan, &'static [Decided]); 9] {
    [
        (ALL, HALTS.as_slice()),
        (ALL, LEFT_BY_ALL.as_slice()),
        (SIMULATION, LEFT_BY_RUNNING.as_slice()),
        (CYCLERS, REPEATS.as_slice()),
        (PAIRS, RECORDS.as_slice()),
        (TREES, BY_TREES.as_slice()),
        (NO_CYCLERS, WITHOUT_CYCLERS.as_slice()),
        (NO_TRANSLATED, WITHOUT_TRANSLATED.as_slice()),
        (ALL, BY_ALL.as_slice()),
    ]
}

#[test]
fn halts(rt: HostRuntime) -> Result<(), Fail> {
    for plan in [SIMULATION, CYCLERS, ALL] {
        assert_decided(&rt, plan, HALTS.as_slice())?;
    }
    Ok(())
}

#[test]
fn leaves_undecided(rt: HostRuntime) -> Result<(), Fail> {
    assert_decided(&rt, SIMULATION, LEFT_BY_ALL.as_slice())?;
    assert_decided(&rt, ALL, LEFT_BY_ALL.as_slice())?;
    assert_decided(&rt, SIMULATION, LEFT_BY_RUNNING.as_slice())
}

#[test]
fn finds_repeats(rt: HostRuntime) -> Result<(), Fail> {
    assert_decided(&rt, CYCLERS, REPEATS.as_slice())
}

#[test]
fn finds_records_that_agree(rt: HostRuntime) -> Result<(), Fail> {
    assert_decided(&rt, PAIRS, RECORDS.as_slice())
}

#[test]
fn finds_trees(rt: HostRuntime) -> Result<(), Fail> {
    assert_decided(&rt, TREES, BY_TREES.as_slice())?;
    assert_decided(&rt, NO_CYCLERS, WITHOUT_CYCLERS.as_slice())?;
    assert_decided(&rt, NO_TRANSLATED, WITHOUT_TRANSLATED.as_slice())
}

#[test]
fn decides_by_all(rt: HostRuntime) -> Result<(), Fail> {
    assert_decided(&rt, ALL, BY_ALL.as_slice())
}

/// Lists with other lines, at the default limits, and their output by each plan.
static REFUSED: [(&[u8], &[u8]); 10] = [
    (b"1RB1LB_1LA1RC\n", b"refused 14\n"),
    (b"1RB1LB_1LA1R\n", b"refused 13\n"),
    (b"1rB1LB\n", b"refused 2\n"),
    (b"\n", b"refused 1\n"),
    (b"1RB1LB_1LA1RZ\r\n", b"refused 14\n"),
    (
        b"0RA0RA_0RA0RA_0RA0RA_0RA0RA_0RA0RA_0RA0RA_0RA0RA_0RA0RAx\n",
        b"refused 56\n",
    ),
    (
        b"------\n\n------",
        b"------ halt 0 0\nrefused 1\n------ halt 0 0\n",
    ),
    (b"\xff\n1RB\xc3\xa9\n", b"refused 1\nrefused 4\n"),
    (b"0RA0RA\0\n1RZ--- \n", b"refused 7\nrefused 7\n"),
    (b"2RA---\n2RA---_\n", b"refused 7\nrefused 7\n"),
];

/// The same by one plan.
static REFUSED_BY_A_PLAN: [(Plan, &[u8], &[u8]); 3] = [
    (
        CYCLERS,
        b"1RB1LB_1LA1RC\n0RB---_0LA---\n",
        b"refused 14\n0RB---_0LA--- cycler 2 4\n",
    ),
    (
        ALL,
        b"1RB1LB_1LA1RZ\n1RA1RA\n1rB1LB\n",
        b"1RB1LB_1LA1RZ halt 6 4\n1RA1RA translated R 1 2 1 1\nrefused 2\n",
    ),
    (
        ALL,
        b"2RA---1LA\n0RA0RA0RA0RA0RA0RA0RA0RA0RA0RA0RA\n0RY0RA\n2RA---_\n",
        b"2RA---1LA translated R 1 2 1 1\nrefused 31\nrefused 7\nrefused 7\n",
    ),
];

/// A list is decided so at the default limits, and isn't clean.
fn assert_refused(rt: &(impl Abort + AllocGlobal), plan: Plan, input: &[u8], expected: &[u8]) {
    let (summary, output) = decided_each_way(rt, &limits_of(rt, &DEFAULTS), plan, input);
    assert_eq!(rt; output.as_slice(), expected);
    assert!(rt; !summary.clean);
}

#[test]
fn other_lines_are_refused(rt: HostRuntime) {
    for (input, output) in &REFUSED {
        assert_refused(&rt, SIMULATION, input, output);
        assert_refused(&rt, ALL, input, output);
    }
    for (plan, input, output) in &REFUSED_BY_A_PLAN {
        assert_refused(&rt, *plan, input, output);
    }
}

#[test]
fn an_empty_list_has_no_output(rt: HostRuntime) {
    for plan in [SIMULATION, CYCLERS, ALL] {
        let (summary, output) = decided_each_way(&rt, &limits_of(&rt, &DEFAULTS), plan, b"");
        assert!(rt; output.is_empty() && summary.clean);
    }
}

/// The longest machine: 25 states and ten symbols.
#[test]
fn the_longest_machine_is_decided(rt: HostRuntime) -> Result<(), Fail> {
    let mut line: Vec<u8> = Vec::new(rt.alloc());
    for state in 0..25 {
        if state > 0 {
            line.push(b'_')?;
        }
        for _ in 0..10 {
            line.extend_from_slice(b"0RA")?;
        }
    }
    let limits = limits_of(&rt, &DEFAULTS);
    let mut expected = line.clone()?;
    expected.extend_from_slice(b" undecided cells\n")?;
    let (_, output) = decided_each_way(&rt, &limits, CYCLERS, line.as_slice());
    assert_eq!(rt; output.as_slice(), expected.as_slice());
    line.extend_from_slice(b"_0RA0RA0RA0RA0RA0RA0RA0RA0RA0RA")?;
    assert_refused(&rt, ALL, line.as_slice(), b"refused 775\n");
    Ok(())
}
