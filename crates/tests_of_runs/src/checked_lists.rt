//! Answers to lists of verdict lines, worked out by hand. A step past the limit comes before steps out of order.

use crate::support::checking::checked_on_both;
use crate::support::rows::{DEFAULTS, Four, SMALL, limits_of};
use bb_machine::Limits;
use bb_run::Summary;
use bb_sim::Meter;
use std::alloc::AllocError;
use std::test::Fail;

/// Limits, and lines with their answers.
type Answered = (Four, &'static [(&'static str, &'static str)]);

static CLAIMS: [Answered; 9] = [
    (
        DEFAULTS,
        &[
            ("1RB1LB_1LA1RZ halt 6 4", "ok"),
            ("1RB1LB_1LA1RZ halt 6 5", "bad"),
            ("1RB1LB_1LA1RZ halt 5 4", "bad"),
            ("1RB1LB_1LA1RZ halt 7 4", "bad"),
            ("1RZ--- backward 1 2", "bad"),
            ("0RB---_0LA--- backward 2 4", "ok"),
            ("0RB---_0LA--- backward 2 3", "bad"),
            ("0RB---_0LA--- backward 3 4", "bad"),
            ("1RB---_1LA--- backward 3 6", "bad"),
            ("0RB---_0LA--- cycler 0 2", "ok"),
            ("0RB---_0LA--- cycler 1 2", "bad"),
            ("0RB---_0LA--- cycler 2 2", "bad"),
            ("------ cycler 0 1", "bad"),
            ("1RA1RA translated R 2 5", "ok"),
            ("1RA1RA translated R 0 2", "bad"),
            ("1RB1RZ_1LB0RC_1LC1LA translated R 6 17", "bad"),
            ("1RA1RA undecided cells", "open"),
            ("refused 14", "open"),
            ("------ halt 00 0", "unread"),
            ("------ halt 0 0 ", "unread"),
            ("------ halt 18446744073709551616 0", "unread"),
            ("------ halt 18446744073709551615 0", "over"),
            ("------ halt 0 0", "ok"),
            ("1RA1RA undecided steps", "open"),
            ("1RA1RA translated R 1 2 1 1", "ok"),
            ("1RA1RA translated R 1 2", "ok"),
            ("1RA1RA translated R 2 5 3 1", "ok"),
            ("1RA1RA translated R 1 2 1 2", "bad"),
            ("1RA1RA translated R 1 2 2 1", "bad"),
            ("1RA1RA translated R 1 2 18446744073709551615 1", "bad"),
            ("1RA1RA translated R 2 2 0 1", "bad"),
            ("1RA1RA translated R 1 2 1", "unread"),
            ("1RA1RA translated R 1 2 01 1", "unread"),
            ("1RA1RA translated R 1 2 18446744073709551616 1", "unread"),
            ("1RB0RA_1LA--- translated R 1 5 2 2", "ok"),
            ("1RB0RA_1LA--- translated R 1 5 2 1", "bad"),
            ("refused 775", "open"),
            ("refused 776", "unread"),
            ("refused 0", "unread"),
            ("refused 01", "unread"),
            ("refused 50", "open"),
            ("refused", "unread"),
            ("1RA1RA halt 1", "unread"),
            (
                "0RA0RA_0RA0RA_0RA0RA_0RA0RA_0RA0RA_0RA0RA_0RA0RA translated R \
              18446744073709551615 18446744073709551615",
                "over",
            ),
            ("1RA1RA cycler 18446744073709551615 0", "over"),
            ("1RA1RA translated R 18446744073709551615 1", "over"),
            ("1RA1RA cycler 1 65535", "bad"),
            ("1RA1RA cycler 1 65536", "over"),
            ("1RA1RA cycler 1 1000001", "over"),
            ("1RA1RA translated R 1 65535", "ok"),
            ("1RA1RA translated R 1 65536", "over"),
            ("1RA1RA translated L 1 2", "bad"),
            ("1RB1LB_1LA1RZ halt 1000000 4", "bad"),
            ("1RB1LB_1LA1RZ halt 1000001 4", "over"),
            ("1RB1LB_1LA1RZ halt 6 18446744073709551615", "bad"),
            ("1RB1LB_1LA1RZ cycler 7 8", "bad"),
            ("1RB1LB_1LA1RZ translated R 1 7", "bad"),
            ("1RZ--- halt 0 0", "bad"),
            ("1RZ--- halt 1 0", "bad"),
            ("1RZ--- translated R 0 1", "bad"),
            ("1RZ--- cycler 0 1", "bad"),
            ("1RA1RA halt 65535 0", "bad"),
            ("1RA1RA halt 65536 0", "over"),
            ("0RB---_0LA--- backward 301 4", "over"),
            ("0RB---_0LA--- backward 300 4", "bad"),
            ("0RB---_0LA--- backward 2 1000001", "over"),
            ("0RB---_0LA--- backward 2 1000000", "bad"),
            ("0RB---_0LA--- backward 2 5", "bad"),
            ("0RB---_0LA--- backward 0 0", "bad"),
        ],
    ),
    (
        SMALL,
        &[
            ("refused 775", "open"),
            ("refused 776", "unread"),
            ("1RB2LB1RZ_2LA2RB1LB halt 38 9", "ok"),
            ("1RB2LB1RZ_2LA2RB1LB halt 38 8", "bad"),
            ("2RA---1LA translated R 1 2", "ok"),
            ("2RA---1LA translated R 2 5", "ok"),
            ("2RA---1LA translated R 0 2", "bad"),
            ("4LB1LB0RA4LB3LB_3RA0RA4RA1RA--- backward 4 13", "ok"),
            ("4LB1LB0RA4LB3LB_3RA0RA4RA1RA--- backward 4 12", "bad"),
        ],
    ),
    (
        [5, 65_536, 300, 1_000_000],
        &[("1RB1LB_1LA1RZ halt 6 4", "over")],
    ),
    (
        [1_000_000, 3, 2, 1_000_000],
        &[("1RB1LB_1LA1RZ halt 6 4", "over")],
    ),
    (
        [1_000_000, 65_536, 300, 3],
        &[("0RB---_0LA--- backward 2 4", "over")],
    ),
    (
        [1_000_000, 65_536, 300, 4],
        &[("0RB---_0LA--- backward 2 4", "ok")],
    ),
    ([6, 4, 2, 0], &[("1RB1LB_1LA1RZ halt 6 4", "ok")]),
    ([1_000_000, 1, 1, 1_000_000], &[("1RZ--- halt 1 1", "ok")]),
    ([1_000_000, 65_536, 0, 0], &[("1RA1RA backward 0 0", "ok")]),
];

#[test]
fn lines_are_answered(rt: HostRuntime) {
    for (four, claims) in &CLAIMS {
        let limits = limits_of(&rt, four);
        for (line, answer) in *claims {
            let (summary, output) = checked_on_both(&rt, &limits, line.as_bytes());
            assert_eq!(rt;
                output.as_slice().strip_suffix(b"\n"),
                Some(answer.as_bytes()),
                "{line}"
            );
            assert_eq!(rt; summary.clean, *answer == "ok" || *answer == "open");
        }
    }
}

/// Lists at these limits, their output, and whether it is clean.
static LISTS: [(&[u8], &[u8], bool); 3] = [
    (b"", b"", true),
    (
        b"1RA1RA undecided cells\nrefused 14\n",
        b"open\nopen\n",
        true,
    ),
    (
        b"------ halt 0 0\n\n1RA1RA undecided steps\n------ halt 0 0",
        b"ok\nunread\nopen\nok\n",
        false,
    ),
];

#[test]
fn lists_are_answered(rt: HostRuntime) {
    for (input, output, clean) in &LISTS {
        let (summary, written) = checked_on_both(&rt, &limits_of(&rt, &DEFAULTS), input);
        assert_eq!(rt; written.as_slice(), *output);
        assert_eq!(rt; summary.clean, *clean);
    }
}

#[test]
fn sums_up_claims(rt: HostRuntime) {
    let limits = Limits::new(1_000, 64, 10, 100).expect(&rt, "limits");
    let input = b"1RB1LB_1LA1RZ halt 6 4\n0RB---_0LA--- backward 2 4\n1RA1RA undecided cells\n";
    let (summary, output) = checked_on_both(&rt, &limits, input);
    assert_eq!(rt; output.as_slice(), b"ok\nok\nopen\n".as_slice());
    let peak = Meter {
        steps: 6,
        most_cells: 4,
        nodes: 4,
        most_levels: 2,
    };
    assert_eq!(rt; summary, Summary { clean: true, peak });
}

/// The start of a line, the next byte, and the length of the line.
static UNREAD: [(&[u8], u8, usize); 10] = [
    (b"------ halt 0 0", b'0', 104),
    (b"------ halt 0 0", b'0', 1_022),
    (b"------ halt 0 0", b'0', 1_023),
    (b"------ halt 0 0", b'0', 1_024),
    (b"------ halt 0 0", b'0', 1_025),
    (b"------ halt 0 0", b'0', 20_000),
    (b"------ halt 0 0", b' ', 1_000_015),
    (b"", b'x', 1_023),
    (b"", b'x', 1_024),
    (b"1RZ--- halt 1 1", 255, 16),
];

/// Such a line, and a right claim.
fn unread_and_ok(
    rt: &impl AllocGlobal,
    begin: &[u8],
    filler: u8,
    long: usize,
) -> Result<Vec<u8>, AllocError> {
    let mut input: Vec<u8> = begin.to_vec(rt.alloc())?;
    input.resize(long, filler)?;
    input.extend_from_slice(b"\n------ halt 0 0")?;
    Ok(input)
}

/// Such a line is unread, and the next line is answered.
#[test]
fn other_lines_are_unread(rt: HostRuntime) -> Result<(), Fail> {
    let limits = Limits::new(9, 9, 5, 9).expect(&rt, "limits");
    for (begin, filler, long) in &UNREAD {
        let input = unread_and_ok(&rt, begin, *filler, *long)?;
        let (summary, output) = checked_on_both(&rt, &limits, input.as_slice());
        assert_eq!(rt; output.as_slice(), b"unread\nok\n".as_slice(), "{long}");
        assert!(rt; !summary.clean);
    }
    Ok(())
}
