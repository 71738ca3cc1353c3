//! Worked lines: each is read as its claim, and printed back.

use arrayvec::ArrayVec;
use bb_cert::{Extent, LINE_BUFFER, LONGEST, Line, Side, Verdict, Why, line_into, read_line};
use bb_machine::Machine;
use std::process::Abort;
use std::test::Fail;

/// A machine of seven states, and the greatest numbers.
const LONG: &[u8] = b"0RA0RA_0RA0RA_0RA0RA_0RA0RA_0RA0RA_0RA0RA_0RA0RA translated R \
      18446744073709551615 18446744073709551615";

const CLAIMS: [(&[u8], Verdict); 12] = [
    (
        b"1RB1LB_1LA1RZ halt 6 4",
        Verdict::Halt { steps: 6, score: 4 },
    ),
    (
        b"------ halt 18446744073709551615 0",
        Verdict::Halt {
            steps: 18_446_744_073_709_551_615,
            score: 0,
        },
    ),
    (
        b"1RA1RA cycler 18446744073709551615 0",
        Verdict::Cycler {
            first: 18_446_744_073_709_551_615,
            second: 0,
        },
    ),
    (
        b"1RB0RA_1LA--- translated R 4 8",
        Verdict::Translated {
            side: Side::R,
            first: 4,
            second: 8,
            extent: None,
        },
    ),
    (
        b"1LB0LA_1RA--- translated L 4 8",
        Verdict::Translated {
            side: Side::L,
            first: 4,
            second: 8,
            extent: None,
        },
    ),
    (
        b"1LB0LA_1RA--- translated L 4 8 2 1",
        Verdict::Translated {
            side: Side::L,
            first: 4,
            second: 8,
            extent: Some(Extent {
                shift: 2,
                length: 1,
            }),
        },
    ),
    (
        b"1RA1RA translated R 1 2 18446744073709551615 0",
        Verdict::Translated {
            side: Side::R,
            first: 1,
            second: 2,
            extent: Some(Extent {
                shift: 18_446_744_073_709_551_615,
                length: 0,
            }),
        },
    ),
    (
        b"0RB---_0LA--- backward 2 4",
        Verdict::Backward {
            levels: 2,
            nodes: 4,
        },
    ),
    (
        b"1RA1RA backward 0 0",
        Verdict::Backward {
            levels: 0,
            nodes: 0,
        },
    ),
    (
        b"1RB1LB_1LA1RZ undecided steps",
        Verdict::Undecided(Why::Steps),
    ),
    (b"1RA1RA undecided cells", Verdict::Undecided(Why::Cells)),
    (
        b"1RB2LB1RZ_2LA2RB1LB halt 38 9",
        Verdict::Halt {
            steps: 38,
            score: 9,
        },
    ),
];

const REFUSALS: [(&[u8], u32); 6] = [
    (b"refused 1", 1),
    (b"refused 10", 10),
    (b"refused 14", 14),
    (b"refused 49", 49),
    (b"refused 50", 50),
    (b"refused 775", 775),
];

const NO_LINES: [&[u8]; 34] = [
    b"",
    b" ",
    b"refused",
    b"refused ",
    b"refused 0",
    b"refused 01",
    b"refused 776",
    b"refused +1",
    b"refused 1\n",
    b"refused 4294967297",
    b"Refused 1",
    b"halt 6 4",
    b"1RA1RA",
    b"1RA1RA halt",
    b"1RA1RA halt 1",
    b"1RA1RA halt 1  1",
    b"1RA1RA halt 1 1 1",
    b"1RA1RA  halt 1 1",
    b"1RA1RA undecided",
    b"1RA1RA undecided nodes",
    b"1RA1RA translated 1 2",
    b"1RA1RA translated R 1 2 1",
    b"1RA1RA translated R 1 2 1 1 1",
    b"1RA1RA translated R 1 2 1 1 ",
    b"1RA1RA translated R 1 2  1 1",
    b"1RA1RA translated R 1 2 01 1",
    b"1RA1RA translated R 1 2 18446744073709551616 1",
    b"1RA1RA translated r 1 2",
    b"1RB1LB_1LA1RC halt 1 1",
    b"------ halt 00 0",
    b"------ halt 0 +0",
    b"------ halt 0 0 ",
    b"------ halt 0 0\r",
    b"------ halt 18446744073709551616 0",
];

/// The machine and the verdict of a line, which is printed back.
fn claim(rt: &impl Abort, line: &[u8]) -> (Machine, Verdict) {
    assert!(rt; line.len() <= LINE_BUFFER);
    let Some(Line::Claim(machine, verdict)) = read_line(line) else {
        panic!(rt; "{line:?} is a claim");
    };
    let mut out = ArrayVec::<u8, LINE_BUFFER>::new();
    line_into(&machine, &verdict, &mut out);
    assert_eq!(rt; out.as_slice(), line);
    (machine, verdict)
}

#[test]
fn claims_are_read_and_written(rt: HostRuntime) {
    for (line, expected) in CLAIMS {
        let (_, verdict) = claim(&rt, line);
        assert_eq!(rt; verdict, expected, "{line:?}");
    }
}

#[test]
fn refusals_are_read(rt: HostRuntime) {
    for (line, expected) in REFUSALS {
        match read_line(line) {
            Some(Line::Refusal(column)) => assert_eq!(rt; column, expected, "{line:?}"),
            _ => panic!(rt; "{line:?} is a refusal"),
        }
    }
}

#[test]
fn other_bytes_are_no_line(rt: HostRuntime) {
    for bytes in NO_LINES {
        assert!(rt; read_line(bytes).is_none(), "{bytes:?} is no verdict line");
    }
}

/// The longest line of a machine of seven states and two symbols without an extent.
#[test]
fn the_greatest_numbers_are_read_and_written(rt: HostRuntime) {
    assert_eq!(rt; LONG.len(), 103);
    let (machine, verdict) = claim(&rt, LONG);
    assert_eq!(rt; (machine.states(), machine.symbols()), (7, 2));
    let expected = Verdict::Translated {
        side: Side::R,
        first: u64::MAX,
        second: u64::MAX,
        extent: None,
    };
    assert_eq!(rt; verdict, expected);
}

#[test]
fn the_longest_line_is_read_and_written(rt: HostRuntime) -> Result<(), Fail> {
    let mut line = ArrayVec::<u8, LINE_BUFFER>::new();
    for state in 0..25 {
        if state > 0 {
            line.try_push(b'_')?;
        }
        for _ in 0..10 {
            line.try_extend_from_slice(b"0RA")?;
        }
    }
    line.try_extend_from_slice(b" translated R")?;
    for _ in 0..4 {
        line.try_extend_from_slice(b" 18446744073709551615")?;
    }
    assert_eq!(rt; line.len(), 871);
    assert_eq!(rt; line.len(), LONGEST);
    let (machine, _) = claim(&rt, line.as_slice());
    assert_eq!(rt; (machine.states(), machine.symbols()), (25, 10));
    Ok(())
}
