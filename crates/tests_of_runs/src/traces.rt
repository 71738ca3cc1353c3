//! Traces, with lines worked out by hand.

use crate::support::tracing::traced_on_both;
use bb_lines::watched::Watched;
use bb_machine::Limits;
use bb_run::{Summary, run_sampled_trace};
use bb_sim::Meter;
use bb_tape::RingTape;

/// A line, the limits of steps and cells, the output, and whether the summary is clean.
type Row = (&'static [u8], u64, u64, &'static [u8], bool);

static TRACES: [Row; 13] = [
    (
        b"1RB1LB_1LA1RZ",
        10,
        65_536,
        b"0 A 0 0\n1 B 1 10\n2 A 0 11\n3 B -1 011\n4 A -2 0111\n5 B -1 1111\n6 Z 0 1111\n",
        true,
    ),
    (
        b"1RB1LB_1LA1RZ",
        2,
        65_536,
        b"0 A 0 0\n1 B 1 10\n2 A 0 11\n",
        true,
    ),
    (b"1RZ---", 3, 65_536, b"0 A 0 0\n1 Z 1 1\n", true),
    (b"1RA1RA", 5, 2, b"0 A 0 0\n1 A 1 10\n", false),
    (b"1RA1RA", 1, 2, b"0 A 0 0\n1 A 1 10\n", true),
    (b"1RB1LB_1LA1RC", 2, 65_536, b"refused 14\n", false),
    (b"", 2, 65_536, b"refused 1\n", false),
    (
        b"0LB---_0RC1RC_1RA---",
        6,
        65_536,
        b"0 A 0 0\n1 B -1 00\n2 C 0 00\n3 A 1 010\n4 B 0 010\n5 C 1 010\n6 A 2 0110\n",
        true,
    ),
    (b"1RA1RA", 0, 65_536, b"0 A 0 0\n", true),
    (b"1RZ---", 5, 1, b"0 A 0 0\n1 Z 1 1\n", true),
    (b"1LB---_0LA0LA", 2, 2, b"0 A 0 0\n1 B -1 01\n", false),
    (b"------", 9, 9, b"0 A 0 0\n", true),
    (b"1RZ---\n", 2, 9, b"refused 7\n", false),
];

const NOTHING_COUNTED: Meter = Meter {
    steps: 0,
    most_cells: 0,
    nodes: 0,
    most_levels: 0,
};

#[test]
fn traces_on_both_tapes(rt: HostRuntime) {
    for (line, steps, cells, output, clean) in &TRACES {
        let limits = Limits::new(*steps, *cells, 0, 0).expect(&rt, "limits");
        let summary = Summary {
            clean: *clean,
            peak: NOTHING_COUNTED,
        };
        let (end, written) = traced_on_both(&rt, line, &limits);
        assert_eq!(rt; written.as_slice(), *output);
        assert_eq!(rt; end, Ok(summary));
    }
}

/// A line, the limits of steps and cells, the first printed step and the distance of the others, the output,
/// and whether the summary is clean.
type SampledRow = (&'static [u8], u64, u64, u64, u64, &'static [u8], bool);

static SAMPLED_TRACES: [SampledRow; 14] = [
    (
        b"1RB1LB_1LA1RZ",
        10,
        64,
        0,
        1,
        b"0 A 0 0 0\n1 B 1 0 10\n2 A 0 0 11\n3 B -1 -1 011\n4 A -2 -2 0111\n5 B -1 -2 1111\n6 Z 0 -2 1111\n",
        true,
    ),
    (
        b"1RB1LB_1LA1RZ",
        10,
        64,
        0,
        2,
        b"0 A 0 0 0\n2 A 0 0 11\n4 A -2 -2 0111\n6 Z 0 -2 1111\n",
        true,
    ),
    (
        b"1RB1LB_1LA1RZ",
        10,
        64,
        1,
        4,
        b"1 B 1 0 10\n5 B -1 -2 1111\n",
        true,
    ),
    (b"1RB1LB_1LA1RZ", 10, 64, 6, 9, b"6 Z 0 -2 1111\n", true),
    (b"1RB1LB_1LA1RZ", 10, 64, 7, 1, b"", true),
    (
        b"1RB1LB_1LA1RZ",
        4,
        64,
        0,
        3,
        b"0 A 0 0 0\n3 B -1 -1 011\n",
        true,
    ),
    (
        b"1RB1LB_1LA1RZ",
        10,
        3,
        0,
        3,
        b"0 A 0 0 0\n3 B -1 -1 011\n",
        false,
    ),
    (b"1RB1LB_1LA1RZ", 10, 3, 4, 1, b"", false),
    (b"1RB1LB_1LA1RZ", 10, 64, 2, u64::MAX, b"2 A 0 0 11\n", true),
    (b"1RB1LB_1LA1RZ", 10, 64, u64::MAX, u64::MAX, b"", true),
    (b"1RB1LB_1LA1RC", 10, 64, 5, 2, b"refused 14\n", false),
    (b"1RZ---", 1, 1, 1, 1, b"1 Z 1 0 1\n", true),
    (b"1RA1RA", 2, 2, 1, 1, b"1 A 1 0 10\n", false),
    (b"------", 9, 9, 0, 2, b"0 A 0 0 0\n", true),
];

#[test]
fn sampled_traces(rt: HostRuntime) {
    for (line, steps, cells, from, every, output, clean) in &SAMPLED_TRACES {
        if *every == 0 {
            continue;
        }
        let limits = Limits::new(*steps, *cells, 0, 0).expect(&rt, "limits");
        let mut tape = RingTape::new(rt.alloc(), *cells).expect(&rt, "memory");
        let mut writer = Watched::new(Vec::new(rt.alloc()));
        let end = run_sampled_trace(line, &limits, *from, *every, &mut tape, &mut writer);
        let summary = Summary {
            clean: *clean,
            peak: NOTHING_COUNTED,
        };
        assert_eq!(rt; writer.into_inner().as_slice(), *output);
        assert_eq!(rt; end, Ok(summary));
    }
}
