//! Exact recurrences of known machines. The numbers are those of a brute force over all periods, written
//! apart from the crate.

use bb_cert::{Answer, Line, read_line};
use bb_lines::fault::Fault;
use bb_lines::watched::Watched;
use bb_machine::Limits;
use bb_recurrence::{Finding, RecurrenceCounts, ring_finder, run_recurrence};
use bb_run::Summary;
use bb_sim::Meter;
use bb_tape::Memory;
use std::alloc::Global;
use std::process::Abort;

/// The result for a verdict line, and the steps that it took.
fn find_in(alloc: Global, limits: &Limits, line: &[u8]) -> Result<(Finding, u64), Memory> {
    let mut finder = ring_finder(alloc, limits)?;
    let mut meter = Meter::new();
    let Some(Line::Claim(machine, verdict)) = read_line(line) else {
        return Ok((Finding::NoPair, 0));
    };
    let finding = finder.find(&machine, &verdict, limits, &mut meter)?;
    Ok((finding, meter.steps))
}

/// A verdict line, and the start, the period and the shift of its machine. The last lines are of runs around
/// 4,096 steps, up to which each step is recorded. Three of them leave the 64 cells of registers: two between
/// the pair's steps, and one before both.
static PAIRS: [(&[u8], u64, u64, i64); 11] = [
    (b"1RB---_1LB0RB translated L 7 8 1 1", 4, 1, -1),
    (b"1LB0RB_1RA0LC_1RC1RA translated R 60 61 1 1", 55, 1, 1),
    (b"0RB---_0LA--- cycler 2 4", 0, 2, 0),
    (b"0RB---_0LA--- cycler 4 16", 0, 2, 0),
    (b"1RB0RB_1LB1RA translated R 10 19 3 2", 0, 9, 3),
    (b"1RB---_1LB0RB translated L 4090 4096", 4, 1, -1),
    (b"1RB---_1LB0RB translated L 4091 4097", 4, 1, -1),
    (
        b"1RB1LC_1LC0LA_1RD1LB_---0RA translated L 684 861 7 15",
        305,
        177,
        -7,
    ),
    (b"1RB0RB_1LB1RA translated R 10 4033", 0, 9, 3),
    (b"1RB0RB_1LB1RA translated R 4015 4033 6 2", 0, 9, 3),
    (b"1RB0RB_1LB1RA translated R 9010 9028 6 2", 0, 9, 3),
];

#[test]
fn recurrences_are_exact(rt: HostRuntime) {
    let limits = Limits::new(10_000, 16_384, 30, 1_000).expect(&rt, "limits");
    for (line, start, period, shift) in &PAIRS {
        let (found, _) = find_in(rt.alloc(), &limits, line).expect(&rt, "memory");
        let Finding::Recurs(recurrence) = found else {
            panic!(rt; "no recurrence");
        };
        assert_eq!(rt; recurrence.start, *start);
        assert_eq!(rt; recurrence.period, *period);
        assert_eq!(rt; recurrence.shift, *shift);
    }
}

/// A verdict line, and the fewest and the most steps that it takes: the second step of its pair where that is
/// at most 4,096, several periods apart or not. Past it both steps are made once more, and some for the period
/// and the shift.
static COSTS: [(&[u8], u64, u64); 6] = [
    (b"1RB---_1LB0RB translated L 7 8 1 1", 8, 8),
    (b"0RB---_0LA--- cycler 4 16", 16, 16),
    (b"1RB---_1LB0RB translated L 4090 4096", 4096, 4096),
    (
        b"1RB1LC_1LC0LA_1RD1LB_---0RA translated L 684 861 7 15",
        861,
        861,
    ),
    (b"0RB---_0LA--- cycler 2 5", 5, 5),
    (
        b"1RB---_1LB0RB translated L 4091 4097",
        4097 + 4091 + 4097,
        4097 + 4091 + 4097 + 4 * 6 * 2 + 6,
    ),
];

#[test]
fn a_recorded_pair_costs_its_check(rt: HostRuntime) {
    let limits = Limits::new(10_000, 16_384, 30, 1_000).expect(&rt, "limits");
    for (line, fewest, most) in &COSTS {
        let (_, steps) = find_in(rt.alloc(), &limits, line).expect(&rt, "memory");
        assert!(rt; *fewest <= steps && steps <= *most);
    }
}

/// Lines without a confirmed pair.
static OTHERS: [(&[u8], Finding); 3] = [
    (b"0RB---_0LA--- cycler 2 5", Finding::Answered(Answer::Bad)),
    (
        b"0RB---_0LA--- cycler 2 400",
        Finding::Answered(Answer::Over),
    ),
    (b"1RB1LB_1LA1RZ halt 6 4", Finding::NoPair),
];

#[test]
fn other_lines_have_their_answers(rt: HostRuntime) {
    let limits = Limits::new(100, 64, 30, 1_000).expect(&rt, "limits");
    for (line, wanted) in &OTHERS {
        let (found, _) = find_in(rt.alloc(), &limits, line).expect(&rt, "memory");
        assert!(rt; found == *wanted);
    }
}

/// The verdict lines of a list.
static LIST: &[u8] = b"1RB---_1LB0RB translated L 7 8 1 1
1LB0RB_1RA0LC_1RC1RA translated R 60 61 1 1
0RB---_0LA--- cycler 4 16
0RB---_0LA--- cycler 2 5
0RB---_0LA--- cycler 2 400
1RB1LB_1LA1RZ halt 6 4
refused 3
0RB---_0LA---
1RB0RB_1LB1RA translated R 10 19 3 2";

static REPLIES: &[u8] = b"1RB---_1LB0RB recurs 4 1 -1 0 * quasihalts 1
1LB0RB_1RA0LC_1RC1RA recurs 55 1 1 53 54 * quasihalts 55
0RB---_0LA--- recurs 0 2 0 * *
bad
over
open
open
unread
1RB0RB_1LB1RA recurs 0 9 3 * *
";

static REPLIES_WITH_ENTRIES: &[u8] = b"1RB---_1LB0RB recurs 4 1 -1 0 * quasihalts 1 entries 0 - * 3
1LB0RB_1RA0LC_1RC1RA recurs 55 1 1 53 54 * quasihalts 55 entries 43 53 3 54 * 52
0RB---_0LA--- recurs 0 2 0 * * entries * - * -
bad
over
open
open
unread
1RB0RB_1LB1RA recurs 0 9 3 * * entries * * * *
";

/// The end and the replies of a run over the list, and its counts in `counts`.
fn replies_to_list(
    rt: &(impl Abort + AllocGlobal),
    entries: bool,
    counts: &RecurrenceCounts,
) -> (Result<Summary, Fault>, Vec<u8>) {
    let limits = Limits::new(100, 64, 30, 1_000).expect(rt, "limits");
    let mut finder = ring_finder(rt.alloc(), &limits).expect(rt, "memory");
    let mut reader = Watched::new(LIST);
    let mut writer = Watched::new(Vec::new(rt.alloc()));
    let end = run_recurrence(
        &mut reader,
        &mut writer,
        &limits,
        entries,
        &mut finder,
        counts,
    );
    (end, writer.into_inner())
}

#[test]
fn lists_have_their_replies(rt: HostRuntime) {
    let counts = RecurrenceCounts::default();
    let (end, written) = replies_to_list(&rt, false, &counts);
    let summary = end.expect(&rt, "no fault");
    assert_eq!(rt; written.as_slice(), REPLIES);
    assert!(rt; !summary.clean);
    assert_eq!(rt; summary.peak.most_cells, 13);
    let pairs = (counts.recurs.get(), counts.quasihalts.get());
    assert!(rt; pairs == (4, 2));
    let others = (counts.bad.get(), counts.over.get(), counts.open.get());
    assert!(rt; others == (1, 1, 2));
    assert!(rt; counts.unread.get() == 1);
}

#[test]
fn entries_have_their_last_uses(rt: HostRuntime) {
    let counts = RecurrenceCounts::default();
    let (_, written) = replies_to_list(&rt, true, &counts);
    assert_eq!(rt; written.as_slice(), REPLIES_WITH_ENTRIES);
}
