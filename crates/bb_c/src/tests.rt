//! Calls with ample memory: each succeeds, with bytes worked out by hand. No clause promises memory, so a
//! call with no other answer than `MEMORY` would be proved.

use crate::buffer::{CLEAN, LIMITS, MEMORY, NOT_CLEAN, SHORT};
use crate::check_cost::bb_check_cost;
use crate::checking::{bb_check, bb_check_line};
use crate::deciding::{bb_decide, bb_decide_line};
use crate::lines::bb_line_of;
use crate::recurrence::bb_recurrence;
use crate::tracing::bb_trace;
use bb_run::CheckCost;
use std::process::Abort;

/// How many bytes the caller's buffer has.
const ROOM: usize = 400;

/// The result of a call: its status, and the bytes of its reply.
fn assert_reply(rt: &impl Abort, status: u32, out: &[u8], count: usize, wanted: (u32, &[u8])) {
    assert_eq!(rt; status, wanted.0);
    assert!(rt; count <= out.len());
    assert_eq!(rt; &out[..count], wanted.1);
}

#[test]
fn statuses_are_numbered(rt: HostRuntime) {
    assert_eq!(rt; [CLEAN, NOT_CLEAN, LIMITS, MEMORY, SHORT], [0, 1, 2, 3, 4]);
}

/// Lists, and the status and the replies to each.
static LISTS: [(&[u8], u32, &[u8]); 3] = [
    (
        b"1RB1LB_1LA1RZ\n1RA1RA\n0RB---_0LA---\n",
        0,
        b"1RB1LB_1LA1RZ halt 6 4\n1RA1RA translated R 1 2 1 1\n0RB---_0LA--- cycler 2 4\n",
    ),
    (
        b"1rB1LB\n1RB0RA_1LA---",
        1,
        b"refused 2\n1RB0RA_1LA--- translated R 4 8 2 1\n",
    ),
    (b"", 0, b""),
];

#[test]
fn lists_are_decided(rt: HostRuntime) {
    for (list, status, replies) in &LISTS {
        let mut out = [0; ROOM];
        let mut count = 0;
        let found = bb_decide(
            rt.alloc(),
            1_000,
            64,
            30,
            1_000,
            true,
            true,
            true,
            list,
            &mut out,
            &mut count,
        );
        assert_reply(&rt, found, &out, count, (*status, *replies));
    }
}

/// Lines, with the status and the reply to each. The cells are more than the first try has: one halt found by
/// it, and one machine for the second try.
static LINES: [(&[u8], u32, &[u8]); 4] = [
    (b"1RB1LB_1LA1RZ", 0, b"1RB1LB_1LA1RZ halt 6 4"),
    (b"0RB---_0LA---", 0, b"0RB---_0LA--- cycler 2 4"),
    (b"1RA---_------", 0, b"1RA---_------ translated R 1 2 1 1"),
    (b"1rB1LB", 1, b"refused 2"),
];

#[test]
fn lines_are_decided(rt: HostRuntime) {
    for cells in [64, 4_096] {
        for (line, status, reply) in &LINES {
            let mut out = [0; ROOM];
            let mut count = 0;
            let found = bb_decide_line(
                rt.alloc(),
                1_000,
                cells,
                30,
                1_000,
                true,
                true,
                true,
                line,
                &mut out,
                &mut count,
            );
            assert_reply(&rt, found, &out, count, (*status, *reply));
        }
    }
}

/// A true claim, a false one, one beyond the limits, a refusal, and no claim.
const CLAIMS: &[u8] = b"1RB1LB_1LA1RZ halt 6 4
1RB1LB_1LA1RZ halt 6 5
1RA1RA translated R 1001 1002 1 1
refused 14
1RA1RA
";

#[test]
fn claims_are_checked(rt: HostRuntime) {
    let mut out = [0; ROOM];
    let mut count = 0;
    let status = bb_check(
        rt.alloc(),
        1_000,
        64,
        30,
        1_000,
        CLAIMS,
        &mut out,
        &mut count,
    );
    assert_reply(
        &rt,
        status,
        &out,
        count,
        (1, b"ok\nbad\nover\nopen\nunread\n"),
    );
}

/// Claims, and the status and the answer to each.
static ANSWERS: [(&[u8], u32, &[u8]); 6] = [
    (b"1RB1LB_1LA1RZ halt 6 4", 0, b"ok"),
    (b"1RB1LB_1LA1RZ halt 6 5", 1, b"bad"),
    (b"1RA1RA translated R 1001 1002 1 1", 1, b"over"),
    (b"0RB---_0LA--- backward 2 4", 0, b"ok"),
    (b"refused 14", 0, b"open"),
    (b"1RA1RA", 1, b"unread"),
];

#[test]
fn each_claim_is_checked(rt: HostRuntime) {
    for (line, status, answer) in &ANSWERS {
        let mut out = [0; ROOM];
        let mut count = 0;
        let found = bb_check_line(rt.alloc(), 1_000, 64, 30, 1_000, line, &mut out, &mut count);
        assert_reply(&rt, found, &out, count, (*status, *answer));
    }
}

#[test]
fn machines_are_traced(rt: HostRuntime) {
    let line = b"1RB1LB_1LA1RZ".as_slice();
    let mut out = [0; ROOM];
    let mut count = 0;
    let status = bb_trace(rt.alloc(), 10, 64, 0, 3, line, &mut out, &mut count);
    assert_reply(
        &rt,
        status,
        &out,
        count,
        (0, b"0 A 0 0 0\n3 B -1 -1 011\n6 Z 0 -2 1111\n"),
    );
}

/// Claims, one of them over the limit of steps, one out of order, and lines without a claim.
const COSTS: &[u8] =
    b"1RB1LB_1LA1RZ halt 6 4\n1RA1RA translated R 1 200\n0RB---_0LA--- backward 3 250\n\
0RB---_0LA--- cycler 5 5\nrefused 2\n1RB1LB_1LA1RZ halt 1001 4\n0RB---_0LA--- cycler 2 250\n";

#[test]
fn costs_are_added(rt: HostRuntime) {
    let mut cost = CheckCost::default();
    let status = bb_check_cost(1_000, 64, 30, 1_000, COSTS, &mut cost);
    assert_eq!(rt; status, CLEAN);
    assert_eq!(rt; (cost.steps, cost.nodes), (456, 250));
    assert_eq!(rt; (cost.most, cost.line), (250, 2));
    assert_eq!(rt;
        bb_check_cost(1_000, 0, 30, 1_000, COSTS, &mut cost),
        LIMITS
    );
}

/// A pair, a machine that quasihalts, the same by a pair two periods apart, a pair beyond the limits, no
/// pair, and no claim; and the replies.
const PAIRS: &[u8] = b"1RB---_1RA--- translated R 2 4 2 1
1RB---_1RB--- translated R 1 2 1 1
1RB---_1RB--- translated R 1 3
1RA1RA translated R 1001 1002 1 1
1RB1LB_1LA1RZ halt 6 4
1RA1RA
";

static RECURRENCES: [(bool, &[u8]); 2] = [
    (
        false,
        b"1RB---_1RA--- recurs 0 2 2 * *
1RB---_1RB--- recurs 1 1 1 0 * quasihalts 1
1RB---_1RB--- recurs 1 1 1 0 * quasihalts 1
over
open
unread
",
    ),
    (
        true,
        b"1RB---_1RA--- recurs 0 2 2 * * entries * - * -
1RB---_1RB--- recurs 1 1 1 0 * quasihalts 1 entries 0 - * -
1RB---_1RB--- recurs 1 1 1 0 * quasihalts 1 entries 0 - * -
over
open
unread
",
    ),
];

#[test]
fn recurrences_are_found(rt: HostRuntime) {
    for (entries, replies) in &RECURRENCES {
        let mut out = [0; ROOM];
        let mut count = 0;
        let status = bb_recurrence(rt.alloc(), 1_000, 64, *entries, PAIRS, &mut out, &mut count);
        assert_reply(&rt, status, &out, count, (1, *replies));
    }
}

#[test]
fn lines_of_machines_are_found(rt: HostRuntime) {
    let mut out = [0; ROOM];
    let mut count = 0;
    let list = b"1LA1RB_1LB0RA\n1RZ---\n1RB2LB\n";
    let status = bb_line_of(rt.alloc(), 1_000, 64, list, &mut out, &mut count);
    let replies = b"1LA1RB_1LB0RA line 1RA---_------ mirror AB 01 runs
1RZ--- line ------ same A 01 halt 0 0 1RZ
unread
";
    assert_reply(&rt, status, &out, count, (0, replies));
}
