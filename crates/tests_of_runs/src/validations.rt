//! Validations of replies to lists, worked out by hand.

use bb_run::{KindCounts, Mismatch, ReplyCheck, validate_replies};

/// A line of each kind, as often as its kind's place among the counts.
static ALL_KINDS: &[u8] = b"1RZ---\n\
    0RB---_0LA---\n0RB---_0LA---\n\
    1RA1RA\n1RA1RA\n1RA1RA\n\
    0RB---_0LA---\n0RB---_0LA---\n0RB---_0LA---\n0RB---_0LA---\n\
    1RB1LB_1LA1RZ\n1RB1LB_1LA1RZ\n1RB1LB_1LA1RZ\n1RB1LB_1LA1RZ\n1RB1LB_1LA1RZ\n\
    1RA1RA\n1RA1RA\n1RA1RA\n1RA1RA\n1RA1RA\n1RA1RA\n\
    \n1\n1R\n1RA\n_\n1rB1LB\n1RZ";

static THEIR_REPLIES: &[u8] = b"1RZ--- halt 1 1\n\
    0RB---_0LA--- cycler 2 4\n0RB---_0LA--- cycler 0 2\n\
    1RA1RA translated R 1 2 1 1\n1RA1RA translated R 1 2\n1RA1RA translated L 5 4 3 2\n\
    0RB---_0LA--- backward 2 4\n0RB---_0LA--- backward 2 4\n0RB---_0LA--- backward 2 4\n\
    0RB---_0LA--- backward 2 4\n\
    1RB1LB_1LA1RZ undecided steps\n1RB1LB_1LA1RZ undecided steps\n1RB1LB_1LA1RZ undecided steps\n\
    1RB1LB_1LA1RZ undecided steps\n1RB1LB_1LA1RZ undecided steps\n\
    1RA1RA undecided cells\n1RA1RA undecided cells\n1RA1RA undecided cells\n1RA1RA undecided cells\n\
    1RA1RA undecided cells\n1RA1RA undecided cells\n\
    refused 1\nrefused 2\nrefused 3\nrefused 4\nrefused 1\nrefused 2\nrefused 4\n";

#[test]
fn each_kind_is_counted(rt: HostRuntime) {
    let counts = KindCounts {
        halt: 1,
        cycler: 2,
        translated: 3,
        backward: 4,
        undecided_steps: 5,
        undecided_cells: 6,
        refused: 7,
    };
    assert!(rt; validate_replies(ALL_KINDS, THEIR_REPLIES) == Ok(ReplyCheck { counts, lines: 28 }));
}

/// Lists, replies to them, and the first line without one.
static WITHOUT: [(&[u8], &[u8], u64); 13] = [
    (b"1RZ---\n1RA1RA\n", b"1RZ--- halt 1 1\n", 1),
    (
        b"1RZ---\n1RA1RA\n",
        b"1RA1RA undecided steps\n1RZ--- halt 1 1\n",
        0,
    ),
    (
        b"1RZ---\n1RA1RA\n",
        b"1RZ--- halt 1 1\n1RA1RA undecided steps",
        1,
    ),
    (b"1RZ---\n", b"1RZ--- halt 1 1\n1RZ--- halt 1 1\n", 1),
    (b"1RZ---", b"1RZ--- halt 1 1\n\n", 1),
    (b"", b"\n", 0),
    (b"\n", b"", 0),
    (b"1RZ---\n1rB1LB\n", b"1RZ--- halt 1 1\nrefused 3\n", 1),
    (b"1RZ---\n", b"refused 7\n", 0),
    (b"1RZ--- halt\n", b"1RZ--- halt 1 1\n", 0),
    (b"1RZ--\n", b"1RZ--- halt 1 1\n", 0),
    (b"1RZ---\n", b"1RZ--- halt 01 1\n", 0),
    (b"1RZ---\n", b"1RZ--- halt 18446744073709551616 1\n", 0),
];

#[test]
fn the_first_line_without_a_reply_is_told(rt: HostRuntime) {
    for (list, replies, line) in &WITHOUT {
        assert!(rt; validate_replies(list, replies) == Err(Mismatch { line: *line }));
    }
}
