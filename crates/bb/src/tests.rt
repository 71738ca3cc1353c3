//! Command lines from end to end, over bytes in memory, with answers worked out by hand.

use crate::progress::Counts;
use crate::serve::{serve, serve_in_single_pass, status};
use arrayvec::ArrayString;
use bb_command::{Asked, Numbers, Stop, ask, parse_numbers};
use bb_lines::fault::Fault;
use bb_lines::watched::Watched;
use bb_machine::limits::{MAX_CELLS, MAX_LEVELS, MAX_NODES, MAX_STEPS};
use bb_run::Summary;
use std::fmt::Write;
use std::process::Abort;
use std::test::Fail;

/// The request of a command line, or the reason for none.
fn ask_with(rt: &(impl Abort + AllocGlobal), words: &[&'static str]) -> Result<Asked, Stop> {
    ask(rt.alloc(), words_of(rt, words).as_slice())
}

/// The words of a command line, the program's name first.
fn words_of(rt: &(impl Abort + AllocGlobal), words: &[&'static str]) -> Vec<&'static str> {
    let mut all: Vec<&str> = ["bb"].to_vec(rt.alloc()).expect(rt, "memory");
    all.extend_from_slice(words).expect(rt, "memory");
    all
}

/// The result and the output of a command line.
fn done(
    rt: &(impl Abort + AllocGlobal),
    words: &[&'static str],
    input: &[u8],
) -> (Result<Summary, Fault>, Vec<u8>) {
    let asked = ask_with(rt, words).expect(rt, "a command line");
    let mut reader = Watched::new(input);
    let mut writer = Watched::new(Vec::new(rt.alloc()));
    let end = serve_in_single_pass(
        rt.alloc(),
        &asked,
        &mut reader,
        &mut writer,
        &Counts::default(),
    );
    (end, writer.into_inner())
}

/// The same by `serve`: its summary has the cost by the definition of a verdict.
fn served(
    rt: &(impl Abort + AllocGlobal),
    words: &[&'static str],
    input: &[u8],
) -> (Result<Summary, Fault>, Vec<u8>) {
    let asked = ask_with(rt, words).expect(rt, "a command line");
    let mut reader = Watched::new(input);
    let mut writer = Watched::new(Vec::new(rt.alloc()));
    let end = serve(rt.alloc(), &asked, &mut reader, &mut writer);
    (end, writer.into_inner())
}

#[test]
fn refuses_long_lines(rt: HostRuntime) -> Result<(), Fail> {
    let mut input: Vec<u8> = b"0RA0RA_0RA0RA_0RA0RA_0RA0RA_0RA0RA_0RA0RA_0RA0RA_0RA0RA".to_vec(
        rt.alloc(),
    )?;
    input.resize(input.len() + 1_000_000, b'x')?;
    let (_, written) = done(&rt, &["decide"], input.as_slice());
    assert_eq!(rt; written.as_slice(), b"refused 56\n".as_slice());
    let mut input: Vec<u8> = Vec::new(rt.alloc());
    input.resize(1_000_000, b'_')?;
    input.extend_from_slice(b"\n------")?;
    let (_, written) = done(&rt, &["decide"], input.as_slice());
    assert_eq!(rt;
        written.as_slice(),
        b"refused 1\n------ halt 0 0\n".as_slice()
    );
    Ok(())
}

/// The program's stored run.
#[test]
fn three_lines_are_decided_by_running_alone(rt: HostRuntime) {
    let words = ["decide", "--no-cyclers", "--no-translated", "--no-backward"].as_slice();
    let input = b"1RB1LB_1LA1RZ\n1RA1RA\n1rB1LB\n".as_slice();
    for (end, written) in [served(&rt, words, input), done(&rt, words, input)] {
        assert_eq!(rt;
            written.as_slice(),
            b"1RB1LB_1LA1RZ halt 6 4\n1RA1RA undecided cells\nrefused 2\n".as_slice()
        );
        assert_eq!(rt; status(&end), 1);
        let summary = end.expect(&rt, "no fault");
        assert!(rt; !summary.clean);
        assert_eq!(rt; summary.peak.steps, 65_535);
        assert_eq!(rt; summary.peak.most_cells, 65_536);
    }
}

/// The cost by the definition of a verdict. One run writes the same for no more steps.
#[test]
fn serving_counts_the_cost(rt: HostRuntime) {
    for (words, counts) in [
        (["decide"].as_slice(), [1_000_004, 0, 0]),
        (["decide", "--steps=3"].as_slice(), [9, 4, 2]),
        (["decide", "--no-cyclers"].as_slice(), [2_000_000, 4, 2]),
    ] {
        let (end, written) = served(&rt, words, b"0RB---_0LA---");
        let (in_single_pass, same) = done(&rt, words, b"0RB---_0LA---");
        assert_eq!(rt; written.as_slice(), same.as_slice());
        let peak = end.expect(&rt, "no fault").peak;
        assert_eq!(rt; [peak.steps, peak.nodes, peak.most_levels], counts);
        assert!(rt; in_single_pass.expect(&rt, "no fault").peak.steps <= peak.steps);
    }
}

/// The words of an end, and its status.
#[test]
fn ends_have_statuses(rt: HostRuntime) {
    for (input, code) in [
        (b"".as_slice(), 0),
        (b"1RA1RA\n", 0),
        (b"\n", 1),
        (b"1RZ---\n1RB1LB_1LA1RC\n", 1),
    ] {
        assert_eq!(rt; status(&done(&rt, &["decide"], input).0), code);
    }
    for fault in [Fault::Memory, Fault::Read, Fault::Write] {
        assert_eq!(rt; status(&Err(fault)), 3);
    }
    assert_eq!(rt; Stop::Memory.status(), 3);
    assert_eq!(rt; stop(&rt, &["decide", "--cells=4"]).status(), 2);
    assert_eq!(rt; stop(&rt, &["decide", "--cels=4"]).status(), 2);
    assert_eq!(rt; stop(&rt, &["--help"]).status(), 0);
}

#[test]
fn asks_all_deciders(rt: HostRuntime) {
    let words = ["decide", "--steps=1000", "--cells=599"].as_slice();
    let input = b"1RB1LB_1LA1RZ\n0RB---_0LA---\n1RA1RA\n".as_slice();
    let (end, written) = done(&rt, words, input);
    assert_eq!(rt;
        written.as_slice(),
        b"1RB1LB_1LA1RZ halt 6 4\n0RB---_0LA--- cycler 2 4\n1RA1RA translated R 1 2 1 1\n".as_slice()
    );
    assert_eq!(rt; status(&end), 0);
}

#[test]
fn checks(rt: HostRuntime) {
    let claims = b"1RB1LB_1LA1RZ halt 6 4\n0RB---_0LA--- backward 2 4\nrefused 14\n".as_slice();
    for (words, output, code) in [
        (["check"].as_slice(), b"ok\nok\nopen\n".as_slice(), 0),
        (["check", "--steps=5"].as_slice(), b"over\nok\nopen\n", 1),
        (
            ["check", "--cells=3", "--depth=2"].as_slice(),
            b"over\nok\nopen\n",
            1,
        ),
        (["check", "--nodes=3"].as_slice(), b"ok\nover\nopen\n", 1),
    ] {
        let (end, written) = done(&rt, words, claims);
        assert_eq!(rt; written.as_slice(), output);
        assert_eq!(rt; status(&end), code);
    }
}

#[test]
fn runs_the_champion_of_five_states(rt: HostRuntime) {
    let words = ["decide", "--steps=50000000"].as_slice();
    let (_, written) = done(&rt, words, b"1RB1LC_1RC1RB_1RD0LE_1LA1LD_1RZ0LA\n");
    assert_eq!(rt;
        written.as_slice(),
        b"1RB1LC_1RC1RB_1RD0LE_1LA1LD_1RZ0LA halt 47176870 4098\n".as_slice()
    );
}

#[test]
fn takes_the_greatest_limits(rt: HostRuntime) {
    let (_, written) = done(&rt, &["decide", "--cells=67108864"], b"1RZ---\n");
    assert_eq!(rt; written.as_slice(), b"1RZ--- halt 1 1\n".as_slice());
}

#[test]
fn traces(rt: HostRuntime) {
    let words = ["trace", "--upto", "3", "1RZ---"].as_slice();
    let asked = ask_with(&rt, words).expect(&rt, "a command line");
    let mut writer = Watched::new(Vec::new(rt.alloc()));
    let mut reader = Watched::new(b"not read".as_slice());
    let end = serve_in_single_pass(
        rt.alloc(),
        &asked,
        &mut reader,
        &mut writer,
        &Counts::default(),
    );
    assert_eq!(rt;
        writer.into_inner().as_slice(),
        b"0 A 0 0\n1 Z 1 1\n".as_slice()
    );
    assert_eq!(rt; status(&end), 0);
    assert_eq!(rt; reader.into_inner(), b"not read".as_slice());
}

#[test]
fn refuses_limits(rt: HostRuntime) {
    for (words, text) in [
        (
            ["decide", "--cells=4", "--depth=3"].as_slice(),
            "bb: depth does not fit in cells",
        ),
        (
            ["decide", "--cells=4"].as_slice(),
            "bb: depth does not fit in cells",
        ),
        (
            ["decide", "--nodes=1000000000001", "--steps=1000000000001"].as_slice(),
            "bb: steps out of range",
        ),
        (
            ["decide", "--cells=67108865"].as_slice(),
            "bb: cells out of range",
        ),
        (
            ["decide", "--depth=10001", "--cells=1"].as_slice(),
            "bb: depth out of range",
        ),
        (
            ["decide", "--nodes=1000000000001"].as_slice(),
            "bb: nodes out of range",
        ),
        (
            ["check", "--cells=4"].as_slice(),
            "bb: depth does not fit in cells",
        ),
        (
            ["check", "--steps=1000000000001"].as_slice(),
            "bb: steps out of range",
        ),
        (
            ["trace", "--upto=1000000000001", "1RA1RA"].as_slice(),
            "bb: steps out of range",
        ),
        (
            ["trace", "--upto=1", "--cells=0", "1RA1RA"].as_slice(),
            "bb: cells out of range",
        ),
    ] {
        match stop(&rt, words) {
            Stop::Limits(fault) => {
                let shown = fault.to_string(rt.alloc()).expect(&rt, "memory");
                assert_eq!(rt; shown.as_str(), text);
            }
            other => panic!(rt; "{other:?}"),
        }
    }
}

/// Words, their numbers for steps, cells, levels and nodes, accepted or not, and whether they request a
/// trace.
static GIVEN: [(&[&str], [u64; 4], bool); 4] = [
    (
        &["decide", "--cells=4", "--depth=3"],
        [1_000_000, 4, 3, 1_000_000],
        false,
    ),
    (
        &["check", "--steps=1000000000001", "--nodes", "7"],
        [1_000_000_000_001, 65_536, 300, 7],
        false,
    ),
    (
        &["trace", "--upto", "5", "--cells=0", "1RA1RA"],
        [5, 0, 0, 0],
        true,
    ),
    (&["decide"], [1_000_000, 65_536, 300, 1_000_000], false),
];

/// With ample memory the numbers are there: no clause promises memory.
#[test]
fn gives_the_numbers_of_limits(rt: HostRuntime) {
    for (words, given, is_of_trace) in &GIVEN {
        let numbers = numbers_of(&rt, words);
        assert_eq!(rt;
            [numbers.steps, numbers.cells, numbers.depth, numbers.nodes],
            *given
        );
        assert_eq!(rt; numbers.is_of_trace, *is_of_trace);
    }
}

/// The numbers of these words.
fn numbers_of(rt: &(impl Abort + AllocGlobal), words: &[&'static str]) -> Numbers {
    parse_numbers(rt.alloc(), words_of(rt, words).as_slice()).expect(rt, "numbers")
}

/// Wrong command lines, and a part of the message for each.
static NO_COMMAND_LINES: [(&[&str], &str); 14] = [
    (&["decide", "--steps=x"], "--steps"),
    (&["decide", "--cells=18446744073709551616"], "--cells"),
    (&["decide", "--cels=4"], "--cels"),
    (&["decide", "a", "more"], "more"),
    (&["check", "--no-cyclers"], "--no-cyclers"),
    (&["check", "a", "more"], "more"),
    (&["trace"], "--upto"),
    (&["trace", "1RA1RA"], "--upto"),
    (&["trace", "--upto", "1"], "MACHINE"),
    (
        &["trace", "--upto", "1", "--depth", "0", "1RA1RA"],
        "--depth",
    ),
    (&["trace", "--upto", "1", "1RA1RA", "1RB1RB"], "1RB1RB"),
    (&["help", "halt"], "halt"),
    (&["help", "trace", "--upto"], "help"),
    (&[], "Usage"),
];

#[test]
fn refuses_words(rt: HostRuntime) {
    for (words, named) in &NO_COMMAND_LINES {
        let stop = stop(&rt, words);
        assert_eq!(rt; stop.status(), 2);
        match &stop {
            Stop::Words(text) => assert!(rt; text.as_str().contains(*named), "{named}: {text}"),
            other => panic!(rt; "{other:?}"),
        }
    }
}

#[test]
fn tells_what_it_is_asked(rt: HostRuntime) {
    for (words, part) in [
        (["--help"].as_slice(), "| bb decide "),
        (["decide", "--help"].as_slice(), "halt STEPS SCORE"),
        (["check", "-h"].as_slice(), "| bb check "),
        (["trace", "--help"].as_slice(), "STEP STATE POSITION CELLS"),
        (["help"].as_slice(), "| bb decide "),
        (["help", "trace"].as_slice(), "STEP STATE POSITION CELLS"),
        (["--version"].as_slice(), "bb 0.2.0\n"),
    ] {
        let stop = stop(&rt, words);
        assert!(rt; matches!(&stop, Stop::Help(text) if text.as_str().contains(part)));
        assert_eq!(rt; stop.status(), 0);
    }
}

/// Help is one literal: each range in it is the one of the limits' constants.
#[test]
fn help_gives_the_ranges_of_limits(rt: HostRuntime) -> Result<(), Fail> {
    for (least, most) in [
        (0, MAX_STEPS),
        (1, MAX_CELLS),
        (0, MAX_LEVELS),
        (0, MAX_NODES),
    ] {
        let mut range: ArrayString<50> = ArrayString::new();
        write!(range, ", {least} to {most} ")?;
        let stop = stop(&rt, &["decide", "--help"]);
        assert!(rt; matches!(&stop, Stop::Help(text) if text.as_str().contains(range.as_str())));
    }
    Ok(())
}

fn stop(rt: &(impl Abort + AllocGlobal), words: &[&'static str]) -> Stop {
    match ask_with(rt, words) {
        Ok(_) => panic!(rt; "asked"),
        Err(stop) => stop,
    }
}
