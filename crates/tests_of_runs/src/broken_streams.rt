//! Lists and traces over broken streams: the output so far, and the fault.

use crate::support::engine::Engine;
use crate::support::rows::{ALL, DEFAULTS, limits_of};
use crate::support::streams::{Pieces, Sink, assert_failed};
use bb_cert::ring_pair;
use bb_lines::fault::Fault;
use bb_lines::watched::Watched;
use bb_machine::Limits;
use bb_run::{ring_bench, run_check, run_trace};
use bb_tape::MapTape;
use std::io::ErrorKind;
use std::process::Abort;

/// What is done with a list.
#[derive(Clone, Copy, Debug)]
enum Work {
    Decide(Engine),
    Check,
}

/// A list that isn't clean, and its output; how many bytes of output there are once so many were read, from each
/// complete line on.
struct List {
    works: &'static [Work],
    input: &'static [u8],
    output: &'static [u8],
    written: &'static [(usize, usize)],
}

static LISTS: [List; 2] = [
    List {
        works: &[
            Work::Decide(Engine::InTurn),
            Work::Decide(Engine::InSinglePass),
        ],
        input: b"------\n\n------",
        output: b"------ halt 0 0\nrefused 1\n------ halt 0 0\n",
        written: &[(7, 16), (8, 26)],
    },
    List {
        works: &[Work::Check],
        input: b"------ halt 0 0\nrefused 1\n\n1RZ--- halt 0",
        output: b"ok\nopen\nunread\nunread\n",
        written: &[(16, 3), (26, 8), (27, 15)],
    },
];

/// Decides or checks a list on rings over these streams, and answers whether it was clean.
fn answered(
    rt: &(impl Abort + AllocGlobal),
    work: Work,
    reader: Pieces,
    sink: &mut Sink,
) -> Result<bool, Fault> {
    let limits = limits_of(rt, &DEFAULTS);
    let mut reader = Watched::new(reader);
    let mut writer = Watched::new(sink);
    let end = match work {
        Work::Decide(engine) => {
            let mut bench = ring_bench(rt.alloc(), &limits).expect(rt, "memory");
            engine.decide(&mut reader, &mut writer, &limits, ALL, &mut bench)
        }
        Work::Check => {
            let (mut pair, mut path) = ring_pair(rt.alloc(), &limits).expect(rt, "memory");
            run_check(&mut reader, &mut writer, &limits, &mut pair, &mut path)
        }
    };
    assert_failed(rt, reader.failed(), end, Fault::Read);
    assert_failed(rt, writer.failed(), end, Fault::Write);
    Ok(end?.clean)
}

/// A list over these streams ends so, and the sink has these bytes then. It is flushed once, at the end.
fn assert_answered(
    rt: &(impl Abort + AllocGlobal),
    work: Work,
    reader: Pieces,
    mut sink: Sink,
    end: Result<bool, Fault>,
    written: &[u8],
) {
    assert_eq!(rt; answered(rt, work, reader, &mut sink), end, "{work:?}");
    assert_eq!(rt; sink.bytes.as_slice(), written, "{work:?}");
    assert_eq!(rt;
        sink.flushes,
        u64::from(end.is_ok() || !sink.can_flush),
        "{work:?}"
    );
}

#[test]
fn a_list_comes_in_any_pieces(rt: HostRuntime) {
    for list in &LISTS {
        for work in list.works {
            for most in [1, list.input.len()] {
                for first in 1..=list.input.len() {
                    let reader = Pieces::of(list.input, first, most);
                    let sink = Sink::of(128, 128);
                    assert_answered(&rt, *work, reader, sink, Ok(false), list.output);
                }
            }
        }
    }
}

/// The output of a list of which so many bytes were read.
fn output_after(list: &List, read: usize) -> &'static [u8] {
    let lines = list.written.iter().rev();
    let written = lines
        .filter(|(from, _)| *from <= read)
        .map(|(_, written)| *written)
        .next();
    list.output
        .get(..written.unwrap_or(0))
        .unwrap_or(list.output)
}

#[test]
fn a_read_of_a_list_fails(rt: HostRuntime) {
    for list in &LISTS {
        for work in list.works {
            for error in [ErrorKind::Interrupted, ErrorKind::BrokenPipe] {
                for k in 0..=list.input.len() {
                    let reader = Pieces::failing(list.input, 1, k as u64, error);
                    let sink = Sink::of(128, 128);
                    let written = output_after(list, k);
                    assert_answered(&rt, *work, reader, sink, Err(Fault::Read), written);
                }
            }
        }
    }
    for engine in Engine::BOTH {
        let reader = Pieces::failing(b"1RZ---\n0RB", 10, 1, ErrorKind::Interrupted);
        let sink = Sink::of(128, 128);
        let work = Work::Decide(engine);
        assert_answered(
            &rt,
            work,
            reader,
            sink,
            Err(Fault::Read),
            b"1RZ--- halt 1 1\n",
        );
    }
}

#[test]
fn a_write_of_a_list_fails(rt: HostRuntime) {
    for list in &LISTS {
        for work in list.works {
            for (room, _) in list.output.iter().enumerate() {
                let reader = Pieces::of(list.input, 64, 64);
                let sink = Sink::of(128, room);
                assert_answered(
                    &rt,
                    *work,
                    reader,
                    sink,
                    Err(Fault::Write),
                    &list.output[..room],
                );
            }
        }
    }
    for engine in Engine::BOTH {
        let reader = Pieces::of(b"1RZ---", 6, 6);
        let work = Work::Decide(engine);
        assert_answered(
            &rt,
            work,
            reader,
            Sink::of(128, 3),
            Err(Fault::Write),
            b"1RZ",
        );
    }
}

/// A list into writers that accept no byte, can't be flushed, or accept a byte a call.
#[test]
fn a_list_goes_into_odd_sinks(rt: HostRuntime) {
    for list in &LISTS {
        for work in list.works {
            for (sink, end, written) in [
                (Sink::of(0, 128), Err(Fault::Write), b"".as_slice()),
                (Sink::without_flush(), Err(Fault::Write), list.output),
                (Sink::of(1, 128), Ok(false), list.output),
            ] {
                let reader = Pieces::of(list.input, 64, 64);
                assert_answered(&rt, *work, reader, sink, end, written);
            }
        }
    }
}

const MACHINE: &[u8; 13] = b"1RB1LB_1LA1RZ";

const TRACE: &[u8; 72] =
    b"0 A 0 0\n1 B 1 10\n2 A 0 11\n3 B -1 011\n4 A -2 0111\n5 B -1 1111\n6 Z 0 1111\n";

/// Traces up to ten steps on an ordered map, and answers whether the trace was clean.
fn traced(rt: &(impl Abort + AllocGlobal), line: &[u8], sink: &mut Sink) -> Result<bool, Fault> {
    let limits = Limits::new(10, 9, 0, 0).expect(rt, "limits");
    let mut tape = MapTape::new(rt.alloc(), limits.cells());
    let mut writer = Watched::new(sink);
    let end = run_trace(line, &limits, &mut tape, &mut writer);
    assert_failed(rt, writer.failed(), end, Fault::Write);
    Ok(end?.clean)
}

/// A machine's trace up to ten steps, on an ordered map, ends so, and the sink has these bytes then.
fn assert_traced(
    rt: &(impl Abort + AllocGlobal),
    line: &[u8],
    mut sink: Sink,
    end: Result<bool, Fault>,
    written: &[u8],
) {
    assert_eq!(rt; traced(rt, line, &mut sink), end);
    assert_eq!(rt; sink.bytes.as_slice(), written);
}

#[test]
fn a_write_of_a_trace_fails(rt: HostRuntime) {
    for room in 0..TRACE.len() {
        let sink = Sink::of(128, room);
        assert_traced(&rt, MACHINE, sink, Err(Fault::Write), &TRACE[..room]);
    }
    for room in 0..11 {
        let sink = Sink::of(128, room);
        assert_traced(
            &rt,
            b"1RB1LB_1L",
            sink,
            Err(Fault::Write),
            &b"refused 10\n"[..room],
        );
    }
}

/// A trace into writers that accept no byte, can't be flushed, or accept a byte a call.
#[test]
fn a_trace_goes_into_odd_sinks(rt: HostRuntime) {
    assert_traced(&rt, MACHINE, Sink::of(0, 128), Err(Fault::Write), b"");
    assert_traced(
        &rt,
        MACHINE,
        Sink::without_flush(),
        Err(Fault::Write),
        TRACE,
    );
    assert_traced(&rt, MACHINE, Sink::of(1, 128), Ok(true), TRACE);
}
