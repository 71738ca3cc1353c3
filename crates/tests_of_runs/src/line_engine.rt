//! The engine with an easy reply: memory refused, high cost and long lines.
ghost use Rattle.std.specs.Prelude.{◌≡◌, ◌+◌, ◌^◌, ◌-◌, ◌∷◌, ◌++◌, [], take, min, true};
ghost use Rattle.std.proofs.Common.{rules};
ghost use Rattle.std.proofs.lemmas.Grind.{common_steps};

use crate::support::streams::{Pieces, Sink};
use arrayvec::ArrayVec;
use bb_lines::fault::Fault;
use bb_lines::lines::run;
use bb_lines::responder::{HIGH_COST, REPLY, Responder};
use bb_lines::watched::Watched;
use std::alloc::AllocError;
use std::io::{Read, Result};
use std::process::Abort;
use std::test::Fail;

const INPUT: &[u8; 14] = b"------\n\n------";

const OUTPUT: &[u8; 16] = b"-----!\n!\n-----!\n";

/// Replies with the first five bytes of a line and a `!`, and counts the lines.
#[derive(Drop)]
struct Shout<'a> {
    // How many lines are answered before memory is refused.
    before_refusal: u64,
    // The cost of each answer, and of the last one.
    answer_cost: u64,
    last_cost: u64,
    seen: &'a mut u64,
}

impl Responder for Shout<'_> {
    ghost replies_with = { λ _ line text. text ≡ take 5 line ++ 33 ∷ [] };

    ghost saw = { λ a _ b. b.seen.now ≡ min (a.seen.now + 1) (2 ^ 64 - 1) };

    ghost cost = { λ a. a.last_cost };

    ghost keeps = { λ a b. b.seen.ghost_name ≡ a.seen.ghost_name };

    ghost is_ready = { λ _. Unit {0} };

    ghost GROWS = { true };

    ghost KEEP = { 5 };

    ghost keeps_at_first = { Prim.search rules };

    ghost keeps_on = { Prim.search rules };

    ghost keeps_reply = { Prim.search rules };

    ghost keeps_some = { Prim.search rules };

    ghost keeps_few = { Prim.search rules };

    ghost reply_by_kept = { Prim.search (rules, common_steps) };

    ghost saw_by_kept = { Prim.search rules };

    fn bytes_kept(&self) -> usize {
        5
    }

    fn respond(
        &mut self,
        line: &[u8],
        text: &mut ArrayVec<u8, REPLY>,
    ) -> std::result::Result<u64, AllocError> {
        if self.before_refusal == 0 {
            return Err(AllocError);
        }
        self.before_refusal -= 1;
        *self.seen = self.seen.saturating_add(1);
        text.try_extend_from_slice(line).unwrap();
        text.push(b'!');
        self.last_cost = self.answer_cost;
        Ok(self.answer_cost)
    }
}

/// The input in pieces: one of `first` bytes, and then of at most `most`.
fn pieces_of(first: usize, most: usize) -> Pieces {
    Pieces::of(INPUT, first, most)
}

/// How a run over a reader and a sink ended.
#[derive(Drop)]
struct Ended {
    end: std::result::Result<(), Fault>,
    sink: Sink,
    seen: u64,
}

fn shout_all<R: Read + Drop>(reader: R, mut sink: Sink, before_refusal: u64, cost: u64) -> Ended {
    let mut reader = Watched::new(reader);
    let mut writer = Watched::new(&mut sink);
    let mut seen = 0;
    let mut shout = Shout {
        before_refusal,
        answer_cost: cost,
        last_cost: 0,
        seen: &mut seen,
    };
    let end = run(&mut reader, &mut writer, &mut shout);
    Ended { end, sink, seen }
}

#[test]
fn answers_in_any_pieces(rt: HostRuntime) {
    for first in 1..15 {
        for most in [1, 2, 7, 64] {
            let ended = shout_all(pieces_of(first, most), Sink::of(64, 64), 9, 0);
            assert_eq!(rt; ended.end, Ok(()), "{first} and {most}");
            assert_eq!(rt;
                ended.sink.bytes.as_slice(),
                OUTPUT.as_slice(),
                "{first} and {most}"
            );
            assert_eq!(rt; ended.seen, 3);
        }
    }
}

#[test]
fn writes_the_replies_before_a_failed_allocation(rt: HostRuntime) {
    for (answers, written) in [(0, 0), (1, 7), (2, 9)] {
        let ended = shout_all(pieces_of(14, 14), Sink::of(64, 64), answers, 0);
        assert_eq!(rt; ended.end, Err(Fault::Memory), "after {answers}");
        assert_eq!(rt;
            ended.sink.bytes.as_slice(),
            &OUTPUT[..written],
            "after {answers}"
        );
        assert_eq!(rt; ended.seen, answers);
    }
}

#[test]
fn writes_high_cost_at_once(rt: HostRuntime) {
    for (cost, writes) in [(0, 2), (HIGH_COST, 2), (HIGH_COST + 1, 3)] {
        let ended = shout_all(pieces_of(14, 14), Sink::of(64, 64), 9, cost);
        assert_eq!(rt; ended.end, Ok(()));
        assert_eq!(rt; ended.sink.writes, writes);
    }
}

/// A line of so many `x`, with no newline.
#[derive(Drop)]
struct Long {
    left: usize,
}

impl Read for Long {
    fn read(&mut self, buf: &mut [u8]) -> Result<usize> {
        let n = self.left.min(buf.len());
        buf[..n].fill(b'x');
        self.left -= n;
        Ok(n)
    }
}

#[test]
fn keeps_the_prefix_of_a_long_line(rt: HostRuntime) {
    for left in [4, 5, 6, 16384, 1_000_000] {
        let ended = shout_all(Long { left }, Sink::of(64, 64), 9, 0);
        let wanted = if left == 4 {
            &b"xxxx!\n"[..]
        } else {
            &b"xxxxx!\n"[..]
        };
        assert_eq!(rt; ended.sink.bytes.as_slice(), wanted, "{left}");
        assert_eq!(rt; ended.seen, 1);
    }
}

#[test]
fn tells_faults(rt: HostRuntime) -> std::result::Result<(), Fail> {
    for (fault, text) in [
        (Fault::Memory, "bb: out of memory"),
        (Fault::Read, "bb: read failed"),
        (Fault::Write, "bb: write failed"),
    ] {
        assert_eq!(rt; format!(in rt.alloc(); "{fault}")?.as_str(), text);
    }
    Ok(())
}
