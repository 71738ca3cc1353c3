//! Steps counted after an allocation failure: all those made.
//!
//! The machine writes a 1 in each of its six steps, the last into Z. It never reads a 2, which keeps its runs
//! on tapes: machines of two symbols run in registers. The search for cycles keeps its
//! configurations 1, 2 and 4. Its first record on the right comes at step 1, its first two on the left at
//! steps 3 and 4; each is kept.

use crate::failed_allocations::refusing_bench;
use crate::support::counting_tape::NEVER;
use crate::support::rows::ALL;
use bb_decide::{SpreadKeys, cyclers, decide_in_single_pass, translated};
use bb_machine::{Limits, Machine};
use bb_sim::{Meter, simulate};
use std::process::Abort;

const MACHINE: &[u8] = b"1RB1LB---_1LA1RZ---";

/// The kinds of calls that make a run.
#[derive(Clone, Copy, Debug)]
enum Call {
    Simulate,
    Cyclers,
    Translated,
    DecideInSinglePass,
}

/// The steps counted by a call after an allocation failure, by its tape, that of the run, the right or the
/// left one, after so many of its calls that allocate.
fn counted(rt: &(impl Abort + AllocGlobal), call: Call, before: [u64; 3]) -> u64 {
    let limits = Limits::new(30, 64, 10, 100).expect(rt, "limits");
    let machine = Machine::read(MACHINE).expect(rt, "a machine");
    let mut bench = refusing_bench(rt, &limits, before);
    let mut meter = Meter::new();
    let refused = match call {
        Call::Simulate => simulate(&machine, &mut bench.run, &limits, &mut meter).is_err(),
        Call::Cyclers => cyclers(&machine, &limits, &mut bench, &mut meter).is_err(),
        Call::Translated => translated(&machine, &limits, &mut bench, &mut meter).is_err(),
        Call::DecideInSinglePass => {
            decide_in_single_pass(
                &machine,
                &limits,
                ALL,
                &SpreadKeys,
                &mut bench,
                &mut meter,
            ).is_err()
        }
    };
    assert!(rt; refused, "{call:?} after {before:?}");
    meter.steps
}

#[test]
fn steps_before_a_refused_write_are_counted(rt: HostRuntime) {
    for call in [
        Call::Simulate,
        Call::Cyclers,
        Call::Translated,
        Call::DecideInSinglePass,
    ] {
        for made in 0..6 {
            assert_eq!(rt; counted(&rt, call, [made, NEVER, NEVER]), made, "{call:?}");
        }
    }
}

#[test]
fn steps_before_a_refused_copy_are_counted(rt: HostRuntime) {
    for (kept, made) in [1, 2, 4].into_iter().enumerate() {
        let before = [NEVER, kept as u64, NEVER];
        assert_eq!(rt; counted(&rt, Call::Cyclers, before), made);
    }
    for call in [Call::Translated, Call::DecideInSinglePass] {
        assert_eq!(rt; counted(&rt, call, [NEVER, 0, NEVER]), 1, "{call:?}");
        assert_eq!(rt; counted(&rt, call, [NEVER, NEVER, 0]), 3, "{call:?}");
        assert_eq!(rt; counted(&rt, call, [NEVER, NEVER, 1]), 4, "{call:?}");
    }
}
