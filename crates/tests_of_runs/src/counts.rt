//! The counts of a list's lines.

use crate::support::rows::ALL;
use bb_cert::ring_pair;
use bb_lines::watched::Watched;
use bb_machine::Limits;
use bb_run::{
    AnswerCounts, VerdictCounts, ring_bench, run_check_with_counts, run_decide_in_single_pass,
};

#[test]
fn verdicts_are_counted(rt: HostRuntime) {
    let limits = Limits::new(4, 64, 10, 100).expect(&rt, "limits");
    let input = b"1RZ---\n\
        0RB---_0LA---\n0RB---_0LA---\n\
        1RA1RA\n1RA1RA\n1RA1RA\n\
        1RB1LC_1RC1RB_1RD0LE_1LA1LD_1RB0LA\n1RB1LC_1RC1RB_1RD0LE_1LA1LD_1RB0LA\n\
        1RB1LC_1RC1RB_1RD0LE_1LA1LD_1RB0LA\n1RB1LC_1RC1RB_1RD0LE_1LA1LD_1RB0LA\n\
        1RB1LB_1LA1RZ\n1RB1LB_1LA1RZ\n1RB1LB_1LA1RZ\n1RB1LB_1LA1RZ\n1RB1LB_1LA1RZ\n\
        \n1\n1R\n1RA\n_\n1rB1LB\n";
    let mut bench = ring_bench(rt.alloc(), &limits).expect(&rt, "a bench");
    let mut reader = Watched::new(input.as_slice());
    let mut writer = Watched::new(Vec::new(rt.alloc()));
    let counts = VerdictCounts::default();
    let end = run_decide_in_single_pass(
        &mut reader,
        &mut writer,
        &limits,
        ALL,
        &mut bench,
        &counts,
    );
    assert!(rt; end.is_ok());
    assert_eq!(rt;
        [
            counts.halt.get(),
            counts.cycler.get(),
            counts.translated.get(),
            counts.backward.get(),
            counts.undecided.get(),
            counts.refused.get(),
        ],
        [1, 2, 3, 4, 5, 6]
    );
}

#[test]
fn answers_are_counted(rt: HostRuntime) {
    let limits = Limits::new(4, 64, 10, 100).expect(&rt, "limits");
    let (mut pair, mut path) = ring_pair(rt.alloc(), &limits).expect(&rt, "memory");
    let input = b"1RZ--- halt 1 1\n\
        1RZ--- halt 2 1\n1RZ--- halt 1 2\n\
        1RZ--- halt 5 1\n1RB1LB_1LA1RZ halt 6 4\n1RA1RA cycler 1 5\n\
        1RA1RA undecided cells\n1RA1RA undecided steps\nrefused 1\nrefused 2\n\
        \n1RZ---\nrefused\nundecided\n1RA1RA halt 1\n";
    let mut reader = Watched::new(input.as_slice());
    let mut writer = Watched::new(Vec::new(rt.alloc()));
    let counts = AnswerCounts::default();
    let end = run_check_with_counts(
        &mut reader,
        &mut writer,
        &limits,
        &mut pair,
        &mut path,
        &counts,
    );
    assert!(rt; end.is_ok());
    assert_eq!(rt;
        [
            counts.ok.get(),
            counts.bad.get(),
            counts.over.get(),
            counts.open.get(),
            counts.unread.get(),
        ],
        [1, 2, 3, 4, 5]
    );
}
