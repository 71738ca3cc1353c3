//! The steps counted by the definition of a verdict, and the verdicts under each plan.

use crate::support::deciding::{assert_decided, decided_each_way};
use crate::support::rows::{
    ALL, CYCLERS, DEFAULTS, Four, NO_CYCLERS, PAIRS, SIMULATION, limits_of,
};
use bb_decide::Plan;
use std::test::Fail;

const IN_ONE_CELL: Four = [1_000_000, 1, 1, 1_000_000];

/// Limits, a plan, the verdict line of a machine, and the steps counted.
static STEPS: [(Four, Plan, &str, u64); 12] = [
    (DEFAULTS, ALL, "1RB1LB_1LA1RZ halt 6 4", 6),
    (DEFAULTS, SIMULATION, "1RB1LB_1LA1RZ halt 6 4", 6),
    (DEFAULTS, ALL, "0RB---_0LA--- cycler 2 4", 1_000_004),
    (
        [3, 65_536, 300, 1_000_000],
        ALL,
        "0RB---_0LA--- backward 2 4",
        9,
    ),
    (
        DEFAULTS,
        NO_CYCLERS,
        "0RB---_0LA--- backward 2 4",
        2_000_000,
    ),
    (DEFAULTS, CYCLERS, "0RB---_0LA--- cycler 2 4", 1_000_004),
    (DEFAULTS, CYCLERS, "1RB0RB_1LA1LA cycler 4 8", 1_000_008),
    (DEFAULTS, ALL, "1RA1RA translated R 1 2 1 1", 131_072),
    (
        DEFAULTS,
        PAIRS,
        "1RB---_1RC---_1RA--- translated R 4 7 3 1",
        131_077,
    ),
    (
        DEFAULTS,
        PAIRS,
        "0LB---_0RC1RC_1RA--- translated R 3 6 1 2",
        393_214,
    ),
    (IN_ONE_CELL, ALL, "1RA1RA backward 0 0", 0),
    (IN_ONE_CELL, PAIRS, "1RA1RA undecided cells", 0),
];

#[test]
fn steps_are_counted(rt: HostRuntime) -> Result<(), Fail> {
    for (four, plan, line, steps) in &STEPS {
        let machine = line.split(' ').next().ok_or("a machine")?;
        let limits = limits_of(&rt, four);
        let (summary, output) = decided_each_way(&rt, &limits, *plan, machine.as_bytes());
        assert!(rt; output.starts_with(line.as_bytes()) && output.len() == line.len() + 1);
        assert_eq!(rt; summary.peak.steps, *steps, "{line}");
        if line.ends_with(" backward 2 4") {
            assert_eq!(rt; (summary.peak.nodes, summary.peak.most_levels), (4, 2));
        }
    }
    Ok(())
}

/// The deciders in use, in their order, and the verdict lines of four machines.
static BY_PLAN: [((bool, bool, bool), &[&str]); 8] = [
    (
        (true, true, true),
        &[
            "1RB1LB_1LA1RZ halt 6 4",
            "0RB---_0LA--- cycler 2 4",
            "1RA1RA translated R 1 2 1 1",
            "1RB0RB_1LA1LA cycler 4 8",
        ],
    ),
    (
        (true, true, false),
        &[
            "1RB1LB_1LA1RZ halt 6 4",
            "0RB---_0LA--- cycler 2 4",
            "1RA1RA translated R 1 2 1 1",
            "1RB0RB_1LA1LA cycler 4 8",
        ],
    ),
    (
        (true, false, true),
        &[
            "1RB1LB_1LA1RZ halt 6 4",
            "0RB---_0LA--- cycler 2 4",
            "1RA1RA backward 0 0",
            "1RB0RB_1LA1LA cycler 4 8",
        ],
    ),
    (
        (true, false, false),
        &[
            "1RB1LB_1LA1RZ halt 6 4",
            "0RB---_0LA--- cycler 2 4",
            "1RA1RA undecided cells",
            "1RB0RB_1LA1LA cycler 4 8",
        ],
    ),
    (
        (false, true, true),
        &[
            "1RB1LB_1LA1RZ halt 6 4",
            "0RB---_0LA--- backward 2 4",
            "1RA1RA translated R 1 2 1 1",
            "1RB0RB_1LA1LA backward 0 0",
        ],
    ),
    (
        (false, true, false),
        &[
            "1RB1LB_1LA1RZ halt 6 4",
            "0RB---_0LA--- undecided steps",
            "1RA1RA translated R 1 2 1 1",
            "1RB0RB_1LA1LA undecided steps",
        ],
    ),
    (
        (false, false, true),
        &[
            "1RB1LB_1LA1RZ halt 6 4",
            "0RB---_0LA--- backward 2 4",
            "1RA1RA backward 0 0",
            "1RB0RB_1LA1LA backward 0 0",
        ],
    ),
    (
        (false, false, false),
        &[
            "1RB1LB_1LA1RZ halt 6 4",
            "0RB---_0LA--- undecided steps",
            "1RA1RA undecided cells",
            "1RB0RB_1LA1LA undecided steps",
        ],
    ),
];

#[test]
fn each_plan_says_what_it_finds(rt: HostRuntime) -> Result<(), Fail> {
    for ((cyclers, translated, backward), lines) in &BY_PLAN {
        let plan = Plan {
            cyclers: *cyclers,
            translated: *translated,
            backward: *backward,
        };
        assert_decided(&rt, plan, [(DEFAULTS, *lines)].as_slice())?;
    }
    Ok(())
}
