//! The limits and the plans of the tests.

use bb_decide::Plan;
use bb_machine::Limits;
use std::process::Abort;

/// Limits of steps, cells, levels and nodes.
pub(crate) type Four = [u64; 4];

pub(crate) const DEFAULTS: Four = [1_000_000, 65_536, 300, 1_000_000];

pub(crate) const SMALL: Four = [200, 40, 20, 300];

pub(crate) fn limits_of(rt: &impl Abort, four: &Four) -> Limits {
    Limits::new(four[0], four[1], four[2], four[3]).expect(rt, "limits")
}

pub(crate) const SIMULATION: Plan = Plan {
    cyclers: false,
    translated: false,
    backward: false,
};

pub(crate) const CYCLERS: Plan = Plan {
    cyclers: true,
    translated: false,
    backward: false,
};

pub(crate) const PAIRS: Plan = Plan {
    cyclers: true,
    translated: true,
    backward: false,
};

pub(crate) const TREES: Plan = Plan {
    cyclers: false,
    translated: false,
    backward: true,
};

pub(crate) const ALL: Plan = Plan {
    cyclers: true,
    translated: true,
    backward: true,
};

pub(crate) const NO_CYCLERS: Plan = Plan {
    cyclers: false,
    translated: true,
    backward: true,
};

pub(crate) const NO_TRANSLATED: Plan = Plan {
    cyclers: true,
    translated: false,
    backward: true,
};
