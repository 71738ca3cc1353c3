//! Deciding in a single pass with one key for all positions, so that different tapes often have one fingerprint: the
//! verdicts stay the same.

use crate::decided_lists::decided_lists;
use crate::support::rows::{ALL, Four, limits_of};
use bb_cert::{Line, read_line};
use bb_decide::{FingerprintKeys, Plan, SpreadKeys, decide_in_single_pass};
use bb_run::ring_bench;
use bb_sim::Meter;
use std::process::Abort;
use std::test::Fail;

/// One key for all positions. With key 1 the fingerprint is the sum of the symbols, with key 0 it is 0.
#[derive(Drop)]
struct SameKey(u64);

impl FingerprintKeys for SameKey {
    ghost key_of = { λ keys position. keys.0 };

    fn key(&self, _position: i64) -> u64 {
        self.0
    }
}

/// Decides the machine of a verdict line with its verdict, and returns the steps.
fn steps_with<K: FingerprintKeys>(
    rt: &(impl Abort + AllocGlobal),
    four: &Four,
    plan: Plan,
    keys: &K,
    line: &str,
) -> Result<u64, Fail> {
    let limits = limits_of(rt, four);
    let mut bench = ring_bench(rt.alloc(), &limits)?;
    let Some(Line::Claim(machine, verdict)) = read_line(line.as_bytes()) else {
        panic!(rt; "{line} is a claim");
    };
    let mut meter = Meter::new();
    let decided = decide_in_single_pass(&machine, &limits, plan, keys, &mut bench, &mut meter)?;
    assert_eq!(rt; decided, verdict, "{line}");
    Ok(meter.steps)
}

/// At the smaller limits. Where fingerprints collide, it costs more.
#[test]
fn weak_keys_keep_each_verdict(rt: HostRuntime) -> Result<(), Fail> {
    let mut collisions: u64 = 0;
    for (plan, lists) in decided_lists() {
        for (four, lines) in lists.iter().filter(|(four, _)| four[0] <= 1_000) {
            for line in *lines {
                // A halt, a cycle or records found with cyclers on are also found with all deciders on.
                let is_found = plan.cyclers && !plan.backward && !line.contains(" undecided ");
                let plan = if is_found { ALL } else { plan };
                let steps = steps_with(&rt, four, plan, &SpreadKeys, line)?;
                for key in [0, 1] {
                    let weak = steps_with(&rt, four, plan, &SameKey(key), line)?;
                    collisions = collisions.saturating_add(u64::from(steps < weak));
                }
            }
        }
    }
    assert!(rt; collisions > 0);
    Ok(())
}
