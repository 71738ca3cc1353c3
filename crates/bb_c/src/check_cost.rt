//! The greatest cost of checking a list.
ghost use Rattle.std.specs.Prelude.{◌≡◌, ◌⊎◌, ◌↔◌};
ghost use Rattle.bb_lines.specs.Lines.{lines};
ghost use Rattle.bb_machine.specs.Limits.{IsAccepted};
ghost use Rattle.bb_run.specs.Cost.{IsCheckCost};
ghost use Rattle.bb_c.specs.Call.{bounds_of};

use crate::buffer::{CLEAN, LIMITS};
use bb_machine::Limits;
use bb_run::{CheckCost, cost_of_check};

/// Puts the most that checking a list can cost into `cost`: the steps and nodes that its claims name, without
/// a run. The list's lines end at a newline; a last line without one counts if it isn't empty.
#[unsafe(no_mangle)]
pub extern "C" fn bb_check_cost(
    steps: u64,
    cells: u64,
    depth: u64,
    nodes: u64,
    list: &[u8],
    cost: &mut CheckCost,
) -> u32
    ensures cost { result ≡ CLEAN
        → IsCheckCost (bounds_of steps cells depth nodes) (lines list.now) cost.new }
    ensures limits { (result ≡ LIMITS) ↔ (IsAccepted (bounds_of steps cells depth nodes) → ⊥) }
    ensures untouched { result ≡ LIMITS → cost.new ≡ cost.old }
    ensures status { (result ≡ CLEAN) ⊎ (result ≡ LIMITS) }
{
    let Ok(limits) = Limits::new(steps, cells, depth, nodes) else {
        return LIMITS;
    };
    *cost = cost_of_check(list, &limits);
    CLEAN
}
