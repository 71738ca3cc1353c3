//! Backward reasoning: from the halting entries back, until nothing could come before.
ghost use Rattle.std.specs.Prelude.{◌≡◌, IfOk, IfSome, IsTrue, OnErr};
ghost use Rattle.bb_sim.specs.Run.{Never};
ghost use Rattle.bb_cert.specs.claims.Claim.{Claim};
ghost use Rattle.bb_tree.specs.Path.{depth_of};
ghost use Rattle.bb_cert.specs.verdict.Verdict.{HasNumbers};
ghost use Rattle.bb_tree.specs.WalkMeter.{IsWithinWalk};
ghost use Rattle.bb_decide.specs.Backward.{CountsTree, FindsTree, without_nodes};
ghost use Rattle.bb_decide.specs.Bench.{BenchHasCells};

use crate::bench::Bench;
use bb_cert::{Verdict, walk};
use bb_machine::{Limits, Machine};
use bb_sim::Meter;
use bb_tape::{Memory, Tape};

/// The levels and the nodes of the backward tree, if it ends within the limits and the start matches none of
/// its nodes. Resets the meter's levels and nodes; it makes no step.
///
/// After an error the contents of the tape are unspecified; the next call resets it.
pub fn backward<T: Tape>(
    machine: &Machine,
    limits: &Limits,
    bench: &mut Bench<T>,
    meter: &mut Meter,
) -> Result<Option<Verdict>, Memory>
    requires tapes { BenchHasCells T.view limits.now.cells bench.old }
    requires path { depth_of bench.old.path ≡ limits.now.depth }
    ensures found { IfOk result (FindsTree machine.now limits.now) }
    ensures counted { IfOk result (CountsTree limits.now meter.old meter.new) }
    ensures within { IsWithinWalk limits.now.depth limits.now.nodes (without_nodes meter.old) meter.new }
    ensures never { IfOk result (λ found. IfSome found (λ verdict. Never machine.now)) }
    ensures claim { IfOk result (λ found. IfSome found (Claim machine.now)) }
    ensures numbers { IfOk result (λ found. IfSome found HasNumbers) }
    ensures tapes { BenchHasCells T.view limits.now.cells bench.new }
    ensures path { depth_of bench.new.path ≡ depth_of bench.old.path }
    ensures memory { OnErr result (IsTrue T.GROWS) }
{
    meter.nodes = 0;
    meter.most_levels = 0;
    let found = walk(
        machine,
        limits.depth(),
        limits.nodes(),
        &mut bench.run,
        &mut bench.path,
        meter,
    )?;
    match found {
        Some((levels, nodes)) => Ok(Some(Verdict::Backward { levels, nodes })),
        None => Ok(None),
    }
}
