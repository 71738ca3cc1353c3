//! Two runs of one machine, compared.
ghost use Rattle.std.specs.Prelude.{◌≡◌, ◌↔◌, IsTrue};
ghost use Rattle.bb_sim.specs.Runner.{position_of, state_of};

use crate::runner::Runner;
use bb_tape::Tape;

/// Whether two runners, each on its tape, are at the same configuration. Compares the tapes only if state and
/// position agree.
#[inline]
pub fn is_same<T: Tape>(runner: &Runner, tape: &T, other: &Runner, other_tape: &T) -> bool
    ensures { IsTrue result ↔ ((state_of runner.now ≡ state_of other.now)
        × (position_of runner.now ≡ position_of other.now)
        × ((T.view tape.now).content ≡ (T.view other_tape.now).content)) }
{
    runner.position() == other.position()
        && runner.state() == other.state()
        && has_same_cells(tape, other_tape)
}

/// Whether two tapes have the same cells. It is not inlined, so that a caller's loop keeps its registers.
#[cold]
#[inline(never)]
fn has_same_cells<T: Tape>(tape: &T, other: &T) -> bool
    ensures { IsTrue result ↔ ((T.view tape.now).content ≡ (T.view other.now).content) }
{
    tape.same(other)
}
