//! Some of the lines of a machine's trace.
ghost use Rattle.std.specs.Prelude.{◌≡◌, ◌≢◌, ◌⊎◌, ◌↔◌, ◌<◌, ◌≤◌, IfOk, IsTrue};
ghost use Rattle.bb_machine.specs.Limits.{IsAccepted};
ghost use Rattle.bb_run.specs.Trace.{IsUncut};
ghost use Rattle.bb_c.specs.Buffer.{IsFilled, IsTooShort, IsUntouched};
ghost use Rattle.bb_c.specs.Call.{bounds_of};
ghost use Rattle.bb_c.specs.Sample.{IsSampledText};

use crate::buffer::{CLEAN, LIMITS, MEMORY, NOT_CLEAN, SHORT, fill_buffer};
use bb_lines::watched::Watched;
use bb_machine::Limits;
use bb_run::run_sampled_trace;
use bb_tape::{Memory, RingTape};
use std::alloc::Global;

/// Writes lines of a machine's trace into a buffer, each with a newline: those of the steps `from`, `from +
/// every` and so on, up to the last one inside the limits. A line has the step, the state, the position of
/// the head, the position of the first cell, and the cells. For a line without a machine it writes the
/// refusal.
#[unsafe(no_mangle)]
pub extern "C" fn bb_trace(
    alloc: Global,
    steps: u64,
    cells: u64,
    from: u64,
    every: u64,
    line: &[u8],
    out: &mut [u8],
    count: &mut usize,
) -> u32
    ensures lines { (result ≡ CLEAN) ⊎ (result ≡ NOT_CLEAN)
        → IsFilled (IsSampledText (bounds_of steps cells 0 0) from every line.now) out.old out.new count.new }
    ensures clean { result ≡ CLEAN → IsUncut (bounds_of steps cells 0 0) line.now }
    ensures not_clean { result ≡ NOT_CLEAN → IsUncut (bounds_of steps cells 0 0) line.now → ⊥ }
    ensures limits { (result ≡ LIMITS) ↔ (IsAccepted (bounds_of steps cells 0 0) × (0 < every) → ⊥) }
    ensures untouched { (result ≡ LIMITS) ⊎ (result ≡ MEMORY) → IsUntouched out.old out.new count.new }
    ensures short { result ≡ SHORT
        → IsTooShort (IsSampledText (bounds_of steps cells 0 0) from every line.now)
        out.old out.new count.new }
    ensures status { result ≤ SHORT }
{
    *count = 0;
    if every == 0 {
        return LIMITS;
    }
    let Ok(limits) = Limits::new(steps, cells, 0, 0) else {
        return LIMITS;
    };
    match add_samples(alloc, &limits, from, every, line) {
        Ok((lines, clean)) => fill_buffer(lines.as_slice(), clean, out, count),
        Err(_) => MEMORY,
    }
}

/// The lines of some of the steps of a machine's run, and whether the limit of cells cut off nothing of it.
fn add_samples(
    alloc: Global,
    limits: &Limits,
    from: u64,
    every: u64,
    line: &[u8],
) -> Result<(Vec<u8>, bool), Memory>
    requires every { 0 < every }
    ensures lines { IfOk result (λ given. IsSampledText limits.now from every line.now given.0.items) }
    ensures clean { IfOk result (λ given. IsTrue given.1 ↔ IsUncut limits.now line.now) }
{
    let mut tape = RingTape::new(alloc, limits.cells())?;
    let mut writer = Watched::new(Vec::new(alloc));
    match run_sampled_trace(line, limits, from, every, &mut tape, &mut writer) {
        Ok(summary) => Ok((writer.into_inner(), summary.clean)),
        Err(_) => Err(Memory),
    }
}
