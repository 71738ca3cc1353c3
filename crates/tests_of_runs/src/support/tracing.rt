//! Traces of machines.
ghost use Rattle.std.specs.Prelude.{◌≡◌};

use bb_lines::fault::Fault;
use bb_lines::watched::Watched;
use bb_machine::Limits;
use bb_run::{Summary, run_trace};
use bb_tape::{MapTape, RingTape, Tape};
use std::process::Abort;

/// Traces a line, and returns the output too.
pub(crate) fn traced<T: Tape>(
    rt: &(impl Abort + AllocGlobal),
    tape: &mut T,
    limits: &Limits,
    line: &[u8],
) -> (Result<Summary, Fault>, Vec<u8>)
    requires { (T.view tape.old).limit ≡ limits.now.cells }
    ensures { (T.view tape.new).limit ≡ limits.now.cells }
{
    let mut writer = Watched::new(Vec::new(rt.alloc()));
    let end = run_trace(line, limits, tape, &mut writer);
    (end, writer.into_inner())
}

/// Traces a line on a ring and on a map, with the same output and end.
pub(crate) fn traced_on_both(
    rt: &(impl Abort + AllocGlobal),
    line: &[u8],
    limits: &Limits,
) -> (Result<Summary, Fault>, Vec<u8>) {
    let mut ring = RingTape::new(rt.alloc(), limits.cells()).expect(rt, "memory");
    let (end, output) = traced(rt, &mut ring, limits, line);
    let mut map = MapTape::new(rt.alloc(), limits.cells());
    let (map_end, map_output) = traced(rt, &mut map, limits, line);
    assert_eq!(rt; map_output.as_slice(), output.as_slice());
    assert_eq!(rt; map_end, end);
    (end, output)
}
