//! Lists of verdict lines, checked from bytes to bytes.
ghost use Rattle.std.specs.Prelude.{◌≡◌, ◌≤◌};
ghost use Rattle.bb_cert.specs.checker.Pair.{PairHasCells};
ghost use Rattle.bb_tree.specs.Path.{depth_of};

use bb_cert::{Pair, Path, ring_pair};
use bb_lines::fault::Fault;
use bb_lines::watched::Watched;
use bb_machine::Limits;
use bb_run::{Summary, run_check};
use bb_tape::{MapTape, Tape};
use std::process::Abort;

/// Checks a list, and returns the output too.
pub(crate) fn checked<T: Tape>(
    rt: &(impl Abort + AllocGlobal),
    pair: &mut Pair<T>,
    path: &mut Path,
    limits: &Limits,
    input: &[u8],
) -> (Result<Summary, Fault>, Vec<u8>)
    requires tapes { PairHasCells T.view limits.now.cells pair.old }
    requires path { limits.now.depth ≤ depth_of path.old }
    ensures tapes { PairHasCells T.view limits.now.cells pair.new }
    ensures path { depth_of path.new ≡ depth_of path.old }
{
    let mut reader = Watched::new(input);
    let mut writer = Watched::new(Vec::new(rt.alloc()));
    let end = run_check(&mut reader, &mut writer, limits, pair, path);
    (end, writer.into_inner())
}

/// Checks a list on maps and on rings, with the same output and summary.
pub(crate) fn checked_on_both(
    rt: &(impl Abort + AllocGlobal),
    limits: &Limits,
    input: &[u8],
) -> (Summary, Vec<u8>) {
    let mut maps = Pair {
        run: MapTape::new(rt.alloc(), limits.cells()),
        saved: MapTape::new(rt.alloc(), limits.cells()),
    };
    let mut path = Path::new(rt.alloc(), limits.depth()).expect(rt, "a path");
    let (end, output) = checked(rt, &mut maps, &mut path, limits, input);
    let (mut rings, mut path) = ring_pair(rt.alloc(), limits).expect(rt, "memory");
    let (ring_end, ring_output) = checked(rt, &mut rings, &mut path, limits, input);
    assert_eq!(rt; ring_output.as_slice(), output.as_slice());
    assert_eq!(rt; ring_end, end);
    (end.expect(rt, "no fault"), output)
}
