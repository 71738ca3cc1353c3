//! Worked rows, on the trait through its bound, and memory refused in turn.

ghost use Rattle.std.specs.Prelude.{◌≡◌, pos};
ghost use Rattle.bb_tape.specs.TapeView.{fresh, IsBeside};

mod ring;

use bb_tape::widening::widen_to;
use bb_tape::{MapTape, RingTape, Tape, TapeFault};
use linked_list_allocator::LocalHeap;
use std::process::Abort;
use std::test::Fail;

/// Rows on two blank tapes with limit 3.
fn rows_with_three_cells<T: Tape>(rt: &impl Abort, tape: &mut T, other: &mut T) -> Result<(), Fail>
    requires tape { T.view tape.old ≡ fresh 3 }
    requires other { T.view other.old ≡ fresh 3 }
{
    assert!(rt; tape.agrees(-7, other, 7, 0), "an empty stretch");
    tape.visit(1)?;
    tape.visit(2)?;
    let refused = tape.visit(-1);
    assert!(rt; matches!(refused, Err(TapeFault::Cells)));
    assert_eq!(rt; (tape.low(), tape.high(), tape.limit()), (0, 2, 3));
    assert!(rt; tape.same(other), "the windows don't count");
    Ok(())
}

/// Writes, reads and counts on a blank tape with limit 3.
fn writes_in_three_cells<T: Tape>(rt: &impl Abort, tape: &mut T) -> Result<(), Fail>
    requires { T.view tape.old ≡ fresh 3 }
{
    tape.visit(1)?;
    tape.write(1, 10)?;
    assert_eq!(rt; (tape.read(1), tape.read(2), tape.score()), (10, 0, 1));
    tape.write(1, 0)?;
    assert_eq!(rt; tape.score(), 0);
    tape.write(0, 1)?;
    tape.reset();
    assert_eq!(rt; (tape.read(0), tape.low(), tape.high()), (0, 0, 0));
    Ok(())
}

/// A copy, against its source.
fn copies_in_three_cells<T: Tape>(rt: &impl Abort, tape: &mut T, other: &mut T) -> Result<(), Fail>
    requires tape { T.view tape.old ≡ fresh 3 }
    requires other { T.view other.old ≡ fresh 3 }
{
    tape.visit(-1)?;
    tape.write(-1, 4)?;
    other.copy_from(tape)?;
    assert_eq!(rt; (other.low(), other.high(), other.read(-1)), (-1, 0, 4));
    assert!(rt; other.same(tape));
    assert!(rt; other.agrees(-1, tape, -1, 2));
    assert!(rt; !other.agrees(-1, tape, 0, 1));
    Ok(())
}

/// Widens a blank tape with limit 3 to positions away from its window.
fn reaches_in_three_cells<T: Tape>(rt: &impl Abort, tape: &mut T) -> Result<(), Fail>
    requires { T.view tape.old ≡ fresh 3 }
{
    assert!(rt; widen_to(tape, 3).is_err() && widen_to(tape, i64::MIN).is_err());
    assert_eq!(rt; (tape.low(), tape.high()), (0, 0));
    widen_to(tape, -2)?;
    tape.write(-2, 5)?;
    widen_to(tape, -1)?;
    assert_eq!(rt; (tape.low(), tape.high(), tape.read_inside(-2)), (-2, 0, 5));
    assert!(rt; matches!(widen_to(tape, 1), Err(TapeFault::Cells)));
    Ok(())
}

/// Blocks of 64 cells, taken and put back, on a blank tape with limit 200.
fn blocks_in_two_hundred_cells<T: Tape>(rt: &impl Abort, tape: &mut T) -> Result<(), Fail>
    requires { T.view tape.old ≡ fresh 200 }
{
    widen_to(tape, -64)?;
    widen_to(tape, 66)?;
    assert_eq!(rt; (tape.low(), tape.high(), tape.limit()), (-64, 66, 200));
    tape.write(2, 10)?;
    tape.write(63, 1)?;
    tape.write(64, 3)?;
    assert_eq!(rt; tape.block(0), (1 << 63) + 4);
    tape.put_block(3, u64::MAX - 1)?;
    assert_eq!(rt;
        (tape.read(2), tape.read(3), tape.read(4), tape.read(66)),
        (10, 0, 1, 1)
    );
    tape.put_block(-64, 6)?;
    assert_eq!(rt; (tape.block(-64), tape.read(-63), tape.score()), (6, 1, 66));
    Ok(())
}

/// Copies of a narrow and of a wide window, on blank tapes with limit 200.
fn copies_in_two_hundred_cells<T: Tape>(
    rt: &impl Abort,
    tape: &mut T,
    other: &mut T,
) -> Result<(), Fail>
    requires tape { T.view tape.old ≡ fresh 200 }
    requires other { T.view other.old ≡ fresh 200 }
{
    widen_to(tape, -2)?;
    tape.write(-2, 4)?;
    other.copy_from(tape)?;
    assert_eq!(rt; (other.low(), other.high(), other.read(-2)), (-2, 0, 4));
    tape.reset();
    assert_eq!(rt; write_upwards(tape, 0, 150), 150);
    other.copy_from(tape)?;
    assert!(rt; has_written(other, 150) && other.same(tape));
    widen_to(tape, 12)?;
    tape.write(12, 0)?;
    assert_eq!(rt; (tape.read(12), tape.score()), (0, 149));
    Ok(())
}

#[test]
fn rows_over_a_map(rt: HostRuntime) -> Result<(), Fail> {
    let alloc = rt.alloc();
    rows_with_three_cells(
        &rt,
        &mut MapTape::new(alloc, 3),
        &mut MapTape::new(alloc, 3),
    )?;
    writes_in_three_cells(&rt, &mut MapTape::new(alloc, 3))?;
    reaches_in_three_cells(&rt, &mut MapTape::new(alloc, 3))?;
    blocks_in_two_hundred_cells(&rt, &mut MapTape::new(alloc, 200))?;
    copies_in_three_cells(
        &rt,
        &mut MapTape::new(alloc, 3),
        &mut MapTape::new(alloc, 3),
    )?;
    copies_in_two_hundred_cells(
        &rt,
        &mut MapTape::new(alloc, 200),
        &mut MapTape::new(alloc, 200),
    )?;
    assert!(rt; <MapTape as Tape>::GROWS);
    Ok(())
}

#[test]
fn rows_over_a_ring(rt: HostRuntime) -> Result<(), Fail> {
    let alloc = rt.alloc();
    rows_with_three_cells(
        &rt,
        &mut RingTape::new(alloc, 3)?,
        &mut RingTape::new(alloc, 3)?,
    )?;
    writes_in_three_cells(&rt, &mut RingTape::new(alloc, 3)?)?;
    reaches_in_three_cells(&rt, &mut RingTape::new(alloc, 3)?)?;
    blocks_in_two_hundred_cells(&rt, &mut RingTape::new(alloc, 200)?)?;
    copies_in_three_cells(
        &rt,
        &mut RingTape::new(alloc, 3)?,
        &mut RingTape::new(alloc, 3)?,
    )?;
    copies_in_two_hundred_cells(
        &rt,
        &mut RingTape::new(alloc, 200)?,
        &mut RingTape::new(alloc, 200)?,
    )?;
    let mut one = RingTape::new(alloc, 1)?;
    assert!(rt; one.visit(0).is_ok() && one.visit(1).is_err() && one.visit(-1).is_err());
    assert!(rt; !<RingTape as Tape>::GROWS);
    Ok(())
}

/// With ample memory a ring is made. Run with its one allocation refused, this fails at the maker's answer.
#[test]
fn a_ring_is_made_where_there_is_memory(rt: HostRuntime) {
    let tape = RingTape::new(rt.alloc(), 70).expect(&rt, "a ring");
    assert_eq!(rt; (tape.limit(), tape.score()), (70, 0));
    assert_eq!(rt; (tape.low(), tape.high()), (0, 0));
    assert!(rt; (-70..71).all(|p| tape.read(p) == 0));
}

/// Writes symbols into the cells from `from` on, below `cells`. Returns the first refused one, or `cells`.
fn write_upwards<T: Tape>(tape: &mut T, from: u8, cells: u8) -> u8
    requires { IsBeside (T.view tape.old) (pos from) }
    ensures { (T.view tape.new).limit ≡ (T.view tape.old).limit }
{
    for k in from..cells {
        let p = i64::from(k);
        if tape.visit(p).is_err() {
            return k;
        }
        if tape.write(p, k % 10 + 1).is_err() {
            return k;
        }
    }
    cells
}

/// Whether the first cells have the symbols of `write_upwards`, and all others are 0.
fn has_written<T: Tape>(tape: &T, cells: u8) -> bool {
    (0..cells).all(|k| tape.read(i64::from(k)) == k % 10 + 1) && tape.score() == u64::from(cells)
}

/// The bytes left of a heap, in turn: a refused call works once there is memory.
#[test]
fn each_allocation_of_a_map_refused(rt: HostRuntime) -> Result<(), Fail> {
    let ample = LocalHeap::new(rt.alloc(), 1 << 13)?;
    let heap = LocalHeap::new(rt.alloc(), 1 << 13)?;
    let mut source = MapTape::new_in(&ample, 100);
    assert_eq!(rt; write_upwards(&mut source, 0, 60), 60);
    let (mut write_refused, mut copy_refused, mut all_fitted) = (false, false, false);
    for left in 0..(1usize << 11) {
        let rest: Vec<u8, &LocalHeap> = Vec::with_capacity(&heap, (1 << 13) - left)?;
        let mut tape = MapTape::new_in(&heap, 100);
        let written = write_upwards(&mut tape, 0, 60);
        assert!(rt;
            has_written(&tape, written),
            "a refused write changes nothing"
        );
        tape.reset();
        assert_eq!(rt; (tape.score(), tape.low(), tape.high()), (0, 0, 0));
        let copied = tape.copy_from(&source);
        assert!(rt; has_written(&source, 60), "the source stays");
        if copied.is_err() {
            assert!(rt; written < 60);
            copy_refused = true;
        } else {
            assert!(rt; tape.same(&source));
        }
        tape.reset();
        drop(rest);
        assert_eq!(rt; write_upwards(&mut tape, 0, 60), 60);
        assert!(rt; tape.same(&source));
        write_refused |= written < 60;
        all_fitted |= written == 60 && copied.is_ok();
    }
    assert!(rt; write_refused && copy_refused && all_fitted);
    Ok(())
}
