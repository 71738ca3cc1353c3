//! Stretches cut by the ring's end.

ghost use Rattle.std.specs.Prelude.{IsTrue, pos, ◌-ℤ◌, ◌≤ℤ◌};
ghost use Rattle.bb_tape.specs.TapeView.{IsStretch};

use bb_tape::widening::widen_to;
use bb_tape::{MAX_SYMBOL, RingTape, Tape};
use std::process::Abort;
use std::test::Fail;

/// Writes a symbol into a cell of the window.
fn write<T: Tape>(tape: &mut T, p: i32, v: u8) -> bool {
    let p = i64::from(p);
    if tape.low() <= p && p <= tape.high() && v <= MAX_SYMBOL {
        return tape.write(p, v).is_ok();
    }
    false
}

fn is_stretch<T: Tape>(tape: &T, from: i64, len: u8) -> bool
    requires low { (pos 0 -ℤ pos 2147483648) ≤ℤ from }
    requires high { from ≤ℤ pos 2147483648 }
    ensures { IsTrue result → IsStretch (T.view tape.now) from len }
{
    tape.low() <= from && from + i64::from(len) - 1 <= tape.high()
}

/// Whether two stretches agree; none if one isn't inside its window.
fn agrees<T: Tape>(tape: &T, from: i32, other: &T, other_from: i32, len: u8) -> Option<bool> {
    let (from, other_from) = (i64::from(from), i64::from(other_from));
    if is_stretch(tape, from, len) && is_stretch(other, other_from, len) {
        return Some(tape.agrees(from, other, other_from, u64::from(len)));
    }
    None
}

/// Puts the symbols 1 to 10 in turn into a stretch.
fn number_cells<T: Tape>(tape: &mut T, from: i32, len: u8)
    requires low { (pos 0 -ℤ pos 1000) ≤ℤ from }
    requires high { from ≤ℤ pos 1000 }
{
    for k in 0..len {
        write(tape, from + i32::from(k), k % 10 + 1);
    }
}

/// Whether two stretches of full rings agree, and only while each cell of them is the same.
fn each_cell_counts(
    rt: &impl Abort,
    a: &mut RingTape,
    from: i32,
    b: &mut RingTape,
    other_from: i32,
    len: u8,
)
    requires low { (pos 0 -ℤ pos 1000) ≤ℤ from }
    requires high { from ≤ℤ pos 1000 }
    requires other_low { (pos 0 -ℤ pos 1000) ≤ℤ other_from }
    requires other_high { other_from ≤ℤ pos 1000 }
{
    let yes = Some(true);
    for k in 0..len {
        let p = other_from + i32::from(k);
        write(b, p, 0);
        assert_eq!(rt;
            agrees(a, from, b, other_from, len),
            Some(false),
            "{from} {other_from} {len} {k}"
        );
        write(b, p, k % 10 + 1);
    }
    assert_eq!(rt;
        agrees(a, from, b, other_from, len),
        yes,
        "{from} {other_from} {len}"
    );
    for p in [other_from - 1, other_from + i32::from(len)] {
        write(b, p, 9);
        assert_eq!(rt; agrees(a, from, b, other_from, len), yes, "outside at {p}");
        write(b, p, 0);
    }
}

#[test]
fn stretches_agree_cell_by_cell(rt: HostRuntime) -> Result<(), Fail> {
    let alloc = rt.alloc();
    let (mut a, mut b) = (RingTape::new(alloc, 70)?, RingTape::new(alloc, 70)?);
    for len in [0u8, 1, 31, 32, 33, 63, 64, 65, 70] {
        for i in 0..=70 - len {
            for j in 0..=70 - len {
                let (from, other_from) = (i32::from(i) - 35, i32::from(j) - 35);
                a.reset();
                b.reset();
                widen_to(&mut a, -35)?;
                widen_to(&mut a, 34)?;
                widen_to(&mut b, -35)?;
                widen_to(&mut b, 34)?;
                number_cells(&mut a, from, len);
                number_cells(&mut b, other_from, len);
                each_cell_counts(&rt, &mut a, from, &mut b, other_from, len);
            }
        }
    }
    Ok(())
}

#[test]
fn windows_do_not_count(rt: HostRuntime) -> Result<(), Fail> {
    let alloc = rt.alloc();
    let (mut a, mut b) = (RingTape::new(alloc, 70)?, RingTape::new(alloc, 70)?);
    widen_to(&mut a, -35)?;
    widen_to(&mut a, 34)?;
    widen_to(&mut b, -3)?;
    widen_to(&mut b, 3)?;
    number_cells(&mut a, -3, 7);
    number_cells(&mut b, -3, 7);
    assert!(rt; a.same(&b) && b.same(&a));
    for p in [34, -35] {
        write(&mut a, p, 1);
        assert!(rt; !a.same(&b) && !b.same(&a), "a 1 at {p}");
        write(&mut a, p, 0);
    }
    assert!(rt; a.same(&b) && b.same(&a));
    Ok(())
}

#[test]
fn score_counts_each_cell(rt: HostRuntime) -> Result<(), Fail> {
    let mut tape = RingTape::new(rt.alloc(), 70)?;
    for symbol in [1u8, 2, 10] {
        tape.reset();
        widen_to(&mut tape, -35)?;
        widen_to(&mut tape, 34)?;
        for k in 0..70u8 {
            assert_eq!(rt; tape.score(), u64::from(k), "symbol {symbol}");
            // 9 and 70 share no factor, so each cell has its turn
            write(&mut tape, i32::from(k) * 9 % 70 - 35, symbol);
        }
        assert_eq!(rt; tape.score(), 70, "symbol {symbol}");
    }
    Ok(())
}
