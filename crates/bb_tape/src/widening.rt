//! Widening a tape's window to any position.

ghost use Rattle.std.specs.Prelude.{◌≡◌, ◌↔◌, ◌≤ℤ◌, ◌<ℤ◌, IfErr, OnErr, OnOk, pos};
ghost use Rattle.bb_tape.specs.TapeView.{visited, width};

use crate::tape::{Tape, TapeFault};

/// Widens the window up to any position, cell by cell. `Cells` if the window would exceed the limit; then
/// nothing changes.
pub fn widen_to<T: Tape>(tape: &mut T, p: i64) -> Result<(), TapeFault>
    ensures ok { OnOk result (T.view tape.new ≡ visited (T.view tape.old) p) }
    ensures err { OnErr result (T.view tape.new ≡ T.view tape.old) }
    ensures cells { (result ≡ Err TapeFault.Cells)
        ↔ (pos (T.view tape.old).limit <ℤ width (visited (T.view tape.old) p)) }
    ensures memory { IfErr result (λ fault. fault ≡ TapeFault.Cells) }
{
    let low = tape.low().min(p);
    let high = tape.high().max(p);
    if high.abs_diff(low) >= tape.limit() {
        return Err(TapeFault::Cells);
    }
    widen_down_to(tape, low);
    widen_up_to(tape, high);
    Ok(())
}

/// Widens the window down to a position, if it has room.
fn widen_down_to<T: Tape>(tape: &mut T, p: i64)
    requires below { p ≤ℤ (T.view tape.old).low }
    requires room { width (visited (T.view tape.old) p) ≤ℤ pos (T.view tape.old).limit }
    ensures { T.view tape.new ≡ visited (T.view tape.old) p }
{
    let mut low = tape.low();
    while p < low {
        low -= 1;
        tape.widen_low(low);
    }
}

/// Widens the window up to a position, if it has room.
fn widen_up_to<T: Tape>(tape: &mut T, p: i64)
    requires above { (T.view tape.old).high ≤ℤ p }
    requires room { width (visited (T.view tape.old) p) ≤ℤ pos (T.view tape.old).limit }
    ensures { T.view tape.new ≡ visited (T.view tape.old) p }
{
    let mut high = tape.high();
    while high < p {
        high += 1;
        tape.widen_high(high);
    }
}
