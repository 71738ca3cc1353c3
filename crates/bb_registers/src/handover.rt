//! A run on leaving the registers: its cells and window on a tape, and the runner that continues it.
ghost use Rattle.std.specs.Prelude.{◌≡◌, ◌<◌, ◌≤◌, ℕ, IfOk, IsTrue, OnErr, OnOk, pos, ◌-ℤ◌, ◌<ℤ◌, ◌≤ℤ◌};
ghost use Rattle.std.specs.Int.{bit_at};
ghost use Rattle.bb_tape.specs.TapeView.{IsInside};
ghost use Rattle.bb_sim.specs.Runner.{Stands, steps_of};
ghost use Rattle.bb_registers.specs.BitCells.{IsLowest, bits_content};
ghost use Rattle.bb_registers.specs.Registers.{IsRegisterRun};

use crate::run::RegisterRun;
use bb_machine::{Limits, Machine, Next};
use bb_sim::Runner;
use bb_tape::widening::widen_to;
use bb_tape::{Memory, Tape};

impl RegisterRun {
    /// The runner that stands where the run does.
    pub fn runner(&self, machine: &Machine, limits: &Limits) -> Runner
        requires run { IsRegisterRun machine.now limits.now self.now }
        ensures stands { (known : IsRegisterRun machine.now limits.now self.now)
            → Stands machine.now result known.view }
        ensures steps { steps_of result ≡ self.now.steps }
    {
        machine.show_machine();
        limits.show_accepted();
        let state = Next::State(self.registers.state());
        let position = lowest_position(self.registers.head);
        let low = lowest_position(self.window);
        Runner::at(state, position, self.steps, low, limits.cells() - self.room)
    }

    /// Moves the run onto a tape: its cells and its window. The runner continues it there.
    ///
    /// After an error the contents of the tape are unspecified; reset it before its next use.
    pub fn move_to_tape<T: Tape>(
        &self,
        machine: &Machine,
        limits: &Limits,
        tape: &mut T,
    ) -> Result<Runner, Memory>
        requires run { IsRegisterRun machine.now limits.now self.now }
        requires limit { (T.view tape.old).limit ≡ limits.now.cells }
        ensures stands { IfOk result (λ runner. Stands machine.now runner (T.view tape.new)) }
        ensures steps { IfOk result (λ runner. steps_of runner ≡ self.now.steps) }
        ensures limit { (T.view tape.new).limit ≡ (T.view tape.old).limit }
        ensures same { (known : IsRegisterRun machine.now limits.now self.now)
            → OnOk result (T.view tape.new ≡ known.view) }
        ensures memory { OnErr result (IsTrue T.GROWS) }
    {
        tape.reset();
        let start = RegisterRun::start(machine, limits);
        self.move_over(&start, machine, limits, tape)
    }

    /// Moves the run onto a tape that has an earlier configuration of it: only cells that differ are written.
    ///
    /// After an error the contents of the tape are unspecified; reset it before its next use.
    pub fn move_over<T: Tape>(
        &self,
        earlier: &RegisterRun,
        machine: &Machine,
        limits: &Limits,
        tape: &mut T,
    ) -> Result<Runner, Memory>
        requires run { IsRegisterRun machine.now limits.now self.now }
        requires earlier { IsRegisterRun machine.now limits.now earlier.now }
        requires order { earlier.now.steps ≤ self.now.steps }
        requires tape { (known : IsRegisterRun machine.now limits.now earlier.now)
            → T.view tape.old ≡ known.view }
        ensures stands { IfOk result (λ runner. Stands machine.now runner (T.view tape.new)) }
        ensures steps { IfOk result (λ runner. steps_of runner ≡ self.now.steps) }
        ensures limit { (T.view tape.new).limit ≡ (T.view tape.old).limit }
        ensures same { (known : IsRegisterRun machine.now limits.now self.now)
            → OnOk result (T.view tape.new ≡ known.view) }
        ensures memory { OnErr result (IsTrue T.GROWS) }
    {
        limits.show_accepted();
        let low = lowest_position(self.window);
        let high = low + (limits.cells() - self.room - 1) as i64;
        widen_window(tape, low, high);
        let Ok(()) = write_bits(tape, earlier.registers.bits, self.registers.bits) else {
            return Err(Memory);
        };
        Ok(self.runner(machine, limits))
    }
}

/// The position of the lowest set bit.
#[inline]
pub(crate) fn lowest_position(bits: u64) -> i64
    requires some { 0 < bits }
    ensures { IsLowest bits result }
{
    i64::from(bits.trailing_zeros()) - 32
}

/// Widens the window of a tape to these ends.
fn widen_window<T: Tape>(tape: &mut T, low: i64, high: i64)
    requires from { low ≤ℤ (T.view tape.old).low }
    requires to { (T.view tape.old).high ≤ℤ high }
    requires room { (high -ℤ low) <ℤ pos (T.view tape.old).limit }
    ensures { T.view tape.new ≡ record (T.view tape.old) { low = low; high = high } }
{
    let Ok(()) = widen_to(tape, low) else {
        unreachable!();
    };
    let Ok(()) = widen_to(tape, high) else {
        unreachable!();
    };
}

/// Writes the cells of a number to a tape that has those of another, and has both in its window.
fn write_bits<T: Tape>(tape: &mut T, old: u64, bits: u64) -> Result<(), Memory>
    requires content { (T.view tape.old).content ≡ bits_content old }
    requires inside { (i : ℕ) → i < 64 → bit_at bits i ≡ 1 → IsInside (T.view tape.old) (pos i -ℤ pos 32) }
    ensures ok { OnOk result (T.view tape.new ≡ record (T.view tape.old) { content = bits_content bits }) }
    ensures limit { (T.view tape.new).limit ≡ (T.view tape.old).limit }
    ensures memory { OnErr result (IsTrue T.GROWS) }
{
    for place in 0..64u32 {
        let symbol = (bits >> place) & 1;
        if (old >> place) & 1 == symbol {
            continue;
        }
        let Ok(()) = tape.write(i64::from(place) - 32, symbol as u8) else {
            return Err(Memory);
        };
    }
    Ok(())
}
