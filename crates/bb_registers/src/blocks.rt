//! A run on a tape, made in registers while it stays within a block of 64 cells.
ghost use Rattle.std.specs.Prelude.{◌≡◌, ◌+◌, ◌<◌, ◌≤◌, ◌%◌, ◌^◌, ℤ, neg_ℤ, pos, ◌≤ℤ◌, ◌<ℤ◌, false};
ghost use Rattle.std.specs.Prelude.{IfOk, IfSome, IsTrue, MatchBool, OnErr, OnOk, length};
ghost use Rattle.bb_machine.specs.Machine.{symbols_of};
ghost use Rattle.bb_tape.specs.declared.tape.TheConstants.{MAX_CELLS};
ghost use Rattle.bb_sim.specs.declared.meter.Meter.{Meter};
ghost use Rattle.bb_sim.specs.Meter.{CountsPart, CountsRun, CountsTo, IsWithinRun};
ghost use Rattle.bb_sim.specs.Outcome.{IsOutcome};
ghost use Rattle.bb_sim.specs.Runner.{Stands, high_of, low_of, position_of, state_of, steps_of};
ghost use Rattle.bb_registers.specs.Blocks.{GoesOn, IsBlockOf, IsBlockRun, StepsBefore};
ghost use Rattle.bb_machine.specs.Packed.{IsTableOf};

use crate::handover::lowest_position;
use crate::registers::{Registers, stops};
use bb_machine::{Limits, Machine, Next, PackedTable};
use bb_sim::{Meter, Moved, Outcome, Runner, simulate_from};
use bb_tape::{Memory, Tape};

/// How many cells of a new block are behind the head.
const BEHIND: i64 = 8;

/// Blocks are looked for at multiples of this position alone, to spare other steps the test. A head leaves a
/// crossed block at such a position.
const STRIDE: u64 = 8;

/// A run inside a block. Bit i of its registers is the block's cell i.
#[derive(Clone, Copy, Debug)]
pub struct BlockRun {
    /// Its configuration.
    pub registers: Registers,
    /// The steps made so far.
    pub steps: u64,
}

/// Where steps in registers end at the latest.
#[derive(Clone, Copy, Debug)]
pub struct Barrier {
    /// The last step that may be made.
    pub to: u64,
    /// The cells that the head may go to.
    pub window: u64,
    /// The bit of a head that may not come in the state of `entry`; 0 for none.
    pub head: u64,
    /// Nine times that state.
    pub entry: u64,
}

impl BlockRun {
    /// Makes the next step, if it goes to a state and keeps before the barrier. False if not. With `SELECTS` it
    /// chooses the entry without a branch: faster in short runs, slower in long ones.
    #[inline(always)]
    pub fn advance<const SELECTS: bool>(&mut self, table: &PackedTable, barrier: &Barrier) -> bool
        ensures { MatchBool result (StepsBefore table.now barrier.now self.old self.new)
            ((self.new ≡ self.old)
            × ((next : BlockRun) → StepsBefore table.now barrier.now self.old next → ⊥)) }
    {
        if self.steps >= barrier.to {
            return false;
        }
        let next = self.registers.next::<SELECTS>(table);
        if stops(next.entry) || (barrier.window & next.head) == 0 {
            return false;
        }
        if next.head == barrier.head && next.entry & 63 == barrier.entry {
            return false;
        }
        *self = BlockRun {
            registers: next,
            steps: self.steps + 1,
        };
        true
    }

    /// Takes the cells of a block from a tape, for the runner on it.
    #[inline(always)]
    pub fn take<T: Tape>(
        machine: &Machine,
        limits: &Limits,
        runner: &Runner,
        state: u8,
        tape: &T,
        from: i64,
    ) -> BlockRun
        requires symbols { symbols_of machine.now ≡ 2 }
        requires states { length machine.now ≤ 7 }
        requires stands { Stands machine.now runner.now (T.view tape.now) }
        requires state { state_of runner.now ≡ Next.State state }
        requires limit { (T.view tape.now).limit ≡ limits.now.cells }
        requires few { steps_of runner.now ≤ limits.now.steps }
        requires block { IsBlockOf runner.now from }
        ensures run { IsBlockRun machine.now limits.now from (T.view tape.now) result }
        ensures steps { result.steps ≡ steps_of runner.now }
    {
        BlockRun {
            registers: Registers {
                bits: tape.block(from),
                head: 1 << ((runner.position() - from) as u32),
                entry: 9 * u64::from(state),
            },
            steps: runner.steps(),
        }
    }

    /// Puts the cells back, and moves the runner to the run's position.
    #[inline(always)]
    pub fn put<T: Tape>(
        &self,
        machine: &Machine,
        limits: &Limits,
        runner: &mut Runner,
        tape: &mut T,
        from: i64,
    )
        requires fixed { T.GROWS ≡ false }
        requires low { low_of runner.old ≡ (T.view tape.old).low }
        requires high { high_of runner.old ≡ (T.view tape.old).high }
        requires run { IsBlockRun machine.now limits.now from (T.view tape.old) self.now }
        ensures stands { Stands machine.now runner.new (T.view tape.new) }
        ensures limit { (T.view tape.new).limit ≡ (T.view tape.old).limit }
        ensures low { (T.view tape.new).low ≡ (T.view tape.old).low }
        ensures high { (T.view tape.new).high ≡ (T.view tape.old).high }
        ensures steps { steps_of runner.new ≡ self.now.steps }
    {
        let Ok(()) = tape.put_block(from, self.registers.bits) else {
            unreachable!();
        };
        *runner = Runner::at(
            Next::State(self.registers.state()),
            from + 32 + lowest_position(self.registers.head),
            self.steps,
            runner.low(),
            runner.cells(),
        );
    }
}

/// How many cells a new block has to the left of the head, by its last move.
#[inline(always)]
pub fn cells_before(right: bool) -> i64
    ensures some { pos 0 ≤ℤ result }
    ensures few { result <ℤ pos 64 }
{
    if right { BEHIND } else { 63 - BEHIND }
}

/// The beginning of the block with so many cells before the head, if it is in the window on one side of 0.
#[inline(always)]
pub fn block_start(runner: &Runner, before: i64) -> Option<i64>
    requires low { neg_ℤ (pos MAX_CELLS) ≤ℤ position_of runner.now }
    requires high { position_of runner.now ≤ℤ pos MAX_CELLS }
    requires some { pos 0 ≤ℤ before }
    requires few { before <ℤ pos 64 }
    ensures { IfSome result (λ from. IsBlockOf runner.now from) }
{
    if runner.position().cast_unsigned() % STRIDE != 0 {
        return None;
    }
    let from = runner.position() - before;
    if from < runner.low() || runner.high() < from + 63 {
        return None;
    }
    if from >= 0 || from + 64 <= 0 {
        return Some(from);
    }
    None
}

/// Makes the steps inside a block around the head.
fn run_block<T: Tape>(
    machine: &Machine,
    table: &PackedTable,
    runner: &mut Runner,
    from: i64,
    tape: &mut T,
    limits: &Limits,
    meter: &mut Meter,
)
    requires fixed { T.GROWS ≡ false }
    requires symbols { symbols_of machine.now ≡ 2 }
    requires states { length machine.now ≤ 7 }
    requires table { IsTableOf machine.now table.now }
    requires stands { Stands machine.now runner.old (T.view tape.old) }
    requires block { IsBlockOf runner.old from }
    requires limit { (T.view tape.old).limit ≡ limits.now.cells }
    requires few { steps_of runner.old ≤ limits.now.steps }
    requires counted { (begun : Meter) × CountsTo machine.now (steps_of runner.old) begun meter.old
        × (begun.steps + limits.now.steps + 1 < 2 ^ 64) }
    ensures { GoesOn machine.now limits.now runner.old runner.new (T.view tape.old) (T.view tape.new)
        meter.old meter.new }
{
    let Some(state) = runner.state() else {
        return;
    };
    let table = *table;
    let limits = *limits;
    let start = BlockRun::take(machine, &limits, runner, state, tape, from);
    machine.show_machine();
    let mut run = start;
    // No step has the head 0, so none is refused for it.
    let barrier = Barrier {
        to: limits.steps(),
        window: u64::MAX,
        head: 0,
        entry: 0,
    };
    while run.advance::<false>(&table, &barrier) {}
    run.put(machine, &limits, runner, tape, from);
    meter.steps += run.steps - start.steps;
}

/// Makes steps on the tape until there is a block around the head. None at a halt or a limit, before the
/// step. Runner, limits and meter are copied, to stay in registers.
fn find_block<T: Tape>(
    machine: &Machine,
    runner: &mut Runner,
    tape: &mut T,
    limits: &Limits,
    meter: &mut Meter,
) -> Option<i64>
    requires fixed { T.GROWS ≡ false }
    requires stands { Stands machine.now runner.old (T.view tape.old) }
    requires limit { (T.view tape.old).limit ≡ limits.now.cells }
    requires few { steps_of runner.old ≤ limits.now.steps }
    requires counted { (begun : Meter) × CountsTo machine.now (steps_of runner.old) begun meter.old
        × (begun.steps + limits.now.steps + 1 < 2 ^ 64) }
    ensures goes { GoesOn machine.now limits.now runner.old runner.new (T.view tape.old) (T.view tape.new)
        meter.old meter.new }
    ensures block { IfSome result (λ from. IsBlockOf runner.new from) }
    ensures stepped { IfSome result (λ from. steps_of runner.old < steps_of runner.new) }
{
    let limits = *limits;
    let mut here = *runner;
    let mut spent = *meter;
    let from = loop {
        let position = here.position();
        let Ok(moved) = here.advance(machine, tape, &limits, &mut spent) else {
            unreachable!();
        };
        match moved {
            Moved::Stepped => {}
            Moved::Halted | Moved::NoSteps | Moved::NoCells => break None,
        }
        let before = cells_before(position < here.position());
        if let Some(from) = block_start(&here, before) {
            break Some(from);
        }
    };
    *runner = here;
    *meter = spent;
    from
}

/// Continues a run as [`simulate_from`] does, for a machine of two symbols and at most seven states. If
/// possible, it takes blocks of 64 cells into registers.
#[inline(never)]
pub(crate) fn simulate_in_blocks<T: Tape>(
    machine: &Machine,
    runner: Runner,
    tape: &mut T,
    limits: &Limits,
    meter: &mut Meter,
) -> Result<Outcome, Memory>
    requires fixed { T.GROWS ≡ false }
    requires symbols { symbols_of machine.now ≡ 2 }
    requires states { length machine.now ≤ 7 }
    requires stands { Stands machine.now runner (T.view tape.old) }
    requires limit { (T.view tape.old).limit ≡ limits.now.cells }
    requires steps { steps_of runner ≤ limits.now.steps }
    requires counted { (begun : Meter) × CountsTo machine.now (steps_of runner) begun meter.old
        × (begun.steps + limits.now.steps + 1 < 2 ^ 64) }
    ensures outcome { IfOk result (IsOutcome machine.now limits.now) }
    ensures counted { (begun : Meter) → CountsTo machine.now (steps_of runner) begun meter.old
        → OnOk result (CountsRun machine.now limits.now begun meter.new) }
    ensures cut { (begun : Meter) → CountsTo machine.now (steps_of runner) begun meter.old
        → OnErr result (CountsPart machine.now limits.now (T.view tape.new).content begun meter.new) }
    ensures within { (begun : Meter) → CountsTo machine.now (steps_of runner) begun meter.old
        → IsWithinRun limits.now begun meter.new }
    ensures limit { (T.view tape.new).limit ≡ (T.view tape.old).limit }
    ensures memory { OnErr result (IsTrue T.GROWS) }
{
    let table = machine.packed();
    let mut runner = runner;
    loop {
        let Some(from) = find_block(machine, &mut runner, tape, limits, meter) else {
            return simulate_from(machine, runner, tape, limits, meter);
        };
        run_block(machine, &table, &mut runner, from, tape, limits, meter);
    }
}
