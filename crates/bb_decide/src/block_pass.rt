//! The steps of a single-pass run inside a block of 64 cells of its tape, made in registers.
ghost use Rattle.std.specs.Prelude.{◌≡◌, ◌≢◌, ◌+◌, ◌*◌, ◌-◌, ◌<◌, ◌≤◌, ◌^◌, ℕ, ℤ, neg_ℤ, pos, ◌+ℤ◌, ◌≤ℤ◌, ◌<ℤ◌};
ghost use Rattle.std.specs.Prelude.{false, IfSome};
ghost use Rattle.std.specs.Int.{bit_at};
ghost use Rattle.bb_machine.specs.declared.entry.Next.TheVariants as next;
ghost use Rattle.bb_tape.specs.declared.tape.TheConstants.{MAX_CELLS};
ghost use Rattle.bb_tape.specs.Content.{Content};
ghost use Rattle.bb_tape.specs.TapeView.{TapeView};
ghost use Rattle.bb_sim.specs.Runner.{position_of, state_of, steps_of};
ghost use Rattle.bb_registers.specs.Blocks.{IsBlockOf};
ghost use Rattle.bb_decide.specs.Fingerprint.{fingerprint};
ghost use Rattle.bb_decide.specs.inside.BlockPasses.{CanPass, ChangesTo, IsBarrier, IsBlockTable};
ghost use Rattle.bb_decide.specs.inside.Searching.{IsUnderWay};

use crate::fingerprint::update_fingerprint;
use crate::keys::FingerprintKeys;
use crate::register_records::position_of_bit;
use crate::single_pass::{Fingerprints, SinglePass};
use crate::sprint::Sprint;
use bb_machine::{Limits, Machine, PackedTable};
use bb_registers::blocks::block_start;
use bb_registers::{Barrier, BlockRun};
use bb_sim::Runner;
use bb_tape::Tape;

/// The bit of a position in a block; 0 outside.
fn bit_in_block(position: i64, from: i64) -> u64
    requires low { neg_ℤ (pos MAX_CELLS) ≤ℤ from }
    requires high { from ≤ℤ pos MAX_CELLS }
    ensures { (k : ℕ) → k < 64 → position ≡ from +ℤ pos k → result ≡ 2 ^ k }
{
    if position < from {
        return 0;
    }
    if position >= from + 64 {
        return 0;
    }
    1 << ((position - from) as u32)
}

/// The barrier of a run in a block: before the next configuration to keep, and before the kept state and
/// position.
fn barrier_of(fingerprints: &Fingerprints, state: u8, limits: &Limits, from: i64) -> Barrier
    requires low { neg_ℤ (pos MAX_CELLS) ≤ℤ from }
    requires high { from ≤ℤ pos MAX_CELLS }
    requires state { state_of fingerprints.now.kept ≡ next.State state }
    ensures { IsBarrier limits.now from fingerprints.now result }
{
    Barrier {
        to: limits.steps().min(fingerprints.next.saturating_sub(1)),
        window: u64::MAX,
        head: bit_in_block(fingerprints.kept.position(), from),
        entry: 9 * u64::from(state),
    }
}

/// The place of the lowest set bit.
#[inline(always)]
fn lowest_place(bits: u64) -> u32
    requires { 0 < bits }
    ensures small { result < 64 }
    ensures set { bit_at bits result ≡ 1 }
{
    bits.trailing_zeros()
}

/// The bits without one that is set.
#[inline(always)]
fn bits_without(bits: u64, place: u32) -> u64
    requires small { place < 64 }
    requires set { bit_at bits place ≡ 1 }
    ensures fewer { result < bits }
    ensures cleared { bit_at result place ≡ 0 }
    ensures others { (k : ℕ) → k ≢ place → bit_at result k ≡ bit_at bits k }
{
    bits ^ (1 << place)
}

/// The fingerprint of a tape after the cells of a block changed from bits to others.
fn fingerprint_of_block<K: FingerprintKeys>(
    current: u64,
    keys: &K,
    from: i64,
    old: u64,
    new: u64,
) -> u64
    requires low { neg_ℤ (pos MAX_CELLS) ≤ℤ from }
    requires high { (from +ℤ pos 63) ≤ℤ pos MAX_CELLS }
    ensures { (one other : Content) → current ≡ fingerprint (K.key_of keys.now) one
        → ChangesTo from old new one other → result ≡ fingerprint (K.key_of keys.now) other }
{
    let mut current = current;
    let mut changed = old ^ new;
    loop {
        if changed == 0 {
            return current;
        }
        let place = lowest_place(changed);
        let was = ((old >> place) & 1) as u8;
        let is = ((new >> place) & 1) as u8;
        current = update_fingerprint(current, keys, from + i64::from(place), was, is);
        changed = bits_without(changed, place);
    }
}

/// The table of a machine that fits the registers, for a tape that doesn't grow.
pub(crate) fn block_table<T: Tape>(machine: &Machine, _tape: &T) -> Option<PackedTable>
    ensures { IfSome result (IsBlockTable T.GROWS machine.now) }
{
    if T::GROWS {
        return None;
    }
    if !machine.is_small() {
        return None;
    }
    Some(machine.packed())
}

/// The single-pass run after steps in a block around the head.
#[inline(never)]
pub(crate) fn pass_block<T: Tape, K: FingerprintKeys>(
    machine: &Machine,
    table: &PackedTable,
    limits: &Limits,
    keys: &K,
    begun: SinglePass,
    tape: &mut T,
    from: i64,
) -> SinglePass
    requires table { IsBlockTable T.GROWS machine.now table.now }
    requires block { IsBlockOf begun.runner from }
    requires can { CanPass machine.now limits.now (K.key_of keys.now) begun (T.view tape.old) }
    ensures pass { (right left : TapeView)
        → IsUnderWay machine.now limits.now (K.key_of keys.now) begun (T.view tape.old) right left
        → IsUnderWay machine.now limits.now (K.key_of keys.now) result (T.view tape.new) right left }
    ensures limit { (T.view tape.new).limit ≡ (T.view tape.old).limit }
    ensures more { steps_of begun.runner ≤ steps_of result.runner }
{
    let Some(state) = begun.runner.state() else {
        return begun;
    };
    let Some(kept_state) = begun.fingerprints.kept.state() else {
        return begun;
    };
    let barrier = barrier_of(&begun.fingerprints, kept_state, limits, from);
    machine.show_machine();
    let run = BlockRun::take(machine, limits, &begun.runner, state, tape, from);
    let head = run.registers.head;
    let start = Sprint {
        run,
        least: head,
        greatest: head,
    };
    let end = start.go_on::<false>(table, &barrier);
    let mut pass = begun;
    end.run.put(machine, limits, &mut pass.runner, tape, from);
    pass.right.pass(from + 32 + position_of_bit(end.least));
    pass.left.pass(from + 32 + position_of_bit(end.greatest));
    let bits = end.run.registers.bits;
    pass.fingerprints.current = fingerprint_of_block(
        begun.fingerprints.current,
        keys,
        from,
        run.registers.bits,
        bits,
    );
    pass
}

/// Where a block begins that has so many cells before the head, if there is a table for it.
#[inline(always)]
pub(crate) fn block_for(table: &Option<PackedTable>, runner: &Runner, before: i64) -> Option<i64>
    requires low { neg_ℤ (pos MAX_CELLS) ≤ℤ position_of runner.now }
    requires high { position_of runner.now ≤ℤ pos MAX_CELLS }
    requires some { pos 0 ≤ℤ before }
    requires few { before <ℤ pos 64 }
    ensures { IfSome result (λ from. IsBlockOf runner.now from) }
{
    if table.is_none() {
        return None;
    }
    block_start(runner, before)
}
