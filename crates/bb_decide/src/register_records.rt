//! The records of one side of a run in registers.
ghost use Rattle.std.specs.Prelude.{◌≡◌, ℕ, ◌<◌, ◌^◌, pos, neg_ℤ, ◌-ℤ◌, ◌≤ℤ◌};
ghost use Rattle.std.specs.Prelude.{◌↔◌, IfSome, IsTrue};
ghost use Rattle.bb_cert.specs.verdict.Verdict.{HasNumbers};
ghost use Rattle.bb_cert.specs.records.Follow.{AgreesWithKept};
ghost use Rattle.bb_decide.specs.inside.RegisterRecords.{CanCompareRecord, HasCompared, KnowsHeads, nearer_bit};

use bb_cert::{Extent, Side, Verdict};
use bb_machine::{Limits, Machine};
use bb_registers::{BitCells, RegisterRun};

/// The kept record of a side, and the head's bit nearest to the start since. Before the first record it is
/// the start that is kept.
#[derive(Clone, Copy, Debug)]
pub(crate) struct RegisterRecords {
    pub(crate) kept: RegisterRun,
    pub(crate) nearest: u64,
}

/// The position of a head's bit.
#[inline(always)]
pub(crate) fn position_of_bit(head: u64) -> i64
    ensures is { (k : ℕ) → k < 64 → head ≡ 2 ^ k → result ≡ pos k -ℤ pos 32 }
    ensures low { neg_ℤ (pos 32) ≤ℤ result }
    ensures high { result ≤ℤ pos 32 }
{
    i64::from(head.trailing_zeros()) - 32
}

impl RegisterRecords {
    /// Those of a run that has made no step.
    #[inline(always)]
    pub fn new(start: RegisterRun) -> RegisterRecords
        ensures { result ≡ record { kept = start; nearest = start.registers.head } }
    {
        RegisterRecords {
            kept: start,
            nearest: start.registers.head,
        }
    }

    /// Takes in the head's next bit.
    #[inline(always)]
    pub fn pass(&mut self, side: Side, head: u64)
        ensures { self.new ≡ record self.old { nearest = nearer_bit side self.old.nearest head } }
    {
        self.nearest = match side {
            Side::R => self.nearest.min(head),
            Side::L => self.nearest.max(head),
        };
    }

    /// Whether a record is kept that agrees with the one that the run has just made: in the state, and in the
    /// cells from the nearest position out to it, and as far before the new one.
    #[inline(always)]
    fn agrees(
        &self,
        side: Side,
        run: &RegisterRun,
        kept: i64,
        head: i64,
        machine: &Machine,
        limits: &Limits,
    ) -> bool
        requires { KnowsHeads machine.now limits.now side self.now run.now kept head }
        ensures { (at : KnowsHeads machine.now limits.now side self.now run.now kept head)
            → IsTrue result ↔ AgreesWithKept at.comparison.records at.comparison.is_run.runner
            at.comparison.saved at.comparison.is_run.view }
    {
        if kept == 0 {
            return false;
        }
        if self.kept.registers.entry % 64 != run.registers.entry % 64 {
            return false;
        }
        let nearest = position_of_bit(self.nearest);
        let from = nearest.min(kept);
        let length = kept.abs_diff(nearest) + 1;
        let saved = BitCells::of_bits(self.kept.registers.bits);
        let now = BitCells::of_bits(run.registers.bits);
        saved.agrees(from, &now, from + (head - kept), length)
    }

    /// Compares the record that the run has just made with the kept one. The verdict where they agree; else
    /// the record is kept, if its number is at least twice that of the kept one.
    #[inline(always)]
    pub fn compare(
        &mut self,
        side: Side,
        run: RegisterRun,
        machine: &Machine,
        limits: &Limits,
    ) -> Option<Verdict>
        requires { CanCompareRecord machine.now limits.now side self.old run }
        ensures compared { (can : CanCompareRecord machine.now limits.now side self.old run)
            → HasCompared can self.new result }
        ensures numbers { IfSome result HasNumbers }
    {
        limits.show_accepted();
        let kept = position_of_bit(self.kept.registers.head);
        let head = position_of_bit(run.registers.head);
        if self.agrees(side, &run, kept, head, machine, limits) {
            return Some(Verdict::Translated {
                side,
                first: self.kept.steps,
                second: run.steps,
                extent: Some(Extent {
                    shift: head.abs_diff(kept),
                    length: kept.abs_diff(position_of_bit(self.nearest)) + 1,
                }),
            });
        }
        if head.unsigned_abs() < 2 * kept.unsigned_abs() {
            return None;
        }
        self.kept = run;
        self.nearest = run.registers.head;
        None
    }
}
