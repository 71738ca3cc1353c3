//! A single-pass run that leaves the registers, on the tapes of a bench.
ghost use Rattle.std.specs.Prelude.{◌≡◌, ◌+◌, ◌≤◌, IfOk, IsTrue, OnErr, length};
ghost use Rattle.bb_machine.specs.Machine.{symbols_of};
ghost use Rattle.bb_tape.specs.TapeView.{TapeView};
ghost use Rattle.bb_registers.specs.BitCells.{bits_content};
ghost use Rattle.bb_registers.specs.Registers.{FitsRegisters};
ghost use Rattle.bb_cert.specs.declared.records.Records.{Records};
ghost use Rattle.bb_decide.specs.Bench.{BenchHasCells};
ghost use Rattle.bb_decide.specs.Fingerprint.{fingerprint};
ghost use Rattle.bb_decide.specs.inside.RegisterPass.{IsInRegisterPass};
ghost use Rattle.bb_decide.specs.inside.RegisterRecords.{KeepsRecord};
ghost use Rattle.bb_decide.specs.inside.Searching.{AreSameRecords, IsUnderWay};

use crate::bench::Bench;
use crate::fingerprint::update_fingerprint;
use crate::keys::FingerprintKeys;
use crate::register_pass::RegisterPass;
use crate::register_records::{RegisterRecords, position_of_bit};
use crate::single_pass::{Fingerprints, SinglePass};
use bb_cert::Side;
use bb_cert::records::Records;
use bb_machine::{Limits, Machine};
use bb_tape::{Memory, Tape};

impl RegisterPass {
    /// Moves the run and what it keeps onto the tapes of a bench.
    ///
    /// After an error the contents of the tapes are unspecified.
    pub(crate) fn move_to_bench<T: Tape, K: FingerprintKeys>(
        &self,
        machine: &Machine,
        limits: &Limits,
        keys: &K,
        bench: &mut Bench<T>,
    ) -> Result<SinglePass, Memory>
        requires symbols { symbols_of machine.now ≡ 2 }
        requires states { length machine.now ≤ 7 }
        requires pass { IsInRegisterPass machine.now limits.now self.now }
        requires wide { FitsRegisters machine.now (self.now.run.steps + 1) → ⊥ }
        requires tapes { BenchHasCells T.view limits.now.cells bench.old }
        ensures begun { IfOk result (λ begun. IsUnderWay machine.now limits.now (K.key_of keys.now) begun
            (T.view bench.new.run) (T.view bench.new.right) (T.view bench.new.left)) }
        ensures tapes { BenchHasCells T.view limits.now.cells bench.new }
        ensures path { bench.new.path ≡ bench.old.path }
        ensures memory { OnErr result (IsTrue T.GROWS) }
    {
        limits.show_accepted();
        let Ok(runner) = self.run.move_to_tape(machine, limits, &mut bench.run) else {
            return Err(Memory);
        };
        let Ok(right) = self
            .right
            .move_to_tape(Side::R, machine, limits, &mut bench.right)
        else {
            return Err(Memory);
        };
        let Ok(left) = self
            .left
            .move_to_tape(Side::L, machine, limits, &mut bench.left)
        else {
            return Err(Memory);
        };
        let fingerprints = Fingerprints {
            current: fingerprint_of_bits(keys, self.run.registers.bits),
            kept: self.kept.run.runner(machine, limits),
            kept_fingerprint: fingerprint_of_bits(keys, self.kept.run.registers.bits),
            next: 2 * self.kept.run.steps,
        };
        Ok(SinglePass {
            runner,
            right,
            left,
            fingerprints,
        })
    }
}

impl RegisterRecords {
    /// Moves the kept record of a side onto a tape.
    ///
    /// After an error the contents of the tape are unspecified.
    fn move_to_tape<T: Tape>(
        &self,
        side: Side,
        machine: &Machine,
        limits: &Limits,
        tape: &mut T,
    ) -> Result<Records, Memory>
        requires keeps { (records : Records) × (saved : TapeView)
            × KeepsRecord machine.now limits.now side self.now records saved }
        requires limit { (T.view tape.old).limit ≡ limits.now.cells }
        ensures same { (records : Records) → (saved : TapeView)
            → KeepsRecord machine.now limits.now side self.now records saved
            → IfOk result (λ new. AreSameRecords machine.now new (T.view tape.new) records saved) }
        ensures limit { (T.view tape.new).limit ≡ (T.view tape.old).limit }
        ensures memory { OnErr result (IsTrue T.GROWS) }
    {
        let Ok(kept) = self.kept.move_to_tape(machine, limits, tape) else {
            return Err(Memory);
        };
        Ok(Records {
            side,
            kept,
            nearest: position_of_bit(self.nearest),
        })
    }
}

/// The fingerprint of the cells of a number.
fn fingerprint_of_bits<K: FingerprintKeys>(keys: &K, bits: u64) -> u64
    ensures { result ≡ fingerprint (K.key_of keys.now) (bits_content bits) }
{
    let mut fingerprint = 0;
    for place in 0..64u32 {
        if (bits >> place) & 1 == 0 {
            continue;
        }
        fingerprint = update_fingerprint(fingerprint, keys, i64::from(place) - 32, 0, 1);
    }
    fingerprint
}
