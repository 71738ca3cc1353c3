//! A run in registers, step by step.
ghost use Rattle.std.specs.Prelude.{◌≡◌, ◌+◌, ◌-◌, ◌<◌, ◌≤◌, ◌^◌, ◌↔◌, IsTrue};
ghost use Rattle.bb_sim.specs.Meter.{counted};
ghost use Rattle.std.specs.Int.{bit_at};
ghost use Rattle.bb_machine.specs.Machine.{symbols_of};
ghost use Rattle.bb_machine.specs.Packed.{IsTableOf};
ghost use Rattle.bb_registers.specs.Registers.{AdvancesRegisters, EndsWith, IsRegisterRun, IsNextEntry, IsSameConfiguration};
ghost use Rattle.bb_registers.specs.Registers.{last_step};
ghost use Rattle.bb_registers.specs.declared.run.RegisterMove.TheVariants.{Outside, Stepped};

use crate::registers::{Registers, halts, stops};
use bb_machine::packed::RIGHT;
use bb_machine::{Limits, Machine, PackedTable};
use bb_sim::{Meter, Outcome};

/// The outcome of `RegisterRun::advance`.
#[derive(Clone, Copy, Debug, PartialEq, Eq)]
pub enum RegisterMove {
    /// The run is at the next configuration.
    Stepped,
    /// The run ends here.
    Ended(Outcome),
    /// The next step would leave the 64 cells.
    Outside,
}

/// A run in registers.
#[derive(Clone, Copy, Debug)]
pub struct RegisterRun {
    /// Its configuration.
    pub registers: Registers,
    /// Its window, as the bits of the cells visited so far.
    pub window: u64,
    /// How many more cells it may visit.
    pub room: u64,
    /// The steps made so far.
    pub steps: u64,
}

impl RegisterRun {
    /// A run that has made no step.
    #[inline(always)]
    pub fn start(machine: &Machine, limits: &Limits) -> RegisterRun
        ensures run { IsRegisterRun machine.now limits.now result }
        ensures steps { result.steps ≡ 0 }
    {
        machine.show_machine();
        limits.show_accepted();
        RegisterRun {
            registers: Registers::start(),
            window: 1 << 32,
            room: limits.cells() - 1,
            steps: 0,
        }
    }

    /// Makes the next step, if there is one inside the limits and the 64 cells.
    #[inline(always)]
    pub fn advance(
        &mut self,
        machine: &Machine,
        table: &PackedTable,
        limits: &Limits,
    ) -> RegisterMove
        requires symbols { symbols_of machine.now ≡ 2 }
        requires table { IsTableOf machine.now table.now }
        requires run { IsRegisterRun machine.now limits.now self.old }
        ensures { AdvancesRegisters machine.now limits.now self.old self.new result }
    {
        machine.show_machine();
        limits.show_accepted();
        let next = self.registers.next::<true>(table);
        if stops(next.entry) {
            return RegisterMove::Ended(self.end(machine, limits, next.entry));
        }
        if self.steps == limits.steps() {
            return RegisterMove::Ended(Outcome::NoSteps);
        }
        if self.window & next.head == 0 {
            if self.room == 0 {
                return RegisterMove::Ended(Outcome::NoCells);
            }
            if next.head == 0 {
                return RegisterMove::Outside;
            }
            self.room -= 1;
            self.window |= next.head;
        }
        self.registers = next;
        self.steps += 1;
        RegisterMove::Stepped
    }

    /// Whether state, position and cells are those of another run.
    #[inline(always)]
    pub fn has_same_configuration(&self, other: &RegisterRun) -> bool
        ensures { IsTrue result ↔ IsSameConfiguration self.now.registers other.now.registers }
    {
        self.registers.bits == other.registers.bits
            && self.registers.head == other.registers.head
            && self.registers.entry & 63 == other.registers.entry & 63
    }

    /// Whether the last step went to the right.
    #[inline(always)]
    pub fn went_right(&self) -> bool
        ensures { IsTrue result ↔ (bit_at self.now.registers.entry 7 ≡ 1) }
    {
        self.registers.entry & RIGHT != 0
    }

    /// The last step of a run with this outcome: that of the halt, or else the last that was made.
    pub fn last_step(&self, outcome: Outcome) -> u64
        ensures { result ≡ last_step self.now outcome }
    {
        match outcome {
            Outcome::Halt { steps, .. } => steps,
            Outcome::NoSteps | Outcome::NoCells => self.steps,
        }
    }

    /// Adds the run up to a step to a meter: its steps, and the cells of its window.
    pub fn count(&self, steps: u64, limits: &Limits, meter: &mut Meter)
        requires room { meter.old.steps + steps < 2 ^ 64 }
        requires cells { self.now.room ≤ limits.now.cells }
        ensures { meter.new ≡ counted meter.old steps (limits.now.cells - self.now.room) }
    {
        meter.steps += steps;
        meter.most_cells = meter.most_cells.max(limits.cells() - self.room);
    }

    /// How the run ends where its entry goes to no state.
    fn end(&self, machine: &Machine, limits: &Limits, entry: u64) -> Outcome
        requires symbols { symbols_of machine.now ≡ 2 }
        requires run { IsRegisterRun machine.now limits.now self.now }
        requires entry { IsNextEntry machine.now limits.now self.now entry }
        requires stops { bit_at entry 8 ≡ 1 }
        ensures { (known : IsRegisterRun machine.now limits.now self.now) → EndsWith known result }
    {
        machine.show_machine();
        limits.show_accepted();
        if !halts(entry) {
            return Outcome::Halt {
                steps: self.steps,
                score: u64::from(self.registers.bits.count_ones()),
            };
        }
        if self.steps == limits.steps() {
            return Outcome::NoSteps;
        }
        Outcome::Halt {
            steps: self.steps + 1,
            score: u64::from(self.registers.flipped_bits(entry).count_ones()),
        }
    }
}
