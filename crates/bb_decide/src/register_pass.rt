//! The single-pass run of a machine of two symbols and at most seven states, in registers. It ends at a halt,
//! at two agreeing records, at a repeated configuration, or where the run leaves the 64 cells.
ghost use Rattle.std.specs.Prelude.{◌≡◌, ◌≤◌, ◌*◌, ◌<◌, ◌^◌, length};
ghost use Rattle.bb_machine.specs.Machine.{symbols_of};
ghost use Rattle.bb_machine.specs.Packed.{IsTableOf};
ghost use Rattle.bb_registers.specs.Registers.{IsRegisterRun};
ghost use Rattle.bb_decide.specs.inside.RegisterPass.{AdvancesPass, EndsRegisterPass, IsInRegisterPass, KeepsRunInTurn};

use crate::register_records::RegisterRecords;
use crate::sprint::Sprint;
use bb_cert::{Side, Verdict};
use bb_machine::{Limits, Machine, PackedTable};
use bb_registers::{Barrier, BlockRun, RegisterMove, RegisterRun};
use bb_sim::Outcome;

/// How the run ends.
#[derive(Clone, Copy, Debug)]
pub(crate) enum RegisterResult {
    /// A cycle, or two records that agree.
    Found(Verdict),
    /// As any run does.
    Ran(Outcome),
    /// The next step would leave the 64 cells.
    Outside,
}

/// The run at the step that is kept, the partner of the next, and the last step before the next one that is
/// kept, at twice that step.
#[derive(Clone, Copy, Debug)]
pub(crate) struct KeptRun {
    pub(crate) run: RegisterRun,
    pub(crate) before_next: u64,
}

impl KeptRun {
    /// Keeps a run, if it is its turn.
    #[inline(always)]
    fn keep_in_turn(&mut self, run: &RegisterRun)
        requires { 2 * run.now.steps < 2 ^ 64 }
        ensures { KeepsRunInTurn run.now self.old self.new }
    {
        if run.steps <= self.before_next {
            return;
        }
        self.run = *run;
        self.before_next = 2 * run.steps - 1;
    }
}

/// A single-pass run in registers, and what it keeps.
#[derive(Clone, Copy, Debug)]
pub(crate) struct RegisterPass {
    pub(crate) run: RegisterRun,
    pub(crate) kept: KeptRun,
    pub(crate) right: RegisterRecords,
    pub(crate) left: RegisterRecords,
}

/// The run where it ends.
#[derive(Clone, Copy, Debug)]
pub(crate) struct RegisterEnd {
    pub(crate) pass: RegisterPass,
    pub(crate) result: RegisterResult,
}

impl RegisterPass {
    /// The run before its first step.
    #[inline(always)]
    fn start(machine: &Machine, limits: &Limits) -> RegisterPass
        ensures { IsInRegisterPass machine.now limits.now result }
    {
        let run = RegisterRun::start(machine, limits);
        RegisterPass {
            run,
            kept: KeptRun {
                run,
                before_next: 0,
            },
            right: RegisterRecords::new(run),
            left: RegisterRecords::new(run),
        }
    }

    /// Makes steps as long as they stay in the window, aren't kept, are within the limit and don't come to the
    /// kept head and state.
    #[inline(always)]
    fn sprint(&mut self, machine: &Machine, table: &PackedTable, limits: &Limits)
        requires symbols { symbols_of machine.now ≡ 2 }
        requires table { IsTableOf machine.now table.now }
        requires pass { IsInRegisterPass machine.now limits.now self.old }
        ensures pass { IsInRegisterPass machine.now limits.now self.new }
        ensures on { self.old.run.steps ≤ self.new.run.steps }
    {
        machine.show_machine();
        let barrier = Barrier {
            to: limits.steps().min(self.kept.before_next),
            window: self.run.window,
            head: self.kept.run.registers.head,
            entry: self.kept.run.registers.entry % 64,
        };
        let start = Sprint {
            run: BlockRun {
                registers: self.run.registers,
                steps: self.run.steps,
            },
            least: self.right.nearest,
            greatest: self.left.nearest,
        };
        let end = start.go_on::<true>(table, &barrier);
        self.run.registers = end.run.registers;
        self.run.steps = end.run.steps;
        self.right.nearest = end.least;
        self.left.nearest = end.greatest;
    }

    /// Makes the next step, and compares it with what is kept. None if the run goes on.
    #[inline(always)]
    fn advance(
        &mut self,
        machine: &Machine,
        table: &PackedTable,
        limits: &Limits,
    ) -> Option<RegisterResult>
        requires symbols { symbols_of machine.now ≡ 2 }
        requires table { IsTableOf machine.now table.now }
        requires pass { IsInRegisterPass machine.now limits.now self.old }
        ensures { AdvancesPass machine.now limits.now self.old self.new result }
    {
        limits.show_accepted();
        let window = self.run.window;
        match self.run.advance(machine, table, limits) {
            RegisterMove::Stepped => {}
            RegisterMove::Ended(outcome) => return Some(RegisterResult::Ran(outcome)),
            RegisterMove::Outside => return Some(RegisterResult::Outside),
        }
        if self.run.has_same_configuration(&self.kept.run) {
            return Some(RegisterResult::Found(Verdict::Cycler {
                first: self.kept.run.steps,
                second: self.run.steps,
            }));
        }
        self.kept.keep_in_turn(&self.run);
        self.right.pass(Side::R, self.run.registers.head);
        self.left.pass(Side::L, self.run.registers.head);
        if self.run.window == window {
            return None;
        }
        if self.run.went_right() {
            return match self.right.compare(Side::R, self.run, machine, limits) {
                Some(verdict) => Some(RegisterResult::Found(verdict)),
                None => None,
            };
        }
        match self.left.compare(Side::L, self.run, machine, limits) {
            Some(verdict) => Some(RegisterResult::Found(verdict)),
            None => None,
        }
    }
}

/// Runs a machine in registers until it halts, a limit is met, a record agrees with its partner, a
/// configuration is that of its partner, or its next step would leave the 64 cells.
pub(crate) fn run_register_pass(machine: &Machine, limits: &Limits) -> RegisterEnd
    requires symbols { symbols_of machine.now ≡ 2 }
    requires states { length machine.now ≤ 7 }
    ensures run { IsRegisterRun machine.now limits.now result.pass.run }
    ensures ends { EndsRegisterPass machine.now limits.now result.pass result.result }
{
    let table = machine.packed();
    let limits = *limits;
    let mut pass = RegisterPass::start(machine, &limits);
    loop {
        pass.sprint(machine, &table, &limits);
        match pass.advance(machine, &table, &limits) {
            Some(result) => return RegisterEnd { pass, result },
            None => {}
        }
    }
}
