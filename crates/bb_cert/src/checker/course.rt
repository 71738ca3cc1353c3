//! Something that is followed along the run of a claim.
ghost use Rattle.std.specs.Prelude.{ℕ, ◌+◌, Bool, false, IsTrue};
ghost use Rattle.bb_machine.specs.Machine.{Table};
ghost use Rattle.bb_sim.specs.Runner.{steps_of};
ghost use Rattle.bb_cert.specs.checker.Course.{IsReadAt, IsRunnerAt};

use bb_machine::Machine;
use bb_sim::Runner;

/// Something that is followed along a run, step by step.
pub trait Course {
    ghost READS: { Bool };

    /// Whether it takes in the symbols that the steps read.
    const READS: bool;

    /// The relation between one step and a later one.
    ghost goes_on: { Table → ℕ → ℕ → Self → Self → Type 0 };

    /// Takes in a step, from the runner before it to the one after it. The symbol is that under the head before
    /// it, for a course that takes it in.
    fn take_in(&mut self, machine: &Machine, before: &Runner, symbol: u8, after: &Runner)
        requires before { IsRunnerAt machine.now (steps_of before.now) before.now }
        requires read { IsTrue READS → IsReadAt machine.now (steps_of before.now) symbol }
        requires after { IsRunnerAt machine.now (steps_of before.now + 1) after.now }
        ensures { goes_on machine.now (steps_of before.now) (steps_of before.now + 1) self.old self.new };

    ghost stays: { (table : Table) (n : ℕ) (course : Self) → goes_on table n n course course };

    ghost goes_further: { (table : Table) (a b c : ℕ) (first second third : Self)
        → goes_on table a b first second → goes_on table b c second third → goes_on table a c first third };
}

/// Nothing is followed.
impl Course for () {
    ghost READS = { false };

    const READS: bool = false;

    ghost goes_on = { λ table a b old new. Unit {0} };

    ghost stays = { λ table n course. tt };

    ghost goes_further = { λ table a b c first second third one other. tt };

    #[inline(always)]
    fn take_in(&mut self, _machine: &Machine, _before: &Runner, _symbol: u8, _after: &Runner) {}
}
