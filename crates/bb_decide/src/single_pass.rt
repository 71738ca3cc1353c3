//! The single-pass run. It ends at a halt, at two agreeing records, or at a repeated fingerprint.
ghost use Rattle.std.specs.Prelude.{◌≡◌, ◌+◌, ◌*◌, ◌<◌, ◌≤◌, ◌^◌, ℤ, IfSome, IsTrue, length};
ghost use Rattle.bb_machine.specs.Machine.{symbols_of};
ghost use Rattle.bb_sim.specs.Runner.{steps_of};
ghost use Rattle.bb_registers.specs.Registers.{FitsRegisters};
ghost use Rattle.bb_decide.specs.Bench.{BenchHasCells};
ghost use Rattle.bb_decide.specs.inside.BlockPasses.{IsBlockTable};
ghost use Rattle.bb_decide.specs.inside.RegisterPass.{IsInRegisterPass};
ghost use Rattle.bb_decide.specs.inside.SearchResult.{RunsSinglePass};
ghost use Rattle.bb_decide.specs.inside.Searching.{IsUnderWay};

use crate::bench::Bench;
use crate::block_pass::{block_for, block_table, pass_block};
use crate::fingerprint::update_fingerprint;
use crate::keys::FingerprintKeys;
use crate::record_search::compare_record;
use crate::register_pass::{RegisterPass, RegisterResult, run_register_pass};
use crate::search_result::{SearchResult, count_run, outcome_of};
use bb_cert::Side;
use bb_cert::records::{Records, widened_side};
use bb_machine::{Limits, Machine, PackedTable};
use bb_registers::blocks::cells_before;
use bb_sim::{Meter, Moved, Runner};
use bb_tape::{Memory, Tape};

/// The fingerprint of the run's tape, and that of the kept configuration, the partner of the next step.
#[derive(Clone, Copy, Debug)]
pub(crate) struct Fingerprints {
    pub(crate) current: u64,
    pub(crate) kept: Runner,
    pub(crate) kept_fingerprint: u64,
    // The next step to keep, twice the kept one.
    pub(crate) next: u64,
}

impl Fingerprints {
    ghost use Rattle.bb_decide.specs.inside.Fingerprints.{AreAsKept, KeepInTurn, first_fingerprints};
    ghost use Rattle.bb_sim.specs.Runner.{steps_of};
    ghost use Rattle.std.specs.Prelude.{◌≡◌, ◌*◌, ◌<◌, ◌↔◌, ◌^◌, IsTrue};

    /// Those of a run before its first step.
    #[inline(always)]
    fn new(start: Runner) -> Fingerprints
        ensures { result ≡ first_fingerprints start }
    {
        Fingerprints {
            current: 0,
            kept: start,
            kept_fingerprint: 0,
            next: 0,
        }
    }

    /// Whether state, position and fingerprint are the kept ones.
    #[inline(always)]
    fn are_as_kept(&self, runner: &Runner) -> bool
        ensures { IsTrue result ↔ AreAsKept self.now runner.now }
    {
        self.current == self.kept_fingerprint
            && runner.position() == self.kept.position()
            && runner.state() == self.kept.state()
    }

    /// Keeps the runner's configuration, if it is its turn.
    #[inline(always)]
    fn keep_in_turn(&mut self, runner: &Runner)
        requires { 2 * steps_of runner.now < 2 ^ 64 }
        ensures { KeepInTurn runner.now self.old self.new }
    {
        if runner.steps() < self.next {
            return;
        }
        self.kept = *runner;
        self.kept_fingerprint = self.current;
        self.next = 2 * runner.steps();
    }
}

/// A single-pass run, apart from the tapes of its bench.
#[derive(Clone, Copy, Debug)]
pub(crate) struct SinglePass {
    pub(crate) runner: Runner,
    pub(crate) right: Records,
    pub(crate) left: Records,
    pub(crate) fingerprints: Fingerprints,
}

impl SinglePass {
    ghost use Rattle.std.specs.Prelude.{◌≡◌, ℕ, ℤ};
    ghost use Rattle.bb_machine.specs.Limits.{Bounds};
    ghost use Rattle.bb_tape.specs.TapeView.{TapeView};
    ghost use Rattle.bb_registers.specs.Registers.{FitsRegisters};
    ghost use Rattle.bb_decide.specs.inside.Searching.{IsUnderWay};

    /// The run at its start.
    #[inline(always)]
    fn start<T: Tape>(machine: &Machine, run: &mut T) -> SinglePass
        requires wide { FitsRegisters machine.now 1 → ⊥ }
        ensures begun { (key : ℤ → ℕ) → (bounds : Bounds) → (right left : TapeView)
            → IsUnderWay machine.now bounds key result (T.view run.new) right left }
        ensures limit { (T.view run.new).limit ≡ (T.view run.old).limit }
    {
        let runner = Runner::start(machine, run);
        SinglePass {
            runner,
            right: Records::new(Side::R, runner),
            left: Records::new(Side::L, runner),
            fingerprints: Fingerprints::new(runner),
        }
    }
}

/// Runs a machine until it halts, a limit is met, a record agrees with its partner or, in registers, a
/// configuration is that of its partner. None at the first later step with the state, position and
/// fingerprint of its partner, the greatest power of two below it: the two configurations may be the same.
/// A machine that fits the registers begins there, and goes on on the bench where it leaves them.
///
/// After an error the contents of the tapes are unspecified; the next call resets them.
#[inline(never)]
pub fn run_single_pass<T: Tape, K: FingerprintKeys>(
    machine: &Machine,
    limits: &Limits,
    keys: &K,
    bench: &mut Bench<T>,
    meter: &mut Meter,
) -> Result<Option<SearchResult>, Memory>
    requires tapes { BenchHasCells T.view limits.now.cells bench.old }
    requires room { meter.old.steps ≤ 2 * limits.now.steps }
    ensures { RunsSinglePass T.GROWS T.view machine.now limits.now (K.key_of keys.now) bench.old bench.new
        meter.old meter.new result }
{
    if !machine.is_small() {
        let Ok(search_result) = run_on_bench(machine, limits, keys, bench, meter) else {
            return Err(Memory);
        };
        return Ok(search_result);
    }
    limits.show_accepted();
    let end = run_register_pass(machine, limits);
    let run = end.pass.run;
    match end.result {
        RegisterResult::Found(verdict) => {
            run.count(run.steps, limits, meter);
            Ok(Some(SearchResult::Found(verdict)))
        }
        RegisterResult::Ran(outcome) => {
            run.count(run.last_step(outcome), limits, meter);
            Ok(Some(SearchResult::Ran(outcome)))
        }
        RegisterResult::Outside => {
            let pass = end.pass;
            let Ok(search_result) = leave_registers(&pass, machine, limits, keys, bench, meter)
            else {
                return Err(Memory);
            };
            Ok(search_result)
        }
    }
}

/// The single-pass run of a machine that doesn't fit the registers.
///
/// Neither it nor `leave_registers` is inlined, nor do they write to the result of their caller: so the
/// compiler keeps the result of a short run in registers, and clears no memory for the tapes' runs.
#[inline(never)]
fn run_on_bench<T: Tape, K: FingerprintKeys>(
    machine: &Machine,
    limits: &Limits,
    keys: &K,
    bench: &mut Bench<T>,
    meter: &mut Meter,
) -> Result<Option<SearchResult>, Memory>
    requires wide { FitsRegisters machine.now 1 → ⊥ }
    requires tapes { BenchHasCells T.view limits.now.cells bench.old }
    requires room { meter.old.steps ≤ 2 * limits.now.steps }
    ensures { RunsSinglePass T.GROWS T.view machine.now limits.now (K.key_of keys.now) bench.old bench.new
        meter.old meter.new result }
{
    let begun = SinglePass::start(machine, &mut bench.run);
    continue_with(None, machine, limits, keys, begun, bench, meter)
}

/// Continues a single-pass run on the bench, from its last configuration in registers.
#[inline(never)]
fn leave_registers<T: Tape, K: FingerprintKeys>(
    pass: &RegisterPass,
    machine: &Machine,
    limits: &Limits,
    keys: &K,
    bench: &mut Bench<T>,
    meter: &mut Meter,
) -> Result<Option<SearchResult>, Memory>
    requires symbols { symbols_of machine.now ≡ 2 }
    requires states { length machine.now ≤ 7 }
    requires pass { IsInRegisterPass machine.now limits.now pass.now }
    requires wide { FitsRegisters machine.now (pass.now.run.steps + 1) → ⊥ }
    requires tapes { BenchHasCells T.view limits.now.cells bench.old }
    requires room { meter.old.steps ≤ 2 * limits.now.steps }
    ensures { RunsSinglePass T.GROWS T.view machine.now limits.now (K.key_of keys.now) bench.old bench.new
        meter.old meter.new result }
{
    limits.show_accepted();
    let Ok(begun) = pass.move_to_bench(machine, limits, keys, bench) else {
        pass.run.count(pass.run.steps, limits, meter);
        bench.run.reset();
        return Err(Memory);
    };
    continue_single_pass(machine, limits, keys, begun, bench, meter)
}

/// A copy of the limits. It is a call, so that machine and limits aren't held in registers of the loop, which
/// has better use for them.
#[inline(never)]
fn copy_of(limits: &Limits) -> Limits
    ensures { result ≡ limits.now }
{
    *limits
}

/// These records, whose side is known: written out by the caller, it is a constant of the loop.
#[inline(always)]
fn of_side(records: Records, side: Side) -> Records
    requires side { records.side ≡ side }
    ensures { result ≡ records }
{
    let mut known = records;
    known.side = side;
    known
}

/// Continues a single-pass run on the tapes of a bench, in blocks where that is possible.
#[inline(never)]
fn continue_single_pass<T: Tape, K: FingerprintKeys>(
    machine: &Machine,
    limits: &Limits,
    keys: &K,
    begun: SinglePass,
    bench: &mut Bench<T>,
    meter: &mut Meter,
) -> Result<Option<SearchResult>, Memory>
    requires begun { IsUnderWay machine.now limits.now (K.key_of keys.now) begun (T.view bench.old.run)
        (T.view bench.old.right) (T.view bench.old.left) }
    requires tapes { BenchHasCells T.view limits.now.cells bench.old }
    requires room { meter.old.steps ≤ 2 * limits.now.steps }
    ensures { RunsSinglePass T.GROWS T.view machine.now limits.now (K.key_of keys.now) bench.old bench.new
        meter.old meter.new result }
{
    let table = block_table(machine, &bench.run);
    continue_with(table, machine, limits, keys, begun, bench, meter)
}

/// The same with the table for blocks, if any. It is inlined: without a table, the loop has no test for
/// blocks.
#[inline(always)]
fn continue_with<T: Tape, K: FingerprintKeys>(
    table: Option<PackedTable>,
    machine: &Machine,
    limits: &Limits,
    keys: &K,
    begun: SinglePass,
    bench: &mut Bench<T>,
    meter: &mut Meter,
) -> Result<Option<SearchResult>, Memory>
    requires table { IfSome table (IsBlockTable T.GROWS machine.now) }
    requires begun { IsUnderWay machine.now limits.now (K.key_of keys.now) begun (T.view bench.old.run)
        (T.view bench.old.right) (T.view bench.old.left) }
    requires tapes { BenchHasCells T.view limits.now.cells bench.old }
    requires room { meter.old.steps ≤ 2 * limits.now.steps }
    ensures { RunsSinglePass T.GROWS T.view machine.now limits.now (K.key_of keys.now) bench.old bench.new
        meter.old meter.new result }
{
    let limits = copy_of(limits);
    // The loop needn't ask for Z at its first step either.
    let Some(_) = begun.runner.state() else {
        unreachable!();
    };
    run_single_pass_inline(machine, &limits, keys, begun, table, bench, meter)
}

/// The body of `continue_with`, inlined there: the limits are its local and stay in registers. The
/// runner counts its steps and cells, and the meter adds them at the end of the run.
#[inline(always)]
fn run_single_pass_inline<T: Tape, K: FingerprintKeys>(
    machine: &Machine,
    limits: &Limits,
    keys: &K,
    begun: SinglePass,
    table: Option<PackedTable>,
    bench: &mut Bench<T>,
    meter: &mut Meter,
) -> Result<Option<SearchResult>, Memory>
    requires table { IfSome table (IsBlockTable T.GROWS machine.now) }
    requires begun { IsUnderWay machine.now limits.now (K.key_of keys.now) begun (T.view bench.old.run)
        (T.view bench.old.right) (T.view bench.old.left) }
    requires tapes { BenchHasCells T.view limits.now.cells bench.old }
    requires room { meter.old.steps ≤ 2 * limits.now.steps }
    ensures { RunsSinglePass T.GROWS T.view machine.now limits.now (K.key_of keys.now) bench.old bench.new
        meter.old meter.new result }
{
    limits.show_accepted();
    let mut runner = begun.runner;
    let mut right = of_side(begun.right, Side::R);
    let mut left = of_side(begun.left, Side::L);
    let mut fingerprints = begun.fingerprints;
    loop {
        let cells = runner.cells();
        let position = runner.position();
        let old = bench.run.read_inside(position);
        // The step is made here, and not by `step_on`: beside the read of the cell that costs less.
        let mut uncounted = Meter::new();
        let Ok(moved) = runner.advance(machine, &mut bench.run, limits, &mut uncounted) else {
            count_run(meter, runner);
            return Err(Memory);
        };
        let Moved::Stepped = moved else {
            count_run(meter, runner);
            return Ok(Some(SearchResult::Ran(outcome_of(moved, runner, &bench.run))));
        };
        // Z is never met twice, so this step can't be a repeat: the run ends.
        let Some(_) = runner.state() else {
            count_run(meter, runner);
            return Ok(Some(SearchResult::Ran(outcome_of(Moved::Halted, runner, &bench.run))));
        };
        let new = bench.run.read_inside(position);
        fingerprints.current = update_fingerprint(fingerprints.current, keys, position, old, new);
        if fingerprints.are_as_kept(&runner) {
            count_run(meter, runner);
            return Ok(None);
        }
        fingerprints.keep_in_turn(&runner);
        right.pass(runner.position());
        left.pass(runner.position());
        // A step makes a record exactly if it widens the window.
        let Some(side) = widened_side(&runner, cells) else {
            let before = cells_before(position < runner.position());
            let Some(from) = block_for(&table, &runner, before) else {
                continue;
            };
            // A copy, so that without a table the compiler leaves out the test for blocks.
            let Some(packed) = &table else {
                continue;
            };
            let packed = *packed;
            let here = SinglePass {
                runner,
                right,
                left,
                fingerprints,
            };
            let pass = pass_block(machine, &packed, limits, keys, here, &mut bench.run, from);
            runner = pass.runner;
            right = of_side(pass.right, Side::R);
            left = of_side(pass.left, Side::L);
            fingerprints = pass.fingerprints;
            continue;
        };
        match compare_record(
            side,
            &mut right,
            &mut left,
            &runner,
            &bench.run,
            &mut bench.right,
            &mut bench.left,
            meter,
        )? {
            Some(verdict) => {
                count_run(meter, runner);
                return Ok(Some(SearchResult::Found(verdict)));
            }
            None => {}
        }
    }
}
