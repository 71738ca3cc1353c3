//! The configurations of one machine, a line each: the first ones, or some of them.
ghost use Rattle.std.specs.Prelude.{◌≡◌, ◌≢◌, ◌+◌, ◌+ℤ◌, ◌++◌, ◌∷◌, ◌<◌, ◌≤◌, ◌≤ℤ◌, ◌↔◌, ℕ, [], false};
ghost use Rattle.std.specs.Prelude.{is_err, length, pos, true, IfOk, IsOkUnless, IsTrue, List, OnErr, OnOk};
ghost use Rattle.std.specs.Io.KnownBytes.{Appends};
ghost use Rattle.bb_tape.specs.Content.{cell};
ghost use Rattle.bb_tape.specs.declared.tape.TheConstants.{MAX_CELLS};
ghost use Rattle.bb_sim.specs.CellsBetween.{cells_between};
ghost use Rattle.bb_machine.specs.declared.machine.TheConstants.{MAX_STATES};
ghost use Rattle.bb_machine.specs.Entry.{next_letter, IsNextOf};
ghost use Rattle.bb_sim.specs.Runner.{high_of, low_of, position_of, state_of, steps_of, Stands};
ghost use Rattle.bb_sim.specs.Span.{span, IsLastInside};
ghost use Rattle.bb_cert.specs.verdict.Line.{refusal_text};
ghost use Rattle.bb_lines.specs.Ends.{AppendsPrefix, MatchEnd};
ghost use Rattle.bb_lines.specs.Output.{Sends};
ghost use Rattle.bb_lines.specs.Watched.{is_marked, watched_inner};
ghost use Rattle.bb_run.specs.Ends.{TraceEnds};
ghost use Rattle.bb_run.specs.Sample.{IsSampledTrace, IsSampleSize, SampledEnds, sampled_lines};
ghost use Rattle.bb_run.specs.Trace.{IsTraceSummary, IsUncut, cells_text, front_text, head_text};
ghost use Rattle.bb_run.specs.Trace.{line_text, lines_text};
ghost use Rattle.bb_run.specs.inside.RunningOn.{AddedEnds, RunEnds, RunsOn, WrittenEnds};

use crate::summary::Summary;
use arrayvec::ArrayVec;
use bb_cert::refusal_into;
use bb_lines::fault::Fault;
use bb_lines::output::{Waiting, add, add_line, write_and_flush, write_waiting};
use bb_lines::watched::Watched;
use bb_machine::laws::texts_differ;
use bb_machine::{Limits, Machine, Next};
use bb_sim::laws::last_step_exists;
use bb_sim::{Meter, Moved, Runner};
use bb_tape::{Memory, Tape};
use itoa::Buffer;
use std::io::Write;

/// Writes the configurations of a machine's run from step 0 on, a line each, up to the limit of steps or the
/// halt, or up to the last step within the limit of cells. For a line without a machine it writes the
/// refusal.
///
/// After a fault, don't use the writer again.
pub fn run_trace<W: Write, T: Tape>(
    line: &[u8],
    limits: &Limits,
    tape: &mut T,
    writer: &mut Watched<W>,
) -> Result<Summary, Fault>
    requires tape { (T.view tape.old).limit ≡ limits.now.cells }
    requires writer { is_marked writer.old ≡ false }

    // The result of the trace, and the output written.
    ensures ends { TraceEnds limits.now line.now
        (W.contents (watched_inner writer.old)) (W.contents (watched_inner writer.new)) result }

    // When each fault comes.
    ensures memory { result ≡ Err Fault.Memory → IsTrue T.GROWS }
    ensures read { result ≢ Err Fault.Read }
    ensures write { (result ≡ Err Fault.Write) ↔ (is_marked writer.new ≡ true) }

    ensures tape { (T.view tape.new).limit ≡ limits.now.cells }
{
    write_trace(Form::Plain, line, limits, 0, 1, tape, writer)
}

/// The same for some of the steps: `from`, `from + every` and so on, up to the last one of `run_trace`. Each
/// line also has the position of its first cell, before the cells. Other steps cost as much as in a
/// simulation.
///
/// After a fault, don't use the writer again.
pub fn run_sampled_trace<W: Write, T: Tape>(
    line: &[u8],
    limits: &Limits,
    from: u64,
    every: u64,
    tape: &mut T,
    writer: &mut Watched<W>,
) -> Result<Summary, Fault>
    requires every { 0 < every }
    requires tape { (T.view tape.old).limit ≡ limits.now.cells }
    requires writer { is_marked writer.old ≡ false }

    // The result of the trace, and the output written.
    ensures ends { SampledEnds limits.now from every line.now
        (W.contents (watched_inner writer.old)) (W.contents (watched_inner writer.new)) result }

    // When each fault comes.
    ensures memory { result ≡ Err Fault.Memory → IsTrue T.GROWS }
    ensures read { result ≢ Err Fault.Read }
    ensures write { (result ≡ Err Fault.Write) ↔ (is_marked writer.new ≡ true) }

    ensures tape { (T.view tape.new).limit ≡ limits.now.cells }
{
    write_trace(Form::WithLow, line, limits, from, every, tape, writer)
}

/// Writes the trace of a line. An allocation can fail only before the last step.
fn write_trace<W: Write, T: Tape>(
    form: Form,
    line: &[u8],
    limits: &Limits,
    from: u64,
    every: u64,
    tape: &mut T,
    writer: &mut Watched<W>,
) -> Result<Summary, Fault>
    requires every { 0 < every }
    requires tape { (T.view tape.old).limit ≡ limits.now.cells }
    requires writer { is_marked writer.old ≡ false }
    ensures ends { WrittenEnds form limits.now from every line.now
        (W.contents (watched_inner writer.old)) (W.contents (watched_inner writer.new)) result }
    ensures memory { result ≡ Err Fault.Memory → IsTrue T.GROWS }
    ensures read { result ≢ Err Fault.Read }
    ensures write { (result ≡ Err Fault.Write) ↔ (is_marked writer.new ≡ true) }
    ensures tape { (T.view tape.new).limit ≡ limits.now.cells }
{
    let mut waiting = Waiting::new();
    let clean = add_trace(form, line, limits, from, every, tape, writer, &mut waiting)?;
    write_and_flush(writer, &mut waiting)?;
    Ok(Summary {
        clean,
        peak: Meter::new(),
    })
}

/// Lets the trace of a line wait, and answers whether it is a machine's and nothing of it cut off.
fn add_trace<W: Write, T: Tape>(
    form: Form,
    line: &[u8],
    limits: &Limits,
    from: u64,
    every: u64,
    tape: &mut T,
    writer: &mut Watched<W>,
    waiting: &mut Waiting,
) -> Result<bool, Fault>
    requires every { 0 < every }
    requires tape { (T.view tape.old).limit ≡ limits.now.cells }
    requires writer { is_marked writer.old ≡ false }
    requires waiting { waiting.old.items ≡ [] }
    ensures ends { AddedEnds form limits.now from every line.now (W.contents (watched_inner writer.old))
        (W.contents (watched_inner writer.new)) waiting.new.items result }
    ensures memory { result ≡ Err Fault.Memory → IsTrue T.GROWS }
    ensures read { result ≢ Err Fault.Read }
    ensures write { (result ≡ Err Fault.Write) ↔ (is_marked writer.new ≡ true) }
    ensures tape { (T.view tape.new).limit ≡ limits.now.cells }
{
    last_step_exists();
    texts_differ();
    limits.show_accepted();
    match Machine::read(line) {
        Ok(machine) => add_run(form, &machine, limits, from, every, tape, writer, waiting),
        Err(refused) => {
            add_refusal(refused.column, writer, waiting)?;
            Ok(false)
        }
    }
}

/// Lets the refusal of a line wait.
fn add_refusal<W: Write>(
    column: u32,
    writer: &mut Watched<W>,
    waiting: &mut Waiting,
) -> Result<(), Fault>
    requires writer { is_marked writer.old ≡ false }
    ensures sent { OnOk result (Sends (W.contents (watched_inner writer.old))
        (W.contents (watched_inner writer.new)) waiting.old.items waiting.new.items
        (refusal_text column ++ 10 ∷ [])) }
    ensures err { OnErr result (AppendsPrefix (W.contents (watched_inner writer.old))
        (W.contents (watched_inner writer.new)) waiting.old.items) }
    ensures only_write { IsOkUnless result Fault.Write }
    ensures mark { is_marked writer.new ≡ is_err result }
{
    let mut text = ArrayVec::new();
    refusal_into(column, &mut text);
    add_line(writer, waiting, text.as_slice())
}

/// Lets the lines of a machine's run wait, and answers whether the limit of cells cut off nothing of it.
fn add_run<W: Write, T: Tape>(
    form: Form,
    machine: &Machine,
    limits: &Limits,
    from: u64,
    every: u64,
    tape: &mut T,
    writer: &mut Watched<W>,
    waiting: &mut Waiting,
) -> Result<bool, Fault>
    requires every { 0 < every }
    requires tape { (T.view tape.old).limit ≡ limits.now.cells }
    requires writer { is_marked writer.old ≡ false }
    requires waiting { waiting.old.items ≡ [] }
    ensures ends { (last count : ℕ) → IsLastInside machine.now limits.now last
        → IsSampleSize from every last count → RunEnds form limits.now from every machine.now last count
        (W.contents (watched_inner writer.old)) (W.contents (watched_inner writer.new)) waiting.new.items
        result }
    ensures memory { result ≡ Err Fault.Memory → IsTrue T.GROWS }
    ensures read { result ≢ Err Fault.Read }
    ensures write { (result ≡ Err Fault.Write) ↔ (is_marked writer.new ≡ true) }
    ensures tape { (T.view tape.new).limit ≡ limits.now.cells }
{
    let mut runner = Runner::start(machine, tape);
    let mut left = from;
    loop {
        match continue_run(machine, &mut runner, tape, limits, left) {
            Ok(RunStatus::Whole) => add_step(form, machine, &runner, tape, writer, waiting)?,
            Ok(RunStatus::Ended) => return Ok(true),
            Ok(RunStatus::Cut) => return Ok(false),
            Err(_) => {
                write_waiting(writer, waiting)?;
                return Err(Fault::Memory);
            }
        }
        left = every;
    }
}

/// The fields of a line of a trace.
#[derive(Clone, Copy, Debug, PartialEq, Eq)]
pub(crate) enum Form {
    /// The step, the state, the position of the head and the cells.
    Plain,
    /// The position of the first cell too, before the cells.
    WithLow,
}

/// Whether a call of `continue_run` made all its steps.
#[derive(Clone, Copy, Debug, PartialEq, Eq)]
pub(crate) enum RunStatus {
    /// They were.
    Whole,
    /// The machine halts before, or the limit of steps comes before.
    Ended,
    /// The next step would have passed the limit of cells.
    Cut,
}

/// Makes so many steps of a run, if there are as many inside the limits; else it makes those.
///
/// After an error the runner must be started again.
#[inline(never)]
fn continue_run<T: Tape>(
    machine: &Machine,
    runner: &mut Runner,
    tape: &mut T,
    limits: &Limits,
    count: u64,
) -> Result<RunStatus, Memory>
    requires stands { Stands machine.now runner.old (T.view tape.old) }
    requires limit { (T.view tape.old).limit ≡ limits.now.cells }
    requires steps { steps_of runner.old ≤ limits.now.steps }
    ensures { RunsOn T.GROWS machine.now limits.now runner.old runner.new (T.view tape.old)
        (T.view tape.new) count result }
{
    let limits = *limits;
    let mut running = *runner;
    let ran = make_steps(machine, &mut running, tape, &limits, count);
    *runner = running;
    ran
}

/// The body of `continue_run`, inlined there: the runner and the limits are its locals and stay in registers.
#[inline(always)]
fn make_steps<T: Tape>(
    machine: &Machine,
    runner: &mut Runner,
    tape: &mut T,
    limits: &Limits,
    count: u64,
) -> Result<RunStatus, Memory>
    requires stands { Stands machine.now runner.old (T.view tape.old) }
    requires limit { (T.view tape.old).limit ≡ limits.now.cells }
    requires steps { steps_of runner.old ≤ limits.now.steps }
    ensures { RunsOn T.GROWS machine.now limits.now runner.old runner.new (T.view tape.old)
        (T.view tape.new) count result }
{
    limits.show_accepted();
    let mut meter = Meter::new();
    for _ in 0..count {
        match runner.advance(machine, tape, limits, &mut meter)? {
            Moved::Stepped => {}
            Moved::Halted => return Ok(RunStatus::Ended),
            Moved::NoSteps => return Ok(RunStatus::Ended),
            Moved::NoCells => return Ok(RunStatus::Cut),
        }
    }
    Ok(RunStatus::Whole)
}

/// Buffers the line of a runner's configuration.
fn add_step<W: Write, T: Tape>(
    form: Form,
    machine: &Machine,
    runner: &Runner,
    tape: &T,
    writer: &mut Watched<W>,
    waiting: &mut Waiting,
) -> Result<(), Fault>
    requires stands { Stands machine.now runner.now (T.view tape.now) }
    requires writer { is_marked writer.old ≡ false }
    ensures sent { OnOk result (Sends (W.contents (watched_inner writer.old))
        (W.contents (watched_inner writer.new)) waiting.old.items waiting.new.items
        (line_text form machine.now (steps_of runner.now) ++ 10 ∷ [])) }
    ensures err { OnErr result (AppendsPrefix (W.contents (watched_inner writer.old))
        (W.contents (watched_inner writer.new))
        (waiting.old.items ++ (line_text form machine.now (steps_of runner.now) ++ 10 ∷ []))) }
    ensures only_write { IsOkUnless result Fault.Write }
    ensures mark { is_marked writer.new ≡ is_err result }
{
    machine.show_machine();
    add(writer, waiting, front_of(form, runner).as_slice())?;
    add_cells(runner, tape, writer, waiting)?;
    add(writer, waiting, b"\n")
}

/// The fields before the cells in a line, each with a space after it.
fn front_of(form: Form, runner: &Runner) -> ArrayVec<u8, 96>
    requires { IsNextOf MAX_STATES (state_of runner.now) }
    ensures text { result.items ≡ front_text form (steps_of runner.now) (state_of runner.now)
        (position_of runner.now) (low_of runner.now) }
    ensures short { length result.items ≤ 96 }
{
    let mut front = head_of(runner);
    match form {
        Form::Plain => front,
        Form::WithLow => {
            let mut digits = Buffer::new();
            let _low = front.try_extend_from_slice(digits.format(runner.low()).as_bytes());
            front.push(b' ');
            front
        }
    }
}

/// The number of steps, the state and the position of the head, each with a space behind it.
fn head_of(runner: &Runner) -> ArrayVec<u8, 96>
    requires { IsNextOf MAX_STATES (state_of runner.now) }
    ensures text { result.items
        ≡ head_text (steps_of runner.now) (state_of runner.now) (position_of runner.now) }
    ensures short { length result.items ≤ 64 }
{
    let mut digits = Buffer::new();
    let mut head = ArrayVec::new();
    let _steps = head.try_extend_from_slice(digits.format(runner.steps()).as_bytes());
    let _state = head.try_extend_from_slice(&[b' ', letter_of(runner), b' ']);
    let _position = head.try_extend_from_slice(digits.format(runner.position()).as_bytes());
    head.push(b' ');
    head
}

/// The letter of a runner's state.
fn letter_of(runner: &Runner) -> u8
    requires { IsNextOf MAX_STATES (state_of runner.now) }
    ensures { result ≡ next_letter (state_of runner.now) }
{
    match runner.state() {
        Some(state) => Next::State(state).letter(),
        None => Next::Halt.letter(),
    }
}

/// Lets the digits of the cells of a runner's window wait.
fn add_cells<W: Write, T: Tape>(
    runner: &Runner,
    tape: &T,
    writer: &mut Watched<W>,
    waiting: &mut Waiting,
) -> Result<(), Fault>
    requires order { (low_of runner.now) ≤ℤ (high_of runner.now) }
    requires small { cells_between (low_of runner.now) (high_of runner.now) ≤ MAX_CELLS }
    requires zero { (low_of runner.now) ≤ℤ pos 0 }
    requires writer { is_marked writer.old ≡ false }
    ensures sent { OnOk result (Sends (W.contents (watched_inner writer.old))
        (W.contents (watched_inner writer.new)) waiting.old.items waiting.new.items
        (cells_text (T.view tape.now).content (low_of runner.now)
        (cells_between (low_of runner.now) (high_of runner.now)))) }
    ensures err { OnErr result (AppendsPrefix (W.contents (watched_inner writer.old))
        (W.contents (watched_inner writer.new))
        (waiting.old.items ++ cells_text (T.view tape.now).content (low_of runner.now)
        (cells_between (low_of runner.now) (high_of runner.now)))) }
    ensures only_write { IsOkUnless result Fault.Write }
    ensures mark { is_marked writer.new ≡ is_err result }
{
    for i in 0..runner.cells() {
        add_byte(writer, waiting, digit(runner, tape, i))?;
    }
    Ok(())
}

/// Buffers a byte, and writes the buffer first if it is full.
#[inline]
fn add_byte<W: Write>(writer: &mut Watched<W>, waiting: &mut Waiting, byte: u8) -> Result<(), Fault>
    requires writer { is_marked writer.old ≡ false }
    ensures sent { OnOk result (Sends (W.contents (watched_inner writer.old))
        (W.contents (watched_inner writer.new)) waiting.old.items waiting.new.items (byte ∷ [])) }
    ensures err { OnErr result (AppendsPrefix (W.contents (watched_inner writer.old))
        (W.contents (watched_inner writer.new)) waiting.old.items) }
    ensures only_write { IsOkUnless result Fault.Write }
    ensures mark { is_marked writer.new ≡ is_err result }
{
    if waiting.is_full() {
        write_waiting(writer, waiting)?;
    }
    waiting.push(byte);
    Ok(())
}

/// The digit of a cell of a runner's window, counted from the lowest.
#[inline]
fn digit<T: Tape>(runner: &Runner, tape: &T, i: u64) -> u8
    requires zero { (low_of runner.now) ≤ℤ pos 0 }
    requires few { i < MAX_CELLS }
    ensures { result ≡ 48 + cell (T.view tape.now).content ((low_of runner.now) +ℤ pos i) }
{
    b'0' + tape.read(runner.low() + i as i64)
}
