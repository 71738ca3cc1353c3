//! One step of a run.
ghost use Rattle.std.specs.Prelude.{◌≡◌, ◌+◌, ◌<◌, ◌≤◌, ◌^◌, ◌↔◌, ◌≤ℤ◌, ◌+ℤ◌, ◌-ℤ◌};
ghost use Rattle.std.specs.Prelude.{neg_ℤ, pos, IfOk, IsTrue, MatchOption, OnErr, OnOk};
ghost use Rattle.bb_tape.specs.declared.tape.TheConstants.{MAX_CELLS};
ghost use Rattle.bb_sim.specs.Configuration as configuration;

use crate::meter::Meter;
use bb_machine::{Dir, Entry, Limits, Machine, Next};
use bb_tape::{MAX_CELLS, MAX_SYMBOL, Memory, Tape};

/// The result of `Runner::advance`. All but `Stepped` change nothing.
#[derive(Clone, Copy, Debug, PartialEq, Eq)]
pub enum Moved {
    /// There is no next configuration.
    Halted,
    /// As many steps were made as the limits allow.
    NoSteps,
    /// The next step would take the head past the limit of cells.
    NoCells,
    /// The runner is at the next configuration.
    Stepped,
}

/// A machine's run on a tape owned by the caller: its configuration apart from the tape, its steps and its
/// window.
#[derive(Clone, Copy, Debug)]
pub struct Runner {
    state: Next,
    position: i64,
    steps: u64,
    /// The least position of the window.
    low: i64,
    /// How many cells the window has.
    cells: u64,
    ghost some_cell: { 0 < cells },
    ghost few_cells: { cells ≤ MAX_CELLS },
    ghost low_to_zero: { low ≤ℤ pos 0 },
    ghost low_small: { neg_ℤ (pos MAX_CELLS) ≤ℤ low },
}

impl Runner {
    ghost use Rattle.bb_machine.specs.Machine.{IsMachine};
    ghost use Rattle.bb_tape.specs.Content.{cell};
    ghost use Rattle.bb_tape.specs.TapeView.{IsBeside, IsInside, written};
    ghost use Rattle.bb_sim.specs.Configuration.{entry_at};
    ghost use Rattle.bb_sim.specs.CellsBetween.{cells_between};
    ghost use Rattle.bb_sim.specs.Meter.{stepped};
    ghost use Rattle.bb_sim.specs.Runner.{Answers, Moves, Reaches, Stands, high_of};
    ghost use Rattle.bb_sim.specs.Runner.{low_of, position_of, state_of, steps_of};
    ghost use Rattle.bb_sim.specs.Span.{Inside, span};
    ghost use Rattle.bb_sim.specs.inside.Advancing.{Advances};
    ghost use Rattle.bb_sim.specs.inside.Widening.{GoesNowhere, Widens, StepsTo};
    ghost use Rattle.bb_sim.specs.declared.runner.Moved.{Moved};

    /// Resets the tape and starts at configuration 0: state A, position 0.
    pub fn start<T: Tape>(machine: &Machine, tape: &mut T) -> Runner
        ensures stands { Stands machine.now result (T.view tape.new) }
        ensures steps { steps_of result ≡ 0 }
        ensures limit { (T.view tape.new).limit ≡ (T.view tape.old).limit }
    {
        machine.show_machine();
        tape.reset();
        Runner {
            state: Next::State(0),
            position: 0,
            steps: 0,
            low: 0,
            cells: 1,
        }
    }

    /// A runner inside a run: its configuration apart from the tape, the steps made so far, and its window,
    /// that has so many cells from the least position on.
    #[inline]
    pub fn at(state: Next, position: i64, made: u64, low: i64, cells: u64) -> Runner
        requires some_cell { 0 < cells }
        requires few_cells { cells ≤ MAX_CELLS }
        requires low_to_zero { low ≤ℤ pos 0 }
        requires low_small { neg_ℤ (pos MAX_CELLS) ≤ℤ low }
        ensures state { state_of result ≡ state }
        ensures position { position_of result ≡ position }
        ensures steps { steps_of result ≡ made }
        ensures low { low_of result ≡ low }
        ensures high { high_of result ≡ (low +ℤ pos cells) -ℤ pos 1 }
    {
        Runner {
            state,
            position,
            steps: made,
            low,
            cells,
        }
    }

    /// Makes one step of the machine, unless it halts here or a limit is met.
    ///
    /// `Err` comes only where a step would have been made; start the runner again after it. Steps and cells
    /// are then unchanged, and the window is the one needed for the step.
    #[inline]
    pub fn advance<T: Tape>(
        &mut self,
        machine: &Machine,
        tape: &mut T,
        limits: &Limits,
        meter: &mut Meter,
    ) -> Result<Moved, Memory>
        requires stands { Stands machine.now self.old (T.view tape.old) }
        requires limit { (T.view tape.old).limit ≡ limits.now.cells }
        requires steps { steps_of self.old ≤ limits.now.steps }
        requires room { meter.old.steps + 1 < 2 ^ 64 }
        ensures before { Inside machine.now limits.now (steps_of self.old) }
        ensures answers { IfOk result (Answers machine.now limits.now (steps_of self.old)) }
        ensures moves { IfOk result (Moves machine.now self.old self.new (T.view tape.old) (T.view tape.new)
            meter.old meter.new) }
        ensures reaches { IfOk result (Reaches machine.now limits.now self.new (T.view tape.new)) }
        ensures stands { OnOk result (Stands machine.now self.new (T.view tape.new)) }
        ensures limit { (T.view tape.new).limit ≡ (T.view tape.old).limit }
        ensures memory { OnErr result (IsTrue T.GROWS) }
        ensures wanted { OnErr result (Answers machine.now limits.now (steps_of self.old) Moved.Stepped) }
        ensures uncounted { OnErr result (meter.new ≡ meter.old) }
        ensures unmade { OnErr result (steps_of self.new ≡ steps_of self.old) }
        ensures unwritten { OnErr result ((T.view tape.new).content ≡ (T.view tape.old).content) }
        ensures window { OnErr result (cells_between (low_of self.new) (high_of self.new)
            ≡ span machine.now (steps_of self.old + 1)) }
    {
        self.show_inside(machine, tape, limits);
        let Next::State(state) = self.state else {
            return Ok(Moved::Halted);
        };
        let symbol = tape.read_inside(self.position);
        let Some(step) = machine.step(state, symbol) else {
            let entry = machine.entry(state, symbol);
            return self.advance_to_halt(machine, tape, limits, meter, entry);
        };
        if self.steps == limits.steps() {
            return Ok(Moved::NoSteps);
        }
        let position = offset_by(self.position, step.offset);
        if !self.enter(tape, limits, position) {
            return Ok(Moved::NoCells);
        }
        let next = Next::State(step.state);
        let Ok(()) = self.step_to(tape, meter, step.write, next, position) else {
            return Err(Memory);
        };
        Ok(Moved::Stepped)
    }

    /// The rest of `advance` for an undefined transition, or one into Z. It is inlined, so that a runner that
    /// is a local of its caller stays in registers.
    #[inline(always)]
    fn advance_to_halt<T: Tape>(
        &mut self,
        machine: &Machine,
        tape: &mut T,
        limits: &Limits,
        meter: &mut Meter,
        entry: Entry,
    ) -> Result<Moved, Memory>
        requires stands { Stands machine.now self.old (T.view tape.old) }
        requires limit { (T.view tape.old).limit ≡ limits.now.cells }
        requires steps { steps_of self.old ≤ limits.now.steps }
        requires room { meter.old.steps + 1 < 2 ^ 64 }
        requires entry { entry ≡ entry_at machine.now (state_of self.old)
            (cell (T.view tape.old).content (position_of self.old)) }
        requires nowhere { GoesNowhere machine.now entry }
        requires machine { IsMachine machine.now }
        ensures { Advances T.GROWS machine.now limits.now self.old self.new (T.view tape.old)
            (T.view tape.new) meter.old meter.new result }
    {
        self.show_inside(machine, tape, limits);
        let Entry::Go { write, dir, next } = entry else {
            return Ok(Moved::Halted);
        };
        if self.steps == limits.steps() {
            return Ok(Moved::NoSteps);
        }
        let position = beside(self.position, dir);
        let Ok(()) = self.step_to(tape, meter, write, next, position) else {
            return Err(Memory);
        };
        Ok(Moved::Stepped)
    }

    /// States that the runner's step is inside the limits, for proofs. It does nothing at run time.
    #[inline(always)]
    fn show_inside<T: Tape>(&self, machine: &Machine, tape: &T, limits: &Limits)
        requires stands { Stands machine.now self.now (T.view tape.now) }
        requires limit { (T.view tape.now).limit ≡ limits.now.cells }
        requires steps { steps_of self.now ≤ limits.now.steps }
        ensures { Inside machine.now limits.now (steps_of self.now) }
    {}

    /// Widens the window to a position in it or next to it, if the limit of cells allows it.
    #[inline(always)]
    fn enter<T: Tape>(&mut self, tape: &mut T, limits: &Limits, position: i64) -> bool
        requires near { IsBeside (T.view tape.old) position }
        requires low { (T.view tape.old).low ≡ low_of self.old }
        requires high { (T.view tape.old).high ≡ high_of self.old }
        requires limit { (T.view tape.old).limit ≡ limits.now.cells }
        ensures { Widens self.old self.new (T.view tape.old) (T.view tape.new) position result }
    {
        if self.is_inside(position) {
            return true;
        }
        if self.cells == limits.cells() {
            return false;
        }
        if position < self.low {
            tape.widen_low(position);
            self.low = position;
            self.cells += 1;
            return true;
        }
        tape.widen_high(position);
        self.cells += 1;
        true
    }

    /// Writes a symbol under the head, changes state and position, and counts the step.
    #[inline(always)]
    fn step_to<T: Tape>(
        &mut self,
        tape: &mut T,
        meter: &mut Meter,
        write: u8,
        next: Next,
        position: i64,
    ) -> Result<(), Memory>
        requires inside { IsInside (T.view tape.old) (position_of self.old) }
        requires symbol { write ≤ MAX_SYMBOL }
        requires steps { steps_of self.old + 1 < 2 ^ 64 }
        requires room { meter.old.steps + 1 < 2 ^ 64 }
        ensures steps { OnOk result (StepsTo self.old self.new next position) }
        ensures written { OnOk result (T.view tape.new
            ≡ written (T.view tape.old) (position_of self.old) write) }
        ensures counted { OnOk result (meter.new
            ≡ stepped meter.old (cells_between (low_of self.old) (high_of self.old))) }
        ensures limit { (T.view tape.new).limit ≡ (T.view tape.old).limit }
        ensures memory { OnErr result (IsTrue T.GROWS) }
        ensures uncounted { OnErr result (meter.new ≡ meter.old) }
        ensures unwritten { OnErr result ((T.view tape.new).content ≡ (T.view tape.old).content) }
        ensures unmoved { OnErr result (self.new ≡ self.old) }
    {
        let Ok(()) = tape.write(self.position, write) else {
            return Err(Memory);
        };
        self.state = next;
        self.position = position;
        self.steps += 1;
        meter.steps += 1;
        meter.most_cells = meter.most_cells.max(self.cells);
        Ok(())
    }

    /// Whether a position in the window or next to it is in the window: one compare.
    #[inline]
    fn is_inside(&self, position: i64) -> bool
        requires low { low_of self.now ≤ℤ (position +ℤ pos 1) }
        requires high { position ≤ℤ (high_of self.now +ℤ pos 1) }
        ensures { IsTrue result ↔ ((low_of self.now ≤ℤ position) × (position ≤ℤ high_of self.now)) }
    {
        (position - self.low).cast_unsigned() < self.cells
    }

    /// How many cells the window has.
    #[inline]
    pub fn cells(&self) -> u64
        ensures { result ≡ cells_between (low_of self.now) (high_of self.now) }
    {
        self.cells
    }

    /// The state, from 0 for A; none in Z.
    pub fn state(&self) -> Option<u8>
        ensures { MatchOption result (state_of self.now ≡ Next.Halt)
            (λ state. state_of self.now ≡ Next.State state) }
    {
        match self.state {
            Next::State(state) => Some(state),
            Next::Halt => None,
        }
    }

    /// The head's position. In Z this may be outside the window.
    pub fn position(&self) -> i64
        ensures { result ≡ position_of self.now }
    {
        self.position
    }

    /// How many steps were made.
    #[inline]
    pub fn steps(&self) -> u64
        ensures { result ≡ steps_of self.now }
    {
        self.steps
    }

    /// The least position of the window.
    pub fn low(&self) -> i64
        ensures { result ≡ low_of self.now }
    {
        self.low
    }

    /// The greatest position of the window.
    pub fn high(&self) -> i64
        ensures { result ≡ high_of self.now }
    {
        self.low + (self.cells - 1) as i64
    }
}

/// The position beside another.
#[inline]
fn beside(position: i64, dir: Dir) -> i64
    requires low { neg_ℤ (pos MAX_CELLS) ≤ℤ position }
    requires high { position ≤ℤ pos MAX_CELLS }
    ensures { result ≡ configuration.beside dir position }
{
    match dir {
        Dir::L => position - 1,
        Dir::R => position + 1,
    }
}

/// The position an offset of one cell away.
#[inline]
fn offset_by(position: i64, offset: i8) -> i64
    requires low { neg_ℤ (pos MAX_CELLS) ≤ℤ position }
    requires high { position ≤ℤ pos MAX_CELLS }
    ensures { result ≡ position +ℤ offset }
{
    position + i64::from(offset)
}
