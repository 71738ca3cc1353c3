//! The line of a machine: the machine of a complete list whose verdict settles it.
ghost use Rattle.std.specs.Prelude.{◌≡◌, ◌≢◌, ◌⊎◌, ℕ, ◌+◌, ◌<◌, IfOk, IsTrue, MatchOption, OnErr};
ghost use Rattle.std.specs.Prelude.{false, length};
ghost use Rattle.bb_machine.specs.declared.entry.Dir.{Dir};
ghost use Rattle.bb_machine.specs.declared.entry.Entry.{Entry};
ghost use Rattle.bb_machine.specs.declared.entry.Next.{Next};
ghost use Rattle.bb_machine.specs.declared.machine.TheConstants.{MAX_STATES, MAX_SYMBOLS};
ghost use Rattle.bb_machine.specs.Entry.{IsEntryOf};
ghost use Rattle.bb_machine.specs.Limits.{Bounds};
ghost use Rattle.bb_machine.specs.Machine.{IsMachine, Table, entry_of, symbols_of};
ghost use Rattle.bb_sim.specs.Span.{Inside};
ghost use Rattle.laws_of_verdicts.specs.Change.{turned};
ghost use Rattle.laws_of_verdicts.specs.LineOf.{IsOnWay};
ghost use Rattle.laws_of_verdicts.specs.NormalForm.{IsEmpty};
ghost use Rattle.laws_of_verdicts.specs.UndefinedEntry.{HaltsOnUndefined, HasOtherUndefined};
ghost use Rattle.bb_cover.specs.Line.{IsLine, change_of};
ghost use Rattle.bb_cover.specs.UndefinedEntries.{IsUndefinedOf, undefined_entries_of};

use crate::filled::{blank_like, filled};
use crate::halt::{Halted, first_halt};
use crate::naming::Naming;
use crate::table::is_empty;
use crate::undefined::{UndefinedEntry, has_other_undefined};
use crate::used::count_used;
use bb_machine::{Dir, Entry, Limits, Machine, Next};
use bb_tape::{Memory, Tape};

/// The halt of a line's machine, on an undefined transition.
#[derive(Clone, Copy, Debug, PartialEq, Eq)]
pub struct LineHalt {
    pub steps: u64,
    pub score: u64,
    /// The state and the symbol of the undefined transition, in the line's names.
    pub state: u8,
    pub symbol: u8,
    /// The entry there of the machine whose line it is, in its own names: undefined, into Z, or to a state if
    /// it fills the last undefined transition.
    pub entry: Entry,
}

/// How the run of a line's machine ends.
#[derive(Clone, Copy, Debug, PartialEq, Eq)]
pub enum How {
    /// It doesn't halt within the limits.
    Runs,
    /// It halts.
    Halts(LineHalt),
}

/// The line of a machine.
#[derive(Drop)]
pub struct Line {
    /// The line's machine, in tree normal form.
    pub machine: Machine,
    /// The change after which the machine completes the line's machine.
    pub change: Naming,
    pub how: How,
}

/// An entry that leads to a state.
#[derive(Clone, Copy)]
struct StepToState {
    write: u8,
    dir: Dir,
    to: u8,
}

/// A machine of the walk, and the change after which the given machine completes it.
#[derive(Drop)]
struct OnWay {
    machine: Machine,
    change: Naming,
}

impl OnWay {
    /// Goes on below, with an entry of the given machine, in its own names, for the undefined transition.
    fn fill(&self, undefined: UndefinedEntry, step: StepToState) -> OnWay
        requires undefined { IsUndefinedOf self.now.machine undefined }
        requires write { step.write < MAX_SYMBOLS }
        requires to { step.to < MAX_STATES }
        requires symbol { (change_of self.now.change).symbols.old step.write < symbols_of self.now.machine }
        requires state { (change_of self.now.change).states.old step.to < length self.now.machine }
        ensures on_way { (bounds : Bounds) (machine : Table) (steps : ℕ) → IsMachine machine
            → IsOnWay (change_of self.now.change) bounds self.now.machine machine
            → HaltsOnUndefined self.now.machine steps undefined.state undefined.symbol
            → Inside self.now.machine bounds steps
            → HasOtherUndefined self.now.machine undefined.state undefined.symbol
            → entry_of machine ((change_of self.now.change).states.new undefined.state)
            ((change_of self.now.change).symbols.new undefined.symbol)
            ≡ Entry.Go step.write step.dir (Next.State step.to)
            → IsOnWay (change_of result.change) bounds result.machine machine }
        ensures fewer { undefined_entries_of result.machine + 1 ≡ undefined_entries_of self.now.machine }
    {
        self.machine.show_machine();
        let used = count_used(&self.machine);
        let symbol = self.change.symbols.old_name(step.write);
        let state = self.change.states.old_name(step.to);
        let there = turn(step.dir, self.change.mirrored);
        let mirrored = begins_left(&self.machine, there);
        let first_symbol = symbol.min(used.symbols);
        let first_state = state.min(used.states);
        let entry = Entry::Go {
            write: first_symbol,
            dir: turn(there, mirrored),
            next: Next::State(first_state),
        };
        OnWay {
            machine: filled(&self.machine, undefined, entry),
            change: self
                .change
                .swap(mirrored, first_state, state, first_symbol, symbol),
        }
    }

    /// The given machine's entry for the undefined transition, in its own names.
    fn own_entry(&self, machine: &Machine, undefined: UndefinedEntry) -> Entry
        requires state { (change_of self.now.change).states.new undefined.state < length machine.now }
        requires symbol { (change_of self.now.change).symbols.new undefined.symbol < symbols_of machine.now }
        requires few { undefined.state < MAX_STATES }
        requires few_symbols { undefined.symbol < MAX_SYMBOLS }
        ensures value { result ≡ entry_of machine.now ((change_of self.now.change).states.new undefined.state)
            ((change_of self.now.change).symbols.new undefined.symbol) }
        ensures named { IsEntryOf (length machine.now) (symbols_of machine.now) result }
    {
        let state = self.change.states.new_name(undefined.state);
        let symbol = self.change.symbols.new_name(undefined.symbol);
        machine.entry(state, symbol)
    }

    /// The line, where the walk needs to go no further.
    fn end(self, how: How) -> Line
        ensures { result ≡ record { machine = self.machine; change = self.change; how = how } }
    {
        Line {
            machine: self.machine,
            change: self.change,
            how,
        }
    }
}

/// An entry, if it leads to a state.
fn step_to_state(entry: Entry) -> Option<StepToState>
    ensures { MatchOption result ((write to : ℕ) (dir : Dir) → entry ≢ Entry.Go write dir (Next.State to))
        (λ step. entry ≡ Entry.Go step.write step.dir (Next.State step.to)) }
{
    match entry {
        Entry::Go {
            write,
            dir,
            next: Next::State(to),
        } => Some(StepToState { write, dir, to }),
        Entry::Go {
            next: Next::Halt,
            ..
        } => None,
        Entry::Undefined => None,
    }
}

/// The halt of a line's machine.
fn halt_of(halted: &Halted, undefined: UndefinedEntry, entry: Entry) -> How
    ensures { result ≡ How.Halts (record {
      steps = halted.now.steps;
      score = halted.now.score;
      state = undefined.state;
      symbol = undefined.symbol;
      entry = entry;
    }) }
{
    How::Halts(LineHalt {
        steps: halted.steps,
        score: halted.score,
        state: undefined.state,
        symbol: undefined.symbol,
        entry,
    })
}

/// Whether a machine's first entry moves to the left, so that left and right are swapped.
fn begins_left(machine: &Machine, dir: Dir) -> bool
    ensures empty { (result ≡ false) ⊎ IsEmpty machine.now }
    ensures right { turned result dir ≡ Dir.L → IsEmpty machine.now → ⊥ }
{
    if dir == Dir::R {
        return false;
    }
    is_empty(machine)
}

/// A direction, or the other one.
fn turn(dir: Dir, mirrored: bool) -> Dir
    ensures { result ≡ turned mirrored dir }
{
    match (dir, mirrored) {
        (dir, false) => dir,
        (Dir::L, true) => Dir::R,
        (Dir::R, true) => Dir::L,
    }
}

/// The line of a machine within these limits. It is the machine of the walk through all machines of the size
/// that this one completes after a change: names are given as the run meets states and symbols, and left and
/// right are swapped if it first moves left. So it is in each list of the size made under these limits.
///
/// It makes a run for each entry of the line's machine, and one more.
pub fn line_of<T: Tape>(machine: &Machine, limits: &Limits, tape: &mut T) -> Result<Line, Memory>
    requires limit { (T.view tape.old).limit ≡ limits.now.cells }
    ensures line { IfOk result (IsLine machine.now limits.now) }
    ensures limit { (T.view tape.new).limit ≡ (T.view tape.old).limit }
    ensures memory { OnErr result (IsTrue T.GROWS) }
{
    machine.show_machine();
    let mut way = OnWay {
        machine: blank_like(machine),
        change: Naming::own(),
    };
    loop {
        let Some(halted) = first_halt(&way.machine, limits, tape)? else {
            return Ok(way.end(How::Runs));
        };
        let Some(undefined) = halted.undefined else {
            unreachable!()
        };
        let entry = way.own_entry(machine, undefined);
        if !has_other_undefined(&way.machine, undefined) {
            return Ok(way.end(halt_of(&halted, undefined, entry)));
        }
        let Some(step) = step_to_state(entry) else {
            return Ok(way.end(halt_of(&halted, undefined, entry)));
        };
        way = way.fill(undefined, step);
    }
}
