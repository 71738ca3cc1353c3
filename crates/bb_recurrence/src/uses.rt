//! The last use of each state, and of each entry, by a repeating run.
ghost use Rattle.std.specs.Prelude.{◌≡◌, ℕ, ◌+◌, ◌*◌, ◌<◌, ◌≤◌, length, max, true, MatchOption};
ghost use Rattle.bb_machine.specs.Machine.{IsMachine, Table, symbols_of};
ghost use Rattle.laws_of_recurrence.specs.Uses.{IsQuasihalt, of_state};
ghost use Rattle.bb_recurrence.specs.LastUses.{AreRecorded, AreSeen, AreSeenWhole, IsSeenUse, IsUse};
ghost use Rattle.bb_recurrence.specs.LastUses.{IsUseBy, RecordsOn, of_entry};

use crate::history::History;
use bb_cert::Course;
use bb_machine::{MAX_STATES, MAX_SYMBOLS, Machine};
use bb_sim::Runner;

/// When a state or an entry is used for the last time.
#[derive(Clone, Copy, Debug, PartialEq, Eq)]
pub enum LastUse {
    /// No step uses it.
    Never,
    /// This step uses it, counted from 0, and no later step does.
    Step(u64),
    /// Steps use it for ever.
    Forever,
}

/// The most entries of a machine: one for each state and symbol.
const MAX_ENTRIES: usize = MAX_STATES * MAX_SYMBOLS;

/// The last use of each entry up to a step.
#[derive(Clone, Copy, Debug, PartialEq, Eq)]
pub struct LastUses {
    // The step after the last use of each entry, 0 if no step used it: the entries of state A, then those of
    // B.
    after: [u64; MAX_ENTRIES],
    // The entries of the first steps.
    pub(crate) history: History,
}

impl LastUses {
    /// No step was made.
    pub fn new() -> LastUses
        ensures { (table : Table) → IsMachine table → AreSeen table 0 result }
    {
        LastUses {
            after: [0; MAX_ENTRIES],
            history: History::new(),
        }
    }

    /// Begins anew for a machine. The entries of other states are left as they are.
    pub(crate) fn reset(&mut self, machine: &Machine)
        ensures { AreRecorded machine.now 0 self.new }
    {
        self.after[..MAX_SYMBOLS * machine.states() as usize].fill(0);
    }

    /// The last use of a state, by a run that repeats from `start` on, if the uses are those up to the end of
    /// a first period or later. A state that the machine hasn't is never used.
    pub fn last_use(&self, machine: &Machine, state: u8, start: u64) -> LastUse
        requires seen { AreSeenWhole machine.now start self.now }
        ensures { IsUse machine.now (of_state state) result }
    {
        if state >= machine.states() {
            return LastUse::Never;
        }
        use_before(self.step_after(machine, state), start)
    }

    /// The last use of an entry, in the same way.
    pub fn last_use_of_entry(&self, machine: &Machine, state: u8, symbol: u8, start: u64) -> LastUse
        requires state { state < length machine.now }
        requires symbol { symbol < symbols_of machine.now }
        requires seen { AreSeenWhole machine.now start self.now }
        ensures { IsUse machine.now (of_entry state symbol) result }
    {
        machine.show_machine();
        use_before(self.after[place_of(state, symbol) as usize], start)
    }

    /// The number of steps after which the machine quasihalts, if the run repeats from `start` on, and the
    /// uses are those up to the end of a first period or later: the greatest last use of a state, plus 1.
    /// `None` if it doesn't quasihalt.
    pub fn quasihalt(&self, machine: &Machine, start: u64) -> Option<u64>
        requires seen { AreSeenWhole machine.now start self.now }
        ensures { MatchOption result ((steps : ℕ) → IsQuasihalt machine.now steps → ⊥)
            (λ steps. IsQuasihalt machine.now steps) }
    {
        let mut steps = 0;
        for state in 0..machine.states() {
            steps = with_last_use(steps, self.step_after(machine, state), start);
        }
        if steps == 0 { None } else { Some(steps) }
    }

    /// The step after the last use of a state, 0 if no step used it.
    fn step_after(&self, machine: &Machine, state: u8) -> u64
        requires state { state < length machine.now }
        ensures { (n : ℕ) → AreSeen machine.now n self.now
            → IsSeenUse machine.now (of_state state) n result }
    {
        if machine.symbols() == 2 {
            let zero = self.after[place_of(state, 0) as usize];
            let one = self.after[place_of(state, 1) as usize];
            return zero.max(one);
        }
        let mut after = 0;
        for symbol in 0..machine.symbols() {
            after = after.max(self.after[place_of(state, symbol) as usize]);
        }
        after
    }
}

/// The entry of each step is recorded.
impl Course for LastUses {
    ghost READS = { true };

    const READS: bool = true;

    ghost goes_on = { RecordsOn };

    ghost stays = { λ table n uses seen. seen };

    ghost goes_further = { λ table a b c first second third one other seen. other (one seen) };

    #[inline(always)]
    fn take_in(&mut self, machine: &Machine, before: &Runner, symbol: u8, after: &Runner) {
        machine.show_machine();
        match before.state() {
            Some(state) => {
                let place = place_of(state, symbol);
                self.after[place as usize] = after.steps();
                self.history.record(before.steps(), place);
            }
            None => {}
        }
    }
}

/// The place of an entry among the last uses: the entries of state A come first, then those of B.
#[inline(always)]
fn place_of(state: u8, symbol: u8) -> u8
    requires state { state < MAX_STATES }
    requires symbol { symbol < MAX_SYMBOLS }
    ensures { result ≡ MAX_SYMBOLS * state + symbol }
{
    MAX_SYMBOLS as u8 * state + symbol
}

/// The greatest of some last uses, plus 1, 0 without one, with one state more: it has a last use if the step
/// after the last use seen isn't past `start`.
fn with_last_use(steps: u64, after: u64, start: u64) -> u64
    ensures last { after ≤ start → result ≡ max steps after }
    ensures for_ever { start < after → result ≡ steps }
{
    if start < after {
        return steps;
    }
    steps.max(after)
}

/// The last use by a run that repeats from `start` on, from the step after the last use seen, 0 without one.
fn use_before(after: u64, start: u64) -> LastUse
    ensures { IsUseBy after start result }
{
    if after == 0 {
        return LastUse::Never;
    }
    if after > start {
        return LastUse::Forever;
    }
    LastUse::Step(after - 1)
}
