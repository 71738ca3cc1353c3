//! The entries that the first steps of a run use.
ghost use Rattle.std.specs.Prelude.{◌≡◌, ℕ, ◌+◌, ◌-◌, ◌/◌, ◌%◌, ◌<◌, ◌≤◌, ◌↔◌, ◌≤ℤ◌, neg_ℤ, pos};
ghost use Rattle.std.specs.Prelude.{IsTrue, length, slice_index_or};
ghost use Rattle.bb_machine.specs.Machine.{Table, symbols_of};
ghost use Rattle.bb_sim.specs.Run.{Never};
ghost use Rattle.laws_of_recurrence.specs.Seen.{IsSeenStart};
ghost use Rattle.laws_of_recurrence.specs.Shift.{IsShift};
ghost use Rattle.bb_recurrence.specs.History.{IsRecorded, UsesPlace};
ghost use Rattle.laws_of_recurrence.specs.Recurrence.{Repeats, RepeatsExactly};
ghost use Rattle.bb_recurrence.specs.Lockstep.{TellsRepeats};
ghost use Rattle.bb_recurrence.specs.Pairs.{distance_of};
ghost use Rattle.bb_recurrence.specs.Period.{IsLeastFrom, TellsPart};

use crate::recurrence::{KnownPair, Recurrence};
use bb_machine::{Dir, Entry, MAX_SYMBOLS, Machine};

/// The most steps that are recorded.
pub(crate) const MAX_RECORDED: u64 = 4096;

const PLACES: usize = MAX_RECORDED as usize;

/// The entries that the first steps of a run use.
#[derive(Clone, Copy, Debug, PartialEq, Eq)]
pub struct History {
    // For each step, from step 0 on, the place of its entry in the table's order.
    places: [u8; PLACES],
}

impl History {
    /// No step is recorded.
    pub(crate) fn new() -> History
        ensures { (table : Table) → IsRecorded table 0 result }
    {
        History {
            places: [0; PLACES],
        }
    }

    /// Records the place of a step's entry, if it is among the first steps.
    #[inline(always)]
    pub(crate) fn record(&mut self, step: u64, place: u8)
        ensures { (table : Table) → step < MAX_RECORDED → UsesPlace table step place
            → IsRecorded table step self.old → IsRecorded table (step + 1) self.new }
    {
        if step < MAX_RECORDED {
            self.places[step as usize] = place;
        }
    }

    /// The recurrence of a run that is recorded up to the second step of a pair.
    pub(crate) fn recurrence(&self, pair: &KnownPair) -> Recurrence
        requires order { pair.now.first < pair.now.second }
        requires few { pair.now.second ≤ MAX_RECORDED }
        requires recorded { IsRecorded pair.now.machine.now pair.now.second self.now }
        requires repeats { Repeats pair.now.machine.now pair.now.first (distance_of pair.now) }
        ensures exact { RepeatsExactly pair.now.machine.now result.start result.period }
        ensures shift { IsShift pair.now.machine.now result.start result.period result.shift }
        ensures early { result.start ≤ pair.now.first }
        ensures whole { result.start + result.period ≤ pair.now.second }
    {
        let distance = pair.second - pair.first;
        let start = self.start(pair.first, distance);
        let period = self.period(pair.first, distance);
        let shift = self.shift(pair.machine, pair.first, pair.first + period);
        Recurrence {
            start,
            period,
            shift,
        }
    }

    /// How many cells the head is farther to the right at one step than at an earlier one: the sum of the
    /// moves between them.
    fn shift(&self, machine: &Machine, from: u64, to: u64) -> i64
        requires order { from ≤ to }
        requires few { to ≤ MAX_RECORDED }
        requires recorded { IsRecorded machine.now to self.now }
        requires never { Never machine.now }
        ensures { IsShift machine.now from (to - from) result }
    {
        machine.show_machine();
        let mut shift = 0;
        let mut step = from;
        while step < to {
            shift += move_of(machine, self.places[step as usize]);
            step += 1;
        }
        shift
    }

    /// The first step from which on, up to `first`, each step uses the entry of the step `distance` later.
    pub(crate) fn start(&self, first: u64, distance: u64) -> u64
        requires few { first + distance ≤ MAX_RECORDED }
        ensures { (table : Table) → IsRecorded table (first + distance) self.now
            → IsSeenStart table first distance result }
    {
        let mut start = first;
        while start > 0 {
            if !self.is_same(start - 1, distance) {
                return start;
            }
            start -= 1;
        }
        start
    }

    /// The least period from `first` on of a run that repeats from there on with this distance.
    pub(crate) fn period(&self, first: u64, distance: u64) -> u64
        requires some { 0 < distance }
        requires few { first + distance ≤ MAX_RECORDED }
        ensures least { (table : Table) → IsRecorded table (first + distance) self.now
            → Repeats table first distance → IsLeastFrom table first result }
        ensures within { result ≤ distance }
    {
        let mut period = 1;
        while period <= distance / 2 {
            if self.is_part(first, distance, period) {
                return period;
            }
            period += 1;
        }
        distance
    }

    /// Whether a number divides a known period and is one too, from `first` on.
    #[inline(always)]
    fn is_part(&self, first: u64, known: u64, period: u64) -> bool
        requires some { 0 < period }
        requires less { period < known }
        requires few { first + known ≤ MAX_RECORDED }
        ensures { (table : Table) → IsRecorded table (first + known) self.now
            → Repeats table first known → TellsPart table first known period result }
    {
        if !self.is_same(first, period) {
            return false;
        }
        if known % period != 0 {
            return false;
        }
        self.repeats(first, period, first + known)
    }

    /// Whether a step uses the entry of the step `distance` later.
    #[inline(always)]
    fn is_same(&self, step: u64, distance: u64) -> bool
        requires few { step + distance < MAX_RECORDED }
        ensures { IsTrue result ↔ (slice_index_or self.now.places (step + distance) 0
            ≡ slice_index_or self.now.places step 0) }
    {
        self.places[(step + distance) as usize] == self.places[step as usize]
    }

    /// Whether each step from `first` on uses the entry of the step `distance` later, as far as that is
    /// before `end`.
    pub(crate) fn repeats(&self, first: u64, distance: u64, end: u64) -> bool
        requires order { first + distance ≤ end }
        requires few { end ≤ MAX_RECORDED }
        ensures { (table : Table) → IsRecorded table end self.now
            → TellsRepeats table first distance end result }
    {
        let steps = &self.places[first as usize..(end - distance) as usize];
        let later = &self.places[(first + distance) as usize..end as usize];
        steps == later
    }
}

/// How many cells the head is farther to the right after a step that uses the entry with this place.
#[inline(always)]
fn move_of(machine: &Machine, place: u8) -> i64
    requires state { place / MAX_SYMBOLS < length machine.now }
    requires symbol { place % MAX_SYMBOLS < symbols_of machine.now }
    ensures moves { (n : ℕ) → Never machine.now → UsesPlace machine.now n place
        → IsShift machine.now n 1 result }
    ensures near { (neg_ℤ (pos 1) ≤ℤ result) × (result ≤ℤ pos 1) }
{
    let symbols = MAX_SYMBOLS as u8;
    match machine.entry(place / symbols, place % symbols) {
        Entry::Go { dir, .. } => match dir {
            Dir::L => -1,
            Dir::R => 1,
        },
        Entry::Undefined => 1,
    }
}
