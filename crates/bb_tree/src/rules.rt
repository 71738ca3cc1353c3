//! A machine's entries, ordered by their next state.
ghost use Rattle.std.specs.Prelude.{◌≡◌, ◌+◌, ◌*◌, ◌<◌, ◌≤◌, ◌++◌, [], length, slice_index};
ghost use Rattle.std.specs.Prelude.{slice_index_or, IsTrue, ◌↔◌};
ghost use Rattle.std.specs.List.{filter};
ghost use Rattle.bb_machine.specs.Machine.{IsMachine};
ghost use Rattle.bb_tree.specs.Tree as tree;
ghost use Rattle.bb_tree.specs.Tree.{rules_in, rules_to};
ghost use Rattle.bb_tree.specs.inside.Walk.{AddsAll, AddsRules, AreRules, starts_of};
ghost use Rattle.bb_tree.specs.inside.Steps.{HasTable, states_of};

use arrayvec::ArrayVec;
use bb_machine::{Dir, Entry, MAX_STATES, MAX_SYMBOLS, Machine, Next};
use std::cmp::Reverse;

/// As many entries as a machine can have, each of them twice.
const MAX_RULES: usize = 2 * MAX_STATES * MAX_SYMBOLS;

/// A start for each state and one for the halting entries, and the end of all.
const MAX_STARTS: usize = MAX_STATES + 2;

/// An entry with its state and its symbol.
#[derive(Clone, Copy, Debug)]
pub(crate) struct Rule {
    pub(crate) state: u8,
    pub(crate) symbol: u8,
    pub(crate) entry: Entry,
}

impl Default for Rule {
    fn default() -> Rule {
        Rule {
            state: 0,
            symbol: 0,
            entry: Entry::Undefined,
        }
    }
}

/// The entries into state A, then those into B and so on, and last the halting ones; and all of them once
/// more. Among those into one state the moves to the left come first in the first half, the moves to the
/// right in the second half.
#[derive(Drop)]
pub(crate) struct Rules {
    pub(crate) list: ArrayVec<Rule, MAX_RULES>,
    /// The start of each group in the first half, and the end of all.
    pub(crate) left_first: ArrayVec<u16, MAX_STARTS>,
    /// The same of the second time.
    pub(crate) right_first: ArrayVec<u16, MAX_STARTS>,
}

impl Rules {
    /// Adds a machine's entries to an empty list, in place: to move the room for the largest machine would
    /// cost more than a small tree.
    pub(crate) fn gather(&mut self, machine: &Machine)
        requires no_list { self.old.list.items ≡ [] }
        requires no_left { self.old.left_first.items ≡ [] }
        requires no_right { self.old.right_first.items ≡ [] }
        ensures rules { AreRules machine.now self.new.list.items (starts_of self.new) }
        ensures machine { IsMachine machine.now }
    {
        add_all(machine, Dir::L, &mut self.list, &mut self.left_first);
        add_all(machine, Dir::R, &mut self.list, &mut self.right_first);
    }

    /// The range of the rules into a state, those with a move in the direction first.
    #[inline]
    pub(crate) fn range(&self, state: u8, first: Dir) -> (u16, u16)
        requires rules { HasTable self.now.list.items (starts_of self.now) }
        requires state { state < states_of (starts_of self.now) }
        ensures from { result.0 ≡ slice_index (starts_of self.now first) state }
        ensures to { result.1 ≡ slice_index (starts_of self.now first) (state + 1) }
    {
        let state = state as usize;
        match first {
            Dir::L => (self.left_first[state], self.left_first[state + 1]),
            Dir::R => (self.right_first[state], self.right_first[state + 1]),
        }
    }
}

/// Appends the rules of a machine, for each next state those with a move in the direction first, and records
/// the start of each group and the end of all.
fn add_all(
    machine: &Machine,
    first: Dir,
    list: &mut ArrayVec<Rule, MAX_RULES>,
    starts: &mut ArrayVec<u16, MAX_STARTS>,
)
    requires room { length list.old.items + MAX_STATES * MAX_SYMBOLS ≤ MAX_RULES }
    requires no_starts { starts.old.items ≡ [] }
    ensures added { AddsAll machine.now list.old.items list.new.items starts.new.items }
    ensures machine { IsMachine machine.now }
{
    starts.push(list.len() as u16);
    for state in 0..machine.states() {
        add_rules(machine, Next::State(state), first, list);
        starts.push(list.len() as u16);
    }
    add_rules(machine, Next::Halt, first, list);
    starts.push(list.len() as u16);
}

/// Appends the rules into a state, or the halting ones, those with a move in the direction first.
fn add_rules(machine: &Machine, next: Next, first: Dir, list: &mut ArrayVec<Rule, MAX_RULES>)
    requires { length list.old.items + length (rules_to machine.now next) ≤ MAX_RULES }
    ensures { AddsRules (rules_to machine.now next) list.old.items list.new.items }
{
    let from = list.len();
    for state in 0..machine.states() {
        add_rules_of(machine, state, next, list);
    }
    list.as_mut_slice()[from..].sort_unstable_by_key(|rule| place_of(*rule, first));
}

/// The sort key of the rules into one state: first those with a move in the direction, among them those of
/// this state, then those of greater symbols. No clause depends on the order. It decides only how soon a walk
/// meets a level past its bound.
fn place_of(rule: Rule, first: Dir) -> (bool, bool, Reverse<u8>, Reverse<u8>) {
    let (turns, changes) = match rule.entry {
        Entry::Undefined => (true, true),
        Entry::Go { dir, next, .. } => (dir != first, next != Next::State(rule.state)),
    };
    (turns, changes, Reverse(rule.symbol), Reverse(rule.state))
}

/// Appends the rules of one state into a state, or its halting ones.
fn add_rules_of(machine: &Machine, state: u8, next: Next, list: &mut ArrayVec<Rule, MAX_RULES>)
    requires state { state < length machine.now }
    requires room { length list.old.items
        + length (filter (tree.leads_to next) (rules_in state 0 (slice_index_or machine.now state [])))
        ≤ MAX_RULES }
    ensures { list.new.items ≡ list.old.items
        ++ filter (tree.leads_to next) (rules_in state 0 (slice_index_or machine.now state [])) }
{
    for symbol in 0..machine.symbols() {
        let entry = machine.entry(state, symbol);
        if leads_to(entry, next) {
            list.push(Rule {
                state,
                symbol,
                entry,
            });
        }
    }
}

/// Whether an entry leads to a state, or halts.
pub(crate) fn leads_to(entry: Entry, next: Next) -> bool
    ensures { IsTrue result ↔ (tree.goes_to entry ≡ next) }
{
    goes_to(entry) == next
}

/// The next state of an entry; an undefined one halts.
fn goes_to(entry: Entry) -> Next
    ensures { result ≡ tree.goes_to entry }
{
    match entry {
        Entry::Undefined => Next::Halt,
        Entry::Go { next, .. } => next,
    }
}
