//! States with endless backward trees.
ghost use Rattle.std.specs.Prelude.{◌≡◌, ℕ, ◌<◌, ◌↔◌, length, IsTrue};
ghost use Rattle.bb_machine.specs.Machine.{IsMachine};
ghost use Rattle.bb_tree.specs.Tree.{EndsNowhere};
ghost use Rattle.bb_tree.specs.inside.Walk.{AreEndless, IsEndless, IsEntered, IsEnteredFrom, IsIn, MayHalt};
ghost use Rattle.bb_tree.specs.inside.Walk.{endless_of};

use crate::rules::leads_to;
use bb_machine::{Dir, Entry, MAX_STATES, Machine, Next};

/// The states with an endless path of predecessors by moves to the left alone, and those with one by moves to
/// the right. A set has the bit of each of its states.
#[derive(Clone, Copy, Debug)]
pub(crate) struct Endless {
    pub(crate) left: u32,
    pub(crate) right: u32,
}

impl Endless {
    /// The sets of a machine.
    pub(crate) fn of_machine(machine: &Machine) -> Endless
        ensures { AreEndless machine.now (endless_of result) }
    {
        Endless {
            left: endless_by(machine, Dir::L),
            right: endless_by(machine, Dir::R),
        }
    }

    /// The set of a direction.
    #[inline]
    pub(crate) fn by_moves(self, dir: Dir) -> u32
        ensures { result ≡ endless_of self dir }
    {
        match dir {
            Dir::L => self.left,
            Dir::R => self.right,
        }
    }

    /// Whether a halting entry's state is in one of the sets, so that its tree has no end.
    pub(crate) fn has_root(&self, machine: &Machine) -> bool
        requires { AreEndless machine.now (endless_of self.now) }
        ensures root { IsTrue result → (levels : ℕ) → (nodes : ℕ) → EndsNowhere machine.now levels nodes }
        ensures machine { IsMachine machine.now }
    {
        for state in 0..machine.states() {
            if has_state(self.left | self.right, state) && may_halt(machine, state) {
                return true;
            }
        }
        false
    }
}

/// The states with an endless path of predecessors by moves in a direction. Each round but the last one
/// removes a state.
fn endless_by(machine: &Machine, dir: Dir) -> u32
    ensures { IsEndless machine.now dir result }
{
    let mut kept = (1u32 << machine.states()) - 1;
    for _ in 0..machine.states() {
        let entered = kept & entered_from(machine, dir, kept);
        if entered == kept {
            return kept;
        }
        kept = entered;
    }
    0
}

/// The states entered by a move in a direction from a state of the set.
fn entered_from(machine: &Machine, dir: Dir, set: u32) -> u32
    ensures { (state : ℕ) → IsIn result state → IsEntered machine.now dir set state }
{
    let mut entered = 0;
    for state in 0..machine.states() {
        if has_state(set, state) {
            entered |= entered_by(machine, dir, state);
        }
    }
    entered
}

/// The states entered by a move in a direction from one state.
fn entered_by(machine: &Machine, dir: Dir, from: u8) -> u32
    requires { from < length machine.now }
    ensures { (state : ℕ) → IsIn result state → IsEnteredFrom machine.now dir from state }
{
    let mut entered = 0u32;
    for symbol in 0..machine.symbols() {
        let Entry::Go {
            dir: to,
            next: Next::State(state),
            ..
        } = machine.entry(from, symbol)
        else {
            continue;
        };
        if to == dir {
            entered |= 1 << state;
        }
    }
    entered
}

/// Whether an entry of a state halts.
fn may_halt(machine: &Machine, state: u8) -> bool
    requires { state < length machine.now }
    ensures { IsTrue result → MayHalt machine.now state }
{
    for symbol in 0..machine.symbols() {
        if leads_to(machine.entry(state, symbol), Next::Halt) {
            return true;
        }
    }
    false
}

/// Whether a state is in a set.
#[inline]
pub(crate) fn has_state(set: u32, state: u8) -> bool
    requires { state < MAX_STATES }
    ensures { IsTrue result ↔ IsIn set state }
{
    (set >> state) & 1 == 1
}
