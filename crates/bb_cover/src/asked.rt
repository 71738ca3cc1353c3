//! The entries tried for an undefined transition.
ghost use Rattle.std.specs.Prelude.{◌≡◌, ◌+◌, ◌*◌, ◌<◌, ◌≤◌, length, slice_index_or, cond};
ghost use Rattle.bb_machine.specs.declared.entry.Entry.{Entry};
ghost use Rattle.bb_cover.specs.Asked.{IsAsking, entries, width_of};

use crate::used::count_used;
use bb_machine::{Dir, Entry, MAX_STATES, MAX_SYMBOLS, Machine, Next};

/// Those with a next state and a symbol among the first so many, in order: by symbol, moves to the right
/// before moves to the left, by next state. The empty machine has none to the left.
#[derive(Clone, Copy, Debug)]
pub(crate) struct Asked {
    pub(crate) is_root: bool,
    pub(crate) states: u8,
    pub(crate) symbols: u8,
}

impl Asked {
    /// Those with at most the first state and the first symbol unused by a machine.
    pub(crate) fn of(machine: &Machine, is_root: bool) -> Asked
        ensures { IsAsking machine.now is_root result }
    {
        let used = count_used(machine);
        Asked {
            is_root,
            states: machine.states().min(used.states + 1),
            symbols: machine.symbols().min(used.symbols + 1),
        }
    }

    /// How many write one symbol.
    fn width(&self) -> usize
        requires { self.now.states ≤ MAX_STATES }
        ensures { result ≡ width_of self.now }
    {
        if self.is_root {
            self.states as usize
        } else {
            2 * self.states as usize
        }
    }

    /// How many there are.
    pub(crate) fn count(&self) -> usize
        requires { self.now.states ≤ MAX_STATES }
        ensures { result ≡ length (entries self.now) }
    {
        self.symbols as usize * self.width()
    }

    /// The one with so many before it.
    pub(crate) fn entry(&self, index: usize) -> Entry
        requires states { self.now.states ≤ MAX_STATES }
        requires symbols { self.now.symbols ≤ MAX_SYMBOLS }
        requires index { index < length (entries self.now) }
        ensures { result ≡ slice_index_or (entries self.now) index Entry.Undefined }
    {
        let width = self.width();
        let write = (index / width) as u8;
        let place = (index % width) as u8;
        if place < self.states {
            Entry::Go {
                write,
                dir: Dir::R,
                next: Next::State(place),
            }
        } else {
            Entry::Go {
                write,
                dir: Dir::L,
                next: Next::State(place - self.states),
            }
        }
    }
}
