//! The text of a machine's groups.
ghost use Rattle.std.specs.Prelude.{◌≡◌, ◌+◌, ◌*◌, ◌≤◌, ◌<◌, ◌++◌, [], length, slice_index_or};
ghost use Rattle.arrayvec.specs.ArrayVec.{array_vec_len};
ghost use Rattle.bb_machine.specs.Entry.{entry_text, IsEntryOf};
ghost use Rattle.bb_machine.specs.Machine.{symbols_of, group_text};

use crate::entry::Entry;
use crate::machine::{MAX_STATES, MAX_SYMBOLS, Machine};
use arrayvec::ArrayVec;

impl Machine {
    /// Appends the text of a state's group.
    pub(super) fn group_into<const CAP: usize>(&self, state: u8, out: &mut ArrayVec<u8, CAP>)
        requires in_states { state < length self.now }
        requires room { array_vec_len out.old + 3 * symbols_of self.now ≤ CAP }
        ensures { out.new.items ≡ out.old.items ++ group_text (slice_index_or self.now state []) }
    {
        for symbol in 0..self.symbols() {
            entry_into(self.entry(state, symbol), out);
        }
    }
}

fn entry_into<const CAP: usize>(entry: Entry, out: &mut ArrayVec<u8, CAP>)
    requires named { IsEntryOf MAX_STATES MAX_SYMBOLS entry }
    requires room { array_vec_len out.old + 3 ≤ CAP }
    ensures { out.new.items ≡ out.old.items ++ entry_text entry }
{
    let [first, second, third] = entry.bytes();
    out.push(first);
    out.push(second);
    out.push(third);
}
