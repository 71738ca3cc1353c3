//! The reply to a confirmed pair, written.
ghost use Rattle.std.specs.Prelude.{◌≡◌, ℕ, ◌+◌, ◌<◌, ◌≤◌, [], ◌++◌, codes, decimal, length, MatchOption};
ghost use Rattle.std.specs.Fmt.{signed_decimal};
ghost use Rattle.arrayvec.specs.ArrayVec.{array_vec_len};
ghost use Rattle.bb_machine.specs.Machine.{symbols_of, text};
ghost use Rattle.laws_of_recurrence.specs.Uses.{IsQuasihalt};
ghost use Rattle.bb_recurrence.specs.LastUses.{AreSeenWhole};
ghost use Rattle.bb_recurrence.specs.Parts.{entries_before, row_before, states_before};
ghost use Rattle.bb_recurrence.specs.RecurrenceReply.{numbers_text, quasihalt_text, use_text};
ghost use Rattle.bb_recurrence.specs.Writing.{AppendsUses, BeginsWith, IsKnownRecurrence, IsNumbersText};

use crate::recurrence::Recurrence;
use crate::uses::{LastUse, LastUses};
use arrayvec::ArrayVec;
use bb_lines::responder::REPLY;
use bb_machine::{LINE, Machine};
use itoa::Buffer;

/// The text of a reply.
pub(crate) type Text = ArrayVec<u8, REPLY>;

/// A machine and the recurrence of its run, to be written with the last uses.
#[derive(Clone, Copy)]
pub(crate) struct Reply<'a> {
    pub(crate) machine: &'a Machine,
    pub(crate) recurrence: Recurrence,
    /// The last uses up to the end of a first period or later.
    pub(crate) uses: &'a LastUses,
}

impl Reply<'_> {
    /// Writes the machine and its recurrence into the empty text, with the last use of each entry if
    /// `entries`. The machine's text is the beginning of `line`. The longest has 6,659 bytes.
    pub(crate) fn write(&self, line: &[u8], quasihalt: Option<u64>, entries: bool, text: &mut Text)
        requires line { BeginsWith self.now.machine.now line.now }
        requires known { IsKnownRecurrence self.now.machine.now self.now.uses.now self.now.recurrence }
        requires quasihalt { MatchOption quasihalt
            ((steps : ℕ) → IsQuasihalt self.now.machine.now steps → ⊥)
            (λ steps. IsQuasihalt self.now.machine.now steps) }
        requires empty { text.old.items ≡ [] }
        ensures numbers { IsNumbersText self.now.machine.now entries text.new.items }
        ensures short { array_vec_len text.new ≤ 6659 }
    {
        append(machine_text(self.machine, line), text);
        numbers_into(&self.recurrence, text);
        self.states_into(text);
        quasihalt_into(quasihalt, text);
        if entries {
            append(b" entries", text);
            self.entries_into(text);
        }
    }

    /// Appends the last use of each state.
    fn states_into(&self, text: &mut Text)
        requires seen { AreSeenWhole self.now.machine.now self.now.recurrence.start self.now.uses.now }
        requires room { array_vec_len text.old + 525 ≤ REPLY }
        ensures uses { AppendsUses self.now.machine.now (states_before (length self.now.machine.now))
            text.old.items text.new.items }
        ensures short { array_vec_len text.new ≤ array_vec_len text.old + 525 }
    {
        let Reply { machine, uses, .. } = *self;
        let start = self.recurrence.start;
        for state in 0..machine.states() {
            use_into(uses.last_use(machine, state, start), text);
        }
    }

    /// Appends the last use of each entry, in the table's order.
    fn entries_into(&self, text: &mut Text)
        requires seen { AreSeenWhole self.now.machine.now self.now.recurrence.start self.now.uses.now }
        requires room { array_vec_len text.old + 5250 ≤ REPLY }
        ensures uses { AppendsUses self.now.machine.now
            (entries_before (symbols_of self.now.machine.now) (length self.now.machine.now))
            text.old.items text.new.items }
        ensures short { array_vec_len text.new ≤ array_vec_len text.old + 5250 }
    {
        for state in 0..self.machine.states() {
            self.row_into(state, text);
        }
    }

    /// Appends the last use of each entry of a state.
    fn row_into(&self, state: u8, text: &mut Text)
        requires state { state < length self.now.machine.now }
        requires seen { AreSeenWhole self.now.machine.now self.now.recurrence.start self.now.uses.now }
        requires room { array_vec_len text.old + 210 ≤ REPLY }
        ensures uses { AppendsUses self.now.machine.now (row_before state (symbols_of self.now.machine.now))
            text.old.items text.new.items }
        ensures short { array_vec_len text.new ≤ array_vec_len text.old + 210 }
    {
        let Reply { machine, uses, .. } = *self;
        let start = self.recurrence.start;
        for symbol in 0..machine.symbols() {
            use_into(uses.last_use_of_entry(machine, state, symbol, start), text);
        }
    }
}

/// The machine's text, at the beginning of its line.
fn machine_text<'a>(machine: &Machine, line: &'a [u8]) -> &'a [u8]
    requires line { BeginsWith machine.now line.now }
    ensures text { result.now ≡ text machine.now }
    ensures short { length result.now ≤ LINE }
{
    machine.show_machine();
    let group = 3 * machine.symbols() as usize;
    &line[..machine.states() as usize * (group + 1) - 1]
}

/// Appends the start, the period and the shift.
fn numbers_into(found: &Recurrence, text: &mut Text)
    requires room { array_vec_len text.old + 70 ≤ REPLY }
    ensures appended { text.new.items
        ≡ text.old.items ++ numbers_text found.now.start found.now.period found.now.shift }
    ensures short { array_vec_len text.new ≤ array_vec_len text.old + 70 }
{
    append(b" recurs ", text);
    number_into(found.start, text);
    append(b" ", text);
    number_into(found.period, text);
    append(b" ", text);
    shift_into(found.shift, text);
}

/// Appends a shift: that of most machines is one digit, behind a sign if it is negative.
fn shift_into(shift: i64, text: &mut Text)
    requires room { array_vec_len text.old + 20 ≤ REPLY }
    ensures appended { text.new.items ≡ text.old.items ++ signed_decimal shift }
    ensures short { array_vec_len text.new ≤ array_vec_len text.old + 20 }
{
    if shift >= 0 {
        number_into(shift as u64, text);
        return;
    }
    if shift > -10 {
        append(&[b'-', b'0' + (-shift) as u8], text);
        return;
    }
    let mut digits = Buffer::new();
    append(digits.format(shift).as_bytes(), text);
}

/// Appends the number of steps after which the machine quasihalts, if it does.
fn quasihalt_into(quasihalt: Option<u64>, text: &mut Text)
    requires room { array_vec_len text.old + 32 ≤ REPLY }
    ensures appended { text.new.items ≡ text.old.items ++ quasihalt_text quasihalt }
    ensures short { array_vec_len text.new ≤ array_vec_len text.old + 32 }
{
    match quasihalt {
        Some(steps) => {
            append(b" quasihalts ", text);
            number_into(steps, text);
        }
        None => {}
    }
}

/// Appends a space and a last use.
fn use_into(last: LastUse, text: &mut Text)
    requires room { array_vec_len text.old + 21 ≤ REPLY }
    ensures appended { text.new.items ≡ text.old.items ++ (codes " " ++ use_text last) }
    ensures short { array_vec_len text.new ≤ array_vec_len text.old + 21 }
{
    match last {
        LastUse::Never => append(b" -", text),
        LastUse::Step(step) => {
            append(b" ", text);
            number_into(step, text);
        }
        LastUse::Forever => append(b" *", text),
    }
}

fn number_into(number: u64, text: &mut Text)
    requires room { array_vec_len text.old + 20 ≤ REPLY }
    ensures appended { text.new.items ≡ text.old.items ++ decimal number }
    ensures short { array_vec_len text.new ≤ array_vec_len text.old + 20 }
{
    if number < 10 {
        append(&[b'0' + number as u8], text);
        return;
    }
    let mut digits = Buffer::new();
    append(digits.format(number).as_bytes(), text);
}

/// Appends bytes.
pub(crate) fn append(bytes: &[u8], text: &mut Text)
    requires room { array_vec_len text.old + length bytes.now ≤ REPLY }
    ensures appended { text.new.items ≡ text.old.items ++ bytes.now }
    ensures length { array_vec_len text.new ≡ array_vec_len text.old + length bytes.now }
{
    let _room = text.try_extend_from_slice(bytes);
}
