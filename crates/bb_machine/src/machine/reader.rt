//! The reader of machine texts.
ghost use Rattle.std.specs.Prelude.{◌≡◌, ◌≢◌, ◌+◌, ◌*◌, ◌≤◌, ◌<◌, ◌↔◌, List, [], ◌∷◌};
ghost use Rattle.std.specs.Prelude.{◌++◌, ℕ, length, take, drop, IsTrue, IfOk, IfErr, IfSome, OnOk, OnErr};
ghost use Rattle.std.specs.Prelude.{MatchOption, Some, slice_index};
ghost use Rattle.std.specs.Int.{bit_at};

use crate::entry::Entry;
use crate::machine::{LINE, MAX_STATES, MAX_SYMBOLS, Machine, Refused, SLOTS, STRIDE, Slot};
use crate::packed::{PackedTable, is_small_table};
use std::simd::prelude::*;

/// The progress in a text: `states` counts the groups with the current one, `filled` the entries of the
/// current one; `symbols` is the upper bound, until a `_` closes the first group. A machine with all these
/// entries has at least the named symbols.
#[derive(Drop)]
struct Draft {
    states: usize,
    symbols: usize,
    filled: usize,
    named_symbols: usize,
}

impl Draft {
    ghost use Rattle.bb_machine.specs.Entry.{IsEntryOf};
    ghost use Rattle.bb_machine.specs.inside.Draft.{Begun, IsDraft, begun_text, IsWhole, IsStop};

    fn new() -> Draft
        ensures { IsDraft result (record { groups = []; group = [] }) }
    {
        Draft {
            states: 1,
            symbols: MAX_SYMBOLS,
            filled: 0,
            named_symbols: 0,
        }
    }

    /// Whether the group at work can end here.
    fn is_whole(&self) -> bool
        ensures { (b : Begun) → IsDraft self.now b → IsTrue result ↔ IsWhole b }
    {
        if self.states > 1 {
            return self.filled == self.symbols;
        }
        self.filled >= 2 && self.named_symbols <= self.filled
    }

    /// Takes an entry into the group at work.
    fn push(&mut self, entry: Entry)
        requires { self.old.filled < self.old.symbols }
        ensures { (b : Begun) → IsDraft self.old b → IsEntryOf MAX_STATES self.old.symbols entry
            → IsDraft self.new (record { groups = b.groups; group = b.group ++ entry ∷ [] }) }
    {
        self.filled += 1;
        self.named_symbols = self.named_symbols.max(entry.named_symbols());
    }

    /// Ends the group at work, and begins the next one.
    fn close(&mut self)
        requires { self.old.states < MAX_STATES }
        ensures { (b : Begun) → IsDraft self.old b → IsWhole b
            → IsDraft self.new (record { groups = b.groups ++ b.group ∷ []; group = [] }) }
    {
        self.states += 1;
        self.symbols = self.filled;
        self.filled = 0;
    }

    /// Reads an entry or a `_` at the start of the bytes. Returns its length, or the number of bytes by which
    /// some machine's text continues.
    fn step(&mut self, bytes: &[u8]) -> Result<usize, usize>
        requires some { 0 < length bytes.now }
        requires begun { (b : Begun) × IsDraft self.old b }
        ensures taken { IfOk result (λ n. (0 < n) × (n ≤ length bytes.now)) }
        ensures text { (b : Begun) → IsDraft self.old b → IfOk result (λ n.
            (c : Begun) × IsDraft self.new c × (begun_text c ≡ begun_text b ++ take n bytes.now)) }
        ensures stop { (b : Begun) → IsDraft self.old b → IfErr result (IsStop (begun_text b) bytes.now) }
    {
        if bytes[0] == b'_' {
            if self.states >= MAX_STATES || !self.is_whole() {
                return Err(0);
            }
            self.close();
            return Ok(1);
        }
        if self.filled >= self.symbols {
            return Err(0);
        }
        match Entry::read(bytes, self.symbols) {
            Ok(entry) => {
                self.push(entry);
                Ok(3)
            }
            Err(prefix) => Err(prefix),
        }
    }
}

impl Machine {
    ghost use Rattle.bb_machine.specs.Machine.{Table, IsMachine, text};
    ghost use Rattle.bb_machine.specs.Column.{IsColumn};

    /// Reads the machine with this text in place of this one, as `read` does; after an error this one stays
    /// unchanged. The cost is that of the line: no table is cleared or moved.
    #[inline]
    pub fn read_in_place(&mut self, line: &[u8]) -> Result<(), Refused>
        ensures found { OnOk result (IsMachine self.new × (text self.new ≡ line.now)) }
        ensures none { OnErr result ((machine : Table) → IsMachine machine → text machine ≢ line.now) }
        ensures stays { OnErr result (self.new ≡ self.old) }
        ensures column { IfErr result (λ refused. IsColumn line.now refused.column) }
        ensures bounded { IfErr result (λ refused. refused.column ≤ LINE + 1) }
    {
        let Some((states, symbols)) = counts(line) else {
            return Err(Refused {
                column: longest_prefix(line) as u32 + 1,
            });
        };
        self.state_count = states as u8;
        self.symbol_count = symbols as u8;
        if is_small_table(states as u8, symbols as u8) {
            self.packed = PackedTable::read(line, states);
            return Ok(());
        }
        fill(&mut self.slots, line, states, symbols);
        Ok(())
    }

    /// Whether `read` accepts the line. For two symbols it costs two fifths of `read`.
    #[inline]
    pub fn can_read(line: &[u8]) -> bool
        ensures { IsTrue result ↔ ((machine : Table) × IsMachine machine × (text machine ≡ line.now)) }
    {
        counts(line).is_some()
    }
}

ghost use Rattle.bb_machine.specs.declared.entry.Entry.{Entry};
ghost use Rattle.bb_machine.specs.Machine.{IsMachine, IsGroup, group_text, symbols_of, text};
ghost use Rattle.bb_machine.specs.Rows.{IsTable, entries_in, table_in};
ghost use Rattle.bb_machine.specs.Column.{BeginsWith, IsViable, IsLongestPrefix};
ghost use Rattle.bb_machine.specs.inside.Places.{HasEntry, HasLink};

/// How many places a mask has.
const LANES: usize = 16;

/// How many bytes are looked at for a mask: an entry at the last place ends two bytes later.
const SIGHT: usize = 18;

/// The places of the first five entries of a line: 0, 3, 7, 10 and 14.
const FIRST_ENTRIES: u64 = 0x4489;

/// The places of each `_` between them: 6 and 13.
const FIRST_BARS: u64 = 0x2040;

/// The places of entries from the second of a row on, if that stands at 1: 1, 5, 8, 12 and 15.
const NEXT_ENTRIES: u64 = 0x9122;

/// The places of each `_` between them: 4 and 11.
const NEXT_BARS: u64 = 0x0810;

/// The number of states and symbols of the machine with this text, if there is one.
///
/// Neither it nor `fill` is inlined, so that the function that reads a line stays small enough to be inlined.
#[inline(never)]
fn counts(line: &[u8]) -> Option<(usize, usize)>
    ensures { MatchOption result ((gs : List (List Entry)) → IsMachine gs → text gs ≢ line.now)
        (λ counts. (gs : List (List Entry)) × IsTable counts.0 counts.1 gs × (text gs ≡ line.now)) }
{
    let symbols = symbols_at_first(line)?;
    let states = match symbols {
        2 => states_with(line, 2)?,
        _ => states_with_more(line, symbols)?,
    };
    Some((states, symbols))
}

/// As `states_with`, not inlined: so the code for two symbols needs few registers.
#[inline(never)]
fn states_with_more(line: &[u8], symbols: usize) -> Option<usize>
    requires two { 2 ≤ symbols }
    requires symbols { symbols ≤ MAX_SYMBOLS }
    ensures { MatchOption result
        ((gs : List (List Entry)) → IsMachine gs → symbols_of gs ≡ symbols → text gs ≢ line.now)
        (λ states. (gs : List (List Entry)) × IsTable states symbols gs × (text gs ≡ line.now)) }
{
    states_with(line, symbols)
}

/// The number of states of the machine with this text and so many symbols, if there is one. The compiler
/// unrolls its loops for two symbols.
#[inline(always)]
fn states_with(line: &[u8], symbols: usize) -> Option<usize>
    requires two { 2 ≤ symbols }
    requires symbols { symbols ≤ MAX_SYMBOLS }
    ensures { MatchOption result
        ((gs : List (List Entry)) → IsMachine gs → symbols_of gs ≡ symbols → text gs ≢ line.now)
        (λ states. (gs : List (List Entry)) × IsTable states symbols gs × (text gs ≡ line.now)) }
{
    let states = states_by_length(line, symbols)?;
    if is_table(line, states, symbols) {
        Some(states)
    } else {
        None
    }
}

/// The number of symbols of the machine with this text: the number of entries before the first `_`, or before
/// the end.
fn symbols_at_first(line: &[u8]) -> Option<usize>
    ensures some { IfSome result (λ symbols. (2 ≤ symbols) × (symbols ≤ MAX_SYMBOLS)) }
    ensures machine { (gs : List (List Entry)) → IsMachine gs → text gs ≡ line.now
        → result ≡ Some (symbols_of gs) }
{
    for symbols in 2..MAX_SYMBOLS + 1 {
        if line.len() <= 3 * symbols || line[3 * symbols] == b'_' {
            return Some(symbols);
        }
    }
    None
}

/// The number of states of the machine with this text and so many symbols, by the length of the text.
#[inline(always)]
fn states_by_length(line: &[u8], symbols: usize) -> Option<usize>
    requires { symbols ≤ MAX_SYMBOLS }
    ensures { MatchOption result
        ((n : ℕ) → 0 < n → n ≤ MAX_STATES → length line.now + 1 ≢ n * (3 * symbols + 1))
        (λ states. (0 < states) × (states ≤ MAX_STATES)
        × (length line.now + 1 ≡ states * (3 * symbols + 1))) }
{
    for states in 1..MAX_STATES + 1 {
        let length = states * (3 * symbols + 1) - 1;
        if length >= line.len() {
            return (length == line.len()).then_some(states);
        }
    }
    None
}

/// Whether the line, of the right length, is the text of a machine with so many states and symbols.
#[inline(always)]
fn is_table(line: &[u8], states: usize, symbols: usize) -> bool
    requires some { 0 < states }
    requires states { states ≤ MAX_STATES }
    requires two { 2 ≤ symbols }
    requires symbols { symbols ≤ MAX_SYMBOLS }
    requires length { length line.now + 1 ≡ states * (3 * symbols + 1) }
    ensures { IsTrue result
        ↔ ((gs : List (List Entry)) × IsTable states symbols gs × (text gs ≡ line.now)) }
{
    if symbols == 2 && states >= 3 {
        return is_table_by_masks(line, states);
    }
    is_table_by_entries(line, states, symbols)
}

/// As `is_table`, for two symbols: it looks at five entries at once.
#[inline(always)]
fn is_table_by_masks(line: &[u8], states: usize) -> bool
    requires three { 3 ≤ states }
    requires states { states ≤ MAX_STATES }
    requires length { length line.now + 1 ≡ states * 7 }
    ensures { IsTrue result ↔ ((gs : List (List Entry)) × IsTable states 2 gs × (text gs ≡ line.now)) }
{
    if !has_first_rows(line, states as u8) || !has_rows_after(line, states - 3, states as u8) {
        return false;
    }
    for pair in 1..(states - 2) / 2 {
        if !has_rows_after(line, 2 * pair, states as u8) {
            return false;
        }
    }
    true
}

/// Whether the line begins with two rows and the first entry of a third.
#[inline(always)]
fn has_first_rows(line: &[u8], states: u8) -> bool
    requires some { 0 < states }
    requires states { states ≤ MAX_STATES }
    requires room { SIGHT ≤ length line.now }
    ensures { IsTrue result
        ↔ (HasEntry states line.now 0 × HasLink states line.now 0 × HasLink states line.now 1) }
{
    has_all(places_of_entries(line, states), FIRST_ENTRIES)
        && has_all(places_of_bars(line), FIRST_BARS)
}

/// Whether the second entry of a row, with 0 for the first row, and two rows after it stand in the line.
#[inline(always)]
fn has_rows_after(line: &[u8], row: usize, states: u8) -> bool
    requires some { 0 < states }
    requires states { states ≤ MAX_STATES }
    requires row { row < MAX_STATES }
    requires room { 7 * row + 2 + SIGHT ≤ length line.now }
    ensures { IsTrue result
        ↔ (HasLink states line.now row × HasLink states line.now (row + 1)
        × HasEntry states line.now (7 * row + 17)) }
{
    let bytes = &line[7 * row + 2..];
    has_all(places_of_entries(bytes, states), NEXT_ENTRIES)
        && has_all(places_of_bars(bytes), NEXT_BARS)
}

/// Whether a mask has all these places.
#[inline(always)]
fn has_all(mask: u64, places: u64) -> bool
    ensures { IsTrue result ↔ ((k : ℕ) → bit_at places k ≡ 1 → bit_at mask k ≡ 1) }
{
    mask & places == places
}

/// At which of the first 16 places the text of an entry of a machine with two symbols begins.
#[inline(always)]
fn places_of_entries(bytes: &[u8], states: u8) -> u64
    requires some { 0 < states }
    requires states { states ≤ MAX_STATES }
    requires room { SIGHT ≤ length bytes.now }
    ensures { (k : ℕ) → k < LANES → (bit_at result k ≡ 1) ↔ HasEntry states bytes.now k }
{
    let third = u8x16::from_slice(&bytes[2..]);
    let second = u8x16::from_slice(&bytes[1..]);
    let first = u8x16::from_slice(bytes);
    let dash = u8x16::splat(b'-');
    let undefined = first.simd_eq(dash) & second.simd_eq(dash) & third.simd_eq(dash);
    let digit = first.simd_eq(u8x16::splat(b'0')) | first.simd_eq(u8x16::splat(b'1'));
    let dir = second.simd_eq(u8x16::splat(b'L')) | second.simd_eq(u8x16::splat(b'R'));
    let state = (third - u8x16::splat(b'A')).simd_le(u8x16::splat(states - 1));
    let next = state | third.simd_eq(u8x16::splat(b'Z'));
    (undefined | digit & dir & next).to_bitmask()
}

/// At which of the first 16 places a `_` stands.
#[inline(always)]
fn places_of_bars(bytes: &[u8]) -> u64
    requires room { LANES ≤ length bytes.now }
    ensures { (k : ℕ) → k < LANES → (bit_at result k ≡ 1) ↔ (slice_index bytes.now k ≡ 95) }
{
    u8x16::from_slice(bytes)
        .simd_eq(u8x16::splat(b'_'))
        .to_bitmask()
}

/// As `is_table`, entry by entry.
#[inline(always)]
fn is_table_by_entries(line: &[u8], states: usize, symbols: usize) -> bool
    requires some { 0 < states }
    requires states { states ≤ MAX_STATES }
    requires two { 2 ≤ symbols }
    requires symbols { symbols ≤ MAX_SYMBOLS }
    requires length { length line.now + 1 ≡ states * (3 * symbols + 1) }
    ensures { IsTrue result
        ↔ ((gs : List (List Entry)) × IsTable states symbols gs × (text gs ≡ line.now)) }
{
    let mut rest = line;
    for row in 0..states {
        if row > 0 {
            if rest[0] != b'_' {
                return false;
            }
            rest = &rest[1..];
        }
        if !is_group(rest, states, symbols) {
            return false;
        }
        rest = &rest[3 * symbols..];
    }
    true
}

/// Whether the first bytes are the text of a group of a machine with so many states and symbols.
#[inline(always)]
fn is_group(bytes: &[u8], states: usize, symbols: usize) -> bool
    requires room { 3 * symbols ≤ length bytes.now }
    requires states { states ≤ MAX_STATES }
    requires symbols { symbols ≤ MAX_SYMBOLS }
    ensures { IsTrue result
        ↔ ((g : List Entry) × IsGroup states symbols g × BeginsWith bytes.now (group_text g)) }
{
    for symbol in 0..symbols {
        if !Entry::is_at_first(&bytes[3 * symbol..], states as u8, symbols as u8) {
            return false;
        }
    }
    true
}

/// How many of the line's first bytes begin some machine's text.
#[cold]
#[inline(never)]
fn longest_prefix(line: &[u8]) -> usize
    ensures longest { IsLongestPrefix IsViable line.now result }
    ensures bounded { result ≤ LINE }
{
    let mut draft = Draft::new();
    let mut at = 0;
    while at < line.len() {
        match draft.step(&line[at..]) {
            Ok(taken) => at += taken,
            Err(more) => return at + more,
        }
    }
    at
}

/// Writes the entries of the machine with this text, of so many states and symbols, into the slots. Other
/// slots keep their values, and cost nothing. The compiler unrolls the loops for two symbols.
#[inline(never)]
fn fill(slots: &mut [Slot; SLOTS], line: &[u8], states: usize, symbols: usize)
    requires { (gs : List (List Entry)) × IsTable states symbols gs × (text gs ≡ line.now) }
    ensures { (gs : List (List Entry)) → IsTable states symbols gs → text gs ≡ line.now
        → table_in states symbols slots.new ≡ gs }
{
    match symbols {
        2 => fill_rows(slots, line, states, 2),
        _ => fill_more(slots, line, states, symbols),
    }
}

/// As `fill_rows`, not inlined: so the code for two symbols needs few registers.
#[inline(never)]
fn fill_more(slots: &mut [Slot; SLOTS], line: &[u8], states: usize, symbols: usize)
    requires { (gs : List (List Entry)) × IsTable states symbols gs × (text gs ≡ line.now) }
    ensures { (gs : List (List Entry)) → IsTable states symbols gs → text gs ≡ line.now
        → table_in states symbols slots.new ≡ gs }
{
    fill_rows(slots, line, states, symbols);
}

/// As `fill`, inlined.
#[inline(always)]
fn fill_rows(slots: &mut [Slot; SLOTS], line: &[u8], states: usize, symbols: usize)
    requires { (gs : List (List Entry)) × IsTable states symbols gs × (text gs ≡ line.now) }
    ensures { (gs : List (List Entry)) → IsTable states symbols gs → text gs ≡ line.now
        → table_in states symbols slots.new ≡ gs }
{
    for row in 0..states {
        fill_row(slots, row, symbols, &line[row * (3 * symbols + 1)..]);
    }
}

/// Writes the entries of the group at the start of the bytes into a row.
#[inline(always)]
fn fill_row(slots: &mut [Slot; SLOTS], row: usize, symbols: usize, bytes: &[u8])
    requires row { row < MAX_STATES }
    requires symbols { symbols ≤ MAX_SYMBOLS }
    requires group { (g : List Entry) × IsGroup MAX_STATES symbols g × BeginsWith bytes.now (group_text g) }
    ensures row { (g : List Entry) → IsGroup MAX_STATES symbols g → BeginsWith bytes.now (group_text g)
        → take symbols (drop (row * STRIDE) (entries_in slots.new)) ≡ g }
    ensures before { table_in row symbols slots.new ≡ table_in row symbols slots.old }
{
    for symbol in 0..symbols {
        slots[row * STRIDE + symbol].set_first(&bytes[3 * symbol..]);
    }
}
