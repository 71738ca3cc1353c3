//! One entry of a machine's table, and its three bytes of text.
use crate::machine::{MAX_STATES, MAX_SYMBOLS};

/// The direction of a move: `L` to the next lower position, `R` to the next higher one.
#[derive(Clone, Copy, Debug, PartialEq, Eq)]
pub enum Dir {
    /// To the left: one position less.
    L,
    /// To the right: one position more.
    R,
}

/// The target of a transition: a state, counted from 0 for A, or the halting state Z.
#[derive(Clone, Copy, Debug, PartialEq, Eq)]
pub enum Next {
    /// A state, from 0 for A.
    State(u8),
    /// The halting state.
    Halt,
}

/// A transition: undefined (`---`), or a symbol to write, a move of one cell, and a next state.
#[derive(Clone, Copy, Debug, PartialEq, Eq)]
pub enum Entry {
    /// There is no step.
    Undefined,
    /// A step writes `write`, moves by `dir` and leads to `next`.
    Go { write: u8, dir: Dir, next: Next },
}

/// A transition to a state: the symbol to write, the offset of the move, -1 or 1, and the state.
#[derive(Clone, Copy, Debug, PartialEq, Eq)]
pub struct Step {
    /// The symbol to write.
    pub write: u8,
    /// How far the head moves: 1 or -1.
    pub offset: i8,
    /// The next state, from 0 for A.
    pub state: u8,
}

impl Dir {
    ghost use Rattle.std.specs.Prelude.{◌≡◌, ◌≢◌, ◌↔◌, IsTrue, MatchOption};
    ghost use Rattle.bb_machine.specs.declared.entry.Dir.{Dir};
    ghost use Rattle.bb_machine.specs.Entry.{dir_letter};

    fn letter(self) -> u8
        ensures { result ≡ dir_letter self }
    {
        match self {
            Dir::L => b'L',
            Dir::R => b'R',
        }
    }

    /// Whether a direction has the letter. Both are equally likely, so the test uses a property of both, 3
    /// before and 3 after `O`: a branch between them would be mispredicted half the time.
    fn has_letter(letter: u8) -> bool
        ensures { IsTrue result ↔ ((d : Dir) × (dir_letter d ≡ letter)) }
    {
        letter.abs_diff(b'O') == 3
    }

    fn read(letter: u8) -> Option<Dir>
        ensures { MatchOption result ((d : Dir) → dir_letter d ≢ letter) (λ d. dir_letter d ≡ letter) }
    {
        if Dir::has_letter(letter) {
            Some(Dir::of_letter(letter))
        } else {
            None
        }
    }

    /// The direction with the letter, if any.
    fn of_letter(letter: u8) -> Dir
        ensures { (d : Dir) → dir_letter d ≡ letter → result ≡ d }
    {
        match letter {
            b'L' => Dir::L,
            _ => Dir::R,
        }
    }
}

impl Next {
    ghost use Rattle.std.specs.Prelude.{◌≡◌, ◌≢◌, ◌≤◌, ◌↔◌, IsTrue, MatchOption};
    ghost use Rattle.bb_machine.specs.declared.entry.Next.{Next};
    ghost use Rattle.bb_machine.specs.Entry.{next_letter, IsNextOf};

    /// The letter of a state, or `Z`.
    pub fn letter(self) -> u8
        requires { IsNextOf MAX_STATES self }
        ensures { result ≡ next_letter self }
    {
        match self {
            Next::State(state) => b'A' + state,
            Next::Halt => b'Z',
        }
    }

    /// Whether the letter names a state of a machine with so many, or `Z`.
    fn has_letter(letter: u8, states: u8) -> bool
        requires { states ≤ MAX_STATES }
        ensures { IsTrue result ↔ ((n : Next) × IsNextOf states n × (next_letter n ≡ letter)) }
    {
        letter == b'Z' || letter.wrapping_sub(b'A') < states
    }

    fn read(letter: u8) -> Option<Next>
        ensures { MatchOption result
            ((n : Next) → IsNextOf MAX_STATES n → next_letter n ≢ letter)
            (λ n. IsNextOf MAX_STATES n × (next_letter n ≡ letter)) }
    {
        if Next::has_letter(letter, MAX_STATES as u8) {
            Some(Next::of_letter(letter))
        } else {
            None
        }
    }

    /// The state or halt with the letter, if any.
    fn of_letter(letter: u8) -> Next
        requires { (n : Next) × IsNextOf MAX_STATES n × (next_letter n ≡ letter) }
        ensures { (n : Next) → IsNextOf MAX_STATES n → next_letter n ≡ letter → result ≡ n }
    {
        match letter {
            b'Z' => Next::Halt,
            _ => Next::State(letter - b'A'),
        }
    }
}

impl Entry {
    ghost use Rattle.std.specs.Prelude.{◌≡◌, ℕ, ◌≤◌, ◌<◌, ◌↔◌, IfOk, IfErr, IsTrue, length, take};
    ghost use Rattle.bb_machine.specs.declared.entry.Entry.{Entry};
    ghost use Rattle.bb_machine.specs.Entry.{entry_text, IsEntryOf};
    ghost use Rattle.bb_machine.specs.Column.{BeginsWith};
    ghost use Rattle.bb_machine.specs.inside.Draft.{IsEntryStop};

    /// The entry's text.
    pub(crate) fn bytes(self) -> [u8; 3]
        requires { IsEntryOf MAX_STATES MAX_SYMBOLS self }
        ensures { result ≡ entry_text self }
    {
        match self {
            Entry::Undefined => [b'-', b'-', b'-'],
            Entry::Go { write, dir, next } => [b'0' + write, dir.letter(), next.letter()],
        }
    }

    /// The fewest symbols of a machine with the entry.
    pub(crate) fn named_symbols(self) -> usize
        ensures { (k symbols : ℕ) → IsEntryOf MAX_STATES k self
            → IsEntryOf MAX_STATES symbols self ↔ (result ≤ symbols) }
    {
        match self {
            Entry::Undefined => 0,
            Entry::Go { write, .. } => write as usize + 1,
        }
    }

    /// Whether the first bytes are the text of an entry of a machine with so many states and symbols.
    #[inline(always)]
    pub(crate) fn is_at_first(bytes: &[u8], states: u8, symbols: u8) -> bool
        requires room { 3 ≤ length bytes.now }
        requires states { states ≤ MAX_STATES }
        requires symbols { symbols ≤ MAX_SYMBOLS }
        ensures { IsTrue result
            ↔ ((e : Entry) × IsEntryOf states symbols e × BeginsWith bytes.now (entry_text e)) }
    {
        let [first, second, third, ..] = bytes else {
            return false;
        };
        if *first == b'-' {
            return *second == b'-' && *third == b'-';
        }
        is_digit(*first, symbols) && Dir::has_letter(*second) && Next::has_letter(*third, states)
    }

    /// The entry whose text starts the bytes, or else the number of leading bytes that start some entry's
    /// text.
    pub(crate) fn read(bytes: &[u8], symbols: usize) -> Result<Entry, usize>
        requires some { 0 < symbols }
        requires few { symbols ≤ MAX_SYMBOLS }
        ensures entry { IfOk result (IsEntryOf MAX_STATES symbols) }
        ensures text { IfOk result (λ e. (3 ≤ length bytes.now) × (take 3 bytes.now ≡ entry_text e)) }
        ensures stop { IfErr result (IsEntryStop MAX_STATES symbols bytes.now) }
    {
        let (first, second, third) = first_bytes(bytes);
        if first == b'-' {
            return if second != b'-' {
                Err(1)
            } else if third != b'-' {
                Err(2)
            } else {
                Ok(Entry::Undefined)
            };
        }
        let Some(write) = read_digit(first, symbols) else {
            return Err(0);
        };
        let Some(dir) = Dir::read(second) else {
            return Err(1);
        };
        let Some(next) = Next::read(third) else {
            return Err(2);
        };
        Ok(Entry::Go { write, dir, next })
    }
}

ghost use Rattle.std.specs.Prelude.{◌≡◌, ◌≢◌, ◌≤◌, ◌<◌, ◌+◌, ◌↔◌, ℕ, IsTrue, MatchOption, slice_index};

/// The first three bytes, padded with 0, a byte of no text.
fn first_bytes(bytes: &[u8]) -> (u8, u8, u8)
    ensures { result ≡ (slice_index bytes.now 0, slice_index bytes.now 1, slice_index bytes.now 2) }
{
    match bytes {
        [first, second, third, ..] => (*first, *second, *third),
        _ => (byte_at(bytes, 0), byte_at(bytes, 1), 0),
    }
}

fn byte_at(bytes: &[u8], index: usize) -> u8
    ensures { result ≡ slice_index bytes.now index }
{
    bytes.get(index).copied().unwrap_or(0)
}

/// Whether the byte is the digit of one of so many symbols.
fn is_digit(byte: u8, symbols: u8) -> bool
    requires { symbols ≤ MAX_SYMBOLS }
    ensures { IsTrue result ↔ ((w : ℕ) × (w < symbols) × (48 + w ≡ byte)) }
{
    byte.wrapping_sub(b'0') < symbols
}

fn read_digit(byte: u8, symbols: usize) -> Option<u8>
    ensures { MatchOption result
        ((w : ℕ) → w < symbols → 48 + w ≢ byte)
        (λ w. (w < symbols) × (48 + w ≡ byte)) }
{
    if byte < b'0' {
        return None;
    }
    let digit = byte - b'0';
    if (digit as usize) < symbols {
        Some(digit)
    } else {
        None
    }
}
