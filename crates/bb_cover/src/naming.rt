//! New names of a machine's states and symbols.
ghost use Rattle.std.specs.Prelude.{◌≡◌, ℕ, ◌<◌, false, length};
ghost use Rattle.bb_machine.specs.declared.machine.TheConstants.{MAX_STATES};
ghost use Rattle.laws_of_verdicts.specs.Change.{either, swapped};
ghost use Rattle.bb_cover.specs.Names.{name_in};

use bb_machine::MAX_STATES;

/// New names of numbers, no two the same: of those below 25, so of a machine's states or of its symbols.
/// Greater ones keep theirs.
#[derive(Clone, Copy, Debug)]
pub struct Names {
    new: [u8; MAX_STATES],
    old: [u8; MAX_STATES],
    ghost new_whole: { length new ≡ MAX_STATES },
    ghost old_whole: { length old ≡ MAX_STATES },
    ghost old_of_new: { (n : ℕ) → name_in old (name_in new n) ≡ n },
    ghost new_of_old: { (n : ℕ) → name_in new (name_in old n) ≡ n },
}

impl Names {
    /// Each number's own.
    pub(crate) fn own() -> Names
        ensures { (n : ℕ) → name_in result.new n ≡ n }
    {
        let mut own = [0; MAX_STATES];
        for name in 0..MAX_STATES {
            own[name] = name as u8;
        }
        Names { new: own, old: own }
    }

    /// The new name of a number.
    pub fn new_name(&self, old: u8) -> u8
        requires { old < MAX_STATES }
        ensures name { result ≡ name_in self.now.new old }
        ensures few { result < MAX_STATES }
    {
        self.new[old as usize]
    }

    /// The number with this new name.
    pub fn old_name(&self, new: u8) -> u8
        requires { new < MAX_STATES }
        ensures { result ≡ name_in self.now.old new }
    {
        self.old[new as usize]
    }

    /// These names, with those of two numbers swapped.
    pub(crate) fn swap(&self, first: u8, second: u8) -> Names
        requires first { first < MAX_STATES }
        requires second { second < MAX_STATES }
        ensures { (n : ℕ) → name_in result.new n ≡ name_in self.now.new (swapped first second n) }
    {
        let of_first = self.new_name(first);
        let of_second = self.new_name(second);
        let mut new = self.new;
        new[first as usize] = of_second;
        new[second as usize] = of_first;
        let mut old = self.old;
        old[of_first as usize] = second;
        old[of_second as usize] = first;
        Names { new, old }
    }
}

/// A change of a machine: new names of its states but for A, of its symbols but for 0, and left and right
/// swapped or not.
#[derive(Clone, Copy, Debug)]
pub struct Naming {
    /// Whether left and right are swapped.
    pub mirrored: bool,
    pub states: Names,
    pub symbols: Names,
    ghost keeps_A: { name_in states.new 0 ≡ 0 },
    ghost keeps_0: { name_in symbols.new 0 ≡ 0 },
}

impl Naming {
    /// No change.
    pub(crate) fn own() -> Naming
        ensures mirrored { result.mirrored ≡ false }
        ensures states { (n : ℕ) → name_in result.states.new n ≡ n }
        ensures symbols { (n : ℕ) → name_in result.symbols.new n ≡ n }
    {
        Naming {
            mirrored: false,
            states: Names::own(),
            symbols: Names::own(),
        }
    }

    /// This change after another one: left and right swapped or not, then the names of two states, and those
    /// of two symbols.
    pub(crate) fn swap(
        &self,
        mirrored: bool,
        first_state: u8,
        state: u8,
        first_symbol: u8,
        symbol: u8,
    ) -> Naming
        requires first_state { first_state < MAX_STATES }
        requires state { state < MAX_STATES }
        requires first_symbol { first_symbol < MAX_STATES }
        requires symbol { symbol < MAX_STATES }
        requires keeps_A { swapped first_state state 0 ≡ 0 }
        requires keeps_0 { swapped first_symbol symbol 0 ≡ 0 }
        ensures mirrored { result.mirrored ≡ either mirrored self.now.mirrored }
        ensures states { (n : ℕ) → name_in result.states.new n
            ≡ name_in self.now.states.new (swapped first_state state n) }
        ensures symbols { (n : ℕ) → name_in result.symbols.new n
            ≡ name_in self.now.symbols.new (swapped first_symbol symbol n) }
    {
        Naming {
            mirrored: differ(mirrored, self.mirrored),
            states: self.states.swap(first_state, state),
            symbols: self.symbols.swap(first_symbol, symbol),
        }
    }
}

/// Whether just one of two is true.
fn differ(one: bool, other: bool) -> bool
    ensures { result ≡ either one other }
{
    if one { !other } else { other }
}
