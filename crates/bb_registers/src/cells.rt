//! Sixty-four cells of two symbols in one number.
ghost use Rattle.std.specs.Prelude.{◌≡◌, ◌↔◌, ◌<◌, ℤ, ◌+ℤ◌, pos, IsTrue};
ghost use Rattle.bb_tape.specs.TapeView.{AgreesFrom};
ghost use Rattle.bb_registers.specs.BitCells.{IsInWord, IsStretchInWord, bits_content, content_of};

/// The cells from -32 to 31: that at position p is bit p + 32. All others are 0.
#[derive(Clone, Copy, Debug)]
pub struct BitCells {
    bits: u64,
}

/// The bit of a position.
#[inline(always)]
fn place(p: i64) -> u32
    requires { IsInWord p }
    ensures { pos result ≡ p +ℤ pos 32 }
{
    (p + 32) as u32
}

impl BitCells {
    /// The cells that the bits of a number stand for.
    #[inline(always)]
    pub fn of_bits(bits: u64) -> BitCells
        ensures { content_of result ≡ bits_content bits }
    {
        BitCells { bits }
    }

    /// Whether `len` cells from `from` on have the symbols of those of other cells from `other_from` on.
    #[inline(always)]
    pub fn agrees(&self, from: i64, other: &BitCells, other_from: i64, len: u64) -> bool
        requires some { 0 < len }
        requires here { IsStretchInWord from len }
        requires there { IsStretchInWord other_from len }
        ensures { IsTrue result
            ↔ AgreesFrom (content_of self.now) from (content_of other.now) other_from len }
    {
        let mask = u64::MAX >> (64 - len);
        (self.bits >> place(from)) & mask == (other.bits >> place(other_from)) & mask
    }
}
