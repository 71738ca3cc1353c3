//! The keys of positions, the base of a tape's fingerprint.
ghost use Rattle.std.specs.Prelude.{◌≡◌, ◌≢◌, ℕ, ℤ};
ghost use Rattle.bb_decide.specs.FingerprintKeys.{spread};

/// A key for each position. For any keys, equal tapes have equal fingerprints; well-spread keys make other
/// collisions rare.
pub trait FingerprintKeys {
    /// The key of a position.
    ghost key_of: { Self → ℤ → ℕ };

    /// The key of a position, any number.
    fn key(&self, position: i64) -> u64
        ensures { result ≡ key_of self.now position };
}

/// The odd number nearest 2^64 divided by the golden ratio (D. E. Knuth, "The Art of Computer Programming",
/// 6.4, multiplicative hashing).
pub const MULTIPLIER: u64 = 0x9E37_79B9_7F4A_7C15;

/// Pseudorandom keys: an odd number for each position, so that no key is 0, times `MULTIPLIER`, folded once.
#[derive(Clone, Copy, Debug, Default)]
pub struct SpreadKeys;

impl FingerprintKeys for SpreadKeys {
    ghost use Rattle.bb_decide.specs.FingerprintKeys.{spread};

    ghost key_of = { λ keys position. spread position };

    #[inline(always)]
    fn key(&self, position: i64) -> u64
        ensures key { result ≡ spread position }
        ensures some { result ≢ 0 }
    {
        let odd = position.cast_unsigned().wrapping_mul(2).wrapping_add(1);
        let product = odd.wrapping_mul(MULTIPLIER);
        product ^ (product >> 29)
    }
}
