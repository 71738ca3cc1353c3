//! The caller's buffer, and the status of a call.
ghost use Rattle.std.specs.Prelude.{◌≡◌, ◌≢◌, ◌⊎◌, ◌≤◌, IsTrue, length};
ghost use Rattle.bb_c.specs.Buffer.{IsFilled, IsTooShort};

/// Every line was fine.
pub(crate) const CLEAN: u32 = 0;

/// Some line wasn't.
pub(crate) const NOT_CLEAN: u32 = 1;

/// The limits were refused.
pub(crate) const LIMITS: u32 = 2;

/// An allocation failed.
pub(crate) const MEMORY: u32 = 3;

/// The buffer is too short.
pub(crate) const SHORT: u32 = 4;

/// Puts the bytes at the buffer's begin, if it has room for all, and answers the status.
pub(crate) fn fill_buffer(bytes: &[u8], clean: bool, out: &mut [u8], count: &mut usize) -> u32
    ensures clean { result ≡ CLEAN → IsTrue clean }
    ensures not_clean { result ≡ NOT_CLEAN → IsTrue clean → ⊥ }
    ensures filled { (result ≡ CLEAN) ⊎ (result ≡ NOT_CLEAN)
        → IsFilled (λ given. given ≡ bytes.now) out.old out.new count.new }
    ensures short { result ≡ SHORT → IsTooShort (λ given. given ≡ bytes.now) out.old out.new count.new }
    ensures enough { length bytes.now ≤ length out.old → result ≢ SHORT }
    ensures status { (result ≡ CLEAN) ⊎ ((result ≡ NOT_CLEAN) ⊎ (result ≡ SHORT)) }
{
    *count = bytes.len();
    if bytes.len() > out.len() {
        return SHORT;
    }
    out[..bytes.len()].copy_from_slice(bytes);
    if clean { CLEAN } else { NOT_CLEAN }
}
