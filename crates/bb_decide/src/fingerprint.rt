//! The fingerprint of a tape, updated at each write.
ghost use Rattle.std.specs.Prelude.{◌≡◌, ◌≤◌, ◌≤ℤ◌, neg_ℤ, pos};
ghost use Rattle.bb_tape.specs.declared.tape.TheConstants.{MAX_CELLS};
ghost use Rattle.bb_tape.specs.Content.{Content, cell, with_cell};
ghost use Rattle.bb_decide.specs.Fingerprint.{fingerprint};

use crate::keys::FingerprintKeys;
use bb_tape::{MAX_CELLS, MAX_SYMBOL};

/// The fingerprint of a tape after the symbol at a position changed.
#[inline(always)]
pub fn update_fingerprint<K: FingerprintKeys>(
    current: u64,
    keys: &K,
    position: i64,
    old: u8,
    new: u8,
) -> u64
    requires low { neg_ℤ (pos MAX_CELLS) ≤ℤ position }
    requires high { position ≤ℤ pos MAX_CELLS }
    requires old { old ≤ MAX_SYMBOL }
    ensures { (tape : Content) → current ≡ fingerprint (K.key_of keys.now) tape → cell tape position ≡ old
        → result ≡ fingerprint (K.key_of keys.now) (with_cell tape position new) }
{
    let change = u64::from(new).wrapping_sub(u64::from(old));
    current.wrapping_add(keys.key(position).wrapping_mul(change))
}
