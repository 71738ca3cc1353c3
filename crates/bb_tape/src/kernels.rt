//! Comparing and counting over slices, 32 bytes at a time.

ghost use Rattle.std.specs.Prelude.{◌≡◌, ◌↔◌, ◌==◌, ◌+◌, ◌*◌, ◌^◌, ◌<◌, ◌≤◌};
ghost use Rattle.std.specs.Prelude.{not, length, take, count_by, IsTrue, ℕ, min, slice_index};
ghost use Rattle.std.specs.Int.{bit_at};
ghost use Rattle.std.specs.Simd.Lanes.{chunk};

use std::simd::prelude::*;

/// The bytes processed at a time.
const LANES: usize = 32;

/// Whether two slices of the same length are equal.
pub(crate) fn equal(a: &[u8], b: &[u8]) -> bool
    requires { length a.now ≡ length b.now }
    ensures { IsTrue result ↔ (a.now ≡ b.now) }
{
    let whole = a.len() / LANES;
    let rest = whole * LANES;
    equal_by_lanes(a, b, whole) && equal_one_by_one(&a[rest..], &b[rest..])
}

/// Whether the first `whole` times 32 bytes are equal.
fn equal_by_lanes(a: &[u8], b: &[u8], whole: usize) -> bool
    requires a { whole * LANES ≤ length a.now }
    requires b { whole * LANES ≤ length b.now }
    ensures { IsTrue result ↔ (take (whole * LANES) a.now ≡ take (whole * LANES) b.now) }
{
    for i in 0..whole {
        if !equal_lanes(a, b, i * LANES) {
            return false;
        }
    }
    true
}

/// Whether the 32 bytes from an index on are equal.
#[inline(always)]
fn equal_lanes(a: &[u8], b: &[u8], at: usize) -> bool
    requires a { at + LANES ≤ length a.now }
    requires b { at + LANES ≤ length b.now }
    ensures { IsTrue result ↔ (chunk at LANES a.now ≡ chunk at LANES b.now) }
{
    let differs = u8x32::from_slice(&a[at..]).simd_ne(u8x32::from_slice(&b[at..]));
    differs.to_bitmask() == 0
}

/// Whether two slices of the same length are equal, a byte at a time.
fn equal_one_by_one(a: &[u8], b: &[u8]) -> bool
    requires { length a.now ≡ length b.now }
    ensures { IsTrue result ↔ (a.now ≡ b.now) }
{
    for i in 0..a.len() {
        if a[i] != b[i] {
            return false;
        }
    }
    true
}

/// How many bytes aren't 0.
pub(crate) fn count_nonzero(a: &[u8]) -> usize
    ensures { result ≡ count_by (λ x. not (x == 0)) a.now }
{
    let whole = a.len() / LANES;
    count_by_lanes(a, whole) + count_one_by_one(&a[whole * LANES..])
}

/// How many of the first `whole` times 32 bytes aren't 0.
fn count_by_lanes(a: &[u8], whole: usize) -> usize
    requires within { whole * LANES ≤ length a.now }
    requires fits { length a.now < 2 ^ 64 }
    ensures { result ≡ count_by (λ x. not (x == 0)) (take (whole * LANES) a.now) }
{
    let mut count = 0;
    for i in 0..whole {
        count += count_lanes(a, i * LANES);
    }
    count
}

/// How many of the 32 bytes from an index on aren't 0.
#[inline(always)]
fn count_lanes(a: &[u8], at: usize) -> usize
    requires { at + LANES ≤ length a.now }
    ensures { result ≡ count_by (λ x. not (x == 0)) (chunk at LANES a.now) }
{
    let some = u8x32::from_slice(&a[at..]).simd_ne(u8x32::splat(0));
    some.to_bitmask().count_ones() as usize
}

/// How many bytes aren't 0, counted one at a time.
fn count_one_by_one(a: &[u8]) -> usize
    ensures { result ≡ count_by (λ x. not (x == 0)) a.now }
{
    a.iter().filter(|x| **x != 0).count()
}

/// Which of the 64 bytes from an index on aren't 0, as bits.
#[inline(always)]
pub(crate) fn nonzero_bits(a: &[u8], at: usize) -> u64
    requires { at + 64 ≤ length a.now }
    ensures { (k : ℕ) → k < 64 → bit_at result k ≡ min 1 (slice_index a.now (at + k)) }
{
    nonzero_lanes(a, at + LANES) * (1 << LANES) + nonzero_lanes(a, at)
}

/// Which of the 32 bytes from an index on aren't 0, as bits.
#[inline(always)]
fn nonzero_lanes(a: &[u8], at: usize) -> u64
    requires { at + LANES ≤ length a.now }
    ensures bits { (k : ℕ) → k < LANES → bit_at result k ≡ min 1 (slice_index a.now (at + k)) }
    ensures small { result < 2 ^ LANES }
{
    let some = u8x32::from_slice(&a[at..]).simd_ne(u8x32::splat(0));
    some.to_bitmask()
}

/// Puts the bits of a number into the 64 bytes from an index on.
#[inline(always)]
pub(crate) fn put_bits(a: &mut [u8], at: usize, bits: u64)
    requires { at + 64 ≤ length a.old }
    ensures here { (k : ℕ) → k < 64 → slice_index a.new (at + k) ≡ bit_at bits k }
    ensures below { (k : ℕ) → k < at → slice_index a.new k ≡ slice_index a.old k }
    ensures above { (k : ℕ) → at + 64 ≤ k → slice_index a.new k ≡ slice_index a.old k }
    ensures length { length a.new ≡ length a.old }
{
    spread(&mut a[at..at + 64], bits);
}

/// Writes the bits of a number to 64 bytes.
#[inline(always)]
fn spread(a: &mut [u8], bits: u64)
    requires { length a.old ≡ 64 }
    ensures bits { (k : ℕ) → k < 64 → slice_index a.new k ≡ bit_at bits k }
    ensures length { length a.new ≡ 64 }
{
    for place in 0..64usize {
        a[place] = ((bits >> place) & 1) as u8;
    }
}
