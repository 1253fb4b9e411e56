//! Tests whether bytes are UTF-8. Most symbols and results are ASCII, so ASCII is tested first, several bytes at once.
ghost use Rattle.std.specs.Prelude.{◌≡◌, ◌<◌, ◌+◌, ◌≤◌, length, true, false};
ghost use Rattle.std.specs.Str.{IsUtf8};
ghost use Rattle.abi_scalars.specs.Ascii.{AreAscii};

use std::simd::prelude::*;
use std::str::from_utf8;

/// The most bytes that are compared at once.
const LANES: usize = 32;

/// The greatest ASCII byte.
const LAST_ASCII: u8 = 127;

/// Returns whether any of the N bytes from `at` on isn't ASCII.
#[inline(always)]
fn has_non_ascii<const N: usize>(bytes: &[u8], at: usize) -> bool
    requires lanes { N ≤ 64 }
    requires within { at + N ≤ length bytes.now }
    ensures none { result ≡ false → AreAscii bytes.now at (at + N) }
{
    let found = Simd::<u8, N>::from_slice(&bytes[at..])
        .simd_gt(Simd::splat(LAST_ASCII))
        .to_bitmask();
    found != 0
}

/// Returns whether all bytes are ASCII. There must be N to 2N bytes, so two windows of N bytes cover them: one begins
/// with the bytes, and one ends with them. `|` tests both windows without a branch between them.
#[inline(always)]
fn is_ascii_by_two<const N: usize>(bytes: &[u8]) -> bool
    requires lanes { N ≤ 64 }
    requires least { N ≤ length bytes.now }
    requires most { length bytes.now ≤ N + N }
    ensures all { result ≡ true → AreAscii bytes.now 0 (length bytes.now) }
{
    !(has_non_ascii::<N>(bytes, 0) | has_non_ascii::<N>(bytes, bytes.len() - N))
}

/// Returns `true` only if all bytes are ASCII. `false` doesn't mean that a byte isn't ASCII: fewer than 8 bytes aren't
/// tested, and the result is `false`.
#[inline(always)]
fn is_known_ascii(bytes: &[u8]) -> bool
    ensures all { result ≡ true → AreAscii bytes.now 0 (length bytes.now) }
{
    let n = bytes.len();
    if n > 2 * LANES {
        return is_long_ascii(bytes);
    }
    if n >= LANES {
        return is_ascii_by_two::<LANES>(bytes);
    }
    if n >= 16 {
        return is_ascii_by_two::<16>(bytes);
    }
    n >= 8 && is_ascii_by_two::<8>(bytes)
}

/// Returns whether all bytes are ASCII, of which there must be more than 64. Tests two windows of 32 bytes at a time.
/// The last two windows end with the bytes.
#[inline(always)]
fn is_long_ascii(bytes: &[u8]) -> bool
    requires long { 64 < length bytes.now }
    ensures all { result ≡ true → AreAscii bytes.now 0 (length bytes.now) }
{
    let last = bytes.len() - 2 * LANES;
    let mut at = 0;
    while at < last {
        if has_non_ascii::<LANES>(bytes, at) | has_non_ascii::<LANES>(bytes, at + LANES) {
            return false;
        }
        at += 2 * LANES;
    }
    !(has_non_ascii::<LANES>(bytes, last) | has_non_ascii::<LANES>(bytes, last + LANES))
}

/// Returns whether the bytes are UTF-8, as the bytes of a symbol must be.
pub fn is_utf8(bytes: &[u8]) -> bool
    ensures yes { result ≡ true → IsUtf8 bytes.now }
    ensures no { result ≡ false → ¬ (IsUtf8 bytes.now) }
{
    is_known_ascii(bytes) || from_utf8(bytes).is_ok()
}
