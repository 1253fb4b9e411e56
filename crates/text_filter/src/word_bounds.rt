//! Finds where words begin and end.
ghost use Rattle.std.specs.Prelude.{◌≡◌, ◌+◌, ◌<◌, ◌≤◌, false, length, take, drop, slice_index, All, IfSome, IfNone};
ghost use Rattle.text_filter.specs.Replaced as spec;
ghost use Rattle.text_filter.specs.Replaced.{IsWordByte, ends_word};
ghost use Rattle.text_filter.specs.Progress.{AreWordBytes, IsBoundary};

use std::simd::prelude::*;

/// The number of bytes that are tested at once.
const LANES: usize = 16;

/// Indexed by the high four bits of a byte. The value is the bit of a class of word bytes, or 0 if no word byte has
/// these bits. The bits are 1 for `$` and `.`, 2 for the digits, 4 for `A` to `O` and `a` to `o`, 8 for `P` to `Z` and
/// `_`, 16 for `p` to `z`.
const BY_HIGH_NIBBLE: [u8; 16] = [0, 0, 1, 2, 4, 8, 4, 16, 0, 0, 0, 0, 0, 0, 0, 0];

/// Indexed by the low four bits of a byte. The value has the bits of all classes that have a byte with these bits. A
/// byte is a word byte if its values in both tables have a bit in common.
const BY_LOW_NIBBLE: [u8; 16] = [26, 30, 30, 30, 31, 30, 30, 30, 30, 30, 28, 4, 4, 4, 5, 12];

/// Returns whether the byte is a word byte: an ASCII letter, a digit, `_`, `$` or `.`.
#[inline(always)]
pub(crate) fn is_word_byte(byte: u8) -> bool
    ensures value { result ≡ spec.is_word_byte byte }
{
    matches!(byte, b'A'..=b'Z' | b'a'..=b'z' | b'0'..=b'9' | b'_' | b'$' | b'.')
}

/// Returns the start of the run of word bytes that ends at `place`. The search goes back to `low` at most.
#[inline(always)]
pub(crate) fn word_start(text: &[u8], low: usize, place: usize) -> usize
    requires ordered { low ≤ place }
    requires inside { place ≤ length text.now }
    requires boundary { IsBoundary text.now low }
    ensures low { low ≤ result }
    ensures high { result ≤ place }
    ensures word { AreWordBytes text.now result place }
    ensures boundary { IsBoundary text.now result }
{
    let mut start = place;
    while start > low && is_word_byte(text[start - 1]) {
        start -= 1;
    }
    start
}

/// Returns the place of the first byte from `at` on that is no word byte, if it is among the 16 bytes there, and
/// `None` otherwise.
#[inline(always)]
fn word_end_among(text: &[u8], at: usize) -> Option<usize>
    requires inside { at + 16 ≤ length text.now }
    ensures low { IfSome result (λ end. at ≤ end) }
    ensures high { IfSome result (λ end. end < at + 16) }
    ensures word { IfSome result (λ end. AreWordBytes text.now at end) }
    ensures ended { IfSome result (λ end. spec.is_word_byte (slice_index text.now end) ≡ false) }
    ensures none { IfNone result (AreWordBytes text.now at (at + 16)) }
{
    let bytes = u8x16::from_slice(&text[at..]);
    let low = u8x16::from_array(BY_LOW_NIBBLE).swizzle_dyn(bytes & u8x16::splat(15));
    let high = u8x16::from_array(BY_HIGH_NIBBLE).swizzle_dyn(bytes >> u8x16::splat(4));
    let others = (low & high).simd_eq(u8x16::splat(0)).to_bitmask();
    if others == 0 {
        return None;
    }
    Some(at + others.trailing_zeros() as usize)
}

/// Returns the place of the first byte from `place` on that is no word byte, or the length of the text if there is
/// none. Searches byte by byte.
#[inline(always)]
fn word_end_from(text: &[u8], place: usize) -> usize
    requires inside { place ≤ length text.now }
    ensures low { place ≤ result }
    ensures high { result ≤ length text.now }
    ensures word { AreWordBytes text.now place result }
    ensures ended { spec.is_word_byte (slice_index text.now result) ≡ false }
{
    for end in place..text.len() {
        if !is_word_byte(text[end]) {
            return end;
        }
    }
    text.len()
}

/// Returns the place of the first byte from `place` on that is no word byte, or the length of the text if there is
/// none.
#[inline(always)]
pub(crate) fn word_end(text: &[u8], place: usize) -> usize
    requires inside { place ≤ length text.now }
    ensures low { place ≤ result }
    ensures high { result ≤ length text.now }
    ensures word { AreWordBytes text.now place result }
    ensures ended { spec.is_word_byte (slice_index text.now result) ≡ false }
{
    let mut at = place;
    if text.len() >= LANES {
        let last = text.len() - LANES;
        while at <= last {
            if let Some(end) = word_end_among(text, at) {
                return end;
            }
            at += LANES;
        }
    }
    word_end_from(text, at)
}

/// Returns the length in bytes up to the last byte that is no word byte, that byte included. The first `kept` bytes
/// are all word bytes.
pub(crate) fn whole_words_len(bytes: &[u8], kept: usize) -> usize
    requires inside { kept ≤ length bytes.now }
    requires before { All IsWordByte (take kept bytes.now) }
    ensures bound { result ≤ length bytes.now }
    ensures whole { ends_word (take result bytes.now) ≡ false }
    ensures word { All IsWordByte (drop result bytes.now) }
{
    for place in (kept..bytes.len()).rev() {
        if !is_word_byte(bytes[place]) {
            return place + 1;
        }
    }
    0
}
