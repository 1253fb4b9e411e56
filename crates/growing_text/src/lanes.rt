//! Copies short texts, by lanes that may overlap.
ghost use Rattle.std.specs.Prelude.{◌≡◌, ◌+◌, ◌≤◌, ◌<◌, [], ◌∷◌, ◌++◌, false, length, take, IsTrue};

use std::simd::prelude::*;

// Copies the text into spare bytes of the same length. A text of 4 to 64 bytes is copied by lanes.
#[inline(always)]
pub(crate) fn copy_text(dest: &mut [u8], text: &[u8])
    requires same { length dest.old ≡ length text.now }
    ensures value { dest.new ≡ text.now }
{
    match text.len() {
        0..=7 => copy_short(dest, text),
        8..=16 => by_lanes::<8>(dest, text),
        17..=32 => by_lanes::<16>(dest, text),
        33..=64 => by_lanes::<32>(dest, text),
        _ => dest.copy_from_slice(text),
    }
}

// Copies a text of up to 32 bytes to the front of spare bytes.
#[inline(always)]
pub(crate) fn put(spare: &mut [u8], text: &[u8])
    requires fits { length text.now ≤ length spare.old }
    requires most { length text.now ≤ 32 }
    ensures value { take (length text.now) spare.new ≡ text.now }
{
    let n = text.len();
    copy_few(&mut spare[..n], text);
}

// Copies a word and a text of up to 32 bytes to the front of spare bytes, one after the other.
#[inline(always)]
pub(crate) fn put_behind(spare: &mut [u8], word: &[u8], text: &[u8])
    requires fits { length word.now + length text.now ≤ length spare.old }
    requires most { length text.now ≤ 32 }
    ensures value { take (length word.now + length text.now) spare.new ≡ word.now ++ text.now }
{
    let (front, rest) = spare.split_at_mut(word.len());
    copy_text(front, word);
    put(rest, text);
}

// Copies a text, a word and a text to the front of spare bytes, one after the other. Each text has up to 32 bytes.
#[inline(always)]
pub(crate) fn put_joined(spare: &mut [u8], first: &[u8], word: &[u8], second: &[u8])
    requires fits { length first.now + (length word.now + length second.now) ≤ length spare.old }
    requires first { length first.now ≤ 32 }
    requires second { length second.now ≤ 32 }
    ensures value { take (length first.now + (length word.now + length second.now)) spare.new
        ≡ first.now ++ (word.now ++ second.now) }
{
    let (front, rest) = spare.split_at_mut(first.len());
    copy_few(front, first);
    put_behind(rest, word, second);
}

// Copies a text of up to 32 bytes.
#[inline(always)]
fn copy_few(dest: &mut [u8], text: &[u8])
    requires same { length dest.old ≡ length text.now }
    requires most { length text.now ≤ 32 }
    ensures value { dest.new ≡ text.now }
{
    let n = text.len();
    if n < 8 {
        return copy_fewer(dest, text);
    }
    if n < 16 {
        return by_lanes::<8>(dest, text);
    }
    by_lanes::<16>(dest, text)
}

// Copies a text of up to 7 bytes, by lanes if it has two.
#[inline(always)]
fn copy_fewer(dest: &mut [u8], text: &[u8])
    requires same { length dest.old ≡ length text.now }
    requires most { length text.now < 8 }
    ensures value { dest.new ≡ text.now }
{
    let n = text.len();
    if 4 <= n {
        return by_lanes::<4>(dest, text);
    }
    if 2 <= n {
        return by_lanes::<2>(dest, text);
    }
    if 0 < n {
        dest[0] = text[0];
    }
}

// Copies the first N bytes and the last N bytes, which may overlap.
#[inline(always)]
fn by_lanes<const N: usize>(dest: &mut [u8], text: &[u8])
    requires same { length dest.old ≡ length text.now }
    requires least { N ≤ length text.now }
    requires most { length text.now ≤ N + N }
    ensures value { dest.new ≡ text.now }
{
    let last = text.len() - N;
    let head = Simd::<u8, N>::from_slice(text);
    head.copy_to_slice(dest);
    let tail = Simd::<u8, N>::from_slice(&text[last..]);
    tail.copy_to_slice(&mut dest[last..]);
}

// Copies a text of up to 7 bytes.
#[inline(always)]
fn copy_short(dest: &mut [u8], text: &[u8])
    requires same { length dest.old ≡ length text.now }
    requires most { length text.now < 8 }
    ensures value { dest.new ≡ text.now }
{
    let n = text.len();
    if 4 <= n {
        return by_lanes::<4>(dest, text);
    }
    if 0 < n {
        dest[0] = text[0];
    }
    if 1 < n {
        dest[1] = text[1];
    }
    if 2 < n {
        dest[2] = text[2];
    }
}
