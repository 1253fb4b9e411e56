//! Digits, and the numbers and indices that are written with them (Itanium C++ ABI 5.1.2).
ghost use Rattle.std.specs.Prelude.{◌≡◌, ◌<◌, ◌≤◌, IfSome, option_map, length, drop};
ghost use Rattle.abi_scalars.specs.Scalars as spec;
ghost use Rattle.abi_scalars.specs.Indices as index_spec;

/// The base in which a numeral is written.
#[derive(Clone, Copy)]
pub enum Radix {
    Decimal,
    Base36,
}

/// Returns the value of a byte as a digit, or `None` if it is no digit of this base.
#[inline(always)]
fn digit(radix: Radix, byte: u8) -> Option<u64>
    ensures value { result ≡ spec.digit_of radix byte }
{
    match (radix, byte) {
        (_, b'0'..=b'9') => Some((byte - b'0') as u64),
        (Radix::Base36, b'A'..=b'Z') => Some((byte - b'A') as u64 + 10),
        _ => None,
    }
}

/// Returns the number of digits of this base.
fn base(radix: Radix) -> u64
    ensures value { result ≡ spec.base radix }
{
    match radix {
        Radix::Decimal => 10,
        Radix::Base36 => 36,
    }
}

/// Returns how many of the first bytes are digits.
#[tactic(auto, unfolding(crate::specs::Scalars::front_digits))]
#[cold]
#[inline(never)]
pub(crate) fn digits_len(radix: Radix, bytes: &[u8]) -> usize
    ensures value { result ≡ length (spec.front_digits radix bytes.now) }
    ensures within { result ≤ length bytes.now }
{
    for place in 0..bytes.len() {
        if digit(radix, bytes[place]).is_none() {
            return place;
        }
    }
    bytes.len()
}

/// Returns the number that the first digits write. Returns `None` if the first byte is no digit, or the number is past
/// 2^64 - 1.
#[cold]
#[inline(never)]
fn digits_value(radix: Radix, bytes: &[u8]) -> Option<u64>
    ensures value { result ≡ option_map (λ found. found.0) (spec.numeral radix bytes.now) }
{
    let [first, rest @ ..] = bytes else {
        return None;
    };
    let base = base(radix);
    let mut value = digit(radix, *first)?;
    for byte in rest {
        let Some(worth) = digit(radix, *byte) else {
            break;
        };
        value = value.checked_mul(base)?.checked_add(worth)?;
    }
    Some(value)
}

/// Returns the number that the first digits write, and how many digits there are, in bytes. Returns `None` if the
/// first byte is no digit, or the number is past 2^64 - 1.
#[inline(always)]
pub fn numeral(radix: Radix, bytes: &[u8]) -> Option<(u64, usize)>
    ensures value { option_map (λ found. (found.0, drop found.1 bytes.now)) result ≡ spec.numeral radix bytes.now }
    ensures taken { IfSome result (λ found. 0 < found.1) }
    ensures within { IfSome result (λ found. found.1 ≤ length bytes.now) }
{
    let value = digits_value(radix, bytes)?;
    Some((value, digits_len(radix, bytes)))
}

/// Returns the number that the first decimal digits write, and how many digits there are, in bytes. Returns `None` if
/// the first byte is no digit, or the number is past 2^64 - 1. A number of one or two digits, as most lengths are, is
/// read here without a loop.
#[tactic(auto, unfolding(crate::specs::Scalars::front_digits, crate::specs::Scalars::weighted))]
#[inline(always)]
pub fn short_numeral(bytes: &[u8]) -> Option<(u64, usize)>
    ensures value { option_map (λ found. (found.0, drop found.1 bytes.now)) result
        ≡ spec.numeral Radix.Decimal bytes.now }
    ensures taken { IfSome result (λ found. 0 < found.1) }
    ensures within { IfSome result (λ found. found.1 ≤ length bytes.now) }
{
    if let [first, second, third, ..] = bytes {
        let value = digit(Radix::Decimal, *first)?;
        let Some(ones) = digit(Radix::Decimal, *second) else {
            return Some((value, 1));
        };
        if !matches!(*third, b'0'..=b'9') {
            return Some((value * 10 + ones, 2));
        }
    }
    numeral(Radix::Decimal, bytes)
}

/// Reads `[<numeral>] _`: in base 36 the index of a component, after its `S`, and in base 10 that of a template
/// parameter, after its `T`. Returns an index and the bytes after the `_`. The index is 0 if the numeral is left out,
/// and otherwise the numeral plus 1. Returns `None` if no `_` follows, or the index is past 2^64 - 1. (Itanium C++ ABI
/// 5.1.5 and 5.1.10)
#[tactic(auto, unfolding(
// The index, and the digits that write it.
crate::specs::Scalars::index_of, crate::specs::Scalars::front_digits, crate::specs::Scalars::weighted))]
#[inline(always)]
pub fn index_of(radix: Radix, bytes: &[u8]) -> Option<(usize, &[u8])>
    ensures value { option_map (λ found. (found.0, found.1.now)) result ≡ spec.index_of radix bytes.now }
    ensures shorter { IfSome result (λ found. length found.1.now < length bytes.now) }
{
    match bytes {
        [b'_', rest @ ..] => Some((0, rest)),
        [byte, b'_', rest @ ..] => Some((digit(radix, *byte)? as usize + 1, rest)),
        _ => {
            let (value, count) = numeral(radix, bytes)?;
            match &bytes[count..] {
                [b'_', rest @ ..] if value < u64::MAX => Some((value as usize + 1, rest)),
                _ => None,
            }
        }
    }
}

/// Reads the `<number> _` of a `<template-param> ::= TL <number> _ [<number>] _`. Returns the level of the parameter,
/// which is the number plus 1, and the bytes after the `_`. Returns `None` if no digit is next, if no `_` follows, or
/// if the level is past 2^64 - 1. (Itanium C++ ABI 5.1.5)
#[tactic(auto, unfolding(
// The level, and the digits that write it.
crate::specs::Indices::level_of, crate::specs::Scalars::index_of, crate::specs::Scalars::front_digits))]
pub fn level_of(bytes: &[u8]) -> Option<(usize, &[u8])>
    ensures value { option_map (λ found. (found.0, found.1.now)) result ≡ index_spec.level_of bytes.now }
    ensures shorter { IfSome result (λ found. length found.1.now < length bytes.now) }
{
    match bytes {
        [b'_', ..] => None,
        _ => index_of(Radix::Decimal, bytes),
    }
}
