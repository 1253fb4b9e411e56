//! Readers of numbers and source names at a place of the input (Itanium C++ ABI 5.1.2).
ghost use Rattle.std.specs.Prelude.{◌≡◌, ◌<◌, ◌≤◌, IfSome, option_map, length, drop, slice_range};
ghost use Rattle.abi_scalars.specs.Scalars as spec;
ghost use Rattle.abi_scalars.specs.Indices as index_spec;

use crate::numerals::{Radix, numeral, short_numeral};

/// Reads `<number>` without a sign: all decimal digits from `place` on, at least one. Returns the value and the place
/// after the digits, in bytes. Returns `None` if no digit is at `place`, or the value is past 2^64 - 1. (Itanium C++
/// ABI 5.1.2, "General Structure")
#[inline(always)]
#[tactic(auto, using(crate::proofs::Digits::dropped), unfolding(crate::specs::Scalars::number))]
pub fn number(input: &[u8], place: usize) -> Option<(u64, usize)>
    requires place { place ≤ length input.now }
    ensures value { option_map (λ found. (found.0, drop found.1 input.now)) result
        ≡ spec.number (drop place input.now) }
    ensures after { IfSome result (λ found. place < found.1) }
    ensures within { IfSome result (λ found. found.1 ≤ length input.now) }
{
    let (value, count) = short_numeral(&input[place..])?;
    Some((value, place + count))
}

/// Reads `<seq-id>`: all digits in base 36, `0` to `9` and `A` to `Z`, from `place` on, at least one. Returns the
/// value and the place after the digits, in bytes. Returns `None` if no digit is at `place`, or the value is past
/// 2^64 - 1. (Itanium C++ ABI 5.1.10, "Compression")
#[tactic(auto, using(crate::proofs::Digits::dropped), unfolding(crate::specs::Indices::sequence_id))]
pub fn sequence_id(input: &[u8], place: usize) -> Option<(u64, usize)>
    requires place { place ≤ length input.now }
    ensures value { option_map (λ found. (found.0, drop found.1 input.now)) result
        ≡ index_spec.sequence_id (drop place input.now) }
    ensures after { IfSome result (λ found. place < found.1) }
    ensures within { IfSome result (λ found. found.1 ≤ length input.now) }
{
    let (value, count) = numeral(Radix::Base36, &input[place..])?;
    Some((value, place + count))
}

/// Reads `<source-name> ::= <positive length number> <identifier>`. Returns the place of the identifier's first byte
/// and the place after its last, in bytes. Returns `None` if no number is at `place`, if it is 0 or past 2^64 - 1, or
/// if fewer bytes follow it. (Itanium C++ ABI 5.1.2, "General Structure")
#[inline(always)]
#[tactic(auto, using(crate::proofs::Digits::dropped), unfolding(crate::specs::Scalars::source_name))]
pub fn source_name(input: &[u8], place: usize) -> Option<(usize, usize)>
    requires place { place ≤ length input.now }
    ensures value { option_map (λ found. (slice_range input.now found.0 found.1, drop found.1 input.now)) result
        ≡ spec.source_name (drop place input.now) }
    ensures after { IfSome result (λ found. place < found.0) }
    ensures ordered { IfSome result (λ found. found.0 < found.1) }
    ensures within { IfSome result (λ found. found.1 ≤ length input.now) }
{
    let (len, first) = number(input, place)?;
    if len == 0 || (len as usize) > input.len() - first {
        return None;
    }
    Some((first, first + len as usize))
}
