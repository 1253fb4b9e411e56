//! Call offsets of thunks, and the offset of a construction vtable (Itanium C++ ABI 5.1.4, "Other Special Functions
//! and Entities").
ghost use Rattle.std.specs.Prelude.{◌≡◌, ◌<◌, ◌≤◌, IfSome, option_map, length};
ghost use Rattle.itanium_syntax.specs.Offsets as spec;

use abi_scalars::numerals::{Radix, numeral};

/// A number with a sign. Zero is never negative.
#[derive(Clone, Copy, Debug, PartialEq, Eq)]
pub struct Signed {
    /// Whether the number is below zero.
    pub negative: bool,
    /// The number without its sign.
    pub magnitude: u64,
}

/// The cases of `<call-offset>`.
#[derive(Clone, Copy, Debug, PartialEq, Eq)]
pub enum CallOffset {
    /// `h <number> _`: how far a pointer is moved.
    Plain(Signed),
    /// `v <number> _ <number> _`: how far a pointer is moved, and where in the virtual table a further offset is.
    Virtual(Signed, Signed),
}

/// The offsets of a thunk.
#[derive(Clone, Copy)]
pub enum ThunkOffsets {
    /// `T <call-offset>`
    Single(CallOffset),
    /// `T c <call-offset> <call-offset>`: the offset of `this`, and that of the return value.
    Covariant(CallOffset, CallOffset),
}

/// Reads `[n] <nonnegative number> _`. Returns the number, which `n` makes negative, and the bytes after the `_`.
/// Returns `None` if the bytes don't begin so, or the number is past 2^64 - 1.
fn signed_part(bytes: &[u8]) -> Option<(Signed, &[u8])>
    ensures value { option_map (λ found. (found.0, found.1.now)) result ≡ spec.signed_part bytes.now }
    ensures shorter { IfSome result (λ found. length found.1.now < length bytes.now) }
{
    let (minus, digits) = match bytes {
        [b'n', rest @ ..] => (true, rest),
        _ => (false, bytes),
    };
    let (magnitude, count) = numeral(Radix::Decimal, digits)?;
    let number = Signed {
        negative: minus && magnitude != 0,
        magnitude,
    };
    match &digits[count..] {
        [b'_', rest @ ..] => Some((number, rest)),
        _ => None,
    }
}

/// Reads `<call-offset> ::= h <number> _ | v <number> _ <number> _`. Returns the offset and the bytes after it.
/// Returns `None` if the bytes don't begin so, or a number is past 2^64 - 1.
pub fn offset_here(bytes: &[u8]) -> Option<(CallOffset, &[u8])>
    ensures value { option_map (λ found. (found.0, found.1.now)) result ≡ spec.call_offset bytes.now }
    ensures shorter { IfSome result (λ found. length found.1.now < length bytes.now) }
{
    match bytes {
        [b'h', rest @ ..] => {
            let (number, rest) = signed_part(rest)?;
            Some((CallOffset::Plain(number), rest))
        }
        [b'v', rest @ ..] => {
            let (first, rest) = signed_part(rest)?;
            let (second, rest) = signed_part(rest)?;
            Some((CallOffset::Virtual(first, second), rest))
        }
        _ => None,
    }
}

/// Reads the offsets of a thunk, after its `T`: `<call-offset>` or `c <call-offset> <call-offset>`. Returns them and
/// the bytes after them. Returns `None` if the bytes don't begin so, or a number is past 2^64 - 1.
#[tactic(auto, unfolding(crate::specs::Offsets::thunk_offsets))]
pub fn thunk_offsets(bytes: &[u8]) -> Option<(ThunkOffsets, &[u8])>
    ensures value { option_map (λ found. (found.0, found.1.now)) result ≡ spec.thunk_offsets bytes.now }
    ensures within { IfSome result (λ found. length found.1.now ≤ length bytes.now) }
{
    match bytes {
        [b'c', rest @ ..] => {
            let (first, rest) = offset_here(rest)?;
            let (second, rest) = offset_here(rest)?;
            Some((ThunkOffsets::Covariant(first, second), rest))
        }
        _ => {
            let (offset, rest) = offset_here(bytes)?;
            Some((ThunkOffsets::Single(offset), rest))
        }
    }
}

/// Reads the `<offset number> _` of a construction vtable, and returns the bytes after it. Returns `None` if the bytes
/// don't begin so, or the number is past 2^64 - 1 on either side of 0.
#[tactic(auto, unfolding(crate::specs::Offsets::past_base_offset))]
pub fn past_base_offset(bytes: &[u8]) -> Option<&[u8]>
    ensures value { option_map (λ rest. rest.now) result ≡ spec.past_base_offset bytes.now }
    ensures shorter { IfSome result (λ rest. length rest.now < length bytes.now) }
{
    let (_, rest) = signed_part(bytes)?;
    Some(rest)
}
