//! Digits, numbers and identifiers as they are written (Itanium C++ ABI 5.1.2).
ghost use Rattle.std.specs.Prelude.{◌≡◌, ◌<◌, ◌≤◌, IfSome, option_map, length, true, MatchOption, [], ◌∷◌, drop};
ghost use Rattle.abi_scalars.specs.Texts as spec;
ghost use Rattle.abi_scalars.specs.Scalars as scalar_spec;

use crate::numerals::{Radix, digits_len};
use crate::scalar::source_name;

/// Reads all digits of this base that are next: `<digits>`, and in base 36 those of a `<seq-id>` whose value isn't
/// needed. Returns them, which may be none, and the bytes after them. (Itanium C++ ABI 5.1.2, "General Structure")
#[tactic(auto, unfolding(crate::specs::Texts::digits))]
pub fn digits(radix: Radix, bytes: &[u8]) -> (&[u8], &[u8])
    ensures value { (result.0.now, result.1.now) ≡ spec.digits radix bytes.now }
    ensures within { length result.1.now ≤ length bytes.now }
{
    let len = digits_len(radix, bytes);
    (&bytes[..len], &bytes[len..])
}

/// Reads `<number> ::= [n] <digit>+`, with as many digits as are next. Returns the number as it is written, with its
/// `n`, and the bytes after it. Returns `None` if no digit is next, or none after an `n`. (Itanium C++ ABI 5.1.2,
/// "General Structure")
#[tactic(auto, unfolding(crate::specs::Texts::number_text))]
pub fn number_text(bytes: &[u8]) -> Option<(&[u8], &[u8])>
    ensures value { option_map (λ found. (found.0.now, found.1.now)) result ≡ spec.number_text bytes.now }
    ensures shorter { IfSome result (λ found. length found.1.now < length bytes.now) }
{
    let sign_len = match bytes {
        [b'n', ..] => 1,
        _ => 0,
    };
    let count = digits_len(Radix::Decimal, &bytes[sign_len..]);
    if count == 0 {
        return None;
    }
    let len = sign_len + count;
    Some((&bytes[..len], &bytes[len..]))
}

/// Reads `[<number>]`. Returns the number as it is written, with its `n`, and the bytes after it. Returns no text, and
/// all bytes, if neither a digit nor an `n` is next. Returns `None` if an `n` is next that no digit follows. (Itanium
/// C++ ABI 5.1.2, "General Structure")
#[tactic(auto, unfolding(crate::specs::Texts::optional_number_text))]
pub fn optional_number_text(bytes: &[u8]) -> Option<(&[u8], &[u8])>
    ensures value { option_map (λ found. (found.0.now, found.1.now)) result ≡ spec.optional_number_text bytes.now }
    ensures within { IfSome result (λ found. length found.1.now ≤ length bytes.now) }
{
    match bytes {
        [b'n' | b'0'..=b'9', ..] => number_text(bytes),
        _ => Some((&[], bytes)),
    }
}

/// Returns whether a `<source-name>` is next, that is a digit from `1` to `9`.
#[inline(always)]
pub fn begins_source(bytes: &[u8]) -> bool
    ensures value { result ≡ spec.begins_source bytes.now }
{
    matches!(bytes, [b'1'..=b'9', ..])
}

/// Reads `<identifier>`, with the length in front of it that a `<source-name>` has. Returns the identifier, which has
/// one byte at least, and the bytes after it. Returns `None` if no length is next, if it begins with `0` or is past
/// 2^64 - 1, or if fewer bytes follow it. (Itanium C++ ABI 5.1.2, "General Structure")
/// An identifier after a length of one or two digits, as most are, is read here without a loop.
#[tactic(auto, using(crate::proofs::Identifiers::identifiers), unfolding(crate::specs::Texts::identifier))]
#[inline(always)]
pub fn identifier(bytes: &[u8]) -> Option<(&[u8], &[u8])>
    ensures value { option_map (λ found. (found.0.now, found.1.now)) result ≡ spec.identifier bytes.now }
    ensures some { IfSome result (λ found. 0 < length found.0.now) }
    ensures shorter { IfSome result (λ found. length found.1.now < length bytes.now) }
{
    if !begins_source(bytes) {
        return None;
    }
    let (first, rest) = next_digit(bytes)?;
    let Some((second, after)) = next_digit(rest) else {
        return front(rest, first);
    };
    if next_digit(after).is_some() {
        return long_identifier(bytes);
    }
    front(after, first * 10 + second)
}

/// Reads an `<identifier>` with its length, which doesn't begin with `0`.
#[tactic(auto, unfolding(crate::specs::Texts::identifier))]
#[cold]
#[inline(never)]
fn long_identifier(bytes: &[u8]) -> Option<(&[u8], &[u8])>
    requires begins { spec.begins_source bytes.now ≡ true }
    ensures value { option_map (λ found. (found.0.now, found.1.now)) result ≡ spec.identifier bytes.now }
    ensures some { IfSome result (λ found. 0 < length found.0.now) }
    ensures shorter { IfSome result (λ found. length found.1.now < length bytes.now) }
{
    let (from, to) = source_name(bytes, 0)?;
    Some((&bytes[from..to], &bytes[to..]))
}

/// Returns the value of the decimal digit that is next, and the bytes after it. Returns `None` if no digit is next.
#[tactic(auto, unfolding(crate::specs::Scalars::front_digits))]
#[inline(always)]
fn next_digit(bytes: &[u8]) -> Option<(usize, &[u8])>
    ensures digits { MatchOption result (scalar_spec.front_digits Radix.Decimal bytes.now ≡ [])
        (λ found. scalar_spec.front_digits Radix.Decimal bytes.now
        ≡ found.0 ∷ scalar_spec.front_digits Radix.Decimal found.1.now) }
    ensures small { IfSome result (λ found. found.0 < 10) }
    ensures rest { IfSome result (λ found. found.1.now ≡ drop 1 bytes.now) }
    ensures shorter { IfSome result (λ found. length found.1.now < length bytes.now) }
{
    match bytes {
        [byte @ b'0'..=b'9', rest @ ..] => Some(((*byte - b'0') as usize, rest)),
        _ => None,
    }
}

/// Returns the first n bytes and those after them, or `None` if there are fewer.
#[inline(always)]
fn front(bytes: &[u8], n: usize) -> Option<(&[u8], &[u8])>
    ensures value { option_map (λ found. (found.0.now, found.1.now)) result ≡ spec.front n bytes.now }
    ensures long { IfSome result (λ found. length found.0.now ≡ n) }
{
    if n > bytes.len() {
        return None;
    }
    Some(bytes.split_at(n))
}

/// Returns the text of a source name: `(anonymous namespace)` for a name that begins with `_GLOBAL__N`, and otherwise
/// the name itself.
pub fn source_text(name: &[u8]) -> &[u8]
    ensures text { result.now ≡ scalar_spec.source_text name.now }
{
    match name {
        [
            b'_',
            b'G',
            b'L',
            b'O',
            b'B',
            b'A',
            b'L',
            b'_',
            b'_',
            b'N',
            ..
        ] => b"(anonymous namespace)",
        _ => name,
    }
}
