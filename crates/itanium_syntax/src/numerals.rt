//! The dimension of an array, and ordinals (Itanium C++ ABI 5.1.2). `abi_scalars` has the numbers that names and
//! declarations read alike.
ghost use Rattle.std.specs.Prelude.{◌≡◌, ◌<◌, IfSome, option_map, length};
ghost use Rattle.itanium_syntax.specs.Numbers as spec;

pub use abi_scalars::numerals::{Radix, index_of, numeral, short_numeral};

/// Reads `[<number>] _`, the dimension of an array. Returns the number, if there is one, and the bytes after the `_`.
/// Returns `None` if no `_` follows, or the number is past 2^64 - 1.
#[tactic(auto, unfolding(crate::specs::Numbers::optional_number, abi_scalars::specs::Scalars::number))]
pub fn optional_number(bytes: &[u8]) -> Option<(Option<u64>, &[u8])>
    ensures value { option_map (λ found. (found.0, found.1.now)) result ≡ spec.optional_number bytes.now }
    ensures shorter { IfSome result (λ found. length found.1.now < length bytes.now) }
{
    if let [b'_', rest @ ..] = bytes {
        return Some((None, rest));
    }
    let (value, count) = numeral(Radix::Decimal, bytes)?;
    match &bytes[count..] {
        [b'_', rest @ ..] => Some((Some(value), rest)),
        _ => None,
    }
}

/// Reads the `[<nonnegative number>] _` of an `<unnamed-type-name>`, a `<closure-type-name>` or a default argument.
/// Returns an ordinal and the bytes after the `_`. The ordinal is 1 if the number is left out, and otherwise the
/// number plus 2. Returns `None` if no `_` follows, or the ordinal is past 2^64 - 1.
#[tactic(auto, unfolding(crate::specs::Numbers::ordinal))]
pub fn ordinal(bytes: &[u8]) -> Option<(u64, &[u8])>
    ensures value { option_map (λ found. (found.0, found.1.now)) result ≡ spec.ordinal bytes.now }
    ensures shorter { IfSome result (λ found. length found.1.now < length bytes.now) }
{
    let (number, rest) = index_of(Radix::Decimal, bytes)?;
    if number == usize::MAX {
        return None;
    }
    Some((number as u64 + 1, rest))
}
