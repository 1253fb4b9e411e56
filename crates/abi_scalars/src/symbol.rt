//! The parts of a symbol in front of its encoding and after it.
ghost use Rattle.std.specs.Prelude.{◌≡◌, option_map};
ghost use Rattle.abi_scalars.specs.Symbol as spec;

/// Returns what follows the prefix of a symbol, or `None` if it has no prefix (Itanium C++ ABI 5.1.2). The prefix is
/// that of `<mangled-name> ::= _Z <encoding>`, or the same after one more underscore.
pub fn after_prefix(symbol: &[u8]) -> Option<&[u8]>
    ensures value { option_map (λ rest. rest.now) result ≡ spec.after_prefix symbol.now }
{
    match symbol {
        [b'_', b'Z', inside @ ..] => Some(inside),
        [b'_', b'_', b'Z', inside @ ..] => Some(inside),
        _ => None,
    }
}

/// Returns what is appended to the printing: all of `rest` if it begins with a dot, and nothing otherwise.
pub fn suffix(rest: &[u8]) -> &[u8]
    ensures value { result.now ≡ spec.suffix rest.now }
{
    match rest {
        [b'.', ..] => rest,
        _ => &[],
    }
}
