//! The cases of special names (Itanium C++ ABI 5.1.4, "Other Special Functions and Entities"): which one the next
//! bytes select, and the words that each prints.
ghost use Rattle.std.specs.Prelude.{◌≡◌};
ghost use Rattle.itanium_syntax.specs.Specials as spec;

/// The cases of `<special-name>`.
#[derive(Clone, Copy)]
pub enum SpecialCase {
    /// Words around a type.
    TypeSpecial,
    /// Words in front of a name.
    NameSpecial,
    /// A reference temporary of a name.
    TemporarySpecial,
    /// A construction vtable of two types.
    ConstructionSpecial,
    /// A thunk.
    ThunkSpecial,
    /// None of these.
    UnreadableSpecial,
}

/// Returns which `<special-name>` is next.
pub fn special_case(bytes: &[u8]) -> SpecialCase
    ensures case { result ≡ spec.special_case bytes.now }
{
    match bytes {
        [b'T', b'V' | b'T' | b'I' | b'S' | b'F', ..] => SpecialCase::TypeSpecial,
        [b'T', b'H' | b'W', ..] => SpecialCase::NameSpecial,
        [b'G', b'V', ..] => SpecialCase::NameSpecial,
        [b'G', b'R', ..] => SpecialCase::TemporarySpecial,
        [b'T', b'C', ..] => SpecialCase::ConstructionSpecial,
        [b'T', b'h' | b'v' | b'c', ..] => SpecialCase::ThunkSpecial,
        _ => SpecialCase::UnreadableSpecial,
    }
}

/// Returns the words in front of a special name's type or name, for the cases `TypeSpecial` and `NameSpecial`.
pub fn special_text(bytes: &[u8]) -> &'static [u8]
    ensures text { result.now ≡ spec.special_text bytes.now }
{
    match bytes {
        [b'T', b'V', ..] => b"{vtable(",
        [b'T', b'T', ..] => b"{vtt(",
        [b'T', b'I', ..] => b"typeinfo for ",
        [b'T', b'S', ..] => b"typeinfo name for ",
        [b'T', b'F', ..] => b"typeinfo fn for ",
        [b'T', b'H', ..] => b"TLS init function for ",
        [b'T', b'W', ..] => b"TLS wrapper function for ",
        _ => b"guard variable for ",
    }
}

/// Returns the text after a special name's type or name: `)}` for `TV` and `TT`, and otherwise nothing.
pub fn special_close(bytes: &[u8]) -> &'static [u8]
    ensures text { result.now ≡ spec.special_close bytes.now }
{
    match bytes {
        [b'T', b'V' | b'T', ..] => b")}",
        _ => b"",
    }
}
