//! The cases of encodings and of local names (Itanium C++ ABI 5.1, "General Structure" and "Scope Encoding"): which
//! one the next bytes select. If several fit, the first one counts.
ghost use Rattle.std.specs.Prelude.{◌≡◌};
ghost use Rattle.itanium_syntax.specs.Encodings as spec;

/// Where an `<encoding>` ends.
#[derive(Clone, Copy)]
pub enum EncodingEnd {
    /// Right after its name: neither return type nor parameters are read. This is the end for a symbol, and for the
    /// encoding of a thunk.
    AfterName,
    /// At the `E` of the local or external name around it.
    AtE,
}

/// The cases of `<encoding>`: a special name; a name that is the whole encoding; a name that a return type and
/// parameters may follow.
#[derive(Clone, Copy)]
pub enum EncodingCase {
    SpecialEncoding,
    NameEncoding,
    FullEncoding,
}

/// Whether a return type follows the name of an `<encoding>`.
#[derive(Clone, Copy)]
pub enum ReturnCase {
    NoReturnType,
    SomeReturnType,
}

/// Whether parameters follow the name of an `<encoding>`, and its return type if it has one.
#[derive(Clone, Copy)]
pub enum EncodingParamsCase {
    NoEncodingParams,
    SomeEncodingParams,
}

/// What follows the `<encoding>` of a `<local-name>`.
#[derive(Clone, Copy)]
pub enum EntityCase {
    StringLiteralEntity,
    DefaultArgumentEntity,
    NameEntity,
    UnreadableEntity,
}

/// Returns whether a `<special-name>` is next. A special name begins with `T` or `G`, and no other name does.
#[inline(always)]
pub fn begins_special(bytes: &[u8]) -> bool
    ensures value { result ≡ spec.begins_special bytes.now }
{
    matches!(bytes, [b'T' | b'G', ..])
}

/// Returns which `<encoding>` with this end is next.
pub fn encoding_case(end: EncodingEnd, bytes: &[u8]) -> EncodingCase
    ensures case { result ≡ spec.encoding_case end bytes.now }
{
    if begins_special(bytes) {
        return EncodingCase::SpecialEncoding;
    }
    match end {
        EncodingEnd::AfterName => EncodingCase::NameEncoding,
        EncodingEnd::AtE => EncodingCase::FullEncoding,
    }
}

/// Returns whether a return type is next, after a name with these flags. A template has one, unless it is a
/// constructor, a destructor or a conversion, or an `E` is next.
pub fn return_case(templ: bool, ctor: bool, bytes: &[u8]) -> ReturnCase
    ensures case { result ≡ spec.return_case templ ctor bytes.now }
{
    if templ && !ctor && !matches!(bytes, [b'E', ..]) {
        ReturnCase::SomeReturnType
    } else {
        ReturnCase::NoReturnType
    }
}

/// Returns whether parameters are next. There are none if an `E` is next.
pub fn encoding_params_case(bytes: &[u8]) -> EncodingParamsCase
    ensures case { result ≡ spec.encoding_params_case bytes.now }
{
    match bytes {
        [b'E', ..] => EncodingParamsCase::NoEncodingParams,
        _ => EncodingParamsCase::SomeEncodingParams,
    }
}

/// Returns which entity of a `<local-name>` is next, with the `E` in front of it.
pub fn entity_case(bytes: &[u8]) -> EntityCase
    ensures case { result ≡ spec.entity_case bytes.now }
{
    match bytes {
        [b'E', b's', ..] => EntityCase::StringLiteralEntity,
        [b'E', b'd', b'_' | b'0'..=b'9', ..] => EntityCase::DefaultArgumentEntity,
        [b'E', ..] => EntityCase::NameEntity,
        _ => EntityCase::UnreadableEntity,
    }
}
