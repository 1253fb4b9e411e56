//! The cases of types (Itanium C++ ABI 5.1.5): which one the next bytes select. If several fit, the first one counts.
ghost use Rattle.std.specs.Prelude.{◌≡◌, ◌<◌, ◌≤◌, length};
ghost use Rattle.itanium_syntax.specs.Types as spec;
ghost use Rattle.abi_scalars.specs.Bytes as bytes_spec;
ghost use Rattle.itanium_syntax.specs.Calls as call_spec;

use demangle_quals::{Pointer, Quals, Reference};

/// The cases of `<type>`.
#[derive(Clone, Copy)]
pub enum TypeCase {
    BuiltinType,
    ExpansionType,
    VendorType,
    ArrayType,
    FunctionType,
    PointerToMemberType,
    PointerType(Pointer),
    CvType,
    ElaboratedType,
    TemplateParamType,
    SubstitutionType,
    UnreadableType,
    NameType,
}

/// Whether qualifiers are those of a function type.
#[derive(Clone, Copy)]
pub enum CvCase {
    CvFunction,
    CvOther,
}

/// The cases of `<function-type>`. One with `Y` isn't read.
#[derive(Clone, Copy)]
pub enum FunctionCase {
    ExternFunction,
    PlainFunction,
}

/// Whether a `<function-type>`, a lambda or an `<encoding>` has parameters.
#[derive(Clone, Copy)]
pub enum ParamsCase {
    NoParams,
    SomeParams,
}

/// Whether one more parameter type is next, or the end of the parameters, with or without a `<ref-qualifier>`.
#[derive(Clone, Copy)]
pub enum TypeListCase {
    EndOfTypes,
    NextType,
}

/// Returns which `<type>` is next. A `CvType` has at least one byte of qualifiers.
#[tactic(auto, using(crate::proofs::Fronts::cv_shorter))]
#[inline(always)]
pub fn type_case(bytes: &[u8]) -> TypeCase
    ensures case { result ≡ spec.type_case bytes.now }
    ensures cv { call_spec.OnCv result (length (spec.past_cv bytes.now) < length bytes.now) }
{
    match bytes {
        [b'u', ..] => TypeCase::VendorType,
        [b'A', ..] => TypeCase::ArrayType,
        [b'F', ..] => TypeCase::FunctionType,
        [b'M', ..] => TypeCase::PointerToMemberType,
        [b'P', ..] => TypeCase::PointerType(Pointer::Star),
        [b'R', ..] => TypeCase::PointerType(Pointer::Left),
        [b'O', ..] => TypeCase::PointerType(Pointer::Right),
        [b'r' | b'V' | b'K', ..] => TypeCase::CvType,
        [b'T', b's' | b'u' | b'e', ..] => TypeCase::ElaboratedType,
        [b'T', ..] => TypeCase::TemplateParamType,
        [b'S', b't', ..] => TypeCase::NameType,
        [b'S', ..] => TypeCase::SubstitutionType,
        [b'U', ..] => TypeCase::UnreadableType,
        [b'D', b'p', ..] => TypeCase::ExpansionType,
        _ if builtin_text(bytes).is_empty() => TypeCase::NameType,
        _ => TypeCase::BuiltinType,
    }
}

/// Returns whether a function type follows `<CV-qualifiers>`.
pub fn cv_case(bytes: &[u8]) -> CvCase
    ensures case { result ≡ spec.cv_case bytes.now }
{
    match bytes {
        [b'F', ..] => CvCase::CvFunction,
        _ => CvCase::CvOther,
    }
}

/// Returns which `<function-type>` is next.
pub fn function_case(bytes: &[u8]) -> FunctionCase
    ensures case { result ≡ spec.function_case bytes.now }
{
    match bytes {
        [b'F', b'Y', ..] => FunctionCase::ExternFunction,
        _ => FunctionCase::PlainFunction,
    }
}

/// Returns whether there are parameters in front of the `E`. A single `v` in front of it means that there are none.
pub fn params_case(bytes: &[u8]) -> ParamsCase
    ensures case { result ≡ spec.params_case bytes.now }
{
    match bytes {
        [b'v', b'E', ..] => ParamsCase::NoParams,
        _ => ParamsCase::SomeParams,
    }
}

/// Returns whether one more parameter type is next, or the end of the parameters, which is an `E`. In a
/// `<function-type>` an `R` or `O` in front of the `E` is the end too.
pub fn type_list_case(in_function_type: bool, bytes: &[u8]) -> TypeListCase
    ensures case { result ≡ spec.type_list_case in_function_type bytes.now }
{
    match bytes {
        [b'E', ..] => TypeListCase::EndOfTypes,
        [b'R' | b'O', b'E', ..] if in_function_type => TypeListCase::EndOfTypes,
        _ => TypeListCase::NextType,
    }
}

/// Returns the text of the `<builtin-type>` that is next, which is a letter, or `D` and a letter. Returns no bytes if
/// there is none.
#[inline(always)]
pub fn builtin_text(bytes: &[u8]) -> &'static [u8]
    ensures text { result.now ≡ spec.builtin_text bytes.now }
{
    match bytes {
        [b'D', letter, ..] => two_letter_text(*letter),
        [letter, ..] => letter_text(*letter),
        [] => b"",
    }
}

#[inline(always)]
fn letter_text(letter: u8) -> &'static [u8]
    ensures text { result.now ≡ spec.text_in spec.letter_texts letter }
{
    match letter {
        b'v' => b"void",
        b'w' => b"wchar_t",
        b'b' => b"bool",
        b'c' => b"char",
        b'a' => b"signed char",
        b'h' => b"unsigned char",
        b's' => b"short",
        b't' => b"unsigned short",
        b'i' => b"int",
        b'j' => b"unsigned int",
        b'l' => b"long",
        b'm' => b"unsigned long",
        b'x' => b"long long",
        b'y' => b"unsigned long long",
        b'n' => b"__int128",
        b'o' => b"unsigned __int128",
        b'f' => b"float",
        b'd' => b"double",
        b'e' => b"long double",
        b'g' => b"__float128",
        b'z' => b"...",
        _ => b"",
    }
}

#[inline(never)]
fn two_letter_text(letter: u8) -> &'static [u8]
    ensures text { result.now ≡ spec.text_in spec.two_letter_texts letter }
{
    match letter {
        b's' => b"char16_t",
        b'i' => b"char32_t",
        b'u' => b"char8_t",
        b'n' => b"std::nullptr_t",
        b'a' => b"auto",
        b'c' => b"decltype(auto)",
        b'h' => b"half",
        b'd' => b"decimal64",
        b'e' => b"decimal128",
        b'f' => b"decimal32",
        _ => b"",
    }
}

/// Returns the bytes after a `<builtin-type>`.
pub fn past_builtin(bytes: &[u8]) -> &[u8]
    ensures rest { result.now ≡ spec.past_builtin bytes.now }
{
    match bytes {
        [b'D', _, rest @ ..] => rest,
        [b'D'] => &[],
        [_, rest @ ..] => rest,
        [] => &[],
    }
}

/// Reads `<CV-qualifiers> ::= [r] [V] [K]`. Returns the qualifiers and the bytes after them.
pub fn cv_quals(bytes: &[u8]) -> (Quals, &[u8])
    ensures quals { result.0 ≡ spec.cv_quals bytes.now }
    ensures rest { result.1.now ≡ spec.past_cv bytes.now }
    ensures within { length result.1.now ≤ length bytes.now }
{
    let after_restrict = past_letter(b'r', bytes);
    let after_volatile = past_letter(b'V', after_restrict);
    let quals = Quals {
        constant: matches!(after_volatile, [b'K', ..]),
        volatile: matches!(after_restrict, [b'V', ..]),
        restrict: matches!(bytes, [b'r', ..]),
        reference: None,
    };
    (quals, past_letter(b'K', after_volatile))
}

/// Returns the bytes after `letter` if that is next, and otherwise all bytes.
fn past_letter(letter: u8, bytes: &[u8]) -> &[u8]
    ensures rest { result.now ≡ bytes_spec.past_letter letter bytes.now }
    ensures within { length result.now ≤ length bytes.now }
{
    match bytes {
        [first, rest @ ..] if *first == letter => rest,
        _ => bytes,
    }
}

/// Reads `<ref-qualifier> ::= R | O` if one is next. Returns the qualifier and the bytes after it.
pub fn ref_qualifier(bytes: &[u8]) -> (Option<Reference>, &[u8])
    ensures reference { result.0 ≡ spec.reference_of bytes.now }
    ensures rest { result.1.now ≡ spec.past_reference bytes.now }
    ensures within { length result.1.now ≤ length bytes.now }
{
    match bytes {
        [b'R', rest @ ..] => (Some(Reference::Left), rest),
        [b'O', rest @ ..] => (Some(Reference::Right), rest),
        _ => (None, bytes),
    }
}

/// Returns the word in front of an elaborated type's name: `struct`, `union` or `enum`, and a space.
pub fn elaborated_text(bytes: &[u8]) -> &'static [u8]
    ensures text { result.now ≡ spec.elaborated_text bytes.now }
{
    match bytes {
        [b'T', b's', ..] => b"struct ",
        [b'T', b'u', ..] => b"union ",
        _ => b"enum ",
    }
}
