//! The cases of names (Itanium C++ ABI 5.1.2): which one the next bytes select. If several fit, the first one counts.
ghost use Rattle.std.specs.Prelude.{◌≡◌, ◌≤◌, ◌+◌, length, IfSome, IfNone, Some, None, true};
ghost use Rattle.demangle_quals.specs.Quals.{no_quals};
ghost use Rattle.itanium_syntax.specs.Names as spec;

use crate::operators::operator_here;
use crate::types::{cv_quals, ref_qualifier};
pub use abi_scalars::texts::{begins_source, source_text};
use demangle_quals::Quals;

/// The cases of `<name>`.
#[derive(Clone, Copy)]
pub enum NameCase {
    NestedName,
    LocalName,
    UnscopedName,
}

/// The cases of `<unscoped-name>`, and `<substitution>` as a template name.
#[derive(Clone, Copy)]
pub enum UnscopedCase {
    StdName,
    SubstitutionName,
    PlainName,
}

/// The cases of the first segment of a `<nested-name>`.
#[derive(Clone, Copy)]
pub enum FirstSegmentCase {
    TemplateParamFirst,
    StdFirst,
    SubstitutionFirst,
    NameFirst,
}

/// The cases of a later segment of a `<nested-name>`, or the end of that name.
#[derive(Clone, Copy)]
pub enum SegmentCase {
    EndOfSegments,
    ArgsSegment,
    NameSegment,
}

/// The cases of `<unqualified-name>`.
#[derive(Clone, Copy)]
pub enum UnqualifiedCase {
    ConstructorName,
    DestructorName,
    OrdinaryName,
}

/// The cases of an `<unqualified-name>` that needs no parent, which is any but a `<ctor-dtor-name>`.
#[derive(Clone, Copy)]
pub enum OrdinaryCase {
    SourceName,
    UnnamedTypeName,
    LambdaName,
    ConversionName,
    LiteralOperatorName,
    OperatorName,
    UnreadableName,
}

/// Whether an `<abi-tag>` follows.
#[derive(Clone, Copy)]
pub enum TagCase {
    NoTag,
    NextTag,
}

/// The cases of `<substitution>`: an abbreviation of std, or an index in the substitution table.
#[derive(Clone, Copy)]
pub enum SubstitutionCase {
    AbbreviationSubstitution,
    ComponentSubstitution,
}

/// Returns which `<name>` is next.
pub fn name_case(bytes: &[u8]) -> NameCase
    ensures case { result ≡ spec.name_case bytes.now }
{
    match bytes {
        [b'N', ..] => NameCase::NestedName,
        [b'Z', ..] => NameCase::LocalName,
        _ => NameCase::UnscopedName,
    }
}

/// Returns which `<unscoped-name>` is next.
pub fn unscoped_case(bytes: &[u8]) -> UnscopedCase
    ensures case { result ≡ spec.unscoped_case bytes.now }
{
    match bytes {
        [b'S', b't', ..] => UnscopedCase::StdName,
        [b'S', ..] => UnscopedCase::SubstitutionName,
        _ => UnscopedCase::PlainName,
    }
}

/// Returns which first segment of a `<nested-name>` is next.
pub fn first_segment_case(bytes: &[u8]) -> FirstSegmentCase
    ensures case { result ≡ spec.first_segment_case bytes.now }
{
    match bytes {
        [b'1'..=b'9', ..] => FirstSegmentCase::NameFirst,
        [b'T', ..] => FirstSegmentCase::TemplateParamFirst,
        [b'S', b't', ..] => FirstSegmentCase::StdFirst,
        [b'S', ..] => FirstSegmentCase::SubstitutionFirst,
        _ => FirstSegmentCase::NameFirst,
    }
}

/// Returns which later segment of a `<nested-name>` is next, or that its `E` is.
pub fn segment_case(bytes: &[u8]) -> SegmentCase
    ensures case { result ≡ spec.segment_case bytes.now }
{
    match bytes {
        [b'E', ..] => SegmentCase::EndOfSegments,
        [b'I', ..] => SegmentCase::ArgsSegment,
        _ => SegmentCase::NameSegment,
    }
}

/// Returns which `<unqualified-name>` is next. A constructor or destructor needs a parent.
pub fn unqualified_case(in_parent: bool, bytes: &[u8]) -> UnqualifiedCase
    ensures case { result ≡ spec.unqualified_case in_parent bytes.now }
{
    match bytes {
        [b'C', b'1'..=b'5', ..] if in_parent => UnqualifiedCase::ConstructorName,
        [b'D', b'0'..=b'2' | b'4' | b'5', ..] if in_parent => UnqualifiedCase::DestructorName,
        _ => UnqualifiedCase::OrdinaryName,
    }
}

/// Returns which `<unqualified-name>` that needs no parent is next.
pub fn ordinary_case(bytes: &[u8]) -> OrdinaryCase
    ensures case { result ≡ spec.ordinary_case bytes.now }
{
    match bytes {
        [b'1'..=b'9', ..] => OrdinaryCase::SourceName,
        [b'U', b't', ..] => OrdinaryCase::UnnamedTypeName,
        [b'U', b'l', ..] => OrdinaryCase::LambdaName,
        [b'c', b'v', ..] => OrdinaryCase::ConversionName,
        [b'l', b'i', ..] => OrdinaryCase::LiteralOperatorName,
        _ => match operator_here(bytes) {
            Some(_) => OrdinaryCase::OperatorName,
            None => OrdinaryCase::UnreadableName,
        },
    }
}

/// Returns whether an `<abi-tag>` is next, that is a `B` that a digit follows.
pub fn tag_case(bytes: &[u8]) -> TagCase
    ensures case { result ≡ spec.tag_case bytes.now }
{
    match bytes {
        [b'B', b'0'..=b'9', ..] => TagCase::NextTag,
        _ => TagCase::NoTag,
    }
}

/// Returns which `<substitution>` is next, after its `S`.
pub fn substitution_case(bytes: &[u8]) -> SubstitutionCase
    ensures case { result ≡ spec.substitution_case bytes.now }
{
    match bytes {
        [b'a'..=b'z', ..] => SubstitutionCase::AbbreviationSubstitution,
        _ => SubstitutionCase::ComponentSubstitution,
    }
}

/// Reads the qualifiers of a `<nested-name>`: `<CV-qualifiers>` and a `<ref-qualifier>`, or an `H`, which stands for
/// no qualifier. Returns the qualifiers and the bytes after them. After `None` there are none, and no byte is skipped.
#[inline(always)]
pub fn name_quals(bytes: &[u8]) -> Option<(Quals, &[u8])>
    ensures quals { IfSome result (λ found. found.0 ≡ spec.name_quals bytes.now) }
    ensures rest { IfSome result (λ found. found.1.now ≡ spec.past_name_quals bytes.now) }
    ensures within { IfSome result (λ found. length found.1.now ≤ length bytes.now) }
    ensures none_quals { IfNone result (spec.name_quals bytes.now ≡ no_quals) }
    ensures none_rest { IfNone result (spec.past_name_quals bytes.now ≡ bytes.now) }
{
    match bytes {
        [b'H', rest @ ..] => Some((Quals::none(), rest)),
        [b'r' | b'V' | b'K' | b'R' | b'O', ..] => {
            let (words, rest) = cv_quals(bytes);
            let (reference, rest) = ref_qualifier(rest);
            Some((Quals { reference, ..words }, rest))
        }
        _ => None,
    }
}
