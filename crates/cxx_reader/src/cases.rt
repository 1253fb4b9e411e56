//! Which case the next bytes select.
#![tactic(auto, unfolding(cxx_grammar::specs::Words::builtin_of, cxx_grammar::specs::Words::integer_of))]

ghost use Rattle.std.specs.Prelude.{◌≡◌, ◌<◌, [], ◌∷◌, codes, length, not, if◌then◌else◌};
ghost use Rattle.abi_scalars.specs.Bytes.{begins, begins_digit, letter, past_letter};
ghost use Rattle.cxx_grammar.specs.declared.cases.TypeCase.TheVariants as type_case;
ghost use Rattle.cxx_grammar.specs.declared.cases.FirstCase.TheVariants as first;
ghost use Rattle.cxx_grammar.specs.declared.cases.BaseCase.TheVariants as base;
ghost use Rattle.cxx_grammar.specs.declared.cases.ExceptionCase.TheVariants as exception;
ghost use Rattle.cxx_grammar.specs.declared.cases.ArgCase.TheVariants as arg;
ghost use Rattle.cxx_grammar.specs.declared.cases.DeclarationCase.TheVariants as declaration;
ghost use Rattle.cxx_grammar.specs.declared.cases.LiteralCase.TheVariants as literal;
ghost use Rattle.cxx_grammar.specs.declared.cases.UnresolvedTypeCase.TheVariants as unresolved_type;
ghost use Rattle.cxx_grammar.specs.Cases as spec;

use crate::words::{builtin_of, integer_of};
use cxx_grammar::cases::{
    ArgCase, BaseCase, BaseNameCase, ComponentCase, DeclarationCase, EncodingCase, ExceptionCase,
    ExpressionCase, FirstCase, FloatFormat, LiteralCase, LocalCase, NameCase, PrefixCase,
    RequirementCase, TypeCase, UnresolvedCase, UnresolvedTypeCase,
};

/// Returns whether a letter is next.
#[inline(always)]
pub fn begins(bytes: &[u8], letter: u8) -> bool
    ensures value { result ≡ begins (letter ∷ []) bytes.now }
{
    match bytes {
        [byte, ..] => *byte == letter,
        [] => false,
    }
}

/// Returns whether an encoding ends here: at the end of the symbol, or before `E`, `.` or `_`.
pub fn is_encoding_end(bytes: &[u8]) -> bool
    ensures value { result ≡ spec.is_encoding_end bytes.now }
{
    match bytes {
        [] | [b'E' | b'.' | b'_', ..] => true,
        _ => false,
    }
}

/// Returns whether the parameters of an encoding end here: at its end, or before a `Q`.
pub fn is_params_end(bytes: &[u8]) -> bool
    ensures value { result ≡ spec.is_params_end bytes.now }
{
    match bytes {
        [] | [b'E' | b'.' | b'_' | b'Q', ..] => true,
        _ => false,
    }
}

/// Returns whether the parameters of a lambda end here: before `E` or `Q`.
pub fn is_lambda_end(bytes: &[u8]) -> bool
    ensures value { result ≡ spec.is_lambda_end bytes.now }
{
    match bytes {
        [b'E' | b'Q', ..] => true,
        _ => false,
    }
}

/// Returns whether the conditions of a function are next: `Ua9enable_ifI`.
pub fn begins_enable_if(bytes: &[u8]) -> bool
    ensures value { result ≡ begins (codes "Ua9enable_ifI") bytes.now }
{
    match bytes {
        [b'U', b'a', b'9', rest @ ..] => begins_conditions(rest),
        _ => false,
    }
}

/// Returns whether a `<template-param-decl>` is next.
pub fn begins_declaration(bytes: &[u8]) -> bool
    ensures value { not result ≡ spec.is_declarations_end bytes.now }
{
    match bytes {
        [b'T', b'y' | b'k' | b'n' | b't' | b'p', ..] => true,
        _ => false,
    }
}

// Returns whether `enable_ifI` is next.
#[inline(never)]
fn begins_conditions(bytes: &[u8]) -> bool
    ensures value { result ≡ begins (codes "enable_ifI") bytes.now }
{
    match bytes {
        [
            b'e',
            b'n',
            b'a',
            b'b',
            b'l',
            b'e',
            b'_',
            b'i',
            b'f',
            b'I',
            ..
        ] => true,
        _ => false,
    }
}

/// Returns whether a digit is next.
pub fn begins_digit(bytes: &[u8]) -> bool
    ensures value { result ≡ begins_digit bytes.now }
{
    match bytes {
        [b'0'..=b'9', ..] => true,
        _ => false,
    }
}

/// Returns whether the digits and the letter of `std::bfloat16_t` are next.
pub fn begins_brain(bytes: &[u8]) -> bool
    ensures value { result ≡ begins (codes "16b") bytes.now }
{
    match bytes {
        [b'1', b'6', b'b', ..] => true,
        _ => false,
    }
}

/// Returns whether the parameters of a function type end here: before `E`, `RE` or `OE`.
pub fn is_function_end(bytes: &[u8]) -> bool
    ensures value { result ≡ spec.is_function_end bytes.now }
{
    match bytes {
        [b'E', ..] | [b'R' | b'O', b'E', ..] => true,
        _ => false,
    }
}

/// Returns the case of a symbol.
pub fn prefix_case(bytes: &[u8]) -> PrefixCase
    ensures value { result ≡ spec.case_of_prefix bytes.now }
{
    match bytes {
        [b'_', b'Z', ..] => PrefixCase::Plain(2),
        [b'_', b'_', b'Z', ..] => PrefixCase::Plain(3),
        [b'_', b'_', b'_', b'Z', ..] => PrefixCase::Block(4),
        [b'_', b'_', b'_', b'_', b'Z', ..] => PrefixCase::Block(5),
        _ => PrefixCase::None,
    }
}

/// Returns the case of an `<encoding>`.
pub fn encoding_case(bytes: &[u8]) -> EncodingCase
    ensures value { result ≡ spec.case_of_encoding bytes.now }
{
    match bytes {
        [b'G' | b'T', ..] => EncodingCase::Special,
        _ => EncodingCase::Name,
    }
}

/// Returns the case of a `<name>`.
pub fn name_case(bytes: &[u8]) -> NameCase
    ensures value { result ≡ spec.case_of_name bytes.now }
{
    match bytes {
        [b'N', ..] => NameCase::Nested,
        [b'Z', ..] => NameCase::Local,
        [b'S', b't', ..] => NameCase::Std,
        [b'S', ..] => NameCase::Substitution,
        _ => NameCase::Unqualified,
    }
}

/// Returns the case of a `<local-name>`, after its `E`.
pub fn local_case(bytes: &[u8]) -> LocalCase
    ensures value { result ≡ spec.case_of_local bytes.now }
{
    match bytes {
        [b's', ..] => LocalCase::String,
        [b'd', ..] => LocalCase::DefaultArg,
        _ => LocalCase::Entity,
    }
}

/// Returns the case of the first component of a `<nested-name>`.
pub fn first_case(bytes: &[u8]) -> FirstCase
    ensures value { result ≡ spec.case_of_first bytes.now }
    ensures some { result ≡ first.Decltype → 0 < length bytes.now }
{
    match bytes {
        [b'S', b't', ..] => FirstCase::Std,
        [b'S', ..] => FirstCase::Substitution,
        [b'T', ..] => FirstCase::Param,
        [b'D', b't' | b'T', ..] => FirstCase::Decltype,
        _ => FirstCase::Unqualified,
    }
}

/// Returns the case of an `<unqualified-name>`, where an `L` in front is skipped.
pub fn component_case(bytes: &[u8]) -> ComponentCase
    ensures value { result ≡ spec.case_of_component bytes.now }
{
    match bytes {
        [b'C', b'1'..=b'5', ..] => ComponentCase::Ctor,
        [b'C', b'I', b'1'..=b'5', ..] => ComponentCase::InheritedCtor,
        [b'D', b'0' | b'1' | b'2' | b'4' | b'5', ..] => ComponentCase::Dtor,
        _ => ComponentCase::Unqualified,
    }
}

/// Returns the case of an `<unqualified-name>` that is no constructor.
pub fn base_case(bytes: &[u8]) -> BaseCase
    ensures value { result ≡ spec.case_of_base bytes.now }
    ensures some { result ≡ base.Bindings → 0 < length bytes.now }
{
    match bytes {
        [b'1'..=b'9', ..] => BaseCase::Source,
        [b'D', b'C', ..] => BaseCase::Bindings,
        [b'v', b'0'..=b'9', ..] => BaseCase::Vendor,
        [b'U', b't', ..] => BaseCase::Unnamed,
        [b'U', b'b', ..] => BaseCase::Block,
        [b'U', b'l', ..] => BaseCase::Closure,
        [b'c', b'v', ..] => BaseCase::Conversion,
        [b'l', b'i', ..] => BaseCase::Literal,
        _ => BaseCase::Operator,
    }
}

/// Returns the case of a `<type>`.
pub fn type_case(bytes: &[u8]) -> TypeCase
    ensures value { result ≡ spec.case_of_type bytes.now }
{
    match bytes {
        [b'r' | b'V' | b'K', ..] => qualified_case(bytes),
        [b'U', ..] => TypeCase::Qualified,
        [b'u', ..] => TypeCase::Vendor,
        [b'F', ..] => TypeCase::Function,
        [b'D', rest @ ..] => d_case(rest),
        [b'A', ..] => TypeCase::Array,
        [b'T', b's' | b'u' | b'e', ..] => TypeCase::SavedRow,
        [b'T', ..] => TypeCase::Param,
        [b'P', ..] => TypeCase::Pointer,
        [b'R', ..] => TypeCase::Reference(true),
        [b'O', ..] => TypeCase::Reference(false),
        [b'C', ..] => TypeCase::Suffixed(true),
        [b'G', ..] => TypeCase::Suffixed(false),
        [b'M', ..] => TypeCase::MemberPointer,
        [b'S', b't', ..] => TypeCase::Class,
        [b'S', ..] => TypeCase::Substitution,
        _ => if builtin_of(bytes).is_some() {
            TypeCase::Builtin
        } else {
            TypeCase::Class
        },
    }
}

// The case of a type that begins with a qualifier: it may be a function's.
#[inline(never)]
fn qualified_case(bytes: &[u8]) -> TypeCase
    ensures value { result ≡ (if spec.begins_function (spec.past_qualifiers bytes.now) then type_case.Function
        else type_case.Qualified) }
{
    match past_letter(past_letter(past_letter(bytes, b'r'), b'V'), b'K') {
        [b'F', ..] | [b'D', b'o' | b'O' | b'w' | b'x', ..] => TypeCase::Function,
        _ => TypeCase::Qualified,
    }
}

// What follows a letter that may be next.
fn past_letter(bytes: &[u8], letter: u8) -> &[u8]
    ensures value { result.now ≡ past_letter letter bytes.now }
{
    match bytes {
        [byte, rest @ ..] if *byte == letter => rest,
        _ => bytes,
    }
}

// The case of a type that begins with `D`, by what is behind it.
fn d_case(bytes: &[u8]) -> TypeCase
    ensures value { result ≡ spec.case_of_type (letter "D" ∷ bytes.now) }
{
    match bytes {
        [b'o' | b'O' | b'w' | b'x', ..] => TypeCase::Function,
        [b't' | b'T', ..] => TypeCase::SavedRow,
        [b'v', ..] => TypeCase::Vector,
        [b'p', ..] => TypeCase::Expansion,
        [b'F', ..] => TypeCase::Float,
        [b'B' | b'U' | b'k' | b'K', ..] => TypeCase::Row,
        _ => TypeCase::Builtin,
    }
}

/// Returns the case of an `<exception-spec>`.
pub fn exception_case(bytes: &[u8]) -> ExceptionCase
    ensures value { result ≡ spec.case_of_exception bytes.now }
    ensures some { result ≡ exception.Computed → 0 < length bytes.now }
{
    match bytes {
        [b'D', b'o', ..] => ExceptionCase::Noexcept,
        [b'D', b'O', ..] => ExceptionCase::Computed,
        [b'D', b'w', ..] => ExceptionCase::Throw,
        _ => ExceptionCase::None,
    }
}

/// Returns the case of a `<template-arg>`.
pub fn arg_case(bytes: &[u8]) -> ArgCase
    ensures value { result ≡ spec.case_of_arg bytes.now }
    ensures some { result ≡ arg.Expression → 0 < length bytes.now }
    ensures encoding { result ≡ arg.Encoding → 0 < length bytes.now }
{
    match bytes {
        [b'X', ..] => ArgCase::Expression,
        [b'T', b'y' | b'k' | b'n' | b't' | b'p', ..] => ArgCase::Declared,
        [b'J', ..] => ArgCase::Pack,
        [b'L', b'Z', ..] => ArgCase::Encoding,
        [b'L', ..] => ArgCase::Literal,
        _ => ArgCase::Type,
    }
}

/// Returns the case of an `<expr-primary>`, after its `L`.
pub fn literal_case(bytes: &[u8]) -> LiteralCase
    ensures value { result ≡ spec.case_of_literal bytes.now }
    ensures some { result ≡ literal.Encoding → 0 < length bytes.now }
{
    match bytes {
        [b'b', ..] => LiteralCase::Bool,
        [b'f', ..] => LiteralCase::Float(FloatFormat::Single),
        [b'd', ..] => LiteralCase::Float(FloatFormat::Double),
        [b'e', ..] => LiteralCase::Float(FloatFormat::Extended),
        [b'_', b'Z', ..] => LiteralCase::Encoding,
        [b'A', ..] => LiteralCase::String,
        [b'D', b'n', ..] => LiteralCase::Null,
        [b'U', b'l', ..] => LiteralCase::Lambda,
        [b'_' | b'T' | b'U', ..] => LiteralCase::Unread,
        _ => if integer_of(bytes).is_some() {
            LiteralCase::Integer
        } else {
            LiteralCase::Typed
        },
    }
}

/// Returns the case of an `<expression>` that is no row.
pub fn expression_case(bytes: &[u8]) -> ExpressionCase
    ensures value { result ≡ spec.case_of_expression bytes.now }
{
    match bytes {
        [b'n', b'w', ..] => ExpressionCase::New(false, false),
        [b'n', b'a', ..] => ExpressionCase::New(false, true),
        [b'g', b's', rest @ ..] => global_case(rest),
        [b'L', ..] => ExpressionCase::Literal,
        [b'T', ..] => ExpressionCase::Param,
        [b'f', b'p' | b'L', ..] => ExpressionCase::FunctionParam,
        [b's', b'o', ..] => ExpressionCase::Subobject,
        [b'r', b'q', ..] => ExpressionCase::Requires(false),
        [b'r', b'Q', ..] => ExpressionCase::Requires(true),
        [b'u', ..] => ExpressionCase::Vendor,
        [b'a', b'w', ..] => ExpressionCase::Unread,
        _ => ExpressionCase::Name,
    }
}

// The case of an expression that begins with `gs`, by what is behind it.
fn global_case(bytes: &[u8]) -> ExpressionCase
    ensures value { result ≡ spec.case_of_expression (letter "g" ∷ letter "s" ∷ bytes.now) }
{
    match bytes {
        [b'n', b'w', ..] => ExpressionCase::New(true, false),
        [b'n', b'a', ..] => ExpressionCase::New(true, true),
        [b's', b'r', ..] | [b'o' | b'd', b'n', ..] | [b'0'..=b'9', ..] => {
            ExpressionCase::GlobalName
        }
        _ => ExpressionCase::Name,
    }
}

/// Returns the case of an `<unresolved-name>`, after its `gs`.
pub fn unresolved_case(bytes: &[u8]) -> UnresolvedCase
    ensures value { result ≡ spec.case_of_unresolved bytes.now }
{
    match bytes {
        [b's', b'r', b'0'..=b'9', ..] => UnresolvedCase::Simple,
        [b's', b'r', b'S', b't', ..] => UnresolvedCase::Type,
        [b's', b'r', b'N', b'S', b't', ..] => UnresolvedCase::Type,
        [b's', b'r', b'N', b'0'..=b'9', ..] => UnresolvedCase::Type,
        [b's', b'r', b'N', ..] => UnresolvedCase::Nested,
        [b's', b'r', ..] => UnresolvedCase::Unresolved,
        _ => UnresolvedCase::Base,
    }
}

/// Returns the case of an `<unresolved-type>`.
pub fn unresolved_type_case(bytes: &[u8]) -> UnresolvedTypeCase
    ensures value { result ≡ spec.case_of_unresolved_type bytes.now }
    ensures some { result ≡ unresolved_type.Decltype → 0 < length bytes.now }
{
    match bytes {
        [b'T', ..] => UnresolvedTypeCase::Param,
        [b'D', b't' | b'T', ..] => UnresolvedTypeCase::Decltype,
        [b'S', ..] => UnresolvedTypeCase::Substitution,
        _ => UnresolvedTypeCase::Unread,
    }
}

/// Returns the case of a `<base-unresolved-name>`.
pub fn base_name_case(bytes: &[u8]) -> BaseNameCase
    ensures value { result ≡ spec.case_of_base_name bytes.now }
{
    match bytes {
        [b'0'..=b'9', ..] => BaseNameCase::Simple,
        [b'd', b'n', ..] => BaseNameCase::Destructor,
        _ => BaseNameCase::Operator,
    }
}

/// Returns whether an initializer's values follow: `pi`.
pub fn begins_values(bytes: &[u8]) -> bool
    ensures value { result ≡ begins (codes "pi") bytes.now }
{
    match bytes {
        [b'p', b'i', ..] => true,
        _ => false,
    }
}

/// Returns the case of a `<template-param-decl>`.
pub fn declaration_case(bytes: &[u8]) -> DeclarationCase
    ensures value { result ≡ spec.case_of_declaration bytes.now }
    ensures some { result ≡ declaration.Type → 0 < length bytes.now }
{
    match bytes {
        [b'T', b'y', ..] => DeclarationCase::Type,
        [b'T', b'k', ..] => DeclarationCase::Constrained,
        [b'T', b'n', ..] => DeclarationCase::Value,
        [b'T', b't', ..] => DeclarationCase::Template,
        [b'T', b'p', ..] => DeclarationCase::Pack,
        _ => DeclarationCase::Unread,
    }
}

/// Returns the case of a `<requirement>`.
pub fn requirement_case(bytes: &[u8]) -> RequirementCase
    ensures value { result ≡ spec.case_of_requirement bytes.now }
{
    match bytes {
        [b'X', ..] => RequirementCase::Expression,
        [b'T', ..] => RequirementCase::Type,
        [b'Q', ..] => RequirementCase::Nested,
        _ => RequirementCase::Unread,
    }
}
