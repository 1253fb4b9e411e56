//! The cases of literals and of expressions (Itanium C++ ABI 5.1, "Expressions"): which one the next bytes select. If
//! several fit, the first one counts.
ghost use Rattle.std.specs.Prelude.{◌≡◌, ◌<◌, ◌≤◌, IfSome, option_map, length};
ghost use Rattle.itanium_syntax.specs.Expressions as spec;

use crate::operators::{operator_arity, operator_here};
use std::str::from_utf8;

/// The cases of what begins with an `L` among template arguments and expressions.
#[derive(Clone, Copy)]
pub enum PrimaryCase {
    ExternalName,
    ValueLiteral,
    UnreadablePrimary,
}

/// The cases of `<expression>`, by how each is printed.
#[derive(Clone, Copy)]
pub enum ExpressionCase {
    /// `++` or `--` in front of the operand.
    PreExpression,
    /// The address of an external name.
    AddressExpression,
    /// An operator in front of its operand.
    UnaryExpression,
    /// `++` or `--` after the operand.
    PostExpression,
    /// An operator between its operands.
    BinaryExpression,
    /// `>` between its operands, in parentheses.
    GreaterExpression,
    /// `?` and `:` between three operands.
    ConditionalExpression,
    TemplateParamExpression,
    PrimaryExpression,
    UnreadableExpression,
}

/// Returns whether an external name is next.
pub fn is_external(bytes: &[u8]) -> bool
    ensures value { result ≡ spec.is_external bytes.now }
{
    matches!(bytes, [b'L', b'_', b'Z', ..])
}

/// Returns which literal is next, with its `L`.
pub fn primary_case(bytes: &[u8]) -> PrimaryCase
    ensures case { result ≡ spec.primary_case bytes.now }
{
    match bytes {
        [b'L', b'_', b'Z', ..] => PrimaryCase::ExternalName,
        [b'L', b'_' | b'Z', ..] => PrimaryCase::UnreadablePrimary,
        _ => PrimaryCase::ValueLiteral,
    }
}

/// Returns how many bytes are in front of the first `E`, or the number of all bytes if there is none.
fn value_len(bytes: &[u8]) -> usize
    ensures value { result ≡ spec.value_len bytes.now }
    ensures within { result ≤ length bytes.now }
{
    for place in 0..bytes.len() {
        if bytes[place] == b'E' {
            return place;
        }
    }
    bytes.len()
}

/// Reads the value of a literal, which is all bytes up to the first `E`. Returns the value and the bytes after the
/// `E`. Returns `None` if there is no `E` or the value isn't UTF-8.
#[tactic(auto, unfolding(crate::specs::Expressions::literal_value))]
pub fn literal_value(bytes: &[u8]) -> Option<(&str, &[u8])>
    ensures value { option_map (λ found. (found.0.now, found.1.now)) result ≡ spec.literal_value bytes.now }
    ensures shorter { IfSome result (λ found. length found.1.now < length bytes.now) }
{
    let len = value_len(bytes);
    if len == bytes.len() {
        return None;
    }
    match from_utf8(&bytes[..len]) {
        Ok(value) => Some((value, &bytes[len + 1..])),
        Err(_) => None,
    }
}

/// Returns whether expressions with this code aren't read (Itanium C++ ABI 5.1, "Expressions").
pub fn expression_refused(first: u8, second: u8) -> bool
    ensures value { result ≡ spec.expression_refused first second }
{
    matches!(
        (first, second),
        (b'c', b'l' | b'v' | b'c')
            | (b't', b'l' | b'i' | b'e' | b'w' | b'r')
            | (b'i', b'l')
            | (b'd', b'c' | b't' | b's' | b'l' | b'a')
            | (b's', b'c' | b't' | b'z' | b'o' | b'Z' | b'P' | b'p')
            | (b'r', b'c')
            | (b'a', b't' | b'z')
            | (b'n', b'x' | b'w' | b'a')
            | (b'p', b't')
            | (b'g', b's')
    )
}

/// Returns the text of the operator whose code is next, or no text if there is none.
pub fn expression_text(bytes: &[u8]) -> &'static str
    ensures text { result.now ≡ spec.expression_text bytes.now }
{
    operator_here(bytes).unwrap_or("")
}

/// Returns which `<expression>` is next.
pub fn expression_case(bytes: &[u8]) -> ExpressionCase
    ensures case { result ≡ spec.expression_case bytes.now }
{
    let (first, second, rest) = match bytes {
        [first, second, rest @ ..] => (*first, *second, rest),
        [b'L'] => return ExpressionCase::PrimaryExpression,
        [b'T'] => return ExpressionCase::TemplateParamExpression,
        _ => return ExpressionCase::UnreadableExpression,
    };
    match (first, second) {
        (b'p', b'p') | (b'm', b'm') => match rest {
            [b'_', ..] => ExpressionCase::PreExpression,
            _ => ExpressionCase::PostExpression,
        },
        (b'a', b'd') if is_external(rest) => ExpressionCase::AddressExpression,
        (b'g', b't') => ExpressionCase::GreaterExpression,
        (b'L', _) => ExpressionCase::PrimaryExpression,
        (b'T', b's' | b'u' | b'e' | b'L') => ExpressionCase::UnreadableExpression,
        (b'T', _) => ExpressionCase::TemplateParamExpression,
        _ if expression_refused(first, second) => ExpressionCase::UnreadableExpression,
        _ => match operator_arity(first, second) {
            Some(1) => ExpressionCase::UnaryExpression,
            Some(3) => ExpressionCase::ConditionalExpression,
            Some(_) => ExpressionCase::BinaryExpression,
            None => ExpressionCase::UnreadableExpression,
        },
    }
}
