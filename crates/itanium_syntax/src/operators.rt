//! Operators (Itanium C++ ABI 5.1.3, "Operator Encodings"): the text after `operator` in a name, and the number of
//! operands of an expression.
ghost use Rattle.std.specs.Prelude.{◌≡◌, option_map};
ghost use Rattle.itanium_syntax.specs.Operators as spec;
ghost use Rattle.itanium_syntax.specs.Calls as call_spec;

/// Returns the text after `operator` in the name of the assignment with this code, or `None` if the code is none of an
/// assignment.
fn assignment_text(first: u8, second: u8) -> Option<&'static str>
    ensures value { option_map (λ text. text.now) result ≡ call_spec.assignment_text first second }
{
    match (first, second) {
        (b'a', b'S') => Some("="),
        (b'p', b'L') => Some("+="),
        (b'm', b'I') => Some("-="),
        (b'm', b'L') => Some("*="),
        (b'd', b'V') => Some("/="),
        (b'r', b'M') => Some("%="),
        (b'a', b'N') => Some("&="),
        (b'o', b'R') => Some("|="),
        (b'e', b'O') => Some("^="),
        (b'l', b'S') => Some("<<="),
        (b'r', b'S') => Some(">>="),
        _ => None,
    }
}

/// Returns the text after `operator` in the name of the operator with this code, or `None` if no `<operator-name>` has
/// the code (Itanium C++ ABI 5.1.3, "Operator Encodings").
pub fn operator_text(first: u8, second: u8) -> Option<&'static str>
    ensures value { option_map (λ text. text.now) result ≡ spec.operator_text first second }
{
    match (first, second) {
        (b'n', b'w') => Some(" new"),
        (b'n', b'a') => Some(" new[]"),
        (b'd', b'l') => Some(" delete"),
        (b'd', b'a') => Some(" delete[]"),
        (b'p', b's') => Some("+"),
        (b'n', b'g') => Some("-"),
        (b'a', b'd') => Some("&"),
        (b'd', b'e') => Some("*"),
        (b'c', b'o') => Some("~"),
        (b'p', b'l') => Some("+"),
        (b'm', b'i') => Some("-"),
        (b'm', b'l') => Some("*"),
        (b'd', b'v') => Some("/"),
        (b'r', b'm') => Some("%"),
        (b'a', b'n') => Some("&"),
        (b'o', b'r') => Some("|"),
        (b'e', b'o') => Some("^"),
        (b'l', b's') => Some("<<"),
        (b'r', b's') => Some(">>"),
        (b'e', b'q') => Some("=="),
        (b'n', b'e') => Some("!="),
        (b'l', b't') => Some("<"),
        (b'g', b't') => Some(">"),
        (b'l', b'e') => Some("<="),
        (b'g', b'e') => Some(">="),
        (b'n', b't') => Some("!"),
        (b'a', b'a') => Some("&&"),
        (b'o', b'o') => Some("||"),
        (b'p', b'p') => Some("++"),
        (b'm', b'm') => Some("--"),
        (b'c', b'm') => Some(","),
        (b'p', b'm') => Some("->*"),
        (b'p', b't') => Some("->"),
        (b'c', b'l') => Some("()"),
        (b'i', b'x') => Some("[]"),
        (b'q', b'u') => Some("?:"),
        (b's', b's') => Some("<=>"),
        _ => assignment_text(first, second),
    }
}

/// Returns how many operands an expression with this operator code has, or `None` if no `<operator-name>` has the code
/// (Itanium C++ ABI 5.1.3, "Operator Encodings").
pub fn operator_arity(first: u8, second: u8) -> Option<u8>
    ensures value { result ≡ spec.operator_arity first second }
{
    match (first, second) {
        (b'd', b'l' | b'a' | b'e')
        | (b'p', b's' | b'p')
        | (b'n', b'g' | b't')
        | (b'a', b'd')
        | (b'c', b'o')
        | (b'm', b'm') => Some(1),
        (b'q', b'u') => Some(3),
        _ if operator_text(first, second).is_some() => Some(2),
        _ => None,
    }
}

/// Returns the text after `operator` in the name of the operator whose code is next, or `None` if there is none.
pub fn operator_here(bytes: &[u8]) -> Option<&'static str>
    ensures value { option_map (λ text. text.now) result ≡ spec.operator_here bytes.now }
{
    match bytes {
        [first, second, ..] => operator_text(*first, *second),
        _ => None,
    }
}
