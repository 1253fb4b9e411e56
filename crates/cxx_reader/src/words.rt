//! Words of types, literals and operators (Itanium C++ ABI 5.1.3, 5.1.5).
#![tactic(auto, unfolding(cxx_grammar::specs::Words::builtin_of, cxx_grammar::specs::Words::d_builtin_of, cxx_grammar::specs::Words::integer_of, cxx_grammar::specs::Words::operator_of))]

ghost use Rattle.std.specs.Prelude.{◌≡◌, ◌<◌, [], ◌∷◌, length, option_map, Some, IfSome};
ghost use Rattle.cxx_grammar.specs.Words as spec;

/// What stands around a number: in front of it, and behind it.
#[derive(Clone, Copy)]
pub struct Around {
    pub front: &'static [u8],
    pub behind: &'static [u8],
}

/// Returns the builtin type of the letter that is next, or `None` if it is none of one.
pub fn builtin_of(bytes: &[u8]) -> Option<&'static [u8]>
    ensures value { option_map (λ word. word.now) result ≡ spec.builtin_of bytes.now }
    ensures some { IfSome result (λ _. 0 < length bytes.now) }
{
    match bytes {
        [b'v', ..] => Some(b"void"),
        [b'w', ..] => Some(b"wchar_t"),
        [b'b', ..] => Some(b"bool"),
        [b'c', ..] => Some(b"char"),
        [b'a', ..] => Some(b"signed char"),
        [b'h', ..] => Some(b"unsigned char"),
        [b's', ..] => Some(b"short"),
        [b't', ..] => Some(b"unsigned short"),
        [b'i', ..] => Some(b"int"),
        [b'j', ..] => Some(b"unsigned int"),
        [b'l', ..] => Some(b"long"),
        [b'm', ..] => Some(b"unsigned long"),
        [b'x', ..] => Some(b"long long"),
        [b'y', ..] => Some(b"unsigned long long"),
        [b'n', ..] => Some(b"__int128"),
        [b'o', ..] => Some(b"unsigned __int128"),
        [b'f', ..] => Some(b"float"),
        [b'd', ..] => Some(b"double"),
        [b'e', ..] => Some(b"long double"),
        [b'g', ..] => Some(b"__float128"),
        [b'z', ..] => Some(b"..."),
        _ => None,
    }
}

/// Returns the builtin type of the letter after `D`, in LLVM's style, or `None` if the letter is none of one.
pub fn d_builtin_of(bytes: &[u8]) -> Option<&'static [u8]>
    ensures value { option_map (λ word. word.now) result ≡ spec.d_builtin_of bytes.now }
    ensures some { IfSome result (λ _. 0 < length bytes.now) }
{
    match bytes {
        [b'd', ..] => Some(b"decimal64"),
        [b'e', ..] => Some(b"decimal128"),
        [b'f', ..] => Some(b"decimal32"),
        [b'h', ..] => Some(b"half"),
        [b'i', ..] => Some(b"char32_t"),
        [b's', ..] => Some(b"char16_t"),
        [b'u', ..] => Some(b"char8_t"),
        [b'a', ..] => Some(b"auto"),
        [b'c', ..] => Some(b"decltype(auto)"),
        _ => None,
    }
}

// What stands around a number, in a row of a table.
fn between(front: &'static [u8], behind: &'static [u8]) -> Option<Around>
    ensures value { result ≡ Some (record { front = front.entry; behind = behind.entry }) }
{
    Some(Around { front, behind })
}

/// Returns what stands around a literal of the integer type whose letter is next, or `None` if it is the letter of
/// another type.
pub fn integer_of(bytes: &[u8]) -> Option<Around>
    ensures value { option_map (λ a. record { front = a.front.now; behind = a.behind.now }) result ≡ spec.integer_of bytes.now }
    ensures some { IfSome result (λ _. 0 < length bytes.now) }
{
    match bytes {
        [b'i', ..] => between(b"", b""),
        [b'j', ..] => between(b"", b"u"),
        [b'l', ..] => between(b"", b"l"),
        [b'm', ..] => between(b"", b"ul"),
        [b'x', ..] => between(b"", b"ll"),
        [b'y', ..] => between(b"", b"ull"),
        [b'w', ..] => between(b"(wchar_t)", b""),
        [b'c', ..] => between(b"(char)", b""),
        [b'a', ..] => between(b"(signed char)", b""),
        [b'h', ..] => between(b"(unsigned char)", b""),
        [b's', ..] => between(b"(short)", b""),
        [b't', ..] => between(b"(unsigned short)", b""),
        [b'n', ..] => between(b"(__int128)", b""),
        [b'o', ..] => between(b"(unsigned __int128)", b""),
        _ => None,
    }
}

// The name of an operator whose code ends with a capital letter.
fn assignment_of(first: u8, second: u8) -> Option<&'static [u8]>
    ensures value { option_map (λ word. word.now) result ≡ spec.word_of spec.assignments (first ∷ second ∷ []) }
{
    match (first, second) {
        (b'a', b'N') => Some(b"operator&="),
        (b'a', b'S') => Some(b"operator="),
        (b'd', b'V') => Some(b"operator/="),
        (b'e', b'O') => Some(b"operator^="),
        (b'l', b'S') => Some(b"operator<<="),
        (b'm', b'I') => Some(b"operator-="),
        (b'm', b'L') => Some(b"operator*="),
        (b'o', b'R') => Some(b"operator|="),
        (b'p', b'L') => Some(b"operator+="),
        (b'r', b'M') => Some(b"operator%="),
        (b'r', b'S') => Some(b"operator>>="),
        _ => None,
    }
}

// The name of such an operator, or of one whose code begins with a letter from `i` on.
fn later_operator_of(first: u8, second: u8) -> Option<&'static [u8]>
    ensures value { option_map (λ word. word.now) result ≡ spec.word_of spec.later_operators (first ∷ second ∷ []) }
{
    match (first, second) {
        (b'i', b'x') => Some(b"operator[]"),
        (b'l', b'e') => Some(b"operator<="),
        (b'l', b's') => Some(b"operator<<"),
        (b'l', b't') => Some(b"operator<"),
        (b'm', b'i') => Some(b"operator-"),
        (b'm', b'l') => Some(b"operator*"),
        (b'm', b'm') => Some(b"operator--"),
        (b'n', b'a') => Some(b"operator new[]"),
        (b'n', b'e') => Some(b"operator!="),
        (b'n', b'g') => Some(b"operator-"),
        (b'n', b't') => Some(b"operator!"),
        (b'n', b'w') => Some(b"operator new"),
        (b'o', b'o') => Some(b"operator||"),
        (b'o', b'r') => Some(b"operator|"),
        (b'p', b'l') => Some(b"operator+"),
        (b'p', b'm') => Some(b"operator->*"),
        (b'p', b'p') => Some(b"operator++"),
        (b'p', b's') => Some(b"operator+"),
        (b'p', b't') => Some(b"operator->"),
        (b'q', b'u') => Some(b"operator?"),
        (b'r', b'm') => Some(b"operator%"),
        (b'r', b's') => Some(b"operator>>"),
        (b's', b's') => Some(b"operator<=>"),
        _ => assignment_of(first, second),
    }
}

// The name of the operator with this code.
fn operator_with(first: u8, second: u8) -> Option<&'static [u8]>
    ensures value { option_map (λ word. word.now) result ≡ spec.word_of spec.operators (first ∷ second ∷ []) }
{
    match (first, second) {
        (b'a', b'a') => Some(b"operator&&"),
        (b'a', b'd') => Some(b"operator&"),
        (b'a', b'n') => Some(b"operator&"),
        (b'a', b'w') => Some(b"operator co_await"),
        (b'c', b'l') => Some(b"operator()"),
        (b'c', b'm') => Some(b"operator,"),
        (b'c', b'o') => Some(b"operator~"),
        (b'd', b'a') => Some(b"operator delete[]"),
        (b'd', b'e') => Some(b"operator*"),
        (b'd', b'l') => Some(b"operator delete"),
        (b'd', b'v') => Some(b"operator/"),
        (b'e', b'o') => Some(b"operator^"),
        (b'e', b'q') => Some(b"operator=="),
        (b'g', b'e') => Some(b"operator>="),
        (b'g', b't') => Some(b"operator>"),
        _ => later_operator_of(first, second),
    }
}

/// Returns the name of the operator whose code is next, or `None` if there is none.
pub fn operator_of(bytes: &[u8]) -> Option<&'static [u8]>
    ensures value { option_map (λ word. word.now) result ≡ spec.operator_of bytes.now }
    ensures some { IfSome result (λ _. 0 < length bytes.now) }
{
    match bytes {
        [first, second, ..] => operator_with(*first, *second),
        _ => None,
    }
}
