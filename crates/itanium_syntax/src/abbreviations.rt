//! The abbreviations of std (Itanium C++ ABI 5.1.10, "Compression").
ghost use Rattle.std.specs.Prelude.{◌≡◌, ◌+◌, ◌≤◌, length};
ghost use Rattle.itanium_syntax.specs.Abbreviations as spec;

/// The names of std that a `<substitution>` may stand for.
#[derive(Clone, Copy)]
pub enum Abbreviation {
    Allocator,
    BasicString,
    StdString,
    Istream,
    Ostream,
    Iostream,
}

/// Returns which name of std the letter after `S` stands for, or `None` if it stands for none.
pub fn abbreviation_of(bytes: &[u8]) -> Option<Abbreviation>
    ensures value { result ≡ spec.abbreviation_of bytes.now }
{
    match bytes {
        [b'a', ..] => Some(Abbreviation::Allocator),
        [b'b', ..] => Some(Abbreviation::BasicString),
        [b's', ..] => Some(Abbreviation::StdString),
        [b'i', ..] => Some(Abbreviation::Istream),
        [b'o', ..] => Some(Abbreviation::Ostream),
        [b'd', ..] => Some(Abbreviation::Iostream),
        _ => None,
    }
}

/// Returns the text that is printed for a name of std.
pub fn abbreviation_text(abbreviation: Abbreviation) -> &'static [u8]
    ensures text { result.now ≡ spec.abbreviation_text abbreviation }
{
    match abbreviation {
        Abbreviation::Allocator => b"std::allocator",
        Abbreviation::BasicString => b"std::basic_string",
        Abbreviation::StdString => b"std::string",
        Abbreviation::Istream => b"std::basic_istream<char, std::char_traits<char> >",
        Abbreviation::Ostream => b"std::ostream",
        Abbreviation::Iostream => b"std::basic_iostream<char, std::char_traits<char> >",
    }
}

/// Returns the length in bytes of the base name of a name of std. The base name begins after `std::`.
pub fn abbreviation_own_len(abbreviation: Abbreviation) -> usize
    ensures value { result ≡ length (spec.abbreviation_own abbreviation) }
    ensures within { 5 + result ≤ length (spec.abbreviation_text abbreviation) }
{
    match abbreviation {
        Abbreviation::Allocator => 9,
        Abbreviation::BasicString => 12,
        Abbreviation::StdString => 6,
        Abbreviation::Istream => 13,
        Abbreviation::Ostream => 7,
        Abbreviation::Iostream => 14,
    }
}
