//! Words that are printed.
#![tactic(auto, unfolding(crate::specs::Words::std_text, crate::specs::Words::short_std_text, crate::specs::Words::long_std_text, crate::specs::Words::cv_text, crate::specs::Words::member_opened))]

ghost use Rattle.std.specs.Prelude.{◌≡◌, ℕ, Bool, List, codes};
ghost use Rattle.cxx_printer.specs.Words as spec;

use crate::env::Style;
use cxx_tree::{Cv, Std};

/// The form of a type, as the declarators around it see it.
#[derive(Clone, Copy, PartialEq)]
pub enum Form {
    Plain,
    Arrayed,
    Callable,
}

/// Returns the text of an abbreviation of `std`.
pub fn std_text(style: Style, std: Std, is_expanded: bool) -> &'static [u8]
    ensures value { result.now ≡ spec.std_text style std is_expanded }
{
    let is_long = match style {
        Style::Gnu => true,
        Style::Llvm | Style::GnuShort => is_expanded,
    };
    if !is_long {
        return short_std_text(std);
    }
    match style {
        Style::Llvm => llvm_std_text(std),
        Style::Gnu | Style::GnuShort => gnu_std_text(std),
    }
}

fn short_std_text(std: Std) -> &'static [u8]
    ensures value { result.now ≡ spec.short_std_text std }
{
    match std {
        Std::Allocator => b"std::allocator",
        Std::BasicString => b"std::basic_string",
        Std::String => b"std::string",
        Std::Istream => b"std::istream",
        Std::Ostream => b"std::ostream",
        Std::Iostream => b"std::iostream",
    }
}

fn llvm_std_text(std: Std) -> &'static [u8]
    ensures value { result.now ≡ spec.long_std_text (codes ">>") std }
{
    match std {
        Std::Allocator => b"std::allocator",
        Std::BasicString => b"std::basic_string",
        Std::String => b"std::basic_string<char, std::char_traits<char>, std::allocator<char>>",
        Std::Istream => b"std::basic_istream<char, std::char_traits<char>>",
        Std::Ostream => b"std::basic_ostream<char, std::char_traits<char>>",
        Std::Iostream => b"std::basic_iostream<char, std::char_traits<char>>",
    }
}

fn gnu_std_text(std: Std) -> &'static [u8]
    ensures value { result.now ≡ spec.long_std_text (codes "> >") std }
{
    match std {
        Std::Allocator => b"std::allocator",
        Std::BasicString => b"std::basic_string",
        Std::String => b"std::basic_string<char, std::char_traits<char>, std::allocator<char> >",
        Std::Istream => b"std::basic_istream<char, std::char_traits<char> >",
        Std::Ostream => b"std::basic_ostream<char, std::char_traits<char> >",
        Std::Iostream => b"std::basic_iostream<char, std::char_traits<char> >",
    }
}

/// Returns qualifiers, each after a blank.
pub fn cv_text(cv: Cv) -> &'static [u8]
    ensures value { result.now ≡ spec.cv_text cv }
{
    match (cv.is_const, cv.is_volatile, cv.is_restrict) {
        (false, false, false) => b"",
        (true, false, false) => b" const",
        (false, true, false) => b" volatile",
        (true, true, false) => b" const volatile",
        (false, false, true) => b" restrict",
        (true, false, true) => b" const restrict",
        (false, true, true) => b" volatile restrict",
        (true, true, true) => b" const volatile restrict",
    }
}

/// Returns what stands before the class of a pointer to a member.
pub fn member_opened(style: Style, form: Form) -> &'static [u8]
    ensures value { result.now ≡ spec.member_opened style form }
{
    match form {
        Form::Plain => b" ",
        Form::Arrayed => match style {
            Style::Llvm => b"(",
            Style::Gnu | Style::GnuShort => b" (",
        },
        Form::Callable => b"(",
    }
}
