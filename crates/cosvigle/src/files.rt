//! Splits the text of an `@FILE` into words.
ghost use Rattle.std.specs.Prelude.{◌≡◌, map, option_map, IfOk, IsTrue, ◌↔◌, EachIndex, slice_index, ◌≢◌};
ghost use Rattle.cosvigle.specs.Files as spec;

use std::alloc::{AllocError, Global};

/// The quote in which a byte is.
#[derive(Clone, Copy)]
pub enum Quote {
    /// Not in quotes.
    Nothing,
    /// Between two `'`.
    Single,
    /// Between two `"`.
    Double,
}

/// The state in which the next byte is read.
#[derive(Clone, Copy)]
pub enum Mode {
    /// The byte is between words, or begins one.
    Between,
    /// The byte is in a word.
    In(Quote),
    /// The byte is in a word, after a backslash.
    Escaped(Quote),
}

/// The effect of a byte.
#[derive(Clone, Copy)]
pub enum Effect {
    /// Skips the byte.
    Skip(Mode),
    /// Appends the byte to the word.
    Put(Mode),
    /// Ends the word, and drops the byte.
    End,
}

/// Returns whether the byte separates words.
fn is_space(byte: u8) -> bool
    ensures value { result ≡ spec.is_space byte }
{
    matches!(byte, b' ' | b'\t' | b'\n' | 11 | 12 | b'\r')
}

/// Returns the effect of a byte of a word.
fn inside(quote: Quote, byte: u8) -> Effect
    ensures value { result ≡ spec.inside quote byte }
{
    match quote {
        Quote::Nothing if is_space(byte) => Effect::End,
        _ if byte == b'\\' => Effect::Skip(Mode::Escaped(quote)),
        Quote::Nothing if byte == b'\'' => Effect::Skip(Mode::In(Quote::Single)),
        Quote::Nothing if byte == b'"' => Effect::Skip(Mode::In(Quote::Double)),
        Quote::Single if byte == b'\'' => Effect::Skip(Mode::In(Quote::Nothing)),
        Quote::Double if byte == b'"' => Effect::Skip(Mode::In(Quote::Nothing)),
        _ => Effect::Put(Mode::In(quote)),
    }
}

/// Returns the effect of a byte in this state.
fn effect_of(mode: Mode, byte: u8) -> Effect
    ensures value { result ≡ spec.effect_of mode byte }
{
    match mode {
        Mode::Between if is_space(byte) => Effect::Skip(Mode::Between),
        Mode::Between => inside(Quote::Nothing, byte),
        Mode::In(quote) => inside(quote, byte),
        Mode::Escaped(quote) => Effect::Put(Mode::In(quote)),
    }
}

/// Splits a text at white space into words. A part between two `'` or two `"` belongs to one word, with its white
/// space. The byte after a backslash stands for itself. Returns an error if an allocation fails.
pub fn words_in(alloc: Global, text: &[u8]) -> Result<Vec<Vec<u8>>, AllocError>
    ensures words { IfOk result (λ words. map (λ word. word.items) words.items ≡ spec.words_in text.now) }
{
    let mut words = Vec::new(alloc);
    let mut word = Vec::new(alloc);
    let mut mode = Mode::Between;
    for at in 0..text.len() {
        match effect_of(mode, text[at]) {
            Effect::Skip(next) => mode = next,
            Effect::Put(next) => {
                word.push(text[at])?;
                mode = next;
            }
            Effect::End => {
                words.push(word)?;
                word = Vec::new(alloc);
                mode = Mode::Between;
            }
        }
    }
    match mode {
        Mode::Between => {}
        Mode::In(_) | Mode::Escaped(_) => words.push(word)?,
    }
    Ok(words)
}

/// Returns the name of the file that an argument names, which is what follows its first byte `@`. Returns `None` if
/// the argument doesn't begin with `@`.
pub fn file_name(argument: &[u8]) -> Option<&[u8]>
    ensures value { option_map (λ name. name.now) result ≡ spec.file_name argument.now }
{
    match argument {
        [b'@', ..] => Some(&argument[1..]),
        _ => None,
    }
}

/// Returns whether no byte is a NUL.
pub fn has_no_nul(bytes: &[u8]) -> bool
    ensures { IsTrue result ↔ EachIndex bytes.now (λ k. slice_index bytes.now k ≢ 0) }
{
    bytes.iter().all(|byte| *byte != 0)
}
