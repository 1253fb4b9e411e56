//! Replaces the symbols in words.
ghost use Rattle.std.specs.Prelude.{◌≡◌, ◌≤◌, ◌++◌, false, length, take, drop, All, IfOk, IfSome, IfNone, OnOk, OnErr, option_map};
ghost use Rattle.text_filter.specs.Replaced as spec;
ghost use Rattle.text_filter.specs.Replaced.{IsWordByte, IsDot, ends_in_dot, IsWordAnswer};
ghost use Rattle.text_filter.specs.Progress.{AppendsReplaced, Extends};
ghost use Rattle.text_filter.specs.Printed.{worded};

use super::prefixes::first_to_read;
use super::symbols::{ReplaceOptions, SymbolReader};
use super::word_bounds::{word_end, word_start};
use growing_text::Text;
use std::alloc::{AllocError, Global};
use std::str;

/// Returns the length of the word in bytes, without the dots at its end.
#[inline(always)]
fn stem_len(word: &[u8]) -> usize
    ensures bound { result ≤ length word.now }
    ensures dots { All IsDot (drop result word.now) }
    ensures stem { ends_in_dot (take result word.now) ≡ false }
{
    let mut len = word.len();
    // Most words have no dot at their end.
    if len == 0 || word[len - 1] != b'.' {
        return len;
    }
    while len > 0 && word[len - 1] == b'.' {
        len -= 1;
    }
    len
}

/// Returns whether the bytes begin with the prefix of a symbol: `_Z` or `__Z`, or that of a block's function, `___Z` or
/// `____Z`.
#[inline(always)]
pub fn has_prefix(bytes: &[u8]) -> bool
    ensures value { result ≡ spec.has_prefix bytes.now }
{
    matches!(
        bytes,
        [b'_', b'Z', ..]
            | [b'_', b'_', b'Z', ..]
            | [b'_', b'_', b'_', b'Z', ..]
            | [b'_', b'_', b'_', b'_', b'Z', ..]
    )
}

/// Returns the bytes without their first underscore, if they begin with one and `strip` is true. Otherwise returns the
/// bytes.
#[inline(always)]
pub fn stripped(strip: bool, bytes: &[u8]) -> &[u8]
    ensures value { result.now ≡ spec.stripped strip bytes.now }
{
    match bytes {
        [b'_', ..] if strip => &bytes[1..],
        _ => bytes,
    }
}

/// Returns whether the bytes begin with a dot that a symbol follows.
#[inline(always)]
fn ends_section(strip: bool, bytes: &[u8]) -> bool
    ensures value { result ≡ spec.ends_section strip bytes.now }
{
    match bytes {
        [b'.', ..] => has_prefix(stripped(strip, &bytes[1..])),
        _ => false,
    }
}

/// Returns how many bytes end in the first dot that a symbol follows, or `None` if there is none.
fn section_len(strip: bool, word: &[u8]) -> Option<usize>
    ensures bound { IfSome result (λ len. len ≤ length word.now) }
    ensures value { result ≡ spec.section_len strip word.now }
{
    for at in 0..word.len() {
        if ends_section(strip, &word[at..]) {
            return Some(at + 1);
        }
    }
    None
}

/// Returns the length in bytes of the prefix characters of a word, which are in front of its symbol: the name of a
/// section with its dots, as in `.text._Z1fv`, or `.`, `$`, `__imp_` or nothing.
#[inline(always)]
pub fn prefix_chars_len(strip: bool, word: &[u8]) -> usize
    ensures bound { result ≤ length word.now }
    ensures value { result ≡ spec.prefix_chars_len strip word.now }
{
    match word {
        [b'.', ..] => match section_len(strip, word) {
            Some(len) => len,
            None => 1,
        },
        [b'$', ..] => 1,
        [b'_', b'_', b'i', b'm', b'p', b'_', ..] => 6,
        _ => 0,
    }
}

/// Returns the symbol in a word, and the length in bytes of the prefix characters in front of it. If `strip` is true,
/// the symbol is returned without one underscore in front. Returns `None` if the word has no symbol, unless `all` is
/// true; then anything is returned that follows the prefix characters. The word has no dots at its end.
#[inline(always)]
fn symbol_in(strip: bool, all: bool, word: &[u8]) -> Option<(usize, &[u8])>
    ensures bound { IfSome result (λ found. found.0 ≤ length word.now) }
    ensures chars_len { IfSome result (λ found. found.0 ≡ spec.prefix_chars_len strip word.now) }
    ensures value { option_map (λ found. found.1.now) result ≡ spec.symbol_in strip all word.now }
{
    let chars_len = prefix_chars_len(strip, word);
    let symbol = stripped(strip, &word[chars_len..]);
    if !all && !has_prefix(symbol) {
        return None;
    }
    Some((chars_len, symbol))
}

/// The number of bytes at the start of a word that show whether it may hold a symbol: six prefix characters, an
/// underscore, and `____Z`.
const START_LEN: usize = 12;

/// Returns whether a last word with these bytes is kept until more is read: it has fewer than `START_LEN` bytes, or it
/// begins with a dot, or a symbol follows its prefix characters.
pub(crate) fn may_hold_symbol(strip: bool, all: bool, bytes: &[u8]) -> bool
    ensures value { result ≡ spec.may_hold_symbol strip all bytes.now }
{
    bytes.len() < START_LEN || bytes[0] == b'.' || symbol_in(strip, all, bytes).is_some()
}

/// Returns what is printed for the symbol in a word, and the length in bytes of the prefix characters, which stay. The
/// word has no dots at its end. Returns `None` if the word is printed as it is, and an error if an allocation fails.
#[inline(always)]
fn word_answer<'a, S: SymbolReader>(
    alloc: Global,
    symbols: &'a mut S,
    options: ReplaceOptions<S::Printing>,
    word: &'a [u8],
) -> Result<Option<(usize, &'a str)>, AllocError>
    requires { All IsWordByte word.now }
    ensures bound { IfOk result (λ found. IfSome found (λ answer. answer.0 ≤ length word.now)) }
    ensures some { IfOk result (λ found. IfSome found (λ answer.
        IsWordAnswer (worded S.all S.prints options) word.now (take answer.0 word.now ++ answer.1.now))) }
    ensures none { IfOk result (λ found. IfNone found (IsWordAnswer (worded S.all S.prints options) word.now word.now)) }
{
    let all = S::reads_all(options.printing);
    let Some((chars_len, symbol)) = symbol_in(options.strip, all, word) else {
        return Ok(None);
    };
    let symbol = unsafe { str::from_utf8_unchecked(symbol) };
    symbols.read(alloc, options.printing, symbol)?;
    match symbols.text() {
        Some(answer) => Ok(Some((chars_len, answer))),
        None => Ok(None),
    }
}

/// Appends the text with its symbols replaced. Returns an error if an allocation fails; then a part may be appended.
fn append_words_or_part<S: SymbolReader>(
    alloc: Global,
    symbols: &mut S,
    options: ReplaceOptions<S::Printing>,
    text: &[u8],
    output: &mut Text,
) -> Result<(), AllocError>
    ensures ok { OnOk result (AppendsReplaced (worded S.all S.prints options) text.now output.old output.new) }
    ensures err { OnErr result (Extends output.old output.new) }
{
    // The text up to `from` has been searched, and the replaced text up to `done` has been appended.
    let all = S::reads_all(options.printing);
    let mut done = 0;
    let mut from = 0;
    while let Some(more) = first_to_read(all, &text[from..]) {
        let place = from + more;
        let start = word_start(text, from, place);
        let end = word_end(text, place);
        // The byte at the word's end is no word byte, so the search goes on after it.
        from = (end + 1).min(text.len());
        let word = &text[start..end];
        let stem = stem_len(word);
        if let Some((chars_len, answer)) = word_answer(alloc, symbols, options, &word[..stem])? {
            output.add_pair(&text[done..start + chars_len], answer.as_bytes())?;
            done = start + stem;
        }
    }
    output.add(&text[done..])
}

/// Does what `append_words_or_part` does. If that fails, removes the part that was appended, and returns the error.
pub(crate) fn append_words<S: SymbolReader>(
    alloc: Global,
    symbols: &mut S,
    options: ReplaceOptions<S::Printing>,
    text: &[u8],
    output: &mut Text,
) -> Result<(), AllocError>
    ensures ok { OnOk result (AppendsReplaced (worded S.all S.prints options) text.now output.old output.new) }
    ensures err { OnErr result (output.new ≡ output.old) }
{
    let len = output.len();
    match append_words_or_part(alloc, symbols, options, text, output) {
        Ok(()) => Ok(()),
        Err(error) => {
            output.truncate(len);
            Err(error)
        }
    }
}
