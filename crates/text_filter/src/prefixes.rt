//! Finds the words that are read: those with the prefix of a symbol, `_Z`, or all.
ghost use Rattle.std.specs.Prelude.{◌≡◌, ◌+◌, ◌≤◌, true, false, length, take, IfSome, IfNone};
ghost use Rattle.text_filter.specs.Replaced.{ends_word};
ghost use Rattle.text_filter.specs.Progress.{HasPrefixNowhere, IsFirstPrefix, HasNoWord, IsFirstToRead, HasNothingToRead};

use super::byte_search::first_place;
use super::word_bounds::{is_word_byte, whole_words_len};

const UNDERSCORE: u8 = b'_';

/// The second byte of the prefix. The search looks for this byte, since it is rarer than `_`.
const PREFIX_END: u8 = b'Z';

/// Returns the place of the first `_Z`, or `None` if there is none.
fn first_prefix(bytes: &[u8]) -> Option<usize>
    ensures found { IfSome result (IsFirstPrefix bytes.now) }
    ensures none { IfNone result (HasPrefixNowhere bytes.now) }
{
    let mut at = 0;
    while let Some(more) = first_place(&bytes[at..], PREFIX_END) {
        let place = at + more;
        if place > 0 && bytes[place - 1] == UNDERSCORE {
            return Some(place - 1);
        }
        at = place + 1;
    }
    None
}

/// Returns the place of the first byte of a word, or `None` if there is none.
fn first_word(bytes: &[u8]) -> Option<usize>
    ensures found { IfSome result (IsFirstToRead true bytes.now) }
    ensures none { IfNone result (HasNoWord bytes.now) }
{
    for at in 0..bytes.len() {
        if is_word_byte(bytes[at]) {
            return Some(at);
        }
    }
    None
}

/// Returns a place in the first word that is read, or `None` if there is none. If `all` is true, all words are read.
#[inline(always)]
pub(crate) fn first_to_read(all: bool, bytes: &[u8]) -> Option<usize>
    ensures found { IfSome result (IsFirstToRead all bytes.now) }
    ensures none { IfNone result (HasNothingToRead all bytes.now) }
{
    if all {
        return first_word(bytes);
    }
    first_prefix(bytes)
}

/// Returns the length in bytes of the first whole words, up to a word that is read.
pub(crate) fn ordinary_words_len(all: bool, text: &[u8]) -> usize
    ensures bound { result ≤ length text.now }
    ensures whole { ends_word (take result text.now) ≡ false }
    ensures unread { HasNothingToRead all (take result text.now) }
{
    match first_to_read(all, text) {
        Some(place) => whole_words_len(&text[..place], 0),
        None => whole_words_len(text, 0),
    }
}
