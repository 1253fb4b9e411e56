//! The statuses that a call returns, and how a call writes a text.
//!
//! The statuses are numbers, as in C.
ghost use Rattle.std.specs.Prelude.{◌≡◌, ◌≢◌, pos};
ghost use Rattle.cosvigle_c.specs.Capacity.{Fills, IsShort};

/// The text is written, or all is done.
pub(crate) const WRITTEN: i32 = 0;
/// Nothing is printed for the symbol, it has no such part, or no text is kept.
pub(crate) const NO_ANSWER: i32 = 1;
/// An allocation failed.
pub(crate) const NO_MEMORY: i32 = 2;
/// The capacity is too small, and nothing is written.
pub(crate) const NO_ROOM: i32 = 3;
/// The symbol isn't UTF-8.
pub(crate) const NOT_UTF8: i32 = 4;
/// A number asks for nothing that there is.
pub(crate) const BAD_CALL: i32 = 5;
/// The symbol needs more memory than the handle's limit.
pub(crate) const OVER_LIMIT: i32 = 6;

/// Writes the text at the front of the caller's memory if it fits, and its length in bytes to `needed` in any case.
/// Returns `WRITTEN` or `NO_ROOM`.
pub(crate) fn write_if_fits(text: &[u8], into: &mut [u8], needed: &mut usize) -> i32
    ensures status { result ≢ pos 0 → result ≡ pos 3 }
    ensures fills { result ≡ pos 0 → Fills text.now into.old into.new needed.new }
    ensures short { result ≡ pos 3 → IsShort text.now into.old into.new needed.new }
{
    *needed = text.len();
    if into.len() < text.len() {
        return NO_ROOM;
    }
    into[..text.len()].copy_from_slice(text);
    WRITTEN
}
