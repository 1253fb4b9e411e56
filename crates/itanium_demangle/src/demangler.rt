//! `Demangler`, which demangles symbol after symbol.
ghost use Rattle.std.specs.Prelude.{◌≡◌, IfOk, OnOk, OnErr, IfSome, MatchResult, ⊤, option_map, is_some, slice_get, map, [], length, true, false, Some, None};
ghost use Rattle.std.specs.Borrow.{sem};
ghost use Rattle.std.specs.String.{string_bytes};
ghost use Rattle.std.specs.Str.{IsUtf8};
ghost use Rattle.demangle_text.specs.State.{IsLiving, shape, saved, scopes, main_bytes, frame, inside, outside, outermost, frame_start};
ghost use Rattle.demangle_text.specs.Shape.{text};
ghost use Rattle.itanium_grammar.specs.Answer.{IsAnswer, HasAtMostOneReading, HasCounts, HasComponents, HasSaved, HasBounds, HasLength};
ghost use Rattle.abi_scalars.specs.Symbol as spec;
ghost use Rattle.itanium_reader.specs.Outcome.{state};
ghost use Rattle.itanium_demangle.specs.Demangler.{IsPrinted, IsPrepared, IsText, IsEnded, answer_text, component_texts, component_shapes};
ghost use Rattle.itanium_demangle.specs.LastResult.{no_result};

use crate::mangled_name::read_mangled_name;
use abi_scalars::utf8::is_utf8;
use demangle_text::{Buffer, Mark};
use itanium_reader::{Reader, Stop};
use itanium_syntax::symbol::{after_prefix, suffix};
use std::alloc::{AllocError, Global};
use std::fmt::{self, Debug, Formatter, Write};
use std::marker::Model;
use std::str::from_utf8_unchecked;

/// The most counted productions that may nest in a symbol. The counted productions are names, types, argument lists,
/// packs, thunks and expressions.
pub const MAX_DEPTH: usize = 128;

/// Demangles symbol after symbol in the same buffer, and keeps the last result.
#[derive(Drop)]
pub struct Demangler {
    // Whether the last symbol had a result. The result is all of the buffer's output.
    answered: bool,
    entered: usize,
    most_saved: usize,
    buffer: Option<Box<Buffer>>,
}

impl Model for Demangler {
    ghost use Rattle.itanium_demangle.specs.Demangler.{last_result, KeepsAnswer};
    ghost use Rattle.itanium_demangle.specs.LastResult.{LastResult};

    ghost Value = { LastResult };

    ghost view = { last_result };

    ghost invariant = { KeepsAnswer };
}

/// Clears the buffer and opens the mark under which the result is built.
#[inline(always)]
fn begin_answer(buffer: &mut Buffer) -> Mark
    ensures saved { saved buffer.new ≡ [] }
    ensures scopes { scopes buffer.new ≡ [] }
    ensures innermost { frame buffer.new ≡ inside result }
    ensures next { outside result ≡ outermost }
    ensures start { frame_start (inside result) ≡ 0 }
{
    buffer.clear();
    buffer.open()
}

/// Completes the result. Tests the printing in `found` for UTF-8, and returns `false` if it isn't. Then drops the
/// scopes, so that `close` neither copies an argument to the spill nor adjusts its range. Then appends the suffix,
/// which is all from a dot on if a dot is next. At last closes the mark, so that the output is the result alone.
#[inline(always)]
fn end_answer(reader: &mut Reader, mark: Mark) -> Result<bool, AllocError>
    requires innermost { frame reader.old.buffer.value ≡ inside mark }
    requires start { frame_start (inside mark) ≡ 0 }
    requires next { outside mark ≡ outermost }
    requires living { IsLiving reader.old.buffer.value reader.old.found }
    ensures answer { IfOk result (λ answered. IsPrinted (text (shape reader.old.buffer.value reader.old.found))
        (spec.suffix reader.old.rest.now) (answer_text answered (Some reader.new.buffer))) }
    ensures saved { OnOk result (saved reader.new.buffer.value ≡ saved reader.old.buffer.value) }
    ensures ended { IfOk result (λ answered. IsEnded answered (Some reader.new.buffer)) }
    ensures entered { reader.new.entered ≡ reader.old.entered }
    ensures most_saved { OnOk result ((state reader.new).most_saved ≡ (state reader.old).most_saved) }
{
    if !is_utf8(reader.buffer.bytes(reader.found)) {
        return Ok(false);
    }
    reader.buffer.keep_scopes(0);
    let ending = suffix(reader.rest);
    if ending.is_empty() {
        reader.buffer.close_in_place(mark, &mut reader.found)?;
        return Ok(true);
    }
    let whole = reader.buffer.append(reader.found, ending)?;
    reader.buffer.close(mark, whole)?;
    Ok(true)
}

impl Demangler {
    ghost use mathlib.Core.Option.{none};
    ghost use denote.Follow.{follows_so};
    ghost use Rattle.itanium_demangle.specs.contracts.demangler.Demangler.{the_row};

    /// Returns a value that has read no symbol. Allocates nothing.
    pub fn new() -> Self
        ensures empty { result ≡ no_result }
    {
        Demangler {
            answered: false,
            entered: 0,
            most_saved: 0,
            buffer: None,
        }
    }

    /// Takes over the counts and the buffer of a reader that has ended. If `answered` is true, the buffer's output is
    /// the result.
    #[inline(always)]
    fn keep(&mut self, reader: Reader, answered: bool)
        requires text { IsText (answer_text answered (Some reader.buffer)) }
        requires ended { IsEnded answered (Some reader.buffer) }
        ensures text { self.new.text ≡ answer_text answered (Some reader.entry.buffer) }
        ensures entered { self.new.entered ≡ reader.entry.entered }
        ensures most_saved { self.new.most_saved ≡ (state reader.entry).most_saved }
        ensures components { self.new.components ≡ component_texts answered (Some reader.entry.buffer) }
        ensures saved { self.new.saved ≡ component_shapes answered (Some reader.entry.buffer) }
    {
        self.answered = answered;
        self.entered = reader.entered;
        self.most_saved = reader.most_saved();
        self.buffer = Some(reader.buffer);
    }

    /// Reads a symbol and keeps its name, which `text` returns afterwards. Returns `true` if the symbol has a name.
    ///
    /// The symbol may be any text. If `T` or `G` follows the prefix `_Z` or `__Z`, a special name is read, and
    /// otherwise a name; the parameters of a function aren't read (Itanium C++ ABI 5.1.2). The result is the printing
    /// of what was read. If the next byte is a dot, all from that dot on is appended.
    ///
    /// A symbol has no name in exactly two cases. In the first, no reading is within the limits. A reading is within
    /// the limits if at most `MAX_DEPTH` counted productions nest and none of them prints more than `MAX_TEXT` bytes.
    /// This also holds for a production whose text isn't printed, such as a return type. In the second case the
    /// printing isn't UTF-8.
    ///
    /// A text without such a prefix has no reading. For such a text nothing is allocated, and both counts are 0.
    ///
    /// No limit applies to the bytes from the dot on, nor to the words of a special name that isn't a thunk. Without
    /// the bytes from the dot on, the result has at most 2 · `MAX_TEXT` + 28 = 2,097,180 bytes: two types,
    /// `construction vtable for ` and `-in-`.
    ///
    /// Returns an error if an allocation fails. Then the value has no result, and it can be used again.
    #[tactic(auto, using(crate::proofs::Rules::answers))]
    #[inline(always)]
    pub fn prepare(&mut self, alloc: Global, symbol: &str) -> Result<bool, AllocError>
        ensures answer { IfOk result (λ _. IsAnswer symbol.now self.new.text) }
        ensures found { IfOk result (λ found. found ≡ is_some self.new.text) }
        ensures counts { IfOk result (λ _. HasCounts symbol.now self.new.entered self.new.most_saved) }
        ensures components { IfOk result (λ _. HasComponents symbol.now self.new.text self.new.components) }
        ensures saved { IfOk result (λ _. HasSaved symbol.now self.new.text self.new.saved) }
        ensures bounds { IfOk result (λ _. HasBounds symbol.now self.new.entered self.new.most_saved) }
        ensures longest { IfOk result (λ _. HasLength symbol.now self.new.text) }
        ensures one { HasAtMostOneReading symbol.now }
        ensures no_prefix { spec.after_prefix symbol.now ≡ None → (result ≡ Ok false) × (self.new ≡ no_result) }
        ensures err { OnErr result (self.new ≡ no_result) }
    {
        self.answered = false;
        self.entered = 0;
        self.most_saved = 0;
        let Some(inside) = after_prefix(symbol.as_bytes()) else {
            return Ok(false);
        };
        let mut buffer = match self.buffer.take() {
            Some(buffer) => buffer,
            None => Box::new(alloc, Buffer::new(alloc))?,
        };
        let mark = begin_answer(&mut buffer);
        let mut reader = Reader {
            rest: inside,
            found: buffer.empty(),
            buffer,
            quals: None,
            entered: 0,
            recorded_peak: 0,
        };
        match read_mangled_name(&mut reader, MAX_DEPTH) {
            Ok(()) => {}
            Err(Stop::Unreadable) => {
                self.keep(reader, false);
                return Ok(false);
            }
            Err(Stop::Memory) => return Err(AllocError),
        }
        let answered = end_answer(&mut reader, mark)?;
        self.keep(reader, answered);
        Ok(answered)
    }

    /// Returns the result of the last symbol, borrowed until the next call. Returns `None` if that symbol had none,
    /// after an error, and before the first symbol.
    pub fn text(&self) -> Option<&str>
        ensures value { option_map (λ text. text.now) result ≡ self.now.text }
    {
        match self.buffer() {
            Some(buffer) => Some(unsafe { from_utf8_unchecked(buffer.main_bytes()) }),
            None => None,
        }
    }

    /// Returns the buffer that holds the result of the last symbol, borrowed until the next call. Returns `None` if
    /// there is no result.
    ///
    /// The result is all of the buffer's output. The buffer's saved shapes are those of the trees that the symbol
    /// leaves in the substitution table, and their texts are the components. No scope is open. The innermost mark is at
    /// the start of the output, or none is open.
    pub fn buffer(&self) -> Option<&Buffer>
        ensures value { option_map (λ buffer. main_bytes buffer.now) result ≡ self.now.text }
        ensures components { IfSome result (λ buffer. map text (saved buffer.now) ≡ self.now.components) }
        ensures saved { IfSome result (λ buffer. saved buffer.now ≡ self.now.saved) }
        ensures scopes { IfSome result (λ buffer. scopes buffer.now ≡ []) }
        ensures mark { IfSome result (λ buffer. frame buffer.now ≡ outermost) }
        ensures utf8 { IfSome result (λ buffer. IsUtf8 (main_bytes buffer.now)) }
        ensures none { result ≡ None → self.now.components ≡ [] }
        ensures none_saved { result ≡ None → self.now.saved ≡ [] }
    {
        match &self.buffer {
            Some(buffer) if self.answered => Some(buffer),
            _ => None,
        }
    }

    /// Returns how many counted productions the last symbol entered, also if it had no result. The counted productions
    /// are names, types, argument lists, packs, thunks and expressions. Returns 0 before the first symbol, after an
    /// error, and for a text without the prefix of a symbol.
    ///
    /// A production that is refused because `MAX_DEPTH` are open isn't entered. The number is at most twice the number
    /// of the symbol's bytes. If no reading is within the limits, nothing more is proved of it.
    pub fn entered(&self) -> usize
        ensures value { result ≡ self.now.entered }
    {
        self.entered
    }

    /// Returns the most entries that the grammar's substitution table had at one moment of the last symbol (Itanium C++
    /// ABI 5.1.10), also if that symbol had no result. For a moment the grammar's table also has the last segment of a
    /// nested name, unless that is a substitution or `St` alone. Returns 0 before the first symbol, after an error, and
    /// for a text without the prefix of a symbol. The number is at most the number of the symbol's bytes. If no reading
    /// is within the limits, nothing more is proved of the number.
    pub fn most_saved(&self) -> usize
        ensures value { result ≡ self.now.most_saved }
    {
        self.most_saved
    }

    /// Returns the text of the component with the index `i`, from 0 on, of those that the last symbol leaves in the
    /// substitution table (Itanium C++ ABI 5.1.10). The text is bytes, since a component need not be UTF-8. Returns
    /// `None` past the last component, and if the symbol had no result.
    pub fn component(&self, i: usize) -> Option<&[u8]>
        ensures value { option_map (λ text. text.now) result ≡ slice_get self.now.components i }
    {
        let Some(buffer) = self.buffer() else {
            return None;
        };
        match buffer.saved(i) {
            Some(component) => Some(buffer.bytes(component)),
            None => None,
        }
    }

    /// Returns the name of a symbol as `prepare` reads it, borrowed until the next call, or `None` if it has none. The
    /// value keeps the name for `text`. Returns an error if an allocation fails; then the value keeps nothing. A text
    /// without the prefix of a symbol is never an error.
    pub fn demangle<'a>(
        &'a mut self,
        alloc: Global,
        symbol: &'a str,
    ) -> Result<Option<&'a str>, AllocError>
        ensures answer { IfOk result (λ found. IsAnswer symbol.now (option_map (λ text. text.now) found)) }
        ensures no_prefix { spec.after_prefix symbol.now ≡ None → result ≡ Ok None }
        // `last` is the value after the borrow. It keeps the text that was returned, with the counts, components and
        // shapes of `prepare`. After an error it keeps nothing.
        ensures* kept { sem 𝓛 (follows_so the_row the_row self.entry.ghost_name none (λ _ _. ⊤)
            (λ last. MatchResult result
            (λ found. (last.text ≡ option_map (λ text. text.now) found) × IsPrepared symbol.now last)
            (λ _. last ≡ no_result))) }
    {
        self.prepare(alloc, symbol)?;
        Ok(self.text())
    }
}

/// Returns the name of a symbol as a new string, or `None` if it has none. The name is the one that
/// `Demangler::demangle` returns. Returns an error if an allocation fails.
pub fn demangle_owned(alloc: Global, symbol: &str) -> Result<Option<String>, AllocError>
    ensures answer { IfOk result (λ found. IsAnswer symbol.now (option_map string_bytes found)) }
    ensures no_prefix { spec.after_prefix symbol.now ≡ None → result ≡ Ok None }
{
    let mut demangler = Demangler::new();
    demangler.prepare(alloc, symbol)?;
    match demangler.text() {
        Some(text) => Ok(Some(String::from_str(alloc, text)?)),
        None => Ok(None),
    }
}

impl Default for Demangler {
    ghost is_default = { λ value. value ≡ no_result };

    fn default() -> Self {
        Self::new()
    }
}

impl Debug for Demangler {
    fn fmt<W: Write>(&self, f: &mut Formatter<W>) -> fmt::Result {
        f.write_str("Demangler")
    }
}
