//! `Demangler`, which demangles symbol after symbol.
#![tactic(auto, using(crate::proofs::Whole::answers), unfolding(cxx_tree::specs::Stored::stands, cxx_reader::specs::Outcome::reading_at))]

ghost use Rattle.std.specs.Prelude.{◌≡◌, ◌≢◌, ◌≤◌, length, min, IfOk, OnOk, OnErr, MatchResult, IsErrOf, ⊤, option_map, is_some, true, false, Ok, Err, None};
ghost use Rattle.std.specs.Borrow.{sem};
ghost use Rattle.std.specs.Str.{IsUtf8};
ghost use Rattle.cxx_grammar.specs.Cases.{case_of_prefix};
ghost use Rattle.cxx_grammar.specs.declared.cases.PrefixCase.TheVariants as prefix;
ghost use Rattle.cxx_reader.specs.Outcome.{state, Keeps, GivesReading, IsReading, reading_at};
ghost use Rattle.cxx_tree.specs.declared.arena.Stop.TheVariants.{Unreadable};
ghost use Rattle.cxx_demangle.specs.declared.demangler.Entry.TheVariants as entries;
ghost use Rattle.cxx_demangle.specs.declared.demangler.DemangleError.TheVariants as errors;
ghost use Rattle.cxx_tree.specs.Stored.{IsWithin};
ghost use Rattle.cxx_demangle.specs.Answer as spec;
ghost use Rattle.cxx_demangle.specs.Answer.{IsAnswer, IsAnswerOf, IsTypeAnswer, HasAtMostOneReading, HasBounds, IsText, text_of};
ghost use Rattle.cxx_demangle.specs.Demangler.{GivesWhole, last_reading, last_tree};
ghost use Rattle.cxx_demangle.specs.Parts as parts;
ghost use Rattle.cxx_grammar.specs.Symbol.{parse_symbol};
ghost use Rattle.cxx_printer.specs.Parts.{base_name_text, context_text, parameters_text, return_type_text};
ghost use Rattle.cxx_printer.specs.Prints.{Prints};

use abi_scalars::utf8::is_utf8;
use cxx_printer::{
    Kind, Mode, Style, Symbol, has_qualifiers, kind_of, print_base_name, print_context,
    print_parameters, print_return_type, print_symbol,
};
use cxx_reader::{Invented, Reader, Reading, read_symbol, read_type_alone};
use cxx_tree::{Arena, Stop};
use growing_text::Text;
use std::alloc::{AllocError, Global};
use std::fmt::{self, Debug, Formatter, Write};
use std::marker::Model;
use std::mem::{replace, swap};
use std::str::from_utf8_unchecked;

/// The most counted productions that may nest in a symbol. The counted productions are encodings, names, types,
/// qualified types and template arguments.
pub const MAX_DEPTH: usize = 512;

/// The most bytes of an answer.
pub const MAX_TEXT: usize = 1_048_576;

// The greatest limit of what is kept to read a symbol.
const MAX_LIMIT: usize = 0xffff_ffff;

/// What is printed of a symbol, and how much may be kept to read it.
#[derive(Clone, Copy, PartialEq)]
pub struct Printing {
    /// What of a function is printed.
    pub mode: Mode,
    /// Whose texts are printed.
    pub style: Style,
    /// The most nodes, items of their lists, parts of their phrases, bytes of their texts, and substitution candidates,
    /// each, at most 4,294,967,295. `None` is 16 for each byte of the symbol and 4,194,304.
    pub limit: Option<usize>,
}

/// Why nothing is said of a symbol.
#[derive(Clone, Copy, Debug, PartialEq)]
pub enum DemangleError {
    /// An allocation failed.
    Memory,
    /// The symbol needs more than the limit that the caller set.
    Limit,
}

impl From<AllocError> for DemangleError {
    ghost use Rattle.cxx_demangle.specs.declared.demangler.DemangleError.TheVariants.{Memory};

    ghost from_gives = { λ _ e. e ≡ Memory };

    fn from(_error: AllocError) -> Self {
        DemangleError::Memory
    }
}

/// Demangles symbol after symbol in the same memory, and keeps the last answer, and the tree that the last symbol was
/// read as.
#[derive(Drop)]
pub struct Demangler {
    // Whether the last symbol had an answer, which is the text.
    is_answered: bool,
    text: Text,
    // What the last symbol was read as, if it was read.
    reading: Option<Reading>,
    // Where symbols are read. Its memory stays.
    arena: Arena,
}

impl Model for Demangler {
    ghost use Rattle.cxx_demangle.specs.Demangler.{LastAnswer, last_answer, KeepsAnswer};

    ghost Value = { LastAnswer };

    ghost view = { last_answer };

    ghost invariant = { KeepsAnswer };
}

// Returns the limit for a symbol of so many bytes.
fn limit_of(limit: Option<usize>, len: usize) -> usize
    ensures value { result ≡ min (spec.limit_of limit len) 4294967295 }
{
    match limit {
        Some(limit) => limit.min(MAX_LIMIT),
        None => (16 * len.min(MAX_LIMIT) + 4_194_304).min(MAX_LIMIT),
    }
}

// How a text is read.
#[derive(Clone, Copy)]
enum Entry {
    Symbol,
    // A type alone.
    Type,
}

// Reads all of a text.
fn read_entry(reader: &mut Reader, entry: Entry) -> Result<Reading, Stop>
    ensures reads { GivesReading result reader.new (spec.entry_parser entry (state reader.old)) }
    ensures keeps { OnOk result (Keeps reader.old reader.new) }
    ensures no_prefix { entry ≡ entries.Symbol → case_of_prefix reader.old.rest.now ≡ prefix.None
        → result ≡ Err Unreadable }
{
    match entry {
        Entry::Symbol => read_symbol(reader, MAX_DEPTH),
        Entry::Type => match read_type_alone(reader, MAX_DEPTH) {
            Ok(tree) => Ok(Reading {
                tree,
                is_block: false,
                suffix: None,
            }),
            Err(stop) => Err(stop),
        },
    }
}

// Returns the error if a symbol wasn't read to its end: the limit, if it was reached and the caller set it.
fn error_of(is_over: bool, limit: Option<usize>) -> DemangleError
    ensures limit { result ≡ errors.Limit → limit ≢ None }
{
    match limit {
        Some(_) if is_over => DemangleError::Limit,
        _ => DemangleError::Memory,
    }
}

// Reads a text, and keeps at most `limit` of each kind, or the default. Returns `None` if there is no reading within
// the limits of the grammar.
fn read(
    arena: &mut Arena,
    alloc: Global,
    text: &[u8],
    entry: Entry,
    limit: Option<usize>,
) -> Result<Option<Reading>, DemangleError>
    ensures gives { GivesWhole result arena.new (spec.parse_entry entry text.now) }
    ensures no_prefix { entry ≡ entries.Symbol → case_of_prefix text.now ≡ prefix.None → result ≡ Ok None }
    ensures limit { IsErrOf result errors.Limit → limit ≢ None }
    ensures within { IsWithin (spec.limit_of limit (length text.now)) arena.new }
{
    let most = limit_of(limit, text.len());
    // The reader owns the arena while it reads.
    let mut cleared = replace(arena, Arena::new(alloc));
    cleared.clear(most);
    let mut reader = Reader {
        rest: text,
        arena: cleared,
        replaced: 0,
        invented: Invented {
            types: 0,
            values: 0,
            templates: 0,
        },
        level: 0,
        alloc,
    };
    let read = read_entry(&mut reader, entry);
    swap(arena, &mut reader.arena);
    // Its clauses say that the limit is kept.
    arena.limit();
    match read {
        Ok(reading) => Ok(Some(reading)),
        // What wasn't read to its end leaves nothing.
        Err(Stop::Unreadable) => {
            arena.clear(most);
            Ok(None)
        }
        Err(Stop::Memory) => {
            let is_over = arena.is_over();
            arena.clear(most);
            Err(error_of(is_over, limit))
        }
    }
}

// Makes the text the printing of what was read.
fn print(
    arena: &Arena,
    reading: Reading,
    printing: Printing,
    text: &mut Text,
) -> Result<(), AllocError>
    requires within { IsReading arena.now reading }
    ensures text { OnOk result (text.new ≡ text_of printing (reading_at arena.now reading)) }
{
    text.clear();
    let symbol = Symbol {
        tree: reading.tree,
        is_block: reading.is_block,
        suffix: reading.suffix,
    };
    print_symbol(arena, symbol, printing.mode, printing.style, text)
}

// Returns whether a text may be an answer.
fn is_answer(text: &[u8]) -> bool
    ensures yes { result ≡ true → IsText text.now }
    ensures no { result ≡ false → ¬ (IsText text.now) }
{
    text.len() <= MAX_TEXT && is_utf8(text)
}

impl Demangler {
    ghost use mathlib.Core.Option.{none};
    ghost use denote.Follow.{follows_so};
    ghost use Rattle.cxx_demangle.specs.contracts.demangler.Demangler.{the_row};

    /// Returns a value that has read no symbol. Allocates nothing.
    pub fn new(alloc: Global) -> Self
        ensures empty { (result.text ≡ None) × (result.kept ≡ None) }
        ensures nothing { IsWithin 0 result.store }
    {
        Demangler {
            is_answered: false,
            text: Text::new(alloc),
            reading: None,
            arena: Arena::new(alloc),
        }
    }

    /// Reads a symbol and keeps what is printed of it, which `text` returns afterwards. Returns `true` if the symbol
    /// has an answer.
    ///
    /// The symbol may be any text. It is read as an encoding after the prefix `_Z` or `__Z`, with all that follows from a
    /// dot (Itanium C++ ABI 5.1.1), or as the function of a block after `___Z` or `____Z`.
    ///
    /// A symbol has no answer in three cases. The grammar doesn't read all of it within the limits: at most `MAX_DEPTH`
    /// counted productions nest, no tree is higher than 1,024, none has a work above 1,048,576, and at most 65,536
    /// nodes are replaced. Or what is printed has more than `MAX_TEXT` bytes, or it isn't UTF-8.
    ///
    /// What is kept to read the symbol is within the limit of `printing`, whether it has an answer or not.
    ///
    /// Returns an error if an allocation fails, or if the symbol needs more than that limit: `Limit`, if the caller set
    /// it. Then the value has no answer, and it can be used again.
    pub fn prepare(
        &mut self,
        alloc: Global,
        symbol: &str,
        printing: Printing,
    ) -> Result<bool, DemangleError>
        ensures answer { IfOk result (λ _. IsAnswer printing symbol.now self.new.text) }
        ensures found { IfOk result (λ found. found ≡ is_some self.new.text) }
        ensures one { HasAtMostOneReading symbol.now }
        ensures no_prefix { case_of_prefix symbol.now ≡ prefix.None → (result ≡ Ok false) × (self.new.text ≡ None) }
        ensures err { OnErr result ((self.new.text ≡ None) × (self.new.kept ≡ None)) }
        ensures limit { IsErrOf result errors.Limit → printing.limit ≢ None }
        ensures reads { IfOk result (λ _. parse_symbol symbol.now ≡ last_reading self.new) }
        ensures bounds { HasBounds printing symbol.now self.new.store }
    {
        self.prepare_as(alloc, symbol, Entry::Symbol, printing)
    }

    /// Reads a type alone, as a program names types at run time, and keeps what is printed of it, which `text` returns
    /// afterwards. Returns `true` if the type has an answer. All else is as for symbols. `i` is `int`, and `P1A` is `A*`.
    pub fn prepare_type(
        &mut self,
        alloc: Global,
        text: &str,
        printing: Printing,
    ) -> Result<bool, DemangleError>
        ensures answer { IfOk result (λ _. IsTypeAnswer printing text.now self.new.text) }
        ensures found { IfOk result (λ found. found ≡ is_some self.new.text) }
        ensures err { OnErr result ((self.new.text ≡ None) × (self.new.kept ≡ None)) }
        ensures limit { IsErrOf result errors.Limit → printing.limit ≢ None }
        ensures reads { IfOk result (λ _. spec.parse_entry entries.Type text.now ≡ last_reading self.new) }
        ensures bounds { HasBounds printing text.now self.new.store }
    {
        self.prepare_as(alloc, text, Entry::Type, printing)
    }

    // Reads a text, and keeps what is printed of it.
    fn prepare_as(
        &mut self,
        alloc: Global,
        text: &str,
        entry: Entry,
        printing: Printing,
    ) -> Result<bool, DemangleError>
        ensures answer { IfOk result (λ _. IsAnswerOf printing (spec.parse_entry entry text.now) self.new.text) }
        ensures found { IfOk result (λ found. found ≡ is_some self.new.text) }
        ensures no_prefix { entry ≡ entries.Symbol → case_of_prefix text.now ≡ prefix.None
            → (result ≡ Ok false) × (self.new.text ≡ None) }
        ensures err { OnErr result ((self.new.text ≡ None) × (self.new.kept ≡ None)) }
        ensures limit { IsErrOf result errors.Limit → printing.limit ≢ None }
        ensures reads { IfOk result (λ _. spec.parse_entry entry text.now ≡ last_reading self.new) }
        ensures bounds { HasBounds printing text.now self.new.store }
    {
        self.is_answered = false;
        self.reading = None;
        let found = read(
            &mut self.arena,
            alloc,
            text.as_bytes(),
            entry,
            printing.limit,
        )?;
        let Some(reading) = found else {
            return Ok(false);
        };
        print(&self.arena, reading, printing, &mut self.text)?;
        self.reading = Some(reading);
        let is_answered = is_answer(self.text.as_slice());
        self.is_answered = is_answered;
        Ok(is_answered)
    }

    /// Returns the answer to the last symbol, borrowed until the next call. Returns `None` if that symbol had none,
    /// after an error, and before the first symbol.
    pub fn text(&self) -> Option<&str>
        ensures value { option_map (λ text. text.now) result ≡ self.now.text }
    {
        if !self.is_answered {
            return None;
        }
        Some(unsafe { from_utf8_unchecked(self.text.as_slice()) })
    }

    /// Returns what is printed of a symbol, borrowed until the next call, or `None` if it has no answer, as `prepare`
    /// says. The value keeps the answer for `text`. Returns an error as `prepare` does; then the value keeps nothing.
    pub fn demangle<'a>(
        &'a mut self,
        alloc: Global,
        symbol: &'a str,
        printing: Printing,
    ) -> Result<Option<&'a str>, DemangleError>
        ensures answer { IfOk result (λ found. IsAnswer printing symbol.now (option_map (λ text. text.now) found)) }
        ensures one { HasAtMostOneReading symbol.now }
        ensures no_prefix { case_of_prefix symbol.now ≡ prefix.None → result ≡ Ok None }
        ensures limit { IsErrOf result errors.Limit → printing.limit ≢ None }
        // `last` is the value after the borrow. It keeps the text that was returned, and none after an error.
        ensures* kept { sem 𝓛 (follows_so the_row the_row self.entry.ghost_name none (λ _ _. ⊤)
            (λ last. MatchResult result
            (λ found. (last.text ≡ option_map (λ text. text.now) found)
            × (parse_symbol symbol.now ≡ last_reading last)
            × HasBounds printing symbol.now last.store)
            (λ _. (last.text ≡ None) × (last.kept ≡ None) × HasBounds printing symbol.now last.store))) }
    {
        self.prepare(alloc, symbol, printing)?;
        Ok(self.text())
    }

    /// Returns what is printed of a type alone, as `demangle` does of a symbol, or `None` if it has no answer, as
    /// `prepare_type` says.
    pub fn demangle_type<'a>(
        &'a mut self,
        alloc: Global,
        text: &'a str,
        printing: Printing,
    ) -> Result<Option<&'a str>, DemangleError>
        ensures answer { IfOk result (λ found. IsTypeAnswer printing text.now (option_map (λ text. text.now) found)) }
        ensures limit { IsErrOf result errors.Limit → printing.limit ≢ None }
        // `last` is the value after the borrow. It keeps the text that was returned, and none after an error.
        ensures* kept { sem 𝓛 (follows_so the_row the_row self.entry.ghost_name none (λ _ _. ⊤)
            (λ last. MatchResult result
            (λ found. (last.text ≡ option_map (λ text. text.now) found)
            × (spec.parse_entry entries.Type text.now ≡ last_reading last)
            × HasBounds printing text.now last.store)
            (λ _. (last.text ≡ None) × (last.kept ≡ None) × HasBounds printing text.now last.store))) }
    {
        self.prepare_type(alloc, text, printing)?;
        Ok(self.text())
    }

    /// Returns what the last symbol stands for, whether it had an answer or not. Returns `None` if it wasn't read, after
    /// an error, and before the first symbol.
    pub fn kind(&self) -> Option<Kind>
        ensures value { result ≡ parts.kind_of (last_tree self.now) }
    {
        match self.reading {
            None => None,
            Some(reading) => Some(kind_of(&self.arena, reading.tree)),
        }
    }

    /// Returns whether the last symbol is that of a member function with qualifiers, such as `const` or `&&`.
    pub fn has_qualifiers(&self) -> bool
        ensures value { result ≡ parts.has_qualifiers (last_tree self.now) }
    {
        match self.reading {
            None => false,
            Some(reading) => has_qualifiers(&self.arena, reading.tree),
        }
    }

    /// Appends the base of the name of the last symbol, if that is the one of a function or of data: what is left
    /// without scopes, template arguments, ABI tags and module. Where `kind` is another, nothing is appended by this
    /// method, nor by the next three.
    pub fn print_base_name(&self, style: Style, out: &mut Text) -> Result<(), AllocError>
        ensures prints { Prints result out.old out.new (parts.part_of base_name_text style (last_tree self.now)) }
    {
        match self.reading {
            None => Ok(()),
            Some(reading) => print_base_name(&self.arena, reading.tree, style, out),
        }
    }

    /// Appends the scopes around the base of the name, from the outermost one, with `::` between. A name that isn't in
    /// a scope has none.
    pub fn print_context(&self, style: Style, out: &mut Text) -> Result<(), AllocError>
        ensures prints { Prints result out.old out.new (parts.part_of context_text style (last_tree self.now)) }
    {
        match self.reading {
            None => Ok(()),
            Some(reading) => print_context(&self.arena, reading.tree, style, out),
        }
    }

    /// Appends the parameters of a function, in parentheses.
    pub fn print_parameters(&self, style: Style, out: &mut Text) -> Result<(), AllocError>
        ensures prints { Prints result out.old out.new (parts.part_of parameters_text style (last_tree self.now)) }
    {
        match self.reading {
            None => Ok(()),
            Some(reading) => print_parameters(&self.arena, reading.tree, style, out),
        }
    }

    /// Appends the return type of a function, if its symbol has one.
    pub fn print_return_type(&self, style: Style, out: &mut Text) -> Result<(), AllocError>
        ensures prints { Prints result out.old out.new (parts.part_of return_type_text style (last_tree self.now)) }
    {
        match self.reading {
            None => Ok(()),
            Some(reading) => print_return_type(&self.arena, reading.tree, style, out),
        }
    }
}

impl Debug for Demangler {
    fn fmt<W: Write>(&self, f: &mut Formatter<W>) -> fmt::Result {
        f.write_str("Demangler")
    }
}
