//! Symbols (Itanium C++ ABI 5.1.1).
#![tactic(auto, using(crate::proofs::Kept::readers), unfolding(cxx_tree::specs::Stored::stands, crate::specs::Outcome::reading_at, cxx_grammar::specs::Parses::past_word_if, cxx_grammar::specs::Symbol::symbol_as, cxx_grammar::specs::Symbol::parse_block_mark, cxx_grammar::specs::Symbol::parse_closed_type))]

ghost use Rattle.std.specs.Prelude.{◌≡◌, ℕ, ◌≤◌, length, OnOk, Err};
ghost use Rattle.cxx_grammar.specs.Symbol as spec;
ghost use Rattle.cxx_grammar.specs.Cases.{case_of_prefix};
ghost use Rattle.cxx_grammar.specs.declared.cases.PrefixCase.TheVariants as prefix;
ghost use Rattle.cxx_tree.specs.declared.arena.Stop.TheVariants.{Unreadable};
ghost use Rattle.cxx_grammar.specs.Symbol.{productions};
ghost use Rattle.cxx_reader.specs.Outcome.{state, Keeps, Gives, GivesReading, GivesText, GivesUnit, CopiesSuffix};

use crate::cases::{begins, prefix_case};
use crate::encodings::read_encoding;
use crate::reader::Reader;
use crate::types::read_type;
use cxx_grammar::cases::PrefixCase;
use cxx_tree::{NodeText, Stop};

/// What a symbol is read as.
#[derive(Clone, Copy)]
pub struct Reading {
    /// The index of a node.
    pub tree: u32,
    /// The symbol is that of a block's function.
    pub is_block: bool,
    /// What follows from a dot.
    pub suffix: Option<NodeText>,
}

/// Reads `<mangled-name> ::= _Z <encoding> [. <vendor-specific suffix>]`, which is all of the bytes. At most `depth`
/// counted productions may nest.
pub fn read_symbol(reader: &mut Reader, depth: usize) -> Result<Reading, Stop>
    ensures reads { GivesReading result reader.new (spec.parse_mangled_name (productions depth) (state reader.old)) }
    ensures keeps { OnOk result (Keeps reader.old reader.new) }
    ensures no_prefix { case_of_prefix reader.old.rest.now ≡ prefix.None → result ≡ Err Unreadable }
{
    match prefix_case(reader.rest) {
        PrefixCase::Plain(n) => read_plain_symbol(reader, depth, n),
        PrefixCase::Block(n) => read_block_symbol(reader, depth, n),
        PrefixCase::None => Err(Stop::Unreadable),
    }
}

// Reads `<encoding> [. <vendor-specific suffix>]`, behind a prefix of n bytes.
fn read_plain_symbol(reader: &mut Reader, depth: usize, n: usize) -> Result<Reading, Stop>
    ensures reads { GivesReading result reader.new (spec.parse_plain_symbol (productions depth) n
        (state reader.old)) }
    ensures keeps { OnOk result (Keeps reader.old reader.new) }
{
    reader.skip(n);
    let tree = tri!(read_encoding(reader, depth));
    let rest = tri!(reader.read_rest());
    let suffix = tri!(reader.make_suffix(rest));
    Ok(Reading {
        tree,
        is_block: false,
        suffix,
    })
}

// Reads `<encoding> _block_invoke [<digit>+ | _ <digit>+] [. <vendor-specific suffix>]`, behind a prefix of n bytes.
fn read_block_symbol(reader: &mut Reader, depth: usize, n: usize) -> Result<Reading, Stop>
    ensures reads { GivesReading result reader.new (spec.parse_block_symbol (productions depth) n
        (state reader.old)) }
    ensures keeps { OnOk result (Keeps reader.old reader.new) }
{
    reader.skip(n);
    let tree = tri!(read_encoding(reader, depth));
    tri!(reader.skip_block_mark());
    tri!(reader.read_rest());
    Ok(Reading {
        tree,
        is_block: true,
        suffix: None,
    })
}

/// Reads `<type>`, which is all of the bytes and has no template parameter. At most `depth` counted productions may
/// nest.
pub fn read_type_alone(reader: &mut Reader, depth: usize) -> Result<u32, Stop>
    ensures reads { Gives result reader.new (spec.parse_closed_type (productions depth) (state reader.old)) }
    ensures keeps { OnOk result (Keeps reader.old reader.new) }
{
    let t = tri!(read_type(reader, depth, false));
    if !reader.rest.is_empty() {
        return Err(Stop::Unreadable);
    }
    reader.closed(t)
}

impl<'a> Reader<'a> {
    // Reads all bytes that are left: none, or a dot and others.
    fn read_rest(&mut self) -> Result<&'a [u8], Stop>
        ensures reads { GivesText result self.new (spec.parse_rest (state self.old)) }
        ensures arena { self.new.arena ≡ self.old.arena }
        ensures within { length self.new.rest.now ≤ length self.old.rest.now }
    {
        let rest = self.rest;
        if !rest.is_empty() && !begins(rest, b'.') {
            return Err(Stop::Unreadable);
        }
        self.rest = &[];
        Ok(rest)
    }

    // Makes the text of a suffix, if there is one.
    fn make_suffix(&mut self, rest: &[u8]) -> Result<Option<NodeText>, Stop>
        ensures suffix { CopiesSuffix result self.new.arena (spec.suffix_of rest.now) }
        ensures keeps { Keeps self.old self.new }
        ensures state { state self.new ≡ state self.old }
    {
        if rest.is_empty() {
            return Ok(None);
        }
        let text = tri!(self.text(rest));
        Ok(Some(text))
    }

    // Skips `_block_invoke [<digit>+ | _ <digit>+]`.
    fn skip_block_mark(&mut self) -> Result<(), Stop>
        ensures reads { GivesUnit result self.new (spec.parse_block_mark (state self.old)) }
        ensures arena { self.new.arena ≡ self.old.arena }
        ensures within { OnOk result (length self.new.rest.now ≤ length self.old.rest.now) }
    {
        match self.rest {
            [
                b'_',
                b'b',
                b'l',
                b'o',
                b'c',
                b'k',
                b'_',
                b'i',
                b'n',
                b'v',
                b'o',
                b'k',
                b'e',
                ..
            ] => self.skip(13),
            _ => return Err(Stop::Unreadable),
        }
        if self.skip_letter(b'_') {
            tri!(self.read_some_digits());
            return Ok(());
        }
        self.read_digits();
        Ok(())
    }
}
