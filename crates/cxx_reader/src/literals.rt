//! Literals that have no type inside (Itanium C++ ABI 5.1.6, `<expr-primary>`).
#![tactic(auto, using(crate::proofs::Kept::readers), unfolding(cxx_tree::specs::Stored::stands, cxx_tree::specs::Grows::Makes, cxx_grammar::specs::Parses::past_word_if, cxx_grammar::specs::Leaves::parse_bool, cxx_grammar::specs::Leaves::parse_null, cxx_grammar::specs::Leaves::parse_integer, cxx_grammar::specs::Leaves::parse_float, cxx_grammar::specs::Floats::float_digits))]

ghost use Rattle.std.specs.Prelude.{◌≡◌, ◌<◌, ◌≤◌, length, OnOk, true};
ghost use Rattle.cxx_grammar.specs.Leaves as leaves;
ghost use Rattle.cxx_grammar.specs.Floats.{are_hex, float_text, float_digits};
ghost use Rattle.cxx_tree.specs.Phrases.{literal};
ghost use Rattle.cxx_grammar.specs.Parses.{make};
ghost use Rattle.cxx_reader.specs.Outcome.{state, Keeps, Moves, Gives, GivesNumber, GivesText, Copies};

use crate::floats::{are_hex, float_len, float_text, float_type};
use crate::reader::Reader;
use crate::words::integer_of;
use abi_scalars::texts::number_text;
use cxx_grammar::cases::FloatFormat;
use cxx_tree::{NodeText, Stop};

impl<'a> Reader<'a> {
    /// Reads `<number> E`. Returns the number as it is written.
    pub fn read_number_end(&mut self) -> Result<&'a [u8], Stop>
        ensures reads { GivesNumber result self.new (leaves.parse_number_end (state self.old)) }
        ensures moves { OnOk result (Moves self.old self.new) }
        ensures arena { self.new.arena ≡ self.old.arena }
    {
        let Some((number, rest)) = number_text(self.rest) else {
            return Err(Stop::Unreadable);
        };
        match rest {
            [b'E', rest @ ..] => {
                self.rest = rest;
                Ok(number)
            }
            _ => Err(Stop::Unreadable),
        }
    }

    /// Reads `b0E` or `b1E`.
    pub fn read_bool(&mut self) -> Result<u32, Stop>
        ensures reads { Gives result self.new (leaves.parse_bool (state self.old)) }
        ensures moves { OnOk result (Moves self.old self.new) }
    {
        match self.rest {
            [_, b'0', b'E', rest @ ..] => {
                self.rest = rest;
                self.arena.make_leaf(false, b"false", b"false")
            }
            [_, b'1', b'E', rest @ ..] => {
                self.rest = rest;
                self.arena.make_leaf(false, b"true", b"true")
            }
            _ => Err(Stop::Unreadable),
        }
    }

    /// Reads `DnE` or `Dn0E`.
    pub fn read_null(&mut self) -> Result<u32, Stop>
        ensures reads { Gives result self.new (leaves.parse_null (state self.old)) }
        ensures moves { OnOk result (Moves self.old self.new) }
    {
        match self.rest {
            [_, _, b'E', rest @ ..] => {
                self.rest = rest;
                self.arena
                    .make_leaf(false, b"nullptr", b"decltype(nullptr)")
            }
            [_, _, b'0', b'E', rest @ ..] => {
                self.rest = rest;
                self.arena
                    .make_leaf(false, b"nullptr", b"(decltype(nullptr))0")
            }
            _ => Err(Stop::Unreadable),
        }
    }

    /// Reads the letter of an integer type, and `<number> E`.
    pub fn read_integer(&mut self) -> Result<u32, Stop>
        ensures reads { Gives result self.new (leaves.parse_integer (state self.old)) }
        ensures moves { OnOk result (Moves self.old self.new) }
    {
        let Some(around) = integer_of(self.rest) else {
            return Err(Stop::Unreadable);
        };
        self.skip(1);
        let number = tri!(self.read_number_end());
        self.arena.make_integer(around.front, number, around.behind)
    }

    /// Reads the letter of a floating type, the digits of a number of this format, and `E`.
    pub fn read_float(&mut self, format: FloatFormat) -> Result<u32, Stop>
        ensures reads { Gives result self.new (leaves.parse_float format (state self.old)) }
        ensures moves { OnOk result (Moves self.old self.new) }
    {
        self.skip(1);
        let digits = tri!(self.read_float_digits(format));
        if !are_hex(digits) {
            return Err(Stop::Unreadable);
        }
        tri!(self.expect(b'E'));
        self.make_float_literal(format, digits)
    }

    // Reads as many digits as the format has.
    fn read_float_digits(&mut self, format: FloatFormat) -> Result<&'a [u8], Stop>
        ensures reads { GivesText result self.new (leaves.parse_float_digits format (state self.old)) }
        ensures arena { self.new.arena ≡ self.old.arena }
        ensures within { OnOk result (length self.new.rest.now ≤ length self.old.rest.now) }
    {
        let len = float_len(format);
        if self.rest.len() < len {
            return Err(Stop::Unreadable);
        }
        let digits = &self.rest[..len];
        self.rest = &self.rest[len..];
        Ok(digits)
    }

    // Makes a literal of a floating type.
    fn make_float_literal(&mut self, format: FloatFormat, digits: &[u8]) -> Result<u32, Stop>
        requires hex { are_hex digits.now ≡ true }
        ensures reads { Gives result self.new (make (literal (float_text format digits.now)
            (float_digits format digits.now)) (state self.old)) }
        ensures keeps { OnOk result (Keeps self.old self.new) }
        ensures rest { OnOk result (self.new.rest.now ≡ self.old.rest.now) }
    {
        let llvm = tri!(self.float_number(format, digits));
        let gnu = tri!(self.joined(float_type(format), digits, b"]"));
        self.arena.make_literal(llvm, gnu)
    }

    // Makes the text of a literal of a floating type in LLVM's style.
    fn float_number(&mut self, format: FloatFormat, digits: &[u8]) -> Result<NodeText, Stop>
        requires hex { are_hex digits.now ≡ true }
        ensures text { Copies result self.new.arena (float_text format digits.now) }
        ensures keeps { Keeps self.old self.new }
        ensures state { state self.new ≡ state self.old }
        ensures rest { self.new.rest.now ≡ self.old.rest.now }
    {
        match float_text(self.alloc, format, digits) {
            Ok(text) => self.text(&text),
            Err(_) => Err(Stop::Memory),
        }
    }
}
