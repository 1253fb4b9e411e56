//! Function parameters (Itanium C++ ABI 5.1.6.1).
#![tactic(auto, using(crate::proofs::Kept::readers), unfolding(cxx_tree::specs::Stored::stands, cxx_tree::specs::Grows::Makes, cxx_grammar::specs::Parses::past_word_if, cxx_grammar::specs::Leaves::parse_function_param))]

ghost use Rattle.std.specs.Prelude.{◌≡◌, ◌<◌, ◌≤◌, ◌++◌, codes, length, OnOk};
ghost use Rattle.cxx_grammar.specs.Leaves as leaves;
ghost use Rattle.cxx_grammar.specs.Ordinals.{ordinal_of};
ghost use Rattle.cxx_grammar.specs.Parses.{make};
ghost use Rattle.cxx_tree.specs.Phrases.{word};
ghost use Rattle.cxx_reader.specs.Outcome.{state, Keeps, Moves, Gives, Copies};

use crate::ordinals::{ordinal, without_zeros};
use crate::reader::Reader;
use cxx_tree::{NodeText, Stop};

impl<'a> Reader<'a> {
    /// Reads `<function-param> ::= fpT | fp [<CV-qualifiers>] [<number>] _ | fL <number> p [<CV-qualifiers>] [<number>] _`.
    pub fn read_function_param(&mut self) -> Result<u32, Stop>
        ensures reads { Gives result self.new (leaves.parse_function_param (state self.old)) }
        ensures moves { OnOk result (Moves self.old self.new) }
    {
        match self.rest {
            [b'f', b'p', b'T', ..] => {
                self.skip(3);
                self.arena.make_fixed(b"this")
            }
            [b'f', b'p', ..] => {
                self.skip(2);
                self.read_param_number()
            }
            [b'f', b'L', ..] => {
                self.skip(2);
                self.read_outer_param()
            }
            _ => Err(Stop::Unreadable),
        }
    }

    // Reads `<number> p [<CV-qualifiers>] [<number>] _`.
    fn read_outer_param(&mut self) -> Result<u32, Stop>
        ensures reads { Gives result self.new (leaves.parse_outer_number (state self.old)) }
        ensures moves { OnOk result (Moves self.old self.new) }
    {
        tri!(self.read_some_digits());
        tri!(self.expect(b'p'));
        self.read_param_number()
    }

    // Reads `[<CV-qualifiers>] [<number>] _`.
    fn read_param_number(&mut self) -> Result<u32, Stop>
        ensures reads { Gives result self.new (leaves.parse_param_number (state self.old)) }
        ensures moves { OnOk result (Moves self.old self.new) }
    {
        self.read_cv();
        let number = self.read_digits();
        tri!(self.expect(b'_'));
        self.make_param(number)
    }

    // Makes the name of a parameter.
    fn make_param(&mut self, number: &[u8]) -> Result<u32, Stop>
        ensures reads { Gives result self.new (leaves.make_param number.now (state self.old)) }
        ensures keeps { OnOk result (Keeps self.old self.new) }
        ensures rest { OnOk result (self.new.rest.now ≡ self.old.rest.now) }
    {
        let llvm = tri!(self.joined(b"fp", number, b""));
        let gnu = tri!(self.param_ordinal(number));
        self.arena.make_word(llvm, gnu)
    }

    // Makes the text of a parameter in GNU's style.
    fn param_ordinal(&mut self, number: &[u8]) -> Result<NodeText, Stop>
        ensures text { Copies result self.new.arena (codes "{parm#" ++ (ordinal_of number.now ++ codes "}")) }
        ensures keeps { Keeps self.old self.new }
        ensures state { state self.new ≡ state self.old }
        ensures rest { self.new.rest.now ≡ self.old.rest.now }
    {
        match ordinal(self.alloc, number) {
            Ok(digits) => self.joined(b"{parm#", without_zeros(&digits), b"}"),
            Err(_) => Err(Stop::Memory),
        }
    }

    /// Makes a text of three.
    pub fn joined(&mut self, front: &[u8], middle: &[u8], behind: &[u8]) -> Result<NodeText, Stop>
        ensures text { Copies result self.new.arena (front.now ++ (middle.now ++ behind.now)) }
        ensures keeps { Keeps self.old self.new }
        ensures state { state self.new ≡ state self.old }
        ensures rest { self.new.rest.now ≡ self.old.rest.now }
    {
        match self.arena.joined_text(front, middle, behind) {
            Ok(text) => Ok(text),
            Err(_) => Err(Stop::Memory),
        }
    }
}
