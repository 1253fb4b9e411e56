//! What of types holds no type.
#![tactic(auto, using(crate::proofs::Kept::readers), unfolding(cxx_tree::specs::Stored::stands, cxx_tree::specs::Stored::tree_of, cxx_tree::specs::Stored::plain_tree, cxx_tree::specs::Stored::IsBelow, cxx_tree::specs::Stored::IsPlainBelow, cxx_tree::specs::Grows::Makes, cxx_grammar::specs::Parses::past_word_if, cxx_grammar::specs::Types::parse_function_mark, cxx_grammar::specs::Leaves::parse_float_type))]

ghost use Rattle.std.specs.Prelude.{◌≡◌, ℕ, ◌<◌, ◌≤◌, ◌++◌, codes, length, take, OnOk, IfSome, Some, option_map};
ghost use Rattle.cxx_tree.specs.Stored.{stands};
ghost use Rattle.cxx_tree.specs.Kept.{KeepsNodes, IsNode};
ghost use Rattle.cxx_grammar.specs.Leaves as leaves;
ghost use Rattle.cxx_grammar.specs.Rows as rows;
ghost use Rattle.cxx_grammar.specs.Parses.{make};
ghost use Rattle.cxx_grammar.specs.Types as spec;
ghost use Rattle.cxx_reader.specs.Outcome.{state, trees_behind, Keeps, Moves, Gives, GivesText, GivesUnit};

use crate::cases::{begins_brain, begins_digit};
use crate::reader::Reader;
use abi_scalars::numerals::Radix;
use abi_scalars::texts::digits;
use cxx_tree::{Cv, Node, NodeText, Plain, Stop};

impl<'a> Reader<'a> {
    /// Reads `Do`.
    pub fn read_noexcept(&mut self) -> Result<u32, Stop>
        ensures reads { Gives result self.new (spec.parse_noexcept (state self.old)) }
        ensures keeps { OnOk result (Keeps self.old self.new) }
    {
        self.skip(2);
        self.arena.make_fixed(b"noexcept")
    }

    /// Skips `[Dx] F [Y]`.
    pub fn skip_function_mark(&mut self) -> Result<(), Stop>
        ensures reads { GivesUnit result self.new (spec.parse_function_mark (state self.old)) }
        ensures arena { self.new.arena ≡ self.old.arena }
        ensures takes { OnOk result (length self.new.rest.now < length self.old.rest.now) }
    {
        if let [b'D', b'x', ..] = self.rest {
            self.skip(2);
        }
        tri!(self.expect(b'F'));
        self.skip_letter(b'Y');
        Ok(())
    }

    /// Reads `[<ref-qualifier>] E`, and makes the type of a function whose parameters are the nodes that are collected
    /// from `from` on. They are collected no more.
    pub fn make_function_type(
        &mut self,
        cv: Cv,
        exception: Option<u32>,
        ret: u32,
        from: usize,
    ) -> Result<u32, Stop>
        requires exception { IfSome exception (IsNode self.old.arena) }
        requires ret { IsNode self.old.arena ret }
        requires within { from ≤ length self.old.arena.pending }
        ensures reads { Gives result self.new (spec.parse_function_end cv
            (option_map (stands self.old.arena) exception) (stands self.old.arena ret)
            (trees_behind from self.old.arena) (state self.old)) }
        ensures grows { OnOk result (KeepsNodes self.old.arena self.new.arena) }
        ensures pending { OnOk result (self.new.arena.pending ≡ take from self.old.arena.pending) }
        ensures within { OnOk result (length self.new.rest.now ≤ length self.old.rest.now) }
    {
        let ref_qual = self.read_ref_qual();
        tri!(self.expect(b'E'));
        let params = tri!(self.arena.list_from(from));
        self.arena
            .make_function_type(ret, params, cv, ref_qual, exception)
    }

    /// Reads `<digit>+`.
    pub fn read_some_digits(&mut self) -> Result<&'a [u8], Stop>
        ensures reads { GivesText result self.new (leaves.parse_some_digits (state self.old)) }
        ensures arena { self.new.arena ≡ self.old.arena }
        ensures within { OnOk result (length self.new.rest.now ≤ length self.old.rest.now) }
    {
        if !begins_digit(self.rest) {
            return Err(Stop::Unreadable);
        }
        Ok(self.read_digits())
    }

    /// Reads `<digit>*`.
    pub fn read_digits(&mut self) -> &'a [u8]
        ensures reads { leaves.parse_digits (state self.old) ≡ Some (result.now, state self.new) }
        ensures arena { self.new.arena ≡ self.old.arena }
        ensures within { length self.new.rest.now ≤ length self.old.rest.now }
    {
        let (read, rest) = digits(Radix::Decimal, self.rest);
        self.rest = rest;
        read
    }

    /// Reads the number that is the size of an array, of a vector or of an integer.
    pub fn read_number_size(&mut self) -> Result<u32, Stop>
        ensures reads { Gives result self.new (rows.parse_number_size (state self.old)) }
        ensures keeps { OnOk result (Keeps self.old self.new) }
    {
        let number = self.read_digits();
        self.arena.make_name(number)
    }

    /// Reads `DF16b`, `DF <number> _` or `DF <number> x`.
    #[inline(never)]
    pub fn read_float_type(&mut self) -> Result<u32, Stop>
        ensures reads { Gives result self.new (leaves.parse_float_type (state self.old)) }
        ensures moves { OnOk result (Moves self.old self.new) }
    {
        self.skip(2);
        if begins_brain(self.rest) {
            self.skip(3);
            return self.arena.make_fixed(b"std::bfloat16_t");
        }
        let number = tri!(self.read_some_digits());
        if self.skip_letter(b'x') {
            return self.make_float(number, b"x");
        }
        tri!(self.expect(b'_'));
        self.make_float(number, b"")
    }

    // Makes the name of a floating type of a size.
    fn make_float(&mut self, number: &[u8], behind: &'static [u8]) -> Result<u32, Stop>
        ensures reads { Gives result self.new (leaves.make_name (codes "_Float" ++ (number.now ++ behind.now))
            (state self.old)) }
        ensures keeps { OnOk result (Keeps self.old self.new) }
        ensures rest { OnOk result (self.new.rest.now ≡ self.old.rest.now) }
    {
        match self.arena.joined_text(b"_Float", number, behind) {
            Ok(name) => self.make(Node::Plain(Plain::Name(name))),
            Err(_) => Err(Stop::Memory),
        }
    }

    /// Makes a complex or an imaginary type.
    pub fn make_suffixed(&mut self, t: u32, is_complex: bool) -> Result<u32, Stop>
        requires t { IsNode self.old.arena t }
        ensures reads { Gives result self.new (make (spec.suffixed_by is_complex (stands self.old.arena t))
            (state self.old)) }
        ensures keeps { OnOk result (Keeps self.old self.new) }
        ensures rest { OnOk result (self.new.rest.now ≡ self.old.rest.now) }
    {
        if is_complex {
            return self.arena.make_suffixed(
                t,
                NodeText::Fixed(b" complex"),
                NodeText::Fixed(b" _Complex"),
            );
        }
        self.arena.make_suffixed(
            t,
            NodeText::Fixed(b" imaginary"),
            NodeText::Fixed(b" _Imaginary"),
        )
    }
}
