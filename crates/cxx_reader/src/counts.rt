//! Which one of several entities without a name it is.
#![tactic(auto, using(crate::proofs::Kept::readers), unfolding(cxx_tree::specs::Grows::Makes, cxx_tree::specs::Stored::stands, crate::specs::Outcome::list_trees))]

ghost use Rattle.std.specs.Prelude.{◌≡◌, ◌<◌, ◌≤◌, length, option_map, OnOk};
ghost use Rattle.cxx_tree.specs.Phrases.{closure};
ghost use Rattle.cxx_tree.specs.Stored.{size, stands, text_at, IsText};
ghost use Rattle.cxx_grammar.specs.Ordinals.{ordinal_of};
ghost use Rattle.cxx_grammar.specs.Parses.{make};
ghost use Rattle.cxx_grammar.specs.Unnamed as spec;
ghost use Rattle.cxx_reader.specs.Outcome.{state, list_trees, Keeps, Moves, Gives, GivesText, Copies, CopiesCount, IsSignature, signature_at};

use crate::ordinals::{ordinal, without_zeros};
use crate::reader::Reader;
use cxx_tree::bind::Others;
use cxx_tree::{NodeText, Signature, Stop};

/// A count as it is written, and its ordinal.
#[derive(Clone, Copy)]
pub struct Count {
    pub text: NodeText,
    pub ordinal: NodeText,
}

impl<'a> Reader<'a> {
    /// Reads `Ut [<number>] _`.
    pub fn read_unnamed(&mut self) -> Result<u32, Stop>
        ensures reads { Gives result self.new (spec.parse_unnamed (state self.old)) }
        ensures moves { OnOk result (Moves self.old self.new) }
    {
        self.skip(2);
        let digits = tri!(self.read_count());
        let count = tri!(self.make_count(digits, digits));
        self.arena.make_unnamed(count.text, count.ordinal)
    }

    /// Reads `Ub [<number>] _`.
    pub fn read_block(&mut self) -> Result<u32, Stop>
        ensures reads { Gives result self.new (spec.parse_block (state self.old)) }
        ensures moves { OnOk result (Moves self.old self.new) }
    {
        self.skip(2);
        tri!(self.read_count());
        self.arena.make_fixed(b"'block-literal'")
    }

    /// Reads `[<number>] _` behind the signature of a closure, and makes the closure. It binds the template parameters
    /// of its level.
    pub fn read_closure_end(&mut self, level: u64, signature: Signature) -> Result<u32, Stop>
        requires signature { IsSignature self.old.arena signature }
        ensures reads { Gives result self.new (spec.parse_closure_end level (signature_at self.old.arena signature)
            (state self.old)) }
        ensures keeps { OnOk result (Keeps self.old self.new) }
    {
        let digits = tri!(self.read_count());
        let t = tri!(self.make_counted(signature, digits));
        self.bind_declared(level, Others::Auto, signature.declarations, t)
    }

    /// Reads `[<number>] _` behind the signature of a lambda, and makes its value. It binds the template parameters of
    /// its level.
    pub fn read_lambda_end(&mut self, level: u64, signature: Signature) -> Result<u32, Stop>
        requires signature { IsSignature self.old.arena signature }
        ensures reads { Gives result self.new (spec.parse_lambda_end level (signature_at self.old.arena signature)
            (state self.old)) }
        ensures keeps { OnOk result (Keeps self.old self.new) }
    {
        tri!(self.read_count());
        let t = tri!(self.make_lambda(signature));
        self.bind_declared(level, Others::Auto, signature.declarations, t)
    }

    // Makes a lambda.
    fn make_lambda(&mut self, signature: Signature) -> Result<u32, Stop>
        requires signature { IsSignature self.old.arena signature }
        ensures reads { Gives result self.new (make (spec.lambda_tree (signature_at self.old.arena signature))
            (state self.old)) }
        ensures keeps { OnOk result (Keeps self.old self.new) }
        ensures rest { OnOk result (self.new.rest.now ≡ self.old.rest.now) }
    {
        self.arena.make_lambda(self.alloc, signature)
    }

    // Makes a closure with its count.
    fn make_counted(&mut self, signature: Signature, digits: &[u8]) -> Result<u32, Stop>
        requires signature { IsSignature self.old.arena signature }
        ensures reads { Gives result self.new (make (spec.closure_tree (signature_at self.old.arena signature)
            digits.now) (state self.old)) }
        ensures keeps { OnOk result (Keeps self.old self.new) }
        ensures rest { OnOk result (self.new.rest.now ≡ self.old.rest.now) }
    {
        let count = tri!(self.make_count(digits, digits));
        self.make_closure(signature, count)
    }

    // Makes a closure.
    fn make_closure(&mut self, signature: Signature, count: Count) -> Result<u32, Stop>
        requires signature { IsSignature self.old.arena signature }
        requires text { IsText self.old.arena.held count.text }
        requires ordinal { IsText self.old.arena.held count.ordinal }
        ensures reads { Gives result self.new (make (closure (list_trees self.old.arena signature.declarations)
            (option_map (stands self.old.arena) signature.before) (list_trees self.old.arena signature.params)
            (option_map (stands self.old.arena) signature.behind) (text_at self.old.arena.held count.text)
            (text_at self.old.arena.held count.ordinal)) (state self.old)) }
        ensures keeps { OnOk result (Keeps self.old self.new) }
        ensures rest { OnOk result (self.new.rest.now ≡ self.old.rest.now) }
    {
        self.arena
            .make_closure(self.alloc, signature, count.text, count.ordinal)
    }

    // Reads `[<number>] _`.
    fn read_count(&mut self) -> Result<&'a [u8], Stop>
        ensures reads { GivesText result self.new (spec.parse_count (state self.old)) }
        ensures arena { self.new.arena ≡ self.old.arena }
        ensures takes { OnOk result (length self.new.rest.now < length self.old.rest.now) }
    {
        let count = self.read_digits();
        tri!(self.expect(b'_'));
        Ok(count)
    }

    /// Makes the texts of a count, whose digits are given beside it.
    pub fn make_count(&mut self, count: &[u8], digits: &[u8]) -> Result<Count, Stop>
        ensures count { CopiesCount result self.new.arena count.now (ordinal_of digits.now) }
        ensures keeps { Keeps self.old self.new }
        ensures state { state self.new ≡ state self.old }
        ensures rest { self.new.rest.now ≡ self.old.rest.now }
    {
        let ordinal = tri!(self.make_ordinal(digits));
        let text = tri!(self.text(count));
        Ok(Count { text, ordinal })
    }

    // Makes the text of the ordinal of digits.
    fn make_ordinal(&mut self, digits: &[u8]) -> Result<NodeText, Stop>
        ensures text { Copies result self.new.arena (ordinal_of digits.now) }
        ensures keeps { Keeps self.old self.new }
        ensures state { state self.new ≡ state self.old }
        ensures rest { self.new.rest.now ≡ self.old.rest.now }
    {
        match ordinal(self.alloc, digits) {
            Ok(number) => self.text(without_zeros(&number)),
            Err(_) => Err(Stop::Memory),
        }
    }
}
