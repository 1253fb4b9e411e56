//! The parts of phrases and their attributes.
//!
//! A text that both styles have is given once. Where GNU's style has another, it is given after LLVM's. Of a text that
//! isn't fixed, the length counts as work of the node.
#![tactic(auto, using(crate::proofs::Making::making, crate::proofs::Grown::grows), unfolding(crate::specs::Stored::IsBelow, crate::specs::Stored::IsPlainBelow, crate::specs::Stored::IsDeclarationBelow, crate::specs::Stored::tree_of, crate::specs::Stored::plain_tree, crate::specs::Stored::declaration_tree))]

ghost use Rattle.std.specs.Prelude.{◌≡◌, ℕ, ◌+◌, ◌<◌, ◌≤◌, true, false, bytes_eq, IfOk};
ghost use Rattle.std.specs.List.{AllByRecursion};
ghost use Rattle.cxx_tree.specs.Grows.{Grows, Makes};
ghost use Rattle.cxx_tree.specs.Stored.{forest, size, text_at, parts_of, parts_in, IsText, IsPartBelow, IsPartsBelow};
ghost use Rattle.cxx_tree.specs.Phrases as phrases;
ghost use Rattle.cxx_tree.specs.Tree as tree;
ghost use Rattle.cxx_tree.specs.declared.node.Part.TheVariants as part;
ghost use Rattle.cxx_tree.specs.declared.node.NodeText.TheVariants as text;
ghost use Rattle.cxx_tree.specs.declared.kinds.Manner.TheVariants as manner;
ghost use Rattle.cxx_tree.specs.declared.kinds.Context.TheVariants as context;
ghost use Rattle.cxx_tree.specs.declared.kinds.Prec.TheVariants as precedence;

use crate::arena::{Arena, Stop};
use crate::kinds::{Context, Guard, Manner, Phrase, Prec, Role};
use crate::node::{Node, NodeText, Part, Parts, Plain};
use std::alloc::AllocError;

/// Returns the attributes of a primary expression, a name or a type whose last part isn't at its end. It holds texts of
/// `held` bytes.
pub fn primary(held: usize) -> Phrase
    requires small { held < 9223372036854775808 }
    ensures value { result ≡ phrases.primary held }
{
    expression(held, Prec::Primary)
}

/// Returns the attributes of an expression whose last part isn't at its end.
pub fn expression(held: usize, prec: Prec) -> Phrase
    requires small { held < 9223372036854775808 }
    ensures value { result ≡ phrases.expression held prec }
{
    Phrase {
        own: 1 + held,
        prec,
        role: Role::Ordinary,
        guard: Guard::Open,
        is_closed: false,
        is_open: false,
        is_reversed: false,
    }
}

/// Returns the attributes of an expression that its last part ends.
pub fn open(held: usize, prec: Prec) -> Phrase
    requires small { held < 9223372036854775808 }
    ensures value { result ≡ phrases.ending (phrases.expression held prec) }
{
    Phrase {
        is_open: true,
        ..expression(held, prec)
    }
}

/// Returns a text in both styles.
pub fn fixed(bytes: &'static [u8]) -> Part
    ensures value { result ≡ part.Text (text.Fixed bytes.entry) (text.Fixed bytes.entry) }
{
    styled(bytes, bytes)
}

/// Returns a text in LLVM's style, and one in GNU's.
pub fn styled(llvm: &'static [u8], gnu: &'static [u8]) -> Part
    ensures value { result ≡ part.Text (text.Fixed llvm.entry) (text.Fixed gnu.entry) }
{
    Part::Text(NodeText::Fixed(llvm), NodeText::Fixed(gnu))
}

/// Returns a text that isn't fixed, in both styles.
pub fn held(text: NodeText) -> Part
    ensures value { result ≡ part.Text text text }
{
    Part::Text(text, text)
}

/// Returns a tree as it is.
pub fn whole(t: u32) -> Part
    ensures value { result ≡ part.Tree (manner.Whole context.Same) t }
{
    Part::Tree(Manner::Whole(Context::Same), t)
}

/// Returns a tree in parentheses or in brackets.
pub fn enclosed(t: u32) -> Part
    ensures value { result ≡ part.Tree (manner.Whole context.Enclosed) t }
{
    Part::Tree(Manner::Whole(Context::Enclosed), t)
}

/// Returns an operand that may be as loose as the precedence.
pub fn loose(prec: Prec, t: u32) -> Part
    ensures value { result ≡ part.Tree (manner.Operand prec true) t }
{
    Part::Tree(Manner::Operand(prec, true), t)
}

/// Returns an operand that is tighter than the precedence.
pub fn tight(prec: Prec, t: u32) -> Part
    ensures value { result ≡ part.Tree (manner.Operand prec false) t }
{
    Part::Tree(Manner::Operand(prec, false), t)
}

/// Returns a tree that only GNU's style has in parentheses.
pub fn gnu_operand(t: u32) -> Part
    ensures value { result ≡ part.Tree (manner.Operand precedence.Comma true) t }
{
    loose(Prec::Comma, t)
}

/// Says whether a text has these bytes.
pub fn is_text(arena: &Arena, text: NodeText, bytes: &[u8]) -> bool
    requires within { IsText arena.now.held text }
    ensures value { result ≡ bytes_eq (text_at arena.now.held text) bytes.now }
{
    arena.bytes(text) == bytes
}

impl Arena {
    /// Makes parts of a phrase.
    pub fn make_parts(&mut self, parts: &[Part]) -> Result<Parts, AllocError>
        requires below { AllByRecursion (IsPartBelow self.old.held (size self.old)) parts.now }
        ensures below { IfOk result (λ l. IsPartsBelow self.new.held (size self.old) l) }
        ensures parts { IfOk result (λ l. parts_in self.new.held (forest self.old) l
            ≡ parts_of self.old.held (forest self.old) parts.now) }
        ensures grows { Grows self.old self.new }
        ensures forest { forest self.new ≡ forest self.old }
        ensures size { size self.new ≡ size self.old }
        ensures texts { self.new.held.texts ≡ self.old.held.texts }
        ensures lists { self.new.held.lists ≡ self.old.held.lists }
    {
        self.parts(parts)
    }

    /// Makes a phrase.
    pub fn make_phrase(&mut self, attributes: Phrase, parts: &[Part]) -> Result<u32, Stop>
        requires below { AllByRecursion (IsPartBelow self.old.held (size self.old)) parts.now }
        ensures makes { Makes result self.old self.new
            (tree.phrase attributes (parts_of self.old.held (forest self.old) parts.now)) }
    {
        let parts = self.make_parts(parts)?;
        self.push(Node::Plain(Plain::Phrase(attributes, parts)))
    }
}
