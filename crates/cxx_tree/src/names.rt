//! Names.
#![tactic(auto, using(crate::proofs::Making::making, crate::proofs::Grown::grows), unfolding(crate::specs::Stored::IsBelow, crate::specs::Stored::IsPlainBelow, crate::specs::Stored::IsDeclarationBelow, crate::specs::Stored::tree_of, crate::specs::Stored::plain_tree, crate::specs::Stored::declaration_tree))]

ghost use Rattle.std.specs.Prelude.{◌≡◌, ℕ, ◌+◌, ◌<◌, ◌≤◌, length, true, false, option_map};
ghost use Rattle.cxx_tree.specs.Grows.{Makes};
ghost use Rattle.cxx_tree.specs.Stored.{forest, size, tree_at, trees_in, text_at, IsText, IsListBelow, IsOptionBelow};
ghost use Rattle.cxx_tree.specs.Phrases as phrases;
ghost use Rattle.cxx_tree.specs.Tree as tree;

use crate::arena::{Arena, Stop};
use crate::kinds::{Listing, Manner, Phrase, Prec, Role};
use crate::measuring::text_len;
use crate::node::{List, Node, NodeText, Part, Plain};
use crate::phrases::{fixed, held, open, primary, styled, whole};

impl Arena {
    /// Makes a name.
    #[inline(always)]
    pub fn make_name(&mut self, text: &[u8]) -> Result<u32, Stop>
        ensures makes { Makes result self.old self.new (tree.named text.now) }
    {
        let text = self.text(text)?;
        self.push(Node::Plain(Plain::Name(text)))
    }

    /// Makes a name whose text is always the same.
    pub fn make_fixed(&mut self, text: &'static [u8]) -> Result<u32, Stop>
        ensures makes { Makes result self.old self.new (tree.named text.now) }
    {
        self.push(Node::Plain(Plain::Name(NodeText::Fixed(text))))
    }

    /// Makes a name in a scope.
    #[inline(always)]
    pub fn make_name_in(&mut self, scope: u32, text: &[u8]) -> Result<u32, Stop>
        requires scope { scope < size self.old }
        ensures makes { Makes result self.old self.new
            (tree.scoped false (tree_at (forest self.old) scope) (tree.named text.now)) }
    {
        let text = self.text(text)?;
        self.push(Node::Plain(Plain::ScopedName(scope, text)))
    }

    /// Makes a literal or a word whose texts are always the same.
    pub fn make_leaf(
        &mut self,
        is_simple: bool,
        llvm: &'static [u8],
        gnu: &'static [u8],
    ) -> Result<u32, Stop>
        ensures makes { Makes result self.old self.new (tree.leaf is_simple llvm.now gnu.now) }
    {
        self.push(Node::Plain(Plain::Leaf(is_simple, NodeText::Fixed(llvm), NodeText::Fixed(gnu))))
    }

    /// Makes a word: `LLVM`, and in GNU's style `GNU`.
    pub fn make_word(&mut self, llvm: NodeText, gnu: NodeText) -> Result<u32, Stop>
        requires llvm { IsText self.old.held llvm }
        requires gnu { IsText self.old.held gnu }
        ensures makes { Makes result self.old self.new
            (phrases.word (text_at self.old.held llvm) (text_at self.old.held gnu)) }
    {
        self.push(Node::Plain(Plain::Leaf(true, llvm, gnu)))
    }

    /// Makes a literal: `LLVM`, and in GNU's style `GNU`.
    pub fn make_literal(&mut self, llvm: NodeText, gnu: NodeText) -> Result<u32, Stop>
        requires llvm { IsText self.old.held llvm }
        requires gnu { IsText self.old.held gnu }
        ensures makes { Makes result self.old self.new
            (phrases.literal (text_at self.old.held llvm) (text_at self.old.held gnu)) }
    {
        self.push(Node::Plain(Plain::Leaf(false, llvm, gnu)))
    }

    /// Makes a parameter of a lambda: `LLVM`, and in GNU's style `GNU`.
    pub fn make_lambda_param(&mut self, llvm: NodeText, gnu: NodeText) -> Result<u32, Stop>
        requires llvm { IsText self.old.held llvm }
        requires gnu { IsText self.old.held gnu }
        ensures makes { Makes result self.old self.new
            (phrases.lambda_param (text_at self.old.held llvm) (text_at self.old.held gnu)) }
    {
        self.push(Node::Plain(Plain::Leaf(false, llvm, gnu)))
    }

    /// Makes a default argument: the scope `E`, and in GNU's style `::{default arg#ORDINAL}` after it.
    pub fn make_default_arg(
        &mut self,
        e: u32,
        count: NodeText,
        ordinal: NodeText,
    ) -> Result<u32, Stop>
        requires e { e < size self.old }
        requires count { IsText self.old.held count }
        requires ordinal { IsText self.old.held ordinal }
        ensures makes { Makes result self.old self.new
            (phrases.default_arg (tree_at (forest self.old) e) (text_at self.old.held count)
            (text_at self.old.held ordinal)) }
    {
        let attributes = primary(text_len(self, count));
        let parts = [
            Part::Tree(Manner::Scope, e),
            styled(b"", b"::{default arg#"),
            Part::Text(NodeText::Fixed(b""), ordinal),
            styled(b"", b"}"),
        ];
        self.make_phrase(attributes, &parts)
    }

    /// Makes the name of a module: `NAME`, `PARENT.NAME`, or with a `:` if it is that of a partition.
    pub fn make_module_name(
        &mut self,
        parent: Option<u32>,
        n: u32,
        is_partition: bool,
    ) -> Result<u32, Stop>
        requires parent { IsOptionBelow (size self.old) parent }
        requires n { n < size self.old }
        ensures makes { Makes result self.old self.new (phrases.module_name
            (option_map (tree_at (forest self.old)) parent) (tree_at (forest self.old) n) is_partition) }
    {
        let attributes = Phrase {
            role: Role::Module,
            ..primary(0)
        };
        match (parent, is_partition) {
            (None, false) => self.make_phrase(attributes, &[whole(n)]),
            (None, true) => self.make_phrase(attributes, &[fixed(b":"), whole(n)]),
            (Some(p), false) => self.make_phrase(attributes, &[whole(p), fixed(b"."), whole(n)]),
            (Some(p), true) => self.make_phrase(attributes, &[whole(p), fixed(b":"), whole(n)]),
        }
    }

    /// Makes the name of a constructor, `CLASS`, or of a destructor, `~CLASS`.
    pub fn make_ctor_dtor(&mut self, class: NodeText, is_destructor: bool) -> Result<u32, Stop>
        requires class { IsText self.old.held class }
        ensures makes { Makes result self.old self.new
            (phrases.ctor_dtor (text_at self.old.held class) is_destructor) }
    {
        let attributes = primary(text_len(self, class));
        if is_destructor {
            return self.make_phrase(attributes, &[fixed(b"~"), held(class)]);
        }
        self.make_phrase(attributes, &[held(class)])
    }

    /// Makes `~TYPE`.
    pub fn make_dtor_name(&mut self, t: u32) -> Result<u32, Stop>
        requires t { t < size self.old }
        ensures makes { Makes result self.old self.new (phrases.dtor_name (tree_at (forest self.old) t)) }
    {
        self.make_phrase(open(0, Prec::Primary), &[fixed(b"~"), whole(t)])
    }

    /// Makes `'unnamedCOUNT'`, in GNU's style `{unnamed type#ORDINAL}`.
    pub fn make_unnamed(&mut self, count: NodeText, ordinal: NodeText) -> Result<u32, Stop>
        requires count { IsText self.old.held count }
        requires ordinal { IsText self.old.held ordinal }
        ensures makes { Makes result self.old self.new
            (phrases.unnamed (text_at self.old.held count) (text_at self.old.held ordinal)) }
    {
        let attributes = primary(text_len(self, count));
        let parts = [
            styled(b"'unnamed", b"{unnamed type#"),
            Part::Text(count, ordinal),
            styled(b"'", b"}"),
        ];
        self.make_phrase(attributes, &parts)
    }

    /// Makes the names of a structured binding: `[NAMES]`.
    pub fn make_bindings(&mut self, names: List) -> Result<u32, Stop>
        requires names { IsListBelow self.old.held (size self.old) names }
        ensures makes { Makes result self.old self.new
            (phrases.bindings (trees_in self.old.held (forest self.old) names)) }
    {
        let attributes = Phrase {
            is_closed: true,
            ..primary(0)
        };
        let parts = [
            fixed(b"["),
            Part::Trees(Listing::Enclosed, names),
            fixed(b"]"),
        ];
        self.make_phrase(attributes, &parts)
    }

    /// Makes `construction vtable for A-in-B`.
    pub fn make_ctor_vtable(&mut self, a: u32, b: u32) -> Result<u32, Stop>
        requires a { a < size self.old }
        requires b { b < size self.old }
        ensures makes { Makes result self.old self.new
            (phrases.ctor_vtable (tree_at (forest self.old) a) (tree_at (forest self.old) b)) }
    {
        let parts = [
            fixed(b"construction vtable for "),
            whole(a),
            fixed(b"-in-"),
            whole(b),
        ];
        self.make_phrase(open(0, Prec::Primary), &parts)
    }
}
