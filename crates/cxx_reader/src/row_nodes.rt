//! The nodes of rows.
#![tactic(auto, using(crate::proofs::Kept::readers), unfolding(cxx_tree::specs::Stored::stands, cxx_tree::specs::Grows::Makes, cxx_grammar::specs::Rows::make_as, cxx_grammar::specs::Rows::make_few, cxx_grammar::specs::Rows::make_none, cxx_grammar::specs::Rows::make_one, cxx_grammar::specs::Rows::make_two, cxx_grammar::specs::Rows::make_three, cxx_tree::specs::Stored::tree_of, cxx_tree::specs::Stored::plain_tree, cxx_tree::specs::Stored::IsBelow, cxx_tree::specs::Stored::IsPlainBelow))]

ghost use Rattle.std.specs.Prelude.{◌≡◌, ◌+◌, ◌<◌, ◌≤◌, [], ◌∷◌, length, take, OnOk, IfOk};
ghost use Rattle.cxx_tree.specs.Kept.{IsNode, KeepsNodes};
ghost use Rattle.cxx_tree.specs.Phrases as phrases;
ghost use Rattle.cxx_tree.specs.Stored.{size, stands, trees_from_list, IsListBelow};
ghost use Rattle.cxx_grammar.specs.Rows as spec;
ghost use Rattle.cxx_reader.specs.Outcome.{state, list_trees, trees_behind, Keeps, Gives};
ghost use Rattle.cxx_reader.specs.Rows.{row_at, GivesSplit};

use crate::reader::Reader;
use cxx_grammar::rows::{Maker, Row};
use cxx_tree::{List, Node, NodeText, Plain, Prec, Stop};

impl<'a> Reader<'a> {
    /// Makes the node of a row, whose nodes are collected from `from` on. They are collected no more.
    #[inline(never)]
    pub fn make_row(&mut self, row: Row, from: usize) -> Result<u32, Stop>
        requires within { from ≤ length self.old.arena.pending }
        ensures reads { Gives result self.new (spec.make_as row.maker (row_at row).words
            (trees_behind from self.old.arena) (state self.old)) }
        ensures grows { OnOk result (KeepsNodes self.old.arena self.new.arena) }
        ensures pending { OnOk result (self.new.arena.pending ≡ take from self.old.arena.pending) }
        ensures rest { OnOk result (self.new.rest.now ≡ self.old.rest.now) }
    {
        let node = self.row_node(row, from);
        self.arena.cut(from);
        node
    }

    // Makes the node of a row. Some nodes stay collected.
    fn row_node(&mut self, row: Row, from: usize) -> Result<u32, Stop>
        requires within { from ≤ length self.old.arena.pending }
        ensures reads { Gives result self.new (spec.make_as row.maker (row_at row).words
            (trees_behind from self.old.arena) (state self.old)) }
        ensures grows { OnOk result (KeepsNodes self.old.arena self.new.arena) }
        ensures pending { OnOk result (take from self.new.arena.pending ≡ take from self.old.arena.pending) }
        ensures rest { OnOk result (self.new.rest.now ≡ self.old.rest.now) }
    {
        match row.maker {
            Maker::Conversion(prec) => self.conversion_node(from, prec),
            Maker::Call => self.call_node(from),
            Maker::TypedInitList => self.typed_init_list_node(from),
            Maker::InitList => self.init_list_node(from),
            Maker::Bindings => self.bindings_node(from),
            Maker::CountArgs => self.args_count_node(from),
            _ => self.few_node(row, from),
        }
    }

    // Makes the node of a row that has at most three nodes.
    fn few_node(&mut self, row: Row, from: usize) -> Result<u32, Stop>
        requires within { from ≤ length self.old.arena.pending }
        ensures reads { Gives result self.new (spec.make_few row.maker (row_at row).words
            (trees_behind from self.old.arena) (state self.old)) }
        ensures keeps { OnOk result (Keeps self.old self.new) }
        ensures rest { OnOk result (self.new.rest.now ≡ self.old.rest.now) }
    {
        match self.arena.pending(from) {
            &[] => self.none_node(row),
            &[t] => self.one_node(row, t),
            &[a, b] => self.two_node(row, a, b),
            &[a, b, c] => self.three_node(row, a, b, c),
            _ => Err(Stop::Unreadable),
        }
    }

    // Makes the node of a row without nodes.
    fn none_node(&mut self, row: Row) -> Result<u32, Stop>
        ensures reads { Gives result self.new (spec.make_none row.maker (row_at row).words (state self.old)) }
        ensures keeps { OnOk result (Keeps self.old self.new) }
        ensures rest { OnOk result (self.new.rest.now ≡ self.old.rest.now) }
    {
        match row.maker {
            Maker::Name => self.arena.make_fixed(row.llvm),
            _ => Err(Stop::Unreadable),
        }
    }

    // Makes the node of a row that has one node.
    fn one_node(&mut self, row: Row, t: u32) -> Result<u32, Stop>
        requires t { IsNode self.old.arena t }
        ensures reads { Gives result self.new (spec.make_one row.maker (row_at row).words (stands self.old.arena t)
            (state self.old)) }
        ensures keeps { OnOk result (Keeps self.old self.new) }
        ensures rest { OnOk result (self.new.rest.now ≡ self.old.rest.now) }
    {
        let llvm = NodeText::Fixed(row.llvm);
        let gnu = NodeText::Fixed(row.gnu);
        match row.maker {
            Maker::Same => Ok(t),
            Maker::Prefixed => self.arena.make_prefixed(llvm, gnu, t, Prec::Primary),
            Maker::Unary => self.arena.make_prefixed(llvm, gnu, t, Prec::Unary),
            Maker::Enclosing(prec) => self.arena.make_enclosing(llvm, gnu, t, prec),
            Maker::Suffixed => self.arena.make_suffixed(t, llvm, gnu),
            Maker::Prefix(prec) => self.arena.make_prefix_op(llvm, t, prec),
            Maker::Postfix => self.arena.make_postfix_op(t, llvm),
            Maker::Expansion => self.make(Node::Plain(Plain::Expansion(t))),
            Maker::CountPattern => self.pattern_count_node(t),
            Maker::CountPack => self.arena.make_pack_count(true, t),
            Maker::Fold(is_left) => self.arena.make_fold(is_left, llvm, t, None),
            _ => Err(Stop::Unreadable),
        }
    }

    // Makes `sizeof...` of a pattern.
    fn pattern_count_node(&mut self, t: u32) -> Result<u32, Stop>
        requires t { IsNode self.old.arena t }
        ensures reads { Gives result self.new (spec.make_pattern_count (stands self.old.arena t) (state self.old)) }
        ensures keeps { OnOk result (Keeps self.old self.new) }
        ensures rest { OnOk result (self.new.rest.now ≡ self.old.rest.now) }
    {
        let pattern = tri!(self.make(Node::Plain(Plain::Expansion(t))));
        self.arena.make_pack_count(false, pattern)
    }

    // Makes the node of a row that has two nodes.
    fn two_node(&mut self, row: Row, a: u32, b: u32) -> Result<u32, Stop>
        requires a { IsNode self.old.arena a }
        requires b { IsNode self.old.arena b }
        ensures reads { Gives result self.new (spec.make_two row.maker (row_at row).words (stands self.old.arena a)
            (stands self.old.arena b) (state self.old)) }
        ensures keeps { OnOk result (Keeps self.old self.new) }
        ensures rest { OnOk result (self.new.rest.now ≡ self.old.rest.now) }
    {
        let words = NodeText::Fixed(row.llvm);
        match row.maker {
            Maker::CtorVtable => self.arena.make_ctor_vtable(b, a),
            Maker::Binary(prec) => self.arena.make_binary(a, words, b, prec),
            Maker::Member(prec) => self.arena.make_member(a, words, b, prec),
            Maker::Subscript => self.arena.make_subscript(a, b),
            Maker::NamedCast => self.arena.make_named_cast(words, a, b),
            Maker::Designated(is_index) => self.arena.make_designated(a, b, is_index),
            Maker::FoldWith(true) => self.arena.make_fold(true, words, b, Some(a)),
            Maker::FoldWith(false) => self.arena.make_fold(false, words, a, Some(b)),
            _ => Err(Stop::Unreadable),
        }
    }

    // Makes the node of a row that has three nodes.
    fn three_node(&mut self, row: Row, a: u32, b: u32, c: u32) -> Result<u32, Stop>
        requires a { IsNode self.old.arena a }
        requires b { IsNode self.old.arena b }
        requires c { IsNode self.old.arena c }
        ensures reads { Gives result self.new (spec.make_three row.maker (row_at row).words (stands self.old.arena a)
            (stands self.old.arena b) (stands self.old.arena c) (state self.old)) }
        ensures keeps { OnOk result (Keeps self.old self.new) }
        ensures rest { OnOk result (self.new.rest.now ≡ self.old.rest.now) }
    {
        match row.maker {
            Maker::Conditional => self.arena.make_conditional(a, b, c),
            Maker::DesignatedRange => self.arena.make_designated_range(a, b, c),
            _ => Err(Stop::Unreadable),
        }
    }

    // Makes the node of a type and its operands.
    fn conversion_node(&mut self, from: usize, prec: Prec) -> Result<u32, Stop>
        requires within { from ≤ length self.old.arena.pending }
        ensures reads { Gives result self.new (spec.make_behind (spec.converted prec)
            (trees_behind from self.old.arena) (state self.old)) }
        ensures grows { OnOk result (KeepsNodes self.old.arena self.new.arena) }
        ensures pending { OnOk result (take from self.new.arena.pending ≡ take from self.old.arena.pending) }
        ensures rest { OnOk result (self.new.rest.now ≡ self.old.rest.now) }
    {
        let split = tri!(self.split_from(from));
        self.arena.make_conversion(split.first, split.others, prec)
    }

    // Makes the node of a function and its arguments.
    fn call_node(&mut self, from: usize) -> Result<u32, Stop>
        requires within { from ≤ length self.old.arena.pending }
        ensures reads { Gives result self.new (spec.make_behind phrases.call (trees_behind from self.old.arena)
            (state self.old)) }
        ensures grows { OnOk result (KeepsNodes self.old.arena self.new.arena) }
        ensures pending { OnOk result (take from self.new.arena.pending ≡ take from self.old.arena.pending) }
        ensures rest { OnOk result (self.new.rest.now ≡ self.old.rest.now) }
    {
        let split = tri!(self.split_from(from));
        self.arena.make_call(split.first, split.others)
    }

    // Makes the node of a type, and what the braces behind it have.
    fn typed_init_list_node(&mut self, from: usize) -> Result<u32, Stop>
        requires within { from ≤ length self.old.arena.pending }
        ensures reads { Gives result self.new (spec.make_behind spec.typed_init_list
            (trees_behind from self.old.arena) (state self.old)) }
        ensures grows { OnOk result (KeepsNodes self.old.arena self.new.arena) }
        ensures pending { OnOk result (take from self.new.arena.pending ≡ take from self.old.arena.pending) }
        ensures rest { OnOk result (self.new.rest.now ≡ self.old.rest.now) }
    {
        let split = tri!(self.split_from(from));
        self.arena.make_init_list(Some(split.first), split.others)
    }

    // Makes the node of what braces have.
    fn init_list_node(&mut self, from: usize) -> Result<u32, Stop>
        requires within { from ≤ length self.old.arena.pending }
        ensures reads { Gives result self.new (spec.make_init_list (trees_behind from self.old.arena)
            (state self.old)) }
        ensures grows { OnOk result (KeepsNodes self.old.arena self.new.arena) }
        ensures pending { OnOk result (take from self.new.arena.pending ≡ take from self.old.arena.pending) }
        ensures rest { OnOk result (self.new.rest.now ≡ self.old.rest.now) }
    {
        let items = tri!(self.arena.list_from(from));
        self.arena.make_init_list(None, items)
    }

    // Makes the node of the names of a structured binding.
    fn bindings_node(&mut self, from: usize) -> Result<u32, Stop>
        requires within { from ≤ length self.old.arena.pending }
        ensures reads { Gives result self.new (spec.make_bindings (trees_behind from self.old.arena)
            (state self.old)) }
        ensures grows { OnOk result (KeepsNodes self.old.arena self.new.arena) }
        ensures pending { OnOk result (take from self.new.arena.pending ≡ take from self.old.arena.pending) }
        ensures rest { OnOk result (self.new.rest.now ≡ self.old.rest.now) }
    {
        let names = tri!(self.arena.list_from(from));
        self.arena.make_bindings(names)
    }

    // Makes `sizeof...` of arguments.
    fn args_count_node(&mut self, from: usize) -> Result<u32, Stop>
        requires within { from ≤ length self.old.arena.pending }
        ensures reads { Gives result self.new (spec.make_args_count (trees_behind from self.old.arena)
            (state self.old)) }
        ensures grows { OnOk result (KeepsNodes self.old.arena self.new.arena) }
        ensures pending { OnOk result (take from self.new.arena.pending ≡ take from self.old.arena.pending) }
        ensures rest { OnOk result (self.new.rest.now ≡ self.old.rest.now) }
    {
        let args = tri!(self.several_from(from));
        self.arena.make_pack_count(true, args)
    }

    // Makes the node of a list of the nodes that are collected from `from` on. They are collected no more.
    fn several_from(&mut self, from: usize) -> Result<u32, Stop>
        requires within { from ≤ length self.old.arena.pending }
        ensures reads { Gives result self.new (spec.make_listed (trees_behind from self.old.arena) (state self.old)) }
        ensures grows { OnOk result (KeepsNodes self.old.arena self.new.arena) }
        ensures pending { OnOk result (self.new.arena.pending ≡ take from self.old.arena.pending) }
        ensures rest { OnOk result (self.new.rest.now ≡ self.old.rest.now) }
    {
        let args = tri!(self.arena.list_from(from));
        self.arena.push(Node::Plain(Plain::Several(args)))
    }

    // Returns the first of the nodes that are collected from `from` on, and makes a list of those behind it. They are
    // collected no more.
    fn split_from(&mut self, from: usize) -> Result<Split, Stop>
        requires within { from ≤ length self.old.arena.pending }
        ensures split { GivesSplit result self.new.arena (trees_behind from self.old.arena) }
        ensures grows { OnOk result (KeepsNodes self.old.arena self.new.arena) }
        ensures state { OnOk result (state self.new ≡ state self.old) }
        ensures pending { OnOk result (take from self.new.arena.pending ≡ take from self.old.arena.pending) }
        ensures rest { OnOk result (self.new.rest.now ≡ self.old.rest.now) }
    {
        if from >= self.arena.pending_len() {
            return Err(Stop::Unreadable);
        }
        let first = self.arena.pending(from)[0];
        let others = tri!(self.arena.list_from(from + 1));
        Ok(Split { first, others })
    }
}

/// A node, and a list of those behind it.
#[derive(Clone, Copy)]
pub struct Split {
    pub first: u32,
    pub others: List,
}
