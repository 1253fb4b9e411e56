//! Prefixed and enclosed trees, and expressions.
#![tactic(auto, using(crate::proofs::Making::making, crate::proofs::Grown::grows), unfolding(crate::specs::Stored::IsBelow, crate::specs::Stored::IsPlainBelow, crate::specs::Stored::IsDeclarationBelow, crate::specs::Stored::tree_of, crate::specs::Stored::plain_tree, crate::specs::Stored::declaration_tree))]

ghost use Rattle.std.specs.Prelude.{◌≡◌, ℕ, ◌+◌, ◌<◌, ◌≤◌, ◌++◌, length, true, false, option_map, None};
ghost use Rattle.cxx_tree.specs.Grows.{Makes};
ghost use Rattle.cxx_tree.specs.Stored.{forest, size, tree_at, trees_in, text_at, IsText, IsListBelow, IsOptionBelow};
ghost use Rattle.cxx_tree.specs.Phrases as phrases;
ghost use Rattle.cxx_tree.specs.Texts.{number_printed};
ghost use Rattle.cxx_tree.specs.Tree as tree;

use crate::arena::{Arena, Stop};
use crate::kinds::{Context, Guard, Listing, Manner, Phrase, Prec, Role};
use crate::measuring::text_len;
use crate::node::{List, Node, NodeText, Part, Plain};
use crate::phrases::{
    enclosed, expression, fixed, gnu_operand, held, is_text, loose, open, primary, styled, tight,
    whole,
};

impl Arena {
    /// Makes `LLVM` or in GNU's style `GNU`, and `TREE` after it, which is an operand in the latter if it is unary.
    pub fn make_prefixed(
        &mut self,
        llvm: NodeText,
        gnu: NodeText,
        t: u32,
        prec: Prec,
    ) -> Result<u32, Stop>
        requires llvm { IsText self.old.held llvm }
        requires gnu { IsText self.old.held gnu }
        requires t { t < size self.old }
        ensures makes { Makes result self.old self.new (phrases.prefixed (text_at self.old.held llvm)
            (text_at self.old.held gnu) (tree_at (forest self.old) t) prec) }
    {
        let attributes = open(text_len(self, llvm), prec);
        let operand = Part::Tree(prefixed_manner(prec), t);
        self.make_phrase(attributes, &[Part::Text(llvm, gnu), operand])
    }

    /// Makes `LLVM(TREE)`, in GNU's style `GNU(TREE)`.
    pub fn make_enclosing(
        &mut self,
        llvm: NodeText,
        gnu: NodeText,
        t: u32,
        prec: Prec,
    ) -> Result<u32, Stop>
        requires llvm { IsText self.old.held llvm }
        requires gnu { IsText self.old.held gnu }
        requires t { t < size self.old }
        ensures makes { Makes result self.old self.new (phrases.enclosing (text_at self.old.held llvm)
            (text_at self.old.held gnu) (tree_at (forest self.old) t) prec) }
    {
        let attributes = expression(text_len(self, llvm), prec);
        self.make_phrase(
            attributes,
            &[Part::Text(llvm, gnu), fixed(b"("), enclosed(t), fixed(b")")],
        )
    }

    /// Makes `sizeof...(PACK)`, or with a blank `sizeof... (PACK)`, in GNU's style the number of elements if it is
    /// known.
    pub fn make_pack_count(&mut self, has_blank: bool, pack: u32) -> Result<u32, Stop>
        requires pack { pack < size self.old }
        ensures makes { Makes result self.old self.new (phrases.count has_blank (tree_at (forest self.old) pack)) }
    {
        let parts = [Part::Tree(Manner::Count(has_blank), pack)];
        if has_blank {
            return self.make_phrase(primary(b"sizeof... ".len()), &parts);
        }
        self.make_phrase(primary(b"sizeof...".len()), &parts)
    }

    /// Makes `A SYMBOL B`, in GNU's style without blanks. Before a comma there is no blank either.
    pub fn make_binary(&mut self, a: u32, symbol: NodeText, b: u32, prec: Prec) -> Result<u32, Stop>
        requires a { a < size self.old }
        requires symbol { IsText self.old.held symbol }
        requires b { b < size self.old }
        ensures makes { Makes result self.old self.new (phrases.binary (tree_at (forest self.old) a)
            (text_at self.old.held symbol) (tree_at (forest self.old) b) prec) }
    {
        let attributes = Phrase {
            guard: guard_of(self, symbol),
            is_open: !is_text(self, symbol, b">"),
            ..expression(text_len(self, symbol), prec)
        };
        let a = Part::Tree(left_manner(prec), a);
        let b = Part::Tree(right_manner(prec), b);
        let blank = styled(b" ", b"");
        if is_text(self, symbol, b",") {
            return self.make_phrase(attributes, &[a, held(symbol), blank, b]);
        }
        self.make_phrase(attributes, &[a, blank, held(symbol), blank, b])
    }

    /// Makes `A[INDEX]`.
    pub fn make_subscript(&mut self, a: u32, index: u32) -> Result<u32, Stop>
        requires a { a < size self.old }
        requires index { index < size self.old }
        ensures makes { Makes result self.old self.new
            (phrases.subscript (tree_at (forest self.old) a) (tree_at (forest self.old) index)) }
    {
        let parts = [
            tight(Prec::Postfix, a),
            fixed(b"["),
            enclosed(index),
            fixed(b"]"),
        ];
        self.make_phrase(expression(0, Prec::Postfix), &parts)
    }

    /// Makes `A` and `SYMBOL` after it.
    pub fn make_postfix_op(&mut self, a: u32, symbol: NodeText) -> Result<u32, Stop>
        requires a { a < size self.old }
        requires symbol { IsText self.old.held symbol }
        ensures makes { Makes result self.old self.new
            (phrases.postfix_op (tree_at (forest self.old) a) (text_at self.old.held symbol)) }
    {
        let attributes = expression(text_len(self, symbol), Prec::Postfix);
        self.make_phrase(attributes, &[loose(Prec::Postfix, a), held(symbol)])
    }

    /// Makes `SYMBOL` and `A` after it.
    pub fn make_prefix_op(&mut self, symbol: NodeText, a: u32, prec: Prec) -> Result<u32, Stop>
        requires symbol { IsText self.old.held symbol }
        requires a { a < size self.old }
        ensures makes { Makes result self.old self.new
            (phrases.prefix_op (text_at self.old.held symbol) (tree_at (forest self.old) a) prec) }
    {
        let attributes = open(text_len(self, symbol), prec);
        if is_text(self, symbol, b"&") {
            let operand = Part::Tree(Manner::Address(prec), a);
            return self.make_phrase(attributes, &[held(symbol), operand]);
        }
        self.make_phrase(attributes, &[held(symbol), tight(prec, a)])
    }

    /// Makes `A ? B : C`, in GNU's style `A?B : C`.
    pub fn make_conditional(&mut self, a: u32, b: u32, c: u32) -> Result<u32, Stop>
        requires a { a < size self.old }
        requires b { b < size self.old }
        requires c { c < size self.old }
        ensures makes { Makes result self.old self.new (phrases.conditional (tree_at (forest self.old) a)
            (tree_at (forest self.old) b) (tree_at (forest self.old) c)) }
    {
        let parts = [
            tight(Prec::Conditional, a),
            styled(b" ? ", b"?"),
            gnu_operand(b),
            fixed(b" : "),
            loose(Prec::Assign, c),
        ];
        self.make_phrase(open(0, Prec::Conditional), &parts)
    }

    /// Makes `A`, `SYMBOL` and `B` in a row: a member of an object.
    pub fn make_member(&mut self, a: u32, symbol: NodeText, b: u32, prec: Prec) -> Result<u32, Stop>
        requires a { a < size self.old }
        requires symbol { IsText self.old.held symbol }
        requires b { b < size self.old }
        ensures makes { Makes result self.old self.new (phrases.member (tree_at (forest self.old) a)
            (text_at self.old.held symbol) (tree_at (forest self.old) b) prec) }
    {
        let attributes = open(text_len(self, symbol), prec);
        self.make_phrase(attributes, &[loose(prec, a), held(symbol), tight(prec, b)])
    }

    /// Makes `E.<TYPE at offset OFFSET>`, with an offset of 0 if its text is empty.
    pub fn make_subobject(&mut self, t: u32, e: u32, offset: NodeText) -> Result<u32, Stop>
        requires t { t < size self.old }
        requires e { e < size self.old }
        requires offset { IsText self.old.held offset }
        ensures makes { Makes result self.old self.new (phrases.subobject (tree_at (forest self.old) t)
            (tree_at (forest self.old) e) (text_at self.old.held offset)) }
    {
        let attributes = Phrase {
            is_reversed: true,
            ..open(text_len(self, offset), Prec::Primary)
        };
        let number = offset_text(self, offset);
        let parts = [
            whole(e),
            fixed(b".<"),
            whole(t),
            fixed(b" at offset "),
            held(number),
            fixed(b">"),
        ];
        self.make_phrase(attributes, &parts)
    }

    /// Makes `WORD<TYPE>(E)`.
    pub fn make_named_cast(&mut self, text: NodeText, t: u32, e: u32) -> Result<u32, Stop>
        requires text { IsText self.old.held text }
        requires t { t < size self.old }
        requires e { e < size self.old }
        ensures makes { Makes result self.old self.new (phrases.named_cast (text_at self.old.held text)
            (tree_at (forest self.old) t) (tree_at (forest self.old) e)) }
    {
        let attributes = expression(text_len(self, text), Prec::Postfix);
        let ty = Part::Tree(Manner::Whole(Context::Angle), t);
        let parts = [
            held(text),
            fixed(b"<"),
            ty,
            fixed(b">("),
            enclosed(e),
            fixed(b")"),
        ];
        self.make_phrase(attributes, &parts)
    }

    /// Makes `FUNCTION(ARGS)`.
    pub fn make_call(&mut self, function: u32, args: List) -> Result<u32, Stop>
        requires function { function < size self.old }
        requires args { IsListBelow self.old.held (size self.old) args }
        ensures makes { Makes result self.old self.new
            (phrases.call (tree_at (forest self.old) function) (trees_in self.old.held (forest self.old) args)) }
    {
        let parts = [
            Part::Tree(Manner::Callee, function),
            Part::Trees(Listing::Parens, args),
        ];
        self.make_phrase(expression(0, Prec::Postfix), &parts)
    }

    /// Makes `new TYPE(INITS)`, with a placement `new(PLACEMENT) TYPE(INITS)`, or in GNU's style `new (PLACEMENT)
    /// TYPE(INITS)`. If it is global, `::` stands in front.
    pub fn make_new(
        &mut self,
        placement: List,
        t: u32,
        inits: List,
        is_global: bool,
        is_array: bool,
    ) -> Result<u32, Stop>
        requires placement { IsListBelow self.old.held (size self.old) placement }
        requires t { t < size self.old }
        requires inits { IsListBelow self.old.held (size self.old) inits }
        ensures makes { Makes result self.old self.new (phrases.new_expression
            (trees_in self.old.held (forest self.old) placement) (tree_at (forest self.old) t)
            (trees_in self.old.held (forest self.old) inits) is_global is_array) }
    {
        let front = styled(new_llvm(is_global, is_array), new_gnu(is_global));
        let attributes = expression(0, Prec::Unary);
        let blank = styled(b" ", b"");
        let places = Part::Trees(Listing::Parens, placement);
        let values = Part::Trees(Listing::Parens, inits);
        if self.items(placement).is_empty() {
            if self.items(inits).is_empty() {
                return self.make_phrase(attributes, &[front, blank, whole(t)]);
            }
            return self.make_phrase(attributes, &[front, blank, whole(t), values]);
        }
        let blank = fixed(b" ");
        if self.items(inits).is_empty() {
            return self.make_phrase(attributes, &[front, places, blank, whole(t)]);
        }
        self.make_phrase(attributes, &[front, places, blank, whole(t), values])
    }

    /// Makes `(TYPE)(ES)`, in GNU's style `(TYPE)E` if there is one.
    pub fn make_conversion(&mut self, t: u32, es: List, prec: Prec) -> Result<u32, Stop>
        requires t { t < size self.old }
        requires es { IsListBelow self.old.held (size self.old) es }
        ensures makes { Makes result self.old self.new (phrases.conversion (tree_at (forest self.old) t)
            (trees_in self.old.held (forest self.old) es) prec) }
    {
        if self.items(es).len() == 1 {
            let argument = Part::Tree(Manner::Argument, self.items(es)[0]);
            return self.make_phrase(
                open(0, prec),
                &[fixed(b"("), enclosed(t), fixed(b")"), argument],
            );
        }
        let parts = [
            fixed(b"("),
            enclosed(t),
            fixed(b")"),
            Part::Trees(Listing::Parens, es),
        ];
        self.make_phrase(expression(0, prec), &parts)
    }

    /// Makes `{ES}` or `TYPE{ES}`.
    pub fn make_init_list(&mut self, ty: Option<u32>, es: List) -> Result<u32, Stop>
        requires ty { IsOptionBelow (size self.old) ty }
        requires es { IsListBelow self.old.held (size self.old) es }
        ensures makes { Makes result self.old self.new (phrases.init_list (option_map (tree_at (forest self.old)) ty)
            (trees_in self.old.held (forest self.old) es)) }
    {
        let attributes = Phrase {
            role: Role::Simple,
            ..primary(0)
        };
        let items = Part::Trees(Listing::Items, es);
        match ty {
            Some(t) => self.make_phrase(attributes, &[whole(t), fixed(b"{"), items, fixed(b"}")]),
            None => self.make_phrase(attributes, &[fixed(b"{"), items, fixed(b"}")]),
        }
    }

    /// Makes `.FIELD = E`, or `[INDEX] = E`.
    pub fn make_designated(&mut self, d: u32, e: u32, is_index: bool) -> Result<u32, Stop>
        requires d { d < size self.old }
        requires e { e < size self.old }
        ensures makes { Makes result self.old self.new
            (phrases.designated (tree_at (forest self.old) d) (tree_at (forest self.old) e) is_index) }
    {
        let value = Part::Tree(Manner::Value, e);
        if is_index {
            return self.make_phrase(designator(), &[fixed(b"["), whole(d), fixed(b"]"), value]);
        }
        self.make_phrase(designator(), &[fixed(b"."), whole(d), value])
    }

    /// Makes `[FIRST ... LAST] = E`.
    pub fn make_designated_range(&mut self, first: u32, last: u32, e: u32) -> Result<u32, Stop>
        requires first { first < size self.old }
        requires last { last < size self.old }
        requires e { e < size self.old }
        ensures makes { Makes result self.old self.new (phrases.designated_range (tree_at (forest self.old) first)
            (tree_at (forest self.old) last) (tree_at (forest self.old) e)) }
    {
        let parts = [
            fixed(b"["),
            whole(first),
            fixed(b" ... "),
            whole(last),
            fixed(b"]"),
            Part::Tree(Manner::Value, e),
        ];
        self.make_phrase(designator(), &parts)
    }

    // Makes `(A SYMBOL ... SYMBOL B)`.
    fn fold_between(
        &mut self,
        attributes: Phrase,
        symbol: NodeText,
        a: (Manner, u32),
        b: (Manner, u32),
    ) -> Result<u32, Stop>
        requires symbol { IsText self.old.held symbol }
        requires a { a.1 < size self.old }
        requires b { b.1 < size self.old }
        ensures makes { Makes result self.old self.new (tree.phrase attributes (phrases.fold_between
            (text_at self.old.held symbol) a.0 (tree_at (forest self.old) a.1) b.0 (tree_at (forest self.old) b.1))) }
    {
        let blank = styled(b" ", b"");
        let parts = [
            fixed(b"("),
            Part::Tree(a.0, a.1),
            blank,
            held(symbol),
            styled(b" ... ", b"..."),
            held(symbol),
            blank,
            Part::Tree(b.0, b.1),
            fixed(b")"),
        ];
        self.make_phrase(attributes, &parts)
    }

    // Makes `(... SYMBOL PACK)` or `(PACK SYMBOL ...)`.
    fn fold_alone(
        &mut self,
        attributes: Phrase,
        is_left: bool,
        symbol: NodeText,
        pack: u32,
    ) -> Result<u32, Stop>
        requires symbol { IsText self.old.held symbol }
        requires pack { pack < size self.old }
        ensures makes { Makes result self.old self.new (tree.phrase attributes (phrases.fold_parts is_left
            (text_at self.old.held symbol) (tree_at (forest self.old) pack) None)) }
    {
        let folded = Part::Tree(Manner::Folded, pack);
        let blank = styled(b" ", b"");
        if is_left {
            let front = styled(b"(... ", b"(...");
            return self.make_phrase(
                attributes,
                &[front, held(symbol), blank, folded, fixed(b")")],
            );
        }
        let end = styled(b" ...)", b"...)");
        self.make_phrase(attributes, &[fixed(b"("), folded, blank, held(symbol), end])
    }

    /// Makes `(... SYMBOL PACK)`, `(PACK SYMBOL ...)`, `(INIT SYMBOL ... SYMBOL PACK)` or
    /// `(PACK SYMBOL ... SYMBOL INIT)`, in GNU's style without blanks.
    pub fn make_fold(
        &mut self,
        is_left: bool,
        symbol: NodeText,
        pack: u32,
        init: Option<u32>,
    ) -> Result<u32, Stop>
        requires symbol { IsText self.old.held symbol }
        requires pack { pack < size self.old }
        requires init { IsOptionBelow (size self.old) init }
        ensures makes { Makes result self.old self.new (phrases.fold is_left (text_at self.old.held symbol)
            (tree_at (forest self.old) pack) (option_map (tree_at (forest self.old)) init)) }
    {
        let attributes = Phrase {
            guard: Guard::Enclosed,
            ..primary(text_len(self, symbol))
        };
        let Some(i) = init else {
            return self.fold_alone(attributes, is_left, symbol, pack);
        };
        let folded = (Manner::Folded, pack);
        let other = (Manner::Operand(Prec::Cast, true), i);
        if is_left {
            return self.fold_between(attributes, symbol, other, folded);
        }
        self.fold_between(attributes, symbol, folded, other)
    }

    /// Makes `"<TYPE>"`.
    pub fn make_string_literal(&mut self, t: u32) -> Result<u32, Stop>
        requires t { t < size self.old }
        ensures makes { Makes result self.old self.new (phrases.string_literal (tree_at (forest self.old) t)) }
    {
        self.make_phrase(primary(0), &[fixed(b"\"<"), whole(t), fixed(b">\"")])
    }

    /// Makes `(TYPE)NUMBER`.
    pub fn make_typed_literal(&mut self, t: u32, number: &[u8]) -> Result<u32, Stop>
        requires t { t < size self.old }
        ensures makes { Makes result self.old self.new
            (phrases.typed_literal (tree_at (forest self.old) t) (number_printed number.now)) }
    {
        let value = self.joined(b"", number, b"")?;
        let attributes = primary(text_len(self, value));
        self.make_phrase(
            attributes,
            &[fixed(b"("), enclosed(t), fixed(b")"), held(value)],
        )
    }

    /// Makes the literal of an integer: a number, between the texts around it.
    pub fn make_integer(&mut self, front: &[u8], number: &[u8], after: &[u8]) -> Result<u32, Stop>
        ensures makes { Makes result self.old self.new (tree.leaf false
            (front.now ++ (number_printed number.now ++ after.now))
            (front.now ++ (number_printed number.now ++ after.now))) }
    {
        let text = self.joined(front, number, after)?;
        self.push(Node::Plain(Plain::Leaf(false, text, text)))
    }

    /// Makes `requires {REQUIREMENTS }`, or `requires (PARAMS) {REQUIREMENTS }`.
    pub fn make_requires(&mut self, params: List, requirements: List) -> Result<u32, Stop>
        requires params { IsListBelow self.old.held (size self.old) params }
        requires requirements { IsListBelow self.old.held (size self.old) requirements }
        ensures makes { Makes result self.old self.new (phrases.requires_expression
            (trees_in self.old.held (forest self.old) params) (trees_in self.old.held (forest self.old) requirements)) }
    {
        let sequence = Part::Trees(Listing::Sequence, requirements);
        if self.items(params).is_empty() {
            return self.make_phrase(primary(0), &[fixed(b"requires {"), sequence, fixed(b" }")]);
        }
        let parts = [
            fixed(b"requires "),
            Part::Trees(Listing::Parens, params),
            fixed(b" {"),
            sequence,
            fixed(b" }"),
        ];
        self.make_phrase(primary(0), &parts)
    }

    /// Makes ` E;`, ` {E} noexcept;`, ` {E} -> TYPE;` or ` {E} noexcept -> TYPE;`.
    pub fn make_expr_requirement(
        &mut self,
        e: u32,
        is_noexcept: bool,
        ty: Option<u32>,
    ) -> Result<u32, Stop>
        requires e { e < size self.old }
        requires ty { IsOptionBelow (size self.old) ty }
        ensures makes { Makes result self.old self.new (phrases.expr_requirement (tree_at (forest self.old) e)
            is_noexcept (option_map (tree_at (forest self.old)) ty)) }
    {
        let front = fixed(b" {");
        match (is_noexcept, ty) {
            (false, None) => self.make_phrase(primary(0), &[fixed(b" "), whole(e), fixed(b";")]),
            (true, None) => self.make_phrase(
                primary(0),
                &[front, enclosed(e), fixed(b"} noexcept;")],
            ),
            (false, Some(t)) => self.make_phrase(
                primary(0),
                &[front, enclosed(e), fixed(b"} -> "), whole(t), fixed(b";")],
            ),
            (true, Some(t)) => self.make_phrase(
                primary(0),
                &[
                    front,
                    enclosed(e),
                    fixed(b"} noexcept -> "),
                    whole(t),
                    fixed(b";"),
                ],
            ),
        }
    }

    /// Makes ` WORD TREE;`.
    pub fn make_requirement(&mut self, text: NodeText, t: u32) -> Result<u32, Stop>
        requires text { IsText self.old.held text }
        requires t { t < size self.old }
        ensures makes { Makes result self.old self.new
            (phrases.requirement (text_at self.old.held text) (tree_at (forest self.old) t)) }
    {
        let attributes = primary(text_len(self, text));
        self.make_phrase(
            attributes,
            &[fixed(b" "), held(text), fixed(b" "), whole(t), fixed(b";")],
        )
    }
}

// How the operand of a prefix is printed.
fn prefixed_manner(prec: Prec) -> Manner
    ensures value { result ≡ phrases.prefixed_manner prec }
{
    match prec {
        Prec::Unary => Manner::Operand(Prec::Comma, true),
        _ => Manner::Whole(Context::Same),
    }
}

// What a binary operator is in a template argument list.
fn guard_of(arena: &Arena, symbol: NodeText) -> Guard
    requires symbol { IsText arena.now.held symbol }
    ensures value { result ≡ phrases.guard_of (text_at arena.now.held symbol) }
{
    if is_text(arena, symbol, b">") {
        return Guard::Greater;
    }
    if is_text(arena, symbol, b">>") {
        return Guard::Shift;
    }
    Guard::Open
}

// How the left operand of a binary operator is printed.
fn left_manner(prec: Prec) -> Manner
    ensures value { result ≡ phrases.left_manner prec }
{
    match prec {
        Prec::Assign => Manner::Operand(Prec::OrIf, false),
        _ => Manner::Operand(prec, true),
    }
}

// How the right operand of a binary operator is printed.
fn right_manner(prec: Prec) -> Manner
    ensures value { result ≡ phrases.right_manner prec }
{
    match prec {
        Prec::Assign => Manner::Operand(Prec::Assign, true),
        _ => Manner::Operand(prec, false),
    }
}

// The text of an offset, which is 0 if its text is empty.
fn offset_text(arena: &Arena, offset: NodeText) -> NodeText
    requires offset { IsText arena.now.held offset }
    ensures within { IsText arena.now.held result }
    ensures value { text_at arena.now.held result ≡ phrases.offset_text (text_at arena.now.held offset) }
{
    if is_text(arena, offset, b"") {
        return NodeText::Fixed(b"0");
    }
    offset
}

// The word of a `new` expression in LLVM's style.
fn new_llvm(is_global: bool, is_array: bool) -> &'static [u8]
    ensures value { result.now ≡ phrases.new_llvm is_global is_array }
{
    match (is_global, is_array) {
        (false, false) => b"new",
        (false, true) => b"new[]",
        (true, false) => b"::new",
        (true, true) => b"::new[]",
    }
}

// The word of a `new` expression in GNU's style.
fn new_gnu(is_global: bool) -> &'static [u8]
    ensures value { result.now ≡ phrases.new_gnu is_global }
{
    match is_global {
        false => b"new ",
        true => b"::new ",
    }
}

// The attributes of a designator.
fn designator() -> Phrase
    ensures value { result ≡ phrases.designator }
{
    Phrase {
        role: Role::Designator,
        ..primary(0)
    }
}
