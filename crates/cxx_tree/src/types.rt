//! Types, declarations and functions.
#![tactic(auto, using(crate::proofs::Making::making, crate::proofs::Grown::grows), unfolding(crate::specs::Stored::IsBelow, crate::specs::Stored::IsPlainBelow, crate::specs::Stored::IsDeclarationBelow, crate::specs::Stored::tree_of, crate::specs::Stored::plain_tree, crate::specs::Stored::declaration_tree))]

ghost use Rattle.std.specs.Prelude.{◌≡◌, ℕ, ◌+◌, ◌<◌, ◌≤◌, length, true, false, option_map, IfOk, IfSome, Some};
ghost use Rattle.cxx_tree.specs.Grows.{Makes, Grows};
ghost use Rattle.cxx_tree.specs.Stored.{forest, size, tree_at, trees_in};
ghost use Rattle.cxx_tree.specs.Stored.{text_at, parts_in, IsText, IsListBelow, IsOptionBelow, IsPartsBelow};
ghost use Rattle.cxx_tree.specs.Tree.{no_parts};
ghost use Rattle.cxx_tree.specs.Phrases as phrases;

use crate::arena::{Arena, Stop};
use crate::kinds::{Cv, Listing, Phrase, Prec, RefQual};
use crate::measuring::text_len;
use crate::node::{Declaration, Encoding, Function, List, Node, NodeText, Part, Parts};
use crate::phrases::{fixed, held, open, primary, styled, whole};
use std::alloc::AllocError;

impl Arena {
    /// Makes `TYPE` and `LLVM` after it, in GNU's style `GNU`.
    pub fn make_suffixed(&mut self, t: u32, llvm: NodeText, gnu: NodeText) -> Result<u32, Stop>
        requires t { t < size self.old }
        requires llvm { IsText self.old.held llvm }
        requires gnu { IsText self.old.held gnu }
        ensures makes { Makes result self.old self.new
            (phrases.suffixed (tree_at (forest self.old) t) (text_at self.old.held llvm) (text_at self.old.held gnu)) }
    {
        let attributes = primary(text_len(self, llvm));
        self.make_phrase(attributes, &[whole(t), Part::Text(llvm, gnu)])
    }

    /// Makes `TYPE vector[DIMENSION]`, in GNU's style `TYPE __vector(DIMENSION)`.
    pub fn make_vector(&mut self, t: u32, dimension: Option<u32>) -> Result<u32, Stop>
        requires t { t < size self.old }
        requires dimension { IsOptionBelow (size self.old) dimension }
        ensures makes { Makes result self.old self.new
            (phrases.vector (tree_at (forest self.old) t) (option_map (tree_at (forest self.old)) dimension)) }
    {
        let attributes = Phrase {
            is_closed: true,
            ..primary(0)
        };
        let front = styled(b" vector[", b" __vector(");
        match dimension {
            Some(d) => self.make_phrase(
                attributes,
                &[whole(t), front, whole(d), styled(b"]", b")")],
            ),
            None => self.make_phrase(attributes, &[whole(t), front, styled(b"]", b")")]),
        }
    }

    // The dimension of an array, if there is one.
    fn dimension_parts(&mut self, dimension: Option<u32>) -> Result<Parts, AllocError>
        requires dimension { IsOptionBelow (size self.old) dimension }
        ensures below { IfOk result (λ l. IsPartsBelow self.new.held (size self.old) l) }
        ensures parts { IfOk result (λ l. parts_in self.new.held (forest self.old) l
            ≡ phrases.dimension_of (option_map (tree_at (forest self.old)) dimension)) }
        ensures grows { Grows self.old self.new }
        ensures forest { forest self.new ≡ forest self.old }
        ensures size { size self.new ≡ size self.old }
    {
        match dimension {
            Some(d) => self.make_parts(&[whole(d)]),
            None => self.make_parts(&[]),
        }
    }

    /// Makes an array: the type of its elements, and the dimension.
    pub fn make_array(&mut self, element: u32, dimension: Option<u32>) -> Result<u32, Stop>
        requires element { element < size self.old }
        requires dimension { IsOptionBelow (size self.old) dimension }
        ensures makes { Makes result self.old self.new
            (phrases.array_of (tree_at (forest self.old) element) (option_map (tree_at (forest self.old)) dimension)) }
    {
        let parts = self.dimension_parts(dimension)?;
        self.push(Node::Array(element, parts))
    }

    /// Makes a type with a vendor's qualifier: `TYPE QUALIFIER` or `TYPE QUALIFIER<ARGS>`.
    pub fn make_vendor_qualified(
        &mut self,
        t: u32,
        qualifier: NodeText,
        args: Option<List>,
    ) -> Result<u32, Stop>
        requires t { t < size self.old }
        requires qualifier { IsText self.old.held qualifier }
        requires args { IfSome args (IsListBelow self.old.held (size self.old)) }
        ensures makes { Makes result self.old self.new (phrases.vendor_qualified (tree_at (forest self.old) t)
            (text_at self.old.held qualifier) (option_map (trees_in self.old.held (forest self.old)) args)) }
    {
        let len = text_len(self, qualifier);
        match args {
            Some(args) => {
                let args = Part::Trees(Listing::Angles, args);
                let attributes = open(len, Prec::Primary);
                self.make_phrase(attributes, &[whole(t), fixed(b" "), held(qualifier), args])
            }
            None => self.make_phrase(primary(len), &[whole(t), fixed(b" "), held(qualifier)]),
        }
    }

    // The exception specification of a function, if there is one.
    fn exception_parts(&mut self, exception: Option<u32>) -> Result<Parts, AllocError>
        requires exception { IsOptionBelow (size self.old) exception }
        ensures below { IfOk result (λ l. IsPartsBelow self.new.held (size self.old) l) }
        ensures parts { IfOk result (λ l. parts_in self.new.held (forest self.old) l
            ≡ phrases.exception_of (option_map (tree_at (forest self.old)) exception)) }
        ensures grows { Grows self.old self.new }
        ensures forest { forest self.new ≡ forest self.old }
        ensures size { size self.new ≡ size self.old }
    {
        match exception {
            Some(x) => self.make_parts(&[fixed(b" "), whole(x)]),
            None => self.make_parts(&[]),
        }
    }

    /// Makes the type of a function.
    pub fn make_function_type(
        &mut self,
        ret: u32,
        params: List,
        cv: Cv,
        ref_qual: RefQual,
        exception: Option<u32>,
    ) -> Result<u32, Stop>
        requires ret { ret < size self.old }
        requires params { IsListBelow self.old.held (size self.old) params }
        requires exception { IsOptionBelow (size self.old) exception }
        ensures makes { Makes result self.old self.new (phrases.function_of (tree_at (forest self.old) ret)
            (trees_in self.old.held (forest self.old) params) cv ref_qual
            (option_map (tree_at (forest self.old)) exception)) }
    {
        let parts = self.exception_parts(exception)?;
        self.push(Node::Function(Function {
            ret,
            params,
            cv,
            ref_qual,
            exception: parts,
        }))
    }

    // ` requires CONSTRAINT`, if there is one.
    fn constraint_parts(&mut self, constraint: Option<u32>) -> Result<Parts, AllocError>
        requires constraint { IsOptionBelow (size self.old) constraint }
        ensures below { IfOk result (λ l. IsPartsBelow self.new.held (size self.old) l) }
        ensures parts { IfOk result (λ l. parts_in self.new.held (forest self.old) l
            ≡ phrases.constrained (option_map (tree_at (forest self.old)) constraint) no_parts) }
        ensures grows { Grows self.old self.new }
        ensures forest { forest self.new ≡ forest self.old }
        ensures size { size self.new ≡ size self.old }
    {
        match constraint {
            Some(r) => self.make_parts(&[fixed(b" requires "), whole(r)]),
            None => self.make_parts(&[]),
        }
    }

    /// Makes the declaration of a template template parameter.
    pub fn make_template_param(
        &mut self,
        n: u32,
        declarations: List,
        constraint: Option<u32>,
    ) -> Result<u32, Stop>
        requires n { n < size self.old }
        requires declarations { IsListBelow self.old.held (size self.old) declarations }
        requires constraint { IsOptionBelow (size self.old) constraint }
        ensures makes { Makes result self.old self.new (phrases.template_param_of (tree_at (forest self.old) n)
            (trees_in self.old.held (forest self.old) declarations)
            (option_map (tree_at (forest self.old)) constraint)) }
    {
        let parts = self.constraint_parts(constraint)?;
        self.push(Node::Declaration(Declaration::TemplateParam(n, declarations, parts)))
    }

    // ` [enable_if:CONDITIONS]`, then ` requires CONSTRAINT`.
    fn clause_parts(&mut self, clauses: Clauses) -> Result<Parts, AllocError>
        requires enable_if { IfSome clauses.enable_if (IsListBelow self.old.held (size self.old)) }
        requires constraint { IsOptionBelow (size self.old) clauses.constraint }
        ensures below { IfOk result (λ l. IsPartsBelow self.new.held (size self.old) l) }
        ensures parts { IfOk result (λ l. parts_in self.new.held (forest self.old) l
            ≡ phrases.rest_of (option_map (trees_in self.old.held (forest self.old)) clauses.enable_if)
            (option_map (tree_at (forest self.old)) clauses.constraint)) }
        ensures grows { Grows self.old self.new }
        ensures forest { forest self.new ≡ forest self.old }
        ensures size { size self.new ≡ size self.old }
    {
        match clauses.enable_if {
            None => self.constraint_parts(clauses.constraint),
            Some(ts) => self.enabled_parts(ts, clauses.constraint),
        }
    }

    // ` [enable_if:CONDITIONS]`, then ` requires CONSTRAINT`, if there is one.
    fn enabled_parts(
        &mut self,
        conditions: List,
        constraint: Option<u32>,
    ) -> Result<Parts, AllocError>
        requires conditions { IsListBelow self.old.held (size self.old) conditions }
        requires constraint { IsOptionBelow (size self.old) constraint }
        ensures below { IfOk result (λ l. IsPartsBelow self.new.held (size self.old) l) }
        ensures parts { IfOk result (λ l. parts_in self.new.held (forest self.old) l
            ≡ phrases.rest_of (Some (trees_in self.old.held (forest self.old) conditions))
            (option_map (tree_at (forest self.old)) constraint)) }
        ensures grows { Grows self.old self.new }
        ensures forest { forest self.new ≡ forest self.old }
        ensures size { size self.new ≡ size self.old }
    {
        let conditions = Part::Trees(Listing::Items, conditions);
        let front = fixed(b" [enable_if:");
        match constraint {
            None => self.make_parts(&[front, conditions, fixed(b"]")]),
            Some(r) => self.make_parts(&[front, conditions, fixed(b"] requires "), whole(r)]),
        }
    }

    /// Makes a function with its name.
    pub fn make_encoding(
        &mut self,
        ret: Option<u32>,
        n: u32,
        params: List,
        cv: Cv,
        ref_qual: RefQual,
        clauses: Clauses,
    ) -> Result<u32, Stop>
        requires ret { IsOptionBelow (size self.old) ret }
        requires n { n < size self.old }
        requires params { IsListBelow self.old.held (size self.old) params }
        requires enable_if { IfSome clauses.enable_if (IsListBelow self.old.held (size self.old)) }
        requires constraint { IsOptionBelow (size self.old) clauses.constraint }
        ensures makes { Makes result self.old self.new (phrases.function_encoding
            (option_map (tree_at (forest self.old)) ret) (tree_at (forest self.old) n)
            (trees_in self.old.held (forest self.old) params)
            (option_map (trees_in self.old.held (forest self.old)) clauses.enable_if)
            (option_map (tree_at (forest self.old)) clauses.constraint) cv ref_qual) }
    {
        let parts = self.clause_parts(clauses)?;
        self.push(Node::Encoding(Encoding {
            ret,
            name: n,
            params,
            cv,
            ref_qual,
            clauses: parts,
        }))
    }
}

/// What follows the parameters and the qualifiers of a function.
#[derive(Clone, Copy)]
pub struct Clauses {
    pub enable_if: Option<List>,
    pub constraint: Option<u32>,
}
