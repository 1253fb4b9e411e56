//! Lambdas.
#![tactic(auto, using(crate::proofs::Making::making, crate::proofs::Grown::grows), unfolding(crate::specs::Stored::IsBelow, crate::specs::Stored::IsPlainBelow, crate::specs::Stored::IsDeclarationBelow, crate::specs::Stored::tree_of, crate::specs::Stored::plain_tree, crate::specs::Stored::declaration_tree))]

ghost use Rattle.std.specs.Prelude.{◌≡◌, ℕ, ◌+◌, ◌<◌, ◌≤◌, length, true, false, option_map, OnOk};
ghost use Rattle.cxx_tree.specs.Grows.{Makes};
ghost use Rattle.cxx_tree.specs.Stored.{forest, size, tree_at};
ghost use Rattle.cxx_tree.specs.Stored.{text_at, trees_in, IsText, IsListBelow, IsOptionBelow};
ghost use Rattle.cxx_tree.specs.Phrases as phrases;
ghost use Rattle.cxx_tree.specs.Pieces.{Adds, AddsBelow, declared_if, signature_at, IsSignatureBelow};

use crate::arena::{Arena, Stop};
use crate::kinds::Listing;
use crate::measuring::text_len;
use crate::node::{List, NodeText, Part};
use crate::phrases::{fixed, primary, styled, whole};
use std::alloc::{AllocError, Global};

impl Arena {
    /// Makes `'lambdaCOUNT'SIGNATURE`, in GNU's style `{lambdaSIGNATURE#ORDINAL}`.
    pub fn make_closure(
        &mut self,
        alloc: Global,
        signature: Signature,
        count: NodeText,
        ordinal: NodeText,
    ) -> Result<u32, Stop>
        requires declarations { IsListBelow self.old.held (size self.old) signature.declarations }
        requires before { IsOptionBelow (size self.old) signature.before }
        requires params { IsListBelow self.old.held (size self.old) signature.params }
        requires behind { IsOptionBelow (size self.old) signature.behind }
        requires count { IsText self.old.held count }
        requires ordinal { IsText self.old.held ordinal }
        ensures makes { Makes result self.old self.new (phrases.closure
            (trees_in self.old.held (forest self.old) signature.declarations)
            (option_map (tree_at (forest self.old)) signature.before)
            (trees_in self.old.held (forest self.old) signature.params)
            (option_map (tree_at (forest self.old)) signature.behind)
            (text_at self.old.held count) (text_at self.old.held ordinal)) }
    {
        let attributes = primary(text_len(self, count));
        let mut parts = Vec::new(alloc);
        parts.extend_from_slice(&[
            styled(b"'lambda", b"{lambda"),
            Part::Text(count, NodeText::Fixed(b"")),
            styled(b"'", b""),
        ])?;
        push_signature(
            &mut parts,
            !self.items(signature.declarations).is_empty(),
            signature.declarations,
            signature.before,
            signature.params,
            signature.behind,
        )?;
        parts.extend_from_slice(&[
            styled(b"", b"#"),
            Part::Text(NodeText::Fixed(b""), ordinal),
            styled(b"", b"}"),
        ])?;
        self.make_phrase(attributes, &parts)
    }

    /// Makes `[]SIGNATURE{...}`.
    pub fn make_lambda(&mut self, alloc: Global, signature: Signature) -> Result<u32, Stop>
        requires declarations { IsListBelow self.old.held (size self.old) signature.declarations }
        requires before { IsOptionBelow (size self.old) signature.before }
        requires params { IsListBelow self.old.held (size self.old) signature.params }
        requires behind { IsOptionBelow (size self.old) signature.behind }
        ensures makes { Makes result self.old self.new (phrases.lambda
            (trees_in self.old.held (forest self.old) signature.declarations)
            (option_map (tree_at (forest self.old)) signature.before)
            (trees_in self.old.held (forest self.old) signature.params)
            (option_map (tree_at (forest self.old)) signature.behind)) }
    {
        let mut parts = Vec::new(alloc);
        parts.extend_from_slice(&[fixed(b"[]")])?;
        push_signature(
            &mut parts,
            !self.items(signature.declarations).is_empty(),
            signature.declarations,
            signature.before,
            signature.params,
            signature.behind,
        )?;
        parts.extend_from_slice(&[fixed(b"{...}")])?;
        self.make_phrase(primary(0), &parts)
    }
}

/// The signature of a lambda: `<DECLARATIONS> requires BEFORE (PARAMS) requires BEHIND`.
#[derive(Clone, Copy)]
pub struct Signature {
    pub declarations: List,
    pub before: Option<u32>,
    pub params: List,
    pub behind: Option<u32>,
}

// Appends ` requires CONSTRAINT `, if there is one.
fn push_before(parts: &mut Vec<Part>, constraint: Option<u32>) -> Result<(), AllocError>
    ensures adds { OnOk result (Adds parts.old.items parts.new.items
        (λ h ts. phrases.constrained_before (option_map (tree_at ts) constraint))) }
    ensures below { OnOk result
        (AddsBelow parts.old.items parts.new.items (λ h n. IsOptionBelow n constraint)) }
{
    match constraint {
        Some(r) => parts.extend_from_slice(&[fixed(b" requires "), whole(r), fixed(b" ")]),
        None => Ok(()),
    }
}

// Appends ` requires CONSTRAINT`, if there is one.
fn push_constraint(parts: &mut Vec<Part>, constraint: Option<u32>) -> Result<(), AllocError>
    ensures adds { OnOk result (Adds parts.old.items parts.new.items
        (λ h ts. phrases.constrained (option_map (tree_at ts) constraint))) }
    ensures below { OnOk result
        (AddsBelow parts.old.items parts.new.items (λ h n. IsOptionBelow n constraint)) }
{
    match constraint {
        Some(r) => parts.extend_from_slice(&[fixed(b" requires "), whole(r)]),
        None => Ok(()),
    }
}

// Appends a signature, whose lists stand in the arena. The flag says that there are declarations.
fn push_signature(
    parts: &mut Vec<Part>,
    has_declarations: bool,
    declarations: List,
    before: Option<u32>,
    params: List,
    behind: Option<u32>,
) -> Result<(), AllocError>
    ensures adds { OnOk result (Adds parts.old.items parts.new.items
        (λ h ts. signature_at h ts has_declarations declarations before params behind)) }
    ensures below { OnOk result (AddsBelow parts.old.items parts.new.items
        (λ h n. IsSignatureBelow h n declarations before params behind)) }
{
    push_declarations(parts, has_declarations, declarations)?;
    push_before(parts, before)?;
    parts.extend_from_slice(&[Part::Trees(Listing::Parens, params)])?;
    push_constraint(parts, behind)
}

// Appends declarations, if the flag says that there are any.
fn push_declarations(
    parts: &mut Vec<Part>,
    has_declarations: bool,
    declarations: List,
) -> Result<(), AllocError>
    ensures adds { OnOk result (Adds parts.old.items parts.new.items
        (λ h ts. declared_if has_declarations (trees_in h ts declarations))) }
    ensures below { OnOk result (AddsBelow parts.old.items parts.new.items
        (λ h n. IsListBelow h n declarations)) }
{
    if has_declarations {
        return parts.extend_from_slice(&[Part::Trees(Listing::Declarations, declarations)]);
    }
    Ok(())
}
