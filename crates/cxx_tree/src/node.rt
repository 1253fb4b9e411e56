//! A node of an arena, and what it holds.

use crate::kinds::{Cv, Listing, Manner, Phrase, RefQual, Std};

/// A part of a vector of an arena: the first index, and the one after the last.
#[derive(Clone, Copy)]
pub struct Range {
    pub from: u32,
    pub to: u32,
}

/// A text of a node.
#[derive(Clone, Copy)]
pub enum NodeText {
    Fixed(&'static [u8]),
    /// Bytes of the arena.
    Stored(Range),
}

/// A list of nodes of an arena.
#[derive(Clone, Copy)]
pub struct List {
    pub range: Range,
}

/// Parts of a phrase, in an arena.
#[derive(Clone, Copy)]
pub struct Parts {
    pub range: Range,
}

/// A part of a phrase. A `u32` is the index of a node.
#[derive(Clone, Copy)]
pub enum Part {
    /// A text, in LLVM's style and in GNU's.
    Text(NodeText, NodeText),
    Tree(Manner, u32),
    Trees(Listing, List),
}

/// A node whose text has one side: a name can't stand inside of it. A `u32` is the index of a node.
#[derive(Clone, Copy)]
pub enum Plain {
    Name(NodeText),
    /// A text that isn't a name, in LLVM's style and in GNU's. The flag says that it is an operand without parentheses
    /// in GNU's style.
    Leaf(bool, NodeText, NodeText),
    StdName(Std, bool),
    Phrase(Phrase, Parts),
    /// A scope and a name. The flag says that the name is a friend's.
    Scoped(bool, u32, u32),
    /// A scope, and the text of a name in it: one node for two trees.
    ScopedName(u32, NodeText),
    WithArgs(u32, List),
    AbiTag(u32, NodeText),
    /// A name, and the module that it is in.
    InModule(u32, u32),
    /// A name that isn't a function's.
    Data(u32),
    ObjcProtocol(u32, NodeText),
    Several(List),
    Expansion(u32),
    /// A template parameter whose argument isn't known yet: level and index.
    Param(u64, u64),
}

/// The declaration of a template parameter. A `u32` is the index of a node.
#[derive(Clone, Copy)]
pub enum Declaration {
    /// The name of a type, after `typename`: one node for two trees.
    Typename(u32),
    /// The constraint, and the name.
    TypeParam(u32, u32),
    /// The name, and the type.
    NonTypeParam(u32, u32),
    /// The name, the declarations, and a constraint.
    TemplateParam(u32, List, Parts),
    PackParam(u32),
}

/// The type of a function. A `u32` is the index of a node.
#[derive(Clone, Copy)]
pub struct Function {
    /// The return type.
    pub ret: u32,
    pub params: List,
    pub cv: Cv,
    pub ref_qual: RefQual,
    pub exception: Parts,
}

/// A function with its name. A `u32` is the index of a node.
#[derive(Clone, Copy)]
pub struct Encoding {
    /// The return type, if there is one.
    pub ret: Option<u32>,
    pub name: u32,
    pub params: List,
    pub cv: Cv,
    pub ref_qual: RefQual,
    /// What follows the qualifiers.
    pub clauses: Parts,
}

/// A node of an arena: what stands for a tree. A `u32` is the index of a node.
#[derive(Clone, Copy)]
pub enum Node {
    Plain(Plain),
    Declaration(Declaration),
    Qualified(u32, Cv),
    Pointer(u32),
    /// The type, and whether it is an lvalue reference.
    Reference(u32, bool),
    /// The class, and the member's type.
    MemberPointer(u32, u32),
    /// The element, and the dimension.
    Array(u32, Parts),
    Function(Function),
    Encoding(Encoding),
    Pack(List),
}
