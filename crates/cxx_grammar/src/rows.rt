//! Productions that are a row of items, of which a tree is made.

use cxx_tree::Prec;

/// An item of a row, or of a list.
#[derive(Clone, Copy)]
pub enum Item {
    /// `<type>`
    Type,
    /// `<name>`
    Name,
    /// `<template-arg>`
    Arg,
    /// `<template-arg>`, behind which a constraint may end the list.
    ConstrainedArg,
    /// `<encoding>`
    Encoding,
    /// `<type>` that isn't `void`
    Param,
    /// `<type>` that ends the operator of a conversion.
    BareType,
    /// `<type>` that is the object of a function, which is its first parameter.
    Object,
    /// `<expression>`
    Expression,
    /// `<braced-expression>`
    Braced,
    /// `<requirement>`
    Requirement,
    /// `<source-name>`
    SourceName,
    /// `<module-name>`
    Module,
    /// `<template-param>`
    TemplateParam,
    /// `<function-param>`
    FunctionParam,
    /// `<number>` or `<expression>`, and a `_`.
    Size,
    /// Expressions up to an `E`.
    Expressions,
    /// Braced expressions up to an `E`.
    Braces,
    /// Template arguments up to an `E`.
    Args,
    /// Source names up to an `E`.
    SourceNames,
    /// `<expression>`, or `_` and expressions up to an `E`.
    Operands,
    /// `<number> _`, which is skipped.
    Offset,
    /// `<call-offset>`, which is skipped.
    CallOffset,
    /// `[[<seq-id>] _]`, which is skipped.
    SeqId,
    /// `[<number>]`, which is skipped.
    Number,
    /// `E`, which is skipped.
    E,
}

/// Where the items of a list end.
#[derive(Clone, Copy)]
pub enum End {
    /// Before an `E`.
    E,
    /// At the end of an encoding, or before a `Q`.
    Encoding,
    /// At the end of the parameters of a lambda: before `E` or `Q`.
    Lambda,
    /// At the end of a function type: before `E`, `RE` or `OE`.
    Function,
    /// Before a `_`.
    Underscore,
}

/// What is made of the trees of a row.
#[derive(Clone, Copy)]
pub enum Maker {
    /// The only tree.
    Same,
    /// The words, without a tree.
    Name,
    /// Words, and the only tree.
    Prefixed,
    /// The same, where the tree is an operand.
    Unary,
    /// Words, and the only tree in parentheses.
    Enclosing(Prec),
    /// The only tree, and words.
    Suffixed,
    /// The vtable of a base: the derived type, and the base.
    CtorVtable,
    /// An operator in front of its operand.
    Prefix(Prec),
    /// An operator behind its operand.
    Postfix,
    /// An operator between its operands.
    Binary(Prec),
    /// An object, and its member.
    Member(Prec),
    /// An array, and the index.
    Subscript,
    /// `?` and `:` between three operands.
    Conditional,
    /// A type, and an operand.
    NamedCast,
    /// A type, and its operands.
    Conversion(Prec),
    /// A function, and its arguments.
    Call,
    /// The names of a structured binding.
    Bindings,
    /// What braces have.
    InitList,
    /// A type, and what the braces behind it have.
    TypedInitList,
    /// A field, or if it is so an index, and its value.
    Designated(bool),
    /// The first index, the last one, and their value.
    DesignatedRange,
    /// A pattern.
    Expansion,
    /// A pattern that is counted.
    CountPattern,
    /// A pack that is counted.
    CountPack,
    /// Arguments that are counted.
    CountArgs,
    /// A pack, which is at the right of the dots if it is so.
    Fold(bool),
    /// The same with an initial value. The two are in the order in which they are printed.
    FoldWith(bool),
}

/// A production: how many letters of its code are skipped, its items, what is made of their trees, and the words of
/// that in LLVM's style and in GNU's. A thunk's code ends with the first letter of its offset, which isn't skipped.
#[derive(Clone, Copy)]
pub struct Row {
    pub skip: usize,
    pub items: &'static [Item],
    pub maker: Maker,
    pub llvm: &'static [u8],
    pub gnu: &'static [u8],
}
