//! The kinds and the attributes of trees (Itanium C++ ABI 5.1).

/// An abbreviation of the ABI for a name of `std`.
#[derive(Clone, Copy, PartialEq)]
pub enum Std {
    Allocator,
    BasicString,
    String,
    Istream,
    Ostream,
    Iostream,
}

/// Qualifiers of a type or of a member function.
#[derive(Clone, Copy, PartialEq)]
pub struct Cv {
    pub is_const: bool,
    pub is_volatile: bool,
    pub is_restrict: bool,
}

/// The reference qualifier of a function.
#[derive(Clone, Copy, PartialEq)]
pub enum RefQual {
    None,
    Lvalue,
    Rvalue,
}

/// The precedences of expressions, from tight to loose.
#[derive(Clone, Copy, PartialEq)]
pub enum Prec {
    Primary,
    Postfix,
    Unary,
    Cast,
    PtrMem,
    Multiplicative,
    Additive,
    Shift,
    Spaceship,
    Relational,
    Equality,
    And,
    Xor,
    Ior,
    AndIf,
    OrIf,
    Conditional,
    Assign,
    Comma,
}

/// Whether a `>` would close the template argument list around a tree that is printed.
#[derive(Clone, Copy, PartialEq)]
pub enum Context {
    /// As around the phrase.
    Same,
    /// In parentheses, or in brackets: it wouldn't.
    Enclosed,
    /// In angle brackets: it would.
    Angle,
}

/// How a phrase is printed in a template argument list.
#[derive(Clone, Copy, PartialEq)]
pub enum Guard {
    /// As elsewhere.
    Open,
    /// As elsewhere. Its parts are enclosed.
    Enclosed,
    /// In parentheses, since it has a `>`. GNU's style has these everywhere.
    Greater,
    /// In parentheses, since it has a `>>`. GNU's style doesn't have these.
    Shift,
}

/// What a phrase is for the phrases around it.
#[derive(Clone, Copy, PartialEq)]
pub enum Role {
    Ordinary,
    /// An operand without parentheses in GNU's style.
    Simple,
    /// A designator of an initializer. No `=` stands in front of it.
    Designator,
    /// The name of a module.
    Module,
}

/// The attributes of a phrase.
#[derive(Clone, Copy)]
pub struct Phrase {
    /// The work of the phrase itself: 1 and the bytes of the texts that it holds.
    pub own: usize,
    pub prec: Prec,
    pub role: Role,
    pub guard: Guard,
    /// In LLVM's style the text ends with a `]`.
    pub is_closed: bool,
    /// In GNU's style a `<` or a `>` at the end of the last part is one at the end of the phrase.
    pub is_open: bool,
    /// The pack that counts is that of the last part that has one, not of the first.
    pub is_reversed: bool,
}

/// How a tree is printed that is a part of a phrase.
#[derive(Clone, Copy, PartialEq)]
pub enum Manner {
    /// The tree.
    Whole(Context),
    /// The tree, in parentheses if it is looser than the precedence, or as loose and the last field says no.
    Operand(Prec, bool),
    /// The tree as a scope. In GNU's style a function has no return type there.
    Scope,
    /// The tree as a function that is called. In GNU's style a function has no parameters there.
    Callee,
    /// The operand of a unary `&`, with its precedence. In GNU's style some functions have no parameters there.
    Address(Prec),
    /// ` = ` and the tree, or the tree alone if it is a designator.
    Value,
    /// The only argument of a conversion.
    Argument,
    /// `sizeof...`, with a blank after it if the field says so, and the tree in parentheses. GNU's style has the number
    /// of elements where it is known.
    Count(bool),
    /// A pack that a fold expression folds.
    Folded,
}

/// How a list of trees is printed that is a part of a phrase.
#[derive(Clone, Copy, PartialEq)]
pub enum Listing {
    /// With commas between.
    Items,
    /// With commas between. They are enclosed.
    Enclosed,
    /// In parentheses, with commas between.
    Parens,
    /// In angle brackets, with commas between.
    Angles,
    /// In angle brackets, with commas between, as the declarations of a closure's template parameters.
    Declarations,
    /// One after the other, enclosed.
    Sequence,
}
