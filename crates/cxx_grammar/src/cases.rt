//! The cases of productions, by the bytes that are next.

/// The cases of a symbol, by its prefix, with the number of its bytes.
#[derive(Clone, Copy)]
pub enum PrefixCase {
    /// `_Z` or `__Z`
    Plain(usize),
    /// `___Z` or `____Z`: the function of a block.
    Block(usize),
    /// No prefix.
    None,
}

/// The cases of an `<encoding>`.
#[derive(Clone, Copy)]
pub enum EncodingCase {
    /// `G` or `T`: a `<special-name>`
    Special,
    /// A name.
    Name,
}

/// The cases of a `<name>`.
#[derive(Clone, Copy)]
pub enum NameCase {
    /// `N`
    Nested,
    /// `Z`
    Local,
    /// `St`
    Std,
    /// `S` and anything else
    Substitution,
    /// A name without a scope.
    Unqualified,
}

/// The cases of a `<local-name>`, after its `E`.
#[derive(Clone, Copy)]
pub enum LocalCase {
    /// `s`: a string literal.
    String,
    /// `d`: an entity in a default argument.
    DefaultArg,
    /// Another entity.
    Entity,
}

/// The cases of the first component of a `<nested-name>`.
#[derive(Clone, Copy)]
pub enum FirstCase {
    /// `St`: the scope `std`. No component yet.
    Std,
    /// `S` and anything else. No component yet.
    Substitution,
    /// `T`
    Param,
    /// `Dt` or `DT`
    Decltype,
    /// A name without a scope.
    Unqualified,
}

/// The cases of an `<unqualified-name>`, after its `L`.
#[derive(Clone, Copy)]
pub enum ComponentCase {
    /// `C`, and a digit from 1 to 5
    Ctor,
    /// `CI`, and a digit from 1 to 5
    InheritedCtor,
    /// `D` and one of `0`, `1`, `2`, `4` and `5`
    Dtor,
    /// Another name.
    Unqualified,
}

/// The cases of an `<unqualified-name>` that is no constructor.
#[derive(Clone, Copy)]
pub enum BaseCase {
    /// A digit from 1 to 9
    Source,
    /// `DC`
    Bindings,
    /// `Ut`
    Unnamed,
    /// `Ub`
    Block,
    /// `Ul`
    Closure,
    /// `cv`
    Conversion,
    /// `li`
    Literal,
    /// `v` and a digit
    Vendor,
    /// The code of an operator.
    Operator,
}

/// The cases of a `<type>`.
#[derive(Clone, Copy)]
pub enum TypeCase {
    /// A `<function-type>`, which may begin with qualifiers.
    Function,
    /// `r`, `V` or `K`, or `U`
    Qualified,
    /// `u`
    Vendor,
    /// `Dv`
    Vector,
    /// `Dp`
    Expansion,
    /// `DF`
    Float,
    /// `DB`, `DU`, `Dk` or `DK`: a row, which isn't saved
    Row,
    /// A letter, or `D` and anything else
    Builtin,
    /// `A`
    Array,
    /// `Dt`, `DT`, `Ts`, `Tu` or `Te`: a row, which is saved
    SavedRow,
    /// `T` and anything else
    Param,
    /// `P`
    Pointer,
    /// `R`, which is an lvalue reference, or `O`
    Reference(bool),
    /// `C`, which is a complex number, or `G`
    Suffixed(bool),
    /// `M`
    MemberPointer,
    /// `S`, and not `St`
    Substitution,
    /// A name.
    Class,
}

/// The cases of an `<exception-spec>`.
#[derive(Clone, Copy)]
pub enum ExceptionCase {
    /// `Do`
    Noexcept,
    /// `DO`
    Computed,
    /// `Dw`
    Throw,
    /// There is none.
    None,
}

/// The cases of a `<template-arg>`.
#[derive(Clone, Copy)]
pub enum ArgCase {
    /// `X`
    Expression,
    /// `T` and one of `y`, `k`, `n`, `t` and `p`: a declaration in front of the argument.
    Declared,
    /// `J`
    Pack,
    /// `LZ`
    Encoding,
    /// `L`
    Literal,
    /// A type.
    Type,
}

/// The cases of an `<expr-primary>`, after its `L`.
#[derive(Clone, Copy)]
pub enum LiteralCase {
    /// `b`
    Bool,
    /// `Dn`
    Null,
    /// The letter of an integer type.
    Integer,
    /// `f`, `d` or `e`
    Float(FloatFormat),
    /// `_Z`
    Encoding,
    /// `A`: the type of a string literal.
    String,
    /// `Ul`
    Lambda,
    /// What has no literals, or none that are read.
    Unread,
    /// A type.
    Typed,
}

/// The formats of floating literals.
#[derive(Clone, Copy)]
pub enum FloatFormat {
    /// `float`: 8 digits, IEEE's single format.
    Single,
    /// `double`: 16 digits, IEEE's double format.
    Double,
    /// `long double`: 20 digits, the extended format of x87.
    Extended,
}

/// The cases of an `<expression>` that is no row.
#[derive(Clone, Copy)]
pub enum ExpressionCase {
    /// `nw` or `na`, perhaps behind `gs`: whether it is global, and whether it is an array's.
    New(bool, bool),
    /// A name behind `gs`.
    GlobalName,
    /// `L`
    Literal,
    /// `T`
    Param,
    /// `fp` or `fL`
    FunctionParam,
    /// `so`
    Subobject,
    /// `rq`, or `rQ`, which has parameters
    Requires(bool),
    /// `u`
    Vendor,
    /// `aw`: an operator that has no expression.
    Unread,
    /// A name.
    Name,
}

/// The cases of an `<unresolved-name>`, after its `gs`.
#[derive(Clone, Copy)]
pub enum UnresolvedCase {
    /// A name without a scope.
    Base,
    /// `sr` and a digit: names as scopes.
    Simple,
    /// `sr` and a name of `std`, or `srN` and a name: a type as the scope.
    Type,
    /// `srN` and anything else: a type and names as scopes.
    Nested,
    /// `sr` and anything else: a type that isn't resolved as the scope.
    Unresolved,
}

/// The cases of an `<unresolved-type>`.
#[derive(Clone, Copy)]
pub enum UnresolvedTypeCase {
    /// `T`
    Param,
    /// `Dt` or `DT`
    Decltype,
    /// `S`
    Substitution,
    /// Anything else.
    Unread,
}

/// The cases of a `<base-unresolved-name>`.
#[derive(Clone, Copy)]
pub enum BaseNameCase {
    /// A digit
    Simple,
    /// `dn`
    Destructor,
    /// An operator, perhaps behind `on`.
    Operator,
}

/// The cases of a `<template-param-decl>`.
#[derive(Clone, Copy)]
pub enum DeclarationCase {
    /// `Ty`
    Type,
    /// `Tk`: a type of a concept.
    Constrained,
    /// `Tn`
    Value,
    /// `Tt`
    Template,
    /// `Tp`
    Pack,
    /// Anything else.
    Unread,
}

/// The cases of a `<requirement>`.
#[derive(Clone, Copy)]
pub enum RequirementCase {
    /// `X`
    Expression,
    /// `T`
    Type,
    /// `Q`
    Nested,
    /// Anything else.
    Unread,
}
