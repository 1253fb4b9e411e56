//! What is known around a production.
ghost use Rattle.std.specs.Prelude.{◌≡◌};
ghost use Rattle.itanium_syntax.specs.Context as spec;

/// Four flags that each reader passes to the readers inside it. All are off at the start of a symbol.
#[derive(Clone, Copy)]
pub struct Context {
    /// Set inside a local or an external name: words such as ` const` after a name are printed.
    pub words_shown: bool,
    /// Set inside an argument pack: a pack expansion prints no `...`.
    pub dots_hidden: bool,
    /// Set inside a lambda's parameters: a template parameter is printed as `auto`.
    pub lambda: bool,
    /// Set inside a type, except in an encoding inside that type: the template arguments of a name open no scope.
    pub in_type: bool,
}

/// The context at the start of a symbol.
pub const INITIAL: Context = Context {
    words_shown: false,
    dots_hidden: false,
    lambda: false,
    in_type: false,
};

impl Context {
    /// Returns the context inside a type.
    pub fn inside_type(self) -> Context
        ensures context { result ≡ spec.inside_type self }
    {
        Context {
            in_type: true,
            ..self
        }
    }

    /// Returns the context in which a pack expansion prints no `...`: that of an argument pack.
    pub fn hiding_dots(self) -> Context
        ensures context { result ≡ spec.hiding_dots self }
    {
        Context {
            dots_hidden: true,
            ..self
        }
    }

    /// Returns the context inside a lambda's parameters.
    pub fn inside_lambda(self) -> Context
        ensures context { result ≡ spec.inside_lambda self }
    {
        Context {
            lambda: true,
            ..self
        }
    }

    /// Returns the context in which words such as ` const` are printed after a name: that of a local name and its
    /// entity.
    pub fn showing_words(self) -> Context
        ensures context { result ≡ spec.showing_words self }
    {
        Context {
            words_shown: true,
            ..self
        }
    }

    /// Returns the context inside the encoding of a local or an external name.
    pub fn inside_encoding(self) -> Context
        ensures context { result ≡ spec.inside_encoding self }
    {
        Context {
            words_shown: true,
            in_type: false,
            ..self
        }
    }

    /// Returns whether a list of template arguments opens a scope. A name's list does, unless a type is around the
    /// name.
    pub fn opens_scope(self, of_name: bool) -> bool
        ensures value { result ≡ spec.opens_scope of_name self }
    {
        of_name && !self.in_type
    }
}
