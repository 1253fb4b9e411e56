//! Qualifiers of types and functions, and the tokens of pointers.
ghost use Rattle.std.specs.Prelude.{◌≡◌};
ghost use Rattle.demangle_quals.specs.Quals.{words_text, reference_text, has_quals, no_quals};

/// The reference qualifier of a member function, the ABI's `<ref-qualifier>`.
#[derive(Clone, Copy)]
pub enum Reference {
    /// `&`
    Left,
    /// `&&`
    Right,
}

/// The qualifiers of a type, of a member function's name or of a function type: the ABI's
/// `<CV-qualifiers>`, and a reference qualifier if there is one.
#[derive(Clone, Copy)]
pub struct Quals {
    /// `const`
    pub constant: bool,
    /// `volatile`
    pub volatile: bool,
    /// `restrict`
    pub restrict: bool,
    /// `&` or `&&`
    pub reference: Option<Reference>,
}

/// A pointer, or one of the two references.
#[derive(Clone, Copy)]
pub enum Pointer {
    /// `*`
    Star,
    /// `&`
    Left,
    /// `&&`
    Right,
}

impl Quals {
    /// Returns no qualifiers.
    pub fn none() -> Self
        ensures value { result ≡ no_quals }
    {
        Quals {
            constant: false,
            volatile: false,
            restrict: false,
            reference: None,
        }
    }

    /// Returns whether any qualifier is set, the reference among them.
    pub fn is_set(self) -> bool
        ensures value { result ≡ has_quals self }
    {
        self.constant || self.volatile || self.restrict || self.reference.is_some()
    }

    /// Returns the words of the qualifiers that are set: ` const`, ` volatile` and ` restrict` in this order, each
    /// with a space in front. The reference isn't among them.
    pub fn words(self) -> &'static [u8]
        ensures value { result.now ≡ words_text self }
    {
        match (self.constant, self.volatile, self.restrict) {
            (false, false, false) => b"",
            (false, false, true) => b" restrict",
            (false, true, false) => b" volatile",
            (false, true, true) => b" volatile restrict",
            (true, false, false) => b" const",
            (true, false, true) => b" const restrict",
            (true, true, false) => b" const volatile",
            (true, true, true) => b" const volatile restrict",
        }
    }
}

/// Returns the text of a reference qualifier: ` &` or ` &&`, with a space in front, or nothing if there is none.
pub fn reference_bytes(reference: Option<Reference>) -> &'static [u8]
    ensures value { result.now ≡ reference_text reference }
{
    match reference {
        None => b"",
        Some(Reference::Left) => b" &",
        Some(Reference::Right) => b" &&",
    }
}
