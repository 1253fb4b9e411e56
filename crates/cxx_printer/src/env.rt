//! What the printing of a tree depends on beside the tree.

ghost use Rattle.std.specs.Prelude.{◌≡◌};
ghost use Rattle.cxx_printer.specs.Words as spec;

use cxx_tree::{Context, Guard};

/// Whose texts are printed.
#[derive(Clone, Copy, PartialEq)]
pub enum Style {
    /// Those of LLVM's demangler.
    Llvm,
    /// Those of `c++filt`.
    Gnu,
    /// Those of `c++filt -i`: the abbreviations of `std` aren't written out.
    GnuShort,
}

/// What the printing of a tree depends on beside the tree.
#[derive(Clone, Copy)]
pub struct Env {
    pub style: Style,
    /// The index of the element that is printed of every pack: 0 where none is chosen.
    pub pack: u32,
    /// A `>` in an expression would close a template argument list.
    pub angle: bool,
}

impl Env {
    /// Returns what holds at the top of a tree.
    pub fn top(style: Style) -> Env
        ensures value { result ≡ spec.top style }
    {
        Env {
            style,
            pack: 0,
            angle: false,
        }
    }

    /// Returns whether the style is LLVM's.
    #[inline(always)]
    pub fn is_llvm(self) -> bool
        ensures value { result ≡ spec.is_llvm self }
    {
        match self.style {
            Style::Llvm => true,
            Style::Gnu | Style::GnuShort => false,
        }
    }

    /// Returns what holds in parentheses.
    #[inline(always)]
    pub fn enclosed(self) -> Env
        ensures value { result ≡ spec.enclosed self }
    {
        Env {
            style: self.style,
            pack: self.pack,
            angle: false,
        }
    }

    /// Returns what holds in angle brackets.
    #[inline(always)]
    pub fn in_angle(self) -> Env
        ensures value { result ≡ spec.in_angle self }
    {
        Env {
            style: self.style,
            pack: self.pack,
            angle: true,
        }
    }

    /// Returns what holds in a context.
    #[inline(always)]
    pub fn in_context(self, context: Context) -> Env
        ensures value { result ≡ spec.in_context self context }
    {
        match context {
            Context::Same => self,
            Context::Enclosed => self.enclosed(),
            Context::Angle => self.in_angle(),
        }
    }

    /// Returns what holds for an element of the packs.
    #[inline(always)]
    pub fn at(self, element: u32) -> Env
        ensures value { result ≡ spec.at self element }
    {
        Env {
            style: self.style,
            pack: element,
            angle: self.angle,
        }
    }

    /// Returns whether a phrase with this guard stands in parentheses.
    #[inline(always)]
    pub fn is_guarded(self, guard: Guard) -> bool
        ensures value { result ≡ spec.is_guarded self guard }
    {
        match guard {
            Guard::Open | Guard::Enclosed => false,
            Guard::Greater => self.angle || !self.is_llvm(),
            Guard::Shift => self.angle && self.is_llvm(),
        }
    }

    /// Returns what holds for the parts of a phrase with this guard.
    #[inline(always)]
    pub fn within(self, guard: Guard) -> Env
        ensures value { result ≡ spec.within self guard }
    {
        match guard {
            Guard::Open => self,
            Guard::Enclosed => self.enclosed(),
            Guard::Greater | Guard::Shift => if self.is_guarded(guard) {
                self.enclosed()
            } else {
                self
            },
        }
    }
}
