//! A box, as the pointer to its value.
ghost use Rattle.std.specs.Prelude.{◌≡◌};
ghost use Rattle.std.specs.Box.Ownership.{box_owns};

use std::alloc::Allocator;
use std::marker::Model;

/// The pointer of a box, and what the box owns.
pub(crate) struct Loose<T, A: Allocator> {
    pub(crate) at: *mut T,
    pub(crate) alloc: A,
    pub(crate) ghost value: { T },
}

impl<T, A: Allocator> Model for Loose<T, A> {
    ghost also_owns = { λ loose. box_owns (A.dealloc_token loose.alloc) T.row loose.at loose.value };
}

impl<T: Drop, A: Allocator> Loose<T, A> {
    /// Takes a box apart.
    pub(crate) fn of(boxed: Box<T, A>) -> Loose<T, A>
        ensures value { result.value ≡ boxed.value }
    {
        let (at, alloc) = Box::into_raw_with_allocator(boxed);
        Loose { at, alloc }
    }

    /// Makes the box again.
    pub(crate) fn into_box(self) -> Box<T, A>
        ensures value { result.value ≡ self.value }
    {
        let Loose { at, alloc } = self;
        unsafe { Box::from_raw(alloc, at) }
    }
}
