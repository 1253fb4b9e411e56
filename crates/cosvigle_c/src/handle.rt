//! What C holds between calls.
ghost use Rattle.std.specs.Prelude.{◌≡◌, Option, Some, None, option_map};
ghost use Rattle.std.specs.contracts.impls.GlobalAllocator.TheImpl.{ghosts};
ghost use Rattle.cosvigle_c.specs.declared.kept.Kept.{Kept};
ghost use Rattle.cosvigle_c.specs.contracts.kept.Kept.{the_row};
ghost use Rattle.cosvigle_c.specs.Handle.{holds};

use crate::kept::Kept;
use crate::loose::Loose;
use std::alloc::Global;
use std::marker::{Model, Send};
use std::ptr::null_mut;

/// A `Kept` in a box, or nothing. To C a handle is a struct of one pointer, which is null if there is nothing; a
/// `Global` has no bytes. The pointer is one to bytes, since no exported function takes a pointer to a type that holds
/// a `Vec`.
#[repr(C)]
pub struct Handle {
    at: *mut u8,
    alloc: Global,
    /// What is kept.
    pub ghost kept: { Option Kept },
}

impl Model for Handle {
    ghost also_owns = { λ handle. holds (ghosts.dealloc_token handle.alloc) the_row handle.at handle.kept };
}

/// A handle may be moved to another thread: a `Kept` may, and any thread may free the box.
unsafe impl Send for Handle {}

impl Handle {
    /// Returns a handle that keeps nothing.
    pub fn none(alloc: Global) -> Handle
        ensures kept { result.kept ≡ None }
    {
        Handle {
            at: null_mut(),
            alloc,
        }
    }

    fn of_loose(loose: Loose<Kept, Global>) -> Handle
        ensures kept { result.kept ≡ Some loose.value }
    {
        let Loose { at, alloc } = loose;
        Handle {
            at: at as *mut u8,
            alloc,
        }
    }

    fn into_loose(self) -> Option<Loose<Kept, Global>>
        ensures kept { option_map (λ loose. loose.value) result ≡ self.kept }
    {
        let Handle { at, alloc } = self;
        if at.is_null() {
            return None;
        }
        Some(Loose {
            at: at as *mut Kept,
            alloc,
        })
    }

    /// Returns a handle that keeps what the box has.
    pub fn of(boxed: Box<Kept>) -> Handle
        ensures kept { result.kept ≡ Some boxed.value }
    {
        Handle::of_loose(Loose::of(boxed))
    }

    /// Returns the box of what the handle keeps, or `None` if it keeps nothing.
    pub fn into_box(self) -> Option<Box<Kept>>
        ensures kept { option_map (λ boxed. boxed.value) result ≡ self.kept }
    {
        match self.into_loose() {
            Some(loose) => Some(loose.into_box()),
            None => None,
        }
    }
}

impl Drop for Handle {
    fn drop(self) {
        self.into_box();
    }
}
