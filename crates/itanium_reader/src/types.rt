//! Methods for types. Most make a type of the one in `found`, and append it to the substitution table.
ghost use Rattle.std.specs.Prelude.{◌≡◌, OnOk, IsOkUnless};
ghost use Rattle.demangle_text.specs.State.{IsLiving, shape, Lives, IsRun};
ghost use Rattle.demangle_edit.specs.Types.{pointer_shape};
ghost use Rattle.itanium_syntax.specs.Args.{attached_case};
ghost use Rattle.itanium_reader.specs.Parser as spec;
ghost use Rattle.itanium_reader.specs.Outcome.{state, Gives, TakesSome, MayTakeNone, SavedBounds, SavesOne};
ghost use Rattle.itanium_reader.specs.declared.stop.Stop.TheVariants.{Memory};

use crate::reader::Reader;
use crate::stop::{ReadResult, Stop};
use demangle_edit::{Pointer, wrap_member_pointer, wrap_pointer};
use demangle_text::Piece;
use itanium_syntax::args::{AttachedCase, attached_case};

impl<'a> Reader<'a> {
    /// Replaces the type in `found` by a pointer or a reference to it, and saves that as a component. The method
    /// isn't inlined, to keep the stack frame of types small.
    #[inline(never)]
    pub fn make_pointer(&mut self, kind: Pointer) -> ReadResult
        requires living { IsLiving self.old.buffer.value self.old.found }
        ensures shape { OnOk result (Lives self.new.buffer.value self.new.found (pointer_shape kind
            (shape self.old.buffer.value self.old.found))) }
        ensures state { OnOk result (state self.new ≡ spec.save (pointer_shape kind
            (shape self.old.buffer.value self.old.found)) (state self.old)) }
        ensures run { OnOk result (IsRun self.old.buffer.value self.new.buffer.value) }
        ensures memory { IsOkUnless result Memory }
    {
        self.found = or_memory!(wrap_pointer(&mut self.buffer, self.found, kind));
        self.save_found()
    }

    /// Replaces the type in `found` by a pointer to a member of `class` of that type, and saves the pointer as a
    /// component. Returns `Stop::Unreadable` if the member's type is an array.
    pub fn make_member_pointer(&mut self, class: Piece) -> ReadResult
        requires class { IsLiving self.old.buffer.value class }
        requires living { IsLiving self.old.buffer.value self.old.found }
        ensures reads { Gives result self.new (spec.saved_member
            (shape self.old.buffer.value class) (shape self.old.buffer.value self.old.found) (state self.old)) }
        ensures run { OnOk result (IsRun self.old.buffer.value self.new.buffer.value) }
        ensures bounds { MayTakeNone 1 result (state self.old) (state self.new) }
        ensures saves_one { SavesOne result (state self.old) (state self.new) }
    {
        let Some(whole) = or_memory!(wrap_member_pointer(&mut self.buffer, class, self.found))
        else {
            return Err(Stop::Unreadable);
        };
        self.found = whole;
        self.save_found()
    }

    /// Reads `u <source-name>`. Returns `Stop::Unreadable` if `<template-args>` follow.
    pub fn read_vendor_type(&mut self) -> ReadResult
        ensures reads { Gives result self.new (spec.parse_vendor (state self.old)) }
        ensures run { OnOk result (IsRun self.old.buffer.value self.new.buffer.value) }
        ensures bounds { TakesSome 0 result (state self.old) (state self.new) }
        ensures saved { SavedBounds 0 result (state self.old) (state self.new) }
    {
        self.skip(1);
        tri!(self.read_source_name());
        if let AttachedCase::ArgsAttached = attached_case(self.rest) {
            return Err(Stop::Unreadable);
        }
        self.save_found()
    }
}
