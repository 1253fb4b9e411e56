//! Tests scripts of several calls, each over a new buffer. What was saved and what is an argument keep their shapes,
//! whatever is done to the pieces beside them, and the output is what the calls say.
//!
//! The assertions are functions of their own, and each test hands its buffer to `drop`. The time for the check of a
//! function grows with the square of its length, including all that is dropped at its end.
ghost use Rattle.demangle_text.specs.State.{IsLiving};

use crate::texts::assert_bytes;
use demangle_text::{Buffer, Kind, Piece, Place};
use std::process::Abort;

/// Asserts that the piece has this text.
pub fn assert_text(rt: &impl Abort, buf: &Buffer, piece: Piece, text: &[u8])
    requires living { IsLiving buf.now piece }
{
    assert_bytes(rt, buf.bytes(piece), text);
}

/// Asserts that the piece is a function with this text, and with a group or without one.
fn assert_function(rt: &impl Abort, buf: &Buffer, piece: Piece, text: &[u8], group: bool)
    requires living { IsLiving buf.now piece }
{
    assert_text(rt, buf, piece, text);
    assert!(rt; matches!(buf.kind(piece), Some(Kind::Function)));
    assert_eq!(rt; buf.has_group(piece), group);
}

/// Asserts that the base name of the piece has this range in its text.
fn assert_own(rt: &impl Abort, buf: &Buffer, piece: Piece, from: usize, to: usize)
    requires living { IsLiving buf.now piece }
{
    assert_eq!(rt; buf.own_range(piece), (from, to));
}

/// Asserts that the output is this text.
pub fn assert_output(rt: &impl Abort, buf: &Buffer, text: &[u8]) {
    assert_bytes(rt, buf.main_bytes(), text);
}

/// Asserts that the saved shape with this index has this text.
fn assert_saved(rt: &impl Abort, buf: &Buffer, i: usize, text: &[u8]) {
    let saved = buf.saved(i).expect(rt, "not so many are saved");
    assert_text(rt, buf, saved, text);
}

/// Asserts that the argument of the last scope with this index has this text.
fn assert_arg(rt: &impl Abort, buf: &Buffer, i: usize, text: &[u8]) {
    let argument = buf.arg(i).expect(rt, "no argument");
    assert_text(rt, buf, argument, text);
}

#[test]
#[tactic(auto, using(demangle_text::proofs::Laws::laws, demangle_text::proofs::Laws::runs))]
fn saved_name_under_edits_of_its_piece(rt: HostRuntime) {
    let mut buf = Buffer::new(rt.alloc());
    let name = buf.push(b"A").expect(&rt, "no memory");
    buf.save(name).expect(&rt, "no memory");
    let scoped = buf.append(name, b"::B").expect(&rt, "no memory");
    let address = buf
        .insert(scoped, Place::Start, b"&")
        .expect(&rt, "no memory");
    assert_text(&rt, &buf, address, b"&A::B");
    assert_own(&rt, &buf, address, 1, 2);
    assert_saved(&rt, &buf, 0, b"A");
    assert!(rt; buf.saved_len() == 1);
    assert_output(&rt, &buf, b"&A::B");
    drop(buf);
}

#[test]
#[tactic(auto, using(demangle_text::proofs::Laws::laws, demangle_text::proofs::Laws::runs))]
fn saved_function_under_a_pointer_to_it(rt: HostRuntime) {
    let mut buf = Buffer::new(rt.alloc());
    let text = buf.push(b"int ()").expect(&rt, "no memory");
    let function = buf.declare(text, Kind::Function, 4);
    buf.save(function).expect(&rt, "no memory");
    let pointer = buf.open_group(function, b"*").expect(&rt, "no memory");
    assert_function(&rt, &buf, pointer, b"int (*)()", true);
    let saved = buf.saved(0).expect(&rt, "nothing is saved");
    assert_function(&rt, &buf, saved, b"int ()", false);
    assert_output(&rt, &buf, b"int (*)()");
    drop(buf);
}

#[test]
#[tactic(auto, using(demangle_text::proofs::Laws::laws, demangle_text::proofs::Laws::runs))]
fn saved_name_after_a_closed_mark(rt: HostRuntime) {
    let mut buf = Buffer::new(rt.alloc());
    let mark = buf.open();
    let first = buf.push(b"C").expect(&rt, "no memory");
    let second = buf.push(b"D").expect(&rt, "no memory");
    buf.save(first).expect(&rt, "no memory");
    let kept = buf.close(mark, second).expect(&rt, "no memory");
    assert_text(&rt, &buf, kept, b"D");
    assert_output(&rt, &buf, b"D");
    assert_saved(&rt, &buf, 0, b"C");
    drop(buf);
}

#[test]
#[tactic(auto, using(demangle_text::proofs::Laws::laws, demangle_text::proofs::Laws::runs))]
fn edit_of_a_saved_name_after_a_closed_mark(rt: HostRuntime) {
    let mut buf = Buffer::new(rt.alloc());
    let mark = buf.open();
    let first = buf.push(b"C").expect(&rt, "no memory");
    let second = buf.push(b"D").expect(&rt, "no memory");
    buf.save(first).expect(&rt, "no memory");
    let kept = buf.close(mark, second).expect(&rt, "no memory");
    let inner = buf.open();
    let saved = buf.saved(0).expect(&rt, "nothing is saved");
    let copy = buf.copy(saved).expect(&rt, "no memory");
    let pointer = buf.append(copy, b"*").expect(&rt, "no memory");
    let answer = buf.close(inner, pointer).expect(&rt, "no memory");
    assert_text(&rt, &buf, answer, b"C*");
    assert_text(&rt, &buf, kept, b"D");
    assert_output(&rt, &buf, b"DC*");
    assert_saved(&rt, &buf, 0, b"C");
    drop(buf);
}

#[test]
#[tactic(auto, using(demangle_text::proofs::Laws::laws, demangle_text::proofs::Laws::runs))]
fn saved_name_that_is_cut_inside_a_mark(rt: HostRuntime) {
    let mut buf = Buffer::new(rt.alloc());
    let mark = buf.open();
    let text = buf.push(b"A&&").expect(&rt, "no memory");
    buf.save(text).expect(&rt, "no memory");
    let shorter = buf.cut(text, 1).expect(&rt, "no memory");
    let answer = buf.close(mark, shorter).expect(&rt, "no memory");
    assert_text(&rt, &buf, answer, b"A&");
    assert_output(&rt, &buf, b"A&");
    assert_saved(&rt, &buf, 0, b"A&&");
    drop(buf);
}

#[test]
#[tactic(auto, using(demangle_text::proofs::Laws::laws, demangle_text::proofs::Laws::runs))]
fn argument_of_the_outer_scope_after_a_closed_mark(rt: HostRuntime) {
    let mut buf = Buffer::new(rt.alloc());
    buf.open_scope().expect(&rt, "no memory");
    let outer = buf.push(b"X").expect(&rt, "no memory");
    buf.push_arg(outer).expect(&rt, "no memory");
    buf.open_scope().expect(&rt, "no memory");
    let inner = buf.push(b"Y").expect(&rt, "no memory");
    buf.push_arg(inner).expect(&rt, "no memory");
    let mark = buf.open();
    let text = buf.push(b"Z").expect(&rt, "no memory");
    let answer = buf.close(mark, text).expect(&rt, "no memory");
    assert_text(&rt, &buf, answer, b"Z");
    buf.keep_scopes(1);
    assert_arg(&rt, &buf, 0, b"X");
    assert!(rt; buf.scopes() == 1);
    drop(buf);
}

#[test]
#[tactic(auto, using(demangle_text::proofs::Laws::laws, demangle_text::proofs::Laws::runs))]
fn argument_in_a_text_after_a_mark(rt: HostRuntime) {
    let mut buf = Buffer::new(rt.alloc());
    let name = buf.push(b"A").expect(&rt, "no memory");
    buf.open_scope().expect(&rt, "no memory");
    buf.push_arg(name).expect(&rt, "no memory");
    let mark = buf.open();
    let junk = buf.push(b"junk").expect(&rt, "no memory");
    let joined = buf.join(junk, b"", name).expect(&rt, "no memory");
    let kept = buf.close(mark, joined).expect(&rt, "no memory");
    assert_text(&rt, &buf, kept, b"junkA");
    assert_arg(&rt, &buf, 0, b"A");
    assert_text(&rt, &buf, name, b"A");
    drop(buf);
}
