//! Tests edits over a new buffer, one after another, and the output that they leave.

use crate::buffer::{assert_output, assert_text};
use demangle_edit::{Pointer, address, attach_template_args, collapse_ref, qualify, wrap_pointer};
use demangle_text::Buffer;

#[test]
#[tactic(auto, using(demangle_text::proofs::Laws::laws, demangle_text::proofs::Laws::runs))]
fn edits_of_a_name_in_place(rt: HostRuntime) {
    let mut buf = Buffer::new(rt.alloc());
    let parent = buf.push(b"A").expect(&rt, "no memory");
    let leaf = buf.push(b"B").expect(&rt, "no memory");
    let name = qualify(&mut buf, parent, leaf).expect(&rt, "no memory");
    assert_output(&rt, &buf, b"A::B");
    let pointer = wrap_pointer(&mut buf, name, Pointer::Star).expect(&rt, "no memory");
    assert_output(&rt, &buf, b"A::B*");
    address(&mut buf, pointer).expect(&rt, "no memory");
    assert_output(&rt, &buf, b"&A::B*");
    drop(buf);
}

#[test]
#[tactic(auto, using(demangle_text::proofs::Laws::laws, demangle_text::proofs::Laws::runs))]
fn template_arguments_after_their_name(rt: HostRuntime) {
    let mut buf = Buffer::new(rt.alloc());
    let name = buf.push(b"v").expect(&rt, "no memory");
    let args = buf.push(b"<int>").expect(&rt, "no memory");
    attach_template_args(&mut buf, name, args).expect(&rt, "no memory");
    assert_output(&rt, &buf, b"v<int>");
    drop(buf);
}

#[test]
#[tactic(auto, using(demangle_text::proofs::Laws::laws, demangle_text::proofs::Laws::runs))]
fn reference_to_an_rvalue_reference(rt: HostRuntime) {
    let mut buf = Buffer::new(rt.alloc());
    let text = buf.push(b"A&&").expect(&rt, "no memory");
    let collapsed = collapse_ref(&mut buf, text, false).expect(&rt, "no memory");
    let reference = collapsed.expect(&rt, "no reference");
    assert_text(&rt, &buf, reference, b"A&");
    drop(buf);
}
