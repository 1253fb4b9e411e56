//! Calls each caller once, on a symbol that has a name.

use crate::{answer_after, ask, component_of, entered_by};
use itanium_demangle::Demangler;

#[test]
fn an_answer_is_kept(rt: HostRuntime) {
    let mut demangler = Demangler::new();
    ask(&mut demangler, rt.alloc(), "_ZN3Foo3barEv").expect(&rt, "no memory");
    assert_eq!(rt; demangler.text(), Some("Foo::bar"));
    drop(demangler);
}

#[test]
fn productions_are_counted(rt: HostRuntime) {
    let mut demangler = Demangler::new();
    let entered = entered_by(&mut demangler, rt.alloc(), "_ZN3Foo3barEv").expect(&rt, "no memory");
    assert_eq!(rt; entered, 1);
    drop(demangler);
}

#[test]
fn a_symbol_after_another_is_answered(rt: HostRuntime) {
    let mut demangler = Demangler::new();
    let (len, found) = answer_after(&mut demangler, rt.alloc(), "_Z4quux", "_Z3foo");
    assert_eq!(rt; len, Ok(Some(4)));
    assert_eq!(rt; found, Ok(Some("foo")));
    drop(demangler);
}

#[test]
fn a_component_is_lent(rt: HostRuntime) {
    let mut demangler = Demangler::new();
    let found = component_of(&mut demangler, rt.alloc(), "_Z1fI1A1BEvv", 1).expect(
        &rt,
        "no memory",
    );
    assert!(rt; found == Some("A".as_bytes()));
    drop(demangler);
}
