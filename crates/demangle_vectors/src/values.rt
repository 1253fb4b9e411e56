//! Tests values of the demangler before, between and after their symbols.

use crate::texts::{assert_bytes, assert_found, repeated};
use itanium_demangle::{Demangler, MAX_DEPTH, MAX_TEXT, demangle_owned};
use std::alloc::Global;
use std::process::Abort;

/// A symbol of a vector of vectors, and its name.
const VECTOR: (&str, &str) = (
    "_ZNSt6vectorIS_IiEE4sizeEv",
    "std::vector<std::vector<int> >::size",
);

/// Asserts that the value returns this name for the symbol, or `None`, and keeps it. What is returned is all of the
/// buffer's output, and there is a buffer only if there is a name.
fn assert_name(
    rt: &impl Abort,
    alloc: Global,
    demangler: &mut Demangler,
    symbol: &str,
    expected: Option<&str>,
) {
    assert_found(
        rt,
        demangler.demangle(alloc, symbol).expect(rt, "no memory"),
        expected,
    );
    assert_found(rt, demangler.text(), expected);
    let output = demangler.buffer().map(|buffer| buffer.main_bytes());
    assert!(rt; output == expected.map(|text| text.as_bytes()), "{symbol}");
}

/// Asserts the counts of the value.
fn assert_counts(rt: &impl Abort, demangler: &Demangler, entered: usize, most_saved: usize) {
    assert_eq!(rt; demangler.entered(), entered);
    assert_eq!(rt; demangler.most_saved(), most_saved);
}

/// Asserts that nothing is left of a symbol in the value.
fn assert_nothing_left(rt: &impl Abort, demangler: &Demangler) {
    assert_found(rt, demangler.text(), None);
    assert_counts(rt, demangler, 0, 0);
    assert!(rt; demangler.component(0).is_none());
    assert!(rt; demangler.buffer().is_none());
}

/// Asserts that a new value has nothing, and returns names.
fn assert_new(rt: &impl Abort, alloc: Global, demangler: &mut Demangler) {
    assert_nothing_left(rt, demangler);
    let (symbol, name) = VECTOR;
    assert_name(rt, alloc, demangler, symbol, Some(name));
}

#[test]
fn new_and_default_values(rt: HostRuntime) {
    let mut new = Demangler::new();
    assert_new(&rt, rt.alloc(), &mut new);
    drop(new);
    let mut default = Demangler::default();
    assert_new(&rt, rt.alloc(), &mut default);
    drop(default);
}

/// Asserts that `demangle_owned` returns this name for the symbol, or `None`.
fn assert_owned(rt: &impl Abort, alloc: Global, symbol: &str, expected: Option<&str>) {
    let found = demangle_owned(alloc, symbol).expect(rt, "no memory");
    assert!(rt; found.as_deref() == expected, "{symbol}");
}

#[test]
fn owned_names(rt: HostRuntime) {
    let (symbol, name) = VECTOR;
    assert_owned(&rt, rt.alloc(), symbol, Some(name));
    assert_owned(&rt, rt.alloc(), "__Z3foo.cold", Some("foo.cold"));
    assert_owned(&rt, rt.alloc(), "_ZN3Foo3bar", None);
    assert_owned(&rt, rt.alloc(), "malloc", None);
}

/// Asserts that the debug text of the value is `Demangler`.
fn assert_printed(rt: &impl Abort, alloc: Global, demangler: &Demangler) {
    let printed = format!(in alloc; "{demangler:?}").expect(rt, "no memory");
    assert_found(rt, Some(printed.as_str()), Some("Demangler"));
}

#[test]
fn debug_text_of_a_value(rt: HostRuntime) {
    let mut demangler = Demangler::new();
    assert_printed(&rt, rt.alloc(), &demangler);
    assert_new(&rt, rt.alloc(), &mut demangler);
    assert_printed(&rt, rt.alloc(), &demangler);
    drop(demangler);
}

#[test]
fn limits(rt: HostRuntime) {
    assert_eq!(rt; MAX_DEPTH, 128);
    assert_eq!(rt; MAX_TEXT, 1_048_576);
}

/// Asserts that `prepare` finds a name or none, with so many counted productions entered.
fn assert_entered(
    rt: &impl Abort,
    alloc: Global,
    demangler: &mut Demangler,
    symbol: &str,
    found: bool,
    entered: usize,
) {
    let prepared = demangler.prepare(alloc, symbol).expect(rt, "no memory");
    assert!(rt; prepared == found, "{symbol}");
    assert!(rt; demangler.entered() == entered, "{symbol}");
}

#[test]
fn counts_of_one_value(rt: HostRuntime) {
    let mut kept = Demangler::new();
    assert_entered(&rt, rt.alloc(), &mut kept, "_Z1fIiEvv", true, 3);
    assert_counts(&rt, &kept, 3, 1);
    assert_entered(&rt, rt.alloc(), &mut kept, "_ZN3Foo3barEv", true, 1);
    assert_counts(&rt, &kept, 1, 2);
    assert_entered(&rt, rt.alloc(), &mut kept, "malloc", false, 0);
    assert_nothing_left(&rt, &kept);
    drop(kept);
}

#[test]
fn productions_entered_by_names(rt: HostRuntime) {
    let mut kept = Demangler::new();
    let rows = [
        ("_Z1fILi1EEvv", "f<1>", 3),
        ("_Z1fIXplLi1ELi2EEEvv", "f<(1)+(2)>", 7),
        ("_Z1fIXadL_Z1gEEEvv", "f<&g>", 5),
        ("_ZTh0_1fv", "{virtual override thunk({offset(0)}, f)}", 2),
    ];
    for (symbol, name, entered) in rows {
        assert_name(&rt, rt.alloc(), &mut kept, symbol, Some(name));
        assert!(rt; kept.entered() == entered, "{symbol}");
    }
    drop(kept);
}

/// Asserts that the symbol leaves these components.
fn assert_components(
    rt: &impl Abort,
    alloc: Global,
    demangler: &mut Demangler,
    symbol: &str,
    expected: &[&str],
) {
    assert!(rt; demangler.prepare(alloc, symbol).expect(rt, "no memory"));
    for (i, text) in expected.iter().enumerate() {
        assert_bytes(
            rt,
            demangler.component(i).expect(rt, "no component"),
            text.as_bytes(),
        );
    }
    assert!(rt; demangler.component(expected.len()).is_none(), "{symbol}");
}

#[test]
fn components_of_names(rt: HostRuntime) {
    let mut kept = Demangler::new();
    let doubled = ["f", "A", "B", "B<A, A>", "B<B<A, A>, B<A, A> >"];
    let functions = ["f", "void ()", "void (*)()"];
    assert_components(
        &rt,
        rt.alloc(),
        &mut kept,
        "_Z1fI1A1BIS0_S0_ES1_IS2_S2_EEvv",
        &doubled,
    );
    assert_components(&rt, rt.alloc(), &mut kept, "_Z1fIPFvvES0_Evv", &functions);
    drop(kept);
}

#[test]
fn names_after_other_symbols(rt: HostRuntime) {
    let mut kept = Demangler::new();
    let rows = [
        ("_Z1fIiJEEvv", Some("f<int, >")),
        ("_Z1fIDpiEvv", Some("f<int...>")),
        ("_Z1fIJDp", None),
        ("_Z1fIDpiEvv", Some("f<int...>")),
        ("_Z3foo.cold", Some("foo.cold")),
        ("malloc", None),
        ("_ZN3FooC1Ev", Some("Foo::Foo")),
    ];
    for (symbol, expected) in rows {
        assert_name(&rt, rt.alloc(), &mut kept, symbol, expected);
    }
    drop(kept);
}

/// Asserts that the symbol of these parts has a name or none. If it has none, 128 counted productions were entered.
fn assert_depth(
    rt: &impl Abort,
    alloc: Global,
    demangler: &mut Demangler,
    parts: &[(usize, &str)],
    found: bool,
) {
    let symbol = repeated(alloc, parts).expect(rt, "no memory");
    let prepared = demangler
        .prepare(alloc, symbol.as_str())
        .expect(rt, "no memory");
    assert!(rt; prepared == found, "{symbol}");
    assert!(rt; found || demangler.entered() == 128, "{symbol}");
}

#[test]
fn deepest_symbols_and_the_next(rt: HostRuntime) {
    let mut kept = Demangler::new();
    for (more, found) in [(0, true), (1, false)] {
        let (names, types, lists, packs, signs) = (
            127 + more,
            125 + more,
            2 + more,
            125 + more,
            124 + more,
        );
        let rows: [&[(usize, &str)]; 6] = [
            &[(1, "_Z"), (names, "Z"), (1, "1f"), (names, "E1x")],
            &[(1, "_Z1fI"), (types, "P"), (1, "iEvv")],
            &[(1, "_Z"), (42, "1fI"), (lists, "P"), (1, "i"), (42, "E")],
            &[(1, "_Z1fI"), (packs, "J"), (1, "i"), (packs, "E"), (1, "E")],
            &[(1, "_Z"), (names, "Th0_"), (1, "1f")],
            &[(1, "_Z1fIX"), (signs, "ng"), (1, "Li1EEE")],
        ];
        for parts in rows {
            assert_depth(&rt, rt.alloc(), &mut kept, parts, found);
        }
    }
    drop(kept);
}
