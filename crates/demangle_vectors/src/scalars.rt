//! Tests the readers of numbers, sequence ids, source names, identifiers, call offsets and operator codes.

use abi_scalars::numerals::{Radix, index_of, level_of};
use abi_scalars::texts::{digits, identifier, number_text, optional_number_text};
use itanium_demangle::scalar::{
    CallOffset, Signed, call_offset, expression_refused, number, operator_arity, operator_text,
    sequence_id, source_name,
};
use std::process::Abort;

/// A text, an index in it, and the number that stands there with the index after it.
type Numbers = (&'static str, usize, Option<(u64, usize)>);

/// Asserts that the number that was read is as expected. `text` is printed if it isn't.
fn assert_value(
    rt: &impl Abort,
    text: &str,
    found: Option<(u64, usize)>,
    expected: Option<(u64, usize)>,
) {
    assert!(rt; found == expected, "{text}");
}

#[test]
fn numbers_and_sequence_ids(rt: HostRuntime) {
    let numbers: &[Numbers] = &[
        ("0", 0, Some((0, 1))),
        ("x0070y", 1, Some((70, 5))),
        (
            "18446744073709551615_",
            0,
            Some((18_446_744_073_709_551_615, 20)),
        ),
        ("18446744073709551616", 0, None),
        ("184467440737095516150", 0, None),
        ("n1", 0, None),
        ("1", 1, None),
        ("", 0, None),
    ];
    for (text, at, expected) in numbers {
        assert_value(&rt, text, number(text.as_bytes(), *at), *expected);
    }
    let ids: &[Numbers] = &[
        ("S1_", 1, Some((1, 2))),
        ("Z_", 0, Some((35, 1))),
        ("10_", 0, Some((36, 2))),
        ("3W5E11264SGSF_", 0, Some((18_446_744_073_709_551_615, 13))),
        ("3W5E11264SGSG_", 0, None),
        ("_", 0, None),
        ("a_", 0, None),
    ];
    for (text, at, expected) in ids {
        assert_value(&rt, text, sequence_id(text.as_bytes(), *at), *expected);
    }
}

/// Asserts that the source name that was read is as expected.
fn assert_name(
    rt: &impl Abort,
    text: &str,
    found: Option<(usize, usize)>,
    expected: Option<(usize, usize)>,
) {
    assert!(rt; found == expected, "{text}");
}

#[test]
fn source_names(rt: HostRuntime) {
    let rows: &[(&str, usize, Option<(usize, usize)>)] = &[
        ("3foo", 0, Some((1, 4))),
        ("N03food", 1, Some((3, 6))),
        ("12_GLOBAL__N_1x", 0, Some((2, 14))),
        ("4foo", 0, None),
        ("0", 0, None),
        ("18446744073709551615", 0, None),
        ("foo", 0, None),
    ];
    for (text, at, expected) in rows {
        assert_name(&rt, text, source_name(text.as_bytes(), *at), *expected);
    }
}

/// Asserts that the number that was read, with the bytes after it, is as expected.
fn assert_index(
    rt: &impl Abort,
    text: &str,
    found: Option<(usize, &[u8])>,
    expected: Option<(usize, &str)>,
) {
    let expected = expected.map(|(number, rest)| (number, rest.as_bytes()));
    assert!(rt; found == expected, "{text}");
}

#[test]
fn indices_and_levels(rt: HostRuntime) {
    let rows: &[(&str, Option<(usize, &str)>)] = &[
        ("0_", Some((1, ""))),
        ("12_0_", Some((13, "0_"))),
        ("18446744073709551614_", Some((usize::MAX, ""))),
        ("18446744073709551615_", None),
        ("99999999999999999999999999_", None),
        ("1", None),
        ("A_", None),
        ("", None),
    ];
    for (text, expected) in rows {
        assert_index(
            &rt,
            text,
            index_of(Radix::Decimal, text.as_bytes()),
            *expected,
        );
        assert_index(&rt, text, level_of(text.as_bytes()), *expected);
    }
    assert_index(&rt, "_E", index_of(Radix::Decimal, b"_E"), Some((0, "E")));
    assert_index(&rt, "_E", level_of(b"_E"), None);
}

/// Asserts that the text that was read, with the bytes after it, is as expected.
fn assert_split(
    rt: &impl Abort,
    text: &str,
    found: Option<(&[u8], &[u8])>,
    expected: Option<(&str, &str)>,
) {
    let expected = expected.map(|(front, rest)| (front.as_bytes(), rest.as_bytes()));
    assert!(rt; found == expected, "{text}");
}

#[test]
fn texts_of_numbers(rt: HostRuntime) {
    let numbers: &[(&str, Option<(&str, &str)>)] = &[
        ("n007E", Some(("n007", "E"))),
        (
            "12345678901234567890123_",
            Some(("12345678901234567890123", "_")),
        ),
        ("nn1", None),
        ("nE", None),
        ("n", None),
    ];
    for (text, expected) in numbers {
        assert_split(&rt, text, number_text(text.as_bytes()), *expected);
        assert_split(&rt, text, optional_number_text(text.as_bytes()), *expected);
    }
    for text in ["E", ""] {
        assert_split(&rt, text, number_text(text.as_bytes()), None);
        assert_split(
            &rt,
            text,
            optional_number_text(text.as_bytes()),
            Some(("", text)),
        );
    }
}

#[test]
fn digits_and_identifiers(rt: HostRuntime) {
    let rows: &[(&str, (&str, &str))] = &[
        ("0070y", ("0070", "y")),
        (
            "99999999999999999999999999_",
            ("99999999999999999999999999", "_"),
        ),
        ("n1", ("", "n1")),
        ("", ("", "")),
    ];
    for (text, expected) in rows {
        assert_split(
            &rt,
            text,
            Some(digits(Radix::Decimal, text.as_bytes())),
            Some(*expected),
        );
    }
    assert_split(
        &rt,
        "1ZA_",
        Some(digits(Radix::Base36, b"1ZA_")),
        Some(("1ZA", "_")),
    );
    assert_split(&rt, "a", Some(digits(Radix::Base36, b"a")), Some(("", "a")));
    let identifiers: &[(&str, Option<(&str, &str)>)] = &[
        ("3foov", Some(("foo", "v"))),
        ("12_GLOBAL__N_1x", Some(("_GLOBAL__N_1", "x"))),
        ("03foo", None),
        ("4foo", None),
        ("0", None),
        ("18446744073709551617x", None),
        ("foo", None),
        ("", None),
    ];
    for (text, expected) in identifiers {
        assert_split(&rt, text, identifier(text.as_bytes()), *expected);
    }
}

/// Asserts that the call offset that was read is as expected.
fn assert_offset(
    rt: &impl Abort,
    text: &str,
    found: Option<(CallOffset, usize)>,
    expected: Option<(CallOffset, usize)>,
) {
    assert!(rt; found == expected, "{text}");
}

/// Returns a number with a minus or without one.
fn signed(negative: bool, magnitude: u64) -> Signed {
    Signed {
        negative,
        magnitude,
    }
}

#[test]
fn call_offsets(rt: HostRuntime) {
    let plain = CallOffset::Plain(signed(true, 8));
    let pair = CallOffset::Virtual(signed(false, 0), signed(true, 16));
    let zero = CallOffset::Plain(signed(false, 0));
    let great = CallOffset::Plain(signed(true, 18_446_744_073_709_551_615));
    let rows: &[(&str, usize, Option<(CallOffset, usize)>)] = &[
        ("Thn8_N3Foo3barEv", 1, Some((plain, 5))),
        ("Tcv0_n16_h8_N3Foo3barEv", 2, Some((pair, 9))),
        ("hn0_1f", 0, Some((zero, 4))),
        ("hn18446744073709551615_1f", 0, Some((great, 23))),
        ("h18446744073709551616_1f", 0, None),
        ("h8", 0, None),
        ("v0_1f", 0, None),
        ("h_", 0, None),
        ("8_", 0, None),
        ("", 0, None),
    ];
    for (text, at, expected) in rows {
        assert_offset(&rt, text, call_offset(text.as_bytes(), *at), *expected);
    }
}

/// The operators with one operand: for each the code, and right after it the text.
const UNARY: &str = "ps+\nng-\nad&\nde*\nco~\nnt!\npp++\nmm--\ndl delete\nda delete[]";

/// The operators with two operands, in the same form.
const BINARY: &str =
    "nw new\nna new[]\npl+\nmi-\nml*\ndv/\nrm%\nan&\nor|\neo^\naS=\npL+=\nmI-=\nmL*=\ndV/=\n\
    rM%=\naN&=\noR|=\neO^=\nls<<\nrs>>\nlS<<=\nrS>>=\neq==\nne!=\nlt<\ngt>\nle<=\nge>=\naa&&\noo||\ncm,\n\
    pm->*\npt->\ncl()\nix[]\nss<=>";

/// The codes of expressions that are refused.
const REFUSED: &str =
    "cl cv tl il dc sc cc rc ti te st sz at az nx so dt pt ds sZ sP sp tw tr gs nw na dl da";

/// Operators that are read, the fronts of literals and parameters, and codes that don't exist.
const OTHERS: &str = "ps mi gt qu pp mm ix pm ss ad L_ LZ Li T_ TL CL lc sr on fp __";

/// Asserts that the operators of the table have these texts, and so many operands.
fn assert_operators(rt: &impl Abort, table: &str, operands: u8) {
    for line in table.lines() {
        let [first, second, text @ ..] = line.as_bytes() else {
            panic!(rt; "no code: {line}");
        };
        let found = operator_text(*first, *second).map(|text| text.as_bytes());
        assert!(rt; found == Some(text), "{line}");
        assert!(rt; operator_arity(*first, *second) == Some(operands), "{line}");
    }
}

#[test]
fn operators(rt: HostRuntime) {
    assert_operators(&rt, UNARY, 1);
    assert_operators(&rt, BINARY, 2);
    assert_operators(&rt, "qu?:", 3);
    for [first, second] in [*b"cv", *b"li"] {
        assert!(rt; operator_text(first, second).is_none());
        assert!(rt; operator_arity(first, second).is_none());
    }
}

/// Asserts whether expressions that begin with one of these codes are refused.
fn assert_refused(rt: &impl Abort, codes: &str, expected: bool) {
    for code in codes.split(' ') {
        let [first, second] = code.as_bytes() else {
            panic!(rt; "no code: {code}");
        };
        assert!(rt; expression_refused(*first, *second) == expected, "{code}");
    }
}

#[test]
fn refused_expressions(rt: HostRuntime) {
    assert_refused(&rt, REFUSED, true);
    assert_refused(&rt, OTHERS, false);
}
