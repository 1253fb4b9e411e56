//! The rows of special names and of types (Itanium C++ ABI 5.1.4, 5.1.5).
#![tactic(auto, unfolding(cxx_grammar::specs::Rows::t_special_of, cxx_grammar::specs::Rows::g_special_of, cxx_grammar::specs::Rows::type_row_of))]

ghost use Rattle.std.specs.Prelude.{◌≡◌, ◌<◌, [], ◌∷◌, Some, length, option_map, IfSome};
ghost use Rattle.cxx_grammar.specs.declared.rows.Item.TheVariants.{CallOffset, Encoding};
ghost use Rattle.cxx_grammar.specs.declared.rows.Maker.TheVariants.{Prefixed, Enclosing, Suffixed};
ghost use Rattle.cxx_tree.specs.declared.kinds.Prec.TheVariants.{Primary};
ghost use Rattle.cxx_grammar.specs.Rows as spec;
ghost use Rattle.cxx_reader.specs.Rows.{row_at};

use cxx_grammar::rows::{Item, Maker, Row};
use cxx_tree::Prec;

// A row of words and items, behind a code of so many letters.
fn behind_words(
    skip: usize,
    items: &'static [Item],
    llvm: &'static [u8],
    gnu: &'static [u8],
) -> Option<Row>
    ensures value { result ≡ Some (record {
      skip = skip;
      items = items.entry;
      maker = Prefixed;
      llvm = llvm.entry;
      gnu = gnu.entry;
    }) }
{
    Some(Row {
        skip,
        items,
        maker: Maker::Prefixed,
        llvm,
        gnu,
    })
}

// The same words in both styles, behind a code of two letters.
fn behind(words: &'static [u8], items: &'static [Item]) -> Option<Row>
    ensures value { result ≡ Some (record {
      skip = 2;
      items = items.entry;
      maker = Prefixed;
      llvm = words.entry;
      gnu = words.entry;
    }) }
{
    behind_words(2, items, words, words)
}

/// Returns the row of the `<special-name>` whose code is next, or `None` if there is none.
pub fn special_row(bytes: &[u8]) -> Option<Row>
    ensures value { option_map row_at result ≡ spec.special_of bytes.now }
    ensures some { IfSome result (λ row. (0 < row.skip) × (0 < length bytes.now)) }
{
    match bytes {
        [b'T', rest @ ..] => t_special_row(rest),
        [b'G', rest @ ..] => g_special_row(rest),
        _ => None,
    }
}

// The row of a special name, after its `T`.
fn t_special_row(bytes: &[u8]) -> Option<Row>
    ensures value { option_map row_at result ≡ spec.t_special_of bytes.now }
    ensures some { IfSome result (λ row. 0 < row.skip) }
{
    match bytes {
        [b'V', ..] => behind(b"vtable for ", &[Item::Type]),
        [b'T', ..] => behind(b"VTT for ", &[Item::Type]),
        [b'I', ..] => behind(b"typeinfo for ", &[Item::Type]),
        [b'S', ..] => behind(b"typeinfo name for ", &[Item::Type]),
        [b'A', ..] => behind(b"template parameter object for ", &[Item::Arg]),
        [b'C', ..] => Some(Row {
            skip: 2,
            items: &[Item::Type, Item::Offset, Item::Type],
            maker: Maker::CtorVtable,
            llvm: b"",
            gnu: b"",
        }),
        [b'W', ..] => behind_words(
            2,
            &[Item::Name],
            b"thread-local wrapper routine for ",
            b"TLS wrapper function for ",
        ),
        [b'H', ..] => behind_words(
            2,
            &[Item::Name],
            b"thread-local initialization routine for ",
            b"TLS init function for ",
        ),
        [b'c', ..] => behind(
            b"covariant return thunk to ",
            &[Item::CallOffset, Item::CallOffset, Item::Encoding],
        ),
        [b'h', ..] => thunk(b"non-virtual thunk to "),
        [b'v', ..] => thunk(b"virtual thunk to "),
        _ => None,
    }
}

// The row of a special name, after its `G`.
fn g_special_row(bytes: &[u8]) -> Option<Row>
    ensures value { option_map row_at result ≡ spec.g_special_of bytes.now }
    ensures some { IfSome result (λ row. 0 < row.skip) }
{
    match bytes {
        [b'V', ..] => behind(b"guard variable for ", &[Item::Name]),
        [b'R', ..] => behind(b"reference temporary for ", &[Item::Name, Item::SeqId]),
        [b'I', ..] => behind(b"initializer for module ", &[Item::Module]),
        [b'T', b't', ..] => clone(b"transaction clone for "),
        [b'T', b'n', ..] => clone(b"non-transaction clone for "),
        _ => None,
    }
}

// The row of a thunk, whose offset begins with the second letter of its code.
fn thunk(words: &'static [u8]) -> Option<Row>
    ensures value { option_map row_at result ≡ Some (record {
      skip = 1;
      items = CallOffset ∷ Encoding ∷ [];
      maker = Prefixed;
      words = record { llvm = words.entry.now; gnu = words.entry.now };
    }) }
    ensures some { IfSome result (λ row. 0 < row.skip) }
{
    behind_words(1, &[Item::CallOffset, Item::Encoding], words, words)
}

// The row of a clone, whose code has three letters.
fn clone(words: &'static [u8]) -> Option<Row>
    ensures value { option_map row_at result ≡ Some (record {
      skip = 3;
      items = Encoding ∷ [];
      maker = Prefixed;
      words = record { llvm = words.entry.now; gnu = words.entry.now };
    }) }
    ensures some { IfSome result (λ row. 0 < row.skip) }
{
    behind_words(3, &[Item::Encoding], words, words)
}

// A row of words and items in parentheses, behind a code of two letters.
fn enclosing(items: &'static [Item], llvm: &'static [u8], gnu: &'static [u8]) -> Row
    ensures value { row_at result ≡ record {
      skip = 2;
      items = items.entry.now;
      maker = Enclosing Primary;
      words = record { llvm = llvm.entry.now; gnu = gnu.entry.now };
    } }
    ensures some { 0 < result.skip }
{
    Row {
        skip: 2,
        items,
        maker: Maker::Enclosing(Prec::Primary),
        llvm,
        gnu,
    }
}

// A row of an item and words, behind a code of two letters.
fn followed_by(words: &'static [u8], items: &'static [Item]) -> Option<Row>
    ensures value { option_map row_at result ≡ Some (record {
      skip = 2;
      items = items.entry.now;
      maker = Suffixed;
      words = record { llvm = words.entry.now; gnu = words.entry.now };
    }) }
    ensures some { IfSome result (λ row. 0 < row.skip) }
{
    Some(Row {
        skip: 2,
        items,
        maker: Maker::Suffixed,
        llvm: words,
        gnu: words,
    })
}

/// Returns the row of the type whose code is next, or `None` if there is none.
pub fn type_row(bytes: &[u8]) -> Option<Row>
    ensures value { option_map row_at result ≡ spec.type_row_of bytes.now }
    ensures some { IfSome result (λ row. (0 < row.skip) × (0 < length bytes.now)) }
{
    match bytes {
        [b'D', b't' | b'T', ..] => Some(decltype_row()),
        [b'D', b'B', ..] => Some(enclosing(&[Item::Size], b"_BitInt", b"_BitInt")),
        [b'D', b'U', ..] => Some(enclosing(
            &[Item::Size],
            b"unsigned _BitInt",
            b"unsigned _BitInt",
        )),
        [b'D', b'k', ..] => followed_by(b" auto", &[Item::Name]),
        [b'D', b'K', ..] => followed_by(b" decltype(auto)", &[Item::Name]),
        [b'T', b's', ..] => behind(b"struct ", &[Item::Name]),
        [b'T', b'u', ..] => behind(b"union ", &[Item::Name]),
        [b'T', b'e', ..] => behind(b"enum ", &[Item::Name]),
        _ => None,
    }
}

/// Returns the row `<decltype> ::= Dt <expression> E | DT <expression> E`.
pub fn decltype_row() -> Row
    ensures value { row_at result ≡ spec.decltype_row }
    ensures some { 0 < result.skip }
{
    enclosing(&[Item::Expression, Item::E], b"decltype", b"decltype ")
}

/// Returns the row `DO <expression> E` of an `<exception-spec>`.
pub fn computed_noexcept_row() -> Row
    ensures value { row_at result ≡ spec.computed_noexcept_row }
    ensures some { 0 < result.skip }
{
    enclosing(&[Item::Expression, Item::E], b"noexcept", b"noexcept")
}

/// Returns the row `DC <source-name>+ E` of an `<unqualified-name>`.
pub fn bindings_row() -> Row
    ensures value { row_at result ≡ spec.bindings_row }
    ensures some { 0 < result.skip }
{
    Row {
        skip: 2,
        items: &[Item::SourceName, Item::SourceNames],
        maker: Maker::Bindings,
        llvm: b"",
        gnu: b"",
    }
}

// The row of a tree that nothing is made of.
fn same_row(skip: usize, items: &'static [Item]) -> Row
    requires skip { 0 < skip }
    ensures value { row_at result ≡ spec.same_row skip items.entry.now }
    ensures some { 0 < result.skip }
{
    Row {
        skip,
        items,
        maker: Maker::Same,
        llvm: b"",
        gnu: b"",
    }
}

/// Returns the row `X <expression> E` of a `<template-arg>`.
pub fn expression_arg_row() -> Row
    ensures value { row_at result ≡ spec.expression_arg_row }
    ensures some { 0 < result.skip }
{
    same_row(1, &[Item::Expression, Item::E])
}

/// Returns the row `_Z <encoding> E` of an `<expr-primary>`, which is that of `LZ <encoding> E` too.
pub fn encoding_row() -> Row
    ensures value { row_at result ≡ spec.encoding_row }
    ensures some { 0 < result.skip }
{
    same_row(2, &[Item::Encoding, Item::E])
}
