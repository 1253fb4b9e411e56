//! The rows of expressions: operators, and what else is a code, items and a tree (Itanium C++ ABI 5.1.6).
#![tactic(auto, unfolding(cxx_grammar::specs::Operators::fold_row_of, cxx_grammar::specs::Operators::expression_row_of, cxx_grammar::specs::Operators::braced_row_of))]

ghost use Rattle.std.specs.Prelude.{◌≡◌, ◌<◌, [], ◌∷◌, Some, length, option_map, IfSome};
ghost use Rattle.abi_scalars.specs.Bytes.{letter};
ghost use Rattle.cxx_tree.specs.declared.kinds.Prec.TheVariants as precedence;
ghost use Rattle.cxx_grammar.specs.declared.rows.Item.TheVariants as item;
ghost use Rattle.cxx_grammar.specs.declared.rows.Maker.TheVariants as maker;
ghost use Rattle.cxx_grammar.specs.Operators as spec;
ghost use Rattle.cxx_grammar.specs.Rows.{coded};
ghost use Rattle.cxx_grammar.specs.Words.{row};
ghost use Rattle.cxx_reader.specs.Rows.{row_at};

use crate::cases::begins;
use cxx_grammar::rows::{Item, Maker, Row};
use cxx_tree::Prec;

// A row behind a code of two letters, with the same words in both styles.
fn made(maker: Maker, words: &'static [u8], items: &'static [Item]) -> Option<Row>
    ensures value { option_map row_at result ≡ Some (coded maker words.entry.now items.entry.now) }
    ensures some { IfSome result (λ row. 0 < row.skip) }
{
    longer(2, maker, words, items)
}

// The same behind a code of so many letters.
fn longer(skip: usize, maker: Maker, words: &'static [u8], items: &'static [Item]) -> Option<Row>
    requires skip { 0 < skip }
    ensures value { option_map row_at result ≡ Some (record (coded maker words.entry.now items.entry.now) { skip = skip }) }
    ensures some { IfSome result (λ row. 0 < row.skip) }
{
    Some(Row {
        skip,
        items,
        maker,
        llvm: words,
        gnu: words,
    })
}

// The row of an operator between its operands.
fn between(symbol: &'static [u8], prec: Prec) -> Option<Row>
    ensures value { option_map row_at result ≡ Some (coded (maker.Binary prec) symbol.entry.now spec.two_operands) }
    ensures some { IfSome result (λ row. 0 < row.skip) }
{
    made(
        Maker::Binary(prec),
        symbol,
        &[Item::Expression, Item::Expression],
    )
}

// The row of an assignment.
fn assigned(symbol: &'static [u8]) -> Option<Row>
    ensures value { option_map row_at result ≡ Some (coded (maker.Binary precedence.Assign) symbol.entry.now
        spec.two_operands) }
    ensures some { IfSome result (λ row. 0 < row.skip) }
{
    between(symbol, Prec::Assign)
}

// The row of an assignment, by its code.
fn assignment_row(first: u8, second: u8) -> Option<Row>
    ensures value { option_map row_at result ≡ row spec.assignment_rows (first ∷ second ∷ []) }
    ensures some { IfSome result (λ row. 0 < row.skip) }
{
    match (first, second) {
        (b'a', b'N') => assigned(b"&="),
        (b'a', b'S') => assigned(b"="),
        (b'd', b'V') => assigned(b"/="),
        (b'e', b'O') => assigned(b"^="),
        (b'l', b'S') => assigned(b"<<="),
        (b'm', b'I') => assigned(b"-="),
        (b'm', b'L') => assigned(b"*="),
        (b'o', b'R') => assigned(b"|="),
        (b'p', b'L') => assigned(b"+="),
        (b'r', b'M') => assigned(b"%="),
        (b'r', b'S') => assigned(b">>="),
        _ => None,
    }
}

// The row of a binary operator.
fn binary_row(first: u8, second: u8) -> Option<Row>
    ensures value { option_map row_at result ≡ row spec.binary_rows (first ∷ second ∷ []) }
    ensures some { IfSome result (λ row. 0 < row.skip) }
{
    match (first, second) {
        (b'a', b'a') => between(b"&&", Prec::AndIf),
        (b'a', b'n') => between(b"&", Prec::And),
        (b'c', b'm') => between(b",", Prec::Comma),
        (b'd', b'v') => between(b"/", Prec::Multiplicative),
        (b'e', b'o') => between(b"^", Prec::Xor),
        (b'e', b'q') => between(b"==", Prec::Equality),
        (b'g', b'e') => between(b">=", Prec::Relational),
        (b'g', b't') => between(b">", Prec::Relational),
        (b'l', b'e') => between(b"<=", Prec::Relational),
        (b'l', b's') => between(b"<<", Prec::Shift),
        (b'l', b't') => between(b"<", Prec::Relational),
        (b'm', b'i') => between(b"-", Prec::Additive),
        (b'm', b'l') => between(b"*", Prec::Multiplicative),
        (b'n', b'e') => between(b"!=", Prec::Equality),
        (b'o', b'o') => between(b"||", Prec::OrIf),
        (b'o', b'r') => between(b"|", Prec::Ior),
        (b'p', b'l') => between(b"+", Prec::Additive),
        (b'r', b'm') => between(b"%", Prec::Multiplicative),
        (b'r', b's') => between(b">>", Prec::Shift),
        (b's', b's') => between(b"<=>", Prec::Spaceship),
        _ => assignment_row(first, second),
    }
}

// The row of an operator between an object and its member.
fn member_by(symbol: &'static [u8], prec: Prec) -> Option<Row>
    ensures value { option_map row_at result ≡ Some (coded (maker.Member prec) symbol.entry.now spec.two_operands) }
    ensures some { IfSome result (λ row. 0 < row.skip) }
{
    made(
        Maker::Member(prec),
        symbol,
        &[Item::Expression, Item::Expression],
    )
}

// The row of an operator that a fold may have.
fn foldable_row(first: u8, second: u8) -> Option<Row>
    ensures value { option_map row_at result ≡ row spec.foldable_rows (first ∷ second ∷ []) }
    ensures some { IfSome result (λ row. 0 < row.skip) }
{
    match (first, second) {
        (b'd', b's') => member_by(b".*", Prec::PtrMem),
        (b'p', b'm') => member_by(b"->*", Prec::PtrMem),
        _ => binary_row(first, second),
    }
}

// The row of an operator in front of its operand.
fn in_front(symbol: &'static [u8]) -> Option<Row>
    ensures value { option_map row_at result ≡ Some (coded (maker.Prefix precedence.Unary) symbol.entry.now
        spec.one_operand) }
    ensures some { IfSome result (λ row. 0 < row.skip) }
{
    made(Maker::Prefix(Prec::Unary), symbol, &[Item::Expression])
}

// The row of an operator behind its operand.
fn postfix(symbol: &'static [u8]) -> Option<Row>
    ensures value { option_map row_at result ≡ Some (coded maker.Postfix symbol.entry.now spec.one_operand) }
    ensures some { IfSome result (λ row. 0 < row.skip) }
{
    made(Maker::Postfix, symbol, &[Item::Expression])
}

// The row of a word in front of a type in parentheses.
fn word_of_type(word: &'static [u8], prec: Prec) -> Option<Row>
    ensures value { option_map row_at result ≡ Some (coded (maker.Enclosing prec) word.entry.now (item.Type ∷ [])) }
    ensures some { IfSome result (λ row. 0 < row.skip) }
{
    made(Maker::Enclosing(prec), word, &[Item::Type])
}

// The row of a word in front of an expression in parentheses.
fn word_of_operand(word: &'static [u8], prec: Prec) -> Option<Row>
    ensures value { option_map row_at result ≡ Some (coded (maker.Enclosing prec) word.entry.now spec.one_operand) }
    ensures some { IfSome result (λ row. 0 < row.skip) }
{
    made(Maker::Enclosing(prec), word, &[Item::Expression])
}

// The row of an operator of one operand, or of one that a fold may have.
fn unary_row(first: u8, second: u8) -> Option<Row>
    ensures value { option_map row_at result ≡ row spec.unary_rows (first ∷ second ∷ []) }
    ensures some { IfSome result (λ row. 0 < row.skip) }
{
    match (first, second) {
        (b'a', b'd') => in_front(b"&"),
        (b'c', b'o') => in_front(b"~"),
        (b'd', b'e') => in_front(b"*"),
        (b'n', b'g') => in_front(b"-"),
        (b'n', b't') => in_front(b"!"),
        (b'p', b's') => in_front(b"+"),
        (b'm', b'm') => postfix(b"--"),
        (b'p', b'p') => postfix(b"++"),
        (b'd', b'l') => made(Maker::Unary, b"delete ", &[Item::Expression]),
        (b'd', b'a') => made(Maker::Unary, b"delete[] ", &[Item::Expression]),
        (b'a', b't') => word_of_type(b"alignof ", Prec::Unary),
        (b's', b't') => word_of_type(b"sizeof ", Prec::Unary),
        (b't', b'i') => word_of_type(b"typeid ", Prec::Postfix),
        (b'a', b'z') => word_of_operand(b"alignof ", Prec::Unary),
        (b's', b'z') => word_of_operand(b"sizeof ", Prec::Unary),
        (b't', b'e') => word_of_operand(b"typeid ", Prec::Postfix),
        (b'n', b'x') => word_of_operand(b"noexcept ", Prec::Unary),
        _ => foldable_row(first, second),
    }
}

// The row of a named cast.
fn cast_by(word: &'static [u8]) -> Option<Row>
    ensures value { option_map row_at result ≡ Some (coded maker.NamedCast word.entry.now
        (item.Type ∷ item.Expression ∷ [])) }
    ensures some { IfSome result (λ row. 0 < row.skip) }
{
    made(Maker::NamedCast, word, &[Item::Type, Item::Expression])
}

// The row of an expression with a code of two letters.
fn coded_row(first: u8, second: u8) -> Option<Row>
    ensures value { option_map row_at result ≡ row spec.coded_rows (first ∷ second ∷ []) }
    ensures some { IfSome result (λ row. 0 < row.skip) }
{
    match (first, second) {
        (b'c', b'c') => cast_by(b"const_cast"),
        (b'd', b'c') => cast_by(b"dynamic_cast"),
        (b'r', b'c') => cast_by(b"reinterpret_cast"),
        (b's', b'c') => cast_by(b"static_cast"),
        (b'd', b't') => member_by(b".", Prec::Postfix),
        (b'p', b't') => member_by(b"->", Prec::Postfix),
        (b'c', b'l') => made(Maker::Call, b"", &[Item::Expression, Item::Expressions]),
        (b'i', b'x') => made(Maker::Subscript, b"", &[Item::Expression, Item::Expression]),
        (b'q', b'u') => made(
            Maker::Conditional,
            b"",
            &[Item::Expression, Item::Expression, Item::Expression],
        ),
        (b'c', b'v') => made(
            Maker::Conversion(Prec::Cast),
            b"",
            &[Item::BareType, Item::Operands],
        ),
        (b'm', b'c') => made(
            Maker::Conversion(Prec::Unary),
            b"",
            &[Item::Type, Item::Expression, Item::Number, Item::E],
        ),
        _ => word_row(first, second),
    }
}

// The row of a list in braces, of a pack, of `throw`, or of an operator of one operand or between two.
fn word_row(first: u8, second: u8) -> Option<Row>
    ensures value { option_map row_at result ≡ row spec.word_rows (first ∷ second ∷ []) }
    ensures some { IfSome result (λ row. 0 < row.skip) }
{
    match (first, second) {
        (b'i', b'l') => made(Maker::InitList, b"", &[Item::Braces]),
        (b't', b'l') => made(Maker::TypedInitList, b"", &[Item::Type, Item::Braces]),
        (b's', b'p') => made(Maker::Expansion, b"", &[Item::Expression]),
        (b's', b'Z') => made(Maker::CountPack, b"", &[Item::FunctionParam]),
        (b's', b'P') => made(Maker::CountArgs, b"", &[Item::Args]),
        (b't', b'r') => made(Maker::Name, b"throw", &[]),
        (b't', b'w') => made(Maker::Prefixed, b"throw ", &[Item::Expression]),
        _ => unary_row(first, second),
    }
}

// The row of an increment or a decrement in front of its operand.
fn stepped(symbol: &'static [u8]) -> Option<Row>
    ensures value { option_map row_at result ≡ Some (record (coded (maker.Prefix precedence.Postfix) symbol.entry.now
        spec.one_operand) { skip = 3 }) }
    ensures some { IfSome result (λ row. 0 < row.skip) }
{
    longer(3, Maker::Prefix(Prec::Postfix), symbol, &[Item::Expression])
}

// The row of a `delete` behind `gs`.
fn global_delete(word: &'static [u8]) -> Option<Row>
    ensures value { option_map row_at result ≡ Some (record (coded maker.Unary word.entry.now spec.one_operand)
        { skip = 4 }) }
    ensures some { IfSome result (λ row. 0 < row.skip) }
{
    longer(4, Maker::Unary, word, &[Item::Expression])
}

/// Returns the row of the `<expression>` whose code is next, or `None` if there is none.
pub fn expression_row(bytes: &[u8]) -> Option<Row>
    ensures value { option_map row_at result ≡ spec.expression_row_of bytes.now }
    ensures some { IfSome result (λ row. (0 < row.skip) × (0 < length bytes.now)) }
{
    if begins(bytes, b'f') {
        return fold_row(bytes);
    }
    match longer_row(bytes) {
        Some(row) => Some(row),
        None => plain_row(bytes),
    }
}

// The row of an expression whose code has more than two letters.
fn longer_row(bytes: &[u8]) -> Option<Row>
    ensures value { option_map row_at result ≡ row spec.longer_rows bytes.now }
    ensures some { IfSome result (λ row. (0 < row.skip) × (0 < length bytes.now)) }
{
    match bytes {
        [b'm', b'm', b'_', ..] => stepped(b"--"),
        [b'p', b'p', b'_', ..] => stepped(b"++"),
        [b's', b'Z', b'T', ..] => made(Maker::CountPattern, b"", &[Item::TemplateParam]),
        [b'g', b's', b'd', b'l', ..] => global_delete(b"::delete "),
        [b'g', b's', b'd', b'a', ..] => global_delete(b"::delete[] "),
        _ => None,
    }
}

// The row of another expression.
fn plain_row(bytes: &[u8]) -> Option<Row>
    ensures value { option_map row_at result ≡ row spec.coded_rows bytes.now }
    ensures some { IfSome result (λ row. (0 < row.skip) × (0 < length bytes.now)) }
{
    match bytes {
        [first, second, ..] => coded_row(*first, *second),
        _ => None,
    }
}

// The row of `<fold-expr> ::= f (l | r) <operator> <expression> | f (L | R) <operator> <expression> <expression>`.
fn fold_row(bytes: &[u8]) -> Option<Row>
    ensures value { option_map row_at result ≡ spec.fold_row_of bytes.now }
    ensures some { IfSome result (λ row. (0 < row.skip) × (0 < length bytes.now)) }
{
    match bytes {
        [b'f', side, first, second, ..] => match foldable_row(*first, *second) {
            Some(operator) => fold_with(*side, operator),
            None => None,
        },
        _ => None,
    }
}

// The row of a fold with this operator.
fn fold_with(side: u8, operator: Row) -> Option<Row>
    ensures value { option_map row_at result ≡ spec.fold_of (row spec.folds (letter "f" ∷ side ∷ [])) (Some (row_at operator)) }
    ensures some { IfSome result (λ row. 0 < row.skip) }
{
    match side {
        b'l' => folded(Maker::Fold(true), &[Item::Expression], operator),
        b'r' => folded(Maker::Fold(false), &[Item::Expression], operator),
        b'L' => folded(
            Maker::FoldWith(true),
            &[Item::Expression, Item::Expression],
            operator,
        ),
        b'R' => folded(
            Maker::FoldWith(false),
            &[Item::Expression, Item::Expression],
            operator,
        ),
        _ => None,
    }
}

// The row of a fold with these items.
fn folded(maker: Maker, items: &'static [Item], operator: Row) -> Option<Row>
    ensures value { option_map row_at result ≡ Some (record {
      skip = 4;
      items = items.entry.now;
      maker = maker;
      words = (row_at operator).words;
    }) }
    ensures some { IfSome result (λ row. 0 < row.skip) }
{
    Some(Row {
        skip: 4,
        items,
        maker,
        llvm: operator.llvm,
        gnu: operator.gnu,
    })
}

/// Returns the row of the `<braced-expression>` whose code is next, or `None` if there is none.
pub fn braced_row(bytes: &[u8]) -> Option<Row>
    ensures value { option_map row_at result ≡ spec.braced_row_of bytes.now }
    ensures some { IfSome result (λ row. (0 < row.skip) × (0 < length bytes.now)) }
{
    match bytes {
        [b'd', b'i', ..] => made(
            Maker::Designated(false),
            b"",
            &[Item::SourceName, Item::Braced],
        ),
        [b'd', b'x', ..] => made(
            Maker::Designated(true),
            b"",
            &[Item::Expression, Item::Braced],
        ),
        [b'd', b'X', ..] => made(
            Maker::DesignatedRange,
            b"",
            &[Item::Expression, Item::Expression, Item::Braced],
        ),
        _ => None,
    }
}
