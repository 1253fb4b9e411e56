//! Appending of texts and words.
#![tactic(auto, using(crate::proofs::Appended::prints), unfolding(crate::specs::Words::cv_text, crate::specs::Words::ref_text, crate::specs::Words::mark, crate::specs::Words::opened, crate::specs::Words::closed))]

ghost use Rattle.std.specs.Prelude.{◌≡◌, ℕ, ◌+◌, ◌≤◌, Bool, List, [], ◌∷◌, ◌++◌, codes, if◌then◌else◌};
ghost use Rattle.std.specs.Fmt.{decimal};
ghost use Rattle.cxx_tree.specs.Stored.{IsText, text_at};
ghost use Rattle.cxx_printer.specs.Print as spec;
ghost use Rattle.cxx_printer.specs.Prints.{Prints};
ghost use Rattle.cxx_printer.specs.Words as words;

use crate::env::Env;
use crate::words::{Form, cv_text, std_text};
use cxx_tree::{Arena, Cv, MOST_DIGITS, NodeText, RefQual, Std, number_bytes};
use growing_text::Text;
use std::alloc::AllocError;

/// Appends a text.
#[inline(always)]
#[tactic(auto, using(crate::proofs::Appended::prints_added))]
pub fn write(out: &mut Text, text: &[u8]) -> Result<(), AllocError>
    ensures prints { Prints result out.old out.new text.now }
{
    out.add_short(text)
}

/// Appends a byte.
#[inline(always)]
#[tactic(auto, using(crate::proofs::Appended::prints_added))]
pub fn write_byte(out: &mut Text, byte: u8) -> Result<(), AllocError>
    ensures prints { Prints result out.old out.new (byte ∷ []) }
{
    out.add_byte(byte)
}

/// Appends a word, and a text after it.
#[inline(always)]
#[tactic(auto, using(crate::proofs::Appended::prints_added))]
pub fn write_behind(out: &mut Text, word: &[u8], text: &[u8]) -> Result<(), AllocError>
    ensures prints { Prints result out.old out.new (word.now ++ text.now) }
{
    out.add_behind(word, text)
}

/// Appends two texts with `::` between them.
#[inline(always)]
#[tactic(auto, using(crate::proofs::Appended::prints, crate::proofs::Appended::prints_tried))]
pub fn write_joined(scope: &[u8], name: &[u8], out: &mut Text) -> Result<(), AllocError>
    ensures prints { Prints result out.old out.new (scope.now ++ (codes "::" ++ name.now)) }
{
    if out.try_joined(scope, b"::", name) {
        return Ok(());
    }
    tri!(write(out, scope));
    write_behind(out, b"::", name)
}

/// Appends a text of a node.
#[inline(never)]
pub fn write_text(arena: &Arena, text: &NodeText, out: &mut Text) -> Result<(), AllocError>
    requires within { IsText arena.now.held text.now }
    ensures prints { Prints result out.old out.new (text_at arena.now.held text.now) }
{
    write(out, arena.bytes(*text))
}

/// Returns one of two texts.
#[inline(always)]
pub fn styled_bytes<'a>(arena: &'a Arena, env: Env, llvm: &NodeText, gnu: &NodeText) -> &'a [u8]
    requires llvm { IsText arena.now.held llvm.now }
    requires gnu { IsText arena.now.held gnu.now }
    ensures value { result.now ≡ words.styled env (text_at arena.now.held llvm.now) (text_at arena.now.held gnu.now) }
{
    if env.is_llvm() {
        return arena.bytes(*llvm);
    }
    arena.bytes(*gnu)
}

/// Appends one of two texts.
#[inline(always)]
pub fn write_styled(
    arena: &Arena,
    env: Env,
    llvm: &NodeText,
    gnu: &NodeText,
    out: &mut Text,
) -> Result<(), AllocError>
    requires llvm { IsText arena.now.held llvm.now }
    requires gnu { IsText arena.now.held gnu.now }
    ensures prints { Prints result out.old out.new
        (words.styled env (text_at arena.now.held llvm.now) (text_at arena.now.held gnu.now)) }
{
    write(out, styled_bytes(arena, env, llvm, gnu))
}

/// Appends an abbreviation of `std`.
#[inline(never)]
pub fn write_std(env: Env, std: Std, is_expanded: bool, out: &mut Text) -> Result<(), AllocError>
    ensures prints { Prints result out.old out.new (words.std_text env.style std is_expanded) }
{
    write(out, std_text(env.style, std, is_expanded))
}

/// Appends qualifiers, each after a blank.
#[inline(always)]
pub fn write_cv(cv: Cv, out: &mut Text) -> Result<(), AllocError>
    ensures prints { Prints result out.old out.new (words.cv_text cv) }
{
    match (cv.is_const, cv.is_volatile, cv.is_restrict) {
        (false, false, false) => Ok(()),
        _ => write_some_cv(cv, out),
    }
}

#[inline(never)]
fn write_some_cv(cv: Cv, out: &mut Text) -> Result<(), AllocError>
    ensures prints { Prints result out.old out.new (words.cv_text cv) }
{
    write(out, cv_text(cv))
}

/// Appends qualifiers, and the star of a pointer.
#[inline(always)]
pub fn write_star(cv: Cv, out: &mut Text) -> Result<(), AllocError>
    ensures prints { Prints result out.old out.new (words.cv_text cv ++ codes "*") }
{
    match (cv.is_const, cv.is_volatile, cv.is_restrict) {
        (true, false, false) => write(out, b" const*"),
        _ => {
            tri!(write_some_cv(cv, out));
            write_byte(out, b'*')
        }
    }
}

/// Appends qualifiers, and the mark of a reference.
#[inline(always)]
pub fn write_cv_mark(cv: Cv, is_lvalue: bool, out: &mut Text) -> Result<(), AllocError>
    ensures prints { Prints result out.old out.new (words.cv_text cv ++ words.mark is_lvalue) }
{
    match (cv.is_const, cv.is_volatile, cv.is_restrict, is_lvalue) {
        (true, false, false, true) => write(out, b" const&"),
        _ => {
            tri!(write_some_cv(cv, out));
            write_mark(is_lvalue, out)
        }
    }
}

/// Appends the reference qualifier of a function.
#[inline(always)]
pub fn write_ref(ref_qual: RefQual, out: &mut Text) -> Result<(), AllocError>
    ensures prints { Prints result out.old out.new (words.ref_text ref_qual) }
{
    match ref_qual {
        RefQual::None => Ok(()),
        RefQual::Lvalue => write(out, b" &"),
        RefQual::Rvalue => write(out, b" &&"),
    }
}

/// Appends the mark of a reference.
#[inline(always)]
pub fn write_mark(is_lvalue: bool, out: &mut Text) -> Result<(), AllocError>
    ensures prints { Prints result out.old out.new (words.mark is_lvalue) }
{
    if is_lvalue {
        return write_byte(out, b'&');
    }
    write(out, b"&&")
}

/// Appends what stands before the mark of a pointer or a reference to a type.
pub fn write_opened(form: Form, out: &mut Text) -> Result<(), AllocError>
    ensures prints { Prints result out.old out.new (words.opened form) }
{
    match form {
        Form::Plain => Ok(()),
        Form::Arrayed => write(out, b" ("),
        Form::Callable => write(out, b"("),
    }
}

/// Appends what stands before the right side of a type that a pointer or a reference refers to.
pub fn write_closed(form: Form, out: &mut Text) -> Result<(), AllocError>
    ensures prints { Prints result out.old out.new (words.closed form) }
{
    match form {
        Form::Plain => Ok(()),
        Form::Arrayed | Form::Callable => write(out, b")"),
    }
}

/// Appends what stands before an item that isn't the first.
pub fn write_separator(is_first: bool, out: &mut Text) -> Result<(), AllocError>
    ensures prints { Prints result out.old out.new (spec.separator is_first) }
{
    if is_first {
        return Ok(());
    }
    write(out, b", ")
}

/// Appends what stands before an item that isn't the first, if there is capacity for it. Returns whether it did.
#[inline(always)]
pub fn try_separator(is_first: bool, out: &mut Text) -> bool
    ensures value { out.new ≡ (if result then out.old ++ spec.separator is_first else out.old) }
{
    if is_first {
        return true;
    }
    out.try_word(b", ")
}

/// Appends a text as an item of a list.
#[inline(always)]
pub fn write_item(is_first: bool, text: &[u8], out: &mut Text) -> Result<(), AllocError>
    ensures prints { Prints result out.old out.new (spec.item_behind is_first text.now) }
{
    if text.is_empty() {
        return Ok(());
    }
    if is_first {
        return write(out, text);
    }
    write_behind(out, b", ", text)
}

/// Appends a blank unless a type has a right side.
pub fn write_blank_unless(has_right: bool, out: &mut Text) -> Result<(), AllocError>
    ensures prints { Prints result out.old out.new (spec.blank_unless has_right) }
{
    if has_right {
        return Ok(());
    }
    write(out, b" ")
}

/// Appends what stands before a value.
pub fn write_equals(env: Env, out: &mut Text) -> Result<(), AllocError>
    ensures prints { Prints result out.old out.new (words.styled env (codes " = ") (codes "=")) }
{
    if env.is_llvm() {
        return write(out, b" = ");
    }
    write(out, b"=")
}

/// Appends `sizeof...`, and a blank if there is one.
pub fn write_sizeof(has_blank: bool, out: &mut Text) -> Result<(), AllocError>
    ensures prints { Prints result out.old out.new (if has_blank then codes "sizeof... " else codes "sizeof...") }
{
    if has_blank {
        return write(out, b"sizeof... ");
    }
    write(out, b"sizeof...")
}

/// Appends a number.
pub fn write_number(n: u64, out: &mut Text) -> Result<(), AllocError>
    ensures prints { Prints result out.old out.new (decimal n) }
{
    let mut spare = [0; MOST_DIGITS];
    write(out, number_bytes(&mut spare, n as u128))
}

/// Appends an `id` with a protocol.
pub fn write_id(protocol: &[u8], out: &mut Text) -> Result<(), AllocError>
    ensures prints { Prints result out.old out.new (codes "id<" ++ (protocol.now ++ codes ">")) }
{
    tri!(write(out, b"id<"));
    tri!(write(out, protocol));
    write(out, b">")
}
