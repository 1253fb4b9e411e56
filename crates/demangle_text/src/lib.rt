//! Pieces of demangled text, each with the shape of a C++ declarator, in one buffer.
//!
//! A shape is plain or declared. A plain shape is a text. A declared shape is the type of an array or a function: a
//! text `before` the pointers and references to it, a parenthesized `group` of these, if there is one, and a text
//! `after` them. A shape also has its base name as a range of its text, and two flags.
//!
//! The methods of a `Buffer` return pieces. A piece is a small value that stands for a text in the buffer, with its
//! shape. `open` returns a mark, and `close` takes it back. A change is a call that changes a text, such as `append`.
//! It invalidates every piece made since the innermost mark, except the one that it returns. Older pieces keep their
//! shapes. No clause says anything of an invalid piece. A buffer also keeps the substitution table and a list of
//! scopes, each of which is a list of shapes.
//!
//! New text goes to the end of one output, which `main_bytes` lends. If a piece ends the output, and begins at the
//! innermost mark or later, it is changed in place. `close` leaves nothing but its piece after the mark. Both may move
//! bytes. Saved pieces and arguments that a move shifts as a whole get new places. Those that it would split or
//! overwrite are copied to a second text first, the spill.
//!
//! The texts are those of `growing_text`. Begin with `pieces.rt`, then read `buffer.rt`, and then the definitions in
//! `specs/Shape`.
#![tactic(auto)]

/// The value of a result. An error is returned from the function around it, as it is. `?` also converts the error,
/// which each proof has to follow. The macro stands above the modules, because it can only be used below.
macro_rules! tri {
    ($result:expr) => {
        match $result {
            Ok(value) => value,
            Err(error) => return Err(error),
        }
    };
}

mod buffer;
mod moves;
mod output_end;
mod piece_list;
mod pieces;
mod splices;
mod tables;

pub use crate::buffer::Buffer;
pub use crate::pieces::{Kind, Mark, Piece, Place};
