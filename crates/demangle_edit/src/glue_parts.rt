//! The parts that `glue` joins.

use demangle_text::Piece;

/// A part of a text that `glue` makes.
#[derive(Clone, Copy)]
pub enum Glue<'a> {
    /// These bytes.
    Text(&'a [u8]),
    /// The text of this piece.
    Piece(Piece),
}
