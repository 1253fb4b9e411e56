//! Why a reader stops.

/// Why a reader stops before its production has ended.
#[derive(Clone, Copy)]
pub enum Stop {
    /// The bytes aren't read as the production within the limits: they begin another one, or end early; an index is
    /// past the end of the table or of the scope; a type has no such form, as an array of functions; a literal isn't
    /// UTF-8; too many productions nest; or the text is longer than `MAX_TEXT` bytes.
    Unreadable,
    /// An allocation failed.
    Memory,
}

/// What a reader returns: nothing where it has read its production, or why it stopped.
pub type ReadResult = Result<(), Stop>;
