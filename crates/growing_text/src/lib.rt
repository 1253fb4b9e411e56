//! `Text`, a string of bytes that grows. Its vector is always as long as what is reserved, and a length says how many
//! of the first bytes are the text.
//!
//! Bytes are appended, or inserted at a place; then what is after that place moves on. Texts of 4 to 64 bytes are
//! copied by their first lane and their last one, which may overlap, so that no loop is needed.
//!
//! The crate uses std alone, and knows nothing of symbols. `demangle_text` keeps its output and its spill in such
//! texts, and `symfilter_engine` its output. Begin with the type `Text` in `text.rt`. `lanes.rt` copies short texts.
#![tactic(auto)]

mod lanes;
mod text;

pub use crate::text::Text;
