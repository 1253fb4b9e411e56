//! Edits of a buffer's pieces. Each edit is one step: from the shapes of a tree's parts to the shape of the tree.
//!
//! An edit invalidates the pieces that were made since the innermost open mark, except the piece that it returns.
//! Older pieces keep their shapes, and so do the substitution table and the arguments of the scopes. An edit returns
//! an error only if an allocation fails. Then all pieces and marks made before are lost, and no clause says what the
//! output and the lists are. Calls of the buffer that require nothing, such as `clear`, keep their contracts.
//!
//! If a piece ends the output, and began at that mark or later, most edits change it where it is and leave no other
//! byte after the mark (`in_place`). The other edits put their text at the end of the output (`appends`).
//!
//! Some shapes can be made in two ways, which give the same shape. The first way takes pieces that are complete:
//! `default_arg`, `qualify`, `attach_template_args`, `format_params`, `function_type`. The second way makes the text
//! in the order in which the symbol is read. The text is opened first (`open_default_arg`, `open_parent`,
//! `open_arguments`, `open_params`, `open_function`). Then the parts follow. The caller writes the `, ` between them.
//! It appends each parameter by `append_piece`, and writes template arguments right after the list. At last the text
//! is closed (`append_leaf`, `close_arguments`, `close_params`, `close_function`).
//!
//! The pieces are those of `demangle_text`. Begin with `names.rt`, and then read `types.rt` and `lists.rt`. The
//! definitions of their shapes are in the files of the same names in `specs/`.
#![tactic(auto)]

/// The value of a result. An error is returned from the function around it, as it is. `?` also converts the error,
/// which each proof has to follow. The macro stands above the modules, because it can only be used below.
macro_rules! tri {
    ($result:expr) => {
        match $result {
            Ok(value) => value,
            Err(error) => return Err(error),
        }
    };
}

mod appends;
mod dimensions;
mod expressions;
mod glue_parts;
mod lists;
mod names;
mod types;

pub use crate::appends::append_piece;
pub use crate::expressions::{address, subexpr, write_literal, write_opened_literal};
pub use crate::glue_parts::Glue;
pub use crate::lists::{
    append_number, close_arguments, close_lambda, close_params, glue, open_arguments, open_params,
};
pub use crate::names::{
    append_leaf, apply_name_qualifiers, attach_template_args, default_arg, format_params,
    open_default_arg, open_parent, qualify, qualify_ctor, qualify_text, tag,
};
pub use crate::types::{
    close_function, collapse_ref, expand, function_type, open_function, wrap_array, wrap_cv,
    wrap_member_pointer, wrap_pointer,
};
pub use demangle_quals::{Pointer, Quals, Reference};
