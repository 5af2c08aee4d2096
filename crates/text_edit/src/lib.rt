//! Edits of texts, which know no trees: lists of edits applied, composed, inverted and trimmed, and cursors in them.
#![tactic(auto)]

mod apply;
mod apply_error;
mod characters;
mod compose;
mod compose_error;
mod cursor;
mod inverse;
mod line_index;
mod order_error;
mod text_edit;
mod text_edits;
mod trim;
mod wide;

pub use apply_error::ApplyError;
pub use compose_error::ComposeError;
pub use cursor::Cursor;
pub use line_index::{LineCol, LineIndex};
pub use order_error::OrderError;
pub use text_edit::TextEdit;
pub use text_edits::TextEdits;
pub use wide::{WideEncoding, WideLineCol};
