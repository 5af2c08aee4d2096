//! Recording changes of a tree, spacing and indentation.
#![tactic(auto)]

mod annotate;
mod any_error;
mod ast_node_edit;
mod attrs_owner_edit;
mod editor;
mod error;
mod factory;
mod fresh_node;
pub mod laws;
mod merge;
mod next_edit;
mod record;
mod spaced_insert;
mod typed_editor;
mod wrap;
mod wrap_error;
mod wrapper;

pub use any_error::Error;
pub use ast_node_edit::AstNodeEdit;
pub use attrs_owner_edit::AttrsOwnerEdit;
pub use edit_map::{MapError, SyntaxMapping, SyntaxMappingBuilder};
pub use edit_plan::{
    Annotations, ApplyError, Change, ComposeError, Cursor, EditEngine, EditError, EditPlan,
    EditRun, Element, ElementCursor, ElementList, EngineError, ExecuteError, OnePassEngine,
    OrderError, Position, Rewritten, SpliceEngine, SyntaxAnnotation, SyntaxEdit, TextEdit,
    TextEdits,
};
pub use editor::SyntaxEditor;
pub use error::{MergeError, RecordError};
pub use factory::SyntaxFactory;
pub use next_edit::NextEdit;
pub use whitespace::{IndentError, IndentLevel, indent};
pub use wrap_error::WrapError;
