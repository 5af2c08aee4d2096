//! Plans of changes: what is found out of a list of changes, the engines that carry it out, and the edit that comes of it.
#![tactic(auto)]

mod annotation;
mod cursor;
mod edit;
mod edit_error;
mod edit_run;
mod engine;
mod engine_error;
mod execute;
mod execute_error;
mod found;
mod further;
pub mod laws;
mod one_pass_engine;
mod places;
mod plan;
mod plan_stages;
mod plan_text;
mod rewritten;
mod run;
mod splice_engine;

pub use annotation::{Annotations, SyntaxAnnotation};
pub use cursor::ElementCursor;
pub use edit::SyntaxEdit;
pub use edit_change::{Change, Element, ElementList, Position};
pub use edit_error::EditError;
pub use edit_run::EditRun;
pub use engine::EditEngine;
pub use engine_error::EngineError;
pub use execute_error::ExecuteError;
pub use one_pass_engine::OnePassEngine;
pub use plan::EditPlan;
pub use rewritten::Rewritten;
pub use splice_engine::SpliceEngine;
pub use text_edit::{ApplyError, ComposeError, Cursor, OrderError, TextEdit, TextEdits};
