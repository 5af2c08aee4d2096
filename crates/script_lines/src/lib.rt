//! The lines of a script of edits, each read by itself.
#![tactic(auto)]

mod detail;
mod dialect;
mod error;
mod fault;
mod field;
mod language;
mod line;
mod name;
mod reference;
mod spaces;

pub use detail::Detail;
pub use dialect::{Dialect, SCRIPT_LIMIT};
pub use error::LineError;
pub use fault::{Fault, Flaw, Wanted};
pub use field::Field;
pub use language::Language;
pub use line::{Line, Shift, WrittenPosition, is_blank, read_line};
pub use name::Name;
pub use reference::Reference;
