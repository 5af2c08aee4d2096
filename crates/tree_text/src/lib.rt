//! Trees as text: tree expressions, and the escapes of their quoted texts.
#![tactic(auto)]

mod error;
mod escape;
mod expected;
mod expression;
mod gaps;
mod kind_names;
mod last_kinds;
mod last_tokens;
pub mod laws;
mod lines;
mod name_error;
mod open_node;
mod open_nodes;
mod reader;
mod root;
mod runs;
mod write;
mod write_error;

pub use error::ExpressionError;
pub use escape::push_escaped;
pub use expected::Expected;
pub use expression::{read_line_tree, read_line_tree_with, read_tree, read_tree_with};
pub use kind_names::KindNames;
pub use lines::{dump, dump_node};
pub use name_error::NameError;
pub use open_nodes::DEPTH_LIMIT;
pub use root::read_root;
pub use write::{write_tree, write_tree_with};
pub use write_error::WriteError;
