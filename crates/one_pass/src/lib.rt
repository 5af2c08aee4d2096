//! The new tree of a set of changes, made in one pass over the old one, from the leaves up.
#![tactic(auto)]

mod dependent;
mod given_table;
mod mark;
mod marked_element;
mod open_node;
mod open_nodes;
mod rewriting;
mod site;
mod sought;
mod text_changes;

pub use rewriting::{OnePass, rewrite};
pub use text_changes::text_edits;
