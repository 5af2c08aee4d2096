//! The changes of a tree, carried out one at a time: in which orders, and what stands after each of them.
#![tactic(auto)]

mod order;
mod stage;
mod stages;

pub use order::{OrderError, check, default_order};
pub use stages::Stages;
