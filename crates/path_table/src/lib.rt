//! Values by path, as a tree of cells, so that a way down asks for each slot once.
#![tactic(auto)]

mod steps;
mod table;

pub use table::PathTable;
