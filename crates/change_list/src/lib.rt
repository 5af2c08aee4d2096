//! The changes that were recorded of one tree, in order, with an index of those that replace one element.
#![tactic(auto)]

mod change_list;

pub use change_list::ChangeList;
