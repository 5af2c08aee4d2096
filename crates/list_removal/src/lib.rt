//! Removing an element of a separated list with one separator beside it.
#![tactic(auto)]

pub mod laws;
mod remove;

pub use remove::remove_separated;
