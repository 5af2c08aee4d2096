//! Edits one after the other: where an element is after all of them, and one list of text edits for them.
#![tactic(auto)]

mod chain;
mod chain_error;
mod find;
pub mod laws;
mod step;
mod text;

pub use chain::EditChain;
pub use chain_error::ChainError;
pub use step::Step;
