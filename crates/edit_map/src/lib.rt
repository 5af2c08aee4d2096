//! Which element of a younger tree is the copy of which one.
#![tactic(auto)]

mod builder;
mod follow;
pub mod laws;
mod map_error;
mod mapping;
mod pairs;
mod stops;

pub use builder::SyntaxMappingBuilder;
pub use map_error::MapError;
pub use mapping::SyntaxMapping;
