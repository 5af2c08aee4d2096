//! Syntax trees that are shared, and values that stand for their elements.
//! A call that looks for one element takes no memory to find that it isn't there: then it answers `Ok(None)`, or `Ok(TokenAtOffset::None)`,
//! and never `Memory`.
#![tactic(auto)]

pub mod ast;
mod ast_node;
mod direction;
mod display;
mod element;
pub mod laws;
mod lent_node;
mod location;
mod navigation;
mod node;
mod offsets;
mod path_digest;
mod shape;
mod slot_path;
mod token;
mod tree_ids;

pub use ast_node::{AstNode, HasAttrs};
pub use direction::Direction;
pub use element::SyntaxElement;
pub use green_tree::{
    GreenElement, GreenElementRef, GreenNode, GreenToken, KIND_NAMES, LENGTH_LIMIT, SyntaxKind,
    TreeError,
};
pub use node::SyntaxNode;
pub use offsets::TokenAtOffset;
pub use shape::same_shape;
pub use token::SyntaxToken;
pub use tree_ids::TreeIds;
