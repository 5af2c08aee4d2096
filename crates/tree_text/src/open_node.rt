//! A node that is being read.

use cst_core::{GreenElement, SyntaxKind};

/// A node whose closing parenthesis was not read yet.
#[derive(Drop)]
pub(crate) struct OpenNode {
    pub(crate) kind: SyntaxKind,
    pub(crate) children: Vec<GreenElement>,
}
