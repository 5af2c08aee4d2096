//! `Planned`: what an engine is told of a plan.

use crate::change::Change;
use crate::fate::Fate;
use cst_core::SyntaxNode;

/// The changes of a tree, and what is known of them before any is carried out.
#[derive(Clone, Copy)]
pub struct Planned<'a> {
    /// The root of the old tree.
    pub root: &'a SyntaxNode,
    pub changes: &'a [Change],
    /// Their numbers, in document order.
    pub order: &'a [usize],
    /// What becomes of each change.
    pub fates: &'a [Fate],
    /// For each owner, the place of its target in its payload.
    pub places: &'a [Option<Vec<usize>>],
}
