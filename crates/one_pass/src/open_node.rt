//! A node that is made anew, as far as its children are made.

use crate::mark::Sought;
use edit_change::Aimed;
use green_tree::{GreenElement, SyntaxKind};

/// A node whose children are being made.
#[derive(Drop)]
pub struct OpenNode<'e, 'a, 's, 'm> {
    pub kind: SyntaxKind,
    pub elements: &'e [GreenElement],
    /// How many slots lead to the node from the element that is made anew.
    pub depth: usize,
    /// The aims inside the node that are still to come, in document order.
    pub aims: &'s [Aimed<'a>],
    /// The marks sought inside the node that are still to come, in document order.
    pub sought: &'s [Sought<'m>],
    /// What is made of the children before a slot, with what changes give up to there.
    pub out: Vec<GreenElement>,
    pub slot: usize,
    /// The children before this slot are replaced: those that are still to come are passed over.
    pub passed: usize,
}
