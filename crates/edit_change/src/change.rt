//! `Change`, its five forms, and `Change::fits`: what a plan requires of its changes.

ghost use Rattle.std.specs.Prelude.{◌≡◌};
ghost use Rattle.edit_change.specs.Fits.{fits};

use crate::element_list::ElementList;
use crate::fits::{have_one_path, is_node, is_one_node, is_range, is_root};
use crate::native::is_native;
use crate::position::Position;
use cst_core::{SyntaxElement, SyntaxNode};

/// A change of a tree, as it was recorded against the unchanged tree.
#[derive(Drop)]
pub enum Change {
    Insert(Position, SyntaxElement),
    InsertAll(Position, ElementList),
    /// Without an element it is a deletion.
    Replace(SyntaxElement, Option<SyntaxElement>),
    ReplaceWithMany(SyntaxElement, ElementList),
    /// The siblings from the first to the second.
    ReplaceAll(SyntaxElement, SyntaxElement, ElementList),
}

impl Change {
    /// Whether the change can be planned for the tree of `root`: its position or target is in that tree, the ends of a range
    /// differ, and a root is replaced by exactly one node. Payload elements may come from any tree.
    pub fn fits(&self, root: &SyntaxNode) -> bool
        ensures { result ≡ fits root.now self.now }
    {
        match self {
            Change::Insert(position, _) => position.is_native(root),
            Change::InsertAll(position, _) => position.is_native(root),
            Change::Replace(target, None) => is_native(root, target) && !is_root(target),
            Change::Replace(target, Some(element)) => {
                is_native(root, target) && (!is_root(target) || is_node(element))
            }
            Change::ReplaceWithMany(target, elements) => {
                is_native(root, target) && (!is_root(target) || is_one_node(elements.as_slice()))
            }
            Change::ReplaceAll(first, last, _) => {
                is_native(root, first)
                    && is_native(root, last)
                    && is_range(first, last)
                    && !have_one_path(first, last)
            }
        }
    }
}
