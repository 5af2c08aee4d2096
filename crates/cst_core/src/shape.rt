//! `same_shape`: two nodes of the same kinds, down to the tokens.

ghost use Rattle.std.specs.Prelude.{◌↔◌, IsTrue};
ghost use Rattle.green_tree.specs.Tree.{SameShape};
ghost use Rattle.cst_core.specs.Element.{subtree};

use crate::node::SyntaxNode;
use green_tree::have_same_shape;

/// Whether two nodes have the same kinds and child lists, whatever their tokens' texts.
pub fn same_shape(a: &SyntaxNode, b: &SyntaxNode) -> bool
    ensures { IsTrue result ↔ SameShape (subtree a.now) (subtree b.now) }
{
    have_same_shape(a.as_green(), b.as_green())
}
