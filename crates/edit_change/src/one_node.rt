//! The only element of a list, as a node.

ghost use Rattle.std.specs.Prelude.{◌≡◌, [], ◌∷◌};
ghost use Rattle.cst_core.specs.Green.{branch_tree};
ghost use Rattle.cst_core.specs.GreenElement.{element_trees};
ghost use Rattle.edit_change.specs.inner.OneNode.{IsOneNode};

use cst_core::{GreenElement, GreenNode};

/// The only element, a node.
pub fn only_node(mut elements: Vec<GreenElement>) -> GreenNode
    requires { IsOneNode (element_trees elements.items) }
    ensures { element_trees elements.items ≡ branch_tree result ∷ [] }
{
    match elements.pop() {
        Some(GreenElement::Node(node)) => node,
        Some(GreenElement::Token(_)) => unreachable!(),
        None => unreachable!(),
    }
}
