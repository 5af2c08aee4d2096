//! Where the element at a path starts, in bytes.

ghost use Rattle.std.specs.Prelude.{◌≡◌, ◌<◌, ◌≤◌, [], ◌∷◌, length, IsSome};
ghost use Rattle.green_tree.specs.Tree.{at, text_length};
ghost use Rattle.green_tree.specs.Order.{start};
ghost use Rattle.green_tree.specs.Green.{branch_tree, length_limit};

use crate::green::{GreenElement, GreenNode};

// Where the child in a slot of the node starts, in bytes from the node's start. There may be a slot more than children.
fn slot_start(node: &GreenNode, slot: usize) -> u64
    requires within { slot ≤ length node.now.children }
    requires fits { text_length (branch_tree node.now) < length_limit }
    ensures { result ≡ start (branch_tree node.now) (slot ∷ []) }
{
    let mut total = 0;
    for child in &node.children()[..slot] {
        total += child.length();
    }
    total
}

/// Where the element at `path` starts, in bytes from the root's start. It takes as long as there are children before the way.
pub fn start_of(root: &GreenNode, path: &[usize]) -> u64
    requires there { IsSome (at (branch_tree root.now) path.now) }
    requires fits { text_length (branch_tree root.now) < length_limit }
    ensures { result ≡ start (branch_tree root.now) path.now }
{
    let mut total = 0;
    let mut node = root;
    for slot in path {
        let children = node.children();
        total += slot_start(node, *slot);
        match &children[*slot] {
            GreenElement::Node(below) => node = below,
            GreenElement::Token(_) => return total,
        }
    }
    total
}
