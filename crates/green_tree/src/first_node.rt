//! The first node of a kind that starts somewhere.

ghost use Rattle.std.specs.Prelude.{ℕ, ◌≡◌, ◌+◌, ◌<◌, [], None, option_map, IfOk, IfSome, IfNone, OnOk};
ghost use Rattle.green_tree.specs.Tree.{text_length};
ghost use Rattle.green_tree.specs.Green.{branch_tree, length_limit};
ghost use Rattle.green_tree.specs.GreenElement.{element_tree};
ghost use Rattle.green_tree.specs.inner.FirstNode.{starts_as, first_from};
ghost use Rattle.green_tree.specs.inner.Waiting.{LeavesWaiting};

use crate::green::{GreenElement, GreenNode};
use crate::kind::SyntaxKind;
use std::alloc::{AllocError, Global};

// The child, if it is a node and the offset is in it or at one of its ends. It begins at `begin`.
fn node_at_offset(child: &GreenElement, begin: u64, offset: u64) -> Option<&GreenNode>
    requires fits { begin + text_length (element_tree child.now) < length_limit }
    ensures some { IfSome result (λ n. element_tree child.now ≡ branch_tree n.now) }
    ensures none { IfNone result ((kind : ℕ) → first_from kind begin offset (element_tree child.now) ≡ None) }
{
    let GreenElement::Node(node) = child else {
        return None;
    };
    if offset < begin {
        return None;
    }
    if begin + node.length() < offset {
        return None;
    }
    Some(node)
}

// Whether the node, which begins at `begin`, has this kind and starts at `offset`.
fn starts_as(node: &GreenNode, begin: u64, kind: SyntaxKind, offset: u64) -> bool
    ensures { result ≡ starts_as kind.0 begin offset (branch_tree node.now) [] }
{
    node.kind() == kind && begin == offset
}

// A node that has an offset in it or at one of its ends: so many slots lead to its parent, it is in this slot of it, and
// it begins at `begin`.
#[derive(Clone, Copy)]
struct Waiting<'a> {
    depth: usize,
    slot: usize,
    begin: u64,
    node: &'a GreenNode,
}

// The child nodes that have the offset in them or at one of their ends go to the end of `waiting`, the first child last. The
// node begins at `begin`, and so many slots lead to it.
fn push_waiting<'a>(
    node: &'a GreenNode,
    begin: u64,
    offset: u64,
    depth: usize,
    waiting: &mut Vec<Waiting<'a>>,
) -> Result<(), AllocError>
    requires fits { begin + text_length (branch_tree node.now) < length_limit }
    ensures { let leaves = LeavesWaiting (branch_tree node.now) begin offset depth in
        OnOk result (leaves waiting.old.items waiting.new.items) }
{
    let children = node.children();
    let mut next = begin + node.length();
    for slot in (0..children.len()).rev() {
        let child = &children[slot];
        next -= child.length();
        let Some(node) = node_at_offset(child, next, offset) else {
            continue;
        };
        waiting.push(Waiting {
            depth,
            slot,
            begin: next,
            node,
        })?;
    }
    Ok(())
}

/// The path of the first node of this kind, in document order, that starts at this offset in bytes.
///
/// Takes time linear in the children of the nodes that have the offset in them or at one of their ends.
pub fn first_node_of_kind(
    alloc: Global,
    root: &GreenNode,
    kind: SyntaxKind,
    offset: u64,
) -> Result<Option<Vec<usize>>, AllocError>
    requires fits { text_length (branch_tree root.now) < length_limit }
    ensures { IfOk result (λ r. option_map (λ v. v.items) r ≡ first_from kind.0 0 offset (branch_tree root.now)) }
{
    let mut path = Vec::new(alloc);
    if starts_as(root, 0, kind, offset) {
        return Ok(Some(path));
    }
    let mut waiting = Vec::new(alloc);
    push_waiting(root, 0, offset, 0, &mut waiting)?;
    while let Some(first) = waiting.pop() {
        path.truncate(first.depth);
        path.push(first.slot)?;
        if starts_as(first.node, first.begin, kind, offset) {
            return Ok(Some(path));
        }
        push_waiting(first.node, first.begin, offset, path.len(), &mut waiting)?;
    }
    Ok(None)
}
