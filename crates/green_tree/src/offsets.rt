//! The tokens at an offset, and the path of what covers a range.

ghost use Rattle.std.specs.Prelude.{◌≡◌, ◌<◌, ◌≤◌, ◌++◌, [], IfNone, IfOk, IfSome, IsOk, OnOk, Ok, Some, None, option_map};
ghost use Rattle.green_tree.specs.Tree.{text_length};
ghost use Rattle.green_tree.specs.inner.TokensByOffset.{covering, tokens_touching};
ghost use Rattle.green_tree.specs.Green.{branch_tree, length_limit};
ghost use Rattle.green_tree.specs.inner.FoundToken.{FindsTouching};
ghost use Rattle.green_tree.specs.inner.CoveredChild.{IsCoveredIn};
ghost use Rattle.green_tree.specs.inner.Touched.{PushesTouched};

use crate::green::{GreenElement, GreenNode};
use crate::tokens::FoundToken;
use std::alloc::{AllocError, Global};

// A child whose text touches an offset, which is counted from the child's start: so many slots lead to its node, and it is
// in this slot of it.
#[derive(Clone, Copy)]
struct Touched<'a> {
    depth: usize,
    slot: usize,
    offset: u64,
    element: &'a GreenElement,
}

// The children of the node that touch the offset, counted from the node's start, go to the end of `touched`: at most two,
// since the others have no text or stand apart from it.
fn push_touched<'a>(
    node: &'a GreenNode,
    offset: u64,
    depth: usize,
    touched: &mut Vec<Touched<'a>>,
) -> Result<(), AllocError>
    requires fits { text_length (branch_tree node.now) < length_limit }
    ensures touched { let pushes = PushesTouched (branch_tree node.now) offset depth in
        OnOk result (pushes touched.old.items touched.new.items) }
    ensures none { tokens_touching (branch_tree node.now) offset ≡ [] → IsOk result }
{
    let mut end = 0;
    for (slot, element) in node.children().iter().enumerate() {
        let start = end;
        end += element.length();
        if start == end || offset < start || end < offset {
            continue;
        }
        touched.push(Touched {
            depth,
            slot,
            offset: offset - start,
            element,
        })?;
    }
    Ok(())
}

/// The tokens below a node whose texts are not empty, begin at the offset or before it, and end there or after it, in
/// document order. Offset and paths are counted from the node. It visits the way to them, not the tree. Where there are none, it
/// takes no memory.
pub fn tokens_at(
    alloc: Global,
    node: &GreenNode,
    offset: u64,
) -> Result<Vec<FoundToken>, AllocError>
    requires fits { text_length (branch_tree node.now) < length_limit }
    ensures found { IfOk result (λ found. FindsTouching (branch_tree node.now) offset [] [] found.items) }
    ensures none { tokens_touching (branch_tree node.now) offset ≡ [] → IsOk result }
{
    let mut found = Vec::new(alloc);
    let mut path = Vec::new(alloc);
    let mut touched = Vec::new(alloc);
    push_touched(node, offset, 0, &mut touched)?;
    while let Some(last) = touched.pop() {
        path.truncate(last.depth);
        path.push(last.slot)?;
        match last.element {
            GreenElement::Node(below) => {
                push_touched(below, last.offset, path.len(), &mut touched)?;
            }
            GreenElement::Token(token) => found.push(FoundToken {
                path: Vec::from_slice(alloc, &path)?,
                green: token.share(alloc)?,
            })?,
        }
    }
    // The last child was visited first.
    found.reverse();
    Ok(found)
}

// A child of a node, the slot that it is in, and where its text begins in the node's.
#[derive(Clone, Copy)]
struct Child<'a> {
    slot: usize,
    begin: u64,
    element: &'a GreenElement,
}

// The last child whose text contains the range; the node's own text contains it. An element that stands before a child
// contains no range that the child contains, but for an empty one at its end.
fn last_covering(node: &GreenNode, start: u64, end: u64) -> Option<Child<'_>>
    requires fits { text_length (branch_tree node.now) < length_limit }
    requires ordered { start ≤ end }
    requires within { end ≤ text_length (branch_tree node.now) }
    ensures none { IfNone result (covering (branch_tree node.now) start end ≡ Some []) }
    ensures some { IfSome result (IsCoveredIn (branch_tree node.now) start end) }
{
    let children = node.children();
    let mut begin = node.length();
    for slot in (0..children.len()).rev() {
        let to = begin;
        let element = &children[slot];
        begin -= element.length();
        if begin <= start && end <= to {
            return Some(Child {
                slot,
                begin,
                element,
            });
        }
    }
    None
}

// The slots on the way to the last element at or below the node whose text contains the range go to the end of `path`; the
// node's own text contains it.
fn push_covering(
    node: &GreenNode,
    start: u64,
    end: u64,
    path: &mut Vec<usize>,
) -> Result<(), AllocError>
    requires fits { text_length (branch_tree node.now) < length_limit }
    requires ordered { start ≤ end }
    requires within { end ≤ text_length (branch_tree node.now) }
    ensures { let way = option_map (λ p. path.old.items ++ p) (covering (branch_tree node.now) start end) in
        OnOk result (Some path.new.items ≡ way) }
{
    let mut current = node;
    let (mut from, mut to) = (start, end);
    while let Some(child) = last_covering(current, from, to) {
        path.push(child.slot)?;
        let GreenElement::Node(below) = child.element else {
            return Ok(());
        };
        current = below;
        from -= child.begin;
        to -= child.begin;
    }
    Ok(())
}

/// The path to the last element in document order, of the node and all below it, whose text contains the bytes from `start`
/// up to `end`; `None` where they are not all within the node's text or `end` comes before `start`. All are counted from the
/// node. It visits the way, not the tree. `None` takes no memory.
pub fn covering_path(
    alloc: Global,
    node: &GreenNode,
    start: u64,
    end: u64,
) -> Result<Option<Vec<usize>>, AllocError>
    requires fits { text_length (branch_tree node.now) < length_limit }
    ensures ok { IfOk result (λ way. option_map (λ path. path.items) way ≡ covering (branch_tree node.now) start end) }
    ensures none { covering (branch_tree node.now) start end ≡ None → result ≡ Ok None }
{
    if end < start || node.length() < end {
        return Ok(None);
    }
    let mut path = Vec::new(alloc);
    push_covering(node, start, end, &mut path)?;
    Ok(Some(path))
}
