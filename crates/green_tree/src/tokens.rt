//! The first and the last token below a node, and the tokens before and after a path.

ghost use Rattle.std.specs.Prelude.{◌≡◌, ◌≤◌, [], ◌∷◌, ◌++◌, length, take, option_and_then, IfOk, IfNone, IfSome, IsSome, Ok, None};
ghost use Rattle.green_tree.specs.Tree.{at};
ghost use Rattle.green_tree.specs.inner.Neighbors.{first_token, last_token, last_token_before, first_token_after};
ghost use Rattle.green_tree.specs.Green.{branch_tree};
ghost use Rattle.green_tree.specs.GreenElementRef.{ref_tree};
ghost use Rattle.green_tree.specs.inner.FoundToken.{FindsFirst, FindsLast, IsTokenOf, first_from, path_found};
ghost use Rattle.green_tree.specs.inner.Turn.{LeadsInto, IsTurn, way_through};

use crate::green::{GreenElement, GreenElementRef, GreenNode, GreenToken};
use std::alloc::{AllocError, Global};

/// A token, and the path that leads to it.
#[derive(Drop)]
pub struct FoundToken {
    pub path: Vec<usize>,
    pub green: GreenToken,
}

// Where the way to a token leaves a path: after so many slots of the path it goes on in this slot, into this child.
#[derive(Clone, Copy)]
struct Turn<'a> {
    depth: usize,
    slot: usize,
    child: GreenElementRef<'a>,
}

impl<'a> Turn<'a> {
    // The path to the child, off this path.
    fn path(&self, alloc: Global, path: &[usize]) -> Result<Vec<usize>, AllocError>
        requires { self.now.depth ≤ length path.now }
        ensures { IfOk result (λ v. v.items ≡ take self.now.depth path.now ++ self.now.slot ∷ []) }
    {
        let mut off = Vec::from_slice(alloc, &path[..self.depth])?;
        off.push(self.slot)?;
        Ok(off)
    }
}

// The slot of the first child, from slot `start` on, that is a token or has one below it.
fn first_slot(node: &GreenNode, start: usize) -> Option<usize>
    ensures none { IfNone result (first_from (branch_tree node.now) (start ∷ []) ≡ None) }
    ensures some { let way = first_from (branch_tree node.now) (start ∷ []) in
        IfSome result (LeadsInto first_token (branch_tree node.now) way) }
{
    let children = node.children();
    for slot in start..children.len() {
        if children[slot].has_token() {
            return Some(slot);
        }
    }
    None
}

// The slot of the last child, before slot `end`, that is a token or has one below it.
fn last_slot(node: &GreenNode, end: usize) -> Option<usize>
    requires { end ≤ length node.now.children }
    ensures none { IfNone result (last_token_before (branch_tree node.now) (end ∷ []) ≡ None) }
    ensures some { let way = last_token_before (branch_tree node.now) (end ∷ []) in
        IfSome result (LeadsInto last_token (branch_tree node.now) way) }
{
    let children = node.children();
    for slot in (0..end).rev() {
        if children[slot].has_token() {
            return Some(slot);
        }
    }
    None
}

// The first token at or below the element. If there is one, the slots on the way to it go to the end of `path`; else no
// memory is taken. An `Err` may leave other slots there.
fn push_first_token(
    alloc: Global,
    from: GreenElementRef<'_>,
    path: &mut Vec<usize>,
) -> Result<Option<GreenToken>, AllocError>
    ensures ok { IfOk result (FindsFirst (ref_tree from.entry) path.old.items path.new.items) }
    ensures none { first_token (ref_tree from.entry) ≡ None → result ≡ Ok None }
{
    let mut current = from;
    loop {
        let node = match current {
            GreenElementRef::Node(node) => node,
            GreenElementRef::Token(token) => return Ok(Some(token.share(alloc)?)),
        };
        let Some(slot) = first_slot(node, 0) else {
            return Ok(None);
        };
        path.push(slot)?;
        current = node.children()[slot].as_ref();
    }
}

/// The first token below a node. The path is counted from the node. `None` takes no memory.
pub fn first_token(alloc: Global, node: &GreenNode) -> Result<Option<FoundToken>, AllocError>
    ensures path { IfOk result (λ found. path_found found ≡ first_token (branch_tree node.now)) }
    ensures token { IfOk result (λ found. IfSome found (IsTokenOf (branch_tree node.now))) }
    ensures none { first_token (branch_tree node.now) ≡ None → result ≡ Ok None }
{
    let mut path = Vec::new(alloc);
    let Some(green) = push_first_token(alloc, GreenElementRef::Node(node), &mut path)? else {
        return Ok(None);
    };
    Ok(Some(FoundToken { path, green }))
}

// The same for the last token at or below the element.
fn push_last_token(
    alloc: Global,
    from: GreenElementRef<'_>,
    path: &mut Vec<usize>,
) -> Result<Option<GreenToken>, AllocError>
    ensures ok { IfOk result (FindsLast (ref_tree from.entry) path.old.items path.new.items) }
    ensures none { last_token (ref_tree from.entry) ≡ None → result ≡ Ok None }
{
    let mut current = from;
    loop {
        let node = match current {
            GreenElementRef::Node(node) => node,
            GreenElementRef::Token(token) => return Ok(Some(token.share(alloc)?)),
        };
        let Some(slot) = last_slot(node, node.children().len()) else {
            return Ok(None);
        };
        path.push(slot)?;
        current = node.children()[slot].as_ref();
    }
}

/// The last token below a node. The path is counted from the node. `None` takes no memory.
pub fn last_token(alloc: Global, node: &GreenNode) -> Result<Option<FoundToken>, AllocError>
    ensures path { IfOk result (λ found. path_found found ≡ last_token (branch_tree node.now)) }
    ensures token { IfOk result (λ found. IfSome found (IsTokenOf (branch_tree node.now))) }
    ensures none { last_token (branch_tree node.now) ≡ None → result ≡ Ok None }
{
    let mut path = Vec::new(alloc);
    let Some(green) = push_last_token(alloc, GreenElementRef::Node(node), &mut path)? else {
        return Ok(None);
    };
    Ok(Some(FoundToken { path, green }))
}

// The deepest turn off the path into an earlier child that is a token or has one below it.
fn turn_before<'a>(root: &'a GreenNode, path: &[usize]) -> Option<Turn<'a>>
    requires { IsSome (at (branch_tree root.now) path.now) }
    ensures way { let way = option_and_then (way_through last_token path.now) result in
        last_token_before (branch_tree root.now) path.now ≡ way }
    ensures turn { IfSome result (IsTurn last_token (branch_tree root.now) path.now) }
{
    let mut turn = None;
    let mut node = root;
    for (depth, at) in path.iter().enumerate() {
        let children = node.children();
        if let Some(slot) = last_slot(node, *at) {
            let child = children[slot].as_ref();
            turn = Some(Turn { depth, slot, child });
        }
        match &children[*at] {
            GreenElement::Node(below) => node = below,
            GreenElement::Token(_) => return turn,
        }
    }
    turn
}

/// The last token that stands before the element at `path`. It visits the way to the element, the children before it on
/// each level up to one that has a token, and the way to that token. `None` takes no memory.
pub fn token_before(
    alloc: Global,
    root: &GreenNode,
    path: &[usize],
) -> Result<Option<FoundToken>, AllocError>
    requires { IsSome (at (branch_tree root.now) path.now) }
    ensures path { IfOk result (λ found. path_found found ≡ last_token_before (branch_tree root.now) path.now) }
    ensures token { IfOk result (λ found. IfSome found (IsTokenOf (branch_tree root.now))) }
    ensures none { last_token_before (branch_tree root.now) path.now ≡ None → result ≡ Ok None }
{
    let Some(turn) = turn_before(root, path) else {
        return Ok(None);
    };
    let mut path = turn.path(alloc, path)?;
    let Some(green) = push_last_token(alloc, turn.child, &mut path)? else {
        return Ok(None);
    };
    Ok(Some(FoundToken { path, green }))
}

// The deepest turn off the path into a later child that is a token or has one below it. What is below the element is
// after it, so a child of the element is such a child too.
fn turn_after<'a>(root: &'a GreenNode, path: &[usize]) -> Option<Turn<'a>>
    requires { IsSome (at (branch_tree root.now) path.now) }
    ensures way { let way = option_and_then (way_through first_token path.now) result in
        first_token_after (branch_tree root.now) path.now ≡ way }
    ensures turn { IfSome result (IsTurn first_token (branch_tree root.now) path.now) }
{
    let mut turn = None;
    let mut node = root;
    for (depth, at) in path.iter().enumerate() {
        let children = node.children();
        if let Some(slot) = first_slot(node, *at + 1) {
            let child = children[slot].as_ref();
            turn = Some(Turn { depth, slot, child });
        }
        match &children[*at] {
            GreenElement::Node(below) => node = below,
            GreenElement::Token(_) => return turn,
        }
    }
    let Some(slot) = first_slot(node, 0) else {
        return turn;
    };
    Some(Turn {
        depth: path.len(),
        slot,
        child: node.children()[slot].as_ref(),
    })
}

/// The first token that stands after the element at `path` in document order, so the first one below it where that is a
/// node with tokens. It visits the way to the element, the children after it on each level up to one that has a token,
/// and the way to that token. `None` takes no memory.
pub fn token_after(
    alloc: Global,
    root: &GreenNode,
    path: &[usize],
) -> Result<Option<FoundToken>, AllocError>
    requires { IsSome (at (branch_tree root.now) path.now) }
    ensures path { IfOk result (λ found. path_found found ≡ first_token_after (branch_tree root.now) path.now) }
    ensures token { IfOk result (λ found. IfSome found (IsTokenOf (branch_tree root.now))) }
    ensures none { first_token_after (branch_tree root.now) path.now ≡ None → result ≡ Ok None }
{
    let Some(turn) = turn_after(root, path) else {
        return Ok(None);
    };
    let mut path = turn.path(alloc, path)?;
    let Some(green) = push_first_token(alloc, turn.child, &mut path)? else {
        return Ok(None);
    };
    Ok(Some(FoundToken { path, green }))
}
