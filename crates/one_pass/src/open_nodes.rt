//! The new tree of an element, and the nodes that are made anew for it, each inside the one before it.

ghost use Rattle.std.specs.Prelude.{◌≡◌, ◌≤◌, ◌<◌, ◌+◌, ◌∷◌, [], ◌++◌, true, suc, length, IfNone, IfSome, IfOk, OnOk, MatchOption};
ghost use Rattle.std.specs.List.{list_any};
ghost use Rattle.green_tree.specs.Tree.{node};
ghost use Rattle.green_tree.specs.Green.{branch_tree};
ghost use Rattle.green_tree.specs.GreenElement.{element_tree, element_trees};
ghost use Rattle.green_tree.specs.Count.{counted};
ghost use Rattle.edit_change.specs.inner.Aimed.{aims_of, has_parent};
ghost use Rattle.one_pass.specs.inner.Built.{nodes_built};
ghost use Rattle.one_pass.specs.inner.Marked.{mark_seen, marks_seen, InPathOrder};
ghost use Rattle.one_pass.specs.inner.Pass.{TouchesAtMost, CountsBuilt, CountsTouched};
ghost use Rattle.one_pass.specs.inner.Pass.{green_rewritten, FindsRewritten};
ghost use Rattle.one_pass.specs.inner.Sweep.{seen_at, From};
ghost use Rattle.one_pass.specs.inner.OpenNodes.{InOrder, IsNodeOpened, IsFurther, IsShared, IsLeft, IsEnded, IsNext};
ghost use Rattle.one_pass.specs.inner.OpenNodes.{FindsShared, Enters, PutsMade, FindsWholeNode, to_build, whole};

use crate::mark::{Sought, Walk, marks_before, path_from, push_kept, push_mark};
use crate::marked_element::{GivenTable, push_change};
use crate::open_node::OpenNode;
use crate::site::{Site, one_deeper, run_inside, site_of};
use edit_change::Aimed;
use green_tree::{GreenElement, GreenNode, SyntaxKind, share_all};
use std::alloc::{AllocError, Global};
use std::slice;

// Nodes are made here alone, and counted. At the greatest number the count stays.
fn build_node(
    alloc: Global,
    kind: SyntaxKind,
    children: Vec<GreenElement>,
    builds: &mut u64,
) -> Result<GreenElement, AllocError>
    ensures count { builds.new ≡ counted builds.old 1 }
    ensures tree { IfOk result (λ e. element_tree e ≡ node kind.0 (element_trees children.items)) }
{
    *builds = builds.saturating_add(1);
    Ok(GreenElement::Node(GreenNode::capped(alloc, kind, children)?))
}

/// A node is opened, at a depth, where it is made at the walk's path. All aims are inside it, and all marks in it.
pub fn open_node<'e, 'a, 's, 'm>(
    alloc: Global,
    walk: &mut Walk,
    node: &'e GreenNode,
    depth: usize,
    aims: &'s [Aimed<'a>],
    sought: &'s [Sought<'m>],
) -> Result<OpenNode<'e, 'a, 's, 'm>, AllocError>
    requires { InPathOrder (marks_seen depth sought.now) }
    ensures path { OnOk result (walk.new.path.items ≡ walk.old.path.items) }
    ensures count { OnOk result (walk.new.builds ≡ walk.old.builds) }
    ensures opened { IfOk result
        (IsNodeOpened node.now depth aims.now (marks_seen depth sought.now) walk.old walk.new) }
{
    let here = marks_before(sought, depth, 0);
    for mark in &sought[..here] {
        push_mark(alloc, &mut walk.found, mark.number, &walk.path, &[])?;
    }
    let elements = node.children();
    let out = Vec::with_capacity(alloc, elements.len())?;
    Ok(OpenNode {
        kind: node.kind(),
        elements,
        depth,
        aims,
        sought: &sought[here..],
        out,
        slot: 0,
        passed: 0,
    })
}

// A mark sought inside a child is found, where the children from a slot on are shared. If it leads nowhere, it is not.
fn push_shared(
    alloc: Global,
    walk: &mut Walk,
    top: &OpenNode,
    first: usize,
    mark: &Sought,
) -> Result<(), AllocError>
    ensures path { OnOk result (walk.new.path.items ≡ walk.old.path.items) }
    ensures count { OnOk result (walk.new.builds ≡ walk.old.builds) }
    ensures marks { OnOk result (FindsShared walk.old walk.new top.now first (mark_seen top.now.depth mark.now)) }
{
    let [slot, ..] = path_from(mark.path, top.depth) else {
        return Ok(());
    };
    if *slot < first {
        return Ok(());
    }
    let Some(child) = top.elements.get(*slot) else {
        return Ok(());
    };
    walk.path.push(top.out.len() + (*slot - first))?;
    let here = slice::from_ref(mark);
    push_kept(
        alloc,
        &mut walk.found,
        &walk.path,
        child,
        top.depth + 1,
        here,
    )?;
    walk.path.pop();
    Ok(())
}

// The children before a slot that are still to come are shared at once, where nothing aims before it, with the marks in them.
fn share_until(
    alloc: Global,
    walk: &mut Walk,
    top: &mut OpenNode,
    until: usize,
) -> Result<(), AllocError>
    requires order { InOrder top.old }
    requires within { until ≤ length top.old.elements.now }
    requires next { top.old.slot ≤ until }
    requires ahead { From (until + until) (seen_at top.old.depth top.old.aims.now) }
    ensures { OnOk result (IsShared until walk.old walk.new top.old top.new) }
{
    let first = top.slot.max(top.passed).min(until);
    let sought = top.sought;
    let end = marks_before(sought, top.depth, until);
    for mark in &sought[..end] {
        push_shared(alloc, walk, top, first, mark)?;
    }
    top.sought = &sought[end..];
    let elements = top.elements;
    share_all(alloc, &mut top.out, &elements[first..until])?;
    top.slot = until;
    Ok(())
}

// What is due to the next aim is put, with the children before it; or these alone, where the aim is inside a child that has
// to be made anew.
fn take_aim<'e>(
    alloc: Global,
    walk: &mut Walk,
    top: &mut OpenNode<'e, '_, '_, '_>,
    given: &GivenTable,
) -> Result<Option<&'e GreenNode>, AllocError>
    requires order { InOrder top.old }
    requires some { 0 < length top.old.aims.now }
    ensures further { OnOk result (IsFurther given.now walk.old walk.new top.old top.new) }
    ensures next { IfOk result
        (λ r. MatchOption r (IsLeft top.old top.new) (λ n. IsNext top.new n.now)) }
{
    let [aim, rest @ ..] = top.aims else {
        unreachable!()
    };
    // Where it stands, and before which slot children are replaced then; nothing is put inside a child.
    let (slot, passed) = match site_of(aim, top.depth, top.elements.len()) {
        Site::Gap(gap) => (gap, Some(top.passed)),
        Site::Slots(first, count) => (first, Some(top.passed.max(first.saturating_add(count)))),
        Site::Below(slot) => (slot, None),
        Site::Nowhere => {
            top.aims = rest;
            return Ok(None);
        }
    };
    share_until(alloc, walk, top, slot)?;
    let Some(passed) = passed else {
        // A node that stays is opened; a token has no inside, and neither has what is replaced.
        if slot >= top.passed {
            let elements = top.elements;
            if let GreenElement::Node(node) = &elements[slot] {
                return Ok(Some(node));
            }
        }
        top.aims = rest;
        return Ok(None);
    };
    top.aims = rest;
    push_change(alloc, walk, &mut top.out, given, aim.change)?;
    top.passed = passed;
    Ok(None)
}

// What is due to aims is put, up to the next child that has to be made anew, or to the end if there is none.
fn push_on<'e>(
    alloc: Global,
    walk: &mut Walk,
    top: &mut OpenNode<'e, '_, '_, '_>,
    given: &GivenTable,
) -> Result<Option<&'e GreenNode>, AllocError>
    requires { InOrder top.old }
    ensures further { OnOk result (IsFurther given.now walk.old walk.new top.old top.new) }
    ensures next { IfOk result
        (λ r. MatchOption r (IsEnded top.new) (λ n. IsNext top.new n.now)) }
{
    while !top.aims.is_empty() {
        if let Some(node) = take_aim(alloc, walk, top, given)? {
            return Ok(Some(node));
        }
    }
    let count = top.elements.len();
    share_until(alloc, walk, top, count)?;
    Ok(None)
}

// The child that a node has come to is opened, with the aims and the marks inside it. Those after it stay.
fn open_child<'e, 'a, 's, 'm>(
    alloc: Global,
    walk: &mut Walk,
    above: &mut OpenNode<'e, 'a, 's, 'm>,
    node: &'e GreenNode,
) -> Result<OpenNode<'e, 'a, 's, 'm>, AllocError>
    requires { IsNext above.old node.now }
    ensures path { OnOk result (walk.new.path.items ≡ walk.old.path.items ++ length above.old.out.items ∷ []) }
    ensures count { OnOk result (walk.new.builds ≡ walk.old.builds) }
    ensures entered { IfOk result (Enters node.now walk.old walk.new above.old above.new) }
{
    let aims = above.aims;
    let sought = above.sought;
    let depth = one_deeper(&aims[0], above.depth);
    let end = run_inside(aims, above.depth, above.slot, above.elements.len());
    let last = marks_before(sought, above.depth, above.slot + 1);
    let inside = &aims[..end];
    above.aims = &aims[end..];
    above.sought = &sought[last..];
    walk.path.push(above.out.len())?;
    open_node(alloc, walk, node, depth, inside, &sought[..last])
}

// The child in the slot, which was made at the walk's path, goes after what is made before it. The walk is at the node again.
fn push_made(walk: &mut Walk, top: &mut OpenNode, made: GreenElement) -> Result<(), AllocError>
    requires { top.old.slot < length top.old.elements.now }
    ensures { OnOk result (PutsMade made walk.old walk.new top.old top.new) }
{
    walk.path.pop();
    top.out.push(made)?;
    top.slot += 1;
    Ok(())
}

/// What an open node becomes, where it is made at the walk's path. The nodes that have to be made below it are opened
/// and closed one after another, and those above the one that is open wait in a list, so that depth takes no stack.
pub fn rewrite_open(
    alloc: Global,
    walk: &mut Walk,
    first: OpenNode,
    given: &GivenTable,
) -> Result<GreenElement, AllocError>
    requires { InOrder first }
    ensures path { OnOk result (walk.new.path.items ≡ walk.old.path.items) }
    ensures count { OnOk result (walk.new.builds ≡ counted walk.old.builds (suc (to_build first.entry))) }
    ensures tree { IfOk result (λ e. element_tree e ≡ whole given.now first.entry) }
    ensures marks { OnOk result (FindsWholeNode given.now walk.old walk.new first.entry) }
{
    let mut above = Vec::new(alloc);
    let mut top = first;
    'nodes: loop {
        let open = &mut top;
        if let Some(node) = push_on(alloc, walk, open, given)? {
            let inner = open_child(alloc, walk, &mut top, node)?;
            above.push(top)?;
            top = inner;
            continue 'nodes;
        }
        let made = build_node(alloc, top.kind, top.out, &mut walk.builds)?;
        let Some(next) = above.pop() else {
            return Ok(made);
        };
        top = next;
        push_made(walk, &mut top, made)?;
    }
}

// The node that has to be made anew: the element, if an aim is inside it. Where there is none, nothing is built.
fn node_to_make<'e>(element: &'e GreenElement, aims: &[Aimed]) -> Option<&'e GreenNode>
    ensures none { IfNone result (nodes_built (aims_of aims.now) (element_tree element.now) ≡ 0) }
    ensures tree { IfSome result (λ n. branch_tree n.now ≡ element_tree element.now) }
    ensures aimed { IfSome result (λ n. list_any has_parent (aims_of aims.now) ≡ true) }
{
    let GreenElement::Node(node) = element else {
        return None;
    };
    if !aims.iter().any(Aimed::has_parent) {
        return None;
    }
    Some(node)
}

/// The element made anew by changes whose aims are counted from it: `given` has what each change gives, by its number.
/// The marks of the new element go to the end of those that the walk has found, in document order, with paths that
/// begin with the walk's: `sought` has those of the old element, in document order too.
///
/// Only the nodes above an aim are built, and what no aim is in or below is shared; the walk counts the nodes, exactly,
/// up to its greatest number. An aim over the top itself is passed over. Takes time linear in the
/// aims times their depth, the children of the nodes that are built, the children that are replaced, and the lengths of
/// the marks' paths.
pub fn rewrite_element(
    alloc: Global,
    walk: &mut Walk,
    element: &GreenElement,
    aims: &[Aimed],
    sought: &[Sought],
    given: &GivenTable,
) -> Result<GreenElement, AllocError>
    requires { InPathOrder (marks_seen 0 sought.now) }
    ensures path { OnOk result (walk.new.path.items ≡ walk.old.path.items) }
    ensures builds { OnOk result (TouchesAtMost aims.now element.now walk.old.builds walk.new.builds) }
    ensures count { OnOk result (CountsBuilt aims.now element.now walk.old.builds walk.new.builds) }
    ensures whole { OnOk result (CountsTouched aims.now element.now walk.old.builds walk.new.builds) }
    ensures tree { IfOk result (λ e. element_tree e ≡ green_rewritten given.now aims.now element.now) }
    ensures marks { OnOk result (FindsRewritten given.now aims.now sought.now element.now walk.old walk.new) }
{
    // For the proof: the count at the start.
    let _count = walk.builds;
    let Some(node) = node_to_make(element, aims) else {
        push_kept(alloc, &mut walk.found, &walk.path, element, 0, sought)?;
        return element.share(alloc);
    };
    // In document order; those at one site stay in theirs.
    let mut sorted = Vec::from_slice(alloc, aims)?;
    sorted.sort_by(Aimed::compare_sites)?;
    let top = open_node(alloc, walk, node, 0, &sorted, sought)?;
    rewrite_open(alloc, walk, top, given)
}
