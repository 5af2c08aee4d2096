//! `splice_at`: a splice of the children of the node at the end of a path, in place where nothing else holds the way, with a count of
//! the nodes that are changed or made.

ghost use Rattle.std.specs.Prelude.{◌≡◌, ◌<◌, ◌≤◌, ◌+◌, [], length, IfOk, OnOk, OnErr};
ghost use Rattle.green_tree.specs.Count.{counted};
ghost use Rattle.green_tree.specs.Green.{branch_tree};
ghost use Rattle.green_tree.specs.inner.Splices.{CanSplice, IsSplicedAt};
ghost use Rattle.green_tree.specs.inner.Summaries.{Knows, IsSameData, HasKept, HasSpliced, IsExchanged};
ghost use Rattle.green_tree.specs.inner.Ways.{LeadsToNode, IsWay, exchanged};

use crate::green::summary::Summary;
use crate::green::{GreenElement, GreenNode, NodeData, share_all};
use std::alloc::{AllocError, Global};
use std::rc::Rc;

impl Clone for NodeData {
    ghost use Rattle.green_tree.specs.inner.Summaries.{IsSameData};

    ghost is_clone = { IsSameData };

    // The children are shared.
    fn clone(&self) -> Result<NodeData, AllocError> {
        let alloc = *self.children.allocator();
        let mut children = Vec::new(alloc);
        share_all(alloc, &mut children, &self.children)?;
        Ok(NodeData {
            kind: self.kind,
            summary: self.summary,
            children,
        })
    }
}

impl NodeData {
    // Ends a change of the node, some of whose children were just exchanged: what it knows of them is true again. This is the one function that
    // each node comes to that a splice makes or changes, and `builds` counts it: one more, up to its greatest number.
    fn end_change(&mut self, removed: Summary, added: Summary, builds: &mut u64)
        requires { IsExchanged self.old.children.items self.old.summary removed added }
        ensures kept { HasKept self.old self.new }
        ensures knows { Knows self.new }
        ensures count { builds.new ≡ counted builds.old 1 }
    {
        self.summary = self.summary.after_exchange(removed, added, &self.children);
        *builds = builds.saturating_add(1);
    }

    // Puts elements in the place of so many children, from a slot on. After a refusal it is as it was, and so is the count.
    fn splice(
        &mut self,
        first: usize,
        count: usize,
        new: Vec<GreenElement>,
        builds: &mut u64,
    ) -> Result<(), AllocError>
        requires within { first + count ≤ length self.old.children.items }
        requires knows { Knows self.old }
        ensures ok { OnOk result (HasSpliced self.old self.new first count new.items) }
        ensures err { OnErr result (IsSameData self.old self.new) }
        ensures knows { Knows self.new }
        ensures count { OnOk result (builds.new ≡ counted builds.old 1) }
        ensures no_count { OnErr result (builds.new ≡ builds.old) }
    {
        let _children = self.children.as_slice();
        let end = first + count;
        let removed = Summary::of(&self.children[first..end]);
        let added = Summary::of(&new);
        self.children.splice(first..end, new)?;
        self.end_change(removed, added, builds);
        Ok(())
    }
}

/// A node above another one, and the slot of the child that leads there.
#[derive(Clone, Copy)]
struct WayNode<'a> {
    node: &'a GreenNode,
    slot: usize,
}

/// The way down a path: the nodes above its end, the highest first, and the node at its end.
#[derive(Drop)]
struct Way<'a> {
    above: Vec<WayNode<'a>>,
    end: &'a GreenNode,
}

fn way_down<'a>(alloc: Global, top: &'a GreenNode, path: &[usize]) -> Result<Way<'a>, AllocError>
    requires { LeadsToNode (branch_tree top.now) path.now }
    ensures way { IfOk result (λ w. IsWay (branch_tree top.now) path.now w.above.items (branch_tree w.end.now)) }
    ensures whole { IfOk result (λ w. length w.above.items ≡ length path.now) }
{
    let mut above = Vec::new(alloc);
    let mut node = top;
    for slot in path {
        let GreenElement::Node(child) = &node.children()[*slot] else {
            unreachable!()
        };
        above.push(WayNode { node, slot: *slot })?;
        node = child;
    }
    Ok(Way { above, end: node })
}

// The node with elements in the place of so many children, from a slot on.
fn copy_spliced(
    alloc: Global,
    node: &GreenNode,
    first: usize,
    count: usize,
    new: Vec<GreenElement>,
    builds: &mut u64,
) -> Result<GreenNode, AllocError>
    requires { CanSplice (branch_tree node.now) [] first count }
    ensures ok { IfOk result (λ n. IsSplicedAt node.now [] first count new.items n) }
    ensures count { OnOk result (builds.new ≡ counted builds.old 1) }
{
    let mut copy = node.share(alloc)?;
    copy.splice_nested(&[], first, count, new, builds)?;
    Ok(copy)
}

// The node with another child in this slot.
fn exchange_child(
    alloc: Global,
    node: &GreenNode,
    slot: usize,
    child: GreenNode,
    builds: &mut u64,
) -> Result<GreenNode, AllocError>
    requires { slot < length node.now.children }
    ensures ok { IfOk result (λ n. branch_tree n ≡ exchanged node.now slot (branch_tree child)) }
    ensures count { OnOk result (builds.new ≡ counted builds.old 1) }
{
    let mut only = Vec::with_capacity(alloc, 1)?;
    only.push(GreenElement::Node(child))?;
    copy_spliced(alloc, node, slot, 1, only, builds)
}

// The node with elements in the place of so many children of the node at this path, from a slot on. The nodes on the way are made anew,
// and all others are shared. `builds` counts those that are made, also where memory is refused on the way up.
fn spliced_anew(
    alloc: Global,
    top: &GreenNode,
    path: &[usize],
    first: usize,
    count: usize,
    new: Vec<GreenElement>,
    builds: &mut u64,
) -> Result<GreenNode, AllocError>
    requires { CanSplice (branch_tree top.now) path.now first count }
    ensures ok { IfOk result (λ n. IsSplicedAt top.now path.now first count new.items n) }
    ensures count { OnOk result (builds.new ≡ counted builds.old (length path.now + 1)) }
{
    let Way { mut above, end } = way_down(alloc, top, path)?;
    let mut made = copy_spliced(alloc, end, first, count, new, builds)?;
    while let Some(WayNode { node, slot }) = above.pop() {
        made = exchange_child(alloc, node, slot, made, builds)?;
    }
    Ok(made)
}

// How many slots a path may have at most, so that a call nests for each of them.
const NESTED_SLOTS: usize = 64;

impl GreenNode {
    // The same in place: of the nodes on the way, those that nobody else holds are changed, and the others are copied. A call nests for
    // each slot of the path. `builds` counts the nodes on the way and the one at its end.
    #[cycle(splice_nested)]
    fn splice_nested(
        &mut self,
        path: &[usize],
        first: usize,
        count: usize,
        new: Vec<GreenElement>,
        builds: &mut u64,
    ) -> Result<(), AllocError>
        requires can { CanSplice (branch_tree self.old) path.now first count }
        requires shallow { length path.now ≤ 64 }
        ensures ok { OnOk result (IsSplicedAt self.old path.now first count new.items self.new) }
        ensures err { OnErr result (self.new ≡ self.old) }
        ensures count { OnOk result (builds.new ≡ counted builds.old (length path.now + 1)) }
        ensures no_count { OnErr result (builds.new ≡ builds.old) }
    {
        let data = Rc::make_mut(&mut self.data)?;
        let [slot, rest @ ..] = path else {
            return data.splice(first, count, new, builds);
        };
        let removed = Summary::of_child(&data.children[*slot]);
        let GreenElement::Node(child) = &mut data.children[*slot] else {
            unreachable!()
        };
        child.splice_nested(rest, first, count, new, builds)?;
        let added = Summary::of_child(&data.children[*slot]);
        data.end_change(removed, added, builds);
        Ok(())
    }
}

/// Puts elements in the place of so many children of the node at this path, from a slot on. After a refusal the top and the count are as they
/// were.
///
/// Nodes on the way that nobody else holds are changed in place, and the others are made anew. Below a path of 64 slots all of them are
/// made anew, so that no calls nest with the depth of a tree. `builds` counts each node that is changed or made, up to its greatest number:
/// the node at the path and those above it.
pub fn splice_at(
    alloc: Global,
    top: &mut GreenNode,
    path: &[usize],
    first: usize,
    count: usize,
    new: Vec<GreenElement>,
    builds: &mut u64,
) -> Result<(), AllocError>
    requires { CanSplice (branch_tree top.old) path.now first count }
    ensures ok { OnOk result (IsSplicedAt top.old path.now first count new.items top.new) }
    ensures err { OnErr result (top.new ≡ top.old) }
    ensures count { OnOk result (builds.new ≡ counted builds.old (length path.now + 1)) }
    ensures no_count { OnErr result (builds.new ≡ builds.old) }
{
    if path.len() <= NESTED_SLOTS {
        return top.splice_nested(path, first, count, new, builds);
    }
    let mut made = *builds;
    *top = spliced_anew(alloc, top, path, first, count, new, &mut made)?;
    *builds = made;
    Ok(())
}
