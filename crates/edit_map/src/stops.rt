//! The numbers of mapped nodes, by the number of their tree and then the slots that lead to them. A way up stops at these alone.

ghost use Rattle.std.specs.Prelude.{◌≡◌, ◌≢◌, ◌≤◌, ◌<◌, ◌++◌, length, map, take, reverse, false, Some, IfOk, OnOk};
ghost use Rattle.cst_core.specs.Element.{address, element_at};
ghost use Rattle.path_table.specs.inner.PathTable.{KeepsPlaces, SameValues, IsTree};
ghost use Rattle.edit_map.specs.inner.Climbing.{number_at, cell_of, at_depth, IsStopAbove};

use cst_core::{SyntaxElement, SyntaxNode};
use path_table::PathTable;
use std::alloc::{AllocError, Global};

// Whether the node above another one at this depth may be a payload.
fn may_be(payload: &SyntaxNode, node: &SyntaxNode, depth: usize) -> bool
    requires { depth ≤ length node.now.path }
    ensures { result ≡ false → at_depth (address node.now) depth ≢ address payload.now }
{
    node.tree() == payload.tree() && depth == payload.slots().len()
}

// The items of a list, the last first, after those of another one.
pub(crate) fn push_reversed(list: &mut Vec<usize>, items: &[usize]) -> Result<(), AllocError>
    ensures { OnOk result (list.new.items ≡ list.old.items ++ reverse items.now) }
{
    for index in (0..items.len()).rev() {
        list.push(items[index])?;
    }
    Ok(())
}

// The node to which the first slots of a node's path lead: itself, or one above it.
pub(crate) fn node_above(
    alloc: Global,
    node: &SyntaxNode,
    depth: usize,
) -> Result<SyntaxNode, AllocError>
    requires { depth ≤ length node.now.path }
    ensures { IfOk result (λ n. n ≡ element_at node.now (take depth node.now.path)) }
{
    if depth == node.slots().len() {
        return node.try_clone(alloc);
    }
    // For the proof: the path leads to a node.
    let _ = node.kind();
    let top = node.tree_top(alloc)?;
    match top.element_at(alloc, &node.slots()[..depth])? {
        Some(SyntaxElement::Node(above)) => Ok(above),
        Some(SyntaxElement::Token(_)) => unreachable!(),
        None => unreachable!(),
    }
}

// The cell of a node, at which a number can be set from now on.
fn enter(
    numbers: &mut PathTable<usize>,
    alloc: Global,
    node: &SyntaxNode,
) -> Result<usize, AllocError>
    requires { IsTree numbers.old }
    ensures entered { IfOk result (λ n. cell_of numbers.new node.now ≡ Some n) }
    ensures places { KeepsPlaces numbers.old numbers.new }
    ensures values { SameValues numbers.old numbers.new }
    ensures tree { IsTree numbers.new }
{
    let mut path = Vec::with_capacity(alloc, node.slots().len() + 1)?;
    path.push(node.tree() as usize)?;
    path.extend_from_slice(node.slots())?;
    numbers.enter(&path)
}

// The cells of the first nodes of these pairs.
pub(crate) fn enter_all(
    numbers: &mut PathTable<usize>,
    alloc: Global,
    pairs: &[(SyntaxNode, SyntaxNode)],
) -> Result<Vec<usize>, AllocError>
    requires { IsTree numbers.old }
    ensures cells { IfOk result (λ v. map Some v.items ≡ map (λ pair. cell_of numbers.new pair.0) pairs.now) }
    ensures values { SameValues numbers.old numbers.new }
    ensures tree { IsTree numbers.new }
{
    let mut cells = Vec::with_capacity(alloc, pairs.len())?;
    for (input, _) in pairs {
        cells.push(enter(numbers, alloc, input)?)?;
    }
    Ok(cells)
}

// The number of a node, if it has one.
pub(crate) fn number_of(numbers: &PathTable<usize>, node: &SyntaxNode) -> Option<usize>
    ensures { result ≡ number_at numbers.now (address node.now) }
{
    let mut cell = numbers.below(numbers.top(), node.tree() as usize);
    for slot in node.slots() {
        cell = numbers.below(cell, *slot);
    }
    numbers.at(cell)
}

// How many slots lead to the nearest node above this one that has a number or may be the payload; `None` where there is none. Each
// slot on the way is looked at once.
pub(crate) fn stop_above(
    numbers: &PathTable<usize>,
    node: &SyntaxNode,
    payload: &SyntaxNode,
) -> Option<usize>
    ensures { IsStopAbove numbers.now node.now payload.now result }
{
    let mut stop = None;
    let mut cell = numbers.below(numbers.top(), node.tree() as usize);
    for (depth, slot) in node.slots().iter().enumerate() {
        if numbers.at(cell).is_some() || may_be(payload, node, depth) {
            stop = Some(depth);
        }
        cell = numbers.below(cell, *slot);
    }
    stop
}
