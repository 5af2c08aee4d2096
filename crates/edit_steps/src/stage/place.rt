//! `Place`: where an aim's target is in the element as it stands now.

ghost use Rattle.std.specs.Prelude.{IfOk};
ghost use Rattle.green_tree.specs.GreenElement.{element_tree};
ghost use Rattle.edit_steps.specs.inner.Putting.{CanPut, IsPlaceOf};
ghost use Rattle.edit_steps.specs.inner.Visited.{held_at, SameHeld, IsVisited};

use crate::stage::aim_target::AimTarget;
use crate::stage::among::Among;
use crate::stage::visited::VisitedNodes;
use green_tree::GreenElement;
use std::alloc::{AllocError, Global};

/// Where a target is in the element as it stands now: among the children of the node at a path, from a slot on.
#[derive(Drop)]
pub(crate) struct Place {
    pub(crate) path: Vec<usize>,
    pub(crate) first: usize,
    /// The number of the node in the old element.
    pub(crate) node: usize,
}

// Where the target is after the changes that are done. Only those at the nodes on the way are looked at, each node's by one step from the
// one above it.
pub(crate) fn place_of(
    alloc: Global,
    visited: &mut VisitedNodes,
    element: &GreenElement,
    target: &AimTarget,
) -> Result<Place, AllocError>
    requires visited { IsVisited visited.old }
    requires can { CanPut (element_tree element.now) (held_at visited.old) target.now.parent.now target.now.at }
    ensures place { IfOk result (IsPlaceOf (held_at visited.old) target.now visited.new) }
    ensures same { SameHeld visited.old visited.new }
    ensures visited { IsVisited visited.new }
{
    let mut path = Vec::with_capacity(alloc, target.parent.len())?;
    let mut current = element;
    let mut node = 0;
    for slot in target.parent {
        let GreenElement::Node(branch) = current else {
            unreachable!()
        };
        let children = branch.children();
        let here = Among::Slots {
            first: *slot,
            count: 1,
        };
        let new_slot = visited.start(node, here);
        node = visited.enter(alloc, node, *slot)?;
        path.push(new_slot)?;
        current = &children[new_slot];
    }
    let GreenElement::Node(end) = current else {
        unreachable!()
    };
    // For the proof: no slot of the node passes the numbers of code.
    let _children = end.children();
    let first = visited.start(node, target.at);
    Ok(Place { path, first, node })
}
