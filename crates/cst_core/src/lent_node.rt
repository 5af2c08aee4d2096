//! `LentNode`: a node that is lent, so that its children are looked at before memory is taken for one. `navigation` walks by it.

ghost use Rattle.std.specs.Prelude.{◌≡◌, ◌≤◌, ◌++◌, length, reverse, IfOk, OnOk, Ok, None};
ghost use Rattle.green_tree.specs.Path.{first_item, last_item};
ghost use Rattle.green_tree.specs.Tree.{children};
ghost use Rattle.cst_core.specs.Element.{subtree};
ghost use Rattle.cst_core.specs.SyntaxElement.{child_elements, child_nodes};
ghost use Rattle.cst_core.specs.inner.ChildSlots.{child_in, node_in, nodes_from_slot, nodes_up_to};

use crate::element::SyntaxElement;
use crate::location::Location;
use crate::node::SyntaxNode;
use crate::slot_path::SlotPath;
use green_tree::{GreenElement, GreenNode};
use std::alloc::{AllocError, Global};
use std::marker::Model;

// A node that is lent: a location of its tree, its path, and the shared node there. So its children can be looked at before an element
// value, which takes memory, is made of one of them.
#[derive(Drop)]
pub(crate) struct LentNode<'a> {
    pub(crate) location: &'a Location,
    pub(crate) path: &'a [usize],
    pub(crate) green: &'a GreenNode,
}

impl<'a> Model for LentNode<'a> {
    ghost use Rattle.green_tree.specs.Green.{branch_tree};
    ghost use Rattle.cst_core.specs.Element.{Element, element_at};
    ghost use Rattle.cst_core.specs.inner.ElementCode.{element_code};
    ghost use Rattle.cst_core.specs.inner.InTree.{IsInTreeAs};

    ghost Value = { Element };

    ghost coded = { element_code };

    ghost view = { λ a. element_at a.location.now a.path.now };

    ghost invariant = { λ a. IsInTreeAs (element_at a.location.now a.path.now) (branch_tree a.green.now) };
}

impl<'a> LentNode<'a> {
    // The node, as a value of its own.
    pub(crate) fn to_node(&self, alloc: Global) -> Result<SyntaxNode, AllocError>
        ensures { IfOk result (λ n. n ≡ self.now) }
    {
        // For the proof: a node stands at the path.
        let _ = &self.green;
        let path = SlotPath::copied(alloc, self.path)?;
        Ok(SyntaxNode {
            location: self.location.with_path(alloc, path)?,
            green: self.green.share(alloc)?,
        })
    }

    // How many children the node has.
    pub(crate) fn len(&self) -> usize
        ensures { result ≡ length (children (subtree self.now)) }
    {
        self.green.children().len()
    }

    // The child in this slot.
    pub(crate) fn child(
        &self,
        alloc: Global,
        slot: usize,
    ) -> Result<Option<SyntaxElement>, AllocError>
        ensures ok { IfOk result (λ r. r ≡ child_in self.now slot) }
        ensures none { child_in self.now slot ≡ None → result ≡ Ok None }
    {
        let Some(child) = self.green.children().get(slot) else {
            return Ok(None);
        };
        let path = SlotPath::child(alloc, self.path, slot)?;
        Ok(Some(self.location.moved_to(alloc, path, child.as_ref())?))
    }

    // The child in this slot, if it is a node.
    pub(crate) fn node_in(
        &self,
        alloc: Global,
        slot: usize,
    ) -> Result<Option<SyntaxNode>, AllocError>
        ensures ok { IfOk result (λ r. r ≡ node_in self.now slot) }
        ensures none { node_in self.now slot ≡ None → result ≡ Ok None }
    {
        match self.green.children().get(slot) {
            Some(GreenElement::Node(child)) => {
                let path = SlotPath::child(alloc, self.path, slot)?;
                Ok(Some(SyntaxNode {
                    location: self.location.with_path(alloc, path)?,
                    green: child.share(alloc)?,
                }))
            }
            Some(GreenElement::Token(_)) => Ok(None),
            None => Ok(None),
        }
    }

    // Adds the children to a list, the last one first.
    pub(crate) fn push_children(
        &self,
        alloc: Global,
        list: &mut Vec<SyntaxElement>,
    ) -> Result<(), AllocError>
        ensures { OnOk result (list.new.items ≡ list.old.items ++ reverse (child_elements self.now)) }
    {
        // For the proof: a node stands at the path.
        let _ = &self.green;
        for slot in (0..self.len()).rev() {
            if let Some(child) = self.child(alloc, slot)? {
                list.push(child)?;
            }
        }
        Ok(())
    }

    // Adds the children that are nodes to a list, the last one first.
    pub(crate) fn push_nodes(
        &self,
        alloc: Global,
        list: &mut Vec<SyntaxNode>,
    ) -> Result<(), AllocError>
        ensures { OnOk result (list.new.items ≡ list.old.items ++ reverse (child_nodes self.now)) }
    {
        // For the proof: a node stands at the path.
        let _ = &self.green;
        for slot in (0..self.len()).rev() {
            if let Some(node) = self.node_in(alloc, slot)? {
                list.push(node)?;
            }
        }
        Ok(())
    }

    // The first child in this slot or after it that is a node.
    pub(crate) fn first_node_from(
        &self,
        alloc: Global,
        start: usize,
    ) -> Result<Option<SyntaxNode>, AllocError>
        ensures ok { IfOk result (λ r. r ≡ first_item (nodes_from_slot self.now start)) }
        ensures none { first_item (nodes_from_slot self.now start) ≡ None → result ≡ Ok None }
    {
        // For the proof: a node stands at the path.
        let _ = &self.green;
        for slot in start..self.len() {
            if let Some(node) = self.node_in(alloc, slot)? {
                return Ok(Some(node));
            }
        }
        Ok(None)
    }

    // The last child before this slot that is a node.
    pub(crate) fn last_node_before(
        &self,
        alloc: Global,
        end: usize,
    ) -> Result<Option<SyntaxNode>, AllocError>
        requires { end ≤ length (children (subtree self.now)) }
        ensures ok { IfOk result (λ r. r ≡ last_item (nodes_up_to self.now end)) }
        ensures none { last_item (nodes_up_to self.now end) ≡ None → result ≡ Ok None }
    {
        // For the proof: a node stands at the path.
        let _ = &self.green;
        for slot in (0..end).rev() {
            if let Some(node) = self.node_in(alloc, slot)? {
                return Ok(Some(node));
            }
        }
        Ok(None)
    }
}
