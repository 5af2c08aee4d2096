//! An element followed to where its copies lead.

ghost use Rattle.std.specs.Prelude.{◌≡◌, ◌≤◌, [], length, IfOk, IfSome, IfNone, option_map};
ghost use Rattle.cst_core.specs.Path.{up_to};
ghost use Rattle.cst_core.specs.SyntaxElement.{element_of};
ghost use Rattle.edit_map.specs.Builder.{IsMapping};
ghost use Rattle.edit_map.specs.Following.{asked_paths, syntax_step, IsReached, LeadsTo};
ghost use Rattle.edit_map.specs.inner.Nearest.{IsNearest};

use crate::mapping::SyntaxMapping;
use crate::stops::{node_above, stop_above};
use cst_core::{SyntaxElement, SyntaxNode};
use std::alloc::{AllocError, Global};

// The node itself, and the parent of a token.
fn lowest_node(alloc: Global, element: &SyntaxElement) -> Result<Option<SyntaxNode>, AllocError>
    ensures none { IfOk result (λ r. IfNone r (asked_paths element.now ≡ [])) }
    ensures some { IfOk result (λ r. IfSome r (λ n. asked_paths element.now ≡ up_to n.path)) }
    ensures number { IfOk result (λ r. IfSome r (λ n. n.number ≡ (element_of element.now).number)) }
    ensures short { IfOk result (λ r. IfSome r (λ n. length n.path ≤ length (element_of element.now).path)) }
{
    match element {
        SyntaxElement::Node(node) => Ok(Some(node.try_clone(alloc)?)),
        SyntaxElement::Token(token) => token.parent(alloc),
    }
}

impl SyntaxMapping {
    /// What the element is followed to: as long as the element or a node above it is mapped, the nearest such node is exchanged
    /// for its copy, and the path below it is kept. A node stays a node.
    ///
    /// Where trees of one number differ, a path may lead nowhere in a copy: there it ends.
    pub fn follow(
        &self,
        alloc: Global,
        element: &SyntaxElement,
    ) -> Result<SyntaxElement, AllocError>
        ensures reached { IfOk result (IsReached self.now element.now) }
        ensures followed { IfOk result (LeadsTo self.now element.now) }
        ensures is_mapping { IsMapping self.now }
    {
        // For the proof: what is true of every mapping.
        let _ = &self.pairs;
        // For the proof: the element is one of its tree.
        let _ = element.kind();
        // For the proof: its path leads to it.
        let _ = element.as_green();
        let mut here = element.try_clone(alloc)?;
        'steps: while let Some(next) = self.step(alloc, &here)? {
            here = next;
        }
        Ok(here)
    }

    // The nearest mapped node exchanged for its copy, if there is one and the path below leads on in it.
    fn step(
        &self,
        alloc: Global,
        element: &SyntaxElement,
    ) -> Result<Option<SyntaxElement>, AllocError>
        ensures { IfOk result (λ r. r ≡ syntax_step self.now element.now) }
    {
        if self.pairs.is_empty() {
            return Ok(None);
        }
        let Some(node) = lowest_node(alloc, element)? else {
            return Ok(None);
        };
        let Some((copy, depth)) = self.nearest_copy(alloc, node)? else {
            return Ok(None);
        };
        copy.element_at(alloc, &element.slots()[depth..])
    }

    // The copy of the nearest mapped one of a node and those above it, and how many slots lead to that one. At most two nodes are
    // looked up.
    fn nearest_copy(
        &self,
        alloc: Global,
        node: SyntaxNode,
    ) -> Result<Option<(&SyntaxNode, usize)>, AllocError>
        ensures nearest { IfOk result (λ r. IsNearest self.now node (option_map (λ f. (f.0.now, f.1)) r)) }
        ensures short { IfOk result (λ r. IfSome r (λ f. f.1 ≤ length node.path)) }
    {
        let mut here = node;
        'up: loop {
            if let Some(copy) = self.copy_of(&here) {
                return Ok(Some((copy, here.slots().len())));
            }
            // No node above this one is this one, so only copies count.
            let Some(depth) = stop_above(&self.numbers, &here, &here) else {
                return Ok(None);
            };
            here = node_above(alloc, &here, depth)?;
        }
    }
}
