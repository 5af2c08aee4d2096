//! The nodes that are open while a tree is read, so that nesting takes no stack, and `DEPTH_LIMIT`.

ghost use Rattle.std.specs.Prelude.{◌≡◌, ◌+◌, ◌-◌, ◌<◌, ◌≤◌, IfOk, IfErr, OnOk, IsTrue, ◌↔◌, length, [], ◌∷◌};
ghost use Rattle.cst_core.specs.Green.{branch_tree};
ghost use Rattle.cst_core.specs.GreenElement.{element_tree};
ghost use Rattle.tree_text.specs.Depth.{depth};
ghost use Rattle.tree_text.specs.Refusals.{IsRefused};
ghost use Rattle.tree_text.specs.inner.Nowhere.{Nowhere};
ghost use Rattle.tree_text.specs.inner.OpenDepth.{open_depth, IsFull};
ghost use Rattle.tree_text.specs.inner.OpenTrees.{open_trees, HasPut, IsInnermostLong};

use crate::error::ExpressionError;
use crate::expected::Expected;
use crate::open_node::OpenNode;
use cst_core::{GreenElement, GreenNode, SyntaxKind};
use std::alloc::Global;

/// How many parentheses may be open at once, where a call takes no other limit.
pub const DEPTH_LIMIT: usize = 200;

/// The nodes that are open, the outermost first.
#[derive(Drop)]
pub(crate) struct OpenNodes {
    pub(crate) nodes: Vec<OpenNode>,
    // How many there may be.
    pub(crate) limit: usize,
    ghost limited: { open_depth nodes.items ≤ limit },
    ghost some: { 0 < limit },
}

impl OpenNodes {
    pub(crate) fn new(alloc: Global, limit: usize) -> OpenNodes
        requires { 0 < limit }
        ensures nodes { result.nodes.items ≡ [] }
        ensures limit { result.limit ≡ limit }
    {
        OpenNodes {
            nodes: Vec::new(alloc),
            limit,
        }
    }

    pub(crate) fn is_empty(&self) -> bool
        ensures { IsTrue result ↔ (self.now.nodes.items ≡ []) }
    {
        self.nodes.is_empty()
    }

    /// Opens a node inside the innermost one. Its kind begins at this byte.
    pub(crate) fn begin(
        &mut self,
        alloc: Global,
        kind: SyntaxKind,
        at: usize,
    ) -> Result<(), ExpressionError>
        ensures ok { OnOk result (open_trees self.new.nodes.items ≡ (kind.0, []) ∷ open_trees self.old.nodes.items) }
        ensures limit { self.new.limit ≡ self.old.limit }
        ensures err { IfErr result
            (IsRefused Nowhere Nowhere (λ x. (x ≡ at) × IsFull self.old.limit (open_trees self.old.nodes.items)) ⊥) }
    {
        if self.nodes.len() >= self.limit {
            return Err(ExpressionError::TooDeep { at });
        }
        let children = Vec::new(alloc);
        self.nodes.push(OpenNode { kind, children })?;
        Ok(())
    }

    /// Puts an element that ends at this byte at the end of the innermost node.
    pub(crate) fn put(&mut self, element: GreenElement, at: usize) -> Result<(), ExpressionError>
        requires { depth (element_tree element) ≤ self.old.limit - length self.old.nodes.items }
        ensures limit { self.new.limit ≡ self.old.limit }
        ensures ok { OnOk result
            (HasPut (element_tree element) (open_trees self.old.nodes.items) (open_trees self.new.nodes.items)) }
        ensures err { IfErr result
            (IsRefused (λ x. (x ≡ at) × (open_trees self.old.nodes.items ≡ [])) Nowhere Nowhere ⊥) }
    {
        let Some(mut node) = self.nodes.pop() else {
            return Err(ExpressionError::Malformed {
                at,
                expected: Expected::Node,
            });
        };
        node.children.push(element)?;
        self.nodes.push(node)?;
        Ok(())
    }

    /// Closes the innermost node at this byte.
    pub(crate) fn end(&mut self, alloc: Global, at: usize) -> Result<GreenNode, ExpressionError>
        ensures limited { IfOk result (λ n. depth (branch_tree n) + length self.new.nodes.items ≤ self.old.limit) }
        ensures limit { self.new.limit ≡ self.old.limit }
        ensures ok { IfOk result
            (λ n. open_trees self.old.nodes.items ≡ (n.kind, n.children) ∷ open_trees self.new.nodes.items) }
        ensures err { IfErr result
            (IsRefused (λ x. (x ≡ at) × (open_trees self.old.nodes.items ≡ [])) Nowhere Nowhere
            (IsInnermostLong (open_trees self.old.nodes.items))) }
    {
        let Some(OpenNode { kind, children }) = self.nodes.pop() else {
            return Err(ExpressionError::Malformed {
                at,
                expected: Expected::Node,
            });
        };
        GreenNode::new(alloc, kind, children).map_err(ExpressionError::of_tree)
    }
}
