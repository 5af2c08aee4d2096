//! Walks from a node: children, descendants, ancestors, parent, siblings, first and last token.

ghost use Rattle.std.specs.Prelude.{◌≡◌, ◌≤◌, [], ◌∷◌, ◌++◌, length, filter_map, take, drop, IfOk, OnOk, Ok, None};
ghost use Rattle.green_tree.specs.Path.{first_item, last_item};
ghost use Rattle.green_tree.specs.Tree.{children};
ghost use Rattle.green_tree.specs.inner.FoundToken.{IsTokenOf};
ghost use Rattle.cst_core.specs.Element.{subtree, below, parent_of, root_of};
ghost use Rattle.cst_core.specs.SyntaxElement.{node_of, syntax_at, child_elements, child_nodes, next_sibling, previous_sibling, descendants_of, descendants_of_kind, first_token_of, last_token_of};
ghost use Rattle.cst_core.specs.Navigation.{next_node, previous_node, siblings_on, ancestors_of, elements_of};

use crate::direction::Direction;
use crate::element::SyntaxElement;
use crate::lent_node::LentNode;
use crate::node::SyntaxNode;
use crate::slot_path::SlotPath;
use crate::token::SyntaxToken;
use green_tree::{FoundToken, SyntaxKind, first_token, last_token};
use std::alloc::{AllocError, Global};

impl SyntaxNode {
    /// The element that a path of child slots leads to, counted from this node; the empty path leads to the node
    /// itself. `None` where it leads nowhere.
    pub fn element_at(
        &self,
        alloc: Global,
        path: &[usize],
    ) -> Result<Option<SyntaxElement>, AllocError>
        ensures ok { IfOk result (λ r. r ≡ syntax_at self.now (self.now.path ++ path.now)) }
        ensures none { syntax_at self.now (self.now.path ++ path.now) ≡ None → result ≡ Ok None }
    {
        let Some(green) = self.green.get(path) else {
            return Ok(None);
        };
        let slots = SlotPath::joined(alloc, self.slots(), path)?;
        Ok(Some(self.location.moved_to(alloc, slots, green)?))
    }

    /// The element of the whole tree that a path of child slots leads to, counted from the tree's root; the vector is
    /// taken over, and no more than three slots are copied. `None` where it leads nowhere.
    pub fn element_of_tree(
        &self,
        alloc: Global,
        path: Vec<usize>,
    ) -> Result<Option<SyntaxElement>, AllocError>
        ensures ok { IfOk result (λ r. r ≡ syntax_at self.now path.items) }
        ensures none { syntax_at self.now path.items ≡ None → result ≡ Ok None }
    {
        self.location.element_at(alloc, path)
    }

    /// The children, nodes and tokens, in order.
    pub fn children_with_tokens(&self, alloc: Global) -> Result<Vec<SyntaxElement>, AllocError>
        ensures { IfOk result (λ all. all.items ≡ child_elements self.now) }
    {
        // For the proof: a node stands at the path of `self`.
        let _ = &self.green;
        let node = self.lent();
        let mut all = Vec::with_capacity(alloc, node.len())?;
        for slot in 0..node.len() {
            if let Some(child) = node.child(alloc, slot)? {
                all.push(child)?;
            }
        }
        Ok(all)
    }

    /// The children that are nodes, in order.
    pub fn children(&self, alloc: Global) -> Result<Vec<SyntaxNode>, AllocError>
        ensures { IfOk result (λ all. all.items ≡ child_nodes self.now) }
    {
        // For the proof: a node stands at the path of `self`.
        let _ = &self.green;
        let node = self.lent();
        let mut all = Vec::new(alloc);
        for slot in 0..node.len() {
            if let Some(child) = node.node_in(alloc, slot)? {
                all.push(child)?;
            }
        }
        Ok(all)
    }

    /// The first child; `None` for a node without children.
    pub fn first_child_or_token(&self, alloc: Global) -> Result<Option<SyntaxElement>, AllocError>
        ensures ok { IfOk result (λ r. r ≡ first_item (child_elements self.now)) }
        ensures none { first_item (child_elements self.now) ≡ None → result ≡ Ok None }
    {
        if self.green.children().is_empty() {
            return Ok(None);
        }
        self.element_at(alloc, &[0])
    }

    /// The last child; `None` for a node without children.
    pub fn last_child_or_token(&self, alloc: Global) -> Result<Option<SyntaxElement>, AllocError>
        ensures ok { IfOk result (λ r. r ≡ last_item (child_elements self.now)) }
        ensures none { last_item (child_elements self.now) ≡ None → result ≡ Ok None }
    {
        match self.green.children().len().checked_sub(1) {
            Some(slot) => self.element_at(alloc, &[slot]),
            None => Ok(None),
        }
    }

    // The node, lent.
    fn lent(&self) -> LentNode<'_>
        ensures { result ≡ self.now }
    {
        LentNode {
            location: &self.location,
            path: self.slots(),
            green: &self.green,
        }
    }

    /// The first child that is a node; `None` where there is no such child.
    pub fn first_child(&self, alloc: Global) -> Result<Option<SyntaxNode>, AllocError>
        ensures ok { IfOk result (λ r. r ≡ first_item (child_nodes self.now)) }
        ensures none { first_item (child_nodes self.now) ≡ None → result ≡ Ok None }
    {
        self.lent().first_node_from(alloc, 0)
    }

    /// The last child that is a node; `None` where there is no such child.
    pub fn last_child(&self, alloc: Global) -> Result<Option<SyntaxNode>, AllocError>
        ensures ok { IfOk result (λ r. r ≡ last_item (child_nodes self.now)) }
        ensures none { last_item (child_nodes self.now) ≡ None → result ≡ Ok None }
    {
        let node = self.lent();
        node.last_node_before(alloc, node.len())
    }

    /// The first token at or below the node in document order; `None` where there is no token below it.
    pub fn first_token(&self, alloc: Global) -> Result<Option<SyntaxToken>, AllocError>
        ensures ok { IfOk result (λ r. r ≡ first_token_of self.now) }
        ensures none { first_token_of self.now ≡ None → result ≡ Ok None }
    {
        let Some(found) = first_token(alloc, &self.green)? else {
            return Ok(None);
        };
        Ok(Some(self.token_below(alloc, &found)?))
    }

    /// The last token at or below the node in document order; `None` where there is no token below it.
    pub fn last_token(&self, alloc: Global) -> Result<Option<SyntaxToken>, AllocError>
        ensures ok { IfOk result (λ r. r ≡ last_token_of self.now) }
        ensures none { last_token_of self.now ≡ None → result ≡ Ok None }
    {
        let Some(found) = last_token(alloc, &self.green)? else {
            return Ok(None);
        };
        Ok(Some(self.token_below(alloc, &found)?))
    }

    // The token that a walk from this node found.
    pub(crate) fn token_below(
        &self,
        alloc: Global,
        found: &FoundToken,
    ) -> Result<SyntaxToken, AllocError>
        requires { IsTokenOf (subtree self.now) found.now }
        ensures { IfOk result (λ t. t ≡ below self.now found.now.path.items) }
    {
        // For the proof: a node stands at the path of `self`.
        let _ = &self.green;
        let path = SlotPath::joined(alloc, self.slots(), &found.path)?;
        Ok(SyntaxToken {
            location: self.location.with_path(alloc, path)?,
            green: found.green.share(alloc)?,
        })
    }

    /// The nodes at or below this one in document order, this one first.
    pub fn descendants(&self, alloc: Global) -> Result<Vec<SyntaxNode>, AllocError>
        ensures { IfOk result (λ all. all.items ≡ descendants_of self.now) }
    {
        let mut all = Vec::new(alloc);
        // Those that are to come with all below them, the next one last.
        let mut waiting = Vec::new(alloc);
        waiting.push(self.try_clone(alloc)?)?;
        'walk: while let Some(node) = waiting.pop() {
            // For the proof: a node stands at the path of `node`.
            let _ = &node.green;
            node.lent().push_nodes(alloc, &mut waiting)?;
            all.push(node)?;
        }
        Ok(all)
    }

    /// The nodes of one kind at or below this one in document order, this one first if it is of that kind.
    pub fn descendants_of_kind(
        &self,
        alloc: Global,
        kind: SyntaxKind,
    ) -> Result<Vec<SyntaxNode>, AllocError>
        ensures { IfOk result (λ all. all.items ≡ descendants_of_kind kind self.now) }
    {
        let mut all = self.descendants(alloc)?;
        all.retain(|node| node.kind() == kind);
        Ok(all)
    }

    /// The elements at or below this node in document order, the node itself first.
    pub fn descendants_with_tokens(&self, alloc: Global) -> Result<Vec<SyntaxElement>, AllocError>
        ensures { IfOk result (λ all. all.items ≡ elements_of self.now) }
    {
        let mut all = Vec::new(alloc);
        // Those that are to come with all below them, the next one last.
        let mut waiting = Vec::new(alloc);
        waiting.push(SyntaxElement::Node(self.try_clone(alloc)?))?;
        'walk: while let Some(element) = waiting.pop() {
            if let SyntaxElement::Node(node) = &element {
                // For the proof: a node stands at the path of `node`.
                let _ = &node.green;
                node.lent().push_children(alloc, &mut waiting)?;
            }
            all.push(element)?;
        }
        Ok(all)
    }

    /// The nodes from this one up to the root, this one first.
    pub fn ancestors(&self, alloc: Global) -> Result<Vec<SyntaxNode>, AllocError>
        ensures { IfOk result (λ all. all.items ≡ ancestors_of self.now) }
    {
        let mut all = Vec::new(alloc);
        all.push(self.try_clone(alloc)?)?;
        all.append(&mut self.location.nodes_above(alloc)?)?;
        Ok(all)
    }

    /// The root of the node's tree.
    pub fn tree_top(&self, alloc: Global) -> Result<SyntaxNode, AllocError>
        ensures { IfOk result (λ n. n ≡ root_of self.now) }
    {
        self.location.tree_top(alloc)
    }

    /// The parent; `None` for a root.
    pub fn parent(&self, alloc: Global) -> Result<Option<SyntaxNode>, AllocError>
        ensures ok { IfOk result (λ r. r ≡ parent_of self.now) }
        ensures none { parent_of self.now ≡ None → result ≡ Ok None }
    {
        self.location.parent(alloc)
    }

    /// The next sibling; `None` for a root and for a last child.
    pub fn next_sibling_or_token(&self, alloc: Global) -> Result<Option<SyntaxElement>, AllocError>
        ensures ok { IfOk result (λ r. r ≡ next_sibling self.now) }
        ensures none { next_sibling self.now ≡ None → result ≡ Ok None }
    {
        self.location.next_sibling(alloc)
    }

    /// The sibling before this one; `None` for a root and for a first child.
    pub fn prev_sibling_or_token(&self, alloc: Global) -> Result<Option<SyntaxElement>, AllocError>
        ensures ok { IfOk result (λ r. r ≡ previous_sibling self.now) }
        ensures none { previous_sibling self.now ≡ None → result ≡ Ok None }
    {
        self.location.previous_sibling(alloc)
    }

    /// The nearest sibling after this one that is a node; `None` where there is no such sibling.
    pub fn next_sibling(&self, alloc: Global) -> Result<Option<SyntaxNode>, AllocError>
        ensures ok { IfOk result (λ r. r ≡ next_node self.now) }
        ensures none { next_node self.now ≡ None → result ≡ Ok None }
    {
        self.location.next_node(alloc)
    }

    /// The nearest sibling before this one that is a node; `None` where there is no such sibling.
    pub fn prev_sibling(&self, alloc: Global) -> Result<Option<SyntaxNode>, AllocError>
        ensures ok { IfOk result (λ r. r ≡ previous_node self.now) }
        ensures none { previous_node self.now ≡ None → result ≡ Ok None }
    {
        self.location.previous_node(alloc)
    }

    /// The node itself, and then its siblings in this direction, the nearest first. A root has none.
    pub fn siblings_with_tokens(
        &self,
        alloc: Global,
        direction: Direction,
    ) -> Result<Vec<SyntaxElement>, AllocError>
        ensures { IfOk result (λ all. all.items ≡ siblings_on direction self.now) }
    {
        self.location.siblings(alloc, direction)
    }
}
