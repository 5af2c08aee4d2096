//! `Location`: a tree's number, the tree and a path. What nodes, tokens and elements share is written here once.

ghost use Rattle.std.proofs.Common.{rules};
ghost use Rattle.std.specs.Cmp.Rules.{comparing, hashing};
ghost use Rattle.std.specs.Cmp.Lexicographic.{pointwise};
ghost use Rattle.std.specs.Ordering.{on, eq_of_both};
ghost use Rattle.std.specs.Hash as fed;
ghost use Rattle.std.specs.Prelude.{◌≡◌, ◌↔◌, ◌==◌, ◌++◌, [], map, IfOk, Ok, Some, None, option_map};
ghost use Rattle.green_tree.specs.Path.{Path, last_slot, above};
ghost use Rattle.green_tree.specs.Tree.{at};
ghost use Rattle.green_tree.specs.Order.{start};
ghost use Rattle.green_tree.specs.GreenElementRef.{ref_tree};
ghost use Rattle.cst_core.specs.Element.{IsElement, element_at, parent_of};
ghost use Rattle.cst_core.specs.SyntaxElement.{syntax_as, syntax_at, next_sibling, previous_sibling};
ghost use Rattle.cst_core.specs.Navigation.{family_of, siblings_on, next_node, previous_node, nodes_above};
ghost use Rattle.cst_core.specs.inner.SlotPath.{slots_of};
ghost use Rattle.cst_core.specs.PathDigest.{path_digest};

use crate::direction::Direction;
use crate::element::SyntaxElement;
use crate::lent_node::LentNode;
use crate::node::SyntaxNode;
use crate::path_digest::path_digest;
use crate::slot_path::SlotPath;
use crate::token::SyntaxToken;
use green_tree::{GreenElement, GreenElementRef, GreenNode, start_of};
use std::alloc::{AllocError, Global};
use std::hash::{Hash, Hasher};
use std::marker::Model;

// Where an element stands: the number of its tree, the tree, and the child slots on the way from the root. The allocator is for texts that
// are printed, where no caller hands one in.
pub(crate) struct Location {
    pub(crate) alloc: Global,
    pub(crate) tree: u64,
    pub(crate) root: GreenNode,
    pub(crate) path: SlotPath,
}

// One call lets a value go, not one for each field.
impl Drop for Location {
    fn drop(self) {
        let Location {
            alloc: _,
            tree: _,
            root: _,
            path: _,
        } = self;
    }
}

impl Model for Location {
    ghost use Rattle.green_tree.specs.Green.{branch_tree};
    ghost use Rattle.cst_core.specs.Element.{Element};
    ghost use Rattle.cst_core.specs.inner.ElementCode.{element_code};
    ghost use Rattle.cst_core.specs.inner.InTree.{IsInTree};
    ghost use Rattle.cst_core.specs.inner.SlotPath.{slots_of};

    ghost Value = { Element };

    ghost coded = { element_code };

    ghost view = { λ a. record { number = a.tree; root = branch_tree a.root; path = slots_of a.path } };

    ghost invariant = { λ a. IsInTree (record { number = a.tree; root = branch_tree a.root; path = slots_of a.path }) };
}

impl Location {
    pub(crate) fn try_clone(&self, alloc: Global) -> Result<Location, AllocError>
        ensures { IfOk result (λ l. l ≡ self.now) }
    {
        Ok(Location {
            alloc,
            tree: self.tree,
            root: self.root.share(alloc)?,
            path: SlotPath::copied(alloc, self.path.as_slice())?,
        })
    }

    pub(crate) fn tree(&self) -> u64
        ensures { result ≡ self.now.number }
    {
        self.tree
    }

    pub(crate) fn slots(&self) -> &[usize]
        ensures { result.now ≡ self.now.path }
    {
        self.path.as_slice()
    }

    pub(crate) fn index(&self) -> usize
        ensures { result ≡ last_slot self.now.path }
    {
        match self.path.as_slice().split_last() {
            Some((slot, _)) => *slot,
            None => 0,
        }
    }

    pub(crate) fn text_start(&self) -> u64
        ensures { result ≡ start self.now.root self.now.path }
    {
        start_of(&self.root, self.path.as_slice())
    }

    // The same tree at another path that leads to an element.
    pub(crate) fn with_path(&self, alloc: Global, path: SlotPath) -> Result<Location, AllocError>
        requires { IsElement (element_at self.now (slots_of path)) }
        ensures { IfOk result (λ l. l ≡ element_at self.now (slots_of path)) }
    {
        Ok(Location {
            alloc,
            tree: self.tree,
            root: self.root.share(alloc)?,
            path,
        })
    }

    // The element of the same tree at another path, where this part of the tree stands.
    pub(crate) fn moved_to(
        &self,
        alloc: Global,
        path: SlotPath,
        green: GreenElementRef<'_>,
    ) -> Result<SyntaxElement, AllocError>
        requires { at self.now.root (slots_of path) ≡ Some (ref_tree green) }
        ensures { IfOk result (λ e. e ≡ syntax_as (ref_tree green.entry) (element_at self.now (slots_of path))) }
    {
        let location = self.with_path(alloc, path)?;
        match green {
            GreenElementRef::Node(node) => Ok(SyntaxElement::Node(SyntaxNode {
                location,
                green: node.share(alloc)?,
            })),
            GreenElementRef::Token(token) => Ok(SyntaxElement::Token(SyntaxToken {
                location,
                green: token.share(alloc)?,
            })),
        }
    }

    // The element of the same tree at another path, if the path leads to one.
    pub(crate) fn element_at(
        &self,
        alloc: Global,
        path: Vec<usize>,
    ) -> Result<Option<SyntaxElement>, AllocError>
        ensures ok { IfOk result (λ r. r ≡ syntax_at self.now path.items) }
        ensures none { syntax_at self.now path.items ≡ None → result ≡ Ok None }
    {
        match self.root.get(&path) {
            Some(green) => Ok(Some(self.moved_to(alloc, SlotPath::of(path), green)?)),
            None => Ok(None),
        }
    }

    pub(crate) fn tree_top(&self, alloc: Global) -> Result<SyntaxNode, AllocError>
        ensures { IfOk result (λ n. n ≡ element_at self.now []) }
    {
        Ok(SyntaxNode {
            location: Location {
                alloc,
                tree: self.tree,
                root: self.root.share(alloc)?,
                path: SlotPath::Empty,
            },
            green: self.root.share(alloc)?,
        })
    }

    // The parent, lent.
    pub(crate) fn lent_parent(&self) -> Option<LentNode<'_>>
        ensures { result ≡ parent_of self.now }
    {
        let Some((_, path)) = self.path.as_slice().split_last() else {
            return None;
        };
        match self.root.get(path) {
            Some(GreenElementRef::Node(green)) => Some(LentNode {
                location: self,
                path,
                green,
            }),
            Some(GreenElementRef::Token(_)) => unreachable!(),
            None => unreachable!(),
        }
    }

    pub(crate) fn parent(&self, alloc: Global) -> Result<Option<SyntaxNode>, AllocError>
        ensures ok { IfOk result (λ r. r ≡ parent_of self.now) }
        ensures none { parent_of self.now ≡ None → result ≡ Ok None }
    {
        match self.lent_parent() {
            Some(parent) => Ok(Some(parent.to_node(alloc)?)),
            None => Ok(None),
        }
    }

    pub(crate) fn next_sibling(&self, alloc: Global) -> Result<Option<SyntaxElement>, AllocError>
        ensures ok { IfOk result (λ r. r ≡ next_sibling self.now) }
        ensures none { next_sibling self.now ≡ None → result ≡ Ok None }
    {
        let Some(parent) = self.lent_parent() else {
            return Ok(None);
        };
        let slot = self.index();
        if slot < parent.len() {
            parent.child(alloc, slot + 1)
        } else {
            Ok(None)
        }
    }

    pub(crate) fn previous_sibling(
        &self,
        alloc: Global,
    ) -> Result<Option<SyntaxElement>, AllocError>
        ensures ok { IfOk result (λ r. r ≡ previous_sibling self.now) }
        ensures none { previous_sibling self.now ≡ None → result ≡ Ok None }
    {
        let Some(parent) = self.lent_parent() else {
            return Ok(None);
        };
        match self.index().checked_sub(1) {
            Some(slot) => parent.child(alloc, slot),
            None => Ok(None),
        }
    }

    // The nearest sibling after this element that is a node.
    pub(crate) fn next_node(&self, alloc: Global) -> Result<Option<SyntaxNode>, AllocError>
        ensures ok { IfOk result (λ r. r ≡ next_node self.now) }
        ensures none { next_node self.now ≡ None → result ≡ Ok None }
    {
        let Some(parent) = self.lent_parent() else {
            return Ok(None);
        };
        let slot = self.index();
        if slot < parent.len() {
            parent.first_node_from(alloc, slot + 1)
        } else {
            Ok(None)
        }
    }

    // The nearest sibling before this element that is a node.
    pub(crate) fn previous_node(&self, alloc: Global) -> Result<Option<SyntaxNode>, AllocError>
        ensures ok { IfOk result (λ r. r ≡ previous_node self.now) }
        ensures none { previous_node self.now ≡ None → result ≡ Ok None }
    {
        // For the proof: an element stands at the path.
        let _ = &self.path;
        match self.lent_parent() {
            Some(parent) => parent.last_node_before(alloc, self.index()),
            None => Ok(None),
        }
    }

    // The children of the parent; of a root, the root alone.
    fn family(&self, alloc: Global) -> Result<Vec<SyntaxElement>, AllocError>
        ensures { IfOk result (λ all. all.items ≡ family_of self.now) }
    {
        // For the proof: the root is a node.
        let _ = &self.root;
        if let Some(parent) = self.parent(alloc)? {
            return parent.children_with_tokens(alloc);
        }
        let mut all = Vec::new(alloc);
        all.push(SyntaxElement::Node(self.tree_top(alloc)?))?;
        Ok(all)
    }

    // The element itself, and then its siblings in one direction.
    pub(crate) fn siblings(
        &self,
        alloc: Global,
        direction: Direction,
    ) -> Result<Vec<SyntaxElement>, AllocError>
        ensures { IfOk result (λ all. all.items ≡ siblings_on direction self.now) }
    {
        // For the proof: an element stands at the path.
        let _ = &self.path;
        let mut all = self.family(alloc)?;
        match direction {
            Direction::Next => all.split_off(self.index()),
            Direction::Prev => {
                all.truncate(self.index() + 1);
                all.reverse();
                Ok(all)
            }
        }
    }

    // The nodes above, from the root down.
    fn nodes_from_root(&self, alloc: Global) -> Result<Vec<SyntaxNode>, AllocError>
        ensures { IfOk result (λ all. all.items ≡ map (element_at self.now) (above self.now.path)) }
    {
        let path = self.path.as_slice();
        let mut all = Vec::with_capacity(alloc, path.len())?;
        let mut green = &self.root;
        for depth in 0..path.len() {
            let node = LentNode {
                location: self,
                path: &path[..depth],
                green,
            };
            all.push(node.to_node(alloc)?)?;
            match green.children().get(path[depth]) {
                Some(GreenElement::Node(below)) => green = below,
                Some(GreenElement::Token(_)) => return Ok(all),
                None => unreachable!(),
            }
        }
        Ok(all)
    }

    // The nodes above, the nearest first.
    pub(crate) fn nodes_above(&self, alloc: Global) -> Result<Vec<SyntaxNode>, AllocError>
        ensures { IfOk result (λ all. all.items ≡ nodes_above self.now) }
    {
        let mut all = self.nodes_from_root(alloc)?;
        all.reverse();
        Ok(all)
    }
}

impl PartialEq for Location {
    ghost eq = { eq_of_both (on (λ n. n.number) ◌==◌) (on (λ n. n.path) (pointwise ◌==◌)) };

    ghost laws = { Prim.search (comparing, rules) };

    fn eq(&self, other: &Location) -> bool {
        self.tree == other.tree && self.path.as_slice() == other.path.as_slice()
    }
}

impl Hash for Location {
    ghost hash_input = { λ n. fed.u64 n.number ++ fed.u64 (path_digest n.path) };

    ghost respects_eq = { Prim.search (hashing, rules) };

    fn hash<H: Hasher>(&self, state: &mut H) {
        self.tree.hash(state);
        path_digest(self.path.as_slice()).hash(state);
    }
}

impl Eq for Location {
    ghost laws = { Prim.search (comparing, rules) };
}
