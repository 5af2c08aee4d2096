//! `SyntaxNode`: facts, equality, hash and conversions. It holds its shared node, so that most facts need no walk from the root.

ghost use Rattle.std.proofs.Common.{rules};
ghost use Rattle.std.specs.Cmp.Rules.{comparing, hashing};
ghost use Rattle.std.specs.Cmp.Lexicographic.{pointwise};
ghost use Rattle.std.specs.Ordering.{on, eq_of_both};
ghost use Rattle.std.specs.Hash as fed;
ghost use Rattle.std.specs.Prelude.{◌≡◌, ◌↔◌, ◌==◌, ◌+◌, ◌<◌, ◌++◌, [], IfOk, OnOk, OnErr, Some, string_bytes};
ghost use Rattle.green_tree.specs.Path.{last_slot};
ghost use Rattle.green_tree.specs.Tree.{at, label, text, text_length};
ghost use Rattle.green_tree.specs.Order.{start};
ghost use Rattle.green_tree.specs.Green.{branch_tree, length_limit, IsTooLong};
ghost use Rattle.cst_core.specs.TreeIds.{IsSpent, LacksNumber};
ghost use Rattle.cst_core.specs.Element.{subtree, IsNode};
ghost use Rattle.cst_core.specs.AtOffset.{end_of};
ghost use Rattle.cst_core.specs.PathDigest.{path_digest};

use crate::location::Location;
use crate::slot_path::SlotPath;
use crate::tree_ids::TreeIds;
use green_tree::{GreenNode, LENGTH_LIMIT, SyntaxKind, TreeError, text_of};
use std::alloc::{AllocError, Global};
use std::hash::{Hash, Hasher};
use std::marker::Model;

/// A value that stands for a node of a tree: the number of the tree, the tree, and the child slots on the way to the
/// node. Values are equal exactly if number and path are, and equal values hash alike.
pub struct SyntaxNode {
    pub(crate) location: Location,
    pub(crate) green: GreenNode,
}

// One call lets a value go, not one for each field.
impl Drop for SyntaxNode {
    fn drop(self) {
        let SyntaxNode {
            location: _,
            green: _,
        } = self;
    }
}

impl Model for SyntaxNode {
    ghost use Rattle.green_tree.specs.Green.{branch_tree};
    ghost use Rattle.cst_core.specs.Element.{Element};
    ghost use Rattle.cst_core.specs.inner.ElementCode.{element_code};
    ghost use Rattle.cst_core.specs.inner.InTree.{IsInTreeAs};

    ghost Value = { Element };

    ghost coded = { element_code };

    ghost view = { λ a. a.location };

    ghost invariant = { λ a. IsInTreeAs a.location (branch_tree a.green) };
}

impl SyntaxNode {
    /// A tree of its own with this root, under the next number of `ids`.
    ///
    /// `TooLong` comes first, then `NoTreeNumber`, then `Memory`; none of them draws a number.
    pub fn new_root(
        alloc: Global,
        ids: &mut TreeIds,
        root: GreenNode,
    ) -> Result<SyntaxNode, TreeError>
        ensures ok { IfOk result (λ n. n ≡ record { number = ids.old; root = branch_tree root; path = [] }) }
        ensures drawn { OnOk result (ids.new ≡ ids.old + 1) }
        ensures too_long { (result ≡ Err TreeError.TooLong) ↔ IsTooLong (text (branch_tree root)) }
        ensures no_number { (result ≡ Err TreeError.NoTreeNumber) ↔ LacksNumber ids.old (branch_tree root) }
        ensures err { OnErr result (ids.new ≡ ids.old) }
    {
        if root.length() >= LENGTH_LIMIT {
            return Err(TreeError::TooLong);
        }
        if ids.is_spent() {
            return Err(TreeError::NoTreeNumber);
        }
        let green = root.share(alloc)?;
        let Some(tree) = ids.next() else {
            return Err(TreeError::NoTreeNumber);
        };
        Ok(SyntaxNode {
            location: Location {
                alloc,
                tree,
                root,
                path: SlotPath::Empty,
            },
            green,
        })
    }

    /// A tree of its own whose root is this node, under the next number of `ids`.
    ///
    /// `NoTreeNumber` comes before `Memory`, and neither draws a number; `TooLong` does not come.
    pub fn clone_subtree(&self, alloc: Global, ids: &mut TreeIds) -> Result<SyntaxNode, TreeError>
        ensures ok { IfOk result (λ n. n ≡ record { number = ids.old; root = subtree self.now; path = [] }) }
        ensures drawn { OnOk result (ids.new ≡ ids.old + 1) }
        ensures fits { ¬ (result ≡ Err TreeError.TooLong) }
        ensures no_number { (result ≡ Err TreeError.NoTreeNumber) ↔ IsSpent ids.old }
        ensures err { OnErr result (ids.new ≡ ids.old) }
    {
        if ids.is_spent() {
            return Err(TreeError::NoTreeNumber);
        }
        let green = self.green.share(alloc)?;
        SyntaxNode::new_root(alloc, ids, green)
    }

    /// The kind of the node.
    pub fn kind(&self) -> SyntaxKind
        ensures kind { result.0 ≡ label (subtree self.now) }
        ensures form { IsNode self.now }
    {
        self.green.kind()
    }

    /// The number of the node's tree.
    pub fn tree(&self) -> u64
        ensures { result ≡ self.now.number }
    {
        self.location.tree()
    }

    /// The child slots on the way from the root of the tree to the node, counted from 0.
    pub fn slots(&self) -> &[usize]
        ensures { result.now ≡ self.now.path }
    {
        self.location.slots()
    }

    /// A copy of `slots`.
    pub fn path(&self, alloc: Global) -> Result<Vec<usize>, AllocError>
        ensures { IfOk result (λ p. p.items ≡ self.now.path) }
    {
        Vec::from_slice(alloc, self.slots())
    }

    /// The node's slot in its parent, counted from 0; 0 for a root.
    pub fn index(&self) -> usize
        ensures { result ≡ last_slot self.now.path }
    {
        self.location.index()
    }

    /// The shared tree that the node stands for.
    pub fn as_green(&self) -> &GreenNode
        ensures tree { branch_tree result.now ≡ subtree self.now }
        ensures there { at self.now.root self.now.path ≡ Some (branch_tree result.now) }
    {
        &self.green
    }

    /// The shared tree of the whole tree that the node is in: what `tree_top` stands for.
    pub fn top_green(&self) -> &GreenNode
        ensures { branch_tree result.now ≡ self.now.root }
    {
        &self.location.root
    }

    /// The shared tree that the node stands for, as a value of its own.
    pub fn green(&self, alloc: Global) -> Result<GreenNode, AllocError>
        ensures { IfOk result (λ n. branch_tree n ≡ subtree self.now) }
    {
        self.green.share(alloc)
    }

    /// How many bytes the node's text has, at most 4,294,967,295.
    pub fn text_len(&self) -> u64
        ensures length { result ≡ text_length (subtree self.now) }
        ensures fits { result < length_limit }
    {
        self.green.length()
    }

    /// Where the node's text starts, in bytes from the start of the tree's text.
    pub fn text_start(&self) -> u64
        ensures { result ≡ start self.now.root self.now.path }
    {
        self.location.text_start()
    }

    /// Where the node's text ends, in bytes from the start of the tree's text: the offset of the first byte after it.
    pub fn text_end(&self) -> u64
        ensures end { result ≡ end_of self.now }
        ensures fits { result < length_limit }
    {
        let start = self.location.text_start();
        start + self.text_len()
    }

    /// The node's text: the texts of its tokens, one after another.
    pub fn text(&self, alloc: Global) -> Result<String, AllocError>
        ensures { IfOk result (λ s. string_bytes s ≡ text (subtree self.now)) }
    {
        text_of(alloc, &self.green)
    }

    /// The same element value again.
    pub fn try_clone(&self, alloc: Global) -> Result<SyntaxNode, AllocError>
        ensures { IfOk result (λ n. n ≡ self.now) }
    {
        Ok(SyntaxNode {
            location: self.location.try_clone(alloc)?,
            green: self.green.share(alloc)?,
        })
    }
}

impl PartialEq for SyntaxNode {
    ghost eq = { eq_of_both (on (λ n. n.number) ◌==◌) (on (λ n. n.path) (pointwise ◌==◌)) };

    ghost laws = { Prim.search (comparing, rules) };

    fn eq(&self, other: &SyntaxNode) -> bool {
        self.location == other.location
    }
}

impl Eq for SyntaxNode {
    ghost laws = { Prim.search (comparing, rules) };
}

impl Hash for SyntaxNode {
    ghost hash_input = { λ n. fed.u64 n.number ++ fed.u64 (path_digest n.path) };

    ghost respects_eq = { Prim.search (hashing, rules) };

    fn hash<H: Hasher>(&self, state: &mut H) {
        self.location.hash(state);
    }
}
