//! `SyntaxToken`: facts, equality, hash, conversions, and the tokens before and after it.

ghost use Rattle.std.proofs.Common.{rules};
ghost use Rattle.std.specs.Cmp.Rules.{comparing, hashing};
ghost use Rattle.std.specs.Cmp.Lexicographic.{pointwise};
ghost use Rattle.std.specs.Ordering.{on, eq_of_both};
ghost use Rattle.std.specs.Hash as fed;
ghost use Rattle.std.specs.Prelude.{◌≡◌, ◌↔◌, ◌==◌, ◌<◌, ◌++◌, IfOk, IsSome, Ok, Some, None};
ghost use Rattle.green_tree.specs.Path.{last_slot};
ghost use Rattle.green_tree.specs.Tree.{at, label, text, text_length};
ghost use Rattle.green_tree.specs.Order.{start};
ghost use Rattle.green_tree.specs.Green.{branch_tree, leaf_tree, length_limit};
ghost use Rattle.cst_core.specs.Element.{subtree, parent_of, root_of, IsNode, IsToken};
ghost use Rattle.cst_core.specs.SyntaxElement.{next_sibling, previous_sibling, token_before, token_after};
ghost use Rattle.cst_core.specs.AtOffset.{end_of};
ghost use Rattle.cst_core.specs.PathDigest.{path_digest};
ghost use Rattle.cst_core.specs.Navigation.{siblings_on, nodes_above};

use crate::direction::Direction;
use crate::element::SyntaxElement;
use crate::location::Location;
use crate::node::SyntaxNode;
use crate::slot_path::SlotPath;
use green_tree::{GreenNode, GreenToken, SyntaxKind, token_after, token_before};
use std::alloc::{AllocError, Global};
use std::hash::{Hash, Hasher};
use std::marker::Model;

/// A value that stands for a token of a tree, as `SyntaxNode` does for a node.
pub struct SyntaxToken {
    pub(crate) location: Location,
    pub(crate) green: GreenToken,
}

// One call lets a value go, not one for each field.
impl Drop for SyntaxToken {
    fn drop(self) {
        let SyntaxToken {
            location: _,
            green: _,
        } = self;
    }
}

impl Model for SyntaxToken {
    ghost use Rattle.green_tree.specs.Green.{leaf_tree};
    ghost use Rattle.cst_core.specs.Element.{Element};
    ghost use Rattle.cst_core.specs.inner.ElementCode.{element_code};
    ghost use Rattle.cst_core.specs.inner.InTree.{IsInTreeAs};

    ghost Value = { Element };

    ghost coded = { element_code };

    ghost view = { λ a. a.location };

    ghost invariant = { λ a. IsInTreeAs a.location (leaf_tree a.green) };
}

impl SyntaxToken {
    /// The kind of the token.
    pub fn kind(&self) -> SyntaxKind
        ensures kind { result.0 ≡ label (subtree self.now) }
        ensures form { IsToken self.now }
        ensures top { IsNode (root_of self.now) }
    {
        self.green.kind()
    }

    /// The number of the token's tree.
    pub fn tree(&self) -> u64
        ensures { result ≡ self.now.number }
    {
        self.location.tree()
    }

    /// The child slots on the way from the root of the tree to the token, counted from 0.
    pub fn slots(&self) -> &[usize]
        ensures { result.now ≡ self.now.path }
    {
        self.location.slots()
    }

    /// A copy of `slots`.
    pub fn path(&self, alloc: Global) -> Result<Vec<usize>, AllocError>
        ensures { IfOk result (λ p. p.items ≡ self.now.path) }
    {
        Vec::from_slice(alloc, self.slots())
    }

    /// The token's slot in its parent, counted from 0.
    pub fn index(&self) -> usize
        ensures { result ≡ last_slot self.now.path }
    {
        self.location.index()
    }

    /// The shared token that the value stands for.
    pub fn as_green(&self) -> &GreenToken
        ensures tree { leaf_tree result.now ≡ subtree self.now }
        ensures there { at self.now.root self.now.path ≡ Some (leaf_tree result.now) }
    {
        &self.green
    }

    /// The shared tree of the whole tree that the token is in: what `tree_top` stands for.
    pub fn top_green(&self) -> &GreenNode
        ensures { branch_tree result.now ≡ self.now.root }
    {
        &self.location.root
    }

    /// The shared token that the value stands for, as a value of its own.
    pub fn green(&self, alloc: Global) -> Result<GreenToken, AllocError>
        ensures { IfOk result (λ t. leaf_tree t ≡ subtree self.now) }
    {
        self.green.share(alloc)
    }

    /// How many bytes the token's text has, at most 4,294,967,295.
    pub fn text_len(&self) -> u64
        ensures length { result ≡ text_length (subtree self.now) }
        ensures fits { result < length_limit }
    {
        self.green.length()
    }

    /// Where the token's text starts, in bytes from the start of the tree's text.
    pub fn text_start(&self) -> u64
        ensures { result ≡ start self.now.root self.now.path }
    {
        self.location.text_start()
    }

    /// Where the token's text ends, in bytes from the start of the tree's text: the offset of the first byte after it.
    pub fn text_end(&self) -> u64
        ensures end { result ≡ end_of self.now }
        ensures fits { result < length_limit }
    {
        let start = self.location.text_start();
        start + self.text_len()
    }

    /// The token's text.
    pub fn text(&self) -> &str
        ensures { result.now ≡ text (subtree self.now) }
    {
        self.green.text()
    }

    /// The same element value again.
    pub fn try_clone(&self, alloc: Global) -> Result<SyntaxToken, AllocError>
        ensures { IfOk result (λ t. t ≡ self.now) }
    {
        Ok(SyntaxToken {
            location: self.location.try_clone(alloc)?,
            green: self.green.share(alloc)?,
        })
    }

    /// The root of the token's tree.
    pub fn tree_top(&self, alloc: Global) -> Result<SyntaxNode, AllocError>
        ensures { IfOk result (λ n. n ≡ root_of self.now) }
    {
        self.location.tree_top(alloc)
    }

    /// The parent. A token always has one, and `None` does not come.
    pub fn parent(&self, alloc: Global) -> Result<Option<SyntaxNode>, AllocError>
        ensures parent { IfOk result (λ r. r ≡ parent_of self.now) }
        ensures some { IfOk result IsSome }
    {
        self.location.parent(alloc)
    }

    /// The next sibling; `None` for a last child.
    pub fn next_sibling_or_token(&self, alloc: Global) -> Result<Option<SyntaxElement>, AllocError>
        ensures ok { IfOk result (λ r. r ≡ next_sibling self.now) }
        ensures none { next_sibling self.now ≡ None → result ≡ Ok None }
    {
        self.location.next_sibling(alloc)
    }

    /// The sibling before this one; `None` for a first child.
    pub fn prev_sibling_or_token(&self, alloc: Global) -> Result<Option<SyntaxElement>, AllocError>
        ensures ok { IfOk result (λ r. r ≡ previous_sibling self.now) }
        ensures none { previous_sibling self.now ≡ None → result ≡ Ok None }
    {
        self.location.previous_sibling(alloc)
    }

    /// The token itself, and then its siblings in this direction, the nearest first.
    pub fn siblings_with_tokens(
        &self,
        alloc: Global,
        direction: Direction,
    ) -> Result<Vec<SyntaxElement>, AllocError>
        ensures { IfOk result (λ all. all.items ≡ siblings_on direction self.now) }
    {
        self.location.siblings(alloc, direction)
    }

    /// The nodes above the token, from its parent up to the root.
    pub fn parent_ancestors(&self, alloc: Global) -> Result<Vec<SyntaxNode>, AllocError>
        ensures { IfOk result (λ all. all.items ≡ nodes_above self.now) }
    {
        self.location.nodes_above(alloc)
    }

    /// The token before this one in document order; `None` for the first token of the tree. Nodes without tokens are
    /// passed over.
    pub fn prev_token(&self, alloc: Global) -> Result<Option<SyntaxToken>, AllocError>
        ensures ok { IfOk result (λ r. r ≡ token_before self.now) }
        ensures none { token_before self.now ≡ None → result ≡ Ok None }
    {
        let Some(found) = token_before(alloc, &self.location.root, self.slots())? else {
            return Ok(None);
        };
        Ok(Some(SyntaxToken {
            location: self.location.with_path(alloc, SlotPath::of(found.path))?,
            green: found.green,
        }))
    }

    /// The token after this one in document order; `None` for the last token of the tree. Nodes without tokens are
    /// passed over.
    pub fn next_token(&self, alloc: Global) -> Result<Option<SyntaxToken>, AllocError>
        ensures ok { IfOk result (λ r. r ≡ token_after self.now) }
        ensures none { token_after self.now ≡ None → result ≡ Ok None }
    {
        let Some(found) = token_after(alloc, &self.location.root, self.slots())? else {
            return Ok(None);
        };
        Ok(Some(SyntaxToken {
            location: self.location.with_path(alloc, SlotPath::of(found.path))?,
            green: found.green,
        }))
    }
}

impl PartialEq for SyntaxToken {
    ghost eq = { eq_of_both (on (λ n. n.number) ◌==◌) (on (λ n. n.path) (pointwise ◌==◌)) };

    ghost laws = { Prim.search (comparing, rules) };

    fn eq(&self, other: &SyntaxToken) -> bool {
        self.location == other.location
    }
}

impl Eq for SyntaxToken {
    ghost laws = { Prim.search (comparing, rules) };
}

impl Hash for SyntaxToken {
    ghost hash_input = { λ n. fed.u64 n.number ++ fed.u64 (path_digest n.path) };

    ghost respects_eq = { Prim.search (hashing, rules) };

    fn hash<H: Hasher>(&self, state: &mut H) {
        self.location.hash(state);
    }
}
