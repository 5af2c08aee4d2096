//! `SyntaxElement`: a node or a token, with what can be asked of either.

ghost use Rattle.std.specs.Prelude.{◌≡◌, ◌<◌, IfOk, Ok, Some, None, option_map, string_bytes};
ghost use Rattle.green_tree.specs.Path.{last_slot};
ghost use Rattle.green_tree.specs.Tree.{at, label, text, text_length};
ghost use Rattle.green_tree.specs.Order.{start};
ghost use Rattle.green_tree.specs.Green.{branch_tree, length_limit};
ghost use Rattle.green_tree.specs.GreenElement.{element_tree};
ghost use Rattle.green_tree.specs.GreenElementRef.{ref_tree};
ghost use Rattle.cst_core.specs.Element.{subtree, parent_of, root_of};
ghost use Rattle.cst_core.specs.SyntaxElement.{element_of, node_of, token_of, syntax_of, next_sibling, previous_sibling};
ghost use Rattle.cst_core.specs.Navigation.{siblings_on, element_ancestors};
ghost use Rattle.cst_core.specs.AtOffset.{end_of};

use crate::direction::Direction;
use crate::location::Location;
use crate::node::SyntaxNode;
use crate::token::SyntaxToken;
use green_tree::{GreenElement, GreenElementRef, GreenNode, SyntaxKind};
use std::alloc::{AllocError, Global};
use std::hash::{Hash, Hasher};

/// A value that stands for a node or a token of a tree. Values are equal exactly if number and path are, and equal values
/// hash alike.
#[derive(Drop)]
pub enum SyntaxElement {
    Node(SyntaxNode),
    Token(SyntaxToken),
}

impl SyntaxElement {
    pub(crate) fn location(&self) -> &Location
        ensures { result.now ≡ element_of self.now }
    {
        match self {
            SyntaxElement::Node(node) => &node.location,
            SyntaxElement::Token(token) => &token.location,
        }
    }

    /// The node, as it is lent; `None` for a token.
    pub fn as_node(&self) -> Option<&SyntaxNode>
        ensures { option_map (λ n. n.now) result ≡ node_of self.now }
    {
        match self {
            SyntaxElement::Node(lent) => Some(lent),
            SyntaxElement::Token(_) => None,
        }
    }

    /// The token, as it is lent; `None` for a node.
    pub fn as_token(&self) -> Option<&SyntaxToken>
        ensures { option_map (λ t. t.now) result ≡ token_of self.now }
    {
        match self {
            SyntaxElement::Node(_) => None,
            SyntaxElement::Token(lent) => Some(lent),
        }
    }

    /// The node, `None` for a token.
    pub fn into_node(self) -> Option<SyntaxNode>
        ensures { result ≡ node_of self }
    {
        match self {
            SyntaxElement::Node(node) => Some(node),
            SyntaxElement::Token(_) => None,
        }
    }

    /// The token, `None` for a node.
    pub fn into_token(self) -> Option<SyntaxToken>
        ensures { result ≡ token_of self }
    {
        match self {
            SyntaxElement::Node(_) => None,
            SyntaxElement::Token(token) => Some(token),
        }
    }

    /// The kind of the element.
    pub fn kind(&self) -> SyntaxKind
        ensures kind { result.0 ≡ label (subtree (element_of self.now)) }
        ensures form { self.now ≡ syntax_of (element_of self.now) }
    {
        match self {
            SyntaxElement::Node(node) => node.kind(),
            SyntaxElement::Token(token) => token.kind(),
        }
    }

    /// The number of the element's tree.
    pub fn tree(&self) -> u64
        ensures { result ≡ (element_of self.now).number }
    {
        self.location().tree()
    }

    /// The child slots on the way from the root of the tree to the element, counted from 0.
    pub fn slots(&self) -> &[usize]
        ensures { result.now ≡ (element_of self.now).path }
    {
        self.location().slots()
    }

    /// A copy of `slots`.
    pub fn path(&self, alloc: Global) -> Result<Vec<usize>, AllocError>
        ensures { IfOk result (λ p. p.items ≡ (element_of self.now).path) }
    {
        Vec::from_slice(alloc, self.slots())
    }

    /// The element's slot in its parent, counted from 0; 0 for a root.
    pub fn index(&self) -> usize
        ensures { result ≡ last_slot (element_of self.now).path }
    {
        self.location().index()
    }

    /// The shared tree that the element stands for.
    pub fn as_green(&self) -> GreenElementRef<'_>
        ensures tree { ref_tree result ≡ subtree (element_of self.now) }
        ensures there { at (element_of self.now).root (element_of self.now).path ≡ Some (ref_tree result) }
    {
        match self {
            SyntaxElement::Node(node) => GreenElementRef::Node(node.as_green()),
            SyntaxElement::Token(token) => GreenElementRef::Token(token.as_green()),
        }
    }

    /// The shared tree of the whole tree that the element is in: what `tree_top` stands for.
    pub fn top_green(&self) -> &GreenNode
        ensures { branch_tree result.now ≡ (element_of self.now).root }
    {
        &self.location().root
    }

    /// The shared tree that the element stands for, as a value of its own.
    pub fn green(&self, alloc: Global) -> Result<GreenElement, AllocError>
        ensures { IfOk result (λ g. element_tree g ≡ subtree (element_of self.now)) }
    {
        self.as_green().share(alloc)
    }

    /// How many bytes the element's text has, at most 4,294,967,295.
    pub fn text_len(&self) -> u64
        ensures length { result ≡ text_length (subtree (element_of self.now)) }
        ensures fits { result < length_limit }
    {
        match self {
            SyntaxElement::Node(node) => node.text_len(),
            SyntaxElement::Token(token) => token.text_len(),
        }
    }

    /// Where the element's text starts, in bytes from the start of the tree's text.
    pub fn text_start(&self) -> u64
        ensures { result ≡ start (element_of self.now).root (element_of self.now).path }
    {
        self.location().text_start()
    }

    /// Where the element's text ends, in bytes from the start of the tree's text: the offset of the first byte after it.
    pub fn text_end(&self) -> u64
        ensures end { result ≡ end_of (element_of self.now) }
        ensures fits { result < length_limit }
    {
        match self {
            SyntaxElement::Node(node) => node.text_end(),
            SyntaxElement::Token(token) => token.text_end(),
        }
    }

    /// The element's text: the texts of its tokens, one after another.
    pub fn text(&self, alloc: Global) -> Result<String, AllocError>
        ensures { IfOk result (λ s. string_bytes s ≡ text (subtree (element_of self.now))) }
    {
        match self {
            SyntaxElement::Node(node) => node.text(alloc),
            SyntaxElement::Token(token) => String::from_str(alloc, token.text()),
        }
    }

    /// The same element value again.
    pub fn try_clone(&self, alloc: Global) -> Result<SyntaxElement, AllocError>
        ensures { IfOk result (λ e. e ≡ self.now) }
    {
        match self {
            SyntaxElement::Node(node) => Ok(SyntaxElement::Node(node.try_clone(alloc)?)),
            SyntaxElement::Token(token) => Ok(SyntaxElement::Token(token.try_clone(alloc)?)),
        }
    }

    /// The root of the element's tree.
    pub fn tree_top(&self, alloc: Global) -> Result<SyntaxNode, AllocError>
        ensures { IfOk result (λ n. n ≡ root_of (element_of self.now)) }
    {
        self.location().tree_top(alloc)
    }

    /// The parent; `None` for a root.
    pub fn parent(&self, alloc: Global) -> Result<Option<SyntaxNode>, AllocError>
        ensures ok { IfOk result (λ r. r ≡ parent_of (element_of self.now)) }
        ensures none { parent_of (element_of self.now) ≡ None → result ≡ Ok None }
    {
        self.location().parent(alloc)
    }

    /// The next sibling; `None` for a root and for a last child.
    pub fn next_sibling_or_token(&self, alloc: Global) -> Result<Option<SyntaxElement>, AllocError>
        ensures ok { IfOk result (λ r. r ≡ next_sibling (element_of self.now)) }
        ensures none { next_sibling (element_of self.now) ≡ None → result ≡ Ok None }
    {
        self.location().next_sibling(alloc)
    }

    /// The sibling before this one; `None` for a root and for a first child.
    pub fn prev_sibling_or_token(&self, alloc: Global) -> Result<Option<SyntaxElement>, AllocError>
        ensures ok { IfOk result (λ r. r ≡ previous_sibling (element_of self.now)) }
        ensures none { previous_sibling (element_of self.now) ≡ None → result ≡ Ok None }
    {
        self.location().previous_sibling(alloc)
    }

    /// The element itself, and then its siblings in this direction, the nearest first. A root has none.
    pub fn siblings_with_tokens(
        &self,
        alloc: Global,
        direction: Direction,
    ) -> Result<Vec<SyntaxElement>, AllocError>
        ensures { IfOk result (λ all. all.items ≡ siblings_on direction (element_of self.now)) }
    {
        self.location().siblings(alloc, direction)
    }

    /// The nodes from the element up to the root. The first is the node itself, or the parent of the token.
    pub fn ancestors(&self, alloc: Global) -> Result<Vec<SyntaxNode>, AllocError>
        ensures { IfOk result (λ all. all.items ≡ element_ancestors self.now) }
    {
        match self {
            SyntaxElement::Node(node) => node.ancestors(alloc),
            SyntaxElement::Token(token) => token.parent_ancestors(alloc),
        }
    }
}

impl PartialEq for SyntaxElement {
    ghost use Rattle.std.specs.Prelude.{◌==◌};
    ghost use Rattle.std.proofs.Common.{rules};
    ghost use Rattle.std.specs.Cmp.Rules.{comparing};
    ghost use Rattle.std.specs.Cmp.Lexicographic.{pointwise};
    ghost use Rattle.std.specs.Ordering.{on, eq_of_both};
    ghost use Rattle.cst_core.specs.SyntaxElement.{element_of};

    ghost eq = { eq_of_both (on (λ x. (element_of x).number) ◌==◌) (on (λ x. (element_of x).path) (pointwise ◌==◌)) };

    ghost laws = { Prim.search (comparing, rules) };

    fn eq(&self, other: &SyntaxElement) -> bool {
        self.location() == other.location()
    }
}

impl Eq for SyntaxElement {
    ghost use Rattle.std.proofs.Common.{rules};
    ghost use Rattle.std.specs.Cmp.Rules.{comparing};

    ghost laws = { Prim.search (comparing, rules) };
}

impl Hash for SyntaxElement {
    ghost use Rattle.std.specs.Prelude.{◌++◌};
    ghost use Rattle.std.proofs.Common.{rules};
    ghost use Rattle.std.specs.Cmp.Rules.{hashing};
    ghost use Rattle.std.specs.Hash as fed;
    ghost use Rattle.cst_core.specs.SyntaxElement.{element_of};
    ghost use Rattle.cst_core.specs.PathDigest.{path_digest};

    ghost hash_input = { λ x. fed.u64 (element_of x).number ++ fed.u64 (path_digest (element_of x).path) };

    ghost respects_eq = { Prim.search (hashing, rules) };

    fn hash<H: Hasher>(&self, state: &mut H) {
        self.location().hash(state);
    }
}

impl From<SyntaxNode> for SyntaxElement {
    ghost use Rattle.std.specs.Prelude.{◌≡◌};
    ghost use Rattle.cst_core.specs.declared.element.SyntaxElement.TheVariants.{Node};

    ghost from_gives = { λ n e. e ≡ Node n };

    fn from(node: SyntaxNode) -> SyntaxElement {
        SyntaxElement::Node(node)
    }
}

impl From<SyntaxToken> for SyntaxElement {
    ghost use Rattle.std.specs.Prelude.{◌≡◌};
    ghost use Rattle.cst_core.specs.declared.element.SyntaxElement.TheVariants.{Token};

    ghost from_gives = { λ t e. e ≡ Token t };

    fn from(token: SyntaxToken) -> SyntaxElement {
        SyntaxElement::Token(token)
    }
}
