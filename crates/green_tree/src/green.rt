//! `GreenToken`, `GreenNode`, `GreenElement` and `GreenElementRef`: trees that are shared, and dropped without a call that nests.

ghost use Rattle.std.specs.Prelude.{◌≡◌, ◌↔◌, ◌+◌, ◌<◌, ◌≤◌, ◌++◌, min, map, length, IfOk, IfSome, OnOk, string_bytes, option_map};
ghost use Rattle.green_tree.specs.Tree.{label, text, at};
ghost use Rattle.green_tree.specs.GreenElementRef.{ref_tree};
ghost use Rattle.green_tree.specs.Green.{texts, IsTooLong, capped_length, branch_tree, spliced};
ghost use Rattle.green_tree.specs.GreenElement.{element_trees, element_tree};
ghost use Rattle.green_tree.specs.inner.HasToken.{has_token, have_token, TellsToken};
ghost use Rattle.green_tree.specs.inner.CappedLength.{IsCappedLength};

mod splices;
mod summary;

use crate::error::TreeError;
pub use crate::green::splices::splice_at;
use crate::green::summary::Summary;
use crate::kind::SyntaxKind;
use std::alloc::{AllocError, Global};
use std::marker::Model;
use std::rc::Rc;

/// One more than the bytes that a tree's text may have.
pub const LENGTH_LIMIT: u64 = 4_294_967_296;

#[derive(Drop)]
struct TokenData {
    kind: SyntaxKind,
    text: String,
}

/// A token: a kind and a text, shared.
#[derive(Drop)]
pub struct GreenToken {
    data: Rc<TokenData>,
}

impl Model for GreenToken {
    ghost use Rattle.std.specs.Prelude.{string_bytes};
    ghost use Rattle.green_tree.specs.Green.{Leaf};

    ghost Value = { Leaf };

    ghost view = { λ a. record { kind = a.data.value.kind.0; text = string_bytes a.data.value.text } };
}

#[cycle(green)]
#[derive(Drop)]
struct NodeData {
    kind: SyntaxKind,
    summary: Summary,
    children: Vec<GreenElement>,
}

/// A node or a token of a tree.
#[cycle(green)]
#[derive(Drop)]
pub enum GreenElement {
    Node(GreenNode),
    Token(GreenToken),
}

/// A node: a kind and a list of nodes and tokens, shared. It knows neither its parent nor where it stands.
#[cycle(green)]
pub struct GreenNode {
    data: Rc<NodeData>,
}

impl Drop for GreenNode {
    // A node that nobody else holds is taken apart. Its children go by calls that nest, but for the one of the greatest rank, which
    // goes by the loop.
    #[cycle(drop)]
    fn drop(mut self) {
        loop {
            let GreenNode { data } = self;
            let Some(NodeData { mut children, .. }) = Rc::into_inner(data) else {
                return;
            };
            let Some(slot) = heaviest(&children) else {
                return;
            };
            let GreenElement::Node(next) = children.swap_remove(slot) else {
                return;
            };
            self = next;
        }
    }
}

impl Model for GreenNode {
    ghost use Rattle.std.specs.Prelude.{◌≡◌};
    ghost use Rattle.green_tree.specs.Green.{Branch};
    ghost use Rattle.green_tree.specs.inner.TreeSize.{branch_size};
    ghost use Rattle.green_tree.specs.inner.TreeCode.{branch_code};

    ghost Value = { Branch };

    ghost coded = { branch_code };

    ghost use Rattle.green_tree.specs.GreenElement.{element_trees};
    ghost use Rattle.green_tree.specs.inner.CappedLength.{IsCappedLength};
    ghost use Rattle.green_tree.specs.inner.HasToken.{TellsToken};

    ghost view = { λ a. record { kind = a.data.value.kind.0; children = element_trees a.data.value.children.items } };

    ghost invariant = { λ a.
        let es = a.data.value.children.items in
        IsCappedLength es a.data.value.summary.length × TellsToken es a.data.value.summary.has_token };

    ghost size = { branch_size };

    ghost use Rattle.std.proofs.Common.{arith};
    ghost use Rattle.green_tree.specs.inner.GreenSize.{most_le};

    ghost size_decreases = { λ a h. omega (arith, most_le a.data.value.children.items) };
}

/// A node or a token of a tree, borrowed.
#[derive(Clone, Copy)]
pub enum GreenElementRef<'a> {
    Node(&'a GreenNode),
    Token(&'a GreenToken),
}

impl GreenToken {
    /// A token of this kind and text. `TooLong` where the text passes 4,294,967,295 bytes, else only `Memory` comes.
    pub fn new(alloc: Global, kind: SyntaxKind, text: &str) -> Result<GreenToken, TreeError>
        ensures ok { IfOk result (λ t. t ≡ record { kind = kind.0; text = text.now }) }
        ensures too_long { (result ≡ Err TreeError.TooLong) ↔ IsTooLong text.now }
        ensures no_number { ¬ (result ≡ Err TreeError.NoTreeNumber) }
    {
        if text.len() as u64 >= LENGTH_LIMIT {
            return Err(TreeError::TooLong);
        }
        let text = String::from_str(alloc, text)?;
        let data = Rc::new(alloc, TokenData { kind, text }).map_err(AllocError::from)?;
        Ok(GreenToken { data })
    }

    /// The kind of the token.
    pub fn kind(&self) -> SyntaxKind
        ensures { result.0 ≡ self.now.kind }
    {
        self.data.kind
    }

    /// The text of the token.
    pub fn text(&self) -> &str
        ensures { result.now ≡ self.now.text }
    {
        self.data.text.as_str()
    }

    /// How many bytes the text has. Takes constant time.
    pub fn length(&self) -> u64
        ensures { result ≡ capped_length self.now.text }
    {
        (self.data.text.len() as u64).min(LENGTH_LIMIT)
    }

    /// The same token again. Takes constant time, and copies nothing.
    pub fn share(&self, _alloc: Global) -> Result<GreenToken, AllocError>
        ensures { IfOk result (λ t. t ≡ self.now) }
    {
        Ok(GreenToken {
            data: self.data.clone()?,
        })
    }
}

impl<'a> GreenElementRef<'a> {
    /// The same element again, without a copy of its text or its children.
    pub fn share(self, alloc: Global) -> Result<GreenElement, AllocError>
        ensures { IfOk result (λ e. element_tree e ≡ ref_tree self.entry) }
    {
        match self {
            GreenElementRef::Node(node) => Ok(GreenElement::Node(node.share(alloc)?)),
            GreenElementRef::Token(token) => Ok(GreenElement::Token(token.share(alloc)?)),
        }
    }
}

impl From<GreenNode> for GreenElement {
    ghost use Rattle.std.specs.Prelude.{◌≡◌};
    ghost use Rattle.green_tree.specs.GreenElement.{element_tree};
    ghost use Rattle.green_tree.specs.Green.{branch_tree};

    ghost from_gives = { λ n e. element_tree e ≡ branch_tree n };

    fn from(node: GreenNode) -> GreenElement {
        GreenElement::Node(node)
    }
}

impl From<GreenToken> for GreenElement {
    ghost use Rattle.std.specs.Prelude.{◌≡◌};
    ghost use Rattle.green_tree.specs.GreenElement.{element_tree};
    ghost use Rattle.green_tree.specs.Green.{leaf_tree};

    ghost from_gives = { λ t e. element_tree e ≡ leaf_tree t };

    fn from(token: GreenToken) -> GreenElement {
        GreenElement::Token(token)
    }
}

impl GreenElement {
    /// The element itself, borrowed.
    pub fn as_ref(&self) -> GreenElementRef<'_>
        ensures { ref_tree result ≡ element_tree self.now }
    {
        match self {
            GreenElement::Node(node) => GreenElementRef::Node(node),
            GreenElement::Token(token) => GreenElementRef::Token(token),
        }
    }

    /// The kind of the element.
    pub fn kind(&self) -> SyntaxKind
        ensures { result.0 ≡ label (element_tree self.now) }
    {
        match self {
            GreenElement::Node(node) => node.kind(),
            GreenElement::Token(token) => token.kind(),
        }
    }

    /// How many bytes the element's text has, or 4,294,967,296 where they are more. Takes constant time.
    pub fn length(&self) -> u64
        ensures { result ≡ capped_length (text (element_tree self.now)) }
    {
        match self {
            GreenElement::Node(node) => node.length(),
            GreenElement::Token(token) => token.length(),
        }
    }

    // Whether the element is a token or has one below it. Takes constant time.
    pub(crate) fn has_token(&self) -> bool
        ensures { result ≡ has_token (element_tree self.now) }
    {
        match self {
            GreenElement::Node(node) => node.has_token(),
            GreenElement::Token(_) => true,
        }
    }

    // The rank of a node, from 1 on; 0 for a token.
    fn rank(&self) -> u8 {
        match self {
            GreenElement::Node(node) => node.data.summary.rank,
            GreenElement::Token(_) => 0,
        }
    }

    /// The same element again. Takes constant time, and copies nothing.
    pub fn share(&self, alloc: Global) -> Result<GreenElement, AllocError>
        ensures { IfOk result (λ e. e ≡ self.now) }
    {
        match self {
            GreenElement::Node(node) => Ok(GreenElement::Node(node.share(alloc)?)),
            GreenElement::Token(token) => Ok(GreenElement::Token(token.share(alloc)?)),
        }
    }
}

// The slot of the first child node of the greatest rank.
fn heaviest(children: &[GreenElement]) -> Option<usize>
    ensures { IfSome result (λ slot. slot < length children.now) }
{
    let mut found = None;
    let mut greatest = 0;
    for slot in 0..children.len() {
        let rank = children[slot].rank();
        if greatest < rank {
            found = Some(slot);
            greatest = rank;
        }
    }
    found
}

/// The slot of the child node in which a walk over the whole node goes on by a loop, while it nests a call for each other child. Such calls
/// nest no deeper than the logarithm of how many nodes there are. `None` where no child is a node.
///
/// It is the first child of the greatest rank, by the numbers of Horton and Strahler. Takes time linear in the children.
pub fn heaviest_child(node: &GreenNode) -> Option<usize>
    ensures { IfSome result (λ slot. slot < length node.now.children) }
{
    heaviest(&node.data.children)
}

/// Shares elements at the end of a list. After a refusal some of them may be there.
pub fn share_all(
    alloc: Global,
    out: &mut Vec<GreenElement>,
    from: &[GreenElement],
) -> Result<(), AllocError>
    ensures { OnOk result (out.new.items ≡ out.old.items ++ from.now) }
{
    for element in from {
        out.push(element.share(alloc)?)?;
    }
    Ok(())
}

impl GreenNode {
    /// What a path of child slots leads to, from this node down; the empty path leads to the node itself.
    pub fn get(&self, path: &[usize]) -> Option<GreenElementRef<'_>>
        ensures { option_map ref_tree result ≡ at (branch_tree self.now) path.now }
    {
        let mut current = GreenElementRef::Node(self);
        for slot in path {
            let GreenElementRef::Node(node) = current else {
                return None;
            };
            let Some(child) = node.children().get(*slot) else {
                return None;
            };
            current = child.as_ref();
        }
        Some(current)
    }

    /// A node of this kind and these children, however long its text is.
    pub fn capped(
        alloc: Global,
        kind: SyntaxKind,
        children: Vec<GreenElement>,
    ) -> Result<GreenNode, AllocError>
        ensures { IfOk result (λ n. n ≡ record { kind = kind.0; children = element_trees children.items }) }
    {
        let summary = Summary::of(&children);
        GreenNode::summarized(alloc, kind, summary, children)
    }

    // A node of this kind and these children, whose summary is known.
    fn summarized(
        alloc: Global,
        kind: SyntaxKind,
        summary: Summary,
        children: Vec<GreenElement>,
    ) -> Result<GreenNode, AllocError>
        requires length { IsCappedLength children.items summary.length }
        requires token { TellsToken children.items summary.has_token }
        ensures { IfOk result (λ n. n ≡ record { kind = kind.0; children = element_trees children.items }) }
    {
        let data = Rc::new(
            alloc,
            NodeData {
                kind,
                summary,
                children,
            },
        )?;
        Ok(GreenNode { data })
    }

    /// A node of this kind and these children. `TooLong` where the text passes 4,294,967,295 bytes, else only `Memory`
    /// comes.
    pub fn new(
        alloc: Global,
        kind: SyntaxKind,
        children: Vec<GreenElement>,
    ) -> Result<GreenNode, TreeError>
        ensures ok { IfOk result (λ n. n ≡ record { kind = kind.0; children = element_trees children.items }) }
        ensures too_long { (result ≡ Err TreeError.TooLong) ↔ IsTooLong (texts (element_trees children.items)) }
        ensures no_number { ¬ (result ≡ Err TreeError.NoTreeNumber) }
    {
        let summary = Summary::of(&children);
        if summary.length >= LENGTH_LIMIT {
            return Err(TreeError::TooLong);
        }
        Ok(GreenNode::summarized(alloc, kind, summary, children)?)
    }

    /// The kind of the node.
    pub fn kind(&self) -> SyntaxKind
        ensures { result.0 ≡ self.now.kind }
    {
        self.data.kind
    }

    /// How many bytes the node's text has, or 4,294,967,296 where they are more. Takes constant time.
    pub fn length(&self) -> u64
        ensures { result ≡ capped_length (texts self.now.children) }
    {
        self.data.summary.length
    }

    // Whether there is a token below the node. Takes constant time.
    pub(crate) fn has_token(&self) -> bool
        ensures { result ≡ have_token self.now.children }
    {
        self.data.summary.has_token
    }

    /// The nodes and tokens below the node, in order.
    pub fn children(&self) -> &[GreenElement]
        ensures { element_trees result.now ≡ self.now.children }
    {
        self.data.children.as_slice()
    }

    // What the node's memory comes from.
    pub(crate) fn allocator(&self) -> Global {
        *self.data.children.allocator()
    }

    /// The same node again. Takes constant time, and copies nothing.
    pub fn share(&self, _alloc: Global) -> Result<GreenNode, AllocError>
        ensures { IfOk result (λ n. n ≡ self.now) }
    {
        Ok(GreenNode {
            data: self.data.clone()?,
        })
    }

    /// The node with `new` in the place of the children from slot `start` up to slot `end`, which stays. The other
    /// children are shared.
    pub fn splice_children(
        &self,
        alloc: Global,
        start: usize,
        end: usize,
        mut new: Vec<GreenElement>,
    ) -> Result<GreenNode, AllocError>
        requires ordered { start ≤ end }
        requires within { end ≤ length self.now.children }
        ensures { IfOk result (λ n. n ≡ spliced self.now start end (element_trees new.items)) }
    {
        let old = self.children();
        let mut all = Vec::new(alloc);
        share_all(alloc, &mut all, &old[..start])?;
        all.append(&mut new)?;
        share_all(alloc, &mut all, &old[end..])?;
        GreenNode::capped(alloc, self.kind(), all)
    }
}
