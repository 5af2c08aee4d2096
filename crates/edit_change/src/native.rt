//! Whether an element or a position is of a tree.

ghost use Rattle.std.specs.Prelude.{◌≡◌};
ghost use Rattle.cst_core.specs.declared.element.SyntaxElement.TheVariants.{Node, Token};
ghost use Rattle.edit_change.specs.Fits.{is_native, is_native_position};

use crate::position::Position;
use cst_core::{GreenElementRef, SyntaxElement, SyntaxNode, SyntaxToken};

/// Whether an element is of the tree of `root`: it has the tree's number, and its path leads to an element of its form there.
pub fn is_native(root: &SyntaxNode, element: &SyntaxElement) -> bool
    ensures { result ≡ is_native root.now element.now }
{
    match element {
        SyntaxElement::Node(node) => is_native_node(root, node),
        SyntaxElement::Token(token) => is_native_token(root, token),
    }
}

/// Whether a node is of the tree of `root`, without a copy of it as an element.
pub fn is_native_node(root: &SyntaxNode, node: &SyntaxNode) -> bool
    ensures { result ≡ is_native root.now (Node node.now) }
{
    if node.tree() != root.tree() {
        return false;
    }
    match root.top_green().get(node.slots()) {
        Some(GreenElementRef::Node(_)) => true,
        Some(GreenElementRef::Token(_)) => false,
        None => false,
    }
}

fn is_native_token(root: &SyntaxNode, token: &SyntaxToken) -> bool
    ensures { result ≡ is_native root.now (Token token.now) }
{
    if token.tree() != root.tree() {
        return false;
    }
    match root.top_green().get(token.slots()) {
        Some(GreenElementRef::Node(_)) => false,
        Some(GreenElementRef::Token(_)) => true,
        None => false,
    }
}

impl Position {
    /// Whether the node or element that it names is of the tree of `root`.
    pub fn is_native(&self, root: &SyntaxNode) -> bool
        ensures { result ≡ is_native_position root.now self.now }
    {
        if let Some(element) = self.after_of() {
            return is_native(root, element);
        }
        match self.first_of() {
            Some(node) => is_native_node(root, node),
            None => false,
        }
    }
}
