//! `AstNode`, the trait of typed nodes, with the law that each implementation proves, and `HasAttrs`.

ghost use Rattle.std.specs.Prelude.{◌≡◌, ◌↔◌, IsTrue, IsSome, IfSome};
ghost use Rattle.green_tree.specs.Tree.{label};
ghost use Rattle.cst_core.specs.Element.{subtree};

use crate::node::SyntaxNode;
use green_tree::SyntaxKind;

/// A typed view of the nodes of some kinds.
pub trait AstNode: Drop {
    ghost use Rattle.std.specs.Prelude.{ℕ, Bool, IsTrue};
    ghost use Rattle.green_tree.specs.Tree.{label};
    ghost use Rattle.cst_core.specs.Element.{Element, subtree};

    // Whether a kind is one of them.
    ghost is_kind: { ℕ → Bool };

    // The node that a value is a view of.
    ghost syntax_node: { Self → Element };

    /// Whether a node of this kind has such a view.
    fn can_cast(kind: SyntaxKind) -> bool
        ensures { result ≡ is_kind kind.0 };

    /// The view of a node, if its kind has one.
    fn cast(syntax: SyntaxNode) -> Option<Self>
        ensures castable { IsSome result ↔ IsTrue (is_kind (label (subtree syntax))) }
        ensures node { IfSome result (λ n. syntax_node n ≡ syntax) };

    /// The node of the view.
    fn syntax(&self) -> &SyntaxNode
        ensures { result.now ≡ syntax_node self.now };

    // There is no view of a node of another kind.
    ghost has_kind: { (n : Self) → IsTrue (is_kind (label (subtree (syntax_node n)))) };
}

/// A node that attributes may stand at.
pub trait HasAttrs: AstNode {}
