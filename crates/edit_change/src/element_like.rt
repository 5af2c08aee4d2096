//! `Element`: any value or reference that stands for an element, which the calls that record take.

ghost use Rattle.std.specs.Prelude.{◌≡◌, IfOk};
ghost use Rattle.cst_core.specs.declared.element.SyntaxElement.TheVariants.{Node};

use cst_core::ast::{BlockExpr, Fn, LetStmt, StmtList};
use cst_core::{AstNode, SyntaxElement, SyntaxNode, SyntaxToken};
use std::alloc::{AllocError, Global};

/// What stands for an element: a node, a token or an element, or a reference to one or to a typed node.
pub trait Element: Drop {
    ghost use Rattle.std.specs.Prelude.{◌≡◌, Bool, IsTrue, IsOk, IfOk};
    ghost use Rattle.cst_core.specs.declared.element.SyntaxElement.{SyntaxElement};

    // The element that a value stands for.
    ghost element: { Self → SyntaxElement };

    // Whether making it of the value takes no memory.
    ghost is_owned: { Bool };

    /// That element, as a value of its own. A value is handed on without taking memory; what a reference points to is
    /// cloned.
    fn syntax_element(self, alloc: Global) -> Result<SyntaxElement, AllocError>
        ensures element { IfOk result (λ e. e ≡ element self) }
        ensures owned { IsTrue is_owned → IsOk result };
}

impl Element for SyntaxNode {
    ghost use Rattle.std.specs.Prelude.{true};
    ghost use Rattle.cst_core.specs.declared.element.SyntaxElement.TheVariants.{Node};

    ghost element = { λ n. Node n };

    ghost is_owned = { true };

    fn syntax_element(self, _alloc: Global) -> Result<SyntaxElement, AllocError> {
        Ok(SyntaxElement::Node(self))
    }
}

impl Element for SyntaxToken {
    ghost use Rattle.std.specs.Prelude.{true};
    ghost use Rattle.cst_core.specs.declared.element.SyntaxElement.TheVariants.{Token};

    ghost element = { λ t. Token t };

    ghost is_owned = { true };

    fn syntax_element(self, _alloc: Global) -> Result<SyntaxElement, AllocError> {
        Ok(SyntaxElement::Token(self))
    }
}

impl Element for SyntaxElement {
    ghost use Rattle.std.specs.Prelude.{true};

    ghost element = { λ e. e };

    ghost is_owned = { true };

    fn syntax_element(self, _alloc: Global) -> Result<SyntaxElement, AllocError> {
        Ok(self)
    }
}

impl Element for &SyntaxNode {
    ghost use Rattle.std.specs.Prelude.{false};
    ghost use Rattle.cst_core.specs.declared.element.SyntaxElement.TheVariants.{Node};

    ghost element = { λ n. Node n.now };

    ghost is_owned = { false };

    fn syntax_element(self, alloc: Global) -> Result<SyntaxElement, AllocError> {
        Ok(SyntaxElement::Node(self.try_clone(alloc)?))
    }
}

impl Element for &SyntaxToken {
    ghost use Rattle.std.specs.Prelude.{false};
    ghost use Rattle.cst_core.specs.declared.element.SyntaxElement.TheVariants.{Token};

    ghost element = { λ t. Token t.now };

    ghost is_owned = { false };

    fn syntax_element(self, alloc: Global) -> Result<SyntaxElement, AllocError> {
        Ok(SyntaxElement::Token(self.try_clone(alloc)?))
    }
}

impl Element for &SyntaxElement {
    ghost use Rattle.std.specs.Prelude.{false};

    ghost element = { λ e. e.now };

    ghost is_owned = { false };

    fn syntax_element(self, alloc: Global) -> Result<SyntaxElement, AllocError> {
        self.try_clone(alloc)
    }
}

impl Element for &BlockExpr {
    ghost use Rattle.std.specs.Prelude.{false};
    ghost use Rattle.cst_core.specs.declared.element.SyntaxElement.TheVariants.{Node};

    ghost element = { λ n. Node n.now.syntax };

    ghost is_owned = { false };

    fn syntax_element(self, alloc: Global) -> Result<SyntaxElement, AllocError> {
        element_of_typed(alloc, self)
    }
}

impl Element for &StmtList {
    ghost use Rattle.std.specs.Prelude.{false};
    ghost use Rattle.cst_core.specs.declared.element.SyntaxElement.TheVariants.{Node};

    ghost element = { λ n. Node n.now.syntax };

    ghost is_owned = { false };

    fn syntax_element(self, alloc: Global) -> Result<SyntaxElement, AllocError> {
        element_of_typed(alloc, self)
    }
}

impl Element for &LetStmt {
    ghost use Rattle.std.specs.Prelude.{false};
    ghost use Rattle.cst_core.specs.declared.element.SyntaxElement.TheVariants.{Node};

    ghost element = { λ n. Node n.now.syntax };

    ghost is_owned = { false };

    fn syntax_element(self, alloc: Global) -> Result<SyntaxElement, AllocError> {
        element_of_typed(alloc, self)
    }
}

impl Element for &Fn {
    ghost use Rattle.std.specs.Prelude.{false};
    ghost use Rattle.cst_core.specs.declared.element.SyntaxElement.TheVariants.{Node};

    ghost element = { λ n. Node n.now.syntax };

    ghost is_owned = { false };

    fn syntax_element(self, alloc: Global) -> Result<SyntaxElement, AllocError> {
        element_of_typed(alloc, self)
    }
}

fn element_of_typed<N: AstNode>(alloc: Global, node: &N) -> Result<SyntaxElement, AllocError>
    ensures { IfOk result (λ e. e ≡ Node (N.syntax_node node.now)) }
{
    node.syntax().syntax_element(alloc)
}
