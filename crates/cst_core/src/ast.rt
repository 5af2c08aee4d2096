//! Typed nodes.
ghost use Rattle.std.specs.Prelude.{◌≡◌, ◌==◌};
ghost use Rattle.std.proofs.Common.{eq-eqb};
ghost use Rattle.green_tree.specs.Tree.{label};
ghost use Rattle.cst_core.specs.Element.{subtree};
ghost use Rattle.green_tree.specs.declared.kind.TheConstants.SyntaxKind.{BLOCK_EXPR, STMT_LIST, LET_STMT, FN};

use crate::ast_node::{AstNode, HasAttrs};
use crate::node::SyntaxNode;
use green_tree::SyntaxKind;

/// A block expression.
#[derive(Drop)]
pub struct BlockExpr {
    syntax: SyntaxNode,
    ghost kind: { label (subtree syntax) ≡ BLOCK_EXPR.0 },
}

impl AstNode for BlockExpr {
    ghost is_kind = { λ k. k == BLOCK_EXPR.0 };

    ghost syntax_node = { λ n. n.syntax };

    ghost has_kind = { λ n. eq-eqb _ _ n.kind };

    fn can_cast(kind: SyntaxKind) -> bool {
        kind == SyntaxKind::BLOCK_EXPR
    }

    fn cast(syntax: SyntaxNode) -> Option<BlockExpr> {
        if BlockExpr::can_cast(syntax.kind()) {
            Some(BlockExpr { syntax })
        } else {
            None
        }
    }

    fn syntax(&self) -> &SyntaxNode {
        &self.syntax
    }
}

/// The statements of a block, with its braces.
#[derive(Drop)]
pub struct StmtList {
    syntax: SyntaxNode,
    ghost kind: { label (subtree syntax) ≡ STMT_LIST.0 },
}

impl AstNode for StmtList {
    ghost is_kind = { λ k. k == STMT_LIST.0 };

    ghost syntax_node = { λ n. n.syntax };

    ghost has_kind = { λ n. eq-eqb _ _ n.kind };

    fn can_cast(kind: SyntaxKind) -> bool {
        kind == SyntaxKind::STMT_LIST
    }

    fn cast(syntax: SyntaxNode) -> Option<StmtList> {
        if StmtList::can_cast(syntax.kind()) {
            Some(StmtList { syntax })
        } else {
            None
        }
    }

    fn syntax(&self) -> &SyntaxNode {
        &self.syntax
    }
}

/// A `let` statement.
#[derive(Drop)]
pub struct LetStmt {
    syntax: SyntaxNode,
    ghost kind: { label (subtree syntax) ≡ LET_STMT.0 },
}

impl AstNode for LetStmt {
    ghost is_kind = { λ k. k == LET_STMT.0 };

    ghost syntax_node = { λ n. n.syntax };

    ghost has_kind = { λ n. eq-eqb _ _ n.kind };

    fn can_cast(kind: SyntaxKind) -> bool {
        kind == SyntaxKind::LET_STMT
    }

    fn cast(syntax: SyntaxNode) -> Option<LetStmt> {
        if LetStmt::can_cast(syntax.kind()) {
            Some(LetStmt { syntax })
        } else {
            None
        }
    }

    fn syntax(&self) -> &SyntaxNode {
        &self.syntax
    }
}

impl HasAttrs for LetStmt {}

/// A function.
#[derive(Drop)]
pub struct Fn {
    syntax: SyntaxNode,
    ghost kind: { label (subtree syntax) ≡ FN.0 },
}

impl AstNode for Fn {
    ghost is_kind = { λ k. k == FN.0 };

    ghost syntax_node = { λ n. n.syntax };

    ghost has_kind = { λ n. eq-eqb _ _ n.kind };

    fn can_cast(kind: SyntaxKind) -> bool {
        kind == SyntaxKind::FN
    }

    fn cast(syntax: SyntaxNode) -> Option<Fn> {
        if Fn::can_cast(syntax.kind()) {
            Some(Fn { syntax })
        } else {
            None
        }
    }

    fn syntax(&self) -> &SyntaxNode {
        &self.syntax
    }
}

impl HasAttrs for Fn {}
