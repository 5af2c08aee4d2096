//! `read_root`: the same as a root with a number of its own.

ghost use Rattle.std.specs.Prelude.{◌≡◌, ◌+◌, ◌≤◌, [], IfErr, IfOk, OnOk, OnErr, Err};
ghost use Rattle.cst_core.specs.Tree.{SyntaxTree};
ghost use Rattle.cst_core.specs.TreeIds.{IsSpent};
ghost use Rattle.tree_text.specs.Depth.{depth, depth_limit};
ghost use Rattle.tree_text.specs.Grammar.{IsExpression, is_gap_blank};
ghost use Rattle.tree_text.specs.KindNames.{name_in};
ghost use Rattle.tree_text.specs.Refusals.{ReadRefuses};

use crate::error::ExpressionError;
use crate::expression::read_tree;
use cst_core::{SyntaxNode, TreeError, TreeIds};
use std::alloc::Global;

/// The root of a new tree, which `read_tree` reads from the expression, under the next number of `ids`.
///
/// `Tree(NoTreeNumber)` comes first, exactly if `ids` is spent. No error draws a number.
pub fn read_root(
    alloc: Global,
    ids: &mut TreeIds,
    expression: &str,
) -> Result<SyntaxNode, ExpressionError>
    ensures root { IfOk result (λ n. n.number ≡ ids.old × n.path ≡ [] × depth n.root ≤ depth_limit) }
    ensures found { IfOk result (λ n. IsExpression (name_in []) is_gap_blank n.root expression.now) }
    ensures only { (t : SyntaxTree) → IsExpression (name_in []) is_gap_blank t expression.now
        → IfOk result (λ n. n.root ≡ t) }
    ensures drawn { OnOk result (ids.new ≡ ids.old + 1) }
    ensures no_number { IsSpent ids.old → result ≡ Err (ExpressionError.Tree TreeError.NoTreeNumber) }
    ensures refused { ¬ IsSpent ids.old → IfErr result (ReadRefuses [] is_gap_blank expression.now) }
    ensures err { OnErr result (ids.new ≡ ids.old) }
{
    if ids.is_spent() {
        return Err(ExpressionError::Tree(TreeError::NoTreeNumber));
    }
    let root = read_tree(alloc, expression)?;
    SyntaxNode::new_root(alloc, ids, root).map_err(ExpressionError::of_tree)
}
