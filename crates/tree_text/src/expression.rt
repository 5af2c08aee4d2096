//! `read_tree`, `read_line_tree` and the same with names of one's own: the tree that a text stands for.

ghost use Rattle.std.specs.Prelude.{◌≡◌, ◌<◌, ◌≤◌, [], false, IfErr, IfOk, None};
ghost use Rattle.cst_core.specs.Green.{branch_tree};
ghost use Rattle.cst_core.specs.Tree.{SyntaxTree, is_token};
ghost use Rattle.tree_text.specs.Depth.{depth, depth_limit};
ghost use Rattle.tree_text.specs.Grammar.{IsExpression, is_gap_blank, is_gap_space};
ghost use Rattle.tree_text.specs.KindNames.{name_in};
ghost use Rattle.tree_text.specs.Refusals.{ReadRefuses, ReadRefusesFor};
ghost use Rattle.tree_text.specs.TreeText.{expression_of, unnamed_in};
ghost use Rattle.tree_text.specs.inner.Gap.{is_gap};

use crate::error::ExpressionError;
use crate::gaps::Gaps;
use crate::kind_names::KindNames;
use crate::open_nodes::DEPTH_LIMIT;
use crate::reader::Reader;
use crate::runs::first_of;
use cst_core::GreenNode;
use std::alloc::Global;

/// The tree of an expression, as `(LITERAL INT_NUMBER"1")`.
///
/// A node is `(`, the name of its kind, its elements, `)`. A token is the name of its kind and right after it its text
/// between two `"`, in which `\n`, `\r`, `\t`, `\"` and `\\` are newline, carriage return, tab, quote and backslash.
/// Spaces, newlines, carriage returns and tabs may stand before and after each element and before `)`, and one of them at
/// least stands between a node's kind and an element that begins with a name. Nothing comes before or after the
/// outermost node.
///
/// The time is linear in the expression's length, and nested nodes take no stack.
pub fn read_tree(alloc: Global, expression: &str) -> Result<GreenNode, ExpressionError>
    ensures limited { IfOk result (λ n. depth (branch_tree n) ≤ depth_limit) }
    ensures found { IfOk result (λ n. IsExpression (name_in []) is_gap_blank (branch_tree n) expression.now) }
    ensures only { (t : SyntaxTree) → IsExpression (name_in []) is_gap_blank t expression.now
        → IfOk result (λ n. branch_tree n ≡ t) }
    ensures written { (t : SyntaxTree) → is_token t ≡ false → unnamed_in [] t ≡ None
        → expression.now ≡ expression_of [] t → IfOk result (λ n. branch_tree n ≡ t) }
    ensures refused { IfErr result (ReadRefuses [] is_gap_blank expression.now) }
{
    read_tree_with(alloc, expression, &KindNames::new(alloc))
}

/// `read_tree` with names of one's own. It reads what `write_tree_with` writes with the same names.
pub fn read_tree_with(
    alloc: Global,
    expression: &str,
    names: &KindNames,
) -> Result<GreenNode, ExpressionError>
    ensures limited { IfOk result (λ n. depth (branch_tree n) ≤ depth_limit) }
    ensures found { IfOk result (λ n. IsExpression (name_in names.now) is_gap_blank (branch_tree n) expression.now) }
    ensures only { (t : SyntaxTree) → IsExpression (name_in names.now) is_gap_blank t expression.now
        → IfOk result (λ n. branch_tree n ≡ t) }
    ensures written { (t : SyntaxTree) → is_token t ≡ false → unnamed_in names.now t ≡ None
        → expression.now ≡ expression_of names.now t → IfOk result (λ n. branch_tree n ≡ t) }
    ensures refused { IfErr result (ReadRefuses names.now is_gap_blank expression.now) }
{
    read(alloc, expression, names, Gaps::Lines, DEPTH_LIMIT)
}

/// The tree of an expression that is a part of a line: `read_tree`, but only spaces stand between elements.
pub fn read_line_tree(alloc: Global, expression: &str) -> Result<GreenNode, ExpressionError>
    ensures limited { IfOk result (λ n. depth (branch_tree n) ≤ depth_limit) }
    ensures found { IfOk result (λ n. IsExpression (name_in []) is_gap_space (branch_tree n) expression.now) }
    ensures only { (t : SyntaxTree) → IsExpression (name_in []) is_gap_space t expression.now
        → IfOk result (λ n. branch_tree n ≡ t) }
    ensures refused { IfErr result (ReadRefuses [] is_gap_space expression.now) }
{
    read_line_tree_with(alloc, expression, &KindNames::new(alloc), DEPTH_LIMIT)
}

/// `read_line_tree` with names of one's own, and with as many parentheses open at once as the limit says, one at least.
pub fn read_line_tree_with(
    alloc: Global,
    expression: &str,
    names: &KindNames,
    limit: usize,
) -> Result<GreenNode, ExpressionError>
    requires { 0 < limit }
    ensures limited { IfOk result (λ n. depth (branch_tree n) ≤ limit) }
    ensures found { IfOk result (λ n. IsExpression (name_in names.now) is_gap_space (branch_tree n) expression.now) }
    ensures only { (t : SyntaxTree) → IsExpression (name_in names.now) is_gap_space t expression.now
        → IfOk result (λ n. branch_tree n ≡ t) }
    ensures refused { IfErr result (ReadRefusesFor limit names.now is_gap_space expression.now) }
{
    read(alloc, expression, names, Gaps::Spaces, limit)
}

fn read(
    alloc: Global,
    expression: &str,
    names: &KindNames,
    gaps: Gaps,
    limit: usize,
) -> Result<GreenNode, ExpressionError>
    requires { 0 < limit }
    ensures limited { IfOk result (λ n. depth (branch_tree n) ≤ limit) }
    ensures found { IfOk result (λ n. IsExpression (name_in names.now) (is_gap gaps) (branch_tree n) expression.now) }
    ensures only { (t : SyntaxTree) → IsExpression (name_in names.now) (is_gap gaps) t expression.now
        → IfOk result (λ n. branch_tree n ≡ t) }
    ensures refused { IfErr result (ReadRefusesFor limit names.now (is_gap gaps) expression.now) }
{
    let mut reader = Reader::new(alloc, names, gaps, limit);
    let mut rest = expression;
    while let Some((c, behind)) = first_of(rest) {
        reader.at = expression.len().saturating_sub(rest.len());
        reader.step(c)?;
        rest = reader.run(behind)?;
    }
    reader.at = expression.len();
    reader.finish()
}
