//! Nodes made of elements.
ghost use Rattle.std.specs.Prelude.{◌≡◌, ◌↔◌, ◌+◌, IfOk, OnOk, OnErr};
ghost use Rattle.cst_core.specs.Tree.{text};
ghost use Rattle.cst_core.specs.Green.{branch_tree, capped_length, texts, IsTooLong};
ghost use Rattle.cst_core.specs.GreenElement.{element_trees};
ghost use Rattle.cst_core.specs.TreeIds.{LacksNumber};
ghost use Rattle.whitespace.specs.IndentCalls.{fresh_root};
ghost use Rattle.syntax_editor.specs.Making.{trees_of, node_tree};

use cst_core::{
    GreenElement, GreenNode, LENGTH_LIMIT, SyntaxElement, SyntaxKind, SyntaxNode, TreeError,
    TreeIds,
};
use std::alloc::{AllocError, Global};

/// A node of this kind with these elements as its children, as `SyntaxFactory::node` makes it.
pub(crate) fn fresh_node(
    alloc: Global,
    ids: &mut TreeIds,
    kind: SyntaxKind,
    children: &[SyntaxElement],
) -> Result<SyntaxNode, TreeError>
    ensures ok { IfOk result (λ n. n ≡ fresh_root ids.old (node_tree kind children.now)) }
    ensures drawn { OnOk result (ids.new ≡ ids.old + 1) }
    ensures too_long { (result ≡ Err TreeError.TooLong) ↔ IsTooLong (text (node_tree kind children.now)) }
    ensures no_number { (result ≡ Err TreeError.NoTreeNumber) ↔ LacksNumber ids.old (node_tree kind children.now) }
    ensures err { OnErr result (ids.new ≡ ids.old) }
{
    if length_of(children) >= LENGTH_LIMIT {
        return Err(TreeError::TooLong);
    }
    if ids.is_spent() {
        return Err(TreeError::NoTreeNumber);
    }
    let root = green_node(alloc, kind, children)?;
    SyntaxNode::new_root(alloc, ids, root)
}

/// How many bytes the texts of elements have, or 4,294,967,296 if they have more.
pub(crate) fn length_of(elements: &[SyntaxElement]) -> u64
    ensures { result ≡ capped_length (texts (trees_of elements.now)) }
{
    let mut length = 0;
    for element in elements {
        length = LENGTH_LIMIT.min(length + element.text_len());
    }
    length
}

// The shared tree of a node with these children.
fn green_node(
    alloc: Global,
    kind: SyntaxKind,
    children: &[SyntaxElement],
) -> Result<GreenNode, AllocError>
    ensures { IfOk result (λ n. branch_tree n ≡ node_tree kind children.now) }
{
    let greens = greens_of(alloc, children)?;
    GreenNode::capped(alloc, kind, greens)
}

/// The shared trees of elements.
pub(crate) fn greens_of(
    alloc: Global,
    elements: &[SyntaxElement],
) -> Result<Vec<GreenElement>, AllocError>
    ensures { IfOk result (λ all. element_trees all.items ≡ trees_of elements.now) }
{
    let mut greens = Vec::with_capacity(alloc, elements.len())?;
    for element in elements {
        greens.push(element.green(alloc)?)?;
    }
    Ok(greens)
}
