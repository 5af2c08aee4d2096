//! Nodes that hold a copy of a node between other elements.
ghost use Rattle.std.specs.Prelude.{◌≡◌, ◌↔◌, ◌<◌, ◌++◌, [], ◌∷◌, IfOk, Some, IsTrue};
ghost use Rattle.cst_core.specs.Tree.{text, text_length};
ghost use Rattle.cst_core.specs.Green.{branch_tree, length_limit, IsTooLong};
ghost use Rattle.cst_core.specs.TreeIds.{spent};
ghost use Rattle.cst_core.specs.Element.{below};
ghost use Rattle.cst_core.specs.SyntaxElement.{syntax_at};
ghost use Rattle.cst_core.specs.SyntaxKind.{SyntaxKind};
ghost use Rattle.cst_core.specs.declared.element.SyntaxElement.TheVariants.{Node};
ghost use Rattle.edit_map.specs.Builder.{IsPairUnder};
ghost use Rattle.syntax_editor.specs.Wrapping.{wrapped_tree, wrapper};

use crate::fresh_node::{greens_of, length_of};
use cst_core::{
    GreenElement, GreenNode, LENGTH_LIMIT, SyntaxElement, SyntaxKind, SyntaxNode, TreeError,
    TreeIds,
};
use edit_map::{MapError, SyntaxMappingBuilder};
use std::alloc::{AllocError, Global};

/// Whether the text of a wrapper is too long. It takes no memory.
pub(crate) fn is_wrapper_too_long(
    before: &[SyntaxElement],
    node: &SyntaxNode,
    after: &[SyntaxElement],
) -> bool
    ensures { (kind : SyntaxKind) → IsTrue result ↔ IsTooLong (text (wrapped_tree kind before.now node.now after.now)) }
{
    length_of(before) + node.text_len() + length_of(after) >= LENGTH_LIMIT
}

/// The root of a tree of this number, in which the node stands between these elements.
pub(crate) fn wrapper_of(
    alloc: Global,
    number: u64,
    kind: SyntaxKind,
    before: &[SyntaxElement],
    node: &SyntaxNode,
    after: &[SyntaxElement],
) -> Result<SyntaxNode, AllocError>
    requires number { number < spent }
    requires fits { text_length (wrapped_tree kind before.now node.now after.now) < length_limit }
    ensures { IfOk result (λ n. n ≡ wrapper number kind before.now node.now after.now) }
{
    let root = green_wrapper(alloc, kind, before, node, after)?;
    match SyntaxNode::new_root(alloc, &mut TreeIds::new(number), root) {
        Ok(root) => Ok(root),
        Err(TreeError::TooLong) => unreachable!(),
        Err(TreeError::NoTreeNumber) => unreachable!(),
        Err(TreeError::Memory) => Err(AllocError),
    }
}

// The shared tree of a wrapper.
fn green_wrapper(
    alloc: Global,
    kind: SyntaxKind,
    before: &[SyntaxElement],
    node: &SyntaxNode,
    after: &[SyntaxElement],
) -> Result<GreenNode, AllocError>
    ensures { IfOk result (λ n. branch_tree n ≡ wrapped_tree kind before.now node.now after.now) }
{
    let mut children = greens_of(alloc, before)?;
    children.push(GreenElement::Node(node.green(alloc)?))?;
    children.append(&mut greens_of(alloc, after)?)?;
    GreenNode::capped(alloc, kind, children)
}

/// The child node of a root in a slot.
pub(crate) fn child_node(
    alloc: Global,
    root: &SyntaxNode,
    slot: usize,
) -> Result<SyntaxNode, AllocError>
    requires { syntax_at root.now (root.now.path ++ slot ∷ []) ≡ Some (Node (below root.now (slot ∷ []))) }
    ensures { IfOk result (λ n. n ≡ below root.now (slot ∷ [])) }
{
    match root.element_at(alloc, &[slot])? {
        Some(SyntaxElement::Node(child)) => Ok(child),
        Some(SyntaxElement::Token(_)) => unreachable!(),
        None => unreachable!(),
    }
}

/// The pair of a node and its copy, a child of the wrapper.
pub(crate) fn pair_of(
    alloc: Global,
    wrapper: &SyntaxNode,
    node: &SyntaxNode,
    copy: &SyntaxNode,
) -> Result<SyntaxMappingBuilder, AllocError>
    requires { IsPairUnder wrapper.now (node.now, copy.now) }
    ensures { IfOk result (λ b. b.pairs ≡ (node.now, copy.now) ∷ []) }
{
    let mut builder = SyntaxMappingBuilder::new(alloc, wrapper.try_clone(alloc)?);
    match builder.map_node(alloc, node.try_clone(alloc)?, copy.try_clone(alloc)?) {
        Ok(()) => Ok(builder),
        Err(MapError::NotAChild) => unreachable!(),
        Err(MapError::NotYounger) => unreachable!(),
        Err(MapError::OtherShape) => unreachable!(),
        Err(MapError::MoreInputs) => unreachable!(),
        Err(MapError::Memory) => Err(AllocError),
    }
}
