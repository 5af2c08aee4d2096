//! Nodes indented and dedented, as roots of trees of their own.
ghost use Rattle.std.specs.Prelude.{◌≡◌, ◌+◌, ◌<◌, IfOk, IfErr, OnOk, OnErr};
ghost use Rattle.cst_core.specs.Element.{subtree};
ghost use Rattle.whitespace.specs.Indentation.{indented, dedented};
ghost use Rattle.whitespace.specs.inner.Shift.{shifted};
ghost use Rattle.whitespace.specs.IndentCalls.{fresh_root, CanBeRoot, RootRefuses};

use crate::indent_error::IndentError;
use crate::level::IndentLevel;
use crate::shift::{Shift, shifted_node};
use cst_core::{SyntaxNode, TreeIds};
use std::alloc::Global;

// The node indented or dedented, as the root of a tree of its own under the next number.
fn shifted_root(
    alloc: Global,
    shift: Shift,
    node: &SyntaxNode,
    ids: &mut TreeIds,
) -> Result<SyntaxNode, IndentError>
    ensures ok { IfOk result (λ n. n ≡ fresh_root ids.old (shifted shift (subtree node.now))) }
    ensures drawn { OnOk result (ids.new ≡ ids.old + 1) }
    ensures accepted { OnOk result (CanBeRoot (shifted shift (subtree node.now)) ids.old) }
    ensures refused { IfErr result (RootRefuses (shifted shift (subtree node.now)) ids.old) }
    ensures err { OnErr result (ids.new ≡ ids.old) }
{
    let green = shifted_node(alloc, shift, node.as_green())?;
    match SyntaxNode::new_root(alloc, ids, green) {
        Ok(root) => Ok(root),
        Err(error) => Err(IndentError::from(error)),
    }
}

/// The node indented by a level, as the root of a tree of its own under the next number of `ids`: spaces are added to the
/// end of each whitespace token that holds a newline. Parts without such a token are shared.
///
/// `TooLong` comes first, where the new text passes 4,294,967,295 bytes, then `NoTreeNumber`; `Memory` may come at any time.
/// None of them draws a number.
pub fn indent(
    alloc: Global,
    node: &SyntaxNode,
    ids: &mut TreeIds,
    level: IndentLevel,
) -> Result<SyntaxNode, IndentError>
    ensures ok { IfOk result (λ n. n ≡ fresh_root ids.old (indented level.0 (subtree node.now))) }
    ensures drawn { OnOk result (ids.new ≡ ids.old + 1) }
    ensures accepted { OnOk result (CanBeRoot (indented level.0 (subtree node.now)) ids.old) }
    ensures refused { IfErr result (RootRefuses (indented level.0 (subtree node.now)) ids.old) }
    ensures err { OnErr result (ids.new ≡ ids.old) }
{
    shifted_root(alloc, Shift::Indent(level), node, ids)
}

/// The node dedented by a level, as the root of a tree of its own under the next number of `ids`: the level's spaces are removed
/// after each newline in whitespace that is followed by at least as many. Parts without such a token are shared.
///
/// `TooLong` comes first, where the new text passes 4,294,967,295 bytes, then `NoTreeNumber`; `Memory` may come at any time.
/// None of them draws a number.
pub fn dedent(
    alloc: Global,
    node: &SyntaxNode,
    ids: &mut TreeIds,
    level: IndentLevel,
) -> Result<SyntaxNode, IndentError>
    ensures ok { IfOk result (λ n. n ≡ fresh_root ids.old (dedented level.0 (subtree node.now))) }
    ensures drawn { OnOk result (ids.new ≡ ids.old + 1) }
    ensures accepted { OnOk result (CanBeRoot (dedented level.0 (subtree node.now)) ids.old) }
    ensures refused { IfErr result (RootRefuses (dedented level.0 (subtree node.now)) ids.old) }
    ensures err { OnErr result (ids.new ≡ ids.old) }
{
    shifted_root(alloc, Shift::Dedent(level), node, ids)
}
