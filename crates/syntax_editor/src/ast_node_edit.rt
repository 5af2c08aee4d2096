//! Levels and indentation of typed nodes.
ghost use Rattle.std.specs.Prelude.{◌≡◌, ◌+◌, false, IsTrue, IfOk, IfErr, OnOk, OnErr};
ghost use Rattle.cst_core.specs.Tree.{label};
ghost use Rattle.cst_core.specs.Element.{subtree};
ghost use Rattle.cst_core.specs.declared.element.SyntaxElement.TheVariants.{Node};
ghost use Rattle.whitespace.specs.Level.{level, is_too_deep};
ghost use Rattle.whitespace.specs.LevelCalls.{ReadsLevel, ReadsAtOnce};
ghost use Rattle.whitespace.specs.Indentation.{indented, dedented, reset, mapped_children};
ghost use Rattle.whitespace.specs.IndentCalls.{fresh_root, CanBeRoot, RootRefuses, ResetRefuses, next_after};
ghost use Rattle.whitespace.specs.MappedAlong.{is_too_old, MapsAlong};
ghost use Rattle.syntax_editor.specs.TypedIndents.{indented_root, dedented_root, MapsChildren, IndentRefuses};

use crate::factory::SyntaxFactory;
use cst_core::{AstNode, SyntaxNode, TreeIds};
use edit_change::trial_source;
use std::alloc::Global;
use whitespace::{IndentError, IndentLevel, dedent, indent};

/// Levels and indentation of typed nodes. What is indented or dedented is the root of a tree of its own, under the next
/// number; a refusal draws none.
pub trait AstNodeEdit: AstNode {
    /// The level of the node.
    ///
    /// `LevelTooLarge` comes exactly where it passes 255; else only `Memory` comes, and not of a node without tokens.
    fn indent_level(&self, alloc: Global) -> Result<IndentLevel, IndentError>
        ensures level { ReadsLevel (level (Self.syntax_node self.now)) result }
        ensures at_once { ReadsAtOnce (Node (Self.syntax_node self.now)) result }
    {
        IndentLevel::from_node(alloc, self.syntax())
    }

    /// The node indented by a level: spaces are added to the end of each whitespace token that holds a newline.
    ///
    /// `TooLong` comes first, where the new text passes 4,294,967,295 bytes, then `NoTreeNumber`; `Memory` may come at any time.
    fn indent(
        &self,
        alloc: Global,
        ids: &mut TreeIds,
        level: IndentLevel,
    ) -> Result<Self, IndentError>
        ensures ok { IfOk result (λ n. Self.syntax_node n ≡ indented_root ids.old level.0 (Self.syntax_node self.now)) }
        ensures drawn { OnOk result (ids.new ≡ ids.old + 1) }
        ensures accepted { OnOk result (CanBeRoot (indented level.0 (subtree (Self.syntax_node self.now))) ids.old) }
        ensures refused { IfErr result (RootRefuses (indented level.0 (subtree (Self.syntax_node self.now))) ids.old) }
        ensures err { OnErr result (ids.new ≡ ids.old) }
    {
        Ok(view_of(indent(alloc, self.syntax(), ids, level)?))
    }

    /// The node dedented by a level: its spaces are removed after each newline in whitespace that is followed by at least as many.
    ///
    /// Refused as `indent` is.
    fn dedent(
        &self,
        alloc: Global,
        ids: &mut TreeIds,
        level: IndentLevel,
    ) -> Result<Self, IndentError>
        ensures ok { IfOk result (λ n. Self.syntax_node n ≡ dedented_root ids.old level.0 (Self.syntax_node self.now)) }
        ensures drawn { OnOk result (ids.new ≡ ids.old + 1) }
        ensures accepted { OnOk result (CanBeRoot (dedented level.0 (subtree (Self.syntax_node self.now))) ids.old) }
        ensures refused { IfErr result (RootRefuses (dedented level.0 (subtree (Self.syntax_node self.now))) ids.old) }
        ensures err { OnErr result (ids.new ≡ ids.old) }
    {
        Ok(view_of(dedent(alloc, self.syntax(), ids, level)?))
    }

    /// The node dedented by its own level.
    ///
    /// `LevelTooLarge` comes first, where that passes 255, then the refusals of `dedent`.
    fn reset_indent(&self, alloc: Global, ids: &mut TreeIds) -> Result<Self, IndentError>
        ensures ok { IfOk result (λ n. Self.syntax_node n ≡ fresh_root ids.old (reset (Self.syntax_node self.now))) }
        ensures drawn { OnOk result (ids.new ≡ ids.old + 1) }
        ensures accepted { OnOk result (is_too_deep (level (Self.syntax_node self.now)) ≡ false) }
        ensures fits { OnOk result (CanBeRoot (reset (Self.syntax_node self.now)) ids.old) }
        ensures refused { IfErr result (ResetRefuses (Self.syntax_node self.now) ids.old) }
        ensures err { OnErr result (ids.new ≡ ids.old) }
    {
        let own = IndentLevel::from_node(alloc, self.syntax())?;
        Ok(view_of(dedent(alloc, self.syntax(), ids, own)?))
    }

    /// The node indented by a level, as `indent` makes it. Where the factory keeps mappings, each child node of the new node is
    /// mapped as the copy of the child node of this one at the same index.
    ///
    /// `TooLong` comes first, then `NoTreeNumber`, then `NotYounger`; `Memory` may come at any time. `NotYounger` comes where the factory keeps
    /// mappings, this node has a child node and the number drawn is not greater than its own; one number is spent then, and
    /// none by any other refusal. The mappings are unchanged after each.
    fn indent_with_mapping(
        &self,
        alloc: Global,
        ids: &mut TreeIds,
        level: IndentLevel,
        factory: &mut SyntaxFactory,
    ) -> Result<Self, IndentError>
        ensures ok { IfOk result (λ n. Self.syntax_node n ≡ indented_root ids.old level.0 (Self.syntax_node self.now)) }
        ensures mapped { IfOk result (MapsChildren Self.syntax_node factory.old factory.new self.now) }
        ensures accepted { OnOk result (is_too_old factory.old (Self.syntax_node self.now) ids.old ≡ false) }
        ensures fits { OnOk result (CanBeRoot (indented level.0 (subtree (Self.syntax_node self.now))) ids.old) }
        ensures drawn { OnOk result (ids.new ≡ ids.old + 1) }
        ensures refused { IfErr result (IndentRefuses factory.old ids.old level.0 (Self.syntax_node self.now)) }
        ensures spent { IfErr result (λ e. ids.new ≡ next_after e ids.old) }
        ensures unchanged { OnErr result (factory.new ≡ factory.old) }
    {
        Ok(view_of(indent_along(alloc, self.syntax(), ids, level, factory)?))
    }
}

impl<N: AstNode> AstNodeEdit for N {}

// The node indented by a level, with its child nodes mapped along.
fn indent_along(
    alloc: Global,
    node: &SyntaxNode,
    ids: &mut TreeIds,
    level: IndentLevel,
    factory: &mut SyntaxFactory,
) -> Result<SyntaxNode, IndentError>
    ensures ok { IfOk result (λ n. n ≡ indented_root ids.old level.0 node.now) }
    ensures mapped { IfOk result (λ n. MapsAlong (mapped_children node.now n) factory.old factory.new) }
    ensures accepted { OnOk result (is_too_old factory.old node.now ids.old ≡ false) }
    ensures fits { OnOk result (CanBeRoot (indented level.0 (subtree node.now)) ids.old) }
    ensures drawn { OnOk result (ids.new ≡ ids.old + 1) }
    ensures refused { IfErr result (IndentRefuses factory.old ids.old level.0 node.now) }
    ensures spent { IfErr result (λ e. ids.new ≡ next_after e ids.old) }
    ensures unchanged { OnErr result (factory.new ≡ factory.old) }
{
    // The number is drawn last, when memory cannot be refused any more.
    let mut drawn = trial_source(ids);
    let new = indent(alloc, node, &mut drawn, level)?;
    match factory.map_children(alloc, node, &new) {
        Ok(()) => {
            *ids = drawn;
            Ok(new)
        }
        Err(IndentError::NotYounger) => {
            *ids = drawn;
            Err(IndentError::NotYounger)
        }
        Err(error) => Err(error),
    }
}

// The view of a node of a kind that has one.
pub(crate) fn view_of<N: AstNode>(node: SyntaxNode) -> N
    requires { IsTrue (N.is_kind (label (subtree node))) }
    ensures { N.syntax_node result ≡ node }
{
    N::cast(node).unwrap()
}
