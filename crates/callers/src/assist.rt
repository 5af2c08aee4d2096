//! Swaps the first two arguments of a list and deletes the third with its comma: `(1, 2, 3)` becomes `(2, 1)`.

ghost use Rattle.std.specs.Prelude.{◌≡◌, ℕ, ◌+◌, cond, [], IfOk, OnOk};
ghost use Rattle.syntax_editor.specs.Element.{subtree};
ghost use Rattle.syntax_editor.specs.Tree.{text};
ghost use Rattle.syntax_editor.specs.Plan.{Edit, Makes};
ghost use Rattle.syntax_editor.specs.RewritingLaws.{changed_text};
ghost use Rattle.syntax_editor.specs.Editor.{Editor, new_editor, has_parent, plan_of};
ghost use Rattle.callers.specs.Rearranged.{calls, after_calls, Rearranges, IsRearranged};

use anyhow::{Result, anyhow};
use cst_core::laws::children_are_one_level_below;
use cst_core::{SyntaxElement, SyntaxKind, SyntaxNode, TreeIds};
use edit_plan::laws::edit_text_is_filled;
use list_removal::laws::removal_is_at_the_depth_of_the_element;
use list_removal::remove_separated;
use std::alloc::Global;
use syntax_editor::laws::calls_at_one_depth_own_nothing;
use syntax_editor::{SyntaxEdit, SyntaxEditor};
use tree_text::read_root;

// Each payload is taken as it was, so neither replacement sees the other.
fn record(
    alloc: Global,
    editor: &mut SyntaxEditor,
    first: &SyntaxNode,
    second: &SyntaxNode,
    third: &SyntaxNode,
) -> Result<()>
    ensures { OnOk result (editor.new ≡ after_calls (calls first.now second.now third.now) editor.old) }
{
    editor.replace(alloc, first, second)?;
    editor.replace(alloc, second, first)?;
    let third = SyntaxElement::Node(third.try_clone(alloc)?);
    Ok(remove_separated(alloc, editor, &third, SyntaxKind::COMMA)?)
}

// `(1, 2, 3)` becomes `(2, 1)`.
fn rearrange(alloc: Global, editor: &mut SyntaxEditor, root: &SyntaxNode) -> Result<()>
    ensures { OnOk result (Rearranges root.now editor.old editor.new) }
{
    let arguments = root.children(alloc)?;
    let [first, second, third] = arguments.as_slice() else {
        return Err(anyhow!("three arguments are wanted"));
    };
    record(alloc, editor, first, second, third)
}

// All calls aim at children of the root, so no change is inside another one, and the changes alone tell the new text.
fn text_is_told()
    ensures { (editor after : Editor) (number : ℕ) (edit : Edit)
        → editor.root.path ≡ [] → editor.changes ≡ [] → Rearranges editor.root editor after
        → Makes (plan_of after) number edit
        → text edit.new_root.root ≡ changed_text after.changes (subtree after.root) }
{
    edit_text_is_filled();
    children_are_one_level_below();
    calls_at_one_depth_own_nothing();
    removal_is_at_the_depth_of_the_element();
}

// The elements to edit are those of the root that `new` returns.
fn rearrange_edit(alloc: Global, ids: &mut TreeIds, list: SyntaxNode) -> Result<SyntaxEdit>
    ensures { IfOk result (IsRearranged (new_editor ids.old list) (cond (has_parent list) (ids.old + 1) ids.old)) }
{
    // A law: the calls alone tell the new text.
    text_is_told();
    let (mut editor, root) = SyntaxEditor::new(alloc, ids, list)?;
    rearrange(alloc, &mut editor, &root)?;
    Ok(editor.finish(alloc, ids)?)
}

const LIST: &str =
    r#"(ARG_LIST L_PAREN"(" (LITERAL INT_NUMBER"1") COMMA"," WHITESPACE" " (LITERAL INT_NUMBER"2") COMMA"," WHITESPACE" " (LITERAL INT_NUMBER"3") R_PAREN")")"#;

/// The new text of the list.
pub(crate) fn example(alloc: Global) -> Result<String> {
    let mut ids = TreeIds::new(1);
    let list = read_root(alloc, &mut ids, LIST)?;
    let edit = rearrange_edit(alloc, &mut ids, list)?;
    Ok(edit.new_root().text(alloc)?)
}
