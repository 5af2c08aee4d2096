//! An editor of a typed node.
ghost use Rattle.std.specs.Prelude.{◌≡◌, ◌↔◌, ◌+◌, cond, IfOk, OnOk, OnErr};
ghost use Rattle.syntax_editor.specs.Editor.{IsEditor, has_parent, edited_root, new_editor, LacksRootNumber};

use crate::ast_node_edit::view_of;
use crate::editor::SyntaxEditor;
use cst_core::{AstNode, TreeError, TreeIds};
use std::alloc::Global;

impl SyntaxEditor {
    /// An editor without changes, as `new` makes it of a typed node, and the view of the root that it edits.
    ///
    /// `NoTreeNumber` comes only for a node with a parent, before `Memory`; neither draws a number. `TooLong` does not come.
    pub fn with_ast_node<N: AstNode>(
        alloc: Global,
        ids: &mut TreeIds,
        node: &N,
    ) -> Result<(SyntaxEditor, N), TreeError>
        ensures editor { IfOk result (λ r. r.0 ≡ new_editor ids.old (N.syntax_node node.now)) }
        ensures is_editor { IfOk result (λ r. IsEditor r.0) }
        ensures root { IfOk result (λ r. N.syntax_node r.1 ≡ edited_root ids.old (N.syntax_node node.now)) }
        ensures drawn { OnOk result (ids.new ≡ cond (has_parent (N.syntax_node node.now)) (ids.old + 1) ids.old) }
        ensures fits { ¬ (result ≡ Err TreeError.TooLong) }
        ensures no_number { (result ≡ Err TreeError.NoTreeNumber) ↔ LacksRootNumber ids.old (N.syntax_node node.now) }
        ensures err { OnErr result (ids.new ≡ ids.old) }
    {
        let syntax = node.syntax();
        if !syntax.slots().is_empty() && ids.is_spent() {
            return Err(TreeError::NoTreeNumber);
        }
        let root = syntax.try_clone(alloc)?;
        let (editor, edited) = SyntaxEditor::new(alloc, ids, root)?;
        Ok((editor, view_of(edited)))
    }
}
