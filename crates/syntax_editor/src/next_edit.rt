//! The editor of what an edit made, for a further edit.

ghost use Rattle.std.specs.Prelude.{◌≡◌, IfOk};
ghost use Rattle.syntax_editor.specs.Editor.{IsEditor, editor_after};

use crate::editor::SyntaxEditor;
use edit_plan::SyntaxEdit;
use std::alloc::{AllocError, Global};

/// Edits that a further edit can follow.
pub trait NextEdit {
    ghost use Rattle.edit_plan.specs.Plan.{Edit};

    // The edit that a value is.
    ghost edit: { Self → Edit };

    /// An editor without changes of the new root, which it takes as it is: nothing is copied and no number drawn. Each annotated element is
    /// registered with its annotation, in the order of the annotations, so that the next edit finds it again.
    ///
    /// Refused for memory alone.
    fn next_editor(&self, alloc: Global) -> Result<SyntaxEditor, AllocError>
        ensures editor { IfOk result (λ e. e ≡ editor_after (edit self.now)) }
        ensures is_editor { IfOk result IsEditor };
}

impl NextEdit for SyntaxEdit {
    ghost edit = { λ e. e };

    fn next_editor(&self, alloc: Global) -> Result<SyntaxEditor, AllocError> {
        let registrations = self.registrations(alloc)?;
        let root = self.new_root().try_clone(alloc)?;
        let mut editor = SyntaxEditor::of_root(alloc, root);
        editor.registrations = registrations;
        Ok(editor)
    }
}
