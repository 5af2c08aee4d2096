//! `ElementCursor`: where an annotated element stands in the new text, and in the text of one edit.

ghost use Rattle.std.specs.Prelude.{◌≡◌, map, IfOk};
ghost use Rattle.edit_plan.specs.Plan.{found_for};
ghost use Rattle.edit_plan.specs.ElementCursor.{element_cursor};

use crate::annotation::SyntaxAnnotation;
use crate::edit::SyntaxEdit;
use cst_core::SyntaxElement;
use std::alloc::{AllocError, Global};
use text_edit::{Cursor, TextEdits};

/// Where an element of a new tree stands in the new text, and in the text of one edit.
#[derive(Clone, Copy, Debug, PartialEq, Eq)]
pub struct ElementCursor {
    /// Where the element starts, in bytes from the start of the new text.
    pub start: u64,
    /// Where it ends: the offset of the first byte after it.
    pub end: u64,
    /// The edit whose text holds all of it, and where; none where there is no such edit.
    pub in_edit: Option<Cursor>,
}

fn cursor_of(edits: &TextEdits, element: &SyntaxElement) -> ElementCursor
    ensures { result ≡ element_cursor edits.now element.now }
{
    let start = element.text_start();
    let end = element.text_end();
    ElementCursor {
        start,
        end,
        in_edit: edits.cursor(start, end),
    }
}

impl SyntaxEdit {
    /// Where each element that `find_annotation` finds stands in the new text, in the same order, and where in the text of one of
    /// these edits, which are those of the plan (`EditPlan::text_edits`). So a snippet has a placeholder there, or a text editor a
    /// cursor.
    ///
    /// An element that is only partly new, or that two edits bring, is in no edit's text (`TextEdits::cursor`). Takes time linear in
    /// the edits for each element.
    pub fn find_cursors(
        &self,
        alloc: Global,
        annotation: SyntaxAnnotation,
        edits: &TextEdits,
    ) -> Result<Vec<ElementCursor>, AllocError>
        ensures { IfOk result
            (λ v. v.items ≡ map (element_cursor edits.now) (found_for self.now.annotated annotation)) }
    {
        let elements = self.find_annotation(annotation);
        let mut cursors = Vec::with_capacity(alloc, elements.len())?;
        for element in elements {
            cursors.push(cursor_of(edits, element))?;
        }
        Ok(cursors)
    }
}
