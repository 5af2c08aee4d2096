//! Laws of removals, of the definitions alone.

ghost use Rattle.std.specs.Prelude.{ℕ, ◌≡◌, [], ◌∷◌, length, Some};
ghost use Rattle.cst_core.specs.Tree.{text};
ghost use Rattle.cst_core.specs.Element.{Element, NumbersTell};
ghost use Rattle.cst_core.specs.SyntaxElement.{element_of};
ghost use Rattle.cst_core.specs.SyntaxKind.{SyntaxKind};
ghost use Rattle.cst_core.specs.declared.element.SyntaxElement.{SyntaxElement};
ghost use Rattle.syntax_editor.specs.Plan.{Edit, Makes};
ghost use Rattle.syntax_editor.specs.RecordCall.{Deleting, refusal};
ghost use Rattle.syntax_editor.specs.EditorLaws.{target_depth};
ghost use Rattle.syntax_editor.specs.Editor.{Editor, IsEditor, Records, Takes, plan_of};
ghost use Rattle.list_removal.specs.Removal.{removed_run, removal};
ghost use Rattle.list_removal.specs.RemovalText.{text_without};

use syntax_editor::laws::edit_text_is_filled;

/// A removal is refused as the deletion of the element alone is, where equal numbers mean equal trees: as `Foreign` exactly
/// if the element is not of the editor's tree, and else as `DeletesRoot` exactly if it is the root.
pub fn removal_is_refused_as_a_deletion()
    ensures { (root : Element) (separator : SyntaxKind) (e : SyntaxElement)
        → NumbersTell (root ∷ element_of e ∷ []) → refusal root (removal separator e) ≡ refusal root (Deleting e) }
{}

/// Where nothing else was recorded, the tree that is made after a removal has the old text without the bytes from the start of
/// the first to the end of the last of the siblings that go. All other bytes stay as they are.
pub fn removal_cuts_the_text()
    ensures { (before after : Editor) (separator : SyntaxKind) (e : SyntaxElement) (number : ℕ) (edit : Edit)
        → IsEditor before → before.changes ≡ []
        → Takes before (removal separator e) → Records (removal separator e) before after
        → Makes (plan_of after) number edit
        → text edit.new_root.root
        ≡ text_without before.root.root (removed_run separator e).0 (removed_run separator e).1 }
{
    edit_text_is_filled();
}

/// A removal is a deletion at the depth of the element, so the law `calls_at_one_depth_own_nothing` takes it as such.
pub fn removal_is_at_the_depth_of_the_element()
    ensures { (separator : SyntaxKind) (e : SyntaxElement)
        → target_depth (removal separator e) ≡ Some (length (element_of e).path) }
{}
