//! Laws of recorded lists and of indented trees, of the definitions alone.

ghost use Rattle.std.specs.Prelude.{ℕ, ◌≡◌, ◌<◌, ◌+◌, List, [], ◌∷◌, ◌++◌, length, slice_get, Some, None, is_none, option_to_list, true, false, All};
ghost use Rattle.std.specs.List.{list_any};
ghost use Rattle.std.specs.Option.{option_or};
ghost use Rattle.cst_core.specs.Path.{last_item};
ghost use Rattle.cst_core.specs.Tree.{SyntaxTree};
ghost use Rattle.cst_core.specs.Element.{Address, Element};
ghost use Rattle.cst_core.specs.declared.element.SyntaxElement.{SyntaxElement};
ghost use Rattle.edit_change.specs.declared.change.Change.{Change};
ghost use Rattle.whitespace.specs.Indentation.{indented, dedented};
ghost use Rattle.whitespace.specs.Restorable.{HasRestorableTexts};
ghost use Rattle.change_list.specs.Recording.{replacements_of};
ghost use Rattle.edit_plan.specs.Fits.{Fits};
ghost use Rattle.edit_plan.specs.Nesting.{owner};
ghost use Rattle.syntax_editor.specs.RecordCall.{RecordCall, recorded, all_recorded, refusal};
ghost use Rattle.syntax_editor.specs.Editor.{Editor};
ghost use Rattle.syntax_editor.specs.Merging.{IsMerged};
ghost use Rattle.syntax_editor.specs.EditorLaws.{target_depth, all_asked_for, copy_by};

use edit_map::laws::newer_copies_stand;
use edit_plan::laws::changes_of_one_depth_own_nothing;
pub use edit_plan::laws::edit_text_is_filled;

/// Before any merge a list holds one Replace of an element at most. It is a deletion where a call deleted the element, and
/// else brings what the last call asked for.
pub fn first_replacement_absorbs()
    ensures deleted { (e : SyntaxElement) (calls : List RecordCall)
        → list_any is_none (all_asked_for e calls) ≡ true → replacements_of e (all_recorded calls) ≡ None ∷ [] }
    ensures replaced { (e : SyntaxElement) (calls : List RecordCall)
        → list_any is_none (all_asked_for e calls) ≡ false
        → replacements_of e (all_recorded calls) ≡ option_to_list (last_item (all_asked_for e calls)) }
{}

/// What a call that is not refused records fits the tree, and so does all that was recorded before.
pub fn recorded_changes_fit()
    ensures { (root : Element) (call : RecordCall) (changes : List Change)
        → refusal root call ≡ None → All (Fits root) changes → All (Fits root) (recorded call changes) }
{}

/// Calls that replace or delete elements of one depth, as the children of one node are, record a list in which no change is owned, so
/// that `edit_text_is_filled` says the new text.
pub fn calls_at_one_depth_own_nothing()
    ensures { (depth : ℕ) (calls : List RecordCall)
        → All (λ call. target_depth call ≡ Some depth) calls
        → All (λ c. owner (all_recorded calls) c ≡ None) (all_recorded calls) }
{
    changes_of_one_depth_own_nothing();
}

/// A merge appends the other's changes, and none updates another one. It does the same with
/// registrations. Where both map an element, the other's copy wins.
pub fn merge_keeps_both()
    ensures own_first { (own other new : Editor) (i : ℕ)
        → IsMerged own other new → i < length own.changes → slice_get new.changes i ≡ slice_get own.changes i }
    ensures other_after { (own other new : Editor) (i : ℕ)
        → IsMerged own other new → slice_get new.changes (length own.changes + i) ≡ slice_get other.changes i }
    ensures none_taken_up { (own other new : Editor) (e : SyntaxElement)
        → IsMerged own other new
        → replacements_of e new.changes ≡ replacements_of e own.changes ++ replacements_of e other.changes }
    ensures registrations { (own other new : Editor)
        → IsMerged own other new → new.registrations ≡ own.registrations ++ other.registrations }
    ensures copies { (own other new : Editor) (x : Address)
        → IsMerged own other new → copy_by new x ≡ option_or (copy_by other x) (copy_by own x) }
{
    newer_copies_stand();
}

/// Dedenting an indented tree by the same level restores it.
pub fn dedent_restores()
    ensures { (l : ℕ) (t : SyntaxTree) → HasRestorableTexts l t → dedented l (indented l t) ≡ t }
{}
