//! Laws of changes, of their places and of the tree that they make, of the definitions alone.

ghost use Rattle.std.specs.Prelude.{ℕ, ◌≡◌, ◌↔◌, List, [], ◌∷◌, ◌++◌, length, map, flat_map, slice_get, slice_range, nat_lt, Option, None, Some, true, false, All, IsTrue, IsSomeAnd};
ghost use Rattle.cst_core.specs.Path.{Path};
ghost use Rattle.cst_core.specs.Tree.{SyntaxTree, text};
ghost use Rattle.cst_core.specs.Element.{Address, Element, subtree, IsElement, NumbersTell};
ghost use Rattle.cst_core.specs.SyntaxElement.{element_of, syntax_at};
ghost use Rattle.cst_core.specs.declared.element.SyntaxElement.{SyntaxElement};
ghost use Rattle.edit_change.specs.declared.change.Change.{Change};
ghost use Rattle.edit_change.specs.declared.change.Change.TheVariants.{Replace};
ghost use Rattle.edit_map.specs.Mapping.{Mapping, mapped_elements};
ghost use Rattle.edit_map.specs.Builder.{ArePairs};
ghost use Rattle.edit_change.specs.Change.{shared_targets};
ghost use Rattle.edit_change.specs.Aim.{aims_at_gap, same_gap};
ghost use Rattle.edit_change.specs.ChangeAim.{aim};
ghost use Rattle.edit_change.specs.Nesting.{owner, region};
ghost use Rattle.edit_change.specs.Rewriting.{NumberedAim, gap, rewritten};
ghost use Rattle.edit_change.specs.NewTree.{Origin, OriginTree, origin, plain, payload_of, is_free, given, Gives, new_tree, stage_tree};
ghost use Rattle.edit_plan.specs.Plan.{Plan, Edit, IsPlan, Makes, found_for, registered_elements, with_changes};
ghost use Rattle.edit_change.specs.Results.{changed};
ghost use Rattle.edit_change.specs.Places.{HasPlace, elements_held};
ghost use Rattle.edit_steps.specs.Schedule.{IsAllowed, index_in, is_ready};
ghost use Rattle.edit_change.specs.RewritingLaws.{StandsThere, IsUntouched, is_at_depth, changed_text};
ghost use Rattle.edit_plan.specs.Plan.{with_changes};
ghost use Rattle.text_edit.specs.TextPiece.{as_piece, AreApart, applied};
ghost use Rattle.text_edit.specs.OrderRefusal.{piece_at};
ghost use Rattle.text_edit.specs.declared.cursor.Cursor.{Cursor};
ghost use Rattle.text_edit.specs.declared.text_edit.TextEdit.{TextEdit};
ghost use Rattle.edit_plan.specs.PlanTextEdits.{AreTextEdits};
ghost use Rattle.edit_plan.specs.ElementCursor.{element_cursor};

use edit_map::laws::{pairs_rise, place_is_unique, place_keeps_the_shape};

/// Without a change the new tree is the old one, and nothing in it is changed.
pub fn no_change_makes_no_difference()
    ensures tree { (places : ℕ → Path) (root : Element) → map plain (new_tree [] places root) ≡ subtree root ∷ [] }
    ensures changed { (places : ℕ → Path) (root : Element)
        → flat_map (changed (is_free [])) (new_tree [] places root) ≡ [] }
{}

/// Where no change aims at or below a path, what is there stays as it was.
pub fn untouched_stays()
    ensures { (from : Address) (change : Option ℕ) (given : ℕ → List OriginTree) (cs : List NumberedAim)
        (p : Path) (t : SyntaxTree) → IsUntouched cs p → plain (rewritten (origin from change) given cs p t) ≡ t }
{}

/// Where equal numbers mean equal trees, a change has a place in its owner's payload exactly where something stands for the
/// owner's target. The exception is an insert after the target itself, which has none at the empty path. It is enough that
/// equal numbers mean equal trees among all elements of a plan.
pub fn place_stands_for_the_target()
    ensures at_a_path { (m : Mapping) (target payload : SyntaxElement) (c : Change) (p : Path)
        → ArePairs m → IsElement (element_of target)
        → NumbersTell (element_of payload ∷ element_of target ∷ mapped_elements m)
        → HasPlace m (Replace target (Some payload)) c p ↔ StandsThere m target payload c p }
    ensures at_some_path { (m : Mapping) (target payload : SyntaxElement) (c : Change)
        → ArePairs m → IsElement (element_of target)
        → NumbersTell (element_of payload ∷ element_of target ∷ mapped_elements m)
        → ((p : Path) × HasPlace m (Replace target (Some payload)) c p)
        ↔ ((p : Path) × StandsThere m target payload c p) }
    ensures in_a_plan { (root : Element) (changes : List Change) (registrations : List (Element × ℕ)) (m : Mapping)
        → ArePairs m → NumbersTell (elements_held root changes registrations m)
        → (owner : ℕ) (target payload : SyntaxElement)
        → slice_get changes owner ≡ Some (Replace target (Some payload)) → IsElement (element_of target)
        → (c : Change) (p : Path) → HasPlace m (Replace target (Some payload)) c p ↔ StandsThere m target payload c p }
{
    place_keeps_the_shape();
}

/// What a change gives is its payload, rewritten by what the changes that it owns give, and nothing else meets this.
pub fn given_is_settled()
    ensures gives { (changes : List Change) (places : ℕ → Path) → Gives changes places (given changes places) }
    ensures only { (changes : List Change) (places : ℕ → Path) (g : ℕ → List OriginTree)
        → Gives changes places g → (c : ℕ) → g c ≡ given changes places c }
{}

/// At one gap, what is recorded first comes first, whatever else is in the list, and the elements of one change keep their order.
pub fn inserts_stand_in_order()
    ensures first_first { (label_at : Path → ℕ → Origin) (given : ℕ → List OriginTree) (cs : List NumberedAim)
        (c : NumberedAim) (p : Path) (i : ℕ) → IsTrue (aims_at_gap p i c.1)
        → gap label_at given (c ∷ cs) p i ≡ given c.0 ++ gap label_at given cs p i }
    ensures of_two { (label_at : Path → ℕ → Origin) (given : ℕ → List OriginTree)
        (before between after : List NumberedAim) (c d : NumberedAim) (p : Path) (i : ℕ)
        → IsTrue (aims_at_gap p i c.1) → IsTrue (aims_at_gap p i d.1)
        → gap label_at given (before ++ c ∷ between ++ d ∷ after) p i
        ≡ gap label_at given before p i ++ given c.0 ++ gap label_at given between p i ++ given d.0
        ++ gap label_at given after p i }
    ensures in_order { (changes : List Change) (places : ℕ → Path) (c : ℕ)
        → IsSomeAnd (slice_get changes c) (λ change. region change ≡ [])
        → map plain (given changes places c) ≡ map subtree (payload_of changes c) }
{}

/// Where no change is owned, the new text is the old one, in which the gaps and the replaced ranges of the changes that
/// are not dropped give the texts of the payloads of these.
pub fn text_is_filled()
    ensures { (changes : List Change) (places : ℕ → Path) (root : Element)
        → All (λ c. owner changes c ≡ None) changes
        → flat_map text (new_tree changes places root) ≡ changed_text changes (subtree root) }
{}

/// The same of the edit that a plan makes.
pub fn edit_text_is_filled()
    ensures { (plan : Plan) (number : ℕ) (edit : Edit)
        → Makes plan number edit → All (λ c. owner plan.changes c ≡ None) plan.changes
        → text edit.new_root.root ≡ changed_text plan.changes (subtree plan.root) }
{}

/// The text edits of a plan are in order and apart, and end within the old text. Applied to it, they make the new text of each edit that the
/// plan makes.
pub fn text_edits_make_the_new_text()
    ensures apart { (plan : Plan) (edits : List TextEdit) → IsPlan plan → AreTextEdits plan edits
        → AreApart 0 (map as_piece edits) (length (text (subtree plan.root))) }
    ensures makes { (plan : Plan) (number : ℕ) (edit : Edit) (edits : List TextEdit)
        → IsPlan plan → Makes plan number edit → AreTextEdits plan edits
        → applied (map as_piece edits) (text (subtree plan.root)) ≡ text edit.new_root.root }
{}

/// Where the text of one of a plan's text edits has an element of the new tree, by its cursor, it has the text of that element.
pub fn cursors_show_their_elements()
    ensures { (plan : Plan) (number : ℕ) (edit : Edit) (edits : List TextEdit)
        (p : Path) (x : SyntaxElement) (c : Cursor)
        → IsPlan plan → Makes plan number edit → AreTextEdits plan edits → syntax_at edit.new_root p ≡ Some x
        → (element_cursor (map as_piece edits) x).in_edit ≡ Some c
        → slice_range (piece_at (map as_piece edits) c.edit).text c.start c.end ≡ text (subtree (element_of x)) }
{
    text_edits_make_the_new_text();
}

/// No change is owned where each one is at the same depth, as those of the children of one node are: what is around it is
/// above this depth, and what it replaces is not. An insert after a child is one level deeper.
pub fn changes_of_one_depth_own_nothing()
    ensures { (depth : ℕ) (changes : List Change)
        → All (λ c. is_at_depth depth c ≡ true) changes → All (λ c. owner changes c ≡ None) changes }
{}

/// In an allowed order each change can be the next once those before it are done, and where all are done, the tree is the
/// new one, whichever allowed order it was.
pub fn allowed_orders_agree()
    ensures next { (changes : List Change) (order : List ℕ) (i n : ℕ) (c : Change)
        → IsAllowed changes order → slice_get order i ≡ Some n → slice_get changes n ≡ Some c
        → is_ready changes (λ m. nat_lt (index_in order m) i) (n, c) ≡ true }
    ensures tree { (changes : List Change) (places : ℕ → Path) (root : Element) (order : List ℕ)
        → IsAllowed changes order
        → stage_tree changes places (λ m. nat_lt (index_in order m) (length order)) root
        ≡ new_tree changes places root }
{}

/// Swapping two neighbours that aim at different gaps and share no target changes nothing of the edit that a plan makes.
pub fn neighbours_swap()
    ensures { (before : List Change) (c d : Change) (rest : List Change)
        → same_gap (aim c) (aim d) ≡ false → shared_targets c d ≡ false
        → (plan : Plan) (number : ℕ) (edit : Edit)
        → Makes (with_changes plan (before ++ c ∷ d ∷ rest)) number edit
        → Makes (with_changes plan (before ++ d ∷ c ∷ rest)) number edit }
{}

/// A plan makes one tree. Any two edits that it makes under one tree number have the same new root and the same changed
/// elements, and where equal numbers mean equal trees, the same elements for each annotation.
pub fn one_plan_makes_one_tree()
    ensures root { (plan : Plan) (number : ℕ) (e f : Edit)
        → IsPlan plan → Makes plan number e → Makes plan number f → e.new_root ≡ f.new_root }
    ensures changed { (plan : Plan) (number : ℕ) (e f : Edit)
        → IsPlan plan → Makes plan number e → Makes plan number f → e.changed ≡ f.changed }
    ensures annotated { (plan : Plan) (number : ℕ) (e f : Edit)
        → IsPlan plan → Makes plan number e → Makes plan number f
        → NumbersTell (elements_held plan.root plan.changes (registered_elements plan.registrations) plan.mapping)
        → (annotation : ℕ) → found_for e.annotated annotation ≡ found_for f.annotated annotation }
{
    place_is_unique();
    pairs_rise();
}
