//! Laws of element values, of the definitions alone, and those of the kinds.

ghost use Rattle.std.specs.Prelude.{◌≡◌, ◌+◌, ◌<◌, ◌≤◌, length, Some, All};
ghost use Rattle.green_tree.specs.Tree.{paths, text_length};
ghost use Rattle.cst_core.specs.Element.{Element, IsElement, subtree, parent_of};
ghost use Rattle.cst_core.specs.SyntaxElement.{element_of, child_elements, child_nodes};
ghost use Rattle.cst_core.specs.AtOffset.{end_of};

pub use green_tree::laws::{constants_have_their_names, names_stand_at_their_numbers};

/// Each child is one level below its node: its path has one slot more. A loop that goes from parent to parent ends by this.
pub fn children_are_one_level_below()
    ensures elements { (e : Element) → All (λ c. length (element_of c).path ≡ length e.path + 1) (child_elements e) }
    ensures nodes { (e : Element) → All (λ n. length n.path ≡ length e.path + 1) (child_nodes e) }
    ensures parent { (e parent : Element) → parent_of e ≡ Some parent → length e.path ≡ length parent.path + 1 }
{}

/// Fewer elements are at or below a child than at or below its node. A function that calls itself for each child ends by this.
pub fn children_are_smaller()
    ensures elements { (e : Element)
        → All (λ c. length (paths (subtree (element_of c))) < length (paths (subtree e))) (child_elements e) }
    ensures nodes { (e : Element)
        → All (λ n. length (paths (subtree n)) < length (paths (subtree e))) (child_nodes e) }
{}

/// The text of an element ends within the text of its tree, so the start and the length of an element can be added.
pub fn texts_end_within_their_tree()
    ensures { (e : Element) → IsElement e → end_of e ≤ text_length e.root }
{}
