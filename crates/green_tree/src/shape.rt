//! Whether two trees have the same kinds, down to the tokens.

ghost use Rattle.std.specs.Prelude.{◌↔◌, IsTrue};
ghost use Rattle.green_tree.specs.Tree.{SameShape};
ghost use Rattle.green_tree.specs.Green.{branch_tree};
ghost use Rattle.green_tree.specs.GreenElement.{element_trees};
ghost use Rattle.green_tree.specs.inner.SameShapes.{SameShapes};

use crate::green::{GreenElement, GreenNode, heaviest_child};

/// Whether two nodes have the same kinds and child lists, whatever their tokens' texts.
#[cycle(have_same_shape)]
pub fn have_same_shape(a: &GreenNode, b: &GreenNode) -> bool
    ensures { IsTrue result ↔ SameShape (branch_tree a.now) (branch_tree b.now) }
{
    let (mut x, mut y) = (a, b);
    loop {
        let (left, right) = (x.children(), y.children());
        if x.kind() != y.kind() {
            return false;
        }
        if left.len() != right.len() {
            return false;
        }
        let Some(slot) = heaviest_child(x) else {
            return have_same_shapes(left, right);
        };
        if !have_same_shapes(&left[..slot], &right[..slot]) {
            return false;
        }
        let next = slot + 1;
        if !have_same_shapes(&left[next..], &right[next..]) {
            return false;
        }
        let (GreenElement::Node(below_x), GreenElement::Node(below_y)) = (&left[slot], &right[slot])
        else {
            return have_same_shapes(&left[slot..next], &right[slot..next]);
        };
        (x, y) = (below_x, below_y);
    }
}

// The same of lists of elements, slot by slot.
#[cycle(have_same_shape)]
fn have_same_shapes(left: &[GreenElement], right: &[GreenElement]) -> bool
    ensures { IsTrue result ↔ SameShapes (element_trees left.now) (element_trees right.now) }
{
    if left.len() != right.len() {
        return false;
    }
    for i in 0..left.len() {
        let same = match (&left[i], &right[i]) {
            (GreenElement::Node(x), GreenElement::Node(y)) => have_same_shape(x, y),
            (GreenElement::Token(x), GreenElement::Token(y)) => x.kind() == y.kind(),
            _ => false,
        };
        if !same {
            return false;
        }
    }
    true
}
