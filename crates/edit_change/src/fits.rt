//! What an element, a range and the root's replacement must meet to be changed.

ghost use Rattle.std.specs.Prelude.{◌≡◌, [], ◌∷◌};
ghost use Rattle.cst_core.specs.Path.{parent_path};
ghost use Rattle.edit_change.specs.Fits.{is_root, have_one_path, are_siblings, is_range, is_one_node};

use cst_core::SyntaxElement;

/// Whether an element is the root of its tree.
pub fn is_root(element: &SyntaxElement) -> bool
    ensures { result ≡ is_root element.now }
{
    element.slots().is_empty()
}

/// Whether two elements of one tree stand at one path.
pub(crate) fn have_one_path(first: &SyntaxElement, last: &SyntaxElement) -> bool
    ensures { result ≡ have_one_path first.now last.now }
{
    first.slots() == last.slots()
}

// The path of the parent; the empty path at the top.
pub(crate) fn parent(path: &[usize]) -> &[usize]
    ensures { result.now ≡ parent_path path.now }
{
    match path.split_last() {
        Some((_, parent)) => parent,
        None => path,
    }
}

fn are_siblings(first: &SyntaxElement, last: &SyntaxElement) -> bool
    ensures { result ≡ are_siblings first.now last.now }
{
    if is_root(first) {
        return false;
    }
    if is_root(last) {
        return false;
    }
    parent(first.slots()) == parent(last.slots())
}

/// Whether two elements are the ends of a range: one element, or siblings and the last not before the first.
pub fn is_range(first: &SyntaxElement, last: &SyntaxElement) -> bool
    ensures { result ≡ is_range first.now last.now }
{
    if have_one_path(first, last) {
        return true;
    }
    if !are_siblings(first, last) {
        return false;
    }
    first.index() <= last.index()
}

/// Whether the elements are one node, as can stand for a root.
pub fn is_one_node(elements: &[SyntaxElement]) -> bool
    ensures { result ≡ is_one_node elements.now }
{
    match elements {
        [SyntaxElement::Node(_)] => true,
        [SyntaxElement::Token(_)] => false,
        _ => false,
    }
}

/// Whether an element is a node, as can stand for a root.
pub fn is_node(element: &SyntaxElement) -> bool
    ensures { result ≡ is_one_node (element.now ∷ []) }
{
    match element {
        SyntaxElement::Node(_) => true,
        SyntaxElement::Token(_) => false,
    }
}
