//! Registered elements in document order, and those at an element or below it.

ghost use Rattle.std.specs.Prelude.{◌≡◌, map, IfOk};
ghost use Rattle.std.specs.Cmp.Lexicographic.{slice_cmp};
ghost use Rattle.std.specs.Ordering.{nat_cmp};
ghost use Rattle.std.specs.List.{enumerate_from};
ghost use Rattle.cst_core.specs.Element.{address};
ghost use Rattle.cst_core.specs.SyntaxElement.{element_of};
ghost use Rattle.one_pass.specs.inner.Marked.{marks_seen};
ghost use Rattle.one_pass.specs.inner.Sought.{place_of, as_registered, addresses, sought_at};
ghost use Rattle.one_pass.specs.inner.Sought.{AreInOrder, IsTableOf};

use crate::mark::{Sought, path_from};
use cst_core::SyntaxElement;
use std::alloc::{AllocError, Global};
use std::cmp::Ordering;

/// A registered element by the number of its tree, and the mark of it, which has its path there.
#[derive(Clone, Copy)]
pub struct Registered<'a> {
    pub tree: u64,
    pub mark: Sought<'a>,
}

impl<'a> Registered<'a> {
    // An element by this number.
    fn of(element: &'a SyntaxElement, number: usize) -> Registered<'a>
        ensures { as_registered result ≡ (number, address (element_of element.now)) }
    {
        let path = element.slots();
        Registered {
            tree: element.tree(),
            mark: Sought { number, path },
        }
    }

    // Trees by their numbers, and the elements of one tree in document order.
    fn compare(&self, other: &Registered<'_>) -> Ordering
        ensures { result ≡ slice_cmp nat_cmp (place_of self.now) (place_of other.now) }
    {
        self.tree
            .cmp(&other.tree)
            .then(self.mark.path.cmp(other.mark.path))
    }
}

/// These elements by their numbers, tree by tree, in document order, and those of one address as they were registered.
pub fn in_document_order<'a>(
    alloc: Global,
    elements: &'a [SyntaxElement],
) -> Result<Vec<Registered<'a>>, AllocError>
    ensures order { IfOk result (λ v. AreInOrder v.items) }
    ensures all { IfOk result (λ v. IsTableOf (addresses elements.now) v.items) }
{
    let mut registered = Vec::with_capacity(alloc, elements.len())?;
    for number in 0..elements.len() {
        registered.push(Registered::of(&elements[number], number))?;
    }
    registered.sort_by(Registered::compare)?;
    Ok(registered)
}

/// The marks of those at an element or below it, with the paths from there. They come one after another, since all are in document
/// order.
pub fn sought_at<'a>(
    alloc: Global,
    registered: &[Registered<'a>],
    element: &SyntaxElement,
) -> Result<Vec<Sought<'a>>, AllocError>
    requires { AreInOrder registered.now }
    ensures { IfOk result
        (λ v. marks_seen 0 v.items ≡ sought_at registered.now (address (element_of element.now))) }
{
    let top = Registered::of(element, 0);
    let start = registered.partition_point(|one| one.compare(&top).is_lt());
    let rest = &registered[start..];
    let end = rest.partition_point(|one| {
        one.tree == top.tree && one.mark.path.starts_with(top.mark.path)
    });
    let here = &rest[..end];
    let depth = top.mark.path.len();
    let mut sought = Vec::with_capacity(alloc, here.len())?;
    for one in here {
        sought.push(Sought {
            number: one.mark.number,
            path: path_from(one.mark.path, depth),
        })?;
    }
    Ok(sought)
}
