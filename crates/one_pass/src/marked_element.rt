//! `MarkedElement`: an element that a change gives, with its marks; `GivenTable`: what all changes give.

ghost use Rattle.std.specs.Prelude.{◌≡◌, OnOk};
ghost use Rattle.one_pass.specs.inner.Marked.{Finds};
ghost use Rattle.one_pass.specs.inner.Pass.{given_in, marks_at_path, Puts, FindsChange};

use crate::mark::{Mark, Walk, push_mark};
use green_tree::GreenElement;
use std::alloc::{AllocError, Global};

/// An element that a change gives, and the marks of it.
#[derive(Drop)]
pub struct MarkedElement {
    pub element: GreenElement,
    /// Its marks in document order, with paths that are counted from it.
    pub marks: Vec<Mark>,
}

/// What changes give, by their numbers.
#[derive(Drop)]
pub struct GivenTable {
    /// For each change, the elements that it gives, in order.
    pub entries: Vec<Vec<MarkedElement>>,
    /// A mark that each given element has at its top, before its others.
    pub top: Option<usize>,
}

impl MarkedElement {
    // The marks of the element, which stands at this path, with that of its top.
    pub(crate) fn push_marks(
        &self,
        alloc: Global,
        found: &mut Vec<Mark>,
        path: &[usize],
        top: Option<usize>,
    ) -> Result<(), AllocError>
        ensures { OnOk result (Finds found.old found.new (marks_at_path path.now top self.now)) }
    {
        if let Some(number) = top {
            push_mark(alloc, found, number, path, &[])?;
        }
        for mark in &self.marks {
            push_mark(alloc, found, mark.number, path, &mark.path)?;
        }
        Ok(())
    }
}

/// What a change gives, by its number, goes after the children that the node at the walk's path has so far, with its marks.
pub fn push_change(
    alloc: Global,
    walk: &mut Walk,
    out: &mut Vec<GreenElement>,
    given: &GivenTable,
    change: usize,
) -> Result<(), AllocError>
    ensures path { OnOk result (walk.new.path.items ≡ walk.old.path.items) }
    ensures count { OnOk result (walk.new.builds ≡ walk.old.builds) }
    ensures trees { OnOk result (Puts out.old out.new (given_in given.now change)) }
    ensures marks { OnOk result (FindsChange walk.old out.old walk.new given.now change) }
{
    let Some(entry) = given.entries.get(change) else {
        return Ok(());
    };
    for one in entry {
        walk.path.push(out.len())?;
        one.push_marks(alloc, &mut walk.found, &walk.path, given.top)?;
        walk.path.pop();
        out.push(one.element.share(alloc)?)?;
    }
    Ok(())
}
