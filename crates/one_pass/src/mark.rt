//! `Mark` and `Sought`: where a registered element is in the new tree and in the old one. `Walk`: what a walk finds of them.

ghost use Rattle.std.specs.Prelude.{◌≡◌, ◌≤◌, ◌++◌, ◌∷◌, [], suc, map, take, drop, length, IfOk, OnOk};
ghost use Rattle.green_tree.specs.GreenElement.{element_tree};
ghost use Rattle.one_pass.specs.inner.Lists.{AreEmpty};
ghost use Rattle.one_pass.specs.inner.Marked.{marks_of, marks_seen, mark_below, is_before_child, kept_in, InPathOrder, BeforeChild, FromChild, Finds};
ghost use Rattle.one_pass.specs.inner.Marks.{ArePathsOf};

use green_tree::GreenElement;
use std::alloc::{AllocError, Global};

/// A mark by its number, and the path of an element that has it.
#[derive(Drop)]
pub struct Mark {
    pub number: usize,
    pub path: Vec<usize>,
}

/// A mark by its number, and the path of the element of the old tree that has it. Paths are borrowed.
#[derive(Clone, Copy)]
pub struct Sought<'a> {
    pub number: usize,
    pub path: &'a [usize],
}

/// A path as it is seen from a node so many slots down.
pub fn path_from(path: &[usize], depth: usize) -> &[usize]
    ensures { result.now ≡ drop depth path.now }
{
    match path.get(depth..) {
        Some(path) => path,
        None => &[],
    }
}

/// What a walk has come to so far. After a refusal the path may be longer, and some marks may have been found.
#[derive(Drop)]
pub struct Walk {
    /// The marks found, in document order, with paths in the new tree.
    pub found: Vec<Mark>,
    /// The path, in the new tree, of what is made next, or of the node that it is pushed into.
    pub path: Vec<usize>,
    /// How many nodes are built. At its greatest number it stays.
    pub builds: u64,
}

impl Walk {
    /// A walk that has found nothing yet, where this many nodes are built.
    pub fn begin(alloc: Global, builds: u64) -> Walk
        ensures found { result.found.items ≡ [] }
        ensures path { result.path.items ≡ [] }
        ensures builds { result.builds ≡ builds }
    {
        Walk {
            found: Vec::new(alloc),
            path: Vec::new(alloc),
            builds,
        }
    }
}

/// How many of these marks, which are in document order, are sought at the node at a depth, or in a child of it before a slot.
pub fn marks_before(sought: &[Sought], depth: usize, slot: usize) -> usize
    requires { InPathOrder (marks_seen depth sought.now) }
    ensures within { result ≤ length sought.now }
    ensures before { BeforeChild slot (marks_seen depth (take result sought.now)) }
    ensures behind { FromChild slot (marks_seen depth (drop result sought.now)) }
{
    let is_before = |mark: &Sought<'_>|
        ensures { result ≡ is_before_child slot (drop depth mark.now.path.now) }
    {
        match path_from(mark.path, depth) {
            [first, ..] => *first < slot,
            [] => true,
        }
    };
    sought.partition_point(is_before)
}

/// A mark of an element whose path goes on from another one.
pub fn push_mark(
    alloc: Global,
    found: &mut Vec<Mark>,
    number: usize,
    above: &[usize],
    below: &[usize],
) -> Result<(), AllocError>
    ensures { OnOk result (Finds found.old found.new ((number, above.now ++ below.now) ∷ [])) }
{
    let mut path = Vec::with_capacity(alloc, above.len() + below.len())?;
    path.extend_from_slice(above)?;
    path.extend_from_slice(below)?;
    found.push(Mark { number, path })?;
    Ok(())
}

/// The marks sought in an element in which nothing is changed, which is made at a path: those whose paths lead somewhere. They
/// are seen from the element, so many slots down their paths.
pub fn push_kept(
    alloc: Global,
    found: &mut Vec<Mark>,
    path: &[usize],
    element: &GreenElement,
    depth: usize,
    sought: &[Sought],
) -> Result<(), AllocError>
    ensures { OnOk result (Finds found.old found.new
        (map (mark_below path.now) (kept_in (element_tree element.now) (marks_seen depth sought.now)))) }
{
    for mark in sought {
        let below = path_from(mark.path, depth);
        let leads = match element {
            GreenElement::Node(node) => node.get(below).is_some(),
            GreenElement::Token(_) => below.is_empty(),
        };
        if leads {
            push_mark(alloc, found, mark.number, path, below)?;
        }
    }
    Ok(())
}

/// n empty lists.
pub fn empty_lists<T: Drop>(alloc: Global, count: usize) -> Result<Vec<Vec<T>>, AllocError>
    ensures size { IfOk result (λ v. length v.items ≡ count) }
    ensures empty { IfOk result (λ v. AreEmpty v.items) }
{
    let mut lists = Vec::with_capacity(alloc, count)?;
    for _ in 0..count {
        lists.push(Vec::new(alloc))?;
    }
    Ok(lists)
}

/// The paths of the marks of each number below this one.
pub(crate) fn mark_paths(
    alloc: Global,
    marks: Vec<Mark>,
    count: usize,
) -> Result<Vec<Vec<Vec<usize>>>, AllocError>
    ensures size { IfOk result (λ v. length v.items ≡ count) }
    ensures lists { IfOk result (λ v. ArePathsOf (marks_of marks.items) count v.items) }
{
    let mut lists = empty_lists(alloc, count)?;
    for mark in marks {
        let Mark { number, path } = mark;
        if number < lists.len() {
            lists[number].push(path)?;
        }
    }
    Ok(lists)
}
