//! What changes do to the text of a tree.

ghost use Rattle.std.specs.Prelude.{◌≡◌, ◌++◌, ◌∷◌, [], map, flat_map, length, All, None, IfOk, IfSome, OnOk, string_bytes, ◌<◌};
ghost use Rattle.cst_core.specs.Tree.{text};
ghost use Rattle.cst_core.specs.Path.{parent_path, siblings};
ghost use Rattle.cst_core.specs.Green.{length_limit};
ghost use Rattle.cst_core.specs.Element.{IsNode, element_at, subtree};
ghost use Rattle.cst_core.specs.SyntaxElement.{element_of};
ghost use Rattle.edit_change.specs.Fits.{Fits};
ghost use Rattle.edit_change.specs.Nesting.{first_clash};
ghost use Rattle.edit_change.specs.inner.Aimed.{aims_of};
ghost use Rattle.edit_change.specs.inner.Fate.{fate};
ghost use Rattle.edit_change.specs.inner.DocumentOrder.{IsDocumentOrder};
ghost use Rattle.text_edit.specs.TextPiece.{as_piece};
ghost use Rattle.one_pass.specs.TextEdits.{offset, old_text};
ghost use Rattle.one_pass.specs.inner.Pass.{given_in};
ghost use Rattle.one_pass.specs.inner.Root.{IsAlone};
ghost use Rattle.one_pass.specs.inner.TextOrder.{pieces_by, PushesPiece, AreMarkedByNumber, in_order_of, AreEditsOf};

use crate::dependent::{ByOwner, by_owner};
use crate::given_table::given_table;
use crate::mark::{Mark, Walk};
use crate::marked_element::{GivenTable, MarkedElement};
use crate::rewriting::{rewritten_root, root_replacement};
use cst_core::{GreenElement, GreenNode, SyntaxElement, SyntaxNode};
use edit_change::{Aimed, Change, Planned, aim_path, slot_after};
use std::alloc::{AllocError, Global};
use text_edit::TextEdit;

// The text of the element that a path of the whole tree leads to; nothing where it leads nowhere.
fn text_at_path(alloc: Global, root: &SyntaxNode, path: Vec<usize>) -> Result<String, AllocError>
    ensures { IfOk result
        (λ s. string_bytes s ≡ text (subtree (element_at root.now path.items))) }
{
    let Some(element) = root.element_of_tree(alloc, path)? else {
        return Ok(String::new(alloc));
    };
    element.text(alloc)
}

// The text of the element at the path of this one.
fn text_at(alloc: Global, root: &SyntaxNode, target: &SyntaxElement) -> Result<String, AllocError>
    ensures { IfOk result
        (λ s. string_bytes s ≡ text (subtree (element_at root.now (element_of target.now).path))) }
{
    let path = Vec::from_slice(alloc, target.slots())?;
    text_at_path(alloc, root, path)
}

fn parent(path: &[usize]) -> &[usize]
    ensures { result.now ≡ parent_path path.now }
{
    match path.split_last() {
        Some((_, parent)) => parent,
        None => path,
    }
}

// The path of the sibling in a slot.
fn sibling(alloc: Global, path: &[usize], slot: usize) -> Result<Vec<usize>, AllocError>
    ensures { IfOk result (λ v. v.items ≡ parent_path path.now ++ slot ∷ []) }
{
    let mut out = Vec::from_slice(alloc, parent(path))?;
    out.push(slot)?;
    Ok(out)
}

// The texts of the siblings from the first to the last.
fn range_text(
    alloc: Global,
    root: &SyntaxNode,
    first: &SyntaxElement,
    last: &SyntaxElement,
) -> Result<String, AllocError>
    ensures { IfOk result (λ s. string_bytes s
        ≡ flat_map (λ p. text (subtree (element_at root.now p)))
        (siblings (element_of first.now).path (element_of last.now).path)) }
{
    let mut out = String::new(alloc);
    for slot in first.index()..slot_after(last) {
        let text = text_at_path(alloc, root, sibling(alloc, first.slots(), slot)?)?;
        out.push_str(&text)?;
    }
    Ok(out)
}

// What a change takes away.
fn old_text(alloc: Global, root: &SyntaxNode, change: &Change) -> Result<String, AllocError>
    ensures { IfOk result (λ s. string_bytes s ≡ old_text root.now change.now) }
{
    match change {
        Change::Insert(_, _) => Ok(String::new(alloc)),
        Change::InsertAll(_, _) => Ok(String::new(alloc)),
        Change::Replace(target, _) => text_at(alloc, root, target),
        Change::ReplaceWithMany(target, _) => text_at(alloc, root, target),
        Change::ReplaceAll(first, last, _) => range_text(alloc, root, first, last),
    }
}

// Where what a change takes away starts, or where it inserts.
fn offset(alloc: Global, root: &SyntaxNode, change: &Change) -> Result<u64, AllocError>
    requires { Fits root.now change.now }
    ensures is { IfOk result (λ n. n ≡ offset root.now change.now) }
    ensures small { IfOk result (λ n. n < length_limit) }
{
    let path = aim_path(change);
    let Some(element) = root.element_of_tree(alloc, Vec::from_slice(alloc, path)?)? else {
        unreachable!()
    };
    let end = element.text_end();
    if change.is_after(path) {
        return Ok(end);
    }
    // It is no greater than the end.
    Ok(element.text_start())
}

// The texts of what a change gives.
fn given_text(alloc: Global, given: &GivenTable, change: usize) -> Result<String, AllocError>
    ensures { IfOk result (λ s. string_bytes s ≡ flat_map text (given_in given.now change)) }
{
    let mut out = String::new(alloc);
    let Some(entry) = given.entries.get(change) else {
        return Ok(out);
    };
    for one in entry {
        let text = one.element.to_string(alloc)?;
        out.push_str(&text)?;
    }
    Ok(out)
}

// What a change does to the text, if it alters it.
fn push_edit(
    alloc: Global,
    edits: &mut Vec<TextEdit>,
    root: &SyntaxNode,
    changes: &[Change],
    given: &GivenTable,
    number: usize,
) -> Result<(), AllocError>
    requires { All (Fits root.now) changes.now }
    ensures { OnOk result (PushesPiece root.now changes.now given.now number edits.old edits.new) }
{
    let Some(change) = changes.get(number) else {
        return Ok(());
    };
    let text = given_text(alloc, given, number)?;
    let old = old_text(alloc, root, change)?;
    if old == text {
        return Ok(());
    }
    let start = offset(alloc, root, change)?;
    let end = start + old.len() as u64;
    edits.push(TextEdit { start, end, text })?;
    Ok(())
}

// A table in which each change gives one element, marked by the change's number.
fn numbered_table(
    alloc: Global,
    root: &GreenNode,
    changes: &[Change],
) -> Result<GivenTable, AllocError>
    ensures { IfOk result (AreMarkedByNumber changes.now) }
{
    let mut entries = Vec::with_capacity(alloc, changes.len())?;
    for number in 0..changes.len() {
        let mark = Mark {
            number,
            path: Vec::new(alloc),
        };
        let one = MarkedElement {
            element: GreenElement::Node(root.share(alloc)?),
            marks: vec![in alloc; mark]?,
        };
        entries.push(vec![in alloc; one]?)?;
    }
    Ok(GivenTable { entries, top: None })
}

// A mark for each change of these aims, from left to right, with the change's number; this change replaces the root.
fn in_text_order(
    alloc: Global,
    root: &SyntaxNode,
    changes: &[Change],
    aims: &[Aimed],
    replacement: Option<usize>,
) -> Result<Vec<Mark>, AllocError>
    requires alone { IsAlone (aims_of aims.now) replacement }
    requires there { IfSome replacement (λ c. c < length changes.now) }
    ensures { IfOk result (λ v. map (λ m. m.number) v.items
        ≡ in_order_of changes.now (aims_of aims.now) (subtree root.now)) }
{
    let green = root.green(alloc)?;
    let table = numbered_table(alloc, &green, changes)?;
    let mut walk = Walk::begin(alloc, 0);
    rewritten_root(alloc, &mut walk, root, replacement, aims, &[], &table)?;
    Ok(walk.found)
}

// What changes do to the text, in the order of these marks, which have their numbers.
fn edits_in_order(
    alloc: Global,
    root: &SyntaxNode,
    changes: &[Change],
    given: &GivenTable,
    marks: &[Mark],
) -> Result<Vec<TextEdit>, AllocError>
    requires { All (Fits root.now) changes.now }
    ensures { IfOk result (λ v. map as_piece v.items
        ≡ flat_map (pieces_by root.now changes.now given.now) (map (λ m. m.number) marks.now)) }
{
    let mut edits = Vec::new(alloc);
    for mark in marks {
        push_edit(alloc, &mut edits, root, changes, given, mark.number)?;
    }
    Ok(edits)
}

/// What the changes do to the text of the tree, from left to right.
pub fn text_edits(alloc: Global, planned: Planned<'_>) -> Result<Vec<TextEdit>, AllocError>
    requires node { IsNode planned.root.now }
    requires fit { All (Fits planned.root.now) planned.changes.now }
    requires apart { first_clash planned.changes.now ≡ None }
    requires order { IsDocumentOrder planned.changes.now planned.order.now }
    requires fates { planned.fates.now ≡ map (fate planned.changes.now) planned.changes.now }
    requires places { length planned.places.now ≡ length planned.changes.now }
    ensures { IfOk result (AreEditsOf planned.entry) }
{
    let Planned {
        root,
        changes,
        order,
        fates,
        places,
    } = planned;
    let ByOwner { free, owned } = by_owner(alloc, changes, fates, places)?;
    let mut builds = 0;
    let given = given_table(alloc, changes, order, &owned, &[], &mut builds)?;
    let replacement = root_replacement(root, changes, &free);
    let marks = in_text_order(alloc, root, changes, &free, replacement)?;
    edits_in_order(alloc, root, changes, &given, &marks)
}
