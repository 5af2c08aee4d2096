//! `ChangeList`: the recorded changes in order, with a table of the Replaces that agrees with them. `SyntaxEditor` records into it.

ghost use Rattle.std.specs.Prelude.{◌≡◌, ◌<◌, ◌≤◌, ◌+◌, ◌^◌, List, Option, Some, length, map, IfOk, false, [], ◌∷◌, ◌++◌, position, option_map, None, is_none, OnOk, OnErr};
ghost use Rattle.std.specs.List.{list_any};
ghost use Rattle.std.specs.Vec.{vec_len, vec_capacity};
ghost use Rattle.cst_core.specs.Path.{Path};
ghost use Rattle.cst_core.specs.SyntaxElement.{element_of};
ghost use Rattle.cst_core.specs.declared.element.SyntaxElement.{SyntaxElement};
ghost use Rattle.edit_change.specs.declared.change.Change.{Change};
ghost use Rattle.edit_change.specs.declared.change.Change.TheVariants.{Replace};
ghost use Rattle.change_list.specs.Recording.{with_replacement, merged};
ghost use Rattle.change_list.specs.inner.ByPath.{is_replace, is_replace_at, replacements_at, replace_at, delete_at, delete_each_at};
ghost use Rattle.path_table.specs.inner.PathTable.{place_at, SameValues, IsTree};
ghost use Rattle.change_list.specs.inner.Indexing.{place_of, Agrees, Notes, NotesReplace};

use cst_core::SyntaxElement;
use edit_change::Change;
use path_table::PathTable;
use std::alloc::{AllocError, Global};
use std::marker::Model;

/// Changes of one tree in the order in which they were recorded, with an index of those that replace an element by one or
/// by none. Its calls tell elements by their paths alone, so it is for whoever has tested that they are of the tree.
#[derive(Drop)]
pub struct ChangeList {
    changes: Vec<Change>,
    // By path. All that takes memory is done before anything is set, so that a refusal leaves it as it was.
    replaced: PathTable<Replaced>,
}

/// What a list of changes has of an element that is replaced by one or by none.
#[derive(Clone, Copy)]
pub(crate) struct Replaced {
    /// Where the first such change stands.
    pub(crate) first: usize,
    /// Whether one of these changes is a deletion.
    pub(crate) is_deleted: bool,
}

impl Model for ChangeList {
    ghost use Rattle.std.specs.Prelude.{List};
    ghost use Rattle.std.specs.Coded.{coded_list};
    ghost use Rattle.edit_change.specs.declared.change.Change.{Change};
    ghost use Rattle.edit_change.specs.inner.ChangeCodes.{change_code};
    ghost use Rattle.change_list.specs.inner.Indexing.{Agrees};

    ghost Value = { List Change };

    ghost coded = { coded_list change_code };

    ghost view = { λ a. a.changes.items };

    ghost invariant = { λ a. Agrees a.replaced a.changes.items };
}

impl ChangeList {
    /// A list of no changes. It takes no memory.
    pub fn new(alloc: Global) -> ChangeList
        ensures { result ≡ [] }
    {
        ChangeList {
            changes: Vec::new(alloc),
            replaced: PathTable::new(alloc),
        }
    }

    /// The changes, in order.
    pub fn as_slice(&self) -> &[Change]
        ensures { result.now ≡ self.now }
    {
        self.changes.as_slice()
    }

    /// The changes alone, without taking memory.
    pub fn into_vec(self) -> Vec<Change>
        ensures { result.items ≡ self }
    {
        self.changes
    }

    /// Puts a change at the end that does not replace an element by one or by none. Without memory for that the list is
    /// unchanged.
    pub fn push(&mut self, change: Change) -> Result<(), AllocError>
        requires { is_replace change ≡ false }
        ensures ok { OnOk result (self.new ≡ self.old ++ change ∷ []) }
        ensures err { OnErr result (self.new ≡ self.old) }
    {
        Ok(self.changes.push(change)?)
    }

    /// Records that an element is replaced: the first Replace of it takes that up, and where there is none one more is put
    /// at the end. Without memory for that the list is unchanged.
    pub fn replace(&mut self, element: SyntaxElement, new: SyntaxElement) -> Result<(), AllocError>
        ensures ok { OnOk result (self.new ≡ replace_at element new self.old) }
        ensures err { OnErr result (self.new ≡ self.old) }
    {
        let place = self.replaced.enter(element.slots())?;
        self.changes.reserve(1)?;
        replace_element(&mut self.changes, &mut self.replaced, place, element, new);
        Ok(())
    }

    /// Records that an element is deleted: the first Replace of it becomes a deletion, and where there is none one more is
    /// put at the end. Without memory for that the list is unchanged.
    pub fn delete(&mut self, element: SyntaxElement) -> Result<(), AllocError>
        ensures ok { OnOk result (self.new ≡ delete_at element self.old) }
        ensures err { OnErr result (self.new ≡ self.old) }
    {
        let place = self.replaced.enter(element.slots())?;
        self.changes.reserve(1)?;
        delete_element(&mut self.changes, &mut self.replaced, place, element);
        Ok(())
    }

    /// Records that each of these elements is deleted, one after the other as `delete` does it. Without memory for all of them the
    /// list is unchanged.
    pub fn delete_each(
        &mut self,
        alloc: Global,
        elements: Vec<SyntaxElement>,
    ) -> Result<(), AllocError>
        ensures ok { OnOk result (self.new ≡ delete_each_at elements.items self.old) }
        ensures err { OnErr result (self.new ≡ self.old) }
    {
        let places = entered(alloc, &mut self.replaced, &elements)?;
        self.changes.reserve(elements.len())?;
        delete_elements(&mut self.changes, &mut self.replaced, &places, elements);
        Ok(())
    }

    /// Puts the changes of another list of the same tree at the end and leaves that one empty. No change takes another one up.
    /// Without memory for that both are unchanged.
    pub fn append(&mut self, alloc: Global, other: &mut ChangeList) -> Result<(), AllocError>
        ensures ok { OnOk result (self.new ≡ merged self.old other.old) }
        ensures taken { OnOk result (other.new ≡ []) }
        ensures err { OnErr result (self.new ≡ self.old) }
        ensures kept { OnErr result (other.new ≡ other.old) }
    {
        let replaced = index_of(alloc, &self.changes, &other.changes)?;
        self.changes.append(&mut other.changes)?;
        self.replaced = replaced;
        other.replaced = PathTable::new(alloc);
        Ok(())
    }

    /// Whether the element at a path is deleted by a Replace of it.
    pub fn has_deletion(&self, path: &[usize]) -> bool
        ensures { result ≡ list_any is_none (replacements_at path.now self.now) }
    {
        match self.replaced.get(path) {
            Some(replaced) => replaced.is_deleted,
            None => false,
        }
    }
}

// The places of elements in an index. What it says stays as it is.
fn entered(
    alloc: Global,
    replaced: &mut PathTable<Replaced>,
    elements: &[SyntaxElement],
) -> Result<Vec<usize>, AllocError>
    requires { IsTree replaced.old }
    ensures tree { IsTree replaced.new }
    ensures places { IfOk result (λ v. map Some v.items ≡ map (place_of replaced.new) elements.now) }
    ensures said { SameValues replaced.old replaced.new }
{
    let mut places = Vec::with_capacity(alloc, elements.len())?;
    for element in elements {
        places.push(replaced.enter(element.slots())?)?;
    }
    Ok(places)
}

// Puts the first Replace of an element at the end, where there is room for it.
fn add_replace(
    changes: &mut Vec<Change>,
    replaced: &mut PathTable<Replaced>,
    place: usize,
    element: SyntaxElement,
    new: Option<SyntaxElement>,
)
    requires first { position (is_replace_at (element_of element).path) changes.old.items ≡ None }
    requires has_room { vec_len changes.old < vec_capacity changes.old }
    requires place { place_of replaced.old element ≡ Some place }
    requires agrees { Agrees replaced.old changes.old.items }
    ensures list { changes.new.items ≡ changes.old.items ++ Replace element new ∷ [] }
    ensures agrees { Agrees replaced.new changes.new.items }
    ensures places { (p : Path) → place_at replaced.new p ≡ place_at replaced.old p }
    ensures len { vec_len changes.new ≡ vec_len changes.old + 1 }
    ensures capacity { vec_capacity changes.new ≡ vec_capacity changes.old }
{
    let first = changes.len();
    let is_deleted = new.is_none();
    changes.push_reserved(Change::Replace(element, new));
    replaced.set(place, Replaced { first, is_deleted });
}

// Replaces an element, where there is room for one more change.
fn replace_element(
    changes: &mut Vec<Change>,
    replaced: &mut PathTable<Replaced>,
    place: usize,
    element: SyntaxElement,
    new: SyntaxElement,
)
    requires has_room { vec_len changes.old < vec_capacity changes.old }
    requires place { place_of replaced.old element ≡ Some place }
    requires agrees { Agrees replaced.old changes.old.items }
    ensures list { changes.new.items ≡ replace_at element new changes.old.items }
    ensures agrees { Agrees replaced.new changes.new.items }
{
    match replaced.at(Some(place)) {
        Some(known) => take_up(&mut changes[known.first], new),
        None => add_replace(changes, replaced, place, element, Some(new)),
    }
}

// Deletes an element, where there is room for one more change.
fn delete_element(
    changes: &mut Vec<Change>,
    replaced: &mut PathTable<Replaced>,
    place: usize,
    element: SyntaxElement,
)
    requires has_room { vec_len changes.old < vec_capacity changes.old }
    requires place { place_of replaced.old element ≡ Some place }
    requires agrees { Agrees replaced.old changes.old.items }
    ensures list { changes.new.items ≡ delete_at element changes.old.items }
    ensures agrees { Agrees replaced.new changes.new.items }
    ensures places { (p : Path) → place_at replaced.new p ≡ place_at replaced.old p }
    ensures len { vec_len changes.new ≤ vec_len changes.old + 1 }
    ensures capacity { vec_capacity changes.new ≡ vec_capacity changes.old }
{
    let Some(known) = replaced.at(Some(place)) else {
        return add_replace(changes, replaced, place, element, None);
    };
    take_away(&mut changes[known.first]);
    replaced.set(
        place,
        Replaced {
            first: known.first,
            is_deleted: true,
        },
    );
}

// Deletes these elements one after the other, where there is room for all of them.
fn delete_elements(
    changes: &mut Vec<Change>,
    replaced: &mut PathTable<Replaced>,
    places: &[usize],
    elements: Vec<SyntaxElement>,
)
    requires has_room { vec_len changes.old + length elements.items ≤ vec_capacity changes.old }
    requires places { map Some places.now ≡ map (place_of replaced.old) elements.items }
    requires agrees { Agrees replaced.old changes.old.items }
    ensures list { changes.new.items ≡ delete_each_at elements.items changes.old.items }
    ensures agrees { Agrees replaced.new changes.new.items }
{
    for (place, element) in places.iter().zip(elements) {
        delete_element(changes, replaced, *place, element);
    }
}

// The index of two lists, the second after the first.
fn index_of(
    alloc: Global,
    own: &[Change],
    other: &[Change],
) -> Result<PathTable<Replaced>, AllocError>
    requires { length own.now + length other.now < 2 ^ 64 }
    ensures { IfOk result (λ x. Agrees x (own.now ++ other.now)) }
{
    let mut index = PathTable::new(alloc);
    note_all(&mut index, 0, own)?;
    note_all(&mut index, own.len(), other)?;
    Ok(index)
}

// Tells the index of a list of more changes at its end, where the list has n.
fn note_all(
    index: &mut PathTable<Replaced>,
    before: usize,
    changes: &[Change],
) -> Result<(), AllocError>
    requires small { before + length changes.now < 2 ^ 64 }
    requires tree { IsTree index.old }
    ensures tree { IsTree index.new }
    ensures noted { Notes result before changes.now index.old index.new }
{
    let mut number = before;
    for change in changes {
        note(index, number, change)?;
        number += 1;
    }
    Ok(())
}

// Tells the index of a list of one more change, which stands at this number.
fn note(index: &mut PathTable<Replaced>, number: usize, change: &Change) -> Result<(), AllocError>
    requires { IsTree index.old }
    ensures tree { IsTree index.new }
    ensures noted { Notes result number (change.now ∷ []) index.old index.new }
{
    match change {
        Change::Replace(element, new) => { note_replace(index, number, element, new.is_none()) }
        _ => Ok(()),
    }
}

// Tells it of a Replace. The first one of an element stays its first.
fn note_replace(
    index: &mut PathTable<Replaced>,
    number: usize,
    element: &SyntaxElement,
    is_deleted: bool,
) -> Result<(), AllocError>
    requires { IsTree index.old }
    ensures tree { IsTree index.new }
    ensures noted { NotesReplace result number element.now is_deleted index.old index.new }
{
    let place = index.enter(element.slots())?;
    match index.at(Some(place)) {
        None => index.set(
            place,
            Replaced {
                first: number,
                is_deleted,
            },
        ),
        Some(known) => index.set(
            place,
            Replaced {
                first: known.first,
                is_deleted: known.is_deleted || is_deleted,
            },
        ),
    }
    Ok(())
}

// Makes a Replace bring another element. A deletion stays one, and so does any other change.
fn take_up(change: &mut Change, new: SyntaxElement)
    ensures { change.new ≡ with_replacement (option_map (λ _. new)) change.old }
{
    if let Change::Replace(_, Some(payload)) = change {
        *payload = new;
    }
}

// Makes a Replace a deletion. Any other change stays as it is.
fn take_away(change: &mut Change)
    ensures { change.new ≡ with_replacement (λ _. None) change.old }
{
    if let Change::Replace(_, payload) = change {
        *payload = None;
    }
}
