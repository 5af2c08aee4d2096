//! Where the targets of owners stand in their payloads, and the first change that finds no place there.

ghost use Rattle.std.specs.Prelude.{ℕ, true, ◌≡◌, ◌<◌, map, length, slice_get, None, Some, IfOk, IfErr, OnOk};
ghost use Rattle.edit_change.specs.inner.Fate.{fate};
ghost use Rattle.edit_change.specs.Nesting.{is_keeping};
ghost use Rattle.edit_change.specs.Places.{ArePlaces};
ghost use Rattle.edit_change.specs.inner.OwnerPlaces.{path_at, places_in};
ghost use Rattle.edit_plan.specs.inner.PlaceTables.{IsPlaced, IsFoundPlace, PlacesStay, TellsPlace};
ghost use Rattle.edit_plan.specs.inner.PlacesRefusal.{PlacesRefuse};
ghost use Rattle.edit_change.specs.declared.change.Change.{Change};

use crate::edit_error::EditError;
use cst_core::SyntaxElement;
use edit_change::{Change, Fate, aim_path};
use edit_map::SyntaxMapping;
use edit_map::laws::place_is_unique;
use std::alloc::{AllocError, Global};

// Enters the place of an owner's target in its payload, if that has an element there, where it has not been asked for before.
fn find_place(
    alloc: Global,
    mapping: &SyntaxMapping,
    changes: &[Change],
    owner: usize,
    places: &mut Vec<Option<Vec<usize>>>,
) -> Result<(), AllocError>
    requires there { owner < length changes.now }
    requires keeps { (o : Change) → slice_get changes.now owner ≡ Some o → is_keeping o ≡ true }
    requires long { length places.now.items ≡ length changes.now }
    requires placed { IsPlaced mapping.now changes.now places.now.items }
    ensures long { OnOk result (length places.new.items ≡ length changes.now) }
    ensures placed { OnOk result (IsPlaced mapping.now changes.now places.new.items) }
    ensures here { OnOk result (IsFoundPlace mapping.now changes.now places.new.items owner) }
    ensures kept { OnOk result (PlacesStay places.old.items places.new.items) }
{
    place_is_unique();
    if places[owner].is_some() {
        return Ok(());
    }
    let Change::Replace(SyntaxElement::Node(target), Some(SyntaxElement::Node(payload))) =
        &changes[owner]
    else {
        unreachable!();
    };
    let place = mapping.place(alloc, target, payload)?;
    places[owner] = place.filter(|path| payload.as_green().get(path).is_some());
    Ok(())
}

// Whether a change has its place where the target of its owner has this one.
fn has_place(change: &Change, owner: &Change, place: &Option<Vec<usize>>) -> bool
    ensures { TellsPlace place.now owner.now change.now result }
{
    match place {
        Some(path) => !path.is_empty() || !change.is_after(aim_path(owner)),
        None => false,
    }
}

/// The place of each owner's target in its payload, by the owner's number, where `fates` has what becomes of each change.
///
/// `MissingMapping` names the first change that has no place in its owner's payload, and the owner; else only `Memory` comes.
pub(crate) fn places(
    alloc: Global,
    changes: &[Change],
    fates: &[Fate],
    mapping: &SyntaxMapping,
) -> Result<Vec<Option<Vec<usize>>>, EditError>
    requires { fates.now ≡ map (fate changes.now) changes.now }
    ensures long { IfOk result (λ v. length v.items ≡ length changes.now) }
    ensures placed { IfOk result (λ v. ArePlaces mapping.now changes.now (places_in v.items)) }
    ensures refused { IfErr result (PlacesRefuse mapping.now changes.now) }
{
    let mut places = vec![in alloc; None; changes.len()]?;
    for number in 0..changes.len() {
        if let Fate::Owned(owner) = fates[number] {
            find_place(alloc, mapping, changes, owner, &mut places)?;
            if !has_place(&changes[number], &changes[owner], &places[owner]) {
                return Err(EditError::MissingMapping {
                    change: number,
                    owner,
                });
            }
        }
    }
    Ok(places)
}
