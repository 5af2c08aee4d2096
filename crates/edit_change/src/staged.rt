//! Where a change is carried out: in the payload of its owner, if it has one, and else in the tree.

ghost use Rattle.std.specs.Prelude.{◌≡◌, ◌<◌, map, length, All, IfOk, IfSome};
ghost use Rattle.cst_core.specs.Element.{Element};
ghost use Rattle.edit_change.specs.Fits.{Fits};
ghost use Rattle.edit_change.specs.NewTree.{moved_path};
ghost use Rattle.edit_change.specs.inner.Fate.{fate};
ghost use Rattle.edit_change.specs.inner.OwnerPlaces.{owner_at, places_in, AimsFrom};

use crate::change::Change;
use crate::change_aims::aim_path;
use crate::fate::Fate;
use std::alloc::{AllocError, Global};

/// The owner of a change, if it has one.
pub fn owner_of(changes: &[Change], fates: &[Fate], number: usize) -> Option<usize>
    requires there { number < length changes.now }
    requires fates { fates.now ≡ map (fate changes.now) changes.now }
    ensures owner { result ≡ owner_at changes.now number }
    ensures there { IfSome result (λ o. o < length changes.now) }
{
    fates[number].owner()
}

/// The path from which a change aims: in the payload of `owner`, its owner, if it has one, and else in the tree. `places` has the place of
/// each owner's target in its payload.
pub fn staged_path(
    alloc: Global,
    changes: &[Change],
    places: &[Option<Vec<usize>>],
    number: usize,
    owner: Option<usize>,
) -> Result<Vec<usize>, AllocError>
    requires there { number < length changes.now }
    requires fit { (root : Element) × All (Fits root) changes.now }
    requires owner { owner ≡ owner_at changes.now number }
    requires places { length places.now ≡ length changes.now }
    ensures { IfOk result (λ v. AimsFrom changes.now (places_in places.now) number v.items) }
{
    let path = aim_path(&changes[number]);
    let Some(owner) = owner else {
        return Vec::from_slice(alloc, path);
    };
    let target = aim_path(&changes[owner]);
    let place = match &places[owner] {
        Some(place) => place.as_slice(),
        None => &[],
    };
    let mut moved = Vec::from_slice(alloc, place)?;
    if let Some(below) = path.get(target.len()..) {
        moved.extend_from_slice(below)?;
    }
    Ok(moved)
}
