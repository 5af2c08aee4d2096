//! `Dependent`: an owned change, and where it aims in its owner's payload; `ByOwner`: the changes by their owners.

ghost use Rattle.std.specs.Prelude.{◌≡◌, map, length, All, IfOk};
ghost use Rattle.cst_core.specs.Element.{Element};
ghost use Rattle.edit_change.specs.Fits.{Fits};
ghost use Rattle.edit_change.specs.NewTree.{independents};
ghost use Rattle.edit_change.specs.inner.Aimed.{aims_of};
ghost use Rattle.edit_change.specs.inner.Fate.{fate};
ghost use Rattle.edit_change.specs.inner.OwnerPlaces.{places_in};
ghost use Rattle.one_pass.specs.inner.OwnerTables.{AreDependents};

use crate::mark::empty_lists;
use edit_change::{Aimed, Change, Fate, numbered_aim, staged_path};
use std::alloc::{AllocError, Global};

/// A change that another one owns, with its number, and the path where it aims in the payload of that one.
#[derive(Drop)]
pub(crate) struct Dependent<'a> {
    pub(crate) number: usize,
    pub(crate) change: &'a Change,
    pub(crate) path: Vec<usize>,
}

/// The changes that are not dropped, by what carries them out.
#[derive(Drop)]
pub(crate) struct ByOwner<'a> {
    /// Where those without an owner aim.
    pub(crate) free: Vec<Aimed<'a>>,
    /// What each change owns, by its number.
    pub(crate) owned: Vec<Vec<Dependent<'a>>>,
}

/// The changes by their owners, each list in the order of the changes: `fates` has what becomes of each change, and `places` the place
/// of each owner's target in its payload.
pub(crate) fn by_owner<'a>(
    alloc: Global,
    changes: &'a [Change],
    fates: &[Fate],
    places: &[Option<Vec<usize>>],
) -> Result<ByOwner<'a>, AllocError>
    requires fit { (root : Element) × All (Fits root) changes.now }
    requires fates { fates.now ≡ map (fate changes.now) changes.now }
    requires places { length places.now ≡ length changes.now }
    ensures free { IfOk result (λ r. aims_of r.free.items ≡ independents changes.now) }
    ensures long { IfOk result (λ r. length r.owned.items ≡ length changes.now) }
    ensures owned { IfOk result (λ r. AreDependents changes.now (places_in places.now) r.owned.items) }
{
    let mut free = Vec::with_capacity(alloc, changes.len())?;
    let mut owned = empty_lists(alloc, changes.len())?;
    for number in 0..changes.len() {
        let change = &changes[number];
        match fates[number] {
            Fate::Independent => free.push(numbered_aim(change, number))?,
            Fate::Dropped => {}
            Fate::Owned(owner) => {
                let path = staged_path(alloc, changes, places, number, Some(owner))?;
                owned[owner].push(Dependent {
                    number,
                    change,
                    path,
                })?;
            }
        }
    }
    Ok(ByOwner { free, owned })
}
