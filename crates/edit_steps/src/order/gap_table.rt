//! `GapTable`: numbers by gap, for the inserts of one gap, which wait for each other.

ghost use Rattle.std.specs.Prelude.{◌≡◌, cond, None, Some, OnOk, IfOk};
ghost use Rattle.edit_change.specs.Aim.{Aim, same_gap};
ghost use Rattle.edit_change.specs.ChangeAim.{aim, position_aim};
ghost use Rattle.edit_steps.specs.inner.GapTable.{gap_entry, IsPut};

use edit_change::{Change, Position};
use std::alloc::{AllocError, Global};
use std::collections::HashMap;

/// Numbers by gap. A gap has one form, so there is a table for each form.
#[derive(Drop)]
pub(crate) struct GapTable {
    // By the path of the node whose first gap it is.
    first: HashMap<Vec<usize>, usize>,
    // By the path of the element that it is after.
    after_element: HashMap<Vec<usize>, usize>,
}

impl GapTable {
    pub(crate) fn new(alloc: Global) -> GapTable
        ensures { (a : Aim) → gap_entry result a ≡ None }
    {
        GapTable {
            first: HashMap::new(alloc),
            after_element: HashMap::new(alloc),
        }
    }

    // Puts a number at a gap, and gives the one that was there.
    fn put_at(
        &mut self,
        alloc: Global,
        position: &Position,
        number: usize,
    ) -> Result<Option<usize>, AllocError>
        ensures before { IfOk result (λ o. o ≡ gap_entry self.old (position_aim position.now)) }
        ensures after { OnOk result (IsPut self.old self.new (position_aim position.now) number) }
    {
        let path = Vec::from_slice(alloc, position.anchor())?;
        if position.first_of().is_some() {
            Ok(self.first.insert(path, number)?)
        } else {
            Ok(self.after_element.insert(path, number)?)
        }
    }

    /// Puts a number at the gap that a change fills, and gives the one that was there. A replacement fills none.
    pub(crate) fn put(
        &mut self,
        alloc: Global,
        change: &Change,
        number: usize,
    ) -> Result<Option<usize>, AllocError>
        ensures before { IfOk result (λ o. o ≡ gap_entry self.old (aim change.now)) }
        ensures after { OnOk result (IsPut self.old self.new (aim change.now) number) }
    {
        match change {
            Change::Insert(position, _) => self.put_at(alloc, position, number),
            Change::InsertAll(position, _) => self.put_at(alloc, position, number),
            Change::Replace(_, _) => Ok(None),
            Change::ReplaceWithMany(_, _) => Ok(None),
            Change::ReplaceAll(_, _, _) => Ok(None),
        }
    }
}
