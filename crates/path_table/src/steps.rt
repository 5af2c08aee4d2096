//! `Steps`: the step from a cell to the one below it at a slot. The latest from each cell is kept, so a chain hashes nothing.

ghost use Rattle.std.specs.Prelude.{◌≡◌, ◌≤◌, ◌<◌, ◌^◌, ℕ, [], length, OnOk, OnErr, IfOk, IfSome, Some};
ghost use Rattle.path_table.specs.inner.Steps.{step, latest_from, IsEntered};

use std::alloc::{AllocError, Global};
use std::collections::HashMap;
use std::marker::Model;

/// The cell below a cell, at a slot. The top is 0, and the others are counted in the order in which they were made.
#[derive(Drop)]
pub(crate) struct Steps {
    by_slot: HashMap<(usize, usize), usize>,
    // By cell, the step from it that was entered last, with its slot. So on a way where no cell has two below it, nothing is hashed.
    // The last cells may be missing, and have none.
    latest: Vec<Option<(usize, usize)>>,
}

impl Model for Steps {
    ghost use Rattle.path_table.specs.inner.Steps.{Steps, AreAmong};

    ghost Value = { Steps };

    ghost view = { λ a. a.by_slot.entries };

    ghost invariant = { λ a. AreAmong a.by_slot.entries a.latest.items };
}

// The latest step from a cell, with its slot.
fn latest_from(latest: &[Option<(usize, usize)>], cell: usize) -> Option<(usize, usize)>
    ensures { result ≡ latest_from latest.now cell }
{
    latest.get(cell).copied().flatten()
}

// A latest step or none for each of so many cells. Where many are below one, they need none.
fn make_room(latest: &mut Vec<Option<(usize, usize)>>, count: usize) -> Result<(), AllocError>
    ensures same { (n : ℕ) → latest_from latest.new.items n ≡ latest_from latest.old.items n }
    ensures room { OnOk result (count ≤ length latest.new.items) }
{
    if latest.len() < count {
        latest.resize(count, None)?;
    }
    Ok(())
}

// The cell below a cell, at a slot: the one that is there, or else the next one.
fn enter_in(
    by_slot: &mut HashMap<(usize, usize), usize>,
    cell: usize,
    slot: usize,
) -> Result<usize, AllocError>
    ensures entered { IfOk result (IsEntered by_slot.old.entries by_slot.new.entries cell slot) }
    ensures err { OnErr result (by_slot.new.entries ≡ by_slot.old.entries) }
{
    let next = by_slot.len() + 1;
    Ok(*by_slot.entry((cell, slot))?.or_insert(next))
}

impl Steps {
    pub(crate) fn new(alloc: Global) -> Steps
        ensures { result ≡ [] }
    {
        Steps {
            by_slot: HashMap::new(alloc),
            latest: Vec::new(alloc),
        }
    }

    /// How many cells there are below the top.
    pub(crate) fn len(&self) -> usize
        ensures count { result ≡ length self.now }
        ensures small { result < 2 ^ 63 }
    {
        self.by_slot.len()
    }

    // The cell below a cell, at a slot, if it was entered last there.
    fn latest_below(&self, cell: usize, slot: usize) -> Option<usize>
        ensures { IfSome result (λ m. step self.now cell slot ≡ Some m) }
    {
        let (latest, below) = latest_from(&self.latest, cell)?;
        if latest == slot { Some(below) } else { None }
    }

    /// The cell below a cell, at a slot, if there is one.
    pub(crate) fn below(&self, cell: usize, slot: usize) -> Option<usize>
        ensures { result ≡ step self.now cell slot }
    {
        match self.latest_below(cell, slot) {
            Some(below) => Some(below),
            None => self.by_slot.get(&(cell, slot)).copied(),
        }
    }

    /// The cell below a cell, at a slot. Where there is none it is made, and gets the next cell's number.
    ///
    /// Refused for memory alone. The steps are as they were then.
    pub(crate) fn enter(&mut self, cell: usize, slot: usize) -> Result<usize, AllocError>
        requires { cell ≤ length self.old }
        ensures entered { IfOk result (IsEntered self.old self.new cell slot) }
        ensures err { OnErr result (self.new ≡ self.old) }
    {
        if let Some(below) = self.latest_below(cell, slot) {
            return Ok(below);
        }
        // For the proof: cells are counted far below the greatest number.
        let _ = self.by_slot.len();
        make_room(&mut self.latest, cell + 1)?;
        let below = enter_in(&mut self.by_slot, cell, slot)?;
        self.latest[cell] = Some((slot, below));
        Ok(below)
    }
}
