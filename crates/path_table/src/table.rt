//! `PathTable`: values by path. Each path leads to a cell of its own, so that one walk down finds the values on the way.

ghost use Rattle.std.specs.Prelude.{◌≡◌, ◌≤◌, ◌<◌, ◌+◌, ℕ, Option, None, Some, OnOk, OnErr, IfOk, length, take};
ghost use Rattle.green_tree.specs.Path.{Path};
ghost use Rattle.path_table.specs.inner.PathTable.{cell_below, next_cell, cell_at, place_at, value_in, value_by_path, KeepsPlaces, SameValues, IsPut, size, IsTree, IsGrown};
ghost use Rattle.path_table.specs.inner.Steps.{slots_of, way_end};

use crate::steps::Steps;
use std::alloc::{AllocError, Global};

/// Values by path. From the top each path leads, by one step a slot, to a cell of its own; so a way down costs its length, and
/// finds the values of all elements on it.
pub struct PathTable<V> {
    steps: Steps,
    // By cell; the last cells may be missing, and have none.
    values: Vec<Option<V>>,
    // The slots of the path that was entered last, each with the cell that it leads to. The next path goes on where the two part, so
    // paths near to each other are entered together.
    way: Vec<(usize, usize)>,
}

// One call lets a value go, not one for each field.
impl<V: Drop> Drop for PathTable<V> {
    fn drop(self) {
        let PathTable {
            steps: _,
            values: _,
            way: _,
        } = self;
    }
}

// How many slots a way and a path have in common, and the cell that these lead to.
fn shared(way: &[(usize, usize)], path: &[usize]) -> (usize, usize)
    ensures within { result.0 ≤ length path.now }
    ensures slots { slots_of (take result.0 way.now) ≡ take result.0 path.now }
    ensures end { result.1 ≡ way_end 0 (take result.0 way.now) }
{
    let most = way.len().min(path.len());
    let mut cell = 0;
    for count in 0..most {
        let (slot, below) = way[count];
        if slot != path[count] {
            return (count, cell);
        }
        cell = below;
    }
    (most, cell)
}

impl<V: Copy> PathTable<V> {
    /// A table of nothing.
    pub fn new(alloc: Global) -> PathTable<V>
        ensures empty { (p : Path) → value_by_path result p ≡ None }
        ensures tree { IsTree result }
    {
        PathTable {
            steps: Steps::new(alloc),
            values: Vec::new(alloc),
            way: Vec::new(alloc),
        }
    }

    /// The cell of the empty path.
    pub fn top(&self) -> Option<usize>
        ensures { result ≡ Some 0 }
    {
        Some(0)
    }

    /// The cell below a cell, at a slot; `None` below none, and where the table has nothing.
    pub fn below(&self, cell: Option<usize>, slot: usize) -> Option<usize>
        ensures { result ≡ next_cell self.now cell slot }
    {
        self.steps.below(cell?, slot)
    }

    /// The value of a cell, if it has one.
    pub fn at(&self, cell: Option<usize>) -> Option<V>
        ensures { result ≡ value_in self.now cell }
    {
        self.values.get(cell?).copied().flatten()
    }

    /// The value at a path, if there is one.
    pub fn get(&self, path: &[usize]) -> Option<V>
        ensures { result ≡ value_by_path self.now path.now }
    {
        let mut cell = self.top();
        for slot in path {
            cell = self.below(cell, *slot);
        }
        self.at(cell)
    }

    // The way goes on from its end to the cell at a slot.
    fn go_on(&mut self, end: usize, slot: usize) -> Result<usize, AllocError>
        requires tree { IsTree self.old }
        requires end { end ≡ way_end 0 self.old.way.items }
        ensures leads { IfOk result (λ m. cell_below self.new end slot ≡ Some m) }
        ensures end { IfOk result (λ m. m ≡ way_end 0 self.new.way.items) }
        ensures grown { IsGrown self.old self.new }
    {
        let below = self.steps.enter(end, slot)?;
        self.way.push((slot, below))?;
        Ok(below)
    }

    // The cell of a path. Where there is none it is made, and the cells on the way to it that are missing.
    fn enter_cells(&mut self, path: &[usize]) -> Result<usize, AllocError>
        requires { IsTree self.old }
        ensures leads { IfOk result (λ m. cell_at self.new path.now ≡ Some m) }
        ensures grown { IsGrown self.old self.new }
    {
        let (shared, end) = shared(&self.way, path);
        self.way.truncate(shared);
        let mut cell = end;
        for depth in shared..path.len() {
            cell = self.go_on(cell, path[depth])?;
        }
        Ok(cell)
    }

    // A value or none for each cell.
    fn make_room(&mut self) -> Result<(), AllocError>
        ensures steps { self.new.steps ≡ self.old.steps }
        ensures way { self.new.way ≡ self.old.way }
        ensures values { (cell : Option ℕ) → value_in self.new cell ≡ value_in self.old cell }
        ensures longer { length self.old.values.items ≤ length self.new.values.items }
        ensures room { OnOk result (size self.new < length self.new.values.items) }
    {
        let count = self.steps.len() + 1;
        if self.values.len() < count {
            self.values.resize(count, None)?;
        }
        Ok(())
    }

    /// The cell of a path, at which a value can be set from now on. Where there is none it is made, and has no value.
    ///
    /// Refused for memory alone. The values are as they were then, and so is each cell that there was.
    pub fn enter(&mut self, path: &[usize]) -> Result<usize, AllocError>
        requires { IsTree self.old }
        ensures entered { IfOk result (λ m. place_at self.new path.now ≡ Some m) }
        ensures places { KeepsPlaces self.old self.new }
        ensures values { SameValues self.old self.new }
        ensures tree { IsTree self.new }
    {
        let cell = self.enter_cells(path)?;
        self.make_room()?;
        Ok(cell)
    }

    /// Sets the value at the cell of a path that was entered.
    pub fn set(&mut self, cell: usize, value: V)
        requires tree { IsTree self.old }
        requires entered { (p : Path) × (place_at self.old p ≡ Some cell) }
        ensures put { (p : Path) → place_at self.old p ≡ Some cell → IsPut self.old self.new p value }
        ensures places { (p : Path) → place_at self.new p ≡ place_at self.old p }
        ensures tree { IsTree self.new }
    {
        self.values[cell] = Some(value);
    }

    /// Puts a value at a path, in place of the one that was there.
    ///
    /// Refused for memory alone. The values are as they were then.
    pub fn insert(&mut self, path: &[usize], value: V) -> Result<(), AllocError>
        requires { IsTree self.old }
        ensures ok { OnOk result (IsPut self.old self.new path.now value) }
        ensures err { OnErr result (SameValues self.old self.new) }
        ensures tree { IsTree self.new }
    {
        let cell = self.enter(path)?;
        self.set(cell, value);
        Ok(())
    }
}
