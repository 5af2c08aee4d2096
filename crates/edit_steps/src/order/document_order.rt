//! `default_order`: the changes from the last one in the document to the first.

ghost use Rattle.std.specs.Prelude.{◌≡◌, map, reverse, IfOk};
ghost use Rattle.edit_change.specs.inner.Fate.{fate};
ghost use Rattle.edit_steps.specs.Schedule.{IsAllowed};
ghost use Rattle.edit_change.specs.Nesting.{undropped};
ghost use Rattle.edit_steps.specs.DefaultOrder.{document_path, gap_path, IsDefaultOrder};
ghost use Rattle.edit_steps.specs.inner.Turns.{turn_of, turn_in, number_in, side_of};

use edit_change::{Change, Fate, Position, aim_path, slot_after};
use std::alloc::{AllocError, Global};

/// Which of the two stands at a slot: its gap before it, or what is in it.
#[derive(PartialEq, Eq, PartialOrd, Ord, Drop)]
enum Side {
    Gap,
    Slot,
}

/// By these values turns ascend as changes stand in the document, those of one gap as they were recorded. So changes take
/// their turns from the last value to the first.
#[derive(PartialEq, Eq, PartialOrd, Ord, Drop)]
struct Turn {
    /// The path of the slot.
    path: Vec<usize>,
    side: Side,
    number: usize,
}

// The path of the slot that a gap stands before.
fn gap_path(alloc: Global, position: &Position) -> Result<Vec<usize>, AllocError>
    ensures { IfOk result (λ v. v.items ≡ gap_path position.now) }
{
    let mut path = Vec::from_slice(alloc, position.anchor())?;
    let slot = match position.after_of() {
        Some(element) => {
            path.pop();
            slot_after(element)
        }
        None => 0,
    };
    path.push(slot)?;
    Ok(path)
}

// The path of the slot where a change begins: the first one that it replaces, or the one after its gap.
fn document_path(alloc: Global, change: &Change) -> Result<Vec<usize>, AllocError>
    ensures { IfOk result (λ v. v.items ≡ document_path change.now) }
{
    match change {
        Change::Insert(position, _) => gap_path(alloc, position),
        Change::InsertAll(position, _) => gap_path(alloc, position),
        Change::Replace(_, _) => Vec::from_slice(alloc, aim_path(change)),
        Change::ReplaceWithMany(_, _) => Vec::from_slice(alloc, aim_path(change)),
        Change::ReplaceAll(_, _, _) => Vec::from_slice(alloc, aim_path(change)),
    }
}

fn side_of(change: &Change) -> Side
    ensures { result ≡ side_of change.now }
{
    match change {
        Change::Insert(_, _) => Side::Gap,
        Change::InsertAll(_, _) => Side::Gap,
        Change::Replace(_, _) => Side::Slot,
        Change::ReplaceWithMany(_, _) => Side::Slot,
        Change::ReplaceAll(_, _, _) => Side::Slot,
    }
}

fn turn_of(alloc: Global, change: &Change, number: usize) -> Result<Turn, AllocError>
    ensures { IfOk result (λ t. turn_in t ≡ turn_of (number, change.now)) }
{
    Ok(Turn {
        path: document_path(alloc, change)?,
        side: side_of(change),
        number,
    })
}

// The turn of each change that is not dropped.
fn turns(alloc: Global, changes: &[Change], fates: &[Fate]) -> Result<Vec<Turn>, AllocError>
    requires { fates.now ≡ map (fate changes.now) changes.now }
    ensures { IfOk result (λ v. map turn_in v.items ≡ map turn_of (undropped changes.now)) }
{
    let mut turns = Vec::with_capacity(alloc, changes.len())?;
    for (number, change) in changes.iter().enumerate() {
        if !fates[number].is_dropped() {
            turns.push(turn_of(alloc, change, number)?)?;
        }
    }
    Ok(turns)
}

// The numbers of turns, from the last to the first.
fn numbers_back(alloc: Global, turns: &[Turn]) -> Result<Vec<usize>, AllocError>
    ensures { IfOk result (λ v. v.items ≡ map number_in (reverse turns.now)) }
{
    turns.iter().rev().map(|turn| turn.number).collect(alloc)
}

/// The changes that are not dropped, from the last in the document to the first, where a gap stands before its slot; inserts
/// of one gap from the last recorded to the first. So each change comes after those that it owns.
///
/// `fates` has what becomes of each change. Takes time near linear in the paths of the changes.
pub fn default_order(
    alloc: Global,
    changes: &[Change],
    fates: &[Fate],
) -> Result<Vec<usize>, AllocError>
    requires { fates.now ≡ map (fate changes.now) changes.now }
    ensures allowed { IfOk result (λ v. IsAllowed changes.now v.items) }
    ensures ordered { IfOk result (λ v. IsDefaultOrder changes.now v.items) }
{
    let mut turns = turns(alloc, changes, fates)?;
    turns.sort()?;
    numbers_back(alloc, &turns)
}
