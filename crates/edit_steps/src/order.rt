//! `check`: whether an order has each change once, and after all that it waits for. `EditPlan::execute` asks it first.

ghost use Rattle.std.specs.Prelude.{◌≡◌, ◌≤◌, ◌↔◌, ℕ, None, map, length, IfOk, IfErr, OnOk, IsTrue, All};
ghost use Rattle.std.specs.List.{list_all};
ghost use Rattle.edit_change.specs.Nesting.{first_clash};
ghost use Rattle.edit_change.specs.inner.DocumentOrder.{FitsSome};
ghost use Rattle.edit_change.specs.inner.Fate.{fate, is_dropped_in};
ghost use Rattle.edit_steps.specs.Schedule.{ListsEachOnce, IsAllowed};
ghost use Rattle.edit_steps.specs.OrderRefusal.{OrderRefuses};
ghost use Rattle.edit_steps.specs.inner.Followers.{AreIndices, Keeps, HasLinksBelow};

mod document_order;
mod followers;
mod gap_table;
mod order_error;
mod waiting;
mod waits;

use crate::order::followers::Followers;
pub use document_order::default_order;
use edit_change::{Change, Fate};
pub use order_error::OrderError;
use std::alloc::{AllocError, Global};
pub(crate) use waiting::Waiting;

fn are_dropped(alloc: Global, fates: &[Fate]) -> Result<Vec<bool>, AllocError>
    ensures { IfOk result (λ v. v.items ≡ map is_dropped_in fates.now) }
{
    fates.iter().map(|fate| fate.is_dropped()).collect(alloc)
}

fn all_are_met(met: &[bool]) -> bool
    ensures { result ≡ list_all (λ b. b) met.now }
{
    met.iter().all(|is_met| *is_met)
}

// Whether an order has each change once that is not dropped, and no other number.
fn lists_each_once(
    alloc: Global,
    changes: &[Change],
    fates: &[Fate],
    order: &[usize],
) -> Result<bool, AllocError>
    requires { fates.now ≡ map (fate changes.now) changes.now }
    ensures { IfOk result (λ b. IsTrue b ↔ ListsEachOnce changes.now order.now) }
{
    // What is dropped need not be met.
    let mut met = are_dropped(alloc, fates)?;
    for number in order {
        match met.get(*number) {
            Some(false) => met[*number] = true,
            Some(true) => return Ok(false),
            None => return Ok(false),
        }
    }
    Ok(all_are_met(&met))
}

// Where each number below this count stands in an order; the length of the order where it is missing. Goes from the last
// index to the first, so that the first one stays.
fn indices(alloc: Global, count: usize, order: &[usize]) -> Result<Vec<usize>, AllocError>
    ensures { IfOk result (λ v. AreIndices order.now count v.items) }
{
    let mut indices = vec![in alloc; order.len(); count]?;
    for index in (0..order.len()).rev() {
        let number = order[index];
        if number < count {
            indices[number] = index;
        }
    }
    Ok(indices)
}

// Whether each change stands before the one that has to wait for it.
fn keeps(indices: &[usize], links: &[Option<usize>]) -> bool
    requires long { length links.now ≤ length indices.now }
    requires within { HasLinksBelow (length indices.now) links.now }
    ensures { IsTrue result ↔ Keeps indices.now links.now }
{
    for (number, link) in links.iter().enumerate() {
        if let Some(after) = *link {
            if indices[after] <= indices[number] {
                return false;
            }
        }
    }
    true
}

/// Whether changes may be carried out in this order, one at a time: it has each change that is not dropped exactly once
/// and nothing else, a change before its owner, inserts of one gap from the last recorded to the first, and an insert
/// after a token before what replaces the token.
///
/// Each refusal but `Memory`, which may come at any time, is given exactly where its clause does not hold, and all those
/// before it do. No two changes clash, and `fates` has what becomes of each. Takes time near linear in the order and in the paths of the
/// changes.
pub fn check(
    alloc: Global,
    changes: &[Change],
    fates: &[Fate],
    order: &[usize],
) -> Result<(), OrderError>
    requires fit { All FitsSome changes.now }
    requires apart { first_clash changes.now ≡ None }
    requires fates { fates.now ≡ map (fate changes.now) changes.now }
    ensures ok { OnOk result (IsAllowed changes.now order.now) }
    ensures refused { IfErr result (OrderRefuses changes.now order.now) }
{
    if !lists_each_once(alloc, changes, fates, order)? {
        return Err(OrderError::NotEachOnce);
    }
    let indices = indices(alloc, changes.len(), order)?;
    let followers = Followers::of(alloc, changes, fates)?;
    if !keeps(&indices, &followers.owner) {
        return Err(OrderError::OwnerTooEarly);
    }
    if !keeps(&indices, &followers.next_in_gap) {
        return Err(OrderError::GapOutOfOrder);
    }
    if !keeps(&indices, &followers.replacement) {
        return Err(OrderError::TokenTooEarly);
    }
    Ok(())
}
