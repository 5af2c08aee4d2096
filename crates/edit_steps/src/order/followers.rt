//! `Followers`: which change waits for which, at most one for each of three reasons: its owner, the insert before it in its
//! gap, the replacement of the token that it follows.

ghost use Rattle.std.specs.Prelude.{◌≡◌, ◌<◌, None, List, map, length, slice_get, option_map, All, IfOk};
ghost use Rattle.edit_change.specs.inner.Fate.{fate};
ghost use Rattle.edit_change.specs.Nesting.{first_clash};
ghost use Rattle.edit_change.specs.declared.change.Change.{Change};
ghost use Rattle.edit_change.specs.inner.Aimed.{aims_of};
ghost use Rattle.edit_change.specs.inner.DocumentOrder.{FitsSome, AreSorted};
ghost use Rattle.edit_steps.specs.Schedule.{token_before, anchor_token};
ghost use Rattle.edit_steps.specs.inner.Followers.{owner_link, gap_link, token_link, StartsAtToken, IsLinked, AreFollowers};

use crate::order::gap_table::GapTable;
use cst_core::SyntaxElement;
use edit_change::{Aimed, Change, Fate, Position, sorted_aims, starting_at};
use std::alloc::{AllocError, Global};

/// Of each change, by its number, the changes that have to wait for it: at most one for each reason. A dropped change has
/// none.
#[derive(Drop)]
pub(crate) struct Followers {
    /// Its owner.
    pub(crate) owner: Vec<Option<usize>>,
    /// The insert before it in the same gap.
    pub(crate) next_in_gap: Vec<Option<usize>>,
    /// What replaces the token that it stands after.
    pub(crate) replacement: Vec<Option<usize>>,
}

// The token that a position is after.
fn token_before(position: &Position) -> Option<&[usize]>
    ensures { option_map (λ p. p.now) result ≡ token_before position.now }
{
    match position.after_of() {
        Some(SyntaxElement::Token(token)) => Some(token.slots()),
        Some(SyntaxElement::Node(_)) => None,
        None => None,
    }
}

// The token that an insert stands after.
fn anchor_token(change: &Change) -> Option<&[usize]>
    ensures { option_map (λ p. p.now) result ≡ anchor_token change.now }
{
    match change {
        Change::Insert(position, _) => token_before(position),
        Change::InsertAll(position, _) => token_before(position),
        Change::Replace(_, _) => None,
        Change::ReplaceWithMany(_, _) => None,
        Change::ReplaceAll(_, _, _) => None,
    }
}

fn owners(
    alloc: Global,
    changes: &[Change],
    fates: &[Fate],
) -> Result<Vec<Option<usize>>, AllocError>
    requires { fates.now ≡ map (fate changes.now) changes.now }
    ensures { IfOk result (λ v. IsLinked (owner_link changes.now) changes.now v.items) }
{
    fates.iter().map(|fate| fate.owner()).collect(alloc)
}

// Goes from the first change to the last, so that the table has the last insert of each gap so far.
fn next_in_gaps(
    alloc: Global,
    changes: &[Change],
    fates: &[Fate],
) -> Result<Vec<Option<usize>>, AllocError>
    requires { fates.now ≡ map (fate changes.now) changes.now }
    ensures { IfOk result (λ v. IsLinked (gap_link changes.now) changes.now v.items) }
{
    let mut seen = GapTable::new(alloc);
    let mut links = vec![in alloc; None; changes.len()]?;
    for (number, change) in changes.iter().enumerate() {
        if !fates[number].is_dropped() {
            links[number] = seen.put(alloc, change, number)?;
        }
    }
    Ok(links)
}

// What replaces from the token on that a change stands after.
fn replacement(aims: &[Aimed<'_>], change: &Change) -> Option<usize>
    ensures { (cs : List Change) → AreSorted cs (aims_of aims.now) → All FitsSome cs
        → StartsAtToken cs (anchor_token change.now) result }
{
    match anchor_token(change) {
        Some(token) => starting_at(aims, token),
        None => None,
    }
}

// A range that is replaced over a token drops what stands after it. So for what is left the replacement begins there.
fn replacements(
    alloc: Global,
    aims: &[Aimed<'_>],
    changes: &[Change],
    fates: &[Fate],
) -> Result<Vec<Option<usize>>, AllocError>
    requires fit { All FitsSome changes.now }
    requires apart { first_clash changes.now ≡ None }
    requires sorted { AreSorted changes.now (aims_of aims.now) }
    requires fates { fates.now ≡ map (fate changes.now) changes.now }
    ensures { IfOk result (λ v. IsLinked (token_link changes.now) changes.now v.items) }
{
    let mut links = Vec::with_capacity(alloc, changes.len())?;
    for (number, change) in changes.iter().enumerate() {
        let link = if fates[number].is_dropped() {
            None
        } else {
            replacement(aims, change)
        };
        links.push(link)?;
    }
    Ok(links)
}

impl Followers {
    pub(crate) fn of(
        alloc: Global,
        changes: &[Change],
        fates: &[Fate],
    ) -> Result<Followers, AllocError>
        requires fit { All FitsSome changes.now }
        requires apart { first_clash changes.now ≡ None }
        requires fates { fates.now ≡ map (fate changes.now) changes.now }
        ensures { IfOk result (AreFollowers changes.now) }
    {
        let aims = sorted_aims(alloc, &[], changes)?;
        Ok(Followers {
            owner: owners(alloc, changes, fates)?,
            next_in_gap: next_in_gaps(alloc, changes, fates)?,
            replacement: replacements(alloc, &aims, changes, fates)?,
        })
    }
}
