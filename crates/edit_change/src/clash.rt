//! Which two changes share a target: a sweep over their aims says whether any two do, and only where two do the first are looked for.

ghost use Rattle.std.specs.Prelude.{◌≡◌, ◌++◌, List, All, IfOk};
ghost use Rattle.edit_change.specs.Nesting.{first_clash};
ghost use Rattle.edit_change.specs.declared.change.Change.{Change};
ghost use Rattle.edit_change.specs.inner.Aimed.{aims_of};
ghost use Rattle.edit_change.specs.inner.Clash.{ClashesBelow};
ghost use Rattle.edit_change.specs.inner.DocumentOrder.{FitsSome, AreSorted};

use crate::aimed::{Aimed, close};
use crate::change::Change;
use crate::change_aims::numbered_aim;
use crate::order::{change_in_both, sorted_aims};
use std::alloc::{AllocError, Global};

// Whether two of the aims with numbers below this one share a target. If some of those that are open share one with the next aim in
// document order, the last of them does.
fn has_clash(alloc: Global, aims: &[Aimed<'_>], below: usize) -> Result<bool, AllocError>
    ensures { (cs : List Change) → AreSorted cs (aims_of aims.now) → IfOk result (ClashesBelow cs below) }
{
    let mut open: Vec<Aimed<'_>> = Vec::new(alloc);
    for aim in aims {
        if aim.change < below && aim.is_over() {
            close(&mut open, Some(aim.path));
            let shared = match open.last() {
                Some(last) => last.shares(aim),
                None => false,
            };
            if shared {
                return Ok(true);
            }
            open.push(*aim)?;
        }
    }
    Ok(false)
}

/// The first two changes with a target in common, by the second and then by the first, of two lists that are numbered on from the
/// first one to the second. `aims` has where they aim, in document order. Nothing is copied.
///
/// Refused for memory alone. Takes time near linear in the changes, and with two such changes O(n log n).
pub fn clash_of(
    alloc: Global,
    aims: &[Aimed<'_>],
    own: &[Change],
    other: &[Change],
) -> Result<Option<(usize, usize)>, AllocError>
    requires fit { All FitsSome (own.now ++ other.now) }
    requires sorted { AreSorted (own.now ++ other.now) (aims_of aims.now) }
    ensures { IfOk result (λ o. o ≡ first_clash (own.now ++ other.now)) }
{
    let count = own.len() + other.len();
    if !has_clash(alloc, aims, count)? {
        return Ok(None);
    }
    // Whether two changes below a number clash does not change back, so the second one of the first two is halved in on.
    let mut second = 0;
    let mut high = count;
    while high - second > 1 {
        let middle = second + (high - second) / 2;
        if has_clash(alloc, aims, middle)? {
            high = middle;
        } else {
            second = middle;
        }
    }
    let aim = numbered_aim(change_in_both(own, other, second), second);
    for first in 0..second {
        if numbered_aim(change_in_both(own, other, first), first).shares(&aim) {
            return Ok(Some((first, second)));
        }
    }
    unreachable!()
}

/// The same of changes that are not sorted yet.
pub fn first_clash(
    alloc: Global,
    own: &[Change],
    other: &[Change],
) -> Result<Option<(usize, usize)>, AllocError>
    requires { All FitsSome (own.now ++ other.now) }
    ensures { IfOk result (λ o. o ≡ first_clash (own.now ++ other.now)) }
{
    let aims = sorted_aims(alloc, own, other)?;
    clash_of(alloc, &aims, own, other)
}
