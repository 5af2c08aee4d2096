//! The changes of a list in document order: a gap before its slot, what is inside an element after what replaces it.

ghost use Rattle.std.specs.Prelude.{◌≡◌, ◌<◌, ◌+◌, ◌++◌, List, length, slice_get, Some, All, IfOk};
ghost use Rattle.std.specs.List.{enumerate_from};
ghost use Rattle.edit_change.specs.NewTree.{change_aims};
ghost use Rattle.edit_change.specs.inner.Aimed.{aims_of};
ghost use Rattle.edit_change.specs.inner.DocumentOrder.{FitsSome, AreSorted, StartsThere, IsDocumentOrder};
ghost use Rattle.edit_change.specs.declared.change.Change.{Change};

use crate::aimed::{AimForm, Aimed};
use crate::change::Change;
use crate::change_aims::numbered_aim;
use std::alloc::{AllocError, Global};

// The change with this number, where those of the second list are numbered on from those of the first one.
pub(crate) fn change_in_both<'a>(
    own: &'a [Change],
    other: &'a [Change],
    number: usize,
) -> &'a Change
    requires { number < length own.now + length other.now }
    ensures { slice_get (own.now ++ other.now) number ≡ Some result.now }
{
    if number < own.len() {
        &own[number]
    } else {
        &other[number - own.len()]
    }
}

/// Where each change aims, in document order; inserts of one gap as they were recorded. The changes are those of two lists, which are
/// numbered on from the first one to the second.
///
/// Takes O(n log n) comparisons, and O(n) where the changes were recorded in this order or from the last to the first.
pub fn sorted_aims<'a>(
    alloc: Global,
    own: &'a [Change],
    other: &'a [Change],
) -> Result<Vec<Aimed<'a>>, AllocError>
    requires { All FitsSome (own.now ++ other.now) }
    ensures { IfOk result (λ v. AreSorted (own.now ++ other.now) (aims_of v.items)) }
{
    let count = own.len() + other.len();
    let mut aims = Vec::with_capacity(alloc, count)?;
    for number in 0..count {
        aims.push(numbered_aim(change_in_both(own, other, number), number))?;
    }
    aims.sort_by(|one: &Aimed<'_>, two: &Aimed<'_>| one.compare(two))?;
    Ok(aims)
}

/// The change that replaces from this path on, if there is one. `aims` has where all changes aim, in document order.
pub fn starting_at(aims: &[Aimed<'_>], path: &[usize]) -> Option<usize>
    ensures { (cs : List Change) → AreSorted cs (aims_of aims.now) → All FitsSome cs → StartsThere cs path.now result }
{
    let wanted = Aimed {
        change: 0,
        path,
        form: AimForm::Over(1),
    };
    match aims.binary_search_by(|aim| aim.compare_sites(&wanted)) {
        Ok(index) => Some(aims[index].change),
        Err(_) => None,
    }
}

/// The numbers of the changes that aim so: of sorted aims, a document order.
pub fn numbers(alloc: Global, aims: &[Aimed<'_>]) -> Result<Vec<usize>, AllocError>
    ensures { (cs : List Change) → AreSorted cs (aims_of aims.now) → IfOk result (λ v. IsDocumentOrder cs v.items) }
{
    aims.iter().map(|aim| aim.change).collect(alloc)
}
