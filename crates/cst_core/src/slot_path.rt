//! `SlotPath`: the slots on the way to an element. Up to three take no memory of their own. `Location` holds one.

ghost use Rattle.std.specs.Prelude.{◌≡◌, [], ◌∷◌, ◌++◌, IfOk, IfSome};
ghost use Rattle.cst_core.specs.inner.SlotPath.{slots_of};

use std::alloc::{AllocError, Global};

// The child slots on the way to an element. Up to three take no memory of their own: they fit where the other variant has its vector.
pub(crate) enum SlotPath {
    Empty,
    One([usize; 1]),
    Two([usize; 2]),
    Three([usize; 3]),
    Long(Vec<usize>),
}

// A drop of its own, so that who drops an element makes one call, whatever the variant.
impl Drop for SlotPath {
    fn drop(self) {
        match self {
            SlotPath::Empty => (),
            SlotPath::One(_) => (),
            SlotPath::Two(_) => (),
            SlotPath::Three(_) => (),
            SlotPath::Long(slots) => drop(slots),
        }
    }
}

// The path of these slots, if they take no memory of their own.
fn short(slots: &[usize]) -> Option<SlotPath>
    ensures { IfSome result (λ p. slots_of p ≡ slots.now) }
{
    match slots {
        [] => Some(SlotPath::Empty),
        [a] => Some(SlotPath::One([*a])),
        [a, b] => Some(SlotPath::Two([*a, *b])),
        [a, b, c] => Some(SlotPath::Three([*a, *b, *c])),
        _ => None,
    }
}

// The path of all these slots, those of the first list before those of the second.
fn long(alloc: Global, above: &[usize], below: &[usize]) -> Result<SlotPath, AllocError>
    ensures { IfOk result (λ p. slots_of p ≡ above.now ++ below.now) }
{
    let mut all = Vec::with_capacity(alloc, above.len() + below.len())?;
    all.extend_from_slice(above)?;
    all.extend_from_slice(below)?;
    Ok(SlotPath::Long(all))
}

impl SlotPath {
    // A copy of these slots.
    pub(crate) fn copied(alloc: Global, slots: &[usize]) -> Result<SlotPath, AllocError>
        ensures { IfOk result (λ p. slots_of p ≡ slots.now) }
    {
        match short(slots) {
            Some(path) => Ok(path),
            None => Ok(SlotPath::Long(Vec::from_slice(alloc, slots)?)),
        }
    }

    // The slots of a vector, which is taken over where they need one.
    pub(crate) fn of(slots: Vec<usize>) -> SlotPath
        ensures { slots_of result ≡ slots.items }
    {
        match short(&slots) {
            Some(path) => path,
            None => SlotPath::Long(slots),
        }
    }

    // A path with one more slot.
    pub(crate) fn child(alloc: Global, path: &[usize], slot: usize) -> Result<SlotPath, AllocError>
        ensures { IfOk result (λ p. slots_of p ≡ path.now ++ slot ∷ []) }
    {
        match path {
            [] => Ok(SlotPath::One([slot])),
            [a] => Ok(SlotPath::Two([*a, slot])),
            [a, b] => Ok(SlotPath::Three([*a, *b, slot])),
            _ => long(alloc, path, &[slot]),
        }
    }

    // A path, and then a path from there on.
    pub(crate) fn joined(
        alloc: Global,
        above: &[usize],
        below: &[usize],
    ) -> Result<SlotPath, AllocError>
        ensures { IfOk result (λ p. slots_of p ≡ above.now ++ below.now) }
    {
        match below {
            [] => SlotPath::copied(alloc, above),
            [slot] => SlotPath::child(alloc, above, *slot),
            _ => match above {
                [] => SlotPath::copied(alloc, below),
                _ => long(alloc, above, below),
            },
        }
    }

    pub(crate) fn as_slice(&self) -> &[usize]
        ensures { result.now ≡ slots_of self.now }
    {
        match self {
            SlotPath::Empty => &[],
            SlotPath::One(slots) => slots,
            SlotPath::Two(slots) => slots,
            SlotPath::Three(slots) => slots,
            SlotPath::Long(slots) => slots.as_slice(),
        }
    }
}
