//! Where an aim stands, as it is seen from a node whose children are made anew.

ghost use Rattle.std.specs.Prelude.{◌≡◌, ◌≤◌, ◌<◌, ◌+◌, length};
ghost use Rattle.one_pass.specs.inner.Sweep.{lowered, IsSite, BelowUpTo, EndsBelow};

use crate::mark::path_from;
use edit_change::{AimForm, Aimed};
use std::alloc::{AllocError, Global};

/// Where what is due to an aim stands among the children of a node.
#[derive(Clone, Copy)]
pub enum Site {
    /// In a gap.
    Gap(usize),
    /// In the place of some children: the first of them, and how many there are.
    Slots(usize, usize),
    /// Inside a child.
    Below(usize),
    /// Nowhere: the aim alters nothing, or the node has no such child.
    Nowhere,
}

/// Where an aim stands among so many children of the node at a depth.
pub fn site_of(aim: &Aimed, depth: usize, count: usize) -> Site
    ensures { IsSite count (lowered depth aim.now) result }
{
    let aim = Aimed {
        path: path_from(aim.path, depth),
        ..*aim
    };
    if !aim.has_parent() {
        return Site::Nowhere;
    }
    let [slot, inner @ ..] = aim.path else {
        return Site::Gap(0);
    };
    if *slot >= count {
        return Site::Nowhere;
    }
    if !inner.is_empty() {
        return Site::Below(*slot);
    }
    match aim.form {
        AimForm::FirstIn => Site::Below(*slot),
        AimForm::AfterElement => Site::Gap(*slot + 1),
        AimForm::Over(count) => Site::Slots(*slot, count),
    }
}

/// The depth of a child, where an aim's path leads on from its parent.
pub fn one_deeper(aim: &Aimed, depth: usize) -> usize
    requires { depth < length aim.now.path.now }
    ensures { result ≡ depth + 1 }
{
    let slots = aim.path.len();
    slots.min(depth + 1)
}

/// How many aims there are inside a child, of so many, before the first one that is not.
pub fn run_inside(aims: &[Aimed], depth: usize, slot: usize, count: usize) -> usize
    requires { slot < count }
    ensures within { result ≤ length aims.now }
    ensures inside { BelowUpTo depth slot aims.now result }
    ensures end { EndsBelow depth slot aims.now result }
{
    for end in 0..aims.len() {
        let Site::Below(below) = site_of(&aims[end], depth, count) else {
            return end;
        };
        if below != slot {
            return end;
        }
    }
    aims.len()
}
