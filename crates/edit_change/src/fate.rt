//! `Fate`: what becomes of a change in a plan, by the regions of others around it.

ghost use Rattle.std.specs.Prelude.{◌≡◌, ◌<◌, [], cond, length, map, option_map, None, All, IfOk, IfSome};
ghost use Rattle.std.specs.Option.{option_map_or};
ghost use Rattle.cst_core.specs.Element.{Element};
ghost use Rattle.cst_core.specs.Path.{up_to};
ghost use Rattle.edit_change.specs.Change.{targets};
ghost use Rattle.edit_change.specs.Fits.{Fits};
ghost use Rattle.edit_change.specs.Nesting.{first_clash, region, surroundings};
ghost use Rattle.edit_change.specs.inner.Aimed.{numbered, aims_of};
ghost use Rattle.edit_change.specs.inner.DocumentOrder.{AreSorted};
ghost use Rattle.edit_change.specs.inner.Fate.{owner_in, is_dropped_in, fate};
ghost use Rattle.edit_change.specs.inner.Open.{inside_last};

use crate::aimed::{Aimed, close};
use crate::change::Change;
use cst_core::SyntaxElement;
use std::alloc::{AllocError, Global};

/// What becomes of a change in a plan.
#[derive(Clone, Copy)]
pub enum Fate {
    /// No region is around it: it is carried out on the tree.
    Independent,
    /// It lies in what another change takes away.
    Dropped,
    /// It lies in a node which this change replaces by a node, and moves along.
    Owned(usize),
}

impl Fate {
    /// Whether the change is not carried out.
    pub fn is_dropped(self) -> bool
        ensures { result ≡ is_dropped_in self }
    {
        match self {
            Fate::Independent => false,
            Fate::Dropped => true,
            Fate::Owned(_) => false,
        }
    }

    /// The number of the change that this one moves along with; `None` where it is carried out on the tree, or dropped.
    pub fn owner(self) -> Option<usize>
        ensures { result ≡ owner_in self }
    {
        match self {
            Fate::Independent => None,
            Fate::Dropped => None,
            Fate::Owned(owner) => Some(owner),
        }
    }
}

impl Change {
    /// Whether what it replaces is a region, of which the insides are taken away or move along. A replaced token alone is none.
    pub(crate) fn has_region(&self) -> bool
        ensures { region self.now ≡ cond result (targets self.now) [] }
    {
        match self {
            Change::Insert(_, _) => false,
            Change::InsertAll(_, _) => false,
            Change::Replace(SyntaxElement::Node(_), _) => true,
            Change::Replace(SyntaxElement::Token(_), _) => false,
            Change::ReplaceWithMany(SyntaxElement::Node(_), _) => true,
            Change::ReplaceWithMany(SyntaxElement::Token(_), _) => false,
            Change::ReplaceAll(_, _, _) => true,
        }
    }

    /// The innermost element that lies around where the change aims.
    pub(crate) fn innermost(&self) -> Option<&[usize]>
        ensures { option_map_or (λ p. up_to p.now) result [] ≡ surroundings self.now }
    {
        let target = match self {
            Change::Insert(position, _) => return Some(position.anchor()),
            Change::InsertAll(position, _) => return Some(position.anchor()),
            Change::Replace(target, _) => target.slots(),
            Change::ReplaceWithMany(target, _) => target.slots(),
            Change::ReplaceAll(first, _, _) => first.slots(),
        };
        let (_, parent) = target.split_last()?;
        Some(parent)
    }
}

// The fate of what lies in the region of this aim's change and in no deeper one; in no region, if there is none. It moves along where a node
// is replaced by a node.
fn fate_inside(changes: &[Change], fates: &[Fate], region: Option<&Aimed<'_>>) -> Fate
    requires there { IfSome region (λ a. a.now.change < length changes.now) }
    requires told { length fates.now ≡ length changes.now }
    ensures { result ≡ inside_last changes.now fates.now (option_map (λ a. numbered a.now) region.entry) }
{
    let Some(region) = region else {
        return Fate::Independent;
    };
    let number = region.change;
    let Change::Replace(SyntaxElement::Node(_), Some(SyntaxElement::Node(_))) = &changes[number]
    else {
        return Fate::Dropped;
    };
    match fates[number] {
        Fate::Independent => Fate::Owned(number),
        Fate::Dropped => Fate::Dropped,
        Fate::Owned(_) => Fate::Owned(number),
    }
}

/// What becomes of each change, by its number; no two of them clash. `aims` has where they aim, in document order.
///
/// Takes time near linear in the changes and the lengths of their paths: each region is opened once, and closed once.
pub fn fates(alloc: Global, aims: &[Aimed<'_>], changes: &[Change]) -> Result<Vec<Fate>, AllocError>
    requires fit { (root : Element) × All (Fits root) changes.now }
    requires apart { first_clash changes.now ≡ None }
    requires sorted { AreSorted changes.now (aims_of aims.now) }
    ensures { IfOk result (λ v. v.items ≡ map (fate changes.now) changes.now) }
{
    let mut fates = vec![in alloc; Fate::Independent; changes.len()]?;
    let mut open = Vec::new(alloc);
    for aim in aims {
        let change = &changes[aim.change];
        close(&mut open, change.innermost());
        fates[aim.change] = fate_inside(changes, &fates, open.last());
        if change.has_region() {
            open.push(*aim)?;
        }
    }
    Ok(fates)
}
