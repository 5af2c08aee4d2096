//! `EditPlan`: a root, changes, registrations and a mapping, with what is tested and found out before it is built.

ghost use Rattle.std.specs.Prelude.{◌≡◌, ◌==◌, ◌<◌, [], length, slice_get, option_and_then, false, All, IfOk, IfErr, OnOk};
ghost use Rattle.std.specs.Option.{option_map_or};
ghost use Rattle.edit_change.specs.Fits.{Fits};
ghost use Rattle.edit_change.specs.Nesting.{is_dropped, owner};
ghost use Rattle.edit_plan.specs.Plan.{Plan, IsPlan, BuildRefuses, new_plan};
ghost use Rattle.edit_plan.specs.inner.PlanRun.{IsPlanned, unregistered};

use crate::annotation::SyntaxAnnotation;
use crate::edit_error::EditError;
use crate::places::places;
use cst_core::{SyntaxElement, SyntaxNode};
use edit_change::{Change, Fate, clash_of, fates, numbers, sorted_aims};
use edit_map::SyntaxMapping;
use std::alloc::Global;
use std::marker::Model;

// What is looked up for a plan of changes.
#[derive(Drop)]
struct Prepared {
    // The numbers of the changes, in document order.
    order: Vec<usize>,
    // What becomes of each change.
    fates: Vec<Fate>,
    // The place of each owner's target in its payload.
    places: Vec<Option<Vec<usize>>>,
}

// Tests what a plan of these changes of the tree with this root is refused for, and looks up what it keeps. All three are
// borrowed, and nothing of them is copied.
//
// `Intersecting` comes first, then `MissingMapping`; `Memory` may come at any time.
fn prepare(
    alloc: Global,
    root: &SyntaxNode,
    changes: &[Change],
    mapping: &SyntaxMapping,
) -> Result<Prepared, EditError>
    requires is_root { root.now.path ≡ [] }
    requires fit { All (Fits root.now) changes.now }
    ensures planned { let plan = unregistered root.now changes.now mapping.now in
        IfOk result (λ x. IsPlanned plan x.order.items x.fates.items x.places.items) }
    ensures refused { IfErr result (BuildRefuses (unregistered root.now changes.now mapping.now)) }
{
    // For the proof: what is true of every node.
    let _ = root.kind();
    // For the proof: what is true of every mapping.
    let _ = mapping.len();
    let aims = sorted_aims(alloc, &[], changes)?;
    if let Some((first, second)) = clash_of(alloc, &aims, &[], changes)? {
        return Err(EditError::Intersecting { first, second });
    }
    let fates = fates(alloc, &aims, changes)?;
    let places = places(alloc, changes, &fates, mapping)?;
    Ok(Prepared {
        order: numbers(alloc, &aims)?,
        fates,
        places,
    })
}

/// The changes of a tree, looked through and ready to be carried out.
pub struct EditPlan {
    pub(crate) root: SyntaxNode,
    pub(crate) changes: Vec<Change>,
    // The elements that are registered with annotations, in order.
    pub(crate) registrations: Vec<(SyntaxElement, SyntaxAnnotation)>,
    pub(crate) mapping: SyntaxMapping,
    // The numbers of the changes, in document order.
    pub(crate) order: Vec<usize>,
    // What becomes of each change.
    pub(crate) fates: Vec<Fate>,
    // The place of each owner's target in its payload.
    pub(crate) places: Vec<Option<Vec<usize>>>,
}

// One call lets a value go, not one for each field.
impl Drop for EditPlan {
    fn drop(self) {
        let EditPlan {
            root: _,
            changes: _,
            registrations: _,
            mapping: _,
            order: _,
            fates: _,
            places: _,
        } = self;
    }
}

impl Model for EditPlan {
    ghost use Rattle.edit_plan.specs.Plan.{Plan, new_plan};
    ghost use Rattle.edit_plan.specs.inner.Codes.{plan_code};
    ghost use Rattle.edit_plan.specs.inner.PlanRun.{IsPlanKept};

    ghost Value = { Plan };

    ghost coded = { plan_code };

    ghost view = { λ a. new_plan a.root a.changes a.registrations a.mapping };

    ghost invariant = { λ a. IsPlanKept a.root a.changes a.registrations a.mapping a.order a.fates a.places };
}

impl EditPlan {
    /// A plan of these changes of the tree with this root, where the mapping tells which node is the copy of which. The
    /// registrations are kept, and nothing is asked of them: their elements may be of any tree.
    ///
    /// `Intersecting` comes first, then `MissingMapping`; `Memory` may come at any time. Nothing is handed back then. Takes time
    /// near linear in the changes: for each one, the slots of all paths on the way to it, and the elements of its range; and for
    /// each owner the way up from its target to its payload.
    pub fn build(
        alloc: Global,
        root: SyntaxNode,
        changes: Vec<Change>,
        registrations: Vec<(SyntaxElement, SyntaxAnnotation)>,
        mapping: SyntaxMapping,
    ) -> Result<EditPlan, EditError>
        requires is_root { root.path ≡ [] }
        requires fit { All (Fits root) changes.items }
        ensures ok { IfOk result (λ p. p ≡ new_plan root changes registrations mapping) }
        ensures planned { IfOk result IsPlan }
        ensures refused { IfErr result (BuildRefuses (new_plan root changes registrations mapping)) }
    {
        let Prepared {
            order,
            fates,
            places,
        } = prepare(alloc, &root, &changes, &mapping)?;
        Ok(EditPlan {
            root,
            changes,
            registrations,
            mapping,
            order,
            fates,
            places,
        })
    }

    /// Tests whether `build` would refuse these, of which nothing is taken: `Ok` where they make a plan, with any registrations.
    ///
    /// `Intersecting` comes first, then `MissingMapping`, as in `build`; `Memory` may come at any time. Takes the time of `build`.
    pub fn check(
        alloc: Global,
        root: &SyntaxNode,
        changes: &[Change],
        mapping: &SyntaxMapping,
    ) -> Result<(), EditError>
        requires is_root { root.now.path ≡ [] }
        requires fit { All (Fits root.now) changes.now }
        ensures planned { let plan : Plan =
            record { root = root.now; changes = changes.now; registrations = []; mapping = mapping.now } in
            OnOk result (IsPlan plan) }
        ensures refused { let plan : Plan =
            record { root = root.now; changes = changes.now; registrations = []; mapping = mapping.now } in
            IfErr result (BuildRefuses plan) }
    {
        prepare(alloc, root, changes, mapping)?;
        Ok(())
    }

    /// How many changes there are.
    pub fn len(&self) -> usize
        ensures count { result ≡ length self.now.changes }
        ensures planned { IsPlan self.now }
    {
        self.changes.len()
    }

    /// Whether there are no changes.
    pub fn is_empty(&self) -> bool
        ensures { result ≡ (length self.now.changes == 0) }
    {
        self.changes.is_empty()
    }

    /// The changes, in the order of their numbers.
    pub fn changes(&self) -> &[Change]
        ensures { result.now ≡ self.now.changes }
    {
        self.changes.as_slice()
    }

    /// Whether a change lies in what another one takes away.
    pub fn is_dropped(&self, change: usize) -> bool
        requires { change < length self.now.changes }
        ensures { result ≡ option_map_or (is_dropped self.now.changes) (slice_get self.now.changes change) false }
    {
        self.fates[change].is_dropped()
    }

    /// The replacement of a node by a node that a change moves along with: the one with the deepest region around the change. A
    /// dropped change has none.
    pub fn owner(&self, change: usize) -> Option<usize>
        requires { change < length self.now.changes }
        ensures { result ≡ option_and_then (owner self.now.changes) (slice_get self.now.changes change) }
    {
        self.fates[change].owner()
    }
}
