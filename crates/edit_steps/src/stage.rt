//! `Stage`: an element while it is edited, that is the old one, the one that stands now, and the aims that are done.

ghost use Rattle.std.specs.Prelude.{◌≡◌, ℕ, List, [], IfOk, OnOk, OnErr};
ghost use Rattle.green_tree.specs.Tree.{SyntaxTree};
ghost use Rattle.green_tree.specs.GreenElement.{element_tree, element_trees};
ghost use Rattle.edit_change.specs.inner.Aimed.{numbered};
ghost use Rattle.edit_steps.specs.inner.Stage.{old_tree, present_tree, IsStage, StageCanStep, StageTakesStep, StageStaysAs, StageCountsStep};

mod aim_target;
mod among;
mod place;
mod visited;

use crate::stage::aim_target::AimTarget;
use crate::stage::place::place_of;
use crate::stage::visited::VisitedNodes;
use edit_change::Aimed;
use green_tree::{GreenElement, splice_at};
use std::alloc::{AllocError, Global};

/// An element with some changes carried out, one at a time.
///
/// It keeps the old element, the element as it stands now, and of the nodes of the old one to which steps came how much stands in the places
/// of their children. So a later step finds where it goes by one look at each node on its way, in whatever order the steps came.
pub struct Stage {
    original: GreenElement,
    current: GreenElement,
    visited: VisitedNodes,
}

// One call lets a value go, not one for each field.
impl Drop for Stage {
    fn drop(self) {
        let Stage {
            original: _,
            current: _,
            visited: _,
        } = self;
    }
}

impl Stage {
    /// The element itself, of which nothing is done.
    pub fn new(alloc: Global, element: GreenElement) -> Result<Stage, AllocError>
        ensures old { IfOk result (λ s. old_tree s ≡ element_tree element) }
        ensures stage { IfOk result (λ s. (given : ℕ → List SyntaxTree) → IsStage given [] s) }
    {
        Ok(Stage {
            original: element.share(alloc)?,
            current: element,
            visited: VisitedNodes::new(alloc)?,
        })
    }

    /// The element as it stands now.
    pub fn element(&self) -> &GreenElement
        ensures { element_tree result.now ≡ present_tree self.now }
    {
        &self.current
    }

    /// Carries out one change more: what it gives goes first into its gap, or stands for what it replaces.
    ///
    /// The aim is one in the old element, and has a number of its own. Where its node, its gap or its first slot is not there, nothing
    /// changes, and of a range only what is there is replaced. `builds` rises by the nodes that change, up to its greatest number: the
    /// node whose children change, and those above it. `splice_at` counts each where it changes it or makes it anew; the ones that nobody
    /// else holds are changed in place. After a refusal the stage and the count are as they were.
    pub fn step(
        &mut self,
        alloc: Global,
        aim: &Aimed,
        given: Vec<GreenElement>,
        builds: &mut u64,
    ) -> Result<(), AllocError>
        requires { StageCanStep self.old (numbered aim.now) }
        ensures old { old_tree self.new ≡ old_tree self.old }
        ensures done { OnOk result (StageTakesStep self.old self.new (numbered aim.now) (element_trees given.items)) }
        ensures count { OnOk result (StageCountsStep self.old (numbered aim.now) builds.old builds.new) }
        ensures refused { OnErr result (StageStaysAs self.old self.new) }
        ensures refused_count { OnErr result (builds.new ≡ builds.old) }
    {
        // For the proof: the count is one of the numbers of code.
        let _count = *builds;
        let Some(target) = AimTarget::of(&self.original, aim) else {
            return Ok(());
        };
        let width = given.len();
        let place = place_of(alloc, &mut self.visited, &self.current, &target)?;
        self.visited.reserve(place.node, target.at)?;
        let GreenElement::Node(top) = &mut self.current else {
            unreachable!()
        };
        splice_at(
            alloc,
            top,
            &place.path,
            place.first,
            target.at.count(),
            given,
            builds,
        )?;
        self.visited.put(place.node, target.at, width);
        Ok(())
    }
}
