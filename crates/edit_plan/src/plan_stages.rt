//! The stages of a plan: before anything is done, and after one change more.

ghost use Rattle.std.specs.Prelude.{◌≡◌, true, false, map, slice_set, IfOk, OnOk, OnErr};
ghost use Rattle.edit_steps.specs.inner.Stages.{builds_of, done_in};
ghost use Rattle.edit_plan.specs.Run.{CanStep, CountsStep};
ghost use Rattle.edit_plan.specs.inner.PlanStages.{AgreeOnPlaces, IsRunning, KeepsShapes, run_of};

use crate::plan::EditPlan;
use edit_change::{numbered_aim_from, owner_of, staged_path};
use edit_map::laws::{pairs_rise, place_is_unique, place_keeps_the_shape};
use edit_steps::Stages;
use std::alloc::{AllocError, Global};

impl EditPlan {
    // The stages of the plan in which nothing is done.
    pub(crate) fn stages(&self, alloc: Global) -> Result<Stages, AllocError>
        ensures running { IfOk result (IsRunning self.now) }
        ensures none_done { IfOk result (λ s. done_in s ≡ map (λ c. false) self.now.changes) }
        ensures none_built { IfOk result (λ s. builds_of s ≡ 0) }
    {
        Stages::new(alloc, &self.root, &self.changes, &self.fates)
    }

    // Any two tables of places agree on the owners of changes.
    pub(crate) fn agree_on_places(&self)
        ensures { AgreeOnPlaces self.now }
    {
        // For the proof: what is true of every plan.
        let _ = &self.root;
        place_is_unique();
        pairs_rise();
    }

    // At its place in the payload an owner's target has its shape.
    pub(crate) fn keep_shapes(&self)
        ensures { KeepsShapes self.now }
    {
        // For the proof: what is true of every plan.
        let _ = &self.root;
        place_keeps_the_shape();
    }

    // Carries out one change more.
    pub(crate) fn carry_out(
        &self,
        alloc: Global,
        stages: &mut Stages,
        change: usize,
    ) -> Result<(), AllocError>
        requires running { IsRunning self.now stages.old }
        requires ready { CanStep (run_of self.now stages.old) change }
        ensures running { IsRunning self.now stages.new }
        ensures list { OnOk result (done_in stages.new ≡ slice_set (done_in stages.old) change true) }
        ensures count { OnOk result (CountsStep (run_of self.now stages.old) change (builds_of stages.new)) }
        ensures refused_list { OnErr result (done_in stages.new ≡ done_in stages.old) }
        ensures refused_count { OnErr result (builds_of stages.new ≡ builds_of stages.old) }
    {
        // For the proof: any two tables of places agree.
        self.agree_on_places();
        // For the proof: a target keeps its shape.
        self.keep_shapes();
        let owner = owner_of(&self.changes, &self.fates, change);
        let path = staged_path(alloc, &self.changes, &self.places, change, owner)?;
        let aim = numbered_aim_from(&self.changes[change], change, &path);
        stages.step(alloc, &self.changes, change, owner, &aim)
    }
}
