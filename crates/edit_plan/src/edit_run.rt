//! A plan carried out one change at a time, in any order that is allowed.

ghost use Rattle.std.specs.Prelude.{◌≡◌, ◌↔◌, ◌+◌, ◌<◌, None, true, slice_set, length, IfOk, IfErr, IfSome, OnOk, OnErr};
ghost use Rattle.cst_core.specs.Green.{branch_tree, length_limit};
ghost use Rattle.cst_core.specs.Tree.{text_length};
ghost use Rattle.edit_steps.specs.Schedule.{is_complete};
ghost use Rattle.edit_plan.specs.Plan.{Makes, RunRefuses};
ghost use Rattle.edit_plan.specs.Engine.{HasRewritten, EngineRefuses, CountsTouched};
ghost use Rattle.edit_plan.specs.Run.{IsRun, new_run, is_done, TellsReady, CanStep, next_ready};
ghost use Rattle.edit_plan.specs.Run.{ShowsTree, ShowsPayload, CountsStep};

use crate::edit::SyntaxEdit;
use crate::edit_error::EditError;
use crate::engine_error::EngineError;
use crate::one_pass_engine::OnePassEngine;
use crate::plan::EditPlan;
use crate::rewritten::Rewritten;
use cst_core::{GreenNode, TreeIds};
use edit_steps::Stages;
use std::alloc::{AllocError, Global};
use std::marker::Model;

/// A plan that is carried out one change at a time.
///
/// It keeps the tree with the changes that are done so far, and for each change that replaces a node by a node the payload with the
/// changes in it that are done. docs/DEFINITIONS.md, 'edit_steps: Schedule', says which change may come when.
#[derive(Drop)]
pub struct EditRun<'a> {
    plan: &'a EditPlan,
    stages: Stages,
}

impl<'a> Model for EditRun<'a> {
    ghost use Rattle.edit_plan.specs.Run.{Run};
    ghost use Rattle.edit_plan.specs.inner.Codes.{run_code};
    ghost use Rattle.edit_steps.specs.inner.Stages.{builds_of, done_in};

    ghost Value = { Run };

    ghost coded = { run_code };

    ghost view = { λ a. record { plan = a.plan.now; done = done_in a.stages; builds = builds_of a.stages } };

    ghost use Rattle.edit_plan.specs.inner.PlanStages.{IsRunning};

    ghost invariant = { λ a. IsRunning a.plan.now a.stages };
}

impl<'a> EditRun<'a> {
    /// A run of this plan in which no change is done yet.
    ///
    /// Takes time near linear in the changes and the paths on the way to them, and none for the tree.
    pub fn new(alloc: Global, plan: &'a EditPlan) -> Result<EditRun<'a>, AllocError>
        ensures { IfOk result (λ r. r ≡ new_run plan.now) }
    {
        Ok(EditRun {
            plan,
            stages: plan.stages(alloc)?,
        })
    }

    /// The plan that is carried out.
    ///
    /// What is done is never dropped, and all that must come before it is done.
    pub fn plan(&self) -> &'a EditPlan
        ensures value { result.now ≡ self.now.plan }
        ensures run { IsRun self.now }
    {
        self.plan
    }

    /// Whether a change may be carried out next: it is not dropped, it is not done yet, and each change that must come before it is
    /// done. Those are the changes that it owns, the inserts of its gap that come after it there, and the inserts after a token that it
    /// replaces.
    pub fn ready(&self, change: usize) -> bool
        requires { change < length self.now.plan.changes }
        ensures { TellsReady self.now change result }
    {
        self.stages.ready(change)
    }

    /// The least change that may be carried out next. `None` where the run is complete, and only there.
    ///
    /// Looks at one change after another, so a run that asks for each of its steps takes time in the square of the changes at the worst;
    /// `EditPlan::default_order` gives all steps at once.
    pub fn next_ready(&self) -> Option<usize>
        ensures least { result ≡ next_ready self.now }
        ensures step { IfSome result (CanStep self.now) }
        ensures none { (result ≡ None) ↔ (is_complete self.now.plan.changes (is_done self.now) ≡ true) }
    {
        for change in 0..self.plan().len() {
            if self.ready(change) {
                return Some(change);
            }
        }
        None
    }

    /// Carries out a change: one splice of the tree, or of the payload of the change's owner.
    ///
    /// `builds` rises by one for each node on the way to the place of the change, which is changed in place or made anew, and by no more. Each
    /// is counted by the function that ends its change; that no node is made past that function is tested, and not proved. After a refusal the
    /// run is as it was.
    pub fn step(&mut self, alloc: Global, change: usize) -> Result<(), AllocError>
        requires { CanStep self.old change }
        ensures plan { self.new.plan ≡ self.old.plan }
        ensures done { OnOk result (self.new.done ≡ slice_set self.old.done change true) }
        ensures builds { OnOk result (CountsStep self.old change self.new.builds) }
        ensures err { OnErr result (self.new ≡ self.old) }
    {
        self.plan.carry_out(alloc, &mut self.stages, change)
    }

    /// The present tree: the old tree, rewritten by the changes that are done and have no owner.
    pub fn green(&self) -> &GreenNode
        ensures { ShowsTree self.now (branch_tree result.now) }
    {
        self.stages.green()
    }

    /// The present payload of a change: rewritten by the changes that are done and that this one owns. `None` where the
    /// change is dropped, or does not replace a node by a node.
    pub fn payload(&self, change: usize) -> Option<&GreenNode>
        requires { change < length self.now.plan.changes }
        ensures { ShowsPayload self.now change result }
    {
        self.stages.payload(change)
    }

    /// How many nodes the steps built. At 2^64 - 1 the count stays.
    pub fn builds(&self) -> u64
        ensures { result ≡ self.now.builds }
    {
        self.stages.builds()
    }

    /// Whether each change that is not dropped is done.
    pub fn is_complete(&self) -> bool
        ensures { result ≡ is_complete self.now.plan.changes (is_done self.now) }
    {
        self.stages.is_complete()
    }

    /// The edit that the steps made, under the next number of `ids`.
    ///
    /// The tree is that of the steps. The paths of changed and annotated elements come from the one-pass walk of the plan, whose tree is
    /// dropped; `finish_counting` counts the nodes that this walk builds.
    ///
    /// `TooLong` comes where the text of the new tree passes 4,294,967,295 bytes, else `NoTreeNumber` where the source is spent; `Memory`
    /// may come at any time. None of them draws a number.
    pub fn finish(self, alloc: Global, ids: &mut TreeIds) -> Result<SyntaxEdit, EditError>
        requires { is_complete self.plan.changes (is_done self) ≡ true }
        ensures ok { IfOk result (Makes self.entry.plan ids.old) }
        ensures short { IfOk result (λ e. text_length e.new_root.root < length_limit) }
        ensures drawn { OnOk result (ids.new ≡ ids.old + 1) }
        ensures refused { IfErr result (RunRefuses self.entry.plan ids.old) }
        ensures err { OnErr result (ids.new ≡ ids.old) }
    {
        self.finish_counting(alloc, ids, &mut OnePassEngine::new(alloc))
    }

    /// The same as `finish`, where `walk` counts the nodes that the one-pass walk of the plan builds. A refusal leaves the count as it
    /// was.
    pub fn finish_counting(
        self,
        alloc: Global,
        ids: &mut TreeIds,
        walk: &mut OnePassEngine,
    ) -> Result<SyntaxEdit, EditError>
        requires { is_complete self.plan.changes (is_done self) ≡ true }
        ensures ok { IfOk result (Makes self.entry.plan ids.old) }
        ensures short { IfOk result (λ e. text_length e.new_root.root < length_limit) }
        ensures drawn { OnOk result (ids.new ≡ ids.old + 1) }
        ensures count { OnOk result (CountsTouched self.entry.plan walk.old walk.new) }
        ensures refused { IfErr result (RunRefuses self.entry.plan ids.old) }
        ensures err { OnErr result (ids.new ≡ ids.old) }
        ensures count_err { OnErr result (walk.new ≡ walk.old) }
    {
        // A refusal counts nothing, so the count is put in place when nothing can fail any more.
        let mut builds = walk.builds();
        let rewritten = self.rewritten_by_steps(alloc, &mut builds)?;
        let edit = self.plan.edit_of(alloc, ids, rewritten)?;
        *walk = OnePassEngine::starting_at(alloc, builds);
        Ok(edit)
    }

    // The tree that the steps made, with the paths of its changed and its annotated elements. `builds` counts the nodes that the walk for
    // these paths builds.
    pub(crate) fn rewritten_by_steps(
        &self,
        alloc: Global,
        builds: &mut u64,
    ) -> Result<Rewritten, EngineError>
        requires { is_complete self.now.plan.changes (is_done self.now) ≡ true }
        ensures ok { IfOk result (HasRewritten self.now.plan) }
        ensures short { IfOk result (λ r. text_length (branch_tree r.green) < length_limit) }
        ensures refused { IfErr result (EngineRefuses self.now.plan) }
        ensures count { OnOk result (CountsTouched self.now.plan builds.old builds.new) }
    {
        let green = self.stages.green().share(alloc)?;
        // Of this walk only the paths are kept.
        let rewritten = self.plan.rewritten_tree(alloc, builds)?;
        self.plan.within_limit(Rewritten { green, ..rewritten })
    }
}
