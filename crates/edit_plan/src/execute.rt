//! A plan carried out in an order that the caller gives.

ghost use Rattle.std.specs.Prelude.{◌≡◌, ◌+◌, ◌<◌, IfOk, IfErr, OnOk, OnErr};
ghost use Rattle.cst_core.specs.Green.{length_limit};
ghost use Rattle.cst_core.specs.Tree.{text_length};
ghost use Rattle.edit_steps.specs.Schedule.{IsAllowed};
ghost use Rattle.edit_steps.specs.DefaultOrder.{IsDefaultOrder};
ghost use Rattle.edit_plan.specs.Plan.{Makes};
ghost use Rattle.edit_plan.specs.ExecuteRefusal.{ExecuteRefuses};
ghost use Rattle.edit_plan.specs.inner.PlanStages.{IsCarriedOut};

use crate::edit::SyntaxEdit;
use crate::edit_run::EditRun;
use crate::execute_error::ExecuteError;
use crate::plan::EditPlan;
use cst_core::TreeIds;
use edit_steps::{check, default_order};
use std::alloc::{AllocError, Global};

impl EditPlan {
    /// The changes that are not dropped, each after those that it owns; those of one owner, or of none, from the last in the document to
    /// the first, where a gap stands before its slot; inserts of one gap from the last recorded to the first.
    ///
    /// It is an allowed order. Takes time near linear in the paths of the changes.
    pub fn default_order(&self, alloc: Global) -> Result<Vec<usize>, AllocError>
        ensures allowed { IfOk result (λ v. IsAllowed self.now.changes v.items) }
        ensures ordered { IfOk result (λ v. IsDefaultOrder self.now.changes v.items) }
    {
        default_order(alloc, &self.changes, &self.fates)
    }

    /// Carries the changes out one at a time, in this order: every allowed order gives the same edit, that of `run_with`.
    ///
    /// Where the order is not allowed, `NotEachOnce`, `OwnerTooEarly`, `GapOutOfOrder` and `TokenTooEarly` are tested in this order,
    /// each of the whole list. Only an allowed order may be refused for its edit: `TooLong` comes first, then `NoTreeNumber`. `Memory` may
    /// come at any time. None of them draws a number.
    pub fn execute(
        &self,
        alloc: Global,
        ids: &mut TreeIds,
        order: &[usize],
    ) -> Result<SyntaxEdit, ExecuteError>
        ensures allowed { OnOk result (IsAllowed self.now.changes order.now) }
        ensures ok { IfOk result (Makes self.now ids.old) }
        ensures short { IfOk result (λ e. text_length e.new_root.root < length_limit) }
        ensures drawn { OnOk result (ids.new ≡ ids.old + 1) }
        ensures refused { IfErr result (ExecuteRefuses self.now order.now ids.old) }
        ensures err { OnErr result (ids.new ≡ ids.old) }
    {
        check(alloc, &self.changes, &self.fates, order)?;
        let run = self.carried_out(alloc, order)?;
        Ok(run.finish(alloc, ids)?)
    }

    // A run in which all changes are done, in this order.
    pub(crate) fn carried_out(
        &self,
        alloc: Global,
        order: &[usize],
    ) -> Result<EditRun<'_>, AllocError>
        requires { IsAllowed self.now.changes order.now }
        ensures { IfOk result (IsCarriedOut self.now) }
    {
        let mut run = EditRun::new(alloc, self)?;
        for change in order {
            run.step(alloc, *change)?;
        }
        Ok(run)
    }
}
