//! `EditEngine`: what makes the new tree of a plan, with the law that each engine proves. `EditPlan::run_with` calls it once.

ghost use Rattle.std.specs.Prelude.{◌<◌, is_ok, IfOk, IfErr};
ghost use Rattle.cst_core.specs.Green.{branch_tree, length_limit};
ghost use Rattle.cst_core.specs.Tree.{text_length};
ghost use Rattle.edit_plan.specs.Engine.{HasRewritten, EngineRefuses};

use crate::engine_error::EngineError;
use crate::plan::EditPlan;
use crate::rewritten::Rewritten;
use std::alloc::Global;

/// What makes the new tree of a plan.
pub trait EditEngine {
    ghost use Rattle.std.specs.Prelude.{Bool};
    ghost use Rattle.edit_plan.specs.Plan.{Plan};

    // What a run of a plan does to an engine: the engine before, the plan, whether the run has an answer, and the engine afterwards.
    ghost runs: { Self → Plan → Bool → Self → Type 0 };

    /// The new tree, with the paths of its changed and its annotated elements.
    ///
    /// `TooLong` comes exactly where the text of the new tree passes 4,294,967,295 bytes; `Memory` may come at any time.
    fn run(&mut self, alloc: Global, plan: &EditPlan) -> Result<Rewritten, EngineError>
        ensures ok { IfOk result (HasRewritten plan.now) }
        ensures short { IfOk result (λ r. text_length (branch_tree r.green) < length_limit) }
        ensures refused { IfErr result (EngineRefuses plan.now) }
        ensures engine { runs self.old plan.now (is_ok result) self.new };
}
