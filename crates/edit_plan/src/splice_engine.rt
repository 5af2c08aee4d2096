//! `SpliceEngine`: the engine that carries out one change at a time, in the default order.

use crate::engine::EditEngine;
use crate::engine_error::EngineError;
use crate::plan::EditPlan;
use crate::rewritten::Rewritten;
use std::alloc::Global;

/// An engine that carries the changes out one at a time, each by one splice, in the default order of a plan.
///
/// The tree is that of the splices. The paths of changed and annotated elements come from the one-pass walk of the plan, whose tree is
/// dropped.
#[derive(Drop)]
pub struct SpliceEngine {}

impl SpliceEngine {
    /// Such an engine. It takes no memory.
    pub fn new(_alloc: Global) -> SpliceEngine {
        SpliceEngine {}
    }
}

impl EditEngine for SpliceEngine {
    ghost use Rattle.std.specs.Prelude.{◌≡◌};

    ghost runs = { λ before _ _ after. after ≡ before };

    fn run(&mut self, alloc: Global, plan: &EditPlan) -> Result<Rewritten, EngineError> {
        let order = plan.default_order(alloc)?;
        let run = plan.carried_out(alloc, &order)?;
        // What the walk for the paths builds is not the tree's, so nobody is told of it.
        let mut builds = 0;
        run.rewritten_by_steps(alloc, &mut builds)
    }
}
