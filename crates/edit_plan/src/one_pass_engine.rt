//! `OnePassEngine`: the engine of `finish`. It makes the tree in one pass, and counts the nodes that it builds.

ghost use Rattle.std.specs.Prelude.{◌≡◌};

use crate::engine::EditEngine;
use crate::engine_error::EngineError;
use crate::plan::EditPlan;
use crate::rewritten::Rewritten;
use std::alloc::Global;
use std::marker::Model;

/// An engine that makes the new tree in one pass over the old one, from the leaves up, and counts the nodes that it builds.
///
/// Only the parents of changes and their ancestors are built, in the old tree and in the payload of each owner. All else is
/// shared. A run that has an answer raises the count by the number of these nodes; at 2^64 - 1 the count
/// stays. It is exact where trees with equal numbers are equal, and else no greater. A refused run leaves the count as it was.
#[derive(Drop)]
pub struct OnePassEngine {
    builds: u64,
}

// The count.
impl Model for OnePassEngine {
    ghost use Rattle.std.specs.Prelude.{ℕ};

    ghost Value = { ℕ };

    ghost view = { λ e. e.builds };
}

impl OnePassEngine {
    /// Such an engine, which has built nothing. It takes no memory.
    pub fn new(_alloc: Global) -> OnePassEngine
        ensures { result ≡ 0 }
    {
        OnePassEngine { builds: 0 }
    }

    /// Such an engine, whose count begins at this number. It takes no memory.
    pub fn starting_at(_alloc: Global, builds: u64) -> OnePassEngine
        ensures { result ≡ builds }
    {
        OnePassEngine { builds }
    }

    /// How many nodes the runs built, counted from the number that the engine began with. At 2^64 - 1 the count stays.
    pub fn builds(&self) -> u64
        ensures { result ≡ self.now }
    {
        self.builds
    }
}

impl EditEngine for OnePassEngine {
    ghost use Rattle.edit_plan.specs.Engine.{CountsRun};

    ghost runs = { λ before plan answered after. CountsRun plan answered before after };

    fn run(&mut self, alloc: Global, plan: &EditPlan) -> Result<Rewritten, EngineError> {
        // A refused run counts nothing, so the count is put in place when nothing can fail any more.
        let mut builds = self.builds;
        let rewritten = plan.rewritten_tree(alloc, &mut builds)?;
        let rewritten = plan.within_limit(rewritten)?;
        self.builds = builds;
        Ok(rewritten)
    }
}
