//! `EditChain`: edits one after the other, each of what the one before it made.

ghost use Rattle.std.specs.Prelude.{◌≡◌, ◌+◌, ◌<◌, [], IfOk, IfErr, OnOk, OnErr, option_map};
ghost use Rattle.std.specs.Option.{option_map_or};
ghost use Rattle.cst_core.specs.Path.{last_item};
ghost use Rattle.cst_core.specs.Tree.{text_length};
ghost use Rattle.cst_core.specs.Green.{length_limit};
ghost use Rattle.cst_core.specs.Element.{address};
ghost use Rattle.edit_plan.specs.Plan.{Makes};
ghost use Rattle.edit_chain.specs.Chain.{last_root, Runs, IsChain, joined};
ghost use Rattle.edit_chain.specs.ChainRefusal.{StepRefuses, JoinRefuses};
ghost use Rattle.edit_chain.specs.inner.RunError.{RefusesRun};

use crate::chain_error::ChainError;
use crate::step::Step;
use cst_core::{SyntaxElement, SyntaxNode, TreeIds};
use edit_plan::{EditPlan, OnePassEngine, SyntaxEdit};
use std::alloc::Global;
use std::marker::Model;

/// Edits one after the other: each plan is of the root that the one before it made.
#[derive(Drop)]
pub struct EditChain {
    first: SyntaxNode,
    steps: Vec<Step>,
}

impl Model for EditChain {
    ghost use Rattle.edit_chain.specs.Chain.{Chain, chain_of, IsChain};
    ghost use Rattle.edit_chain.specs.inner.Codes.{chain_code};

    ghost Value = { Chain };

    ghost coded = { chain_code };

    ghost view = { λ a. chain_of a.first a.steps };

    ghost invariant = { λ a. IsChain (chain_of a.first a.steps) };
}

impl EditChain {
    /// A chain without steps, whose first plan is to be of this root. It takes no memory.
    pub fn new(alloc: Global, root: SyntaxNode) -> EditChain
        ensures { result ≡ record { first = root; steps = [] } }
    {
        EditChain {
            first: root,
            steps: Vec::new(alloc),
        }
    }

    /// The root that the first plan is of. It is as it was.
    pub fn first_root(&self) -> &SyntaxNode
        ensures { result.now ≡ self.now.first }
    {
        &self.first
    }

    /// The root that the last edit made, or the first root where there is none.
    pub fn last_root(&self) -> &SyntaxNode
        ensures { result.now ≡ last_root self.now }
    {
        match self.steps.last() {
            Some(step) => step.edit.new_root(),
            None => &self.first,
        }
    }

    /// The plans, each with its edit, in order.
    pub fn steps(&self) -> &[Step]
        ensures steps { result.now ≡ self.now.steps }
        ensures is_chain { IsChain self.now }
    {
        self.steps.as_slice()
    }

    /// The last edit.
    pub fn last_edit(&self) -> Option<&SyntaxEdit>
        ensures { option_map (λ e. e.now) result ≡ option_map (λ s. s.edit) (last_item self.now.steps) }
    {
        match self.steps.last() {
            Some(step) => Some(&step.edit),
            None => None,
        }
    }

    /// The changed elements of the last edit; none where there is no edit.
    pub fn changed_elements(&self) -> &[SyntaxElement]
        ensures { result.now ≡ option_map_or (λ s. s.edit.changed) (last_item self.now.steps) [] }
    {
        match self.steps.last() {
            Some(step) => step.edit.changed_elements(),
            None => &[],
        }
    }

    /// Carries a plan of the last root out in one pass, and keeps it with its edit as the next step. The new tree has the next number of
    /// `ids`. Roots are told apart by number and path.
    ///
    /// `OtherRoot` comes first, then `TooLong`, then `NoTreeNumber`; `Memory` may come at any time. The chain is as it was then, no number
    /// is drawn, and the plan is gone.
    pub fn run(
        &mut self,
        alloc: Global,
        ids: &mut TreeIds,
        plan: EditPlan,
    ) -> Result<(), ChainError>
        ensures ok { OnOk result (Runs plan ids.old self.old self.new) }
        ensures drawn { OnOk result (ids.new ≡ ids.old + 1) }
        ensures refused { IfErr result (StepRefuses self.old plan ids.old) }
        ensures unchanged { OnErr result (self.new ≡ self.old) }
        ensures err { OnErr result (ids.new ≡ ids.old) }
    {
        if plan.root() != self.last_root() {
            return Err(ChainError::OtherRoot);
        }
        self.steps.reserve(1)?;
        let edit = carried_out(alloc, ids, &plan)?;
        self.steps.push_reserved(Step { plan, edit });
        Ok(())
    }

    /// Puts the steps of another chain behind these, which begins at the last root.
    ///
    /// `OtherRoot` comes first, then `Memory`. Each hands the other chain back, and leaves both as they were.
    pub fn then(&mut self, mut other: EditChain) -> Result<(), (ChainError, EditChain)>
        ensures joined { OnOk result (self.new ≡ joined self.old other) }
        ensures follows { OnOk result (address other.first ≡ address (last_root self.old)) }
        ensures refused { IfErr result (λ r. JoinRefuses self.old other r.0) }
        ensures handed_back { IfErr result (λ r. r.1 ≡ other) }
        ensures unchanged { OnErr result (self.new ≡ self.old) }
    {
        if other.first_root() != self.last_root() {
            return Err((ChainError::OtherRoot, other));
        }
        if self.steps.append(&mut other.steps).is_err() {
            return Err((ChainError::Memory, other));
        }
        Ok(())
    }
}

// The edit that a plan makes.
fn carried_out(alloc: Global, ids: &mut TreeIds, plan: &EditPlan) -> Result<SyntaxEdit, ChainError>
    ensures ok { IfOk result (Makes plan.now ids.old) }
    ensures short { IfOk result (λ e. text_length e.new_root.root < length_limit) }
    ensures drawn { OnOk result (ids.new ≡ ids.old + 1) }
    ensures refused { IfErr result (RefusesRun plan.now ids.old) }
    ensures err { OnErr result (ids.new ≡ ids.old) }
{
    match plan.run_with(alloc, ids, &mut OnePassEngine::new(alloc)) {
        Ok(edit) => Ok(edit),
        Err(error) => Err(ChainError::of_run(error)),
    }
}
