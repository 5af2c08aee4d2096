//! One list of text edits for the edits of a chain.

ghost use Rattle.std.specs.Prelude.{◌≡◌, ◌<◌, ◌≤◌, [], length, take, IfOk, IfErr, OnOk};
ghost use Rattle.cst_core.specs.Tree.{text, text_length};
ghost use Rattle.cst_core.specs.Green.{length_limit};
ghost use Rattle.cst_core.specs.Element.{subtree};
ghost use Rattle.text_edit.specs.TextPiece.{FitText, applied};
ghost use Rattle.text_edit.specs.Composition.{AreComposed};
ghost use Rattle.edit_plan.specs.Plan.{IsPlan, Makes};
ghost use Rattle.edit_chain.specs.Chain.{root_after, IsStep};
ghost use Rattle.edit_chain.specs.ChainText.{ArePieces, DoAll, FollowsOn, TextRefuses};
ghost use Rattle.edit_chain.specs.inner.StepText.{IsFitting, Precedes, FitRefuses};

use crate::chain::EditChain;
use crate::chain_error::ChainError;
use crate::step::Step;
use cst_core::SyntaxNode;
use edit_plan::laws::text_edits_make_the_new_text;
use std::alloc::{AllocError, Global};
use text_edit::{ApplyError, ComposeError, TextEdits};

impl EditChain {
    /// What all plans do to the text of the first root, as one list of edits of that text: their own text edits, composed one after the
    /// other. Those of one plan are as `EditPlan::text_edits` gives them; without a step there is none. With the first text,
    /// `TextEdits::inverse` gives what takes all of them back.
    ///
    /// `Unfit` names a step whose plan is of a tree with another text than the one before it, though with its number. Where all numbers come
    /// from one source only `Memory` comes. Takes time linear in the texts of all roots and in what the plans' own text edits take.
    pub fn text_edits(&self, alloc: Global) -> Result<TextEdits, ChainError>
        ensures edits { IfOk result (DoAll self.now.first self.now.steps) }
        ensures refused { IfErr result (TextRefuses self.now) }
    {
        let root = self.first_root();
        let steps = self.steps();
        let Some((last, before)) = steps.split_last() else {
            return Ok(no_edits(alloc));
        };
        let mut index = before.len();
        let text = root_before(root, steps, index).text(alloc)?;
        let mut all = fitting_edits(alloc, &text, last, index)?;
        while index > 0 {
            index -= 1;
            all = with_step(
                alloc,
                root_before(root, steps, index),
                &steps[index],
                index,
                &all,
            )?;
        }
        Ok(all)
    }
}

// A list of no edits.
fn no_edits(alloc: Global) -> TextEdits
    ensures { result ≡ [] }
{
    match TextEdits::new(Vec::new(alloc), 0) {
        Ok(edits) => edits,
        Err(_) => unreachable!(),
    }
}

// The root before the step at an index.
fn root_before<'a>(root: &'a SyntaxNode, steps: &'a [Step], index: usize) -> &'a SyntaxNode
    requires { index ≤ length steps.now }
    ensures { result.now ≡ root_after root.now (take index steps.now) }
{
    if index == 0 {
        root
    } else {
        steps[index - 1].edit.new_root()
    }
}

// The edits of a step and of those behind it, for which there is a list.
fn with_step(
    alloc: Global,
    root: &SyntaxNode,
    step: &Step,
    index: usize,
    later: &TextEdits,
) -> Result<TextEdits, ChainError>
    requires step { IsStep root.now step.now }
    requires later { FitText (text (subtree step.now.edit.new_root)) later.now }
    ensures all { IfOk result (Precedes (text (subtree root.now)) step.now later.now) }
    ensures refused { IfErr result (FitRefuses (text (subtree root.now)) step.now index) }
{
    let text = root.text(alloc)?;
    let own = fitting_edits(alloc, &text, step, index)?;
    Ok(composed(alloc, &text, &own, later)?)
}

// Two lists of edits as one, of which the second fits what the first makes of a text.
fn composed(
    alloc: Global,
    old: &str,
    own: &TextEdits,
    later: &TextEdits,
) -> Result<TextEdits, AllocError>
    requires own { FitText old.now own.now }
    requires later { FitText (applied own.now old.now) later.now }
    ensures composed { IfOk result (AreComposed own.now later.now) }
    ensures fit { IfOk result (FitText old.now) }
    ensures makes { IfOk result (λ es. applied es old.now ≡ applied later.now (applied own.now old.now)) }
{
    match own.then(alloc, later) {
        Ok(edits) => Ok(edits),
        Err(ComposeError::InsideCharacter { .. }) => unreachable!(),
        Err(ComposeError::TooLong { .. }) => unreachable!(),
        Err(ComposeError::Memory) => Err(AllocError),
    }
}

// The text edits of a step's plan, if they fit the text of the root before it.
fn fitting_edits(
    alloc: Global,
    old: &str,
    step: &Step,
    index: usize,
) -> Result<TextEdits, ChainError>
    requires planned { IsPlan step.now.plan }
    requires makes { Makes step.now.plan step.now.edit.new_root.number step.now.edit }
    requires short { text_length step.now.edit.new_root.root < length_limit }
    ensures fitting { IfOk result (IsFitting old.now step.now) }
    ensures refused { IfErr result (FitRefuses old.now step.now index) }
{
    text_edits_make_the_new_text();
    let edits = step.plan.text_edits(alloc)?;
    // For the proof: edits in code, of which the law speaks.
    let _ = edits.as_slice();
    test_fit(alloc, old, step, &edits, index)?;
    Ok(edits)
}

// Tests that the text edits of a step's plan fit the text of the root before it.
fn test_fit(
    alloc: Global,
    old: &str,
    step: &Step,
    edits: &TextEdits,
    index: usize,
) -> Result<(), ChainError>
    requires pieces { ArePieces step.now.plan edits.now }
    requires short { length (applied edits.now (text (subtree step.now.plan.root))) < length_limit }
    ensures same { OnOk result (text (subtree step.now.plan.root) ≡ old.now) }
    ensures fit { OnOk result (FitText old.now edits.now) }
    ensures refused { IfErr result (FitRefuses old.now step.now index) }
{
    let own = step.plan.root().text(alloc)?;
    if own.as_str() != old {
        return Err(ChainError::Unfit { step: index });
    }
    match edits.apply(alloc, old) {
        Ok(_) => Ok(()),
        Err(ApplyError::PastEnd { .. }) => Err(ChainError::Unfit { step: index }),
        Err(ApplyError::InsideCharacter { .. }) => Err(ChainError::Unfit { step: index }),
        Err(ApplyError::TooLong) => unreachable!(),
        Err(ApplyError::Memory) => Err(ChainError::Memory),
    }
}
