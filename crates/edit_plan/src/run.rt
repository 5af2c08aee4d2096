//! What finishing an edit does, in the order in which it happens.

ghost use Rattle.std.specs.Prelude.{◌≡◌, ◌+◌, ◌<◌, List, length, true, IfOk, IfErr, OnOk, OnErr};
ghost use Rattle.cst_core.specs.Green.{branch_tree, length_limit};
ghost use Rattle.cst_core.specs.Tree.{text, text_length};
ghost use Rattle.cst_core.specs.Element.{subtree};
ghost use Rattle.edit_plan.specs.Plan.{Makes, RunRefuses};
ghost use Rattle.edit_plan.specs.Engine.{HasRewritten, EngineRefuses, RanBefore, CountsTouched};
ghost use Rattle.text_edit.specs.TextPiece.{pieces, AreApart};
ghost use Rattle.text_edit.specs.declared.text_edit.TextEdit.{TextEdit};
ghost use Rattle.edit_plan.specs.PlanTextEdits.{AreTextEdits};
ghost use Rattle.edit_plan.specs.inner.PlanRun.{IsOfRoot, IsPlanned};

use crate::edit::SyntaxEdit;
use crate::edit_error::EditError;
use crate::engine::EditEngine;
use crate::engine_error::EngineError;
use crate::found::{AnnotatedElements, annotated_paths, elements_at, registered_copies};
use crate::plan::EditPlan;
use crate::rewritten::Rewritten;
use cst_core::{LENGTH_LIMIT, SyntaxNode, TreeIds};
use edit_change::{Planned, trial_source};
use one_pass::{OnePass, rewrite, text_edits};
use std::alloc::{AllocError, Global};
use text_edit::{TextEdit, TextEdits};

impl EditPlan {
    /// Carries the plan out by an engine: the new tree under the next number of `ids`, and its changed elements.
    ///
    /// The engine runs once, whatever comes of it. `TooLong` comes of a run without an answer, and `NoTreeNumber` after one with an answer;
    /// `Memory` may come at any time. None of them draws a number, and the old tree is as it was.
    pub fn run_with<E: EditEngine>(
        &self,
        alloc: Global,
        ids: &mut TreeIds,
        engine: &mut E,
    ) -> Result<SyntaxEdit, EditError>
        ensures ok { IfOk result (Makes self.now ids.old) }
        ensures short { IfOk result (λ e. text_length e.new_root.root < length_limit) }
        ensures drawn { OnOk result (ids.new ≡ ids.old + 1) }
        ensures refused { IfErr result (RunRefuses self.now ids.old) }
        ensures err { OnErr result (ids.new ≡ ids.old) }
        ensures engine { OnOk result (E.runs engine.old self.now true engine.new) }
        ensures engine_err { IfErr result (RanBefore (λ answered. E.runs engine.old self.now answered engine.new)) }
    {
        let rewritten = engine.run(alloc, self)?;
        self.edit_of(alloc, ids, rewritten)
    }

    // The edit with this new tree, under the next number, and with the elements at these paths.
    pub(crate) fn edit_of(
        &self,
        alloc: Global,
        ids: &mut TreeIds,
        rewritten: Rewritten,
    ) -> Result<SyntaxEdit, EditError>
        requires rewritten { HasRewritten self.now rewritten }
        requires short { text_length (branch_tree rewritten.green) < length_limit }
        ensures ok { IfOk result (Makes self.now ids.old) }
        ensures short { IfOk result (λ e. text_length e.new_root.root < length_limit) }
        ensures drawn { OnOk result (ids.new ≡ ids.old + 1) }
        ensures refused { IfErr result (RunRefuses self.now ids.old) }
        ensures err { OnErr result (ids.new ≡ ids.old) }
        ensures fits { IfErr result IsOfRoot }
    {
        let Rewritten {
            green,
            changed,
            annotated,
        } = rewritten;
        // The number is drawn last, when nothing can fail any more.
        let mut drawn = trial_source(ids);
        let new_root = SyntaxNode::new_root(alloc, &mut drawn, green)?;
        let changed = elements_at(alloc, &new_root, changed)?;
        let annotated = AnnotatedElements::at_paths(alloc, &new_root, annotated)?;
        let old_root = self.root.try_clone(alloc)?;
        ids.next();
        Ok(SyntaxEdit {
            old_root,
            new_root,
            changed,
            annotated,
        })
    }

    // What was made for the plan, if its text is within the limit.
    pub(crate) fn within_limit(&self, rewritten: Rewritten) -> Result<Rewritten, EngineError>
        requires { HasRewritten self.now rewritten }
        ensures ok { IfOk result (HasRewritten self.now) }
        ensures short { IfOk result (λ r. text_length (branch_tree r.green) < length_limit) }
        ensures refused { IfErr result (EngineRefuses self.now) }
    {
        if rewritten.green.length() >= LENGTH_LIMIT {
            return Err(EngineError::TooLong);
        }
        Ok(rewritten)
    }

    /// What the plan does to the text of the old tree, as edits for an editor of texts, from left to right: one for each change that is
    /// neither dropped nor owned and alters the text. Its new text is that of its payload, with all that it owns carried out in it.
    ///
    /// Offsets are in bytes of the old text. Edits do not overlap; several inserts of one gap are edits at one offset, in recorded order,
    /// and an insert after a token that is replaced comes after the replacement. Together they make the new text
    /// (`edit_plan::laws::text_edits_make_the_new_text`). Takes time near linear in what carrying the plan out takes and in the texts that
    /// are replaced and brought, and for each change the children before its way. See docs/CALLING.md, 'Text edits'.
    ///
    /// ```text
    /// for edit in plan.text_edits(alloc)?.as_slice() { send(edit.start, edit.end, &edit.text); }
    /// ```
    pub fn text_edits(&self, alloc: Global) -> Result<TextEdits, AllocError>
        ensures edits { IfOk result
            (λ v. (edits : List TextEdit) → pieces edits ≡ v → AreTextEdits self.now edits) }
        ensures apart { IfOk result (λ v. AreApart 0 v (length (text (subtree self.now.root)))) }
    {
        // For the proof: any two tables of places agree.
        self.agree_on_places();
        let edits = text_edits(alloc, self.planned())?;
        Ok(one_list(edits, self.root.text_len()))
    }

    // What an engine is told of the plan.
    pub(crate) fn planned(&self) -> Planned<'_>
        ensures root { result.root.now ≡ self.now.root }
        ensures changes { result.changes.now ≡ self.now.changes }
        ensures is { IsPlanned self.now result.order.now result.fates.now result.places.now }
    {
        Planned {
            root: &self.root,
            changes: &self.changes,
            order: &self.order,
            fates: &self.fates,
            places: &self.places,
        }
    }

    // The new tree, and the paths of its changed and annotated elements. `builds` counts the nodes that are built.
    pub(crate) fn rewritten_tree(
        &self,
        alloc: Global,
        builds: &mut u64,
    ) -> Result<Rewritten, AllocError>
        ensures made { IfOk result (HasRewritten self.now) }
        ensures count { OnOk result (CountsTouched self.now builds.old builds.new) }
    {
        // For the proof: a target keeps its shape.
        self.keep_shapes();
        let registered = registered_copies(alloc, &self.mapping, &self.registrations)?;
        let OnePass {
            green,
            copies,
            changed,
        } = rewrite(alloc, self.planned(), &registered, builds)?;
        let annotated = annotated_paths(alloc, &self.registrations, copies)?;
        Ok(Rewritten {
            green,
            changed,
            annotated,
        })
    }
}

// Edits that are in order and apart in a text of this length, as one list.
fn one_list(edits: Vec<TextEdit>, len: u64) -> TextEdits
    requires { AreApart 0 (pieces edits.items) len }
    ensures { result ≡ pieces edits.items }
{
    match TextEdits::new(edits, len) {
        Ok(edits) => edits,
        Err(_) => unreachable!(),
    }
}
