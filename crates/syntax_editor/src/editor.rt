//! `SyntaxEditor`: a root, the list of changes, registrations and a factory. Its invariant is that each change fits the root.

ghost use Rattle.std.specs.Prelude.{◌≡◌, ◌↔◌, ◌+◌, ◌<◌, cond, [], IfOk, IfErr, OnOk, OnErr, Some};
ghost use Rattle.cst_core.specs.Green.{length_limit};
ghost use Rattle.cst_core.specs.Tree.{text_length};
ghost use Rattle.edit_plan.specs.Plan.{Makes, IsPlan, BuildRefuses};
ghost use Rattle.std.specs.Borrow.{sem};
ghost use Rattle.syntax_editor.specs.Lending.{LendsFactory};
ghost use Rattle.syntax_editor.specs.Editor.{IsEditor, has_parent, edited_root, new_editor, plan_of, Maps, FinishRefuses, LacksRootNumber};

use crate::factory::SyntaxFactory;
use change_list::ChangeList;
use cst_core::{SyntaxElement, SyntaxNode, TreeError, TreeIds};
use edit_change::trial_source;
use edit_map::{SyntaxMapping, SyntaxMappingBuilder};
use edit_plan::{Change, EditError, EditPlan, OnePassEngine, SyntaxAnnotation, SyntaxEdit};
use std::alloc::{AllocError, Global};
use std::marker::Model;

/// Records changes in terms of a tree that does not change, and carries them out at once.
///
/// Which list of changes each call leaves: see 'change_list: Recording' in docs/DEFINITIONS.md. Payloads may be of
/// any tree; what is changed is of the editor's.
pub struct SyntaxEditor {
    pub(crate) root: SyntaxNode,
    pub(crate) changes: ChangeList,
    // The elements that are registered with annotations, in order.
    pub(crate) registrations: Vec<(SyntaxElement, SyntaxAnnotation)>,
    pub(crate) factory: SyntaxFactory,
}

// One call lets a value go, not one for each field.
impl Drop for SyntaxEditor {
    fn drop(self) {
        let SyntaxEditor {
            root: _,
            changes: _,
            registrations: _,
            factory: _,
        } = self;
    }
}

impl Model for SyntaxEditor {
    ghost use Rattle.syntax_editor.specs.Editor.{Editor, IsEditor, editor_of};
    ghost use Rattle.syntax_editor.specs.inner.Codes.{editor_code};

    ghost Value = { Editor };

    ghost coded = { editor_code };

    ghost view = { λ a. editor_of a.root a.changes a.registrations.items a.factory };

    ghost invariant = { λ a. IsEditor (editor_of a.root a.changes a.registrations.items a.factory) };
}

impl SyntaxEditor {
    /// An editor without changes, and the root that it edits: `root` itself, or, where that has a parent, the root of a tree
    /// of its own under the next number of `ids`.
    ///
    /// `NoTreeNumber` comes only for a root with a parent, before `Memory`; neither draws a number. `TooLong` does not come.
    pub fn new(
        alloc: Global,
        ids: &mut TreeIds,
        root: SyntaxNode,
    ) -> Result<(SyntaxEditor, SyntaxNode), TreeError>
        ensures editor { IfOk result (λ r. r.0 ≡ new_editor ids.old root) }
        ensures is_editor { IfOk result (λ r. IsEditor r.0) }
        ensures root { IfOk result (λ r. r.1 ≡ edited_root ids.old root) }
        ensures drawn { OnOk result (ids.new ≡ cond (has_parent root) (ids.old + 1) ids.old) }
        ensures fits { ¬ (result ≡ Err TreeError.TooLong) }
        ensures no_number { (result ≡ Err TreeError.NoTreeNumber) ↔ LacksRootNumber ids.old root }
        ensures err { OnErr result (ids.new ≡ ids.old) }
    {
        if root.slots().is_empty() {
            let own = root.try_clone(alloc)?;
            return Ok((SyntaxEditor::of_root(alloc, own), root));
        }
        // The number is drawn last, when nothing can fail any more.
        let mut drawn = trial_source(ids);
        let own = root.clone_subtree(alloc, &mut drawn)?;
        let edited = own.try_clone(alloc)?;
        ids.next();
        Ok((SyntaxEditor::of_root(alloc, own), edited))
    }

    // An editor of this root, without changes.
    pub(crate) fn of_root(alloc: Global, root: SyntaxNode) -> SyntaxEditor
        requires { root.path ≡ [] }
        ensures { result ≡ record { root = root; changes = []; registrations = []; factory = Some [] } }
    {
        SyntaxEditor {
            root,
            changes: ChangeList::new(alloc),
            registrations: Vec::new(alloc),
            factory: SyntaxFactory::with_mappings(alloc),
        }
    }

    /// The factory, which keeps the mappings of the editor.
    pub fn make(&self) -> &SyntaxFactory
        ensures { result.now ≡ self.now.factory }
    {
        &self.factory
    }

    /// The factory, to put pairs into its mappings, or to put another factory in its place. One without mappings counts as one
    /// with a mapping of nothing.
    pub fn make_mut(&mut self) -> &mut SyntaxFactory
        ensures* writes_back { sem 𝓛 (LendsFactory self.entry result) }
        ensures value { result.now ≡ self.old.factory }
    {
        &mut self.factory
    }

    /// Adds the pairs of a builder to the mappings of the editor. Where both map a node, the builder's pair wins. A factory without
    /// mappings has some then.
    ///
    /// Refused for memory alone. The editor is unchanged then, and the builder is gone.
    pub fn add_mapping(
        &mut self,
        alloc: Global,
        builder: SyntaxMappingBuilder,
    ) -> Result<(), AllocError>
        ensures mapped { OnOk result (Maps builder.pairs self.old self.new) }
        ensures unchanged { OnErr result (self.new ≡ self.old) }
    {
        self.factory.add_mapping(alloc, builder)
    }

    /// The changes recorded so far, in order.
    pub fn changes(&self) -> &[Change]
        ensures list { result.now ≡ self.now.changes }
        ensures is_editor { IsEditor self.now }
    {
        self.changes.as_slice()
    }

    /// Tests whether `plan` would be refused, and leaves the editor as it is. Nothing of the changes is copied.
    ///
    /// ```text
    /// if let Err(EditError::Intersecting { first, second }) = editor.check(alloc) {
    ///     return Err(anyhow!("changes {first} and {second} have the same target"));
    /// }
    /// ```
    ///
    /// `Intersecting` comes first, then `MissingMapping`, as in `plan`; `Memory` may come at any time. After `Ok`, `plan` is refused
    /// for memory alone, and `finish` for `TooLong`, `NoTreeNumber` and `Memory`.
    pub fn check(&self, alloc: Global) -> Result<(), EditError>
        ensures planned { OnOk result (IsPlan (plan_of self.now)) }
        ensures refused { IfErr result (BuildRefuses (plan_of self.now)) }
    {
        let nothing = SyntaxMapping::new(alloc);
        let mapping = self.factory.mappings_or(&nothing);
        EditPlan::check(alloc, &self.root, self.changes.as_slice(), mapping)
    }

    /// A plan of the changes, which can be carried out as it is. It keeps the registrations.
    ///
    /// `Intersecting` comes first, then `MissingMapping`; `Memory` may come at any time. Nothing is handed back then.
    pub fn plan(self, alloc: Global) -> Result<EditPlan, EditError>
        ensures ok { IfOk result (λ p. p ≡ plan_of self) }
        ensures planned { IfOk result IsPlan }
        ensures refused { IfErr result (BuildRefuses (plan_of self)) }
    {
        let SyntaxEditor {
            root,
            changes,
            registrations,
            factory,
        } = self;
        let mapping = factory.into_mapping(alloc);
        EditPlan::build(alloc, root, changes.into_vec(), registrations, mapping)
    }

    /// Carries the changes out: the new tree under the next number of `ids`, with its changed elements.
    ///
    /// `Intersecting` comes first, then `MissingMapping`, then `TooLong`, then `NoTreeNumber`; `Memory` may come at any time. None
    /// of them draws a number, and nothing is handed back; the old tree is as it was.
    pub fn finish(self, alloc: Global, ids: &mut TreeIds) -> Result<SyntaxEdit, EditError>
        ensures planned { OnOk result (IsPlan (plan_of self)) }
        ensures ok { IfOk result (Makes (plan_of self) ids.old) }
        ensures short { IfOk result (λ e. text_length e.new_root.root < length_limit) }
        ensures drawn { OnOk result (ids.new ≡ ids.old + 1) }
        ensures refused { IfErr result (FinishRefuses self ids.old) }
        ensures err { OnErr result (ids.new ≡ ids.old) }
    {
        let plan = self.plan(alloc)?;
        plan.run_with(alloc, ids, &mut OnePassEngine::new(alloc))
    }
}
