//! `SyntaxEdit`: the old and the new root, the changed elements and the annotated ones.

ghost use Rattle.std.specs.Prelude.{◌≡◌, IfOk};
ghost use Rattle.edit_plan.specs.Plan.{found_for, stand_in};

use crate::annotation::SyntaxAnnotation;
use crate::found::AnnotatedElements;
use cst_core::{SyntaxElement, SyntaxNode};
use green_tree::first_node_of_kind;
use std::alloc::{AllocError, Global};
use std::marker::Model;

/// What carrying out a plan gives.
pub struct SyntaxEdit {
    pub(crate) old_root: SyntaxNode,
    pub(crate) new_root: SyntaxNode,
    pub(crate) changed: Vec<SyntaxElement>,
    pub(crate) annotated: AnnotatedElements,
}

// One call lets a value go, not one for each field.
impl Drop for SyntaxEdit {
    fn drop(self) {
        let SyntaxEdit {
            old_root: _,
            new_root: _,
            changed: _,
            annotated: _,
        } = self;
    }
}

impl Model for SyntaxEdit {
    ghost use Rattle.edit_plan.specs.Plan.{Edit, new_edit};
    ghost use Rattle.edit_plan.specs.inner.Codes.{edit_code};

    ghost Value = { Edit };

    ghost coded = { edit_code };

    ghost view = { λ a. new_edit a.old_root a.new_root a.changed a.annotated };

    ghost use Rattle.edit_plan.specs.inner.PlanRun.{IsNewRoot};

    ghost invariant = { λ a. IsNewRoot a.new_root };
}

impl SyntaxEdit {
    /// The root of the tree that the changes were recorded against. It is as it was.
    pub fn old_root(&self) -> &SyntaxNode
        ensures { result.now ≡ self.now.old_root }
    {
        &self.old_root
    }

    /// The root of the new tree, which has a number of its own.
    pub fn new_root(&self) -> &SyntaxNode
        ensures { result.now ≡ self.now.new_root }
    {
        &self.new_root
    }

    /// The elements of the new tree that changes without an owner brought and whose parent none did, in document order.
    pub fn changed_elements(&self) -> &[SyntaxElement]
        ensures { result.now ≡ self.now.changed }
    {
        self.changed.as_slice()
    }

    /// The elements of the new tree that were copied from what is registered with an annotation, by registration and then in
    /// document order; an element that stayed is a copy of itself. None of an annotation that nothing is registered with.
    pub fn find_annotation(&self, annotation: SyntaxAnnotation) -> &[SyntaxElement]
        ensures { result.now ≡ found_for self.now.annotated annotation }
    {
        self.annotated.found_for(annotation)
    }

    /// The first node of the new tree in document order, its root included, that has the kind of `old` and starts where that one
    /// does, each start counted from the start of its own tree's text.
    ///
    /// Takes time linear in the children of the nodes that have that start in them or at one of their ends.
    pub fn find_element(
        &self,
        alloc: Global,
        old: &SyntaxNode,
    ) -> Result<Option<SyntaxNode>, AllocError>
        ensures { IfOk result (λ r. r ≡ stand_in self.now old.now) }
    {
        let root = self.new_root.as_green();
        let Some(path) = first_node_of_kind(alloc, root, old.kind(), old.text_start())? else {
            return Ok(None);
        };
        match self.new_root.element_at(alloc, &path)? {
            Some(element) => Ok(element.into_node()),
            None => unreachable!(),
        }
    }
}
