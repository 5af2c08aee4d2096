//! What comes of an edit for a plan after it: its annotated elements, and the copies of any element.

ghost use Rattle.std.specs.Prelude.{◌≡◌, ◌∷◌, [], IfOk};
ghost use Rattle.cst_core.specs.Element.{NumbersTell};
ghost use Rattle.cst_core.specs.SyntaxElement.{element_of};
ghost use Rattle.edit_change.specs.Topmost.{paths_of};
ghost use Rattle.edit_map.specs.Mapping.{mapped_elements};
ghost use Rattle.edit_plan.specs.Plan.{IsPlan, Makes};
ghost use Rattle.edit_plan.specs.FurtherPlans.{carried, AreCopies};
ghost use Rattle.edit_plan.specs.inner.CopyPaths.{AreCopyPaths};

use crate::annotation::SyntaxAnnotation;
use crate::edit::SyntaxEdit;
use crate::found::elements_at;
use crate::plan::EditPlan;
use cst_core::{SyntaxElement, SyntaxNode};
use edit_map::laws::{pairs_rise, place_is_unique};
use one_pass::{OnePass, rewrite};
use std::alloc::{AllocError, Global};

impl EditPlan {
    /// The root of the tree that the changes are of.
    pub fn root(&self) -> &SyntaxNode
        ensures root { result.now ≡ self.now.root }
        ensures planned { IsPlan self.now }
    {
        &self.root
    }

    // The paths of an element's copies in the tree that the plan makes.
    fn copy_paths(
        &self,
        alloc: Global,
        element: &SyntaxElement,
    ) -> Result<Vec<Vec<usize>>, AllocError>
        ensures { IfOk result (λ v. AreCopyPaths self.now (element_of element.now) (paths_of v.items)) }
    {
        let mut sought = Vec::with_capacity(alloc, 1)?;
        sought.push(self.mapping.follow(alloc, element)?)?;
        let OnePass { mut copies, .. } = rewrite(alloc, self.planned(), &sought, &mut 0)?;
        match copies.pop() {
            Some(paths) => Ok(paths),
            None => unreachable!(),
        }
    }
}

impl SyntaxEdit {
    /// Each annotated element of the new tree with its annotation, as a further plan of that tree registers it: by annotation, and those of
    /// one as `find_annotation` has them.
    pub fn registrations(
        &self,
        alloc: Global,
    ) -> Result<Vec<(SyntaxElement, SyntaxAnnotation)>, AllocError>
        ensures all { IfOk result (λ v. v.items ≡ carried self.now) }
        ensures is_root { self.now.new_root.path ≡ [] }
    {
        // For the proof: what is true of every edit.
        let _ = &self.new_root;
        self.annotated.registrations(alloc)
    }

    /// The copies of an element in the new tree, in document order, if this is what the plan made: what `find_annotation` gives if the
    /// element alone is registered. An element that stayed is a copy of itself; one that is gone has none. Of a plan that made another
    /// tree it gives the elements that stand here where copies stand there, which tells nothing.
    ///
    /// The element may be of any tree. Takes the time of one pass, and draws no number.
    pub fn copies(
        &self,
        alloc: Global,
        plan: &EditPlan,
        element: &SyntaxElement,
    ) -> Result<Vec<SyntaxElement>, AllocError>
        ensures { Makes plan.now self.now.new_root.number self.now
            → NumbersTell (element_of element.now ∷ mapped_elements plan.now.mapping)
            → IfOk result (λ v. AreCopies plan.now self.now element.now v.items) }
    {
        place_is_unique();
        pairs_rise();
        let paths = plan.copy_paths(alloc, element)?;
        // For the proof: what is true of every plan.
        let _ = plan.root();
        elements_at(alloc, &self.new_root, paths)
    }
}
