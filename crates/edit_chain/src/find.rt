//! Where an element is after the edits of a chain.

ghost use Rattle.std.specs.Prelude.{◌≡◌, ◌∷◌, [], All, IfOk};
ghost use Rattle.cst_core.specs.Element.{NumbersTell};
ghost use Rattle.cst_core.specs.SyntaxElement.{element_of};
ghost use Rattle.edit_map.specs.Mapping.{mapped_elements};
ghost use Rattle.edit_plan.specs.Plan.{Makes};
ghost use Rattle.edit_chain.specs.Found.{EachCopied, AreFound, roots_and_mapped};

use crate::chain::EditChain;
use crate::step::Step;
use cst_core::SyntaxElement;
use std::alloc::{AllocError, Global};

impl EditChain {
    /// Where an element is in the last tree: its copies after the first edit, the copies of these after the second, and so on, each time
    /// as `SyntaxEdit::copies` gives them. An element that stayed is a copy of itself; of one that is gone there is none.
    ///
    /// The element may be of any tree: one of a payload of the first plan is found where that put it. Takes the time of one pass of a
    /// plan for each element that is found in the tree of the plan, and draws no number.
    ///
    /// ```text
    /// let now = chain.find(alloc, &element)?;    // of the last tree, most often one
    /// ```
    pub fn find(
        &self,
        alloc: Global,
        element: &SyntaxElement,
    ) -> Result<Vec<SyntaxElement>, AllocError>
        ensures { NumbersTell (element_of element.now ∷ roots_and_mapped self.now.steps)
            → IfOk result (λ v. AreFound self.now.steps (element.now ∷ []) v.items) }
    {
        let mut found = Vec::with_capacity(alloc, 1)?;
        found.push(element.try_clone(alloc)?)?;
        for step in self.steps() {
            found = copies_of_each(alloc, step, &found)?;
        }
        Ok(found)
    }
}

// The copies of each of some elements in the tree that a step made.
fn copies_of_each(
    alloc: Global,
    step: &Step,
    elements: &[SyntaxElement],
) -> Result<Vec<SyntaxElement>, AllocError>
    requires { Makes step.now.plan step.now.edit.new_root.number step.now.edit }
    ensures { All (λ e. NumbersTell (element_of e ∷ mapped_elements step.now.plan.mapping)) elements.now
        → IfOk result (λ v. EachCopied step.now elements.now v.items) }
{
    let mut found = Vec::new(alloc);
    for element in elements {
        let mut copies = step.edit.copies(alloc, &step.plan, element)?;
        found.append(&mut copies)?;
    }
    Ok(found)
}
