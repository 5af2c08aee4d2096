//! One editor merged into another one.
ghost use Rattle.std.specs.Prelude.{◌≡◌, ◌↔◌, [], ◌++◌, IsTrue, IfOk, IfErr, OnOk, OnErr, All, unwrap_or};
ghost use Rattle.change_list.specs.Recording.{merged};
ghost use Rattle.edit_map.specs.Builder.{IsMadeOf};
ghost use Rattle.edit_plan.specs.Nesting.{first_clash};
ghost use Rattle.edit_plan.specs.Fits.{Fits};
ghost use Rattle.syntax_editor.specs.Merging.{AreMergeable, IsMerged, MergeRefuses};
ghost use Rattle.syntax_editor.specs.inner.TakenOver.{taken_over};

use crate::editor::SyntaxEditor;
use crate::error::MergeError;
use crate::factory::SyntaxFactory;
use cst_core::SyntaxNode;
use edit_change::first_clash;
use edit_map::SyntaxMapping;
use edit_plan::Change;
use std::alloc::{AllocError, Global};

impl SyntaxEditor {
    /// Appends the changes and the registrations of another editor of the same root. No change updates another one. Both mappings
    /// are kept; where both map a node, `other`'s copy wins. After it the factory has mappings. Two replacements that share a target
    /// both stand in the list then, and `plan` refuses it: `clashes_with` names them before.
    ///
    /// `OtherRoot` comes first, then `Memory`. Each hands the other editor back, and leaves both as they were. Takes time near linear
    /// in the changes, registrations and mappings of both.
    pub fn merge(
        &mut self,
        alloc: Global,
        mut other: SyntaxEditor,
    ) -> Result<(), (MergeError, SyntaxEditor)>
        ensures merged { OnOk result (IsMerged self.old other self.new) }
        ensures accepted { OnOk result (AreMergeable self.old other) }
        ensures refused { IfErr result (λ r. MergeRefuses self.old other r.0) }
        ensures handed_back { IfErr result (λ r. r.1 ≡ other) }
        ensures unchanged { OnErr result (self.new ≡ self.old) }
    {
        if !self.is_mergeable(&other) {
            return Err((MergeError::OtherRoot, other));
        }
        let Ok(mapping) = merged_mapping(alloc, &self.factory, &other.factory) else {
            return Err((MergeError::Memory, other));
        };
        if self.take_over(alloc, &mut other).is_err() {
            return Err((MergeError::Memory, other));
        }
        self.factory = SyntaxFactory::of_mapping(mapping);
        Ok(())
    }

    /// The first two replacements that would share a target after `merge` of the other editor, which is only looked at: their numbers
    /// in the merged list, in which this editor's changes stand before the other's. `None` where no two of them would. `plan` of the
    /// merged editor is refused with `Intersecting` and these two numbers.
    ///
    /// ```text
    /// match first.clashes_with(alloc, &second)? {
    ///     Some((kept, _)) => println!(rt; "change {kept} stays, and the second assist is left out")?,
    ///     None => first.merge(alloc, second).map_err(|(refusal, _)| refusal)?,
    /// }
    /// ```
    ///
    /// Targets are compared by their paths. So of an editor of another root, which `merge` refuses, the answer says nothing. Refused for memory
    /// alone. Takes time near linear in the changes of both.
    pub fn clashes_with(
        &self,
        alloc: Global,
        other: &SyntaxEditor,
    ) -> Result<Option<(usize, usize)>, AllocError>
        ensures { IfOk result (λ o. o ≡ first_clash (merged self.now.changes other.now.changes)) }
    {
        first_clash(alloc, self.changes.as_slice(), other.changes.as_slice())
    }

    // Whether another editor has the same root, and each of its changes fits the own one.
    fn is_mergeable(&self, other: &SyntaxEditor) -> bool
        ensures { IsTrue result ↔ AreMergeable self.now other.now }
    {
        self.root == other.root && all_fit(&self.root, other.changes.as_slice())
    }

    // Takes the changes and the registrations of another editor over, which is left with none of them. Without memory for that both
    // are unchanged. All growth comes before any change.
    fn take_over(&mut self, alloc: Global, other: &mut SyntaxEditor) -> Result<(), AllocError>
        requires { All (Fits self.old.root) other.old.changes }
        ensures ok { OnOk result (self.new ≡ taken_over self.old other.old) }
        ensures err { OnErr result (self.new ≡ self.old) }
        ensures kept { OnErr result (other.new ≡ other.old) }
    {
        self.registrations.reserve(other.registrations.len())?;
        self.changes.append(alloc, &mut other.changes)?;
        let appended = self.registrations.append(&mut other.registrations);
        let _ = appended.unwrap();
        Ok(())
    }
}

// Whether each change fits the tree with this root.
fn all_fit(root: &SyntaxNode, changes: &[Change]) -> bool
    requires { root.now.path ≡ [] }
    ensures { IsTrue result ↔ All (Fits root.now) changes.now }
{
    changes.iter().all(|change| change.fits(root))
}

// The mappings of two factories, where those of the other one stand.
fn merged_mapping(
    alloc: Global,
    own: &SyntaxFactory,
    other: &SyntaxFactory,
) -> Result<SyntaxMapping, AllocError>
    ensures { IfOk result (IsMadeOf (unwrap_or other.now [] ++ unwrap_or own.now [])) }
{
    let mut mapping = own.cloned_mapping(alloc)?;
    mapping.merge(alloc, other.cloned_mapping(alloc)?)?;
    Ok(mapping)
}
