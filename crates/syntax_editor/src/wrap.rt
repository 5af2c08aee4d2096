//! Putting a node between other elements.
ghost use Rattle.std.specs.Prelude.{◌≡◌, ◌+◌, ◌<◌, ◌∷◌, [], ◌++◌, true, Some, unwrap_or, IfOk, IfErr, OnOk, OnErr};
ghost use Rattle.cst_core.specs.TreeIds.{spent};
ghost use Rattle.cst_core.specs.declared.element.SyntaxElement.TheVariants.{Node};
ghost use Rattle.cst_core.specs.Element.{below};
ghost use Rattle.cst_core.specs.SyntaxElement.{syntax_at};
ghost use Rattle.cst_core.specs.SyntaxKind.{SyntaxKind};
ghost use Rattle.edit_map.specs.Builder.{IsMadeOf, IsPairUnder};
ghost use Rattle.edit_plan.specs.Fits.{is_native};
ghost use Rattle.syntax_editor.specs.Editor.{Records};
ghost use Rattle.syntax_editor.specs.RecordCall.{Replacing};
ghost use Rattle.syntax_editor.specs.Wrapping.{wrapped_tree, wrapper, wrapped_copy, CanWrap, WrapRefuses, Wraps};

use crate::editor::SyntaxEditor;
use crate::error::RecordError;
use crate::factory::SyntaxFactory;
use crate::wrap_error::WrapError;
use crate::wrapper::{child_node, is_wrapper_too_long, pair_of, wrapper_of};
use cst_core::{SyntaxElement, SyntaxKind, SyntaxNode, TreeIds};
use edit_change::is_native_node;
use edit_map::{SyntaxMapping, SyntaxMappingBuilder};
use std::alloc::{AllocError, Global};

impl SyntaxEditor {
    /// Puts a node between other elements: it is replaced by a new node of this kind, whose children are the elements `before`, a
    /// copy of the node, and the elements `after`. The node is mapped to the copy, which is the answer, so what is recorded
    /// inside the node is carried out in the copy.
    ///
    /// The new node is the root of a tree of its own under the next number of `ids`, and the copy's parent. The elements may be of
    /// any trees, and are shared, not copied. The replacement is recorded as `replace` does it. It takes time linear in the
    /// mappings of the editor.
    ///
    /// ```text
    /// let open = SyntaxElement::Token(editor.make().token(alloc, ids, SyntaxKind::L_PAREN, "(")?);
    /// let close = SyntaxElement::Token(editor.make().token(alloc, ids, SyntaxKind::R_PAREN, ")")?);
    /// editor.wrap(alloc, ids, &node, SyntaxKind::TUPLE_EXPR, &[open], &[close])?;
    /// ```
    ///
    /// `TooLong` comes first, where the new text passes 4,294,967,295 bytes, then `NoTreeNumber`, then `NotYounger`, where the new
    /// number is not greater than that of the node's tree, then `Foreign`, where the node is of another tree, then `Memory`. The
    /// editor is unchanged after each, and no number is drawn.
    pub fn wrap(
        &mut self,
        alloc: Global,
        ids: &mut TreeIds,
        node: &SyntaxNode,
        kind: SyntaxKind,
        before: &[SyntaxElement],
        after: &[SyntaxElement],
    ) -> Result<SyntaxNode, WrapError>
        ensures copy { IfOk result (λ n. n ≡ wrapped_copy ids.old kind before.now node.now after.now) }
        ensures recorded { OnOk result (Wraps node.now (wrapper ids.old kind before.now node.now after.now)
            ((node.now, wrapped_copy ids.old kind before.now node.now after.now) ∷ []) self.old self.new) }
        ensures accepted { OnOk result
            (CanWrap self.old.root ids.old (wrapped_tree kind before.now node.now after.now) node.now) }
        ensures drawn { OnOk result (ids.new ≡ ids.old + 1) }
        ensures refused { IfErr result
            (WrapRefuses self.old.root ids.old (wrapped_tree kind before.now node.now after.now) node.now) }
        ensures unchanged { OnErr result (self.new ≡ self.old) }
        ensures err { OnErr result (ids.new ≡ ids.old) }
    {
        let number = self.number_to_wrap(ids, node, before, after)?;
        // For the proof: the copy is a node, as the node is.
        let _ = node.kind();
        let wrapper = wrapper_of(alloc, number, kind, before, node, after)?;
        // The number is drawn last, when nothing can fail any more.
        let copy = self.replace_by_wrapper(alloc, node, wrapper, before.len())?;
        ids.next();
        Ok(copy)
    }

    // The number of the new tree, where nothing speaks against it. It takes no memory.
    fn number_to_wrap(
        &self,
        ids: &TreeIds,
        node: &SyntaxNode,
        before: &[SyntaxElement],
        after: &[SyntaxElement],
    ) -> Result<u64, WrapError>
        ensures number { IfOk result (λ number. number ≡ ids.now) }
        ensures left { IfOk result (λ number. number < spent) }
        ensures accepted { OnOk result ((kind : SyntaxKind)
            → CanWrap self.now.root ids.now (wrapped_tree kind before.now node.now after.now) node.now) }
        ensures refused { IfErr result (λ e. (kind : SyntaxKind)
            → WrapRefuses self.now.root ids.now (wrapped_tree kind before.now node.now after.now) node.now e) }
        ensures memory { ¬ (result ≡ Err WrapError.Memory) }
    {
        if is_wrapper_too_long(before, node, after) {
            return Err(WrapError::TooLong);
        }
        let Some(number) = ids.peek() else {
            return Err(WrapError::NoTreeNumber);
        };
        if number <= node.tree() {
            return Err(WrapError::NotYounger);
        }
        if !is_native_node(&self.root, node) {
            return Err(WrapError::Foreign);
        }
        Ok(number)
    }
    // Replaces a node by a wrapper, in whose slot its copy is, and maps it to the copy, which is the answer.
    fn replace_by_wrapper(
        &mut self,
        alloc: Global,
        node: &SyntaxNode,
        wrapper: SyntaxNode,
        slot: usize,
    ) -> Result<SyntaxNode, AllocError>
        requires native { is_native self.old.root (Node node.now) ≡ true }
        requires copy { syntax_at wrapper (wrapper.path ++ slot ∷ []) ≡ Some (Node (below wrapper (slot ∷ []))) }
        requires pair { IsPairUnder wrapper (node.now, below wrapper (slot ∷ [])) }
        ensures copy { IfOk result (λ n. n ≡ below wrapper (slot ∷ [])) }
        ensures recorded { OnOk result
            (Wraps node.now wrapper ((node.now, below wrapper (slot ∷ [])) ∷ []) self.old self.new) }
        ensures unchanged { OnErr result (self.new ≡ self.old) }
    {
        let copy = child_node(alloc, &wrapper, slot)?;
        let pair = pair_of(alloc, &wrapper, node, &copy)?;
        self.exchange(alloc, node, wrapper, pair)?;
        Ok(copy)
    }

    // Replaces a node of the editor's tree by another one, and takes pairs up. All that can fail comes before any change.
    fn exchange(
        &mut self,
        alloc: Global,
        node: &SyntaxNode,
        new: SyntaxNode,
        pairs: SyntaxMappingBuilder,
    ) -> Result<(), AllocError>
        requires { is_native self.old.root (Node node.now) ≡ true }
        ensures recorded { OnOk result (Wraps node.now new pairs.pairs self.old self.new) }
        ensures unchanged { OnErr result (self.new ≡ self.old) }
    {
        let mapping = mapping_with(alloc, &self.factory, pairs)?;
        self.replace_native(alloc, node, new)?;
        self.factory = SyntaxFactory::of_mapping(mapping);
        Ok(())
    }

    // Replaces a node of the editor's tree by another one.
    fn replace_native(
        &mut self,
        alloc: Global,
        node: &SyntaxNode,
        new: SyntaxNode,
    ) -> Result<(), AllocError>
        requires { is_native self.old.root (Node node.now) ≡ true }
        ensures recorded { OnOk result (Records (Replacing (Node node.now) (Node new)) self.old self.new) }
        ensures unchanged { OnErr result (self.new ≡ self.old) }
    {
        match self.replace(alloc, node, new) {
            Ok(()) => Ok(()),
            Err(RecordError::Foreign) => unreachable!(),
            Err(RecordError::BadRange) => unreachable!(),
            Err(RecordError::DeletesRoot) => unreachable!(),
            Err(RecordError::RootReplacement) => unreachable!(),
            Err(RecordError::LevelTooLarge) => unreachable!(),
            Err(RecordError::NoTreeNumber) => unreachable!(),
            Err(RecordError::Memory) => Err(AllocError),
        }
    }
}

// The mappings of a factory with more pairs, which win over those that are there.
fn mapping_with(
    alloc: Global,
    factory: &SyntaxFactory,
    pairs: SyntaxMappingBuilder,
) -> Result<SyntaxMapping, AllocError>
    ensures { IfOk result (IsMadeOf (pairs.pairs ++ unwrap_or factory.now [])) }
{
    let mut mapping = factory.cloned_mapping(alloc)?;
    mapping.add_mapping(alloc, pairs)?;
    Ok(mapping)
}
