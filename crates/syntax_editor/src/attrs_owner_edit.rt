//! Attributes and comments of typed nodes.
ghost use Rattle.std.specs.Prelude.{◌≡◌, ◌==◌, ◌∷◌, [], not, false, option_map, slice_get, IfOk, IfErr, OnOk, OnErr};
ghost use Rattle.std.specs.List.{list_any};
ghost use Rattle.cst_core.specs.Tree.{children, label};
ghost use Rattle.cst_core.specs.Green.{branch_tree};
ghost use Rattle.cst_core.specs.Kinds.{ATTR, COMMENT, DOC_COMMENT};
ghost use Rattle.edit_plan.specs.Fits.{is_native};
ghost use Rattle.syntax_editor.specs.AttrsAndDocs.{is_attr_or_doc, is_whitespace, is_removed, removed_children, without_attrs_and_docs, is_foreign, RemovalRefuses};

use crate::editor::SyntaxEditor;
use crate::error::RecordError;
use cst_core::{GreenNode, HasAttrs, SyntaxElement, SyntaxKind, SyntaxNode};
use edit_change::{is_native, is_native_node};
use std::alloc::{AllocError, Global};

/// Edits of nodes that can have attributes.
pub trait AttrsOwnerEdit: HasAttrs {
    /// Deletes the attributes and comments among the node's children, and each child of the kind WHITESPACE directly
    /// after one of them, as `SyntaxEditor::delete` deletes one element, in order.
    ///
    /// `Foreign` comes where the node or one of these children is of another tree, also where there is nothing to delete. `Memory`
    /// comes only where the node is of the editor's. The editor is unchanged after each.
    fn remove_attrs_and_docs(
        &self,
        alloc: Global,
        editor: &mut SyntaxEditor,
    ) -> Result<(), RecordError>
        ensures recorded { OnOk result (editor.new ≡ without_attrs_and_docs (Self.syntax_node self.now) editor.old) }
        ensures accepted { OnOk result (is_foreign editor.old.root (Self.syntax_node self.now) ≡ false) }
        ensures refused { IfErr result (RemovalRefuses editor.old.root (Self.syntax_node self.now)) }
        ensures unchanged { OnErr result (editor.new ≡ editor.old) }
    {
        editor.delete_attrs_and_docs(alloc, self.syntax())
    }
}

impl<N: HasAttrs> AttrsOwnerEdit for N {}

impl SyntaxEditor {
    // Deletes the attributes and comments of a node.
    fn delete_attrs_and_docs(&mut self, alloc: Global, node: &SyntaxNode) -> Result<(), RecordError>
        ensures recorded { OnOk result (self.new ≡ without_attrs_and_docs node.now self.old) }
        ensures accepted { OnOk result (is_foreign self.old.root node.now ≡ false) }
        ensures refused { IfErr result (RemovalRefuses self.old.root node.now) }
        ensures unchanged { OnErr result (self.new ≡ self.old) }
    {
        if !is_native_node(&self.root, node) {
            return Err(RecordError::Foreign);
        }
        let removed = removed_children(alloc, node)?;
        if has_foreign(&self.root, &removed) {
            return Err(RecordError::Foreign);
        }
        Ok(self.changes.delete_each(alloc, removed)?)
    }
}

// Whether one of these elements is of another tree.
fn has_foreign(root: &SyntaxNode, elements: &[SyntaxElement]) -> bool
    requires { root.now.path ≡ [] }
    ensures { result ≡ list_any (λ e. not (is_native root.now e)) elements.now }
{
    elements.iter().any(|element| !is_native(root, element))
}

// The children of a node that are attributes or comments, or are of the kind WHITESPACE directly after one.
fn removed_children(alloc: Global, node: &SyntaxNode) -> Result<Vec<SyntaxElement>, AllocError>
    ensures { IfOk result (λ all. all.items ≡ removed_children node.now) }
{
    let green = node.as_green();
    let mut removed = Vec::new(alloc);
    for slot in 0..green.children().len() {
        if !is_removed(green, slot) {
            continue;
        }
        if let Some(child) = node.element_at(alloc, &[slot])? {
            removed.push(child)?;
        }
    }
    Ok(removed)
}

// Whether the child in a slot is one of these.
fn is_removed(node: &GreenNode, slot: usize) -> bool
    ensures { result ≡ is_removed (branch_tree node.now) slot }
{
    is_attr_or_doc(node, slot)
        || is_whitespace(node, slot) && is_attr_or_doc(node, slot.saturating_sub(1))
}

fn is_attr_or_doc(node: &GreenNode, slot: usize) -> bool
    ensures { result ≡ is_attr_or_doc (branch_tree node.now) slot }
{
    match kind_at(node, slot) {
        Some(kind) => is_attr_or_doc_kind(kind),
        None => false,
    }
}

fn is_whitespace(node: &GreenNode, slot: usize) -> bool
    ensures { result ≡ is_whitespace (branch_tree node.now) slot }
{
    match kind_at(node, slot) {
        Some(kind) => kind == SyntaxKind::WHITESPACE,
        None => false,
    }
}

// The kind of the child in a slot, if there is one.
fn kind_at(node: &GreenNode, slot: usize) -> Option<SyntaxKind>
    ensures { option_map (λ k. k.0) result ≡ option_map label (slice_get (children (branch_tree node.now)) slot) }
{
    match node.children().get(slot) {
        Some(child) => Some(child.kind()),
        None => None,
    }
}

fn is_attr_or_doc_kind(kind: SyntaxKind) -> bool
    ensures { result ≡ list_any (λ k. kind.0 == k.0) (ATTR ∷ COMMENT ∷ DOC_COMMENT ∷ []) }
{
    matches!(
        kind,
        SyntaxKind::ATTR | SyntaxKind::COMMENT | SyntaxKind::DOC_COMMENT
    )
}
