//! The calls that record a change.
ghost use Rattle.std.specs.Prelude.{◌≡◌, false, ◌&&◌, ◌||◌, not, [], ◌∷◌, ◌++◌, true, IsTrue, IsOk, IfOk, IfErr, OnOk, OnErr};
ghost use Rattle.cst_core.specs.Element.{Element};
ghost use Rattle.edit_plan.specs.Fits.{Fits, is_native, is_native_position, is_root, is_one_node};
ghost use Rattle.change_list.specs.Recording.{is_deleted};
ghost use Rattle.change_list.specs.inner.ByPath.{is_replace};
ghost use Rattle.syntax_editor.specs.declared.error.RecordError.{RecordError};
ghost use Rattle.syntax_editor.specs.RecordCall.{Inserting, InsertingAll, Deleting, Replacing, ReplacingWithMany, DeletingAll, ReplacingAll};
ghost use Rattle.syntax_editor.specs.Editor.{Records, Takes, RecordRefuses, MemoryLast};

use crate::editor::SyntaxEditor;
use crate::error::RecordError;
use cst_core::{SyntaxElement, SyntaxNode};
use edit_change::{is_native, is_node, is_one_node, is_range, is_root};
use edit_plan::{Change, Element, Position};
use std::alloc::{AllocError, Global};

impl SyntaxEditor {
    /// Inserts an element at a position.
    ///
    /// `Foreign` comes where the position is of another tree, then `Memory`. The editor is unchanged after each.
    pub fn insert<E: Element>(
        &mut self,
        alloc: Global,
        at: Position,
        element: E,
    ) -> Result<(), RecordError>
        ensures recorded { OnOk result (Records (Inserting at (E.element element)) self.old self.new) }
        ensures accepted { OnOk result (Takes self.old (Inserting at (E.element element))) }
        ensures refused { IfErr result (RecordRefuses (Inserting at (E.element element)) self.old) }
        ensures memory_last { MemoryLast true (Inserting at (E.element element)) self.old result }
        ensures unchanged { OnErr result (self.new ≡ self.old) }
    {
        self.test_position(&at)?;
        let element = element.syntax_element(alloc)?;
        Ok(self.record(Change::Insert(at, element))?)
    }

    /// Inserts elements at a position, in their order. No elements are an insert too.
    ///
    /// `Foreign` comes where the position is of another tree, then `Memory`. The editor is unchanged after each.
    pub fn insert_all(
        &mut self,
        _alloc: Global,
        at: Position,
        elements: Vec<SyntaxElement>,
    ) -> Result<(), RecordError>
        ensures recorded { OnOk result (Records (InsertingAll at elements.items) self.old self.new) }
        ensures accepted { OnOk result (Takes self.old (InsertingAll at elements.items)) }
        ensures refused { IfErr result (RecordRefuses (InsertingAll at elements.items) self.old) }
        ensures memory_last { MemoryLast true (InsertingAll at elements.items) self.old result }
        ensures unchanged { OnErr result (self.new ≡ self.old) }
    {
        self.test_position(&at)?;
        Ok(self.record(Change::InsertAll(at, elements.into()))?)
    }

    /// Deletes an element. The first replacement of the same element becomes the deletion.
    ///
    /// `Foreign` comes first, then `DeletesRoot`, then `Memory`, which may come before them where the element is a reference. The
    /// editor is unchanged after each.
    pub fn delete<E: Element>(&mut self, alloc: Global, element: E) -> Result<(), RecordError>
        ensures recorded { OnOk result (Records (Deleting (E.element element)) self.old self.new) }
        ensures accepted { OnOk result (Takes self.old (Deleting (E.element element))) }
        ensures refused { IfErr result (RecordRefuses (Deleting (E.element element)) self.old) }
        ensures memory_last { MemoryLast E.is_owned (Deleting (E.element element)) self.old result }
        ensures unchanged { OnErr result (self.new ≡ self.old) }
    {
        let element = element.syntax_element(alloc)?;
        self.delete_element(element)
    }

    /// Deletes the siblings from `first` to `last`. If they are one element, that one is deleted.
    ///
    /// `Foreign` comes first, then `BadRange`, then `DeletesRoot`, then `Memory`, which may come before them where an end is a
    /// reference. The editor is unchanged after each.
    pub fn delete_all<E: Element>(
        &mut self,
        alloc: Global,
        first: E,
        last: E,
    ) -> Result<(), RecordError>
        ensures recorded { OnOk result (Records (DeletingAll (E.element first) (E.element last)) self.old self.new) }
        ensures accepted { OnOk result (Takes self.old (DeletingAll (E.element first) (E.element last))) }
        ensures refused { IfErr result (RecordRefuses (DeletingAll (E.element first) (E.element last)) self.old) }
        ensures memory_last { MemoryLast E.is_owned (DeletingAll (E.element first) (E.element last)) self.old result }
        ensures unchanged { OnErr result (self.new ≡ self.old) }
    {
        let first = first.syntax_element(alloc)?;
        let last = last.syntax_element(alloc)?;
        self.delete_range(alloc, first, last)
    }

    /// Replaces an element by another one. If the element already has a Replace, that change is updated; a deletion stays a
    /// deletion.
    ///
    /// `Foreign` comes first, then `RootReplacement` (a root replaced by a token), then `Memory`, which may come before them where
    /// one of the two is a reference. The editor is unchanged after each.
    pub fn replace<E: Element, F: Element>(
        &mut self,
        alloc: Global,
        element: E,
        new: F,
    ) -> Result<(), RecordError>
        ensures recorded { OnOk result (Records (Replacing (E.element element) (F.element new)) self.old self.new) }
        ensures accepted { OnOk result (Takes self.old (Replacing (E.element element) (F.element new))) }
        ensures refused { IfErr result (RecordRefuses (Replacing (E.element element) (F.element new)) self.old) }
        ensures memory_last { MemoryLast (E.is_owned && F.is_owned)
            (Replacing (E.element element) (F.element new)) self.old result }
        ensures unchanged { OnErr result (self.new ≡ self.old) }
    {
        let element = element.syntax_element(alloc)?;
        let new = new.syntax_element(alloc)?;
        self.replace_element(element, new)
    }

    /// Replaces an element by others, in their order. It is always a change of its own.
    ///
    /// `Foreign` comes first, then `RootReplacement` (a root replaced by other than one node), then `Memory`, which may come before
    /// them where the element is a reference. The editor is unchanged after each.
    pub fn replace_with_many<E: Element>(
        &mut self,
        alloc: Global,
        element: E,
        new: Vec<SyntaxElement>,
    ) -> Result<(), RecordError>
        ensures recorded { OnOk result (Records (ReplacingWithMany (E.element element) new.items) self.old self.new) }
        ensures accepted { OnOk result (Takes self.old (ReplacingWithMany (E.element element) new.items)) }
        ensures refused { IfErr result (RecordRefuses (ReplacingWithMany (E.element element) new.items) self.old) }
        ensures memory_last { MemoryLast E.is_owned (ReplacingWithMany (E.element element) new.items) self.old result }
        ensures unchanged { OnErr result (self.new ≡ self.old) }
    {
        let element = element.syntax_element(alloc)?;
        if !is_native(&self.root, &element) {
            return Err(RecordError::Foreign);
        }
        if is_misplaced(&element, &new) {
            return Err(RecordError::RootReplacement);
        }
        Ok(self.record(Change::ReplaceWithMany(element, new.into()))?)
    }

    /// Replaces the siblings from `first` to `last` by others, in their order. If they are one element, that one is replaced as by
    /// `replace_with_many`.
    ///
    /// `Foreign` comes first, then `BadRange`, then `RootReplacement`, then `Memory`, which may come before them where an end is a
    /// reference. The editor is unchanged after each.
    pub fn replace_all<E: Element>(
        &mut self,
        alloc: Global,
        first: E,
        last: E,
        new: Vec<SyntaxElement>,
    ) -> Result<(), RecordError>
        ensures recorded { OnOk result (Records
            (ReplacingAll (E.element first) (E.element last) new.items) self.old self.new) }
        ensures accepted { OnOk result (Takes self.old (ReplacingAll (E.element first) (E.element last) new.items)) }
        ensures refused { IfErr result (RecordRefuses
            (ReplacingAll (E.element first) (E.element last) new.items) self.old) }
        ensures memory_last { MemoryLast E.is_owned
            (ReplacingAll (E.element first) (E.element last) new.items) self.old result }
        ensures unchanged { OnErr result (self.new ≡ self.old) }
    {
        let first = first.syntax_element(alloc)?;
        let last = last.syntax_element(alloc)?;
        self.replace_range(first, last, new)
    }

    /// Whether an element is deleted by a call that named it alone. A range that it lies in does not count. An element that is
    /// passed by value is answered without memory.
    pub fn deleted<E: Element>(&self, alloc: Global, element: E) -> Result<bool, AllocError>
        ensures value { IfOk result (λ b. b ≡ is_deleted (E.element element) self.now.changes) }
        ensures owned { IsTrue E.is_owned → IsOk result }
    {
        let element = element.syntax_element(alloc)?;
        Ok(self.is_deleted(&element))
    }

    fn is_deleted(&self, element: &SyntaxElement) -> bool
        ensures { result ≡ is_deleted element.now self.now.changes }
    {
        if element.tree() != self.root.tree() {
            return false;
        }
        self.changes.has_deletion(element.slots())
    }

    // Puts one more change at the end of the list, which no later call takes up.
    fn record(&mut self, change: Change) -> Result<(), AllocError>
        requires fits { Fits self.old.root change }
        requires other { is_replace change ≡ false }
        ensures recorded { OnOk result (self.new ≡ record self.old { changes = self.old.changes ++ change ∷ [] }) }
        ensures unchanged { OnErr result (self.new ≡ self.old) }
    {
        Ok(self.changes.push(change)?)
    }

    fn delete_element(&mut self, element: SyntaxElement) -> Result<(), RecordError>
        ensures recorded { OnOk result (Records (Deleting element) self.old self.new) }
        ensures accepted { OnOk result (Takes self.old (Deleting element)) }
        ensures refused { IfErr result (RecordRefuses (Deleting element) self.old) }
        ensures memory_last { MemoryLast true (Deleting element) self.old result }
        ensures unchanged { OnErr result (self.new ≡ self.old) }
    {
        if !is_native(&self.root, &element) {
            return Err(RecordError::Foreign);
        }
        if is_root(&element) {
            return Err(RecordError::DeletesRoot);
        }
        Ok(self.changes.delete(element)?)
    }

    fn replace_element(
        &mut self,
        element: SyntaxElement,
        new: SyntaxElement,
    ) -> Result<(), RecordError>
        ensures recorded { OnOk result (Records (Replacing element new) self.old self.new) }
        ensures accepted { OnOk result (Takes self.old (Replacing element new)) }
        ensures refused { IfErr result (RecordRefuses (Replacing element new) self.old) }
        ensures memory_last { MemoryLast true (Replacing element new) self.old result }
        ensures unchanged { OnErr result (self.new ≡ self.old) }
    {
        if !is_native(&self.root, &element) {
            return Err(RecordError::Foreign);
        }
        if is_root(&element) && !is_node(&new) {
            return Err(RecordError::RootReplacement);
        }
        Ok(self.changes.replace(element, new)?)
    }

    fn delete_range(
        &mut self,
        alloc: Global,
        first: SyntaxElement,
        last: SyntaxElement,
    ) -> Result<(), RecordError>
        ensures recorded { OnOk result (Records (DeletingAll first last) self.old self.new) }
        ensures accepted { OnOk result (Takes self.old (DeletingAll first last)) }
        ensures refused { IfErr result (RecordRefuses (DeletingAll first last) self.old) }
        ensures memory_last { MemoryLast true (DeletingAll first last) self.old result }
        ensures unchanged { OnErr result (self.new ≡ self.old) }
    {
        self.test_deleting_all(&first, &last)?;
        if first == last {
            return Ok(self.changes.delete(first)?);
        }
        let nothing = Vec::new(alloc);
        Ok(self.record(Change::ReplaceAll(first, last, nothing.into()))?)
    }

    fn replace_range(
        &mut self,
        first: SyntaxElement,
        last: SyntaxElement,
        new: Vec<SyntaxElement>,
    ) -> Result<(), RecordError>
        ensures recorded { OnOk result (Records (ReplacingAll first last new.items) self.old self.new) }
        ensures accepted { OnOk result (Takes self.old (ReplacingAll first last new.items)) }
        ensures refused { IfErr result (RecordRefuses (ReplacingAll first last new.items) self.old) }
        ensures memory_last { MemoryLast true (ReplacingAll first last new.items) self.old result }
        ensures unchanged { OnErr result (self.new ≡ self.old) }
    {
        self.test_replacing_all(&first, &last, &new)?;
        if first == last {
            return Ok(self.record(Change::ReplaceWithMany(first, new.into()))?);
        }
        Ok(self.record(Change::ReplaceAll(first, last, new.into()))?)
    }

    // Whether a position is of the editor's tree. It is borrowed, so that a refusal has nothing to let go.
    pub(crate) fn test_position(&self, at: &Position) -> Result<(), RecordError>
        ensures native { OnOk result (is_native_position self.now.root at.now ≡ true) }
        ensures foreign { OnErr result (is_native_position self.now.root at.now ≡ false) }
        ensures refused { IfErr result (λ e. e ≡ RecordError.Foreign) }
    {
        if !at.is_native(&self.root) {
            return Err(RecordError::Foreign);
        }
        Ok(())
    }

    // Whether a deletion of siblings is taken. It borrows them, so that a refusal has nothing to let go.
    fn test_deleting_all(
        &self,
        first: &SyntaxElement,
        last: &SyntaxElement,
    ) -> Result<(), RecordError>
        ensures taken { OnOk result (Takes self.now (DeletingAll first.now last.now)) }
        ensures refused { IfErr result (RecordRefuses (DeletingAll first.now last.now) self.now) }
        ensures memory_last { MemoryLast true (DeletingAll first.now last.now) self.now result }
    {
        if is_foreign_range(&self.root, first, last) {
            return Err(RecordError::Foreign);
        }
        if !is_range(first, last) {
            return Err(RecordError::BadRange);
        }
        if is_root(first) {
            return Err(RecordError::DeletesRoot);
        }
        Ok(())
    }

    // The same of a replacement of siblings.
    fn test_replacing_all(
        &self,
        first: &SyntaxElement,
        last: &SyntaxElement,
        new: &[SyntaxElement],
    ) -> Result<(), RecordError>
        ensures taken { OnOk result (Takes self.now (ReplacingAll first.now last.now new.now)) }
        ensures refused { IfErr result (RecordRefuses (ReplacingAll first.now last.now new.now) self.now) }
        ensures memory_last { MemoryLast true (ReplacingAll first.now last.now new.now) self.now result }
    {
        if is_foreign_range(&self.root, first, last) {
            return Err(RecordError::Foreign);
        }
        if !is_range(first, last) {
            return Err(RecordError::BadRange);
        }
        if is_misplaced(first, new) {
            return Err(RecordError::RootReplacement);
        }
        Ok(())
    }
}

// Whether an end of a range is of another tree.
fn is_foreign_range(root: &SyntaxNode, first: &SyntaxElement, last: &SyntaxElement) -> bool
    requires { root.now.path ≡ [] }
    ensures { result ≡ (not (is_native root.now first.now) || not (is_native root.now last.now)) }
{
    !is_native(root, first) || !is_native(root, last)
}

// Whether a root would be replaced by other than one node.
fn is_misplaced(target: &SyntaxElement, new: &[SyntaxElement]) -> bool
    ensures { result ≡ (is_root target.now && not (is_one_node new.now)) }
{
    is_root(target) && !is_one_node(new)
}
