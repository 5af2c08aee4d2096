//! The calls that register elements with annotations.
ghost use Rattle.std.specs.Prelude.{◌≡◌, [], ◌∷◌, map, IfErr, OnOk, OnErr};
ghost use Rattle.syntax_editor.specs.declared.error.RecordError.{RecordError};
ghost use Rattle.syntax_editor.specs.Editor.{Registers};

use crate::editor::SyntaxEditor;
use crate::error::RecordError;
use edit_plan::{Element, SyntaxAnnotation};
use std::alloc::Global;

impl SyntaxEditor {
    /// Registers an element with an annotation, after what was registered before. The element may be of any tree, and may have
    /// been registered before.
    ///
    /// Refused for `Memory` alone. The editor is unchanged then.
    pub fn add_annotation<E: Element>(
        &mut self,
        alloc: Global,
        element: E,
        annotation: SyntaxAnnotation,
    ) -> Result<(), RecordError>
        ensures registered { OnOk result (Registers annotation (E.element element ∷ []) self.old self.new) }
        ensures refused { IfErr result (λ e. e ≡ RecordError.Memory) }
        ensures unchanged { OnErr result (self.new ≡ self.old) }
    {
        let registration = (element.syntax_element(alloc)?, annotation);
        self.registrations.push(registration)?;
        Ok(())
    }

    /// Registers each of these elements with an annotation, in their order, as `add_annotation` does one.
    ///
    /// Refused for `Memory` alone. The editor is unchanged then.
    pub fn add_annotation_all<E: Element>(
        &mut self,
        alloc: Global,
        elements: Vec<E>,
        annotation: SyntaxAnnotation,
    ) -> Result<(), RecordError>
        ensures registered { OnOk result (Registers annotation (map E.element elements.items) self.old self.new) }
        ensures refused { IfErr result (λ e. e ≡ RecordError.Memory) }
        ensures unchanged { OnErr result (self.new ≡ self.old) }
    {
        let mut added = Vec::with_capacity(alloc, elements.len())?;
        for element in elements {
            let element = element.syntax_element(alloc)?;
            added.push((element, annotation))?;
        }
        Ok(self.registrations.append(&mut added)?)
    }
}
