//! Inserting elements with the whitespace that goes round them.
ghost use Rattle.std.specs.Prelude.{◌≡◌, ◌+◌, ◌∷◌, [], None, IfErr, OnOk, OnErr};
ghost use Rattle.whitespace.specs.Spacing.{numbers_needed};
ghost use Rattle.syntax_editor.specs.SpacingCalls.{spaced_insert, spacing_refusal, SpacingRefuses};
ghost use Rattle.syntax_editor.specs.Editor.{Records};

use crate::editor::SyntaxEditor;
use crate::error::RecordError;
use cst_core::{SyntaxElement, TreeIds};
use edit_change::trial_source;
use edit_plan::{Element, Position};
use std::alloc::Global;
use whitespace::elements_with_spaces;

impl SyntaxEditor {
    /// Inserts elements at a position, in their order, with whitespace before and after them as the kinds and levels of their
    /// neighbors ask for it: see 'whitespace: Spacing' in docs/DEFINITIONS.md. It is recorded as
    /// one insert. No elements are an insert too, without whitespace.
    ///
    /// Each whitespace token is in a tree of its own, under the next number of `ids`. `Foreign` comes first, where the position
    /// is of another tree, then `LevelTooLarge`, where a new line would have a level past 255, then `NoTreeNumber`; `Memory` may come
    /// at any time after `Foreign`. The editor is unchanged after each, and no number is drawn.
    pub fn insert_all_with_whitespace(
        &mut self,
        alloc: Global,
        ids: &mut TreeIds,
        at: Position,
        elements: Vec<SyntaxElement>,
    ) -> Result<(), RecordError>
        ensures recorded { OnOk result (Records (spaced_insert ids.old at elements.items) self.old self.new) }
        ensures accepted { OnOk result (spacing_refusal self.old.root ids.old at elements.items ≡ None) }
        ensures drawn { OnOk result (ids.new ≡ ids.old + numbers_needed at elements.items) }
        ensures refused { IfErr result (SpacingRefuses self.old ids.old at elements.items) }
        ensures unchanged { OnErr result (self.new ≡ self.old) }
        ensures err { OnErr result (ids.new ≡ ids.old) }
    {
        self.test_position(&at)?;
        // The numbers are drawn last, when nothing can fail any more.
        let mut drawn = trial_source(ids);
        let all = match elements_with_spaces(alloc, &mut drawn, &at, elements) {
            Ok(all) => all,
            Err(error) => return Err(RecordError::of_space(error)),
        };
        self.insert_all(alloc, at, all)?;
        *ids = drawn;
        Ok(())
    }

    /// Inserts an element at a position, with whitespace round it, as `insert_all_with_whitespace` does.
    ///
    /// The refusals are the same.
    pub fn insert_with_whitespace<E: Element>(
        &mut self,
        alloc: Global,
        ids: &mut TreeIds,
        at: Position,
        element: E,
    ) -> Result<(), RecordError>
        ensures recorded { OnOk result (Records (spaced_insert ids.old at (E.element element ∷ [])) self.old self.new) }
        ensures accepted { OnOk result (spacing_refusal self.old.root ids.old at (E.element element ∷ []) ≡ None) }
        ensures drawn { OnOk result (ids.new ≡ ids.old + numbers_needed at (E.element element ∷ [])) }
        ensures refused { IfErr result (SpacingRefuses self.old ids.old at (E.element element ∷ [])) }
        ensures unchanged { OnErr result (self.new ≡ self.old) }
        ensures err { OnErr result (ids.new ≡ ids.old) }
    {
        self.test_position(&at)?;
        let element = element.syntax_element(alloc)?;
        let mut elements = Vec::new(alloc);
        elements.push(element)?;
        self.insert_all_with_whitespace(alloc, ids, at, elements)
    }
}
