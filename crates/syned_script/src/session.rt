//! The state of a script that is carried out line by line.
ghost use Rattle.std.specs.Prelude.{◌≡◌, ◌≢◌, ◌↔◌, IsTrue, true, is_some, map, IfOk, IfErr, OnOk};
ghost use Rattle.script_lines.specs.LineValue.{ref_of, refs_of, gap_of, line_of, texts_of};
ghost use Rattle.script_lines.specs.ScriptLine as says;
ghost use Rattle.cst_core.specs.Green.{branch_tree};
ghost use Rattle.syned_script.specs.State.{new_state, no_details, recorded_in, call_in, Goes, Refuses, IsBad};
ghost use Rattle.syned_script.specs.inner.Stops.{LineGives, StopsFor};
ghost use Rattle.syned_script.specs.inner.SessionState.{editing_of, state_of};
ghost use Rattle.syned_script.specs.declared.fault.Reason.TheVariants.{NoEdit};
ghost use Rattle.syned_script.specs.declared.stop.Stop.TheVariants.{Bad};

use crate::calls;
use crate::fault::Reason;
use crate::kinds::name_kinds;
use crate::mapped::map_pair;
use crate::roots::Roots;
use crate::shifted::shifted;
use crate::shown::Details;
use crate::stop::Stop;
use crate::words::Words;
use cst_core::{GreenNode, SyntaxKind, SyntaxNode, TreeIds};
use script_lines::{
    Detail, Dialect, Field, Language, Line, Name, Reference, Shift, WrittenPosition,
};
use std::alloc::Global;
use syntax_editor::SyntaxEditor;

/// The language of a script, its trees, its source of tree numbers, and what it edits once there is something.
pub(crate) struct Session {
    alloc: Global,
    pub(crate) language: Language,
    ids: TreeIds,
    roots: Roots,
    words: Words,
    editing: Option<Editing>,
}

// One call lets a value go, not one for each field.
impl Drop for Session {
    fn drop(self) {
        let Session {
            alloc: _,
            language: _,
            ids: _,
            roots: _,
            words: _,
            editing: _,
        } = self;
    }
}

/// The editor of a script, the order of its changes, where the script says one, and what its answer shows besides.
#[derive(Drop)]
pub(crate) struct Editing {
    pub(crate) editor: SyntaxEditor,
    pub(crate) order: Option<Vec<usize>>,
    pub(crate) details: Details,
}

/// What a script has come to where it ends.
#[derive(Drop)]
pub(crate) struct Parts {
    pub(crate) editing: Editing,
    pub(crate) ids: TreeIds,
    pub(crate) words: Words,
    pub(crate) language: Language,
}

impl Session {
    pub(crate) fn new(alloc: Global, dialect: Dialect) -> Session
        ensures { state_of result ≡ new_state dialect }
    {
        Session {
            alloc,
            language: Language::new(alloc, dialect),
            ids: TreeIds::new(1),
            roots: Roots::new(alloc),
            words: Words::new(alloc),
            editing: None,
        }
    }

    /// Carries out a line that does not end the script.
    pub(crate) fn carry_out(&mut self, line: &Line<'_>) -> Result<(), Stop>
        requires { line_of line.now ≢ says.Finish }
        ensures { LineGives (state_of self.old) (line_of line.now) result (state_of self.new) }
    {
        match line {
            Line::Blank => Ok(()),
            Line::Kinds { names } => self.name_kinds(names),
            Line::Tree { name, root } => self.add_tree(*name, root),
            Line::Edit { name, node } => self.edit(*name, node),
            Line::Map {
                parent,
                input,
                output,
            } => self.map(parent, input, output),
            Line::Insert { .. }
            | Line::Delete { .. }
            | Line::Replace { .. }
            | Line::Range { .. }
            | Line::Remove { .. } => self.record(line),
            Line::Note { word, element } => self.note(*word, element),
            Line::Order { order } => self.order(order),
            Line::Show { detail } => self.show(*detail),
            Line::Spaced { at, payload } => self.insert_spaced(at, payload),
            Line::Wrap {
                node,
                kind,
                before,
                after,
            } => self.wrap(node, *kind, before, after),
            Line::Shifted { shift, name, node } => self.add_shifted(*shift, *name, node),
            Line::Finish => Err(Stop::bad(0, Reason::NoFinish)),
        }
    }

    /// Whether there is an editor.
    pub(crate) fn is_editing(&self) -> bool
        ensures { result ≡ is_some (state_of self.now).editing }
    {
        self.editing.is_some()
    }

    /// How many changes there are.
    pub(crate) fn count(&self) -> usize {
        match &self.editing {
            Some(editing) => editing.editor.changes().len(),
            None => 0,
        }
    }

    /// What the script has come to; `Bad` where nothing is edited.
    pub(crate) fn into_parts(self) -> Result<Parts, Stop>
        ensures editing { IfOk result (λ r. (state_of self).editing ≡ Some (editing_of r.editing)) }
        ensures others { IfOk result (λ r. (r.ids ≡ self.ids) × (r.words ≡ self.words) × (r.language ≡ self.language)) }
        ensures nothing { IfErr result (StopsFor ((state_of self).editing ≡ None) (λ r. ⊥)) }
    {
        let Session {
            alloc: _,
            language,
            ids,
            roots: _,
            words,
            editing,
        } = self;
        let editing = editing.ok_or(Stop::bad(0, Reason::NoEdit))?;
        Ok(Parts {
            editing,
            ids,
            words,
            language,
        })
    }

    fn name_kinds(&mut self, names: &[Field<'_>]) -> Result<(), Stop>
        ensures { LineGives (state_of self.old) (says.Kinds (texts_of names.now)) result (state_of self.new) }
    {
        if !self.is_without_trees() {
            return Err(Stop::bad(0, Reason::KindsTooLate));
        }
        name_kinds(self.alloc, &mut self.language.names, names)
    }

    // Whether the next tree is the first.
    fn is_without_trees(&self) -> bool
        ensures { IsTrue result ↔ ((state_of self.now).next ≡ 1) }
    {
        match self.ids.peek() {
            Some(next) => next == 1,
            None => false,
        }
    }

    fn add_tree(&mut self, name: Name<'_>, root: &GreenNode) -> Result<(), Stop>
        ensures { LineGives (state_of self.old) (says.Tree name.entry.text.now (branch_tree root.now))
            result (state_of self.new) }
    {
        if self.roots.is_taken(name) {
            return Err(Stop::bad(name.at(), Reason::NameTaken));
        }
        let root = root.share(self.alloc)?;
        let root = SyntaxNode::new_root(self.alloc, &mut self.ids, root)?;
        self.roots.add(self.alloc, name, root)
    }

    fn add_shifted(
        &mut self,
        shift: Shift,
        name: Name<'_>,
        node: &Reference<'_>,
    ) -> Result<(), Stop>
        ensures { LineGives (state_of self.old) (says.Shifted shift name.entry.text.now (ref_of node.now))
            result (state_of self.new) }
    {
        if self.roots.is_taken(name) {
            return Err(Stop::bad(name.at(), Reason::NameTaken));
        }
        let node = self.roots.node(self.alloc, node)?;
        let moved = shifted(self.alloc, shift, &node, &mut self.ids)?;
        self.roots.add(self.alloc, name, moved)
    }

    fn edit(&mut self, name: Name<'_>, node: &Reference<'_>) -> Result<(), Stop>
        ensures { LineGives (state_of self.old) (says.Edit name.entry.text.now (ref_of node.now))
            result (state_of self.new) }
    {
        if self.is_editing() {
            return Err(Stop::bad(0, Reason::SecondEdit));
        }
        if self.roots.is_taken(name) {
            return Err(Stop::bad(name.at(), Reason::NameTaken));
        }
        let node = self.roots.node(self.alloc, node)?;
        let (editor, edited) = SyntaxEditor::new(self.alloc, &mut self.ids, node)?;
        self.begin(editor);
        self.roots.add(self.alloc, name, edited)
    }

    // Edits from now on.
    fn begin(&mut self, editor: SyntaxEditor)
        ensures { self.new ≡ record self.old
            { editing = Some (record { editor = editor; order = None; details = no_details }) } }
    {
        self.editing = Some(Editing {
            editor,
            order: None,
            details: Details::none(),
        });
    }

    fn map(
        &mut self,
        parent: &Reference<'_>,
        input: &Reference<'_>,
        output: &Reference<'_>,
    ) -> Result<(), Stop>
        ensures { LineGives (state_of self.old) (says.Map (ref_of parent.now) (ref_of input.now) (ref_of output.now))
            result (state_of self.new) }
    {
        match &mut self.editing {
            Some(editing) => map_pair(
                self.alloc,
                &self.roots,
                &mut editing.editor,
                parent,
                input,
                output,
            ),
            None => Err(no_edit()),
        }
    }

    // Makes the call of a line that has one.
    fn record(&mut self, line: &Line<'_>) -> Result<(), Stop>
        ensures recorded { OnOk result
            (recorded_in (state_of self.old) (call_in (state_of self.old).roots (line_of line.now))
            ≡ Goes (state_of self.new)) }
        ensures stops { IfErr result (StopsFor
            (recorded_in (state_of self.old) (call_in (state_of self.old).roots (line_of line.now)) ≡ IsBad)
            (λ r. recorded_in (state_of self.old) (call_in (state_of self.old).roots (line_of line.now)) ≡ Refuses r)) }
    {
        match &mut self.editing {
            Some(editing) => calls::record(self.alloc, &self.roots, &mut editing.editor, line),
            None => Err(no_edit()),
        }
    }

    fn insert_spaced(
        &mut self,
        at: &WrittenPosition<'_>,
        payload: &[Reference<'_>],
    ) -> Result<(), Stop>
        ensures { LineGives (state_of self.old) (says.Spaced (gap_of at.now) (map ref_of payload.now))
            result (state_of self.new) }
    {
        match &mut self.editing {
            Some(editing) => {
                let at = self.roots.position(self.alloc, at)?;
                let elements = self.roots.elements(self.alloc, payload)?;
                editing
                    .editor
                    .insert_all_with_whitespace(self.alloc, &mut self.ids, at, elements)
                    .map_err(Stop::from)
            }
            None => Err(no_edit()),
        }
    }

    fn wrap(
        &mut self,
        node: &Reference<'_>,
        kind: SyntaxKind,
        before: &[Reference<'_>],
        after: &[Reference<'_>],
    ) -> Result<(), Stop>
        ensures { LineGives (state_of self.old)
            (says.Wrap (ref_of node.now) kind (map ref_of before.now) (map ref_of after.now))
            result (state_of self.new) }
    {
        match &mut self.editing {
            Some(editing) => {
                let node = self.roots.node(self.alloc, node)?;
                let before = self.roots.elements(self.alloc, before)?;
                let after = self.roots.elements(self.alloc, after)?;
                editing
                    .editor
                    .wrap(self.alloc, &mut self.ids, &node, kind, &before, &after)?;
                Ok(())
            }
            None => Err(no_edit()),
        }
    }

    fn note(&mut self, word: Name<'_>, element: &Reference<'_>) -> Result<(), Stop>
        ensures { LineGives (state_of self.old) (says.Note word.entry.text.now (ref_of element.now))
            result (state_of self.new) }
    {
        match &mut self.editing {
            Some(editing) => {
                let element = self.roots.element(self.alloc, element)?;
                let annotation = self.words.annotation(self.alloc, word)?;
                editing
                    .editor
                    .add_annotation(self.alloc, element, annotation)
                    .map_err(Stop::from)
            }
            None => Err(no_edit()),
        }
    }

    fn order(&mut self, order: &Vec<usize>) -> Result<(), Stop>
        ensures { LineGives (state_of self.old) (says.Order order.now.items) result (state_of self.new) }
    {
        match &mut self.editing {
            Some(editing) => {
                if editing.order.is_some() {
                    return Err(Stop::bad(0, Reason::SecondOrder));
                }
                editing.order = Some(order.clone()?);
                Ok(())
            }
            None => Err(no_edit()),
        }
    }

    // What the answer shows besides.
    fn show(&mut self, detail: Detail) -> Result<(), Stop>
        ensures { LineGives (state_of self.old) (says.Show detail) result (state_of self.new) }
    {
        match &mut self.editing {
            Some(editing) => {
                editing.details.add(detail);
                Ok(())
            }
            None => Err(no_edit()),
        }
    }
}

fn no_edit() -> Stop
    ensures { result ≡ Bad (record { at = 0; reason = NoEdit }) }
{
    Stop::bad(0, Reason::NoEdit)
}
