//! The calls of an editor that lines make to record a change.
ghost use Rattle.std.specs.Prelude.{map, option_and_then};
ghost use Rattle.script_lines.specs.LineValue.{ref_of, gap_of, line_of};
ghost use Rattle.script_lines.specs.ScriptLine.{Delete, Remove};
ghost use Rattle.syntax_editor.specs.RecordCall.{Inserting, InsertingAll, Replacing, ReplacingWithMany};
ghost use Rattle.syntax_editor.specs.RecordCall.{DeletingAll, ReplacingAll};
ghost use Rattle.syned_script.specs.State.{element_in, elements_in, position_in, of_both, call_in};
ghost use Rattle.syned_script.specs.inner.Stops.{RecordGives};
ghost use Rattle.syned_script.specs.inner.SessionState.{roots_of};

use crate::fault::Reason;
use crate::roots::Roots;
use crate::stop::Stop;
use cst_core::SyntaxKind;
use list_removal::remove_separated;
use script_lines::{Line, Reference, WrittenPosition};
use std::alloc::Global;
use syntax_editor::SyntaxEditor;

/// Makes the call of a line that has one. One new element has a call of its own, and so has a range without any.
pub(crate) fn record(
    alloc: Global,
    roots: &Roots,
    editor: &mut SyntaxEditor,
    line: &Line<'_>,
) -> Result<(), Stop>
    ensures { RecordGives (call_in (roots_of roots.now) (line_of line.now)) editor.old result editor.new }
{
    match line {
        Line::Insert { at, payload } => {
            let payload = payload.as_slice();
            if payload.len() == 1 {
                insert_one(alloc, roots, editor, at, &payload[0])
            } else {
                insert_all(alloc, roots, editor, at, payload)
            }
        }
        Line::Delete { target } => delete(alloc, roots, editor, target),
        Line::Replace { target, payload } => {
            let payload = payload.as_slice();
            if payload.len() == 1 {
                replace_by_one(alloc, roots, editor, target, &payload[0])
            } else {
                replace_with_many(alloc, roots, editor, target, payload)
            }
        }
        Line::Range {
            first,
            last,
            payload,
        } => {
            let payload = payload.as_slice();
            if payload.is_empty() {
                delete_all(alloc, roots, editor, first, last)
            } else {
                replace_all(alloc, roots, editor, first, last, payload)
            }
        }
        Line::Remove { element, separator } => remove(alloc, roots, editor, element, *separator),
        // The other lines have no call.
        _ => Err(Stop::bad(0, Reason::NoEdit)),
    }
}

fn insert_one(
    alloc: Global,
    roots: &Roots,
    editor: &mut SyntaxEditor,
    at: &WrittenPosition<'_>,
    payload: &Reference<'_>,
) -> Result<(), Stop>
    ensures { RecordGives
        (of_both Inserting (position_in (roots_of roots.now) (gap_of at.now))
        (element_in (roots_of roots.now) (ref_of payload.now)))
        editor.old result editor.new }
{
    let at = roots.position(alloc, at)?;
    let element = roots.element(alloc, payload)?;
    editor.insert(alloc, at, element).map_err(Stop::from)
}

fn insert_all(
    alloc: Global,
    roots: &Roots,
    editor: &mut SyntaxEditor,
    at: &WrittenPosition<'_>,
    payload: &[Reference<'_>],
) -> Result<(), Stop>
    ensures { RecordGives
        (of_both InsertingAll (position_in (roots_of roots.now) (gap_of at.now))
        (elements_in (roots_of roots.now) (map ref_of payload.now)))
        editor.old result editor.new }
{
    let at = roots.position(alloc, at)?;
    let elements = roots.elements(alloc, payload)?;
    editor.insert_all(alloc, at, elements).map_err(Stop::from)
}

// Deletes an element.
fn delete(
    alloc: Global,
    roots: &Roots,
    editor: &mut SyntaxEditor,
    target: &Reference<'_>,
) -> Result<(), Stop>
    ensures { RecordGives (call_in (roots_of roots.now) (Delete (ref_of target.now))) editor.old result editor.new }
{
    let target = roots.element(alloc, target)?;
    editor.delete(alloc, target).map_err(Stop::from)
}

fn replace_by_one(
    alloc: Global,
    roots: &Roots,
    editor: &mut SyntaxEditor,
    target: &Reference<'_>,
    payload: &Reference<'_>,
) -> Result<(), Stop>
    ensures { RecordGives
        (of_both Replacing (element_in (roots_of roots.now) (ref_of target.now))
        (element_in (roots_of roots.now) (ref_of payload.now)))
        editor.old result editor.new }
{
    let target = roots.element(alloc, target)?;
    let element = roots.element(alloc, payload)?;
    editor.replace(alloc, target, element).map_err(Stop::from)
}

fn replace_with_many(
    alloc: Global,
    roots: &Roots,
    editor: &mut SyntaxEditor,
    target: &Reference<'_>,
    payload: &[Reference<'_>],
) -> Result<(), Stop>
    ensures { RecordGives
        (of_both ReplacingWithMany (element_in (roots_of roots.now) (ref_of target.now))
        (elements_in (roots_of roots.now) (map ref_of payload.now)))
        editor.old result editor.new }
{
    let elements = roots.elements(alloc, payload)?;
    let target = roots.element(alloc, target)?;
    editor
        .replace_with_many(alloc, target, elements)
        .map_err(Stop::from)
}

fn delete_all(
    alloc: Global,
    roots: &Roots,
    editor: &mut SyntaxEditor,
    first: &Reference<'_>,
    last: &Reference<'_>,
) -> Result<(), Stop>
    ensures { RecordGives
        (of_both DeletingAll (element_in (roots_of roots.now) (ref_of first.now))
        (element_in (roots_of roots.now) (ref_of last.now)))
        editor.old result editor.new }
{
    let first = roots.element(alloc, first)?;
    let last = roots.element(alloc, last)?;
    editor.delete_all(alloc, first, last).map_err(Stop::from)
}

fn replace_all(
    alloc: Global,
    roots: &Roots,
    editor: &mut SyntaxEditor,
    first: &Reference<'_>,
    last: &Reference<'_>,
    payload: &[Reference<'_>],
) -> Result<(), Stop>
    ensures { RecordGives
        (option_and_then (λ e. of_both (ReplacingAll e) (element_in (roots_of roots.now) (ref_of last.now))
        (elements_in (roots_of roots.now) (map ref_of payload.now)))
        (element_in (roots_of roots.now) (ref_of first.now)))
        editor.old result editor.new }
{
    let elements = roots.elements(alloc, payload)?;
    let first = roots.element(alloc, first)?;
    let last = roots.element(alloc, last)?;
    editor
        .replace_all(alloc, first, last, elements)
        .map_err(Stop::from)
}

// Removes an element of a separated list.
fn remove(
    alloc: Global,
    roots: &Roots,
    editor: &mut SyntaxEditor,
    element: &Reference<'_>,
    separator: SyntaxKind,
) -> Result<(), Stop>
    ensures { RecordGives
        (call_in (roots_of roots.now) (Remove (ref_of element.now) separator)) editor.old result editor.new }
{
    let element = roots.element(alloc, element)?;
    remove_separated(alloc, editor, &element, separator).map_err(Stop::from)
}
