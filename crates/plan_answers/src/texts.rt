//! A plan as a text, the text edits that it makes, and what is made of these.

use std::alloc::{AllocError, Global};
use syned_script::Words;
use syntax_editor::{Change, EditPlan, ElementCursor, SyntaxEdit, TextEdits};
use test_trees::push_quoted;
use text_edit::{LineIndex, WideEncoding};

/// The plan's text, each change as a plain text, the text edits, and where these have the elements of each annotation.
pub fn push_texts(
    alloc: Global,
    out: &mut String,
    plan: &EditPlan,
    edit: &SyntaxEdit,
    words: &Words,
) -> Result<(), AllocError> {
    push_fates(alloc, out, plan)?;
    for (number, change) in plan.changes().iter().enumerate() {
        write!(out, "shown {number} ")?;
        push_change(alloc, out, change)?;
    }
    let old = edit.old_root().text(alloc)?;
    let edits = plan.text_edits(alloc)?;
    push_text_edits(alloc, out, &edits, &old)?;
    for (index, word) in words.in_order().iter().enumerate() {
        push_cursors(
            out,
            index + 1,
            &edit.find_cursors(alloc, word.annotation, &edits)?,
        )?;
    }
    Ok(())
}

fn push_fates(alloc: Global, out: &mut String, plan: &EditPlan) -> Result<(), AllocError> {
    let text = plan.to_string(alloc)?;
    for line in text.lines() {
        writeln!(out, "fate {line}")?;
    }
    Ok(())
}

fn push_change(alloc: Global, out: &mut String, change: &Change) -> Result<(), AllocError> {
    let text = change.plain_text(alloc)?;
    push_line(out, &text)
}

// A text in quotes, and the end of its line.
fn push_line(out: &mut String, text: &str) -> Result<(), AllocError> {
    push_quoted(out, text)?;
    out.push('\n')
}

// The edits of a plan fit its old text, so if they are refused there, memory is.
fn push_text_edits(
    alloc: Global,
    out: &mut String,
    edits: &TextEdits,
    old: &str,
) -> Result<(), AllocError> {
    push_list(out, "cut", edits)?;
    let lines = LineIndex::new(alloc, old)?;
    for edit in edits.as_slice() {
        out.push_str("lines")?;
        push_place(out, &lines, edit.start)?;
        push_place(out, &lines, edit.end)?;
        out.push('\n')?;
    }
    out.push_str("makes ")?;
    push_line(out, &edits.apply(alloc, old).map_err(|_| AllocError)?)?;
    push_list(
        out,
        "back",
        &edits.inverse(alloc, old).map_err(|_| AllocError)?,
    )?;
    push_list(
        out,
        "trim",
        &edits.trimmed(alloc, old).map_err(|_| AllocError)?,
    )
}

fn push_list(out: &mut String, word: &str, edits: &TextEdits) -> Result<(), AllocError> {
    for edit in edits.as_slice() {
        write!(out, "{word} {} {} ", edit.start, edit.end)?;
        push_line(out, &edit.text)?;
    }
    Ok(())
}

// The line and column of an offset, and the column in units of UTF-16.
fn push_place(out: &mut String, lines: &LineIndex<'_>, offset: u64) -> Result<(), AllocError> {
    let Some(place) = lines.try_line_col(offset) else {
        return out.push_str(" none");
    };
    write!(out, " {} {}", place.line, place.col)?;
    match lines.to_wide(WideEncoding::Utf16, place) {
        Some(wide) => write!(out, " {}", wide.col),
        None => out.push_str(" none"),
    }
}

// Where the elements of an annotation are.
fn push_cursors(
    out: &mut String,
    number: usize,
    places: &[ElementCursor],
) -> Result<(), AllocError> {
    for place in places {
        write!(out, "cursor {number} {} {}: ", place.start, place.end)?;
        match place.in_edit {
            Some(it) => writeln!(out, "{} {} {}", it.edit, it.start, it.end)?,
            None => out.push_str("none\n")?,
        }
    }
    Ok(())
}
