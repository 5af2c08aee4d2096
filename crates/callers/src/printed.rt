//! What a plan makes, as it is printed.

use anyhow::Result;
use cst_core::TreeIds;
use std::alloc::Global;
use syntax_editor::{EditPlan, OnePassEngine, TextEdits};

// A line for each edit: the bytes of the old text from here to there, and what stands there then.
fn print_edits(out: &mut String, edits: &TextEdits) -> Result<()> {
    for edit in edits.as_slice() {
        write!(out, "\n{}..{} {:?}", edit.start, edit.end, edit.text)?;
    }
    Ok(())
}

fn new_text(alloc: Global, ids: &mut TreeIds, plan: &EditPlan) -> Result<String> {
    let edit = plan.run_with(alloc, ids, &mut OnePassEngine::new(alloc))?;
    Ok(edit.new_root().text(alloc)?)
}

/// The new text, and then the edits that make it of the old one, as a language server takes them.
pub(crate) fn text_and_edits(alloc: Global, ids: &mut TreeIds, plan: &EditPlan) -> Result<String> {
    let mut out = new_text(alloc, ids, plan)?;
    let edits = plan.text_edits(alloc)?;
    print_edits(&mut out, &edits)?;
    Ok(out)
}
