//! Edits tested against a text and applied to it.

ghost use Rattle.std.specs.Prelude.{◌≡◌, ◌++◌, ◌<◌, ◌≤◌, ◌^◌, length, IfOk, OnOk, IfErr, string_bytes, IsCharBoundary, IsTrue, ◌↔◌};
ghost use Rattle.text_edit.specs.TextPiece.{as_piece, pieces, AreApart, FitsText, FitText, applied};
ghost use Rattle.text_edit.specs.ApplyRefusal.{ApplyRefuses};
ghost use Rattle.text_edit.specs.inner.Following.{MissesAt};

use crate::apply_error::ApplyError;
use crate::text_edit::TextEdit;
use std::alloc::{AllocError, Global};

// Whether a character starts at an offset, or the text ends there.
fn is_boundary(text: &str, offset: u64) -> bool
    ensures { IsTrue result ↔ IsCharBoundary text.now offset }
{
    text.is_char_boundary(offset as usize)
}

// Tests the edit at an index.
fn fits(edit: &TextEdit, index: usize, text: &str) -> Result<(), ApplyError>
    ensures ok { OnOk result (FitsText text.now (as_piece edit.now)) }
    ensures refused { IfErr result (MissesAt text.now index (as_piece edit.now)) }
{
    if text.len() < edit.end as usize {
        return Err(ApplyError::PastEnd { index });
    }
    if !is_boundary(text, edit.start) || !is_boundary(text, edit.end) {
        return Err(ApplyError::InsideCharacter { index });
    }
    Ok(())
}

/// Tests that edits fit a text.
pub(crate) fn tested(edits: &[TextEdit], text: &str) -> Result<(), ApplyError>
    ensures ok { OnOk result (FitText text.now (pieces edits.now)) }
    ensures refused { IfErr result (ApplyRefuses text.now (pieces edits.now)) }
{
    for (index, edit) in edits.iter().enumerate() {
        fits(edit, index, text)?;
    }
    Ok(())
}

/// The text that edits make of this one.
pub(crate) fn applied(alloc: Global, edits: &[TextEdit], text: &str) -> Result<String, AllocError>
    requires apart { AreApart 0 (pieces edits.now) (2 ^ 64) }
    requires fit { FitText text.now (pieces edits.now) }
    ensures { IfOk result (λ t. string_bytes t ≡ applied (pieces edits.now) text.now) }
{
    let mut out = String::new(alloc);
    let mut gone = 0;
    for edit in edits {
        out.push_str(&text[gone..edit.start as usize])?;
        out.push_str(&edit.text)?;
        gone = edit.end as usize;
    }
    out.push_str(&text[gone..])?;
    Ok(out)
}
