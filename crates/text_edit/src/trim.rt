//! Edits without what they leave as it was.

ghost use Rattle.std.specs.Prelude.{◌≡◌, ◌≤◌, ◌++◌, ◌^◌, [], All, IfOk, OnOk, IsUtf8, slice_range};
ghost use Rattle.text_edit.specs.TextPiece.{as_piece, pieces, AreApart, FitsText, FitText, applied};
ghost use Rattle.text_edit.specs.Trimmed.{IsTrimmed};
ghost use Rattle.text_edit.specs.inner.Trimming.{IsCutAtStart, IsCutAtEnd, PutsTrimmed};

use crate::characters::{first_and_rest, last_and_rest};
use crate::text_edit::TextEdit;
use std::alloc::{AllocError, Global};

// Two texts without what both begin with.
fn without_common_start<'a, 'b>(old: &'a str, new: &'b str) -> (&'a str, &'b str)
    ensures cut { IsCutAtStart old.now new.now result.0.now result.1.now }
    ensures text { IsUtf8 result.0.now }
{
    let mut old_left = old;
    let mut new_left = new;
    'characters: while let Some((first, old_rest)) = first_and_rest(old_left) {
        let Some(new_rest) = new_left.strip_prefix(first) else {
            return (old_left, new_left);
        };
        old_left = old_rest;
        new_left = new_rest;
    }
    (old_left, new_left)
}

// Two texts without what both end with.
fn without_common_end<'a, 'b>(old: &'a str, new: &'b str) -> (&'a str, &'b str)
    ensures cut { IsCutAtEnd old.now new.now result.0.now result.1.now }
    ensures text { IsUtf8 result.0.now }
{
    let mut old_left = old;
    let mut new_left = new;
    'characters: while let Some((last, old_rest)) = last_and_rest(old_left) {
        let Some(new_rest) = new_left.strip_suffix(last) else {
            return (old_left, new_left);
        };
        old_left = old_rest;
        new_left = new_rest;
    }
    (old_left, new_left)
}

// Puts what is left of an edit after the others, if anything is left of it.
fn put_trimmed(
    alloc: Global,
    out: &mut Vec<TextEdit>,
    edit: &TextEdit,
    old: &str,
) -> Result<(), AllocError>
    requires own { edit.now.start ≤ edit.now.end }
    requires fit { FitsText old.now (as_piece edit.now) }
    ensures { OnOk result (PutsTrimmed old.now (as_piece edit.now) (pieces out.old.items) (pieces out.new.items)) }
{
    let replaced = &old[edit.start as usize..edit.end as usize];
    let (rest, text) = without_common_start(replaced, &edit.text);
    let (left, text) = without_common_end(rest, text);
    if left.is_empty() && text.is_empty() {
        return Ok(());
    }
    let start = edit.end - rest.len() as u64;
    let end = start + left.len() as u64;
    let text = String::from_str(alloc, text)?;
    out.push(TextEdit { start, end, text })?;
    Ok(())
}

/// Edits without what they leave as it was at either end of what they replace.
pub(crate) fn trimmed(
    alloc: Global,
    edits: &[TextEdit],
    old: &str,
) -> Result<Vec<TextEdit>, AllocError>
    requires apart { AreApart 0 (pieces edits.now) (2 ^ 64) }
    requires fit { FitText old.now (pieces edits.now) }
    ensures apart { IfOk result (λ v. AreApart 0 (pieces v.items) (2 ^ 64)) }
    ensures fit { IfOk result (λ v. FitText old.now (pieces v.items)) }
    ensures same { IfOk result (λ v. applied (pieces v.items) old.now ≡ applied (pieces edits.now) old.now) }
    ensures trimmed { IfOk result (λ v. All (IsTrimmed old.now) (pieces v.items)) }
{
    let mut out = Vec::new(alloc);
    for edit in edits {
        put_trimmed(alloc, &mut out, edit, old)?;
    }
    Ok(out)
}
