//! The edits that take back what edits do.

ghost use Rattle.std.specs.Prelude.{◌≡◌, ◌^◌, IfOk, IfErr};
ghost use Rattle.text_edit.specs.TextPiece.{pieces, AreApart, FitText};
ghost use Rattle.text_edit.specs.ApplyRefusal.{ApplyRefuses};
ghost use Rattle.text_edit.specs.Inverse.{inverted, TakeBack};

use crate::apply_error::ApplyError;
use crate::text_edit::TextEdit;
use std::alloc::Global;

/// The edits that take back what edits do to this text.
pub(crate) fn inverse(
    alloc: Global,
    edits: &[TextEdit],
    old: &str,
) -> Result<Vec<TextEdit>, ApplyError>
    requires apart { AreApart 0 (pieces edits.now) (2 ^ 64) }
    requires fit { FitText old.now (pieces edits.now) }
    ensures apart { IfOk result (λ v. AreApart 0 (pieces v.items) (2 ^ 64)) }
    ensures inverse { IfOk result (λ v. pieces v.items ≡ inverted (pieces edits.now) old.now) }
    ensures back { IfOk result (λ v. TakeBack (pieces edits.now) old.now (pieces v.items)) }
    ensures refused { IfErr result (ApplyRefuses old.now (pieces edits.now)) }
{
    let mut out = Vec::new(alloc);
    let mut gone = 0;
    let mut made = 0u64;
    for edit in edits {
        let Some(start) = made.checked_add(edit.start - gone) else {
            return Err(ApplyError::TooLong);
        };
        let Some(end) = start.checked_add(edit.text.len() as u64) else {
            return Err(ApplyError::TooLong);
        };
        let text = String::from_str(alloc, &old[edit.start as usize..edit.end as usize])?;
        out.push(TextEdit { start, end, text })?;
        gone = edit.end;
        made = end;
    }
    Ok(out)
}
