//! `Cursor`: where a part of the new text stands in the text that one edit puts in.

ghost use Rattle.std.specs.Prelude.{◌≡◌, ◌^◌};
ghost use Rattle.text_edit.specs.TextPiece.{pieces, AreApart};
ghost use Rattle.text_edit.specs.Cursor.{cursor};

use crate::text_edit::TextEdit;

/// A part of the text that one edit puts in.
#[derive(Clone, Copy, Debug, PartialEq, Eq)]
pub struct Cursor {
    /// Which edit it is, counted from 0.
    pub edit: usize,
    /// Where the part starts, in bytes from the start of the edit's text.
    pub start: u64,
    /// Where it ends: the offset of the first byte after it.
    pub end: u64,
}

/// The first edit whose text a range of the new text is in, and the range within that text.
pub(crate) fn cursor_of(edits: &[TextEdit], start: u64, end: u64) -> Option<Cursor>
    requires { AreApart 0 (pieces edits.now) (2 ^ 64) }
    ensures { result ≡ cursor (pieces edits.now) start end }
{
    if end < start {
        return None;
    }
    let mut gone = 0;
    let mut made = 0u64;
    for (index, edit) in edits.iter().enumerate() {
        let Some(first) = made.checked_add(edit.start - gone) else {
            return None;
        };
        if start < first {
            return None;
        }
        let len = edit.text.len() as u64;
        if end - first <= len {
            return Some(Cursor {
                edit: index,
                start: start - first,
                end: end - first,
            });
        }
        gone = edit.end;
        made = first + len;
    }
    None
}
