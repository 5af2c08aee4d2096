//! `TextEdits`: edits of one text, in order and apart.

ghost use Rattle.std.specs.Prelude.{◌≡◌, ◌==◌, ◌↔◌, ◌+◌, ◌<◌, ◌≤◌, ◌^◌, [], length, IsTrue, IfOk, OnOk, IfErr, OnErr, IfSome, List, ℕ, string_bytes, slice_range, All};
ghost use Rattle.std.specs.Slice.Iter.{iter_rest};
ghost use Rattle.text_edit.specs.TextPiece.{as_piece, pieces, AreApart, FitText, applied};
ghost use Rattle.text_edit.specs.OrderRefusal.{nothing, piece_before, piece_at, OrderRefuses};
ghost use Rattle.text_edit.specs.ApplyRefusal.{ApplyRefuses};
ghost use Rattle.text_edit.specs.Composition.{AreComposed, ComposeRefuses};
ghost use Rattle.text_edit.specs.Inverse.{inverted, TakeBack};
ghost use Rattle.text_edit.specs.Trimmed.{IsTrimmed};
ghost use Rattle.text_edit.specs.Cursor.{cursor};
ghost use Rattle.text_edit.specs.inner.Following.{FollowRefuses};

use crate::apply::{applied, tested};
use crate::apply_error::ApplyError;
use crate::compose::composed;
use crate::compose_error::ComposeError;
use crate::cursor::{Cursor, cursor_of};
use crate::inverse::inverse;
use crate::order_error::OrderError;
use crate::text_edit::TextEdit;
use crate::trim::trimmed;
use std::alloc::Global;
use std::marker::Model;
use std::slice::Iter;

/// Edits of one text, from left to right: none starts before the one before it ends. All offsets are in bytes of the
/// old text, whatever the edits before put in.
///
/// Two edits may touch. Of inserts at one offset the one that stands first in the list is put first. An insert at the
/// end of a deletion stands after it, and one at its start before it.
#[derive(Drop)]
pub struct TextEdits {
    edits: Vec<TextEdit>,
}

impl Model for TextEdits {
    ghost use Rattle.std.specs.Prelude.{List, ◌^◌};
    ghost use Rattle.text_edit.specs.TextPiece.{TextPiece, pieces, AreApart};

    ghost Value = { List TextPiece };

    ghost view = { λ a. pieces a.edits.items };

    ghost invariant = { λ a. AreApart 0 (pieces a.edits.items) (2 ^ 64) };
}

// Tests the edit at an index that follows an edit with this start and end.
fn follows(edit: &TextEdit, index: usize, start: u64, end: u64, len: u64) -> Result<(), OrderError>
    ensures ok { OnOk result ((start ≤ edit.now.start) × (end ≤ edit.now.start)
        × (edit.now.start ≤ edit.now.end) × (edit.now.end ≤ len)) }
    ensures refused { IfErr result (FollowRefuses len start end index (as_piece edit.now)) }
{
    if edit.end < edit.start {
        return Err(OrderError::StartAfterEnd { index });
    }
    if len < edit.end {
        return Err(OrderError::PastEnd { index });
    }
    if edit.start < start {
        return Err(OrderError::OutOfOrder { index });
    }
    if edit.start < end {
        return Err(OrderError::Overlapping { index });
    }
    Ok(())
}

// Tests that edits are in order and apart in a text of this length.
fn ordered(edits: &[TextEdit], len: u64) -> Result<(), OrderError>
    ensures ok { OnOk result (AreApart 0 (pieces edits.now) len) }
    ensures refused { IfErr result (OrderRefuses len (pieces edits.now)) }
{
    let mut start = 0;
    let mut end = 0;
    for (index, edit) in edits.iter().enumerate() {
        follows(edit, index, start, end, len)?;
        start = edit.start;
        end = edit.end;
    }
    Ok(())
}

impl TextEdits {
    /// These edits as one list, for a text of this length in bytes: refused only if they are not in order and apart.
    /// Where the first edit that breaks the order breaks it in more than one way, the error names the first way in the
    /// order of `OrderError`.
    pub fn new(edits: Vec<TextEdit>, len: u64) -> Result<TextEdits, OrderError>
        ensures ok { IfOk result (λ r. r ≡ pieces edits.items) }
        ensures apart { OnOk result (AreApart 0 (pieces edits.items) len) }
        ensures refused { IfErr result (OrderRefuses len (pieces edits.items)) }
        ensures err { OnErr result (¬ (AreApart 0 (pieces edits.items) len)) }
    {
        ordered(&edits, len)?;
        Ok(TextEdits { edits })
    }

    /// How many edits there are.
    pub fn len(&self) -> usize
        ensures { result ≡ length self.now }
    {
        self.edits.len()
    }

    /// Whether there is none.
    pub fn is_empty(&self) -> bool
        ensures { IsTrue result ↔ (self.now ≡ []) }
    {
        self.edits.is_empty()
    }

    /// The edits, from left to right.
    pub fn as_slice(&self) -> &[TextEdit]
        ensures edits { pieces result.now ≡ self.now }
        ensures apart { AreApart 0 self.now (2 ^ 64) }
    {
        &self.edits
    }

    /// The edits one by one, from left to right.
    pub fn iter(&self) -> Iter<'_, TextEdit>
        ensures { pieces (iter_rest result) ≡ self.now }
    {
        self.edits.iter()
    }

    /// The text that the edits make of this one. Takes time linear in the two texts and the number of edits.
    pub fn apply(&self, alloc: Global, text: &str) -> Result<String, ApplyError>
        ensures ok { IfOk result (λ t. string_bytes t ≡ applied self.now text.now) }
        ensures fit { OnOk result (FitText text.now self.now) }
        ensures within { OnOk result (AreApart 0 self.now (length text.now)) }
        ensures refused { IfErr result (ApplyRefuses text.now self.now) }
    {
        tested(&self.edits, text)?;
        Ok(applied(alloc, &self.edits, text)?)
    }

    /// One list of edits that does what these do and then `next`, whose offsets are those of the text that these make.
    /// Edits that touch are joined. Takes time linear in the number of edits and in their texts.
    ///
    /// Except for `Memory`, it is refused only where the edits of `next` up to the one that the error names fit no text
    /// that these make.
    pub fn then(&self, alloc: Global, next: &TextEdits) -> Result<TextEdits, ComposeError>
        ensures ok { IfOk result (AreComposed self.now next.now) }
        ensures refused { IfErr result (ComposeRefuses self.now next.now) }
    {
        let edits = composed(alloc, &self.edits, &next.edits)?;
        Ok(TextEdits { edits })
    }

    /// The edits that take back what these do to this text: applied to the new text they give it back, edit by edit.
    ///
    /// The errors are those of `apply`, and `TooLong`. Takes time linear in the text and the number of edits.
    pub fn inverse(&self, alloc: Global, old: &str) -> Result<TextEdits, ApplyError>
        ensures ok { IfOk result (λ r. r ≡ inverted self.now old.now) }
        ensures back { IfOk result (TakeBack self.now old.now) }
        ensures fit { OnOk result (FitText old.now self.now) }
        ensures refused { IfErr result (ApplyRefuses old.now self.now) }
    {
        tested(&self.edits, old)?;
        let edits = inverse(alloc, &self.edits, old)?;
        Ok(TextEdits { edits })
    }

    /// These edits without what they leave as it was: what an edit takes away and what it puts in begin with different
    /// characters and end with different ones, and an edit that changes nothing is left out. Same result on this text.
    ///
    /// The errors are those of `apply`. Takes time linear in the text and the number of edits.
    pub fn trimmed(&self, alloc: Global, old: &str) -> Result<TextEdits, ApplyError>
        ensures same { IfOk result (λ r. applied r old.now ≡ applied self.now old.now) }
        ensures fit { IfOk result (FitText old.now) }
        ensures trimmed { IfOk result (All (IsTrimmed old.now)) }
        ensures refused { IfErr result (ApplyRefuses old.now self.now) }
    {
        tested(&self.edits, old)?;
        let edits = trimmed(alloc, &self.edits, old)?;
        Ok(TextEdits { edits })
    }
    /// The first edit whose text holds a range of the new text, from `start` up to `end` in bytes, and the range within
    /// that text. None where no edit's text holds all of it, because some of it is kept, or two edits bring it.
    ///
    /// A range of no length is also in a text that starts or ends there, and in that of a deletion that is there. A range
    /// that ends before it starts is in none. Takes time linear in the number of edits.
    pub fn cursor(&self, start: u64, end: u64) -> Option<Cursor>
        ensures is { result ≡ cursor self.now start end }
        ensures text { IfSome result (λ c. (s : List ℕ) → AreApart 0 self.now (length s)
            → slice_range (piece_at self.now c.edit).text c.start c.end ≡ slice_range (applied self.now s) start end) }
    {
        cursor_of(&self.edits, start, end)
    }
}
