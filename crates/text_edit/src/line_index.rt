//! `LineIndex`: lines and columns of a text.

ghost use Rattle.std.specs.Prelude.{◌≡◌, ◌+◌, ◌<◌, ◌≤◌, ℕ, length, MatchOption, IfOk, IfSome, IsCharBoundary, slice_index};
ghost use Rattle.text_edit.specs.Lines.{line_starts, IsAt};
ghost use Rattle.text_edit.specs.Wide.{IsWide};
ghost use Rattle.text_edit.specs.declared.line_index.LineCol.{LineCol};
ghost use Rattle.text_edit.specs.declared.wide.WideLineCol.{WideLineCol};

use crate::wide::{WideEncoding, WideLineCol};
use std::alloc::{AllocError, Global};
use std::marker::Model;

/// A place in a text: a line and a column in bytes, both from 0.
#[derive(Clone, Copy, Debug, PartialEq, Eq)]
pub struct LineCol {
    /// The line, from 0. A line ends behind its `\n`.
    pub line: u64,
    /// The bytes between the start of the line and the place.
    pub col: u64,
}

/// Where the lines of a text start, for finding the line and column of an offset and the other way round.
#[derive(Drop)]
pub struct LineIndex<'a> {
    text: &'a str,
    starts: Vec<u64>,
}

impl<'a> Model for LineIndex<'a> {
    ghost use Rattle.std.specs.Prelude.{List, ℕ, ◌≡◌, IsUtf8};
    ghost use Rattle.text_edit.specs.Lines.{line_starts};

    ghost Value = { List ℕ };

    ghost view = { λ a. a.text.now };

    ghost invariant = { λ a. IsUtf8 a.text.now × (a.starts.items ≡ line_starts a.text.now) };
}

// Where the lines of a text start.
fn line_starts(alloc: Global, text: &str) -> Result<Vec<u64>, AllocError>
    ensures { IfOk result (λ v. v.items ≡ line_starts text.now) }
{
    let mut starts = Vec::new(alloc);
    starts.push(0)?;
    for (index, byte) in text.as_bytes().iter().enumerate() {
        if *byte == b'\n' {
            starts.push(index as u64 + 1)?;
        }
    }
    Ok(starts)
}

// The last line that starts at an offset or before it.
fn line_at(starts: &[u64], offset: u64) -> usize
    requires some { 0 < length starts.now }
    requires first { slice_index starts.now 0 ≤ offset }
    ensures inside { result < length starts.now }
    ensures before { slice_index starts.now result ≤ offset }
    ensures behind { result + 1 < length starts.now → offset < slice_index starts.now (result + 1) }
{
    let mut low = 0;
    let mut high = starts.len();
    'lines: while high - low > 1 {
        let middle = low + (high - low) / 2;
        if starts[middle] <= offset {
            low = middle;
        } else {
            high = middle;
        }
    }
    low
}

impl<'a> LineIndex<'a> {
    /// The index of a text. Takes time linear in the text.
    pub fn new(alloc: Global, text: &'a str) -> Result<LineIndex<'a>, AllocError>
        ensures { IfOk result (λ index. index ≡ text.now) }
    {
        let starts = line_starts(alloc, text)?;
        Ok(LineIndex { text, starts })
    }

    /// The line and column of an offset in bytes; none where the offset is within a character or past the end.
    /// Takes time in the logarithm of the number of lines. `offset` gives the offset back, and no other place has it.
    pub fn try_line_col(&self, offset: u64) -> Option<LineCol>
        ensures place { MatchOption result (¬ (IsCharBoundary self.now offset))
            (λ p. IsCharBoundary self.now offset × IsAt self.now p offset) }
        ensures only { IfSome result (λ p. (q : LineCol) → IsAt self.now q offset → q ≡ p) }
    {
        if !self.text.is_char_boundary(offset as usize) {
            return None;
        }
        let line = line_at(&self.starts, offset);
        let col = offset - self.starts[line];
        Some(LineCol {
            line: line as u64,
            col,
        })
    }

    /// The offset of a line and column; none where there is no such place: past the last line, past the end of the line
    /// or of the text, or within a character. Takes constant time. `try_line_col` gives the place back.
    pub fn offset(&self, line_col: LineCol) -> Option<u64>
        ensures place { MatchOption result ((n : ℕ) → IsAt self.now line_col n → ¬ (IsCharBoundary self.now n))
            (λ n. IsCharBoundary self.now n × IsAt self.now line_col n) }
        ensures only { IfSome result (λ n. (m : ℕ) → IsAt self.now line_col m → m ≡ n) }
    {
        let start = self.starts.get(line_col.line as usize)?;
        let offset = start.checked_add(line_col.col)?;
        if let Some(next) = self.starts.get(line_col.line as usize + 1) {
            if offset >= *next {
                return None;
            }
        }
        if !self.text.is_char_boundary(offset as usize) {
            return None;
        }
        Some(offset)
    }

    /// The same place with its column in units of an encoding; none where `offset` gives none.
    /// Takes time linear in what stands before it on its line.
    pub fn to_wide(&self, encoding: WideEncoding, line_col: LineCol) -> Option<WideLineCol>
        ensures place { MatchOption result ((w : WideLineCol) → ¬ (IsWide self.now encoding line_col w))
            (IsWide self.now encoding line_col) }
        ensures only { IfSome result (λ w. (v : WideLineCol) → IsWide self.now encoding line_col v → v ≡ w) }
    {
        let offset = self.offset(line_col)?;
        let start = offset - line_col.col;
        let before = &self.text[start as usize..offset as usize];
        Some(WideLineCol {
            line: line_col.line,
            col: encoding.measure(before),
        })
    }

    /// The same place with its column in bytes; none where there is no such place, or the column is within a character.
    /// Takes time linear in the column. It and `to_wide` give the place back to each other.
    pub fn to_utf8(&self, encoding: WideEncoding, wide: WideLineCol) -> Option<LineCol>
        ensures place { MatchOption result ((p : LineCol) → ¬ (IsWide self.now encoding p wide))
            (λ p. IsWide self.now encoding p wide) }
        ensures only { IfSome result (λ p. (q : LineCol) → IsWide self.now encoding q wide → q ≡ p) }
    {
        let start = *self.starts.get(wide.line as usize)?;
        let Some(col) = encoding.bytes_of(&self.text[start as usize..], wide.col) else {
            return None;
        };
        let place = LineCol {
            line: wide.line,
            col,
        };
        match self.offset(place) {
            Some(_) => Some(place),
            None => None,
        }
    }
}
