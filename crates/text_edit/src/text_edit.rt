//! `TextEdit`: one edit of a text.

/// A text that stands in the place of a part of an old text. An insert is one of an empty part.
#[derive(Debug, Drop, PartialEq, Eq)]
pub struct TextEdit {
    /// Where the part starts, in bytes from the start of the old text.
    pub start: u64,
    /// Where it ends: the offset of the first byte after it.
    pub end: u64,
    /// What stands there then.
    pub text: String,
}
