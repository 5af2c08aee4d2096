//! `OrderError`: why edits are not taken as one list.

ghost use Rattle.std.specs.Prelude.{◌<◌, length};

use thiserror::Error;

/// Why edits are not taken as one list. `index` is the place in the list, counted from 0, of the edit to blame: the first
/// that breaks the order. Where it breaks it in several ways, the error is the first of these.
#[derive(Clone, Copy, Debug, PartialEq, Eq, Error)]
pub enum OrderError {
    /// The edit starts after its end.
    #[error("StartAfterEnd {index}")]
    StartAfterEnd { index: usize },
    /// The edit ends past the end of the text.
    #[error("PastEnd {index}")]
    PastEnd { index: usize },
    /// The edit starts before the one before it starts.
    #[error("OutOfOrder {index}")]
    OutOfOrder { index: usize },
    /// The edit starts before the one before it ends.
    #[error("Overlapping {index}")]
    Overlapping { index: usize },
}

impl OrderError {
    /// What is wrong and what to do about it, in a sentence without the numbers.
    pub fn help(&self) -> &'static str
        ensures { 0 < length result.now }
    {
        match self {
            OrderError::StartAfterEnd { .. } => {
                "an edit starts after its end; exchange its two offsets"
            }
            OrderError::PastEnd { .. } => {
                "an edit ends past the end of the text; count its offsets in bytes of the old text"
            }
            OrderError::OutOfOrder { .. } => {
                "an edit starts before the one before it; sort the edits by where they start"
            }
            OrderError::Overlapping { .. } => {
                "two edits replace the same part of the text; keep one of them"
            }
        }
    }
}
