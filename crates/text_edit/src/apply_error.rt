//! `ApplyError`: why edits are not applied to a text.

ghost use Rattle.std.specs.Prelude.{◌<◌, length};

use std::alloc::{AllocError, AllocFailed};
use thiserror::Error;

/// Why edits are not applied to a text. `index` is the place in the list, counted from 0, of the edit to blame: the first
/// that does not fit the text.
#[derive(Clone, Copy, Debug, PartialEq, Eq, Error)]
pub enum ApplyError {
    /// The edit ends past the end of the text.
    #[error("PastEnd {index}")]
    PastEnd { index: usize },
    /// The edit starts or ends within a character of the text.
    #[error("InsideCharacter {index}")]
    InsideCharacter { index: usize },
    /// The new text would have 2 to the power of 64 bytes or more.
    #[error("TooLong")]
    TooLong,
    /// Memory was refused.
    #[error("Memory")]
    Memory,
}

impl From<AllocError> for ApplyError {
    ghost use Rattle.std.specs.Prelude.{◌≡◌};
    ghost use Rattle.text_edit.specs.declared.apply_error.ApplyError.{ApplyError};

    ghost from_gives = { λ _ e. e ≡ ApplyError.Memory };

    fn from(_: AllocError) -> ApplyError {
        ApplyError::Memory
    }
}

impl<T: Drop> From<AllocFailed<T>> for ApplyError {
    ghost use Rattle.std.specs.Prelude.{◌≡◌};
    ghost use Rattle.text_edit.specs.declared.apply_error.ApplyError.{ApplyError};

    ghost from_gives = { λ _ e. e ≡ ApplyError.Memory };

    fn from(_: AllocFailed<T>) -> ApplyError {
        ApplyError::Memory
    }
}

impl ApplyError {
    /// What is wrong and what to do about it, in a sentence without the numbers.
    pub fn help(&self) -> &'static str
        ensures { 0 < length result.now }
    {
        match self {
            ApplyError::PastEnd { .. } => {
                "an edit ends past the end of the text; apply the edits to the text that they were made for"
            }
            ApplyError::InsideCharacter { .. } => {
                "an edit starts or ends within a character; take offsets at which a character starts or the text ends"
            }
            ApplyError::TooLong => "the new text would be too long; put less in",
            ApplyError::Memory => "memory ran out; free some and try again",
        }
    }
}
