//! `ComposeError`: why two lists of edits are not composed.

ghost use Rattle.std.specs.Prelude.{◌<◌, length};

use std::alloc::{AllocError, AllocFailed};
use thiserror::Error;

/// Why two lists of edits are not composed. `index` is the place in the second list, counted from 0, of the edit to blame:
/// with it the edits of the second list fit no text that the first list makes. No edit of the first list is counted.
#[derive(Clone, Copy, Debug, PartialEq, Eq, Error)]
pub enum ComposeError {
    /// The edit starts or ends within a character that the first list puts in.
    #[error("InsideCharacter {index}")]
    InsideCharacter { index: usize },
    /// An offset of the edit would be 2 to the power of 64 or more in the old text.
    #[error("TooLong {index}")]
    TooLong { index: usize },
    /// Memory was refused.
    #[error("Memory")]
    Memory,
}

impl From<AllocError> for ComposeError {
    ghost use Rattle.std.specs.Prelude.{◌≡◌};
    ghost use Rattle.text_edit.specs.declared.compose_error.ComposeError.{ComposeError};

    ghost from_gives = { λ _ e. e ≡ ComposeError.Memory };

    fn from(_: AllocError) -> ComposeError {
        ComposeError::Memory
    }
}

impl ComposeError {
    /// What is wrong and what to do about it, in a sentence without the numbers.
    pub fn help(&self) -> &'static str
        ensures { 0 < length result.now }
    {
        match self {
            ComposeError::InsideCharacter { .. } => {
                "an edit of the second list cuts through a character; take offsets of the text that the first makes"
            }
            ComposeError::TooLong { .. } => {
                "an edit of the second list ends past any text; take offsets of the text that the first makes"
            }
            ComposeError::Memory => "memory ran out; free some and try again",
        }
    }
}
