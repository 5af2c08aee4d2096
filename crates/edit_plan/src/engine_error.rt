//! `EngineError`: why an engine makes no tree.

ghost use Rattle.std.specs.Prelude.{◌<◌, length};

use std::alloc::{AllocError, AllocFailed};
use thiserror::Error;

/// Why an engine does not make the new tree of a plan.
#[derive(Debug, PartialEq, Eq, Drop, Error)]
pub enum EngineError {
    /// The text of the new tree passes 4,294,967,295 bytes.
    #[error("TooLong")]
    TooLong,
    /// Memory was refused.
    #[error("Memory")]
    Memory,
}

impl EngineError {
    /// What is wrong and what to do about it, in a sentence without the numbers.
    pub fn help(&self) -> &'static str
        ensures { 0 < length result.now }
    {
        match self {
            EngineError::TooLong => {
                "the text of the new tree would have four gibibytes or more; insert less"
            }
            EngineError::Memory => "memory ran out; free some and try again",
        }
    }
}

impl From<AllocError> for EngineError {
    ghost use Rattle.std.specs.Prelude.{◌≡◌};
    ghost use Rattle.edit_plan.specs.declared.engine_error.EngineError.{EngineError};

    ghost from_gives = { λ _ e. e ≡ EngineError.Memory };

    fn from(_: AllocError) -> EngineError {
        EngineError::Memory
    }
}

impl<T: Drop> From<AllocFailed<T>> for EngineError {
    ghost use Rattle.std.specs.Prelude.{◌≡◌};
    ghost use Rattle.edit_plan.specs.declared.engine_error.EngineError.{EngineError};

    ghost from_gives = { λ _ e. e ≡ EngineError.Memory };

    fn from(_: AllocFailed<T>) -> EngineError {
        EngineError::Memory
    }
}
