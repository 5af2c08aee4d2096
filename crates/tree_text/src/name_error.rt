//! `NameError`: why a kind is not given a name.

ghost use Rattle.std.specs.Prelude.{◌<◌, length};

use std::alloc::{AllocError, AllocFailed};
use thiserror::Error;

/// Why a kind is not given a name.
#[derive(Clone, Copy, Debug, PartialEq, Eq, Error)]
pub enum NameError {
    /// The name is empty, or has another character than ASCII letters, digits and underscores.
    #[error("Misspelled")]
    Misspelled,
    /// The kind has a name.
    #[error("Named")]
    Named,
    /// A kind has this name.
    #[error("Taken")]
    Taken,
    /// Memory was refused.
    #[error("Memory")]
    Memory,
}

impl From<AllocError> for NameError {
    ghost use Rattle.std.specs.Prelude.{◌≡◌};
    ghost use Rattle.tree_text.specs.declared.name_error.NameError.{NameError};

    ghost from_gives = { λ _ e. e ≡ NameError.Memory };

    fn from(_: AllocError) -> NameError {
        NameError::Memory
    }
}

impl<T: Drop> From<AllocFailed<T>> for NameError {
    ghost use Rattle.std.specs.Prelude.{◌≡◌};
    ghost use Rattle.tree_text.specs.declared.name_error.NameError.{NameError};

    ghost from_gives = { λ _ e. e ≡ NameError.Memory };

    fn from(_: AllocFailed<T>) -> NameError {
        NameError::Memory
    }
}

impl NameError {
    /// What is wrong and what to do about it, in a sentence without the numbers.
    pub fn help(&self) -> &'static str
        ensures { 0 < length result.now }
    {
        match self {
            NameError::Misspelled => {
                "the name of a kind has ASCII letters, digits and underscores, and one at least; write it so"
            }
            NameError::Named => "the kind has a name; leave it as it is",
            NameError::Taken => "another kind has this name; choose another name",
            NameError::Memory => "memory ran out; free some and try again",
        }
    }
}
