//! `SpaceError`: why new elements get no whitespace.

ghost use Rattle.std.specs.Prelude.{◌≡◌, Some, IsSome};
ghost use Rattle.whitespace.specs.inner.SpaceRefusal.{of_level, of_whitespace};

use crate::indent_error::IndentError;
use cst_core::TreeError;
use std::alloc::AllocError;
use thiserror::Error;

/// Why new elements get no whitespace round them.
#[derive(Debug, PartialEq, Eq, Drop, Error)]
pub enum SpaceError {
    /// A new line would have a level past 255.
    #[error("LevelTooLarge")]
    LevelTooLarge,
    /// The source of tree numbers is spent.
    #[error("NoTreeNumber")]
    NoTreeNumber,
    /// Memory was refused.
    #[error("Memory")]
    Memory,
}

impl From<AllocError> for SpaceError {
    ghost use Rattle.std.specs.Prelude.{◌≡◌};
    ghost use Rattle.whitespace.specs.declared.space_error.SpaceError.{SpaceError};

    ghost from_gives = { λ _ e. e ≡ SpaceError.Memory };

    fn from(_: AllocError) -> SpaceError {
        SpaceError::Memory
    }
}

impl SpaceError {
    /// Why whitespace is not found where a level was not read.
    pub(crate) fn of_level(error: IndentError) -> SpaceError
        requires { IsSome (of_level error) }
        ensures { of_level error ≡ Some result }
    {
        match error {
            IndentError::LevelTooLarge => SpaceError::LevelTooLarge,
            IndentError::TooLong => unreachable!(),
            IndentError::NoTreeNumber => unreachable!(),
            IndentError::NotYounger => unreachable!(),
            IndentError::Memory => SpaceError::Memory,
        }
    }

    /// Why whitespace is not made where its token, which is never too long, was not.
    pub(crate) fn of_whitespace(error: TreeError) -> SpaceError
        requires { IsSome (of_whitespace error) }
        ensures { of_whitespace error ≡ Some result }
    {
        match error {
            TreeError::TooLong => unreachable!(),
            TreeError::NoTreeNumber => SpaceError::NoTreeNumber,
            TreeError::Memory => SpaceError::Memory,
        }
    }
}
