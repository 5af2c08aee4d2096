//! `IndentError`: why a level is not read, or a tree not indented.

ghost use Rattle.std.specs.Prelude.{◌≡◌, Some, IsSome, ◌<◌, length};
ghost use Rattle.whitespace.specs.inner.AlongRefusal.{of_pairs};

use cst_core::TreeError;
use edit_map::MapError;
use std::alloc::{AllocError, AllocFailed};
use thiserror::Error;

/// Why a level is not read, or a tree is not indented.
#[derive(Debug, PartialEq, Eq, Drop, Error)]
pub enum IndentError {
    /// A level passes 255.
    #[error("LevelTooLarge")]
    LevelTooLarge,
    /// The new text passes 4,294,967,295 bytes.
    #[error("TooLong")]
    TooLong,
    /// The source of tree numbers is spent.
    #[error("NoTreeNumber")]
    NoTreeNumber,
    /// The number of the new tree is not greater than that of the node's, whose children are to be mapped.
    #[error("NotYounger")]
    NotYounger,
    /// Memory was refused.
    #[error("Memory")]
    Memory,
}

impl From<AllocError> for IndentError {
    ghost use Rattle.std.specs.Prelude.{◌≡◌};
    ghost use Rattle.whitespace.specs.declared.indent_error.IndentError.{IndentError};

    ghost from_gives = { λ _ e. e ≡ IndentError.Memory };

    fn from(_: AllocError) -> IndentError {
        IndentError::Memory
    }
}

impl<T: Drop> From<AllocFailed<T>> for IndentError {
    ghost use Rattle.std.specs.Prelude.{◌≡◌};
    ghost use Rattle.whitespace.specs.declared.indent_error.IndentError.{IndentError};

    ghost from_gives = { λ _ e. e ≡ IndentError.Memory };

    fn from(_: AllocFailed<T>) -> IndentError {
        IndentError::Memory
    }
}

impl From<TreeError> for IndentError {
    ghost use Rattle.std.specs.Prelude.{◌≡◌};
    ghost use Rattle.whitespace.specs.IndentRefusal.{of_tree};

    ghost from_gives = { λ t e. e ≡ of_tree t };

    fn from(error: TreeError) -> IndentError {
        match error {
            TreeError::TooLong => IndentError::TooLong,
            TreeError::NoTreeNumber => IndentError::NoTreeNumber,
            TreeError::Memory => IndentError::Memory,
        }
    }
}

impl IndentError {
    /// What is wrong and what to do about it, in a sentence without the numbers.
    pub fn help(&self) -> &'static str
        ensures { 0 < length result.now }
    {
        match self {
            IndentError::LevelTooLarge => {
                "a level of indentation is too large; take some indentation away"
            }
            IndentError::TooLong => {
                "the new text would have four gibibytes or more; make it shorter"
            }
            IndentError::NoTreeNumber => {
                "the source of tree numbers has no number left; start it at a smaller one"
            }
            IndentError::NotYounger => {
                "the number of the new tree is not greater than that of the node whose children are mapped; take the numbers of all trees from one source"
            }
            IndentError::Memory => "memory ran out; free some and try again",
        }
    }

    /// Why a node is not indented with a mapping where the pairs of its child nodes and their copies were not taken up.
    pub(crate) fn of_pairs(error: MapError) -> IndentError
        requires { IsSome (of_pairs error) }
        ensures { of_pairs error ≡ Some result }
    {
        match error {
            MapError::NotAChild => unreachable!(),
            MapError::NotYounger => IndentError::NotYounger,
            MapError::OtherShape => unreachable!(),
            MapError::MoreInputs => unreachable!(),
            MapError::Memory => IndentError::Memory,
        }
    }
}
