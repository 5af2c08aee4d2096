//! `WrapError`: why a node is not put between other elements.

ghost use Rattle.std.specs.Prelude.{◌<◌, length};

use std::alloc::{AllocError, AllocFailed};
use thiserror::Error;

/// Why a node is not put between other elements.
#[derive(Debug, PartialEq, Eq, Drop, Error)]
pub enum WrapError {
    /// The text of the new node passes 4,294,967,295 bytes.
    #[error("TooLong")]
    TooLong,
    /// The source of tree numbers is spent.
    #[error("NoTreeNumber")]
    NoTreeNumber,
    /// The number of the new tree is not greater than that of the node's, which is to be mapped to its copy.
    #[error("NotYounger")]
    NotYounger,
    /// The node is of another tree, or its path leads to no node in the editor's.
    #[error("Foreign")]
    Foreign,
    /// Memory was refused.
    #[error("Memory")]
    Memory,
}

impl WrapError {
    /// What is wrong and what to do about it, in a sentence without the numbers.
    pub fn help(&self) -> &'static str
        ensures { 0 < length result.now }
    {
        match self {
            WrapError::TooLong => {
                "the text of the new node would have four gibibytes or more; make it shorter"
            }
            WrapError::NoTreeNumber => {
                "the source of tree numbers has no number left; start it at a smaller one"
            }
            WrapError::NotYounger => {
                "the number of the new tree is not greater than that of the edited one; take the numbers of all trees from one source"
            }
            WrapError::Foreign => {
                "the node is not in the edited tree; begin at the root that is edited"
            }
            WrapError::Memory => "memory ran out; free some and try again",
        }
    }
}

impl From<AllocError> for WrapError {
    ghost use Rattle.std.specs.Prelude.{◌≡◌};
    ghost use Rattle.syntax_editor.specs.declared.wrap_error.WrapError.{WrapError};

    ghost from_gives = { λ _ e. e ≡ WrapError.Memory };

    fn from(_: AllocError) -> WrapError {
        WrapError::Memory
    }
}

impl<T: Drop> From<AllocFailed<T>> for WrapError {
    ghost use Rattle.std.specs.Prelude.{◌≡◌};
    ghost use Rattle.syntax_editor.specs.declared.wrap_error.WrapError.{WrapError};

    ghost from_gives = { λ _ e. e ≡ WrapError.Memory };

    fn from(_: AllocFailed<T>) -> WrapError {
        WrapError::Memory
    }
}
