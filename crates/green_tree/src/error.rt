//! `TreeError`: why a tree cannot be made.

ghost use Rattle.std.specs.Prelude.{◌<◌, length};

use std::alloc::{AllocError, AllocFailed};
use std::fmt;
use thiserror::Error;

/// Why a tree cannot be made.
#[derive(Debug, PartialEq, Eq, Drop, Error)]
pub enum TreeError {
    /// Its text has more than 4,294,967,295 bytes.
    TooLong,
    /// The source of tree numbers is spent.
    NoTreeNumber,
    /// Memory was refused.
    Memory,
}

impl fmt::Display for TreeError {
    ghost use Rattle.std.specs.Prelude.{Some};
    ghost use Rattle.green_tree.specs.TreeErrorText.{tree_error_text};

    ghost output = { λ e. Some (tree_error_text e) };

    fn fmt<W: fmt::Write>(&self, f: &mut fmt::Formatter<W>) -> fmt::Result {
        match self {
            TreeError::TooLong => f.write_str("TooLong"),
            TreeError::NoTreeNumber => f.write_str("NoTreeNumber"),
            TreeError::Memory => f.write_str("Memory"),
        }
    }
}

impl TreeError {
    /// What is wrong and what to do about it, in a sentence without the numbers.
    pub fn help(&self) -> &'static str
        ensures { 0 < length result.now }
    {
        match self {
            TreeError::TooLong => {
                "the text of the tree would have four gibibytes or more; make it shorter"
            }
            TreeError::NoTreeNumber => {
                "the source of tree numbers has no number left; start it at a smaller one"
            }
            TreeError::Memory => "memory ran out; free some and try again",
        }
    }
}

impl From<AllocError> for TreeError {
    ghost use Rattle.std.specs.Prelude.{◌≡◌};
    ghost use Rattle.green_tree.specs.declared.error.TreeError.{TreeError};

    ghost from_gives = { λ _ e. e ≡ TreeError.Memory };

    fn from(_: AllocError) -> TreeError {
        TreeError::Memory
    }
}

impl<T: Drop> From<AllocFailed<T>> for TreeError {
    ghost use Rattle.std.specs.Prelude.{◌≡◌};
    ghost use Rattle.green_tree.specs.declared.error.TreeError.{TreeError};

    ghost from_gives = { λ _ e. e ≡ TreeError.Memory };

    fn from(_: AllocFailed<T>) -> TreeError {
        TreeError::Memory
    }
}
