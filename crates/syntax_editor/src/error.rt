//! `RecordError` and `MergeError`: why a change is not recorded, and why two editors are not merged.

ghost use Rattle.std.specs.Prelude.{◌≡◌, ◌<◌, length};
ghost use Rattle.syntax_editor.specs.RecordRefusal.{of_space};

use std::alloc::{AllocError, AllocFailed};
use std::fmt;
use thiserror::Error;
use whitespace::SpaceError;

/// Why a change is not recorded.
#[derive(Debug, PartialEq, Eq, Drop, Error)]
pub enum RecordError {
    /// A position, a target or an end is of another tree, or leads to no element of its form in the editor's.
    Foreign,
    /// The ends of a range are not siblings, or the last comes before the first.
    BadRange,
    /// The root cannot be deleted.
    DeletesRoot,
    /// The root can be replaced by one node only.
    RootReplacement,
    /// A level of indentation passes 255.
    LevelTooLarge,
    /// The source of tree numbers is spent.
    NoTreeNumber,
    /// Memory was refused.
    Memory,
}

impl fmt::Display for RecordError {
    ghost use Rattle.std.specs.Prelude.{Some};
    ghost use Rattle.syntax_editor.specs.RecordErrorText.{record_error_text};

    ghost output = { λ e. Some (record_error_text e) };

    fn fmt<W: fmt::Write>(&self, f: &mut fmt::Formatter<W>) -> fmt::Result {
        f.write_str(match self {
            RecordError::Foreign => "Foreign",
            RecordError::BadRange => "BadRange",
            RecordError::DeletesRoot => "DeletesRoot",
            RecordError::RootReplacement => "RootReplacement",
            RecordError::LevelTooLarge => "LevelTooLarge",
            RecordError::NoTreeNumber => "NoTreeNumber",
            RecordError::Memory => "Memory",
        })
    }
}

impl From<AllocError> for RecordError {
    ghost use Rattle.std.specs.Prelude.{◌≡◌};
    ghost use Rattle.syntax_editor.specs.declared.error.RecordError.{RecordError};

    ghost from_gives = { λ _ e. e ≡ RecordError.Memory };

    fn from(_: AllocError) -> RecordError {
        RecordError::Memory
    }
}

impl<T: Drop> From<AllocFailed<T>> for RecordError {
    ghost use Rattle.std.specs.Prelude.{◌≡◌};
    ghost use Rattle.syntax_editor.specs.declared.error.RecordError.{RecordError};

    ghost from_gives = { λ _ e. e ≡ RecordError.Memory };

    fn from(_: AllocFailed<T>) -> RecordError {
        RecordError::Memory
    }
}

impl RecordError {
    /// What is wrong and what to do about it, in a sentence without the numbers.
    pub fn help(&self) -> &'static str
        ensures { 0 < length result.now }
    {
        match self {
            RecordError::Foreign => {
                "the position or the target is not in the edited tree; begin at the root that is edited"
            }
            RecordError::BadRange => {
                "the ends of the range are not siblings in this order; give siblings, and not the last one first"
            }
            RecordError::DeletesRoot => {
                "the root of the edited tree cannot be deleted; delete what is in it, or replace it by a node"
            }
            RecordError::RootReplacement => {
                "the root of the edited tree can be replaced by one node only; give one node"
            }
            RecordError::LevelTooLarge => {
                "a level of indentation is too large; take some indentation away"
            }
            RecordError::NoTreeNumber => {
                "the source of tree numbers has no number left; start it at a smaller one"
            }
            RecordError::Memory => "memory ran out; free some and try again",
        }
    }

    /// Why nothing is recorded where new elements got no whitespace round them.
    pub(crate) fn of_space(error: SpaceError) -> RecordError
        ensures { result ≡ of_space error }
    {
        match error {
            SpaceError::LevelTooLarge => RecordError::LevelTooLarge,
            SpaceError::NoTreeNumber => RecordError::NoTreeNumber,
            SpaceError::Memory => RecordError::Memory,
        }
    }
}

/// Why an editor is not merged into another one.
#[derive(Debug, PartialEq, Eq, Drop, Error)]
pub enum MergeError {
    /// The editors have different roots, or roots of one tree number in which a change of the other editor does not fit.
    #[error("OtherRoot")]
    OtherRoot,
    /// Memory was refused.
    #[error("Memory")]
    Memory,
}

impl MergeError {
    /// What is wrong and what to do about it, in a sentence without the numbers.
    pub fn help(&self) -> &'static str
        ensures { 0 < length result.now }
    {
        match self {
            MergeError::OtherRoot => {
                "the two editors do not edit the same root; merge editors of one root"
            }
            MergeError::Memory => "memory ran out; free some and try again",
        }
    }
}

impl From<AllocError> for MergeError {
    ghost use Rattle.std.specs.Prelude.{◌≡◌};
    ghost use Rattle.syntax_editor.specs.declared.error.MergeError.{MergeError};

    ghost from_gives = { λ _ e. e ≡ MergeError.Memory };

    fn from(_: AllocError) -> MergeError {
        MergeError::Memory
    }
}

impl<T: Drop> From<AllocFailed<T>> for MergeError {
    ghost use Rattle.std.specs.Prelude.{◌≡◌};
    ghost use Rattle.syntax_editor.specs.declared.error.MergeError.{MergeError};

    ghost from_gives = { λ _ e. e ≡ MergeError.Memory };

    fn from(_: AllocFailed<T>) -> MergeError {
        MergeError::Memory
    }
}
