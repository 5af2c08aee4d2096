//! `EditError`: why a plan is not built or not carried out.

ghost use Rattle.std.specs.Prelude.{◌<◌, length};

use crate::engine_error::EngineError;
use cst_core::TreeError;
use std::alloc::{AllocError, AllocFailed};
use std::fmt;
use thiserror::Error;

/// Why a list of changes is not carried out.
#[derive(Debug, PartialEq, Eq, Drop, Error)]
pub enum EditError {
    /// Two replacements have a target in common: those with the least second number, and then with the least first.
    Intersecting { first: usize, second: usize },
    /// A change lies inside a node that another one, its owner, replaces by a node, and has no place in that node: the least such change.
    MissingMapping { change: usize, owner: usize },
    /// The text of the new tree passes 4,294,967,295 bytes.
    TooLong,
    /// The source of tree numbers is spent.
    NoTreeNumber,
    /// Memory was refused.
    Memory,
}

impl fmt::Display for EditError {
    ghost use Rattle.std.specs.Prelude.{Some};
    ghost use Rattle.edit_plan.specs.PlanErrorText.{edit_error_text};

    ghost output = { λ e. Some (edit_error_text e) };

    fn fmt<W: fmt::Write>(&self, f: &mut fmt::Formatter<W>) -> fmt::Result {
        match self {
            EditError::Intersecting { first, second } => write!(f, "Intersecting {first} {second}"),
            EditError::MissingMapping { change, owner } => write!(
                f,
                "MissingMapping {change} {owner}"
            ),
            EditError::TooLong => f.write_str("TooLong"),
            EditError::NoTreeNumber => f.write_str("NoTreeNumber"),
            EditError::Memory => f.write_str("Memory"),
        }
    }
}

impl EditError {
    /// What is wrong and what to do about it, in a sentence without the numbers.
    pub fn help(&self) -> &'static str
        ensures { 0 < length result.now }
    {
        match self {
            EditError::Intersecting { .. } => {
                "two changes replace or delete the same element; keep one of them"
            }
            EditError::MissingMapping { .. } => {
                "a change lies in a node that another one, its owner, replaces, and no mapping says where that node is in the new one; map it, or leave the change out"
            }
            EditError::TooLong => {
                "the text of the new tree would have four gibibytes or more; insert less"
            }
            EditError::NoTreeNumber => {
                "the source of tree numbers has no number left; start it at a smaller one"
            }
            EditError::Memory => "memory ran out; free some and try again",
        }
    }
}

impl From<AllocError> for EditError {
    ghost use Rattle.std.specs.Prelude.{◌≡◌};
    ghost use Rattle.edit_plan.specs.declared.edit_error.EditError.{EditError};

    ghost from_gives = { λ _ e. e ≡ EditError.Memory };

    fn from(_: AllocError) -> EditError {
        EditError::Memory
    }
}

impl<T: Drop> From<AllocFailed<T>> for EditError {
    ghost use Rattle.std.specs.Prelude.{◌≡◌};
    ghost use Rattle.edit_plan.specs.declared.edit_error.EditError.{EditError};

    ghost from_gives = { λ _ e. e ≡ EditError.Memory };

    fn from(_: AllocFailed<T>) -> EditError {
        EditError::Memory
    }
}

impl From<TreeError> for EditError {
    ghost use Rattle.std.specs.Prelude.{◌≡◌};
    ghost use Rattle.edit_plan.specs.EditRefusal.{of_tree};

    ghost from_gives = { λ t e. e ≡ of_tree t };

    fn from(error: TreeError) -> EditError {
        match error {
            TreeError::TooLong => EditError::TooLong,
            TreeError::NoTreeNumber => EditError::NoTreeNumber,
            TreeError::Memory => EditError::Memory,
        }
    }
}

impl From<EngineError> for EditError {
    ghost use Rattle.std.specs.Prelude.{◌≡◌};
    ghost use Rattle.edit_plan.specs.EditRefusal.{of_engine};

    ghost from_gives = { λ x e. e ≡ of_engine x };

    fn from(error: EngineError) -> EditError {
        match error {
            EngineError::TooLong => EditError::TooLong,
            EngineError::Memory => EditError::Memory,
        }
    }
}
