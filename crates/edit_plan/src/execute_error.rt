//! `ExecuteError`: why a plan is not carried out in an order.

ghost use Rattle.std.specs.Prelude.{◌<◌, length};

use crate::edit_error::EditError;
use edit_steps::OrderError;
use std::alloc::{AllocError, AllocFailed};
use std::fmt;
use thiserror::Error;

/// Why a plan is not carried out in an order. Of several reasons the first here is given.
#[derive(Debug, PartialEq, Eq, Drop, Error)]
pub enum ExecuteError {
    /// A change that is not dropped is missing from the order or there twice, or another number is there.
    NotEachOnce,
    /// A change comes after its owner.
    OwnerTooEarly,
    /// Two inserts of one gap come in the wrong order.
    GapOutOfOrder,
    /// A token is replaced before an insert after it.
    TokenTooEarly,
    /// The order is allowed, and the edit is refused: `TooLong`, `NoTreeNumber` or `Memory`.
    Edit(EditError),
}

impl fmt::Display for ExecuteError {
    ghost use Rattle.std.specs.Prelude.{Some};
    ghost use Rattle.edit_plan.specs.PlanErrorText.{execute_error_text};

    ghost output = { λ e. Some (execute_error_text e) };

    fn fmt<W: fmt::Write>(&self, f: &mut fmt::Formatter<W>) -> fmt::Result {
        match self {
            ExecuteError::NotEachOnce => f.write_str("NotEachOnce"),
            ExecuteError::OwnerTooEarly => f.write_str("OwnerTooEarly"),
            ExecuteError::GapOutOfOrder => f.write_str("GapOutOfOrder"),
            ExecuteError::TokenTooEarly => f.write_str("TokenTooEarly"),
            ExecuteError::Edit(inner) => write!(f, "{inner}"),
        }
    }
}

impl ExecuteError {
    /// What is wrong and what to do about it, in a sentence without the numbers.
    pub fn help(&self) -> &'static str
        ensures { 0 < length result.now }
    {
        match self {
            ExecuteError::NotEachOnce => {
                "the order does not have each change that is not dropped exactly once, and nothing else; list each of them once"
            }
            ExecuteError::OwnerTooEarly => {
                "a change comes after its owner, the change that replaces the node round it; put it before its owner"
            }
            ExecuteError::GapOutOfOrder => {
                "two inserts into one gap come in the wrong order; put the one that was recorded last first"
            }
            ExecuteError::TokenTooEarly => {
                "an insert after a token comes after the change that replaces or deletes the token; put the insert first"
            }
            ExecuteError::Edit(inner) => inner.help(),
        }
    }
}

impl From<OrderError> for ExecuteError {
    ghost use Rattle.std.specs.Prelude.{◌≡◌};
    ghost use Rattle.edit_plan.specs.ExecuteRefusal.{of_order};

    ghost from_gives = { λ o e. e ≡ of_order o };

    fn from(error: OrderError) -> ExecuteError {
        match error {
            OrderError::NotEachOnce => ExecuteError::NotEachOnce,
            OrderError::OwnerTooEarly => ExecuteError::OwnerTooEarly,
            OrderError::GapOutOfOrder => ExecuteError::GapOutOfOrder,
            OrderError::TokenTooEarly => ExecuteError::TokenTooEarly,
            OrderError::Memory => ExecuteError::Edit(EditError::Memory),
        }
    }
}

impl From<EditError> for ExecuteError {
    ghost use Rattle.std.specs.Prelude.{◌≡◌};
    ghost use Rattle.edit_plan.specs.declared.execute_error.ExecuteError.{ExecuteError};

    ghost from_gives = { λ x e. e ≡ ExecuteError.Edit x };

    fn from(error: EditError) -> ExecuteError {
        ExecuteError::Edit(error)
    }
}

impl From<AllocError> for ExecuteError {
    ghost use Rattle.std.specs.Prelude.{◌≡◌};
    ghost use Rattle.edit_plan.specs.declared.edit_error.EditError.{EditError};
    ghost use Rattle.edit_plan.specs.declared.execute_error.ExecuteError.{ExecuteError};

    ghost from_gives = { λ _ e. e ≡ ExecuteError.Edit EditError.Memory };

    fn from(_: AllocError) -> ExecuteError {
        ExecuteError::Edit(EditError::Memory)
    }
}

impl<T: Drop> From<AllocFailed<T>> for ExecuteError {
    ghost use Rattle.std.specs.Prelude.{◌≡◌};
    ghost use Rattle.edit_plan.specs.declared.edit_error.EditError.{EditError};
    ghost use Rattle.edit_plan.specs.declared.execute_error.ExecuteError.{ExecuteError};

    ghost from_gives = { λ _ e. e ≡ ExecuteError.Edit EditError.Memory };

    fn from(_: AllocFailed<T>) -> ExecuteError {
        ExecuteError::Edit(EditError::Memory)
    }
}
