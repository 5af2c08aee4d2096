//! `ChainError`: why a chain takes no further step, and why it gives no text edits.

ghost use Rattle.std.specs.Prelude.{◌≡◌, ◌<◌, length};
ghost use Rattle.edit_chain.specs.inner.RunError.{IsOfRun, of_run};

use edit_plan::EditError;
use std::alloc::{AllocError, AllocFailed};
use thiserror::Error;

/// Why a chain takes no further step, or gives no text edits.
#[derive(Clone, Copy, Debug, PartialEq, Eq, Error)]
pub enum ChainError {
    /// The plan, or the other chain, does not begin at the last root.
    #[error("OtherRoot")]
    OtherRoot,
    /// The text of the new tree passes 4,294,967,295 bytes.
    #[error("TooLong")]
    TooLong,
    /// The source of tree numbers is spent.
    #[error("NoTreeNumber")]
    NoTreeNumber,
    /// The text edits of the plan of a step, counted from 0, do not fit the text of the tree before it.
    #[error("Unfit {step}")]
    Unfit { step: usize },
    /// Memory was refused.
    #[error("Memory")]
    Memory,
}

impl ChainError {
    /// What is wrong and what to do about it, in a sentence without the numbers.
    pub fn help(&self) -> &'static str
        ensures { 0 < length result.now }
    {
        match self {
            ChainError::OtherRoot => {
                "the next step does not begin at the root that the last one made; begin it at the last root of the chain"
            }
            ChainError::TooLong => {
                "the text of the new tree would have four gibibytes or more; insert less"
            }
            ChainError::NoTreeNumber => {
                "the source of tree numbers has no number left; start it at a smaller one"
            }
            ChainError::Unfit { .. } => {
                "a step is of another tree with the number of the one before it; take all numbers from one source"
            }
            ChainError::Memory => "memory ran out; free some and try again",
        }
    }

    /// Why a chain takes no further step where the plan of that step is not carried out.
    pub(crate) fn of_run(error: EditError) -> ChainError
        requires { IsOfRun error }
        ensures { result ≡ of_run error }
    {
        match error {
            EditError::Intersecting { .. } => unreachable!(),
            EditError::MissingMapping { .. } => unreachable!(),
            EditError::TooLong => ChainError::TooLong,
            EditError::NoTreeNumber => ChainError::NoTreeNumber,
            EditError::Memory => ChainError::Memory,
        }
    }
}

impl From<AllocError> for ChainError {
    ghost use Rattle.std.specs.Prelude.{◌≡◌};
    ghost use Rattle.edit_chain.specs.declared.chain_error.ChainError.{ChainError};

    ghost from_gives = { λ _ e. e ≡ ChainError.Memory };

    fn from(_: AllocError) -> ChainError {
        ChainError::Memory
    }
}

impl<T: Drop> From<AllocFailed<T>> for ChainError {
    ghost use Rattle.std.specs.Prelude.{◌≡◌};
    ghost use Rattle.edit_chain.specs.declared.chain_error.ChainError.{ChainError};

    ghost from_gives = { λ _ e. e ≡ ChainError.Memory };

    fn from(_: AllocFailed<T>) -> ChainError {
        ChainError::Memory
    }
}
