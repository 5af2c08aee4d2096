//! `ExpressionError`: why a text is no tree, and at which byte, which tells memory from a bad expression.

ghost use Rattle.std.specs.Prelude.{◌≡◌, ◌≢◌, ◌<◌, length};

use crate::expected::Expected;
use cst_core::TreeError;
use std::alloc::{AllocError, AllocFailed};
use thiserror::Error;

/// Why there is no tree. Where the text is to blame, `at` says at which of its bytes, counted from 0. What an error says of
/// the text there is a definition (`ReadRefuses`).
#[derive(Debug, PartialEq, Eq, Drop, Error)]
pub enum ExpressionError {
    /// What stands at this byte is not what a tree expression may have there; at the text's length, the text ends too early.
    #[error("Malformed {at}")]
    Malformed { at: usize, expected: Expected },
    /// No kind has the name that begins at this byte. What stands behind the name may stand there.
    #[error("UnknownKind {at}")]
    UnknownKind { at: usize },
    /// More parentheses are open at once than the limit allows, which is `DEPTH_LIMIT` unless the call takes another. The kind of
    /// the first node that is too deep begins at this byte.
    #[error("TooDeep {at}")]
    TooDeep { at: usize },
    /// The tree cannot be made, and not because memory ran out.
    #[error(transparent)]
    Tree(TreeError),
    /// Memory was refused.
    #[error("Memory")]
    Memory,
}

impl From<AllocError> for ExpressionError {
    ghost use Rattle.std.specs.Prelude.{◌≡◌};
    ghost use Rattle.tree_text.specs.declared.error.ExpressionError.{ExpressionError};

    ghost from_gives = { λ _ e. e ≡ ExpressionError.Memory };

    fn from(_: AllocError) -> ExpressionError {
        ExpressionError::Memory
    }
}

impl<T: Drop> From<AllocFailed<T>> for ExpressionError {
    ghost use Rattle.std.specs.Prelude.{◌≡◌};
    ghost use Rattle.tree_text.specs.declared.error.ExpressionError.{ExpressionError};

    ghost from_gives = { λ _ e. e ≡ ExpressionError.Memory };

    fn from(_: AllocFailed<T>) -> ExpressionError {
        ExpressionError::Memory
    }
}

impl ExpressionError {
    /// What is wrong and what to do about it, in a sentence without the numbers.
    pub fn help(&self) -> &'static str
        ensures { 0 < length result.now }
    {
        match self {
            ExpressionError::Malformed { expected, .. } => expected.help(),
            ExpressionError::UnknownKind { .. } => {
                "no kind has this name; write the name of a kind"
            }
            ExpressionError::TooDeep { .. } => {
                "too many parentheses are open at once; nest fewer nodes"
            }
            ExpressionError::Tree(inner) => inner.help(),
            ExpressionError::Memory => "memory ran out; free some and try again",
        }
    }

    /// Why there is no tree where the tree itself was refused.
    pub(crate) fn of_tree(error: TreeError) -> ExpressionError
        ensures memory { error ≡ TreeError.Memory → result ≡ ExpressionError.Memory }
        ensures other { error ≢ TreeError.Memory → result ≡ ExpressionError.Tree error }
    {
        match error {
            TreeError::Memory => ExpressionError::Memory,
            TreeError::TooLong => ExpressionError::Tree(TreeError::TooLong),
            TreeError::NoTreeNumber => ExpressionError::Tree(TreeError::NoTreeNumber),
        }
    }
}
