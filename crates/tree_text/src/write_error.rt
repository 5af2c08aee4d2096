//! `WriteError`: why a tree is not written.

ghost use Rattle.std.specs.Prelude.{◌<◌, length};

use cst_core::SyntaxKind;
use std::alloc::AllocError;
use thiserror::Error;

/// Why a tree is not written.
#[derive(Clone, Copy, Debug, PartialEq, Eq, Error)]
pub enum WriteError {
    /// This kind, which a node or a token of the tree has, has no name.
    #[error("NoName {number}", number = .0.0)]
    NoName(SyntaxKind),
    /// Memory was refused.
    #[error("Memory")]
    Memory,
}

impl From<AllocError> for WriteError {
    ghost use Rattle.std.specs.Prelude.{◌≡◌};
    ghost use Rattle.tree_text.specs.declared.write_error.WriteError.{WriteError};

    ghost from_gives = { λ _ e. e ≡ WriteError.Memory };

    fn from(_: AllocError) -> WriteError {
        WriteError::Memory
    }
}

impl WriteError {
    /// What is wrong and what to do about it, in a sentence without the numbers.
    pub fn help(&self) -> &'static str
        ensures { 0 < length result.now }
    {
        match self {
            WriteError::NoName(_) => "a kind of the tree has no name; give it one",
            WriteError::Memory => "memory ran out; free some and try again",
        }
    }
}
