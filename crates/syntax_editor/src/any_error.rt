//! `Error`, which the refusal of any call turns into.

ghost use Rattle.std.specs.Prelude.{◌<◌, length};

use crate::error::{MergeError, RecordError};
use crate::wrap_error::WrapError;
use cst_core::TreeError;
use edit_map::MapError;
use edit_plan::{EditError, ExecuteError};
use std::alloc::{AllocError, AllocFailed};
use thiserror::Error;
use whitespace::IndentError;

/// Any refusal of a call of these crates, for callers that need no more than `?` and a text. Its text is that of the refusal.
#[derive(Debug, PartialEq, Eq, Drop, Error)]
pub enum Error {
    /// A tree cannot be made.
    #[error(transparent)]
    Tree(TreeError),
    /// A pair is not taken up by a builder.
    #[error(transparent)]
    Map(MapError),
    /// A change is not recorded.
    #[error(transparent)]
    Record(RecordError),
    /// An editor is not merged into another one.
    #[error(transparent)]
    Merge(MergeError),
    /// A level is not read, or a tree is not indented.
    #[error(transparent)]
    Indent(IndentError),
    /// A node is not put between other elements.
    #[error(transparent)]
    Wrap(WrapError),
    /// Changes are not planned, or not carried out.
    #[error(transparent)]
    Edit(EditError),
    /// A plan is not carried out in an order.
    #[error(transparent)]
    Execute(ExecuteError),
    /// Memory was refused to a call that is refused for nothing else.
    #[error("Memory")]
    Memory,
}

impl Error {
    /// What is wrong and what to do about it, in a sentence without the numbers.
    pub fn help(&self) -> &'static str
        ensures { 0 < length result.now }
    {
        match self {
            Error::Tree(inner) => inner.help(),
            Error::Map(inner) => inner.help(),
            Error::Record(inner) => inner.help(),
            Error::Merge(inner) => inner.help(),
            Error::Indent(inner) => inner.help(),
            Error::Wrap(inner) => inner.help(),
            Error::Edit(inner) => inner.help(),
            Error::Execute(inner) => inner.help(),
            Error::Memory => "memory ran out; free some and try again",
        }
    }
}

impl From<AllocError> for Error {
    ghost use Rattle.std.specs.Prelude.{◌≡◌};
    ghost use Rattle.syntax_editor.specs.declared.any_error.Error.{Error};

    ghost from_gives = { λ _ e. e ≡ Error.Memory };

    fn from(_: AllocError) -> Error {
        Error::Memory
    }
}

impl<T: Drop> From<AllocFailed<T>> for Error {
    ghost use Rattle.std.specs.Prelude.{◌≡◌};
    ghost use Rattle.syntax_editor.specs.declared.any_error.Error.{Error};

    ghost from_gives = { λ _ e. e ≡ Error.Memory };

    fn from(_: AllocFailed<T>) -> Error {
        Error::Memory
    }
}

impl From<TreeError> for Error {
    ghost use Rattle.std.specs.Prelude.{◌≡◌};
    ghost use Rattle.syntax_editor.specs.declared.any_error.Error.{Error};

    ghost from_gives = { λ x e. e ≡ Error.Tree x };

    fn from(error: TreeError) -> Error {
        Error::Tree(error)
    }
}

impl From<MapError> for Error {
    ghost use Rattle.std.specs.Prelude.{◌≡◌};
    ghost use Rattle.syntax_editor.specs.declared.any_error.Error.{Error};

    ghost from_gives = { λ x e. e ≡ Error.Map x };

    fn from(error: MapError) -> Error {
        Error::Map(error)
    }
}

impl From<RecordError> for Error {
    ghost use Rattle.std.specs.Prelude.{◌≡◌};
    ghost use Rattle.syntax_editor.specs.declared.any_error.Error.{Error};

    ghost from_gives = { λ x e. e ≡ Error.Record x };

    fn from(error: RecordError) -> Error {
        Error::Record(error)
    }
}

impl From<MergeError> for Error {
    ghost use Rattle.std.specs.Prelude.{◌≡◌};
    ghost use Rattle.syntax_editor.specs.declared.any_error.Error.{Error};

    ghost from_gives = { λ x e. e ≡ Error.Merge x };

    fn from(error: MergeError) -> Error {
        Error::Merge(error)
    }
}

impl From<IndentError> for Error {
    ghost use Rattle.std.specs.Prelude.{◌≡◌};
    ghost use Rattle.syntax_editor.specs.declared.any_error.Error.{Error};

    ghost from_gives = { λ x e. e ≡ Error.Indent x };

    fn from(error: IndentError) -> Error {
        Error::Indent(error)
    }
}

impl From<WrapError> for Error {
    ghost use Rattle.std.specs.Prelude.{◌≡◌};
    ghost use Rattle.syntax_editor.specs.declared.any_error.Error.{Error};

    ghost from_gives = { λ x e. e ≡ Error.Wrap x };

    fn from(error: WrapError) -> Error {
        Error::Wrap(error)
    }
}

impl From<EditError> for Error {
    ghost use Rattle.std.specs.Prelude.{◌≡◌};
    ghost use Rattle.syntax_editor.specs.declared.any_error.Error.{Error};

    ghost from_gives = { λ x e. e ≡ Error.Edit x };

    fn from(error: EditError) -> Error {
        Error::Edit(error)
    }
}

impl From<ExecuteError> for Error {
    ghost use Rattle.std.specs.Prelude.{◌≡◌};
    ghost use Rattle.syntax_editor.specs.declared.any_error.Error.{Error};

    ghost from_gives = { λ x e. e ≡ Error.Execute x };

    fn from(error: ExecuteError) -> Error {
        Error::Execute(error)
    }
}
