//! `MapError`: why a pair is not taken up by a builder.

ghost use Rattle.std.specs.Prelude.{◌<◌, length};

use std::alloc::{AllocError, AllocFailed};
use std::fmt;
use thiserror::Error;

/// Why a pair is not taken up by a builder.
#[derive(Debug, PartialEq, Eq, Drop, Error)]
pub enum MapError {
    /// The output is not a child of the builder's parent.
    NotAChild,
    /// The number of the output's tree is not greater than that of the input's.
    NotYounger,
    /// Input and output differ in more than the texts of their tokens.
    OtherShape,
    /// There are more inputs than outputs.
    MoreInputs,
    /// Memory was refused.
    Memory,
}

impl fmt::Display for MapError {
    ghost use Rattle.std.specs.Prelude.{Some};
    ghost use Rattle.edit_map.specs.MapErrorText.{map_error_text};

    ghost output = { λ e. Some (map_error_text e) };

    fn fmt<W: fmt::Write>(&self, f: &mut fmt::Formatter<W>) -> fmt::Result {
        match self {
            MapError::NotAChild => f.write_str("NotAChild"),
            MapError::NotYounger => f.write_str("NotYounger"),
            MapError::OtherShape => f.write_str("OtherShape"),
            MapError::MoreInputs => f.write_str("MoreInputs"),
            MapError::Memory => f.write_str("Memory"),
        }
    }
}

impl MapError {
    /// What is wrong and what to do about it, in a sentence without the numbers.
    pub fn help(&self) -> &'static str
        ensures { 0 < length result.now }
    {
        match self {
            MapError::NotAChild => {
                "the copy is not a child of the given parent; give the node that the copy is a child of"
            }
            MapError::NotYounger => {
                "the tree of the copy is not newer than that of the node; make the tree of the copy after that of the node"
            }
            MapError::OtherShape => {
                "the copy differs from the node in more than the texts of its tokens; map nodes of one shape"
            }
            MapError::MoreInputs => "there are more nodes than copies; give a copy for each node",
            MapError::Memory => "memory ran out; free some and try again",
        }
    }
}

impl From<AllocError> for MapError {
    ghost use Rattle.std.specs.Prelude.{◌≡◌};
    ghost use Rattle.edit_map.specs.declared.map_error.MapError.{MapError};

    ghost from_gives = { λ _ e. e ≡ MapError.Memory };

    fn from(_: AllocError) -> MapError {
        MapError::Memory
    }
}

impl<T: Drop> From<AllocFailed<T>> for MapError {
    ghost use Rattle.std.specs.Prelude.{◌≡◌};
    ghost use Rattle.edit_map.specs.declared.map_error.MapError.{MapError};

    ghost from_gives = { λ _ e. e ≡ MapError.Memory };

    fn from(_: AllocFailed<T>) -> MapError {
        MapError::Memory
    }
}
