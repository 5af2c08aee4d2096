//! `Refusal`: the error that a refused call gave, which prints it.

ghost use Rattle.std.specs.Prelude.{◌<◌, length};

use cst_core::TreeError;
use std::error::Error;
use std::fmt;
use syntax_editor::{EditError, ExecuteError, MapError, RecordError};

/// The error of a call of a script. It prints that error, as `Intersecting 0 2`.
#[derive(Debug, Drop)]
pub enum Refusal {
    Tree(TreeError),
    Map(MapError),
    Record(RecordError),
    Edit(EditError),
    Order(ExecuteError),
}

impl Refusal {
    /// The error's sentence.
    pub fn help(&self) -> &'static str
        ensures { 0 < length result.now }
    {
        match self {
            Refusal::Tree(error) => error.help(),
            Refusal::Map(error) => error.help(),
            Refusal::Record(error) => error.help(),
            Refusal::Edit(error) => error.help(),
            Refusal::Order(error) => error.help(),
        }
    }
}

impl fmt::Display for Refusal {
    ghost use Rattle.std.specs.Prelude.{Some};
    ghost use Rattle.syned_script.specs.RefusalText.{refusal_text};

    ghost output = { λ r. Some (refusal_text r) };

    fn fmt<W: fmt::Write>(&self, f: &mut fmt::Formatter<W>) -> fmt::Result {
        match self {
            Refusal::Tree(error) => write!(f, "{error}"),
            Refusal::Map(error) => write!(f, "{error}"),
            Refusal::Record(error) => write!(f, "{error}"),
            Refusal::Edit(error) => write!(f, "{error}"),
            Refusal::Order(error) => write!(f, "{error}"),
        }
    }
}

impl Error for Refusal {}
