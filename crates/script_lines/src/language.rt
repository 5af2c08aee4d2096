//! `Language`: what the lines of a script are read with.

ghost use Rattle.std.specs.Prelude.{◌≡◌};
ghost use Rattle.script_lines.specs.Dialect.{new_language};
ghost use Rattle.script_lines.specs.LineValue.{language_of};

use crate::dialect::Dialect;
use std::alloc::Global;
use tree_text::KindNames;

/// What lines are read with.
#[derive(Drop)]
pub struct Language {
    pub dialect: Dialect,
    /// The names that lines gave to kinds.
    pub names: KindNames,
}

impl Language {
    /// The language of a script's first line.
    pub fn new(alloc: Global, dialect: Dialect) -> Language
        ensures { language_of result ≡ new_language dialect }
    {
        Language {
            dialect,
            names: KindNames::new(alloc),
        }
    }
}
