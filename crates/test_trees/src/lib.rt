//! What rows of tests are written in: trees by name and by expression, words, and what is answered; and the steps
//! that need no plan and no editor.
//!
//! What the calls give is looked at by tests alone, so they have no contracts.
#![tactic(auto)]

mod elements;
mod errors;
mod positions;
mod run;
mod step;
mod texts;
mod trees;
mod words;

pub use errors::print as print_errors;
pub use positions::{answer, change_text, deleted_paths, inserted, level, position, read_level};
pub use run::{Group, REFUSED, Run, Standing, Steps, Taken};
pub use step::{CHANGED, Done, NoAnswer, Show, Step, given, kind_name, made, tried};
pub use texts::keep;
pub use trees::{Trees, read_tree};
pub use words::{number_of, push_quoted};
