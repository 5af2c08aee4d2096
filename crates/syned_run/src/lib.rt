//! What the program `syned` does: it reads a script, carries its edit out, and writes the answer.
#![tactic(auto)]

mod answer;
mod bytes;
mod ends;
mod explained;
mod print;
mod program;
mod status;

pub use bytes::{Outcome, answer_into, answer_into_for, explain_into, explain_into_for};
pub use explained::{explain, explain_for};
pub use program::{run, run_explained, run_explained_for, run_for};
pub use syned_script::{Dialect, SCRIPT_LIMIT};
