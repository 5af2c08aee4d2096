//! Scripts of edits, carried out line by line.
#![tactic(auto)]

mod calls;
mod carried_out;
mod changes;
mod explained;
mod fault;
mod kinds;
mod lines;
mod mapped;
mod nearest;
mod refusal;
mod roots;
mod session;
mod shifted;
mod shown;
mod stop;
mod words;

pub use carried_out::{CarriedOut, Recorded, carry_out, carry_out_for, record_script};
pub use fault::{Fault, Reason};
pub use refusal::Refusal;
pub use script_lines::{Dialect, SCRIPT_LIMIT};
pub use shown::{Details, Shown};
pub use stop::{Stop, Stopped};
pub use words::{Word, Words};
