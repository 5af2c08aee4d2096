//! `Stop`: why a script ends at a line.

ghost use Rattle.std.specs.Prelude.{◌≡◌};
ghost use Rattle.syned_script.specs.declared.stop.Stop.TheVariants.{Bad};

use crate::fault::{Fault, Reason};
use crate::refusal::Refusal;
use cst_core::TreeError;
use script_lines::LineError;
use std::alloc::{AllocError, AllocFailed};
use syntax_editor::{EditError, ExecuteError, IndentError, MapError, RecordError, WrapError};

/// Why a script ends at a line.
#[derive(Debug, Drop)]
pub enum Stop {
    /// The line is bad.
    Bad(Fault),
    /// Its call was refused, and not because memory ran out.
    Refused(Refusal),
    /// Memory was refused.
    Memory,
}

/// The line at which a script ends, counted from 1, and why.
#[derive(Debug, Drop)]
pub struct Stopped {
    pub line: usize,
    pub stop: Stop,
}

impl Stop {
    /// The line is bad for this reason, which shows at a byte of it.
    pub(crate) fn bad(at: usize, reason: Reason) -> Stop
        ensures { result ≡ Bad (record { at = at; reason = reason }) }
    {
        Stop::Bad(Fault { at, reason })
    }

    pub(crate) fn at(self, line: usize) -> Stopped
        ensures { result ≡ record { line = line; stop = self } }
    {
        Stopped { line, stop: self }
    }
}

impl From<LineError> for Stop {
    ghost use Rattle.std.specs.Prelude.{◌≡◌};
    ghost use Rattle.syned_script.specs.StopOfError.{stop_of_line};

    ghost from_gives = { λ error stop. stop ≡ stop_of_line error };

    fn from(error: LineError) -> Stop {
        match error {
            LineError::Bad(fault) => Stop::bad(fault.at, Reason::Flaw(fault.flaw)),
            LineError::Memory => Stop::Memory,
        }
    }
}

impl From<AllocError> for Stop {
    ghost use Rattle.std.specs.Prelude.{◌≡◌};
    ghost use Rattle.syned_script.specs.declared.stop.Stop.{Stop};

    ghost from_gives = { λ _ stop. stop ≡ Stop.Memory };

    fn from(_: AllocError) -> Stop {
        Stop::Memory
    }
}

impl<T: Drop> From<AllocFailed<T>> for Stop {
    ghost use Rattle.std.specs.Prelude.{◌≡◌};
    ghost use Rattle.syned_script.specs.declared.stop.Stop.{Stop};

    ghost from_gives = { λ _ stop. stop ≡ Stop.Memory };

    fn from(_: AllocFailed<T>) -> Stop {
        Stop::Memory
    }
}

impl From<TreeError> for Stop {
    ghost use Rattle.std.specs.Prelude.{◌≡◌};
    ghost use Rattle.syned_script.specs.StopOfError.{stop_of_tree};

    ghost from_gives = { λ error stop. stop ≡ stop_of_tree error };

    fn from(error: TreeError) -> Stop {
        match error {
            TreeError::Memory => Stop::Memory,
            error => Stop::Refused(Refusal::Tree(error)),
        }
    }
}

impl From<IndentError> for Stop {
    ghost use Rattle.std.specs.Prelude.{◌≡◌};
    ghost use Rattle.syned_script.specs.StopOfError.{stop_of_indent};

    ghost from_gives = { λ error stop. stop ≡ stop_of_indent error };

    // What is not refused as a tree is comes of no call that a script makes.
    fn from(error: IndentError) -> Stop {
        match error {
            IndentError::TooLong => Stop::Refused(Refusal::Tree(TreeError::TooLong)),
            IndentError::NoTreeNumber => Stop::Refused(Refusal::Tree(TreeError::NoTreeNumber)),
            IndentError::LevelTooLarge | IndentError::NotYounger | IndentError::Memory =>
                Stop::Memory,
        }
    }
}

impl From<WrapError> for Stop {
    ghost use Rattle.std.specs.Prelude.{◌≡◌};
    ghost use Rattle.syned_script.specs.StopOfError.{stop_of_wrap};

    ghost from_gives = { λ error stop. stop ≡ stop_of_wrap error };

    fn from(error: WrapError) -> Stop {
        match error {
            WrapError::TooLong => Stop::Refused(Refusal::Tree(TreeError::TooLong)),
            WrapError::NoTreeNumber => Stop::Refused(Refusal::Tree(TreeError::NoTreeNumber)),
            WrapError::NotYounger => Stop::Refused(Refusal::Map(MapError::NotYounger)),
            WrapError::Foreign => Stop::Refused(Refusal::Record(RecordError::Foreign)),
            WrapError::Memory => Stop::Memory,
        }
    }
}

impl From<MapError> for Stop {
    ghost use Rattle.std.specs.Prelude.{◌≡◌};
    ghost use Rattle.syned_script.specs.StopOfError.{stop_of_map};

    ghost from_gives = { λ error stop. stop ≡ stop_of_map error };

    fn from(error: MapError) -> Stop {
        match error {
            MapError::Memory => Stop::Memory,
            error => Stop::Refused(Refusal::Map(error)),
        }
    }
}

impl From<RecordError> for Stop {
    ghost use Rattle.std.specs.Prelude.{◌≡◌};
    ghost use Rattle.syned_script.specs.StopOfError.{stop_of_record};

    ghost from_gives = { λ error stop. stop ≡ stop_of_record error };

    fn from(error: RecordError) -> Stop {
        match error {
            RecordError::Memory => Stop::Memory,
            error => Stop::Refused(Refusal::Record(error)),
        }
    }
}

impl From<EditError> for Stop {
    ghost use Rattle.std.specs.Prelude.{◌≡◌};
    ghost use Rattle.syned_script.specs.StopOfError.{stop_of_edit};

    ghost from_gives = { λ error stop. stop ≡ stop_of_edit error };

    fn from(error: EditError) -> Stop {
        match error {
            EditError::Memory => Stop::Memory,
            error => Stop::Refused(Refusal::Edit(error)),
        }
    }
}

impl From<ExecuteError> for Stop {
    ghost use Rattle.std.specs.Prelude.{◌≡◌};
    ghost use Rattle.syned_script.specs.StopOfError.{stop_of_execute};

    ghost from_gives = { λ error stop. stop ≡ stop_of_execute error };

    fn from(error: ExecuteError) -> Stop {
        match error {
            ExecuteError::Edit(error) => Stop::from(error),
            error => Stop::Refused(Refusal::Order(error)),
        }
    }
}
