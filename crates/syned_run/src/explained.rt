//! Why a run did not end in an edit, in a sentence.
ghost use Rattle.std.specs.Prelude.{◌≡◌, ◌≢◌, ◌<◌, length, IfOk, OnOk, string_bytes};
ghost use Rattle.std.specs.Option.{MatchOption};
ghost use Rattle.syned_script.specs.declared.stop.Stop.TheVariants.{Memory};
ghost use Rattle.syned_run.specs.Bytes.{EndsIn, EndsInFor, IsReason, IsReasonFor};
ghost use Rattle.syned_run.specs.inner.ExitCode.{exit_code};
ghost use Rattle.syned_run.specs.inner.Responding.{OutcomeIn, IsReasonOf};

use crate::answer::script_text;
use crate::ends::{EndFailed, write_all_of};
use crate::status::{Failure, Status};
use std::alloc::{AllocError, Global};
use std::io::Write;
use syned_script::{Dialect, Stop, Stopped, carry_out_for};

/// Why a script of these bytes does not end in an edit, in a sentence for people, without a newline; `None` if it does. No sentence is empty.
///
/// A bad line is named with its column and with what was read there. Lines and columns count from 1, columns in bytes. For a refused call it
/// is the answer, what to do about it, and the line, or the lines of the changes that the refusal names. The script is carried out for it once
/// more, and for those lines again.
pub fn explain(alloc: Global, script: &[u8]) -> Result<Option<String>, AllocError>
    ensures { IfOk result
        (λ o. MatchOption o (EndsIn script.now 0) (λ reason. IsReason script.now (string_bytes reason))) }
{
    explain_for(alloc, Dialect::Syned, script)
}

/// `explain` of a script in a dialect.
pub fn explain_for(
    alloc: Global,
    dialect: Dialect,
    script: &[u8],
) -> Result<Option<String>, AllocError>
    ensures { IfOk result (λ o. MatchOption o (EndsInFor dialect script.now 0)
        (λ reason. IsReasonFor dialect script.now (string_bytes reason))) }
{
    match script_text(dialect, script) {
        Some(text) => explain_text(alloc, dialect, text),
        None => Ok(Some(of_no_script(alloc, dialect, script)?)),
    }
}

// The same of a script that is text and not too long.
fn explain_text(alloc: Global, dialect: Dialect, script: &str) -> Result<Option<String>, AllocError>
    ensures { IfOk result (λ o. MatchOption o (OutcomeIn dialect script.now 0)
        (λ reason. IsReasonOf dialect script.now (string_bytes reason))) }
{
    match carry_out_for(alloc, dialect, script) {
        Ok(_) => Ok(None),
        Err(stopped) => Ok(Some(of_stop(alloc, dialect, script, &stopped)?)),
    }
}

fn of_no_script(alloc: Global, dialect: Dialect, script: &[u8]) -> Result<String, AllocError>
    ensures { IfOk result (λ reason. 0 < length (string_bytes reason)) }
{
    let limit = dialect.script_limit();
    if script.len() > limit {
        let text = format!(in alloc; "the script has more than {limit} bytes")?;
        return said(alloc, text);
    }
    said(alloc, String::from_str(alloc, "the script is not UTF-8")?)
}

fn of_stop(
    alloc: Global,
    dialect: Dialect,
    script: &str,
    stopped: &Stopped,
) -> Result<String, AllocError>
    ensures said { IfOk result (λ reason. 0 < length (string_bytes reason)) }
    ensures remembered { OnOk result (stopped.now.stop ≢ Memory) }
{
    if matches!(&stopped.stop, Stop::Memory) {
        return Err(AllocError);
    }
    said(alloc, stopped.explanation(alloc, dialect, script)?)
}

// The sentence. An empty one would count as none, so it is never handed out, whatever the sentences say.
fn said(alloc: Global, reason: String) -> Result<String, AllocError>
    ensures { IfOk result (λ reason. 0 < length (string_bytes reason)) }
{
    if reason.is_empty() {
        return String::from_str(alloc, "the script has no edit");
    }
    Ok(reason)
}

/// Writes why a run over a script of these bytes ended so, unless it ended in an edit. It makes no difference if this can't be written.
pub(crate) fn write_reason<E: Write>(
    alloc: Global,
    errors: &mut E,
    dialect: Dialect,
    script: &[u8],
    status: Status,
)
    ensures { exit_code status ≡ 0 → errors.new ≡ errors.old }
{
    match status {
        Status::Done => {}
        Status::Refused | Status::BadScript => write_explanation(alloc, errors, dialect, script),
        Status::Failed(failure) => {
            write_line(errors, failure.as_str()).ok();
        }
    }
}

fn write_explanation<E: Write>(alloc: Global, errors: &mut E, dialect: Dialect, script: &[u8]) {
    match explain_for(alloc, dialect, script) {
        Ok(None) => {}
        Ok(Some(reason)) => {
            write_line(errors, &reason).ok();
        }
        Err(_) => {
            write_line(errors, Failure::Memory.as_str()).ok();
        }
    }
}

fn write_line<E: Write>(errors: &mut E, line: &str) -> Result<(), EndFailed> {
    write_all_of(errors, line.as_bytes())?;
    write_all_of(errors, b"\n")
}
