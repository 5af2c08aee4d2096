//! `run` and `run_explained`, and the same in a dialect: a script is read, carried out and answered. The program `syned`
//! is a call of the last of them.

ghost use Rattle.std.specs.Prelude.{◌≡◌, ◌≤◌, ◌<◌, ◌+◌};
ghost use Rattle.syned_run.specs.Ends.{TakesFront, TakesAtMost, script_limit};
ghost use Rattle.script_lines.specs.Dialect.{bytes_in};
ghost use Rattle.syned_run.specs.Answer.{Answers, AnswersFor, Fails, FailsFor};
ghost use Rattle.syned_run.specs.inner.ExitCode.{exit_code};
ghost use Rattle.syned_run.specs.inner.Responding.{Responds, WritesSome};

use crate::answer::answer_to;
use crate::ends::{EndFailed, read_script, write_all_of};
use crate::explained::write_reason;
use crate::status::{Failure, Status};
use std::alloc::Global;
use std::io::{Read, Write};
use syned_script::Dialect;

/// Reads a script to its end, carries it out and writes the answer. What it gives is the exit status: 0 where the new
/// tree was made, 1 where a call was refused, 2 for a bad script, 3 where a read or a write failed or memory was
/// refused.
///
/// Of the reader it takes at most one byte more than a script may have, so a run over a reader without end ends too.
/// A status below 3 comes only once the reader was read to its end or to that byte.
///
/// The answer is made whole before any of it is written. A status below 3 comes only once all of it was written; where
/// a write failed, what was written is a beginning of it.
pub fn run<R: Read, W: Write>(alloc: Global, reader: &mut R, writer: &mut W) -> u8
    ensures status { result ≤ 3 }
    ensures read { result < 3 → TakesFront (R.remaining reader.old) (R.remaining reader.new) (script_limit + 1) }
    ensures answered { result < 3 → Answers R.remaining W.contents reader.old reader.new writer.old writer.new result }
    ensures failed { result ≡ 3 → Fails R.remaining W.contents reader.old reader.new writer.old writer.new }
    ensures taken { TakesAtMost (R.remaining reader.old) (R.remaining reader.new) (script_limit + 1) }
{
    run_for(alloc, Dialect::Syned, reader, writer)
}

/// `run` of a script in a dialect.
pub fn run_for<R: Read, W: Write>(
    alloc: Global,
    dialect: Dialect,
    reader: &mut R,
    writer: &mut W,
) -> u8
    ensures status { result ≤ 3 }
    ensures read { result < 3 → TakesFront (R.remaining reader.old) (R.remaining reader.new) (bytes_in dialect + 1) }
    ensures answered { result < 3
        → AnswersFor dialect R.remaining W.contents reader.old reader.new writer.old writer.new result }
    ensures failed { result ≡ 3 → FailsFor dialect R.remaining W.contents reader.old reader.new writer.old writer.new }
    ensures taken { TakesAtMost (R.remaining reader.old) (R.remaining reader.new) (bytes_in dialect + 1) }
{
    match read_script(alloc, dialect, reader) {
        Ok(script) => respond(alloc, dialect, &script, writer).code(),
        Err(_) => Status::Failed(Failure::Read).code(),
    }
}

/// The same, and where the exit status is not 0 it also writes a sentence to `errors`: what `explain` says of the
/// script, or what failed. Whether this one could be written makes no difference. At 0 nothing is written to `errors`.
pub fn run_explained<R: Read, W: Write, E: Write>(
    alloc: Global,
    reader: &mut R,
    writer: &mut W,
    errors: &mut E,
) -> u8
    ensures status { result ≤ 3 }
    ensures read { result < 3 → TakesFront (R.remaining reader.old) (R.remaining reader.new) (script_limit + 1) }
    ensures answered { result < 3 → Answers R.remaining W.contents reader.old reader.new writer.old writer.new result }
    ensures failed { result ≡ 3 → Fails R.remaining W.contents reader.old reader.new writer.old writer.new }
    ensures taken { TakesAtMost (R.remaining reader.old) (R.remaining reader.new) (script_limit + 1) }
    ensures quiet { result ≡ 0 → errors.new ≡ errors.old }
{
    run_explained_for(alloc, Dialect::Syned, reader, writer, errors)
}

/// `run_explained` of a script in a dialect.
pub fn run_explained_for<R: Read, W: Write, E: Write>(
    alloc: Global,
    dialect: Dialect,
    reader: &mut R,
    writer: &mut W,
    errors: &mut E,
) -> u8
    ensures status { result ≤ 3 }
    ensures read { result < 3 → TakesFront (R.remaining reader.old) (R.remaining reader.new) (bytes_in dialect + 1) }
    ensures answered { result < 3
        → AnswersFor dialect R.remaining W.contents reader.old reader.new writer.old writer.new result }
    ensures failed { result ≡ 3 → FailsFor dialect R.remaining W.contents reader.old reader.new writer.old writer.new }
    ensures taken { TakesAtMost (R.remaining reader.old) (R.remaining reader.new) (bytes_in dialect + 1) }
    ensures quiet { result ≡ 0 → errors.new ≡ errors.old }
{
    match read_script(alloc, dialect, reader) {
        Ok(script) => respond_and_explain(alloc, dialect, &script, writer, errors),
        Err(failed) => explain_failed_read(alloc, dialect, failed, errors),
    }
}

fn respond_and_explain<W: Write, E: Write>(
    alloc: Global,
    dialect: Dialect,
    script: &[u8],
    writer: &mut W,
    errors: &mut E,
) -> u8
    ensures answered { result < 3 → Responds dialect W.contents script.now writer.old writer.new result }
    ensures failed { result ≡ 3 → WritesSome dialect W.contents script.now writer.old writer.new }
    ensures status { result ≤ 3 }
    ensures quiet { result ≡ 0 → errors.new ≡ errors.old }
{
    let status = respond(alloc, dialect, script, writer);
    write_reason(alloc, errors, dialect, script, status);
    status.code()
}

fn explain_failed_read<E: Write>(
    alloc: Global,
    dialect: Dialect,
    failed: EndFailed,
    errors: &mut E,
) -> u8
    ensures { result ≡ 3 }
{
    let failure = match failed {
        EndFailed::End => Failure::Read,
        EndFailed::Memory => Failure::Memory,
    };
    let status = Status::Failed(failure);
    write_reason(alloc, errors, dialect, &[], status);
    status.code()
}

// Writes the answer to a script of these bytes.
fn respond<W: Write>(alloc: Global, dialect: Dialect, script: &[u8], writer: &mut W) -> Status
    ensures answered { exit_code result < 3
        → Responds dialect W.contents script.now writer.old writer.new (exit_code result) }
    ensures failed { exit_code result ≡ 3 → WritesSome dialect W.contents script.now writer.old writer.new }
    ensures status { exit_code result ≤ 3 }
{
    let Ok(answer) = answer_to(alloc, dialect, script) else {
        return Status::Failed(Failure::Memory);
    };
    match write_all_of(writer, answer.text.as_bytes()) {
        Ok(()) => answer.status,
        Err(EndFailed::End) => Status::Failed(Failure::Write),
        Err(EndFailed::Memory) => Status::Failed(Failure::Memory),
    }
}
