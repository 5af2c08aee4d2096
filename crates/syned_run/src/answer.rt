//! What a run prints, and its exit status.
ghost use Rattle.std.specs.Prelude.{◌≡◌, IfOk, string_bytes};
ghost use Rattle.std.specs.Option.{MatchOption};
ghost use Rattle.syned_script.specs.ShownValue.{outcome_of};
ghost use Rattle.syned_script.specs.RefusalText.{refusal_text};
ghost use Rattle.syned_run.specs.Answer.{IsAnswerFor, IsNoScript, IsOutcome, printed, refused_text, bad_text};
ghost use Rattle.syned_run.specs.inner.ExitCode.{exit_code};

use crate::print::{print_edit, push_shown};
use crate::status::Status;
use std::alloc::{AllocError, Global};
use syned_script::{CarriedOut, Dialect, Refusal, Stop, Stopped, carry_out_for};

/// What a run prints, whole, and how it ended.
#[derive(Drop)]
pub(crate) struct Answer {
    pub(crate) status: Status,
    pub(crate) text: String,
}

/// The answer to a script of these bytes.
pub(crate) fn answer_to(
    alloc: Global,
    dialect: Dialect,
    script: &[u8],
) -> Result<Answer, AllocError>
    ensures { IfOk result (λ a. IsAnswerFor dialect script.now (exit_code a.status) (string_bytes a.text)) }
{
    match script_text(dialect, script) {
        Some(text) => answer_to_text(alloc, dialect, text),
        None => bad_script(alloc, 0),
    }
}

// The script, if it is one: text, and not too long.
pub(crate) fn script_text(dialect: Dialect, script: &[u8]) -> Option<&str>
    ensures { MatchOption result (IsNoScript dialect script.now)
        (λ text. (text.now ≡ script.now) × (IsNoScript dialect script.now → ⊥)) }
{
    if script.len() > dialect.script_limit() {
        return None;
    }
    str::from_utf8(script).ok()
}

fn answer_to_text(alloc: Global, dialect: Dialect, script: &str) -> Result<Answer, AllocError>
    ensures { IfOk result (λ a. IsOutcome dialect script.now (exit_code a.status) (string_bytes a.text)) }
{
    match carry_out_for(alloc, dialect, script) {
        Ok(done) => edit_answer(alloc, &done),
        Err(Stopped { line, stop }) => match stop {
            Stop::Bad(_) => bad_script(alloc, line),
            Stop::Refused(refusal) => refusal_answer(alloc, refusal),
            Stop::Memory => Err(AllocError),
        },
    }
}

fn edit_answer(alloc: Global, done: &CarriedOut) -> Result<Answer, AllocError>
    ensures status { IfOk result (λ a. exit_code a.status ≡ 0) }
    ensures text { IfOk result
        (λ a. string_bytes a.text ≡ printed (outcome_of done.now.edit done.now.words done.now.shown)) }
{
    Ok(Answer {
        status: Status::Done,
        text: edit_text(alloc, done)?,
    })
}

fn edit_text(alloc: Global, done: &CarriedOut) -> Result<String, AllocError>
    ensures { IfOk result
        (λ s. string_bytes s ≡ printed (outcome_of done.now.edit done.now.words done.now.shown)) }
{
    let (edit, words) = (&done.edit, done.words.in_order());
    let Some(shown) = &done.shown else {
        return print_edit(alloc, edit, words, false);
    };
    let mut text = print_edit(alloc, edit, words, shown.details.ranges)?;
    push_shown(alloc, &mut text, shown, edit.new_root().as_green())?;
    Ok(text)
}

fn bad_script(alloc: Global, line: usize) -> Result<Answer, AllocError>
    ensures { IfOk result (λ a. (exit_code a.status ≡ 2) × (string_bytes a.text ≡ bad_text line)) }
{
    let text = format!(in alloc; "bad script line {line}\n")?;
    Ok(Answer {
        status: Status::BadScript,
        text,
    })
}

fn refusal_answer(alloc: Global, refusal: Refusal) -> Result<Answer, AllocError>
    ensures { IfOk result (λ a. (exit_code a.status ≡ 1)
        × (string_bytes a.text ≡ refused_text (refusal_text refusal))) }
{
    let text = format!(in alloc; "refused {refusal}\n")?;
    Ok(Answer {
        status: Status::Refused,
        text,
    })
}
