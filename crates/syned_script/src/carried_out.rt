//! A script's lines in order: what they record, and the edit that is made of it.
ghost use Rattle.std.specs.Prelude.{◌≡◌, ◌<◌, ◌≤◌, true, false, not, drop, length, IfOk, IfErr, OnOk, IfSome, IfNone, None, option_map};
ghost use Rattle.std.specs.List.{list_all, position_or_len};
ghost use Rattle.script_lines.specs.Line.{is_blank};
ghost use Rattle.syned_script.specs.State as state;
ghost use Rattle.syned_script.specs.State.{new_state, asks};
ghost use Rattle.syntax_editor.specs.Tree.{text_length};
ghost use Rattle.syntax_editor.specs.Green.{length_limit};
ghost use Rattle.syntax_editor.specs.Schedule.{IsAllowed};
ghost use Rattle.syntax_editor.specs.Plan.{Makes};
ghost use Rattle.syntax_editor.specs.Editor.{plan_of};
ghost use Rattle.syned_script.specs.Script.{lines_in, Edited, FinishGives, CarriesOut, EndRefuses};
ghost use Rattle.syned_script.specs.ShownValue.{outcome_of, showing_of};
ghost use Rattle.syned_script.specs.Script.{Means, MeansFor, StopsSo, StopsAt, StopsAtFor};
ghost use Rattle.syned_script.specs.inner.Stops.{StopsFor};
ghost use Rattle.syned_script.specs.inner.SessionState.{editing_of, state_of};
ghost use Rattle.syned_script.specs.inner.Run.{texts_in, TextGives, Reached, EndIsGood, EndStops, FinishStops, GivesEdits, RunStops};
ghost use Rattle.syned_script.specs.declared.stop.Stop.TheVariants.{Memory};

use crate::fault::Reason;
use crate::lines::lines_in;
use crate::session::{Editing, Parts, Session};
use crate::shown::{Details, Shown};
use crate::stop::{Stop, Stopped};
use crate::words::Words;
use cst_core::TreeIds;
use script_lines::{Dialect, Line, is_blank, read_line};
use std::alloc::{AllocError, Global};
use syntax_editor::{EditPlan, OnePassEngine, SyntaxEdit, SyntaxEditor, TextEdits};
use tree_text::KindNames;

/// What a script makes that is carried out to its end.
#[derive(Drop)]
pub struct CarriedOut {
    /// The edit that `finish` makes.
    pub edit: SyntaxEdit,
    /// The annotation words of the script.
    pub words: Words,
    /// What its answer shows besides, where it asks for that. A script of the dialect `Syned` never does.
    pub shown: Option<Shown>,
}

/// What a script has recorded where it comes to `finish`.
#[derive(Drop)]
pub struct Recorded {
    /// The editor, with its changes, registrations and mappings.
    pub editor: SyntaxEditor,
    /// The order in which the changes are to be carried out, where the script says one.
    pub order: Option<Vec<usize>>,
    /// The source of the script's tree numbers.
    pub ids: TreeIds,
    /// The annotation words of the script.
    pub words: Words,
}

/// Carries a script out to its end, or says at which line it ends, and why.
pub fn carry_out(alloc: Global, script: &str) -> Result<CarriedOut, Stopped>
    ensures ok { IfOk result (λ done. Means script.now (Edited done.edit done.words)) }
    ensures nothing { IfOk result (λ done. done.shown ≡ None) }
    ensures err { IfErr result (λ stopped. StopsAt script.now stopped.line stopped.stop) }
{
    carry_out_for(alloc, Dialect::Syned, script)
}

/// `carry_out` of a script in a dialect.
pub fn carry_out_for(alloc: Global, dialect: Dialect, script: &str) -> Result<CarriedOut, Stopped>
    ensures ok { IfOk result
        (λ done. MeansFor dialect script.now (outcome_of done.edit done.words done.shown)) }
    ensures err { IfErr result (λ stopped. StopsAtFor dialect script.now stopped.line stopped.stop) }
{
    let mut session = Session::new(alloc, dialect);
    let number = go_through(alloc, &mut session, script)?;
    match finish(alloc, session) {
        Ok(done) => Ok(done),
        Err(stop) => Err(stop.at(number)),
    }
}

/// What a script records, for another engine that is to carry it out; `None` where a line is bad, or its call refused, or memory is.
pub fn record_script(alloc: Global, dialect: Dialect, script: &str) -> Option<Recorded> {
    let mut session = Session::new(alloc, dialect);
    go_through(alloc, &mut session, script).ok()?;
    what_is_recorded(session.into_parts())
}

fn what_is_recorded(parts: Result<Parts, Stop>) -> Option<Recorded> {
    let Parts {
        editing: Editing { editor, order, .. },
        ids,
        words,
        ..
    } = parts.ok()?;
    Some(Recorded {
        editor,
        order,
        ids,
        words,
    })
}

fn lines<'a>(alloc: Global, script: &'a str) -> Result<Vec<&'a str>, Stopped>
    ensures lines { IfOk result (λ lines. texts_in lines.items ≡ lines_in script.now) }
    ensures memory { IfErr result (λ stopped. stopped.stop ≡ Memory) }
{
    match lines_in(alloc, script) {
        Ok(lines) => Ok(lines),
        Err(_) => Err(Stop::Memory.at(0)),
    }
}

// Carries out the lines before `finish`, tells the number of that one, and tests what follows.
fn go_through(alloc: Global, session: &mut Session, script: &str) -> Result<usize, Stopped>
    requires { state_of session.old ≡ new_state session.old.language.dialect }
    ensures reached { IfOk result
        (λ n. Reached session.old.language.dialect (lines_in script.now) n (state_of session.new)) }
    ensures good { IfOk result (λ n. EndIsGood (state_of session.new) (drop n (lines_in script.now))) }
    ensures err { IfErr result
        (λ stopped. StopsAtFor session.old.language.dialect script.now stopped.line stopped.stop) }
{
    let lines = lines(alloc, script)?;
    let number = record(alloc, session, &lines)?;
    test_end(session, &lines, number)?;
    Ok(number)
}

// Carries out the lines before `finish`, and tells the number of that one.
fn record(alloc: Global, session: &mut Session, lines: &[&str]) -> Result<usize, Stopped>
    requires { state_of session.old ≡ new_state session.old.language.dialect }
    ensures reached { IfOk result
        (λ n. Reached session.old.language.dialect (texts_in lines.now) n (state_of session.new)) }
    ensures within { IfOk result (λ n. n ≤ length lines.now) }
    ensures err { IfErr result
        (λ stopped. StopsSo session.old.language.dialect (texts_in lines.now) stopped.line stopped.stop) }
{
    for (index, text) in lines.iter().enumerate() {
        match carry_out_line(alloc, session, text) {
            Ok(true) => return Ok(index + 1),
            Ok(false) => {}
            Err(stop) => return Err(stop.at(index + 1)),
        }
    }
    Err(Stop::bad(0, Reason::NoFinish).at(lines.len() + 1))
}

// Carries the line out. Answers whether it was `finish`.
pub(crate) fn carry_out_line(alloc: Global, session: &mut Session, text: &str) -> Result<bool, Stop>
    ensures { TextGives (state_of session.old) text.now result (state_of session.new) }
{
    let line = read_line(alloc, &session.language, text)?;
    let is_finish = matches!(line, Line::Finish);
    let carried_out = if is_finish {
        Ok(())
    } else {
        session.carry_out(&line)
    };
    // Whatever the line is, all that it holds goes here.
    drop(line);
    carried_out.and(Ok(is_finish))
}

// `finish`, which is the line of this number, wants an editor. Only blank lines may follow.
fn test_end(session: &Session, lines: &[&str], number: usize) -> Result<(), Stopped>
    requires { number ≤ length lines.now }
    ensures good { OnOk result (EndIsGood (state_of session.now) (drop number (texts_in lines.now))) }
    ensures err { IfErr result (EndStops (state_of session.now) (drop number (texts_in lines.now)) number) }
{
    if !session.is_editing() {
        return Err(Stop::bad(0, Reason::NoEdit).at(number));
    }
    match first_not_blank(&lines[number..]) {
        None => Ok(()),
        Some(index) => Err(Stop::bad(0, Reason::AfterFinish).at(number + index + 1)),
    }
}

fn first_not_blank(lines: &[&str]) -> Option<usize>
    ensures none { IfNone result (list_all is_blank (texts_in lines.now) ≡ true) }
    ensures some { IfSome result (λ i. list_all is_blank (texts_in lines.now) ≡ false) }
    ensures first { IfSome result (λ i. i ≡ position_or_len (λ line. not (is_blank line)) (texts_in lines.now)) }
    ensures within { IfSome result (λ i. i < length lines.now) }
{
    for (index, line) in lines.iter().enumerate() {
        if !is_blank(line) {
            return Some(index);
        }
    }
    None
}

fn finish(alloc: Global, session: Session) -> Result<CarriedOut, Stop>
    ensures done { IfOk result (λ done. (e : state.Editing) × ((state_of session).editing ≡ Some e)
        × FinishGives (state_of session) e (outcome_of done.edit done.words done.shown)) }
    ensures stops { IfErr result (FinishStops (state_of session)) }
{
    let Parts {
        editing,
        mut ids,
        words,
        language,
    } = session.into_parts()?;
    let details = editing.details;
    let (edit, edits) = carry_changes_out(alloc, editing, &mut ids)?;
    let shown = shown_besides(details, language.names, edits);
    Ok(CarriedOut { edit, words, shown })
}

fn shown_besides(details: Details, names: KindNames, edits: Option<TextEdits>) -> Option<Shown>
    ensures nothing { IfNone result (asks details ≡ false) }
    ensures some { IfSome result (λ s. asks details ≡ true) }
    ensures is { IfSome result
        (λ s. showing_of s ≡ record { details = details; kinds = names; edits = edits }) }
{
    if !details.is_any() {
        return None;
    }
    Some(Shown {
        details,
        names,
        edits,
    })
}

// Carries the changes out, in the order of the script if there is one. Beside the edit it gives the edits of the old text, where these are to
// be shown.
fn carry_changes_out(
    alloc: Global,
    editing: Editing,
    ids: &mut TreeIds,
) -> Result<(SyntaxEdit, Option<TextEdits>), Stop>
    ensures done { IfOk result (λ r. CarriesOut (editing_of editing) ids.old r.0) }
    ensures edits { IfOk result (λ r. GivesEdits editing.details (plan_of editing.editor) r.1) }
    ensures stops { IfErr result (StopsFor ⊥ (EndRefuses editing.editor (editing_of editing).order ids.old)) }
{
    let Editing {
        editor,
        order,
        details,
    } = editing;
    let plan = editor.plan(alloc)?;
    // A new text that is too long is refused before any of it is made.
    let edit = run(alloc, ids, &plan, order)?;
    let edits = edits_to_show(alloc, details, &plan)?;
    Ok((edit, edits))
}

fn edits_to_show(
    alloc: Global,
    details: Details,
    plan: &EditPlan,
) -> Result<Option<TextEdits>, AllocError>
    ensures { IfOk result (GivesEdits details plan.now) }
{
    if !details.edits {
        return Ok(None);
    }
    let edits = plan.text_edits(alloc)?;
    // For the proof: what the plan promises of all edits holds of these.
    let _ = edits.as_slice();
    Ok(Some(edits))
}

fn run(
    alloc: Global,
    ids: &mut TreeIds,
    plan: &EditPlan,
    order: Option<Vec<usize>>,
) -> Result<SyntaxEdit, Stop>
    ensures ok { IfOk result (Makes plan.now ids.old) }
    ensures short { IfOk result (λ e. text_length e.new_root.root < length_limit) }
    ensures allowed { OnOk result (IfSome order (λ v. IsAllowed plan.now.changes v.items)) }
    ensures stops { IfErr result (StopsFor ⊥ (RunStops plan.now (option_map (λ v. v.items) order) ids.old)) }
{
    match order {
        None => plan
            .run_with(alloc, ids, &mut OnePassEngine::new(alloc))
            .map_err(Stop::from),
        Some(order) => plan.execute(alloc, ids, &order).map_err(Stop::from),
    }
}
