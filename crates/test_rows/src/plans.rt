//! Plans: of an editor, or built of changes and registered elements; what each engine makes of them; and runs of them,
//! one change at a time.
ghost use Rattle.std.specs.Prelude.{◌≡◌, ◌↔◌, [], true, IsTrue, IfSome, All};
ghost use Rattle.edit_plan.specs.Fits.{Fits};
ghost use Rattle.edit_plan.specs.Schedule.{is_complete};
ghost use Rattle.edit_plan.specs.Run.{is_done};

use crate::session::{Session, annotation, asked, keep_edit};
use cst_core::{GreenNode, SyntaxNode};
use std::mem::replace;
use syntax_editor::{
    Change, EditEngine, EditError, EditPlan, EditRun, EngineError, OnePassEngine, Rewritten,
    SpliceEngine, SyntaxMapping,
};
use test_trees::{
    CHANGED, Done, Group, NoAnswer, Show, Step, Trees, deleted_paths, given, made, number_of, say,
};
use tree_text::write_tree;

/// Takes the step of this name, or passes on what is none of these.
pub fn answer(s: &mut Session, step: &mut Step) -> Done {
    match step.name {
        "plan" => plan(s, step),
        "register" => register(s, step),
        "check_changes" => check_changes(s, step),
        "build" => build(s, step),
        "is_empty" => Some(step.truth(s.plans.last()?.is_empty())),
        "plan_deletions" => Some(deleted_paths(s.plans.last()?.changes(), step)),
        "plan_text" => Some(step.made_text(s.plans.last()?.to_string(step.alloc))),
        "default_order" => default_order(s.plans.last()?, step),
        "text_edits" => text_edits(s.plans.last()?, step),
        "is_dropped" | "owner" => of_change(s.plans.last()?, step),
        "execute" => execute(s, step),
        "run" => run(s, &mut OnePassEngine::new(step.alloc), step),
        "run_spliced" => run(s, &mut SpliceEngine::new(step.alloc), step),
        "built" => built(s.plans.last()?, step),
        "stepped" => take_steps(s.plans.last()?, step),
        "finish_run" => finish_run(s, step),
        "finish_counting" => finish_counting(s, step),
        _ => test_trees::answer(&mut s.trees, step),
    }
}

fn plan(s: &mut Session, step: &mut Step) -> Done {
    let called = s.editors.pop()?.plan(step.alloc);
    keep(s, called, step)
}

// Keeps a plan that a call gave, and answers how many changes it has.
fn keep(s: &mut Session, called: Result<EditPlan, EditError>, step: &mut Step) -> Done {
    let plan = asked(called, step)?;
    step.gave(&plan.len());
    Some(step.note(s.plans.push(plan)))
}

fn register(s: &mut Session, step: &mut Step) -> Done {
    let registration = s.trees.element(step).zip(annotation(step))?;
    Some(step.note(s.registrations.push(registration)))
}

// Whether each change fits the tree with this root.
fn all_fit(root: &SyntaxNode, changes: &[Change]) -> bool
    requires { root.now.path ≡ [] }
    ensures { IsTrue result ↔ All (Fits root.now) changes.now }
{
    changes.iter().all(|change| change.fits(root))
}

// A node that is a root.
fn root(trees: &Trees, step: &mut Step) -> Option<SyntaxNode>
    ensures { IfSome result (λ root. root.path ≡ []) }
{
    let root = trees.node(step)?;
    if !root.slots().is_empty() {
        return None;
    }
    Some(root)
}

// Whether the changes so far make a plan, by the last mapping, or by none. All stay.
fn check_changes(s: &mut Session, step: &mut Step) -> Done {
    let root = root(&s.trees, step)?;
    if !all_fit(&root, &s.trees.changes) {
        return Some(step.put("not fitting"));
    }
    let nothing = SyntaxMapping::new(step.alloc);
    let mapping = s.trees.mappings.last().unwrap_or(&nothing);
    let called = EditPlan::check(step.alloc, &root, &s.trees.changes, mapping);
    asked(called, step)
}

// A plan of the changes and registered elements so far, by the last mapping, or by none.
fn build(s: &mut Session, step: &mut Step) -> Done {
    let root = root(&s.trees, step)?;
    let changes = replace(&mut s.trees.changes, Vec::new(step.alloc));
    if !all_fit(&root, &changes) {
        return Some(step.put("not fitting"));
    }
    let registrations = replace(&mut s.registrations, Vec::new(step.alloc));
    let mapping = s.trees.mappings.pop();
    let mapping = mapping.unwrap_or(SyntaxMapping::new(step.alloc));
    let called = EditPlan::build(step.alloc, root, changes, registrations, mapping);
    keep(s, called, step)
}

// The order in which the changes are carried out.
fn default_order(plan: &EditPlan, step: &mut Step) -> Done {
    let order = asked(plan.default_order(step.alloc), step)?;
    step.put("ok");
    for change in order.iter() {
        say!(step, " {change}");
    }
    Some(())
}

// Each text edit: its offsets and its text.
fn text_edits(plan: &EditPlan, step: &mut Step) -> Done {
    let edits = asked(plan.text_edits(step.alloc), step)?;
    step.put("ok");
    for edit in edits.as_slice() {
        say!(step, " {}-{} ", edit.start, edit.end);
        step.quote(&edit.text);
    }
    Some(())
}

// Whether a change of a plan is dropped, or the change that owns it.
fn of_change(plan: &EditPlan, step: &mut Step) -> Done {
    let change = step.number();
    if change >= plan.len() {
        return None;
    }
    match step.name {
        "is_dropped" => step.truth(plan.is_dropped(change)),
        _ => step.gave_or_none(&plan.owner(change)),
    }
    Some(())
}

fn execute(s: &mut Session, step: &mut Step) -> Done {
    let plan = s.plans.last()?;
    let mut order = Vec::new(step.alloc);
    for word in step.rest().split_whitespace() {
        let change = step.read(number_of(word)).unwrap_or(0);
        step.note(order.push(change));
    }
    let called = plan.execute(step.alloc, &mut s.trees.ids, &order);
    keep_edit(s, called, step)
}

// Carries the last plan out with this engine.
fn run<E: EditEngine>(s: &mut Session, engine: &mut E, step: &mut Step) -> Done {
    let plan = s.plans.last()?;
    let called = plan.run_with(step.alloc, &mut s.trees.ids, engine);
    keep_edit(s, called, step)
}

// The count of an engine that makes a plan's tree in one pass, from the next word's number on, if the other engine makes
// the same tree and paths. A refused run must leave the count as it was.
fn built(plan: &EditPlan, step: &mut Step) -> Done {
    let first = if step.has_words() { step.number() } else { 0 };
    let mut engine = OnePassEngine::starting_at(step.alloc, first);
    let one = engine.run(step.alloc, plan);
    if one.is_err() && engine.builds() != first {
        step.stop(CHANGED);
    }
    let other = SpliceEngine::new(step.alloc).run(step.alloc, plan);
    tell_built(&one, &other, engine.builds(), step)
}

// What an engine makes of a plan, or why it makes nothing.
type Built = Result<Rewritten, EngineError>;

fn tell_built(one: &Built, other: &Built, builds: u64, step: &mut Step) -> Done {
    match (one, other) {
        (Ok(one), Ok(other)) if is_same(one, other, step)? => step.gave(&builds),
        (Err(EngineError::Memory), _) | (_, Err(EngineError::Memory)) => {
            step.refuse(&EngineError::Memory)
        }
        (Err(error), Err(_)) => step.refuse(error),
        _ => step.put("the engines differ"),
    }
    Some(())
}

// Trees with texts up to this length are compared whole, longer ones by their lengths alone.
const COMPARED: u64 = 100_000;

fn is_same(one: &Rewritten, other: &Rewritten, step: &mut Step) -> Option<bool> {
    let is_like = one.changed == other.changed
        && one.annotated == other.annotated
        && one.green.length() == other.green.length();
    if !is_like || one.green.length() > COMPARED {
        return Some(is_like);
    }
    let one = made(write_tree(step.alloc, &one.green), step);
    let (one, other) = one.zip(made(write_tree(step.alloc, &other.green), step))?;
    Some(one == other)
}

// What a run of a plan answers to words: a number is a change that is carried out, others ask for something.
fn take_steps(plan: &EditPlan, step: &mut Step) -> Done {
    step.put("ok");
    let mut run = given("EditRun::new", EditRun::new(step.alloc, plan), step)?;
    take_all(&mut run, step)
}

// The edit that a run gives where it is complete.
fn finish_run(s: &mut Session, step: &mut Step) -> Done {
    let run = run_by(s.plans.last()?, step)?;
    let called = run.finish(step.alloc, &mut s.trees.ids);
    keep_edit(s, called, step)
}

// The same, and the count from a first number on of the walk that gives the edit its paths. Where there is no edit the
// count is as it was.
fn finish_counting(s: &mut Session, step: &mut Step) -> Done {
    let first = step.number();
    let run = run_by(s.plans.last()?, step)?;
    let mut walk = OnePassEngine::starting_at(step.alloc, first);
    let called = run.finish_counting(step.alloc, &mut s.trees.ids, &mut walk);
    if called.is_err() && walk.builds() != first {
        step.stop(CHANGED);
    }
    keep_edit(s, called, step)?;
    Some(say!(step, ", built {}", walk.builds()))
}

// A complete run by these steps, without what they answer; or that it is not complete.
fn run_by<'a>(plan: &'a EditPlan, step: &mut Step) -> Option<EditRun<'a>>
    ensures { IfSome result (λ run. is_complete run.plan.changes (is_done run) ≡ true) }
{
    let mut run = given("EditRun::new", EditRun::new(step.alloc, plan), step)?;
    let taken = take_all(&mut run, step);
    step.text.clear();
    if taken.is_some() && run.is_complete() {
        return Some(run);
    }
    step.put("not complete");
    step.stop(NoAnswer::Refusal);
    None
}

fn take_all(run: &mut EditRun, step: &mut Step) -> Done {
    for word in step.rest().split_whitespace() {
        match word.parse::<usize>() {
            Ok(change) => carry_out(run, change, step)?,
            Err(_) => ask(run, word, step),
        }
    }
    Some(())
}

// Carries a change out, if it may be the next one. A refused call leaves the run as it was, and is made again.
fn carry_out(run: &mut EditRun, change: usize, step: &mut Step) -> Done {
    if change >= run.plan().len() {
        return step.end_by(NoAnswer::Arguments);
    }
    if !run.ready(change) {
        return Some(step.put(" not_ready"));
    }
    let before = standing_of(run);
    if run.step(step.alloc, change).is_ok() {
        return Some(());
    }
    step.refused = Some("EditRun::step");
    step.demand(standing_of(run) == before, CHANGED)?;
    let again = run.step(step.alloc, change);
    Some(step.note(again))
}

// What stands for a run: which changes may be the next ones, the tree and the payloads, each by the lengths of its
// children, and how many nodes were built.
fn standing_of(run: &EditRun) -> u64 {
    let mut group = Group::default();
    group.add(&run.builds());
    add_tree(&mut group, run.green());
    for change in 0..run.plan().len() {
        group.add(&run.ready(change));
        if let Some(payload) = run.payload(change) {
            add_tree(&mut group, payload);
        }
    }
    group.all
}

fn add_tree(group: &mut Group, tree: &GreenNode) {
    group.add(&tree.kind());
    for child in tree.children() {
        group.add(&child.length());
    }
}

fn ask(run: &EditRun, word: &str, step: &mut Step) {
    step.put(" ");
    match word {
        "green" => short_text(run.green(), step),
        "ready" => ready(run, step),
        "next" => run.next_ready().show(step),
        "builds" => step.print(&run.builds()),
        "complete" => step.truth(run.is_complete()),
        "plan" => step.print(&run.plan().len()),
        _ => payload(run, word, step),
    }
}

// The payload of a change, as `payload/NUMBER`.
fn payload(run: &EditRun, word: &str, step: &mut Step) {
    let digits = word.strip_prefix("payload/").unwrap_or("");
    match digits.parse::<usize>() {
        Ok(change) if change < run.plan().len() => match run.payload(change) {
            Some(payload) => short_text(payload, step),
            None => step.put("none"),
        },
        _ => step.stop(NoAnswer::Arguments),
    }
}

// The changes that may be the next ones, between braces.
fn ready(run: &EditRun, step: &mut Step) {
    let mut space = "{";
    for change in 0..run.plan().len() {
        if run.ready(change) {
            say!(step, "{space}{change}");
            space = " ";
        }
    }
    step.put(if space == "{" { "{}" } else { "}" });
}

// Texts up to this length are shown.
const SHOWN: u64 = 200;

// The text of a tree, or the length of a long one.
fn short_text(tree: &GreenNode, step: &mut Step) {
    if tree.length() > SHOWN {
        say!(step, "{}_bytes", tree.length());
    } else {
        step.made_text(tree.to_string(step.alloc));
    }
}
