//! Editors: new ones, the calls that record, what is told of them and of edits, merged ones, and what finishing gives;
//! and edits one after the other: the editor that follows an edit, and chains.

use crate::making::factory;
use crate::plans;
use crate::session::{Session, annotation, annotation_of, asked, keep_edit, keep_root};
use cst_core::ast::{BlockExpr, Fn, LetStmt};
use cst_core::{AstNode, SyntaxElement};
use edit_chain::EditChain;
use list_removal::remove_separated;
use std::alloc::AllocError;
use syntax_editor::{AttrsOwnerEdit, ElementCursor, NextEdit, SyntaxEditor};
use test_trees::{
    Done, NoAnswer, Show, Step, change_text, deleted_paths, inserted, keep, made, position, say,
    tried,
};

/// Takes the step of this name, or passes on what is none of these.
pub fn answer(s: &mut Session, step: &mut Step) -> Done {
    match step.name {
        "new" => new(s, step),
        "with_ast_node" => with_ast_node(s, step),
        "factory" => Some(*s.editors.last_mut()?.make_mut() = factory(step)?),
        "map_editor" | "map_all" => map_by(s, step),
        "insert" | "insert_with_whitespace" => insert(s, step),
        "insert_all" | "insert_all_with_whitespace" => insert_all(s, step),
        "delete" | "replace" | "delete_all" | "replace_with_many" | "add_annotation" => {
            record(s, step)
        }
        "replace_all" => replace_all(s, step),
        "add_annotation_all" => add_annotation_all(s, step),
        "remove_attrs_and_docs" => remove_attrs_and_docs(s, step),
        "remove_separated" => remove(s, step),
        "clashes_with" => clashes_with(s, step),
        "merge" => merge(s, step),
        "finish" => finish(s, step),
        "next_editor" => next_editor(s, step),
        "chain" => chain(s, step),
        "step" => next(s, step),
        "join" => join(s, step),
        "chain_edits" => chain_edits(s, step),
        _ => tell(s, step),
    }
}

// What is told of the last editor and its changes, of the last edit, or of the last chain; or the step is passed on.
fn tell(s: &mut Session, step: &mut Step) -> Done {
    match step.name {
        "check" => asked(s.editors.last()?.check(step.alloc), step),
        "changes" => Some(step.print(&s.editors.last()?.changes().len())),
        "deletions" => Some(deleted_paths(s.editors.last()?.changes(), step)),
        "inserted" => Some(inserted(s.editors.last()?.changes(), step)),
        "text" | "plain_text" => text(s, step),
        "deleted" => deleted(s, step),
        "fits" => fits(s, step),
        "old_text" => Some(step.made_text(s.edits.last()?.old_root().text(step.alloc))),
        "new_text" => Some(step.made_text(s.edits.last()?.new_root().text(step.alloc))),
        "changed" => Some(step.paths(s.edits.last()?.changed_elements())),
        "annotated" => annotated(s, step),
        "find_element" => find_element(s, step),
        "copies" => copies(s, step),
        "cursors" => cursors(s, step),
        "find" => find(s, step),
        "last_changed" => Some(step.paths(s.chains.last()?.changed_elements())),
        _ => plans::answer(s, step),
    }
}

fn new(s: &mut Session, step: &mut Step) -> Done {
    let node = s.trees.node(step)?;
    let called = SyntaxEditor::new(step.alloc, &mut s.trees.ids, node);
    let (editor, root) = asked(called, step)?;
    step.note(s.editors.push(editor));
    Some(step.root(&root))
}

fn with_ast_node(s: &mut Session, step: &mut Step) -> Done {
    let block = s.trees.typed::<BlockExpr>(step)?;
    let called = SyntaxEditor::with_ast_node(step.alloc, &mut s.trees.ids, &block);
    let (editor, root) = asked(called, step)?;
    step.note(s.editors.push(editor));
    Some(step.root(root.syntax()))
}

// The builder's pairs go into the mapping of the last editor, by its call or by the builder's.
fn map_by(s: &mut Session, step: &mut Step) -> Done {
    let editor = s.editors.last_mut()?;
    let builder = s.trees.builders.pop()?;
    let called = match step.name {
        "map_editor" => editor.add_mapping(step.alloc, builder),
        _ => builder.finish(step.alloc, editor.make_mut().mappings()?),
    };
    asked(called, step)
}

fn insert(s: &mut Session, step: &mut Step) -> Done {
    let editor = s.editors.last_mut()?;
    let (at, new) = position(&s.trees, step).zip(s.trees.element(step))?;
    let called = match step.name {
        "insert" => editor.insert(step.alloc, at, new),
        _ => editor.insert_with_whitespace(step.alloc, &mut s.trees.ids, at, new),
    };
    asked(called, step)
}

fn insert_all(s: &mut Session, step: &mut Step) -> Done {
    let editor = s.editors.last_mut()?;
    let (at, new) = position(&s.trees, step).zip(s.trees.others(step))?;
    let called = match step.name {
        "insert_all" => editor.insert_all(step.alloc, at, new),
        _ => editor.insert_all_with_whitespace(step.alloc, &mut s.trees.ids, at, new),
    };
    asked(called, step)
}

// By a call that takes an element, and what it takes beside that.
fn record(s: &mut Session, step: &mut Step) -> Done {
    let editor = s.editors.last_mut()?;
    let (alloc, target) = (step.alloc, s.trees.element(step)?);
    let called = match step.name {
        "delete" => editor.delete(alloc, target),
        "replace" => editor.replace(alloc, target, s.trees.element(step)?),
        "delete_all" => editor.delete_all(alloc, target, s.trees.element(step)?),
        "replace_with_many" => editor.replace_with_many(alloc, target, s.trees.others(step)?),
        _ => editor.add_annotation(alloc, target, annotation(step)?),
    };
    asked(called, step)
}

fn replace_all(s: &mut Session, step: &mut Step) -> Done {
    let editor = s.editors.last_mut()?;
    let ((first, end), new) = s.trees.two_elements(step).zip(s.trees.others(step))?;
    asked(editor.replace_all(step.alloc, first, end, new), step)
}

fn add_annotation_all(s: &mut Session, step: &mut Step) -> Done {
    let (editor, first) = (s.editors.last_mut()?, annotation_of("1")?);
    let elements = s.trees.others(step)?;
    asked(editor.add_annotation_all(step.alloc, elements, first), step)
}

// Of a function or a statement.
fn remove_attrs_and_docs(s: &mut Session, step: &mut Step) -> Done {
    let editor = s.editors.last_mut()?;
    let node = s.trees.node(step)?;
    let called = if Fn::can_cast(node.kind()) {
        Fn::cast(node)?.remove_attrs_and_docs(step.alloc, editor)
    } else {
        LetStmt::cast(node)?.remove_attrs_and_docs(step.alloc, editor)
    };
    asked(called, step)
}

// An element of a list, with a separator of a kind.
fn remove(s: &mut Session, step: &mut Step) -> Done {
    let editor = s.editors.last_mut()?;
    let (target, separator) = (s.trees.element(step)?, step.kind());
    let called = remove_separated(step.alloc, editor, &target, separator);
    asked(called, step)
}

// The first clash that there would be if the last editor went into the one before it.
fn clashes_with(s: &mut Session, step: &mut Step) -> Done {
    let [.., own, other] = s.editors.as_slice() else {
        return step.end_by(NoAnswer::Row("no two editors were made"));
    };
    match asked(own.clashes_with(step.alloc, other), step)? {
        Some((first, second)) => say!(step, "ok {first} {second}"),
        None => step.put("none"),
    }
    Some(())
}

// The last editor goes into the one before it, or is given back.
fn merge(s: &mut Session, step: &mut Step) -> Done {
    let (other, editor) = (s.editors.pop()?, s.editors.last_mut()?);
    if let Err((refusal, other)) = editor.merge(step.alloc, other) {
        step.refuse(&refusal);
        step.note(s.editors.push(other));
    }
    Some(())
}

fn finish(s: &mut Session, step: &mut Step) -> Done {
    let called = s.editors.pop()?.finish(step.alloc, &mut s.trees.ids);
    keep_edit(s, called, step)
}

// The text that shows a change, by its number.
fn text(s: &Session, step: &mut Step) -> Done {
    let change = s.editors.last()?.changes().get(step.number::<usize>())?;
    change_text(change, step)
}

fn deleted(s: &Session, step: &mut Step) -> Done {
    let editor = s.editors.last()?;
    let element = s.trees.element(step)?;
    let is_deleted = asked(editor.deleted(step.alloc, &element), step)?;
    Some(step.truth(is_deleted))
}

// Whether the first change is one of the node's tree.
fn fits(s: &Session, step: &mut Step) -> Done {
    let change = s.editors.last()?.changes().first()?;
    let node = s.trees.node(step)?;
    let root = made(node.tree_top(step.alloc), step)?;
    Some(step.truth(change.fits(&root)))
}

fn annotated(s: &Session, step: &mut Step) -> Done {
    let (edit, annotation) = (s.edits.last()?, annotation(step)?);
    Some(step.paths(edit.find_annotation(annotation)))
}

fn find_element(s: &Session, step: &mut Step) -> Done {
    let edit = s.edits.last()?;
    let old = s.trees.node(step)?;
    match &asked(edit.find_element(step.alloc, &old), step)? {
        Some(node) => step.root_at(node),
        None => step.put("none"),
    }
    Some(())
}

fn next_editor(s: &mut Session, step: &mut Step) -> Done {
    let edit = s.edits.last()?;
    let editor = asked(edit.next_editor(step.alloc), step)?;
    step.note(s.editors.push(editor));
    let name = step.word();
    keep_root(&mut s.trees, name, edit.new_root(), step)
}

fn chain(s: &mut Session, step: &mut Step) -> Done {
    let chain = EditChain::new(step.alloc, s.trees.node(step)?);
    Some(step.note(s.chains.push(chain)))
}

// Carries the last plan out as the next step of the last chain.
fn next(s: &mut Session, step: &mut Step) -> Done {
    let chain = s.chains.last_mut()?;
    let plan = s.plans.pop()?;
    tried(chain.run(step.alloc, &mut s.trees.ids, plan), step)?;
    let name = step.word();
    keep_root(&mut s.trees, name, chain.last_root(), step)
}

// The last chain goes behind the one before it, or is given back.
fn join(s: &mut Session, step: &mut Step) -> Done {
    let (other, chain) = (s.chains.pop()?, s.chains.last_mut()?);
    if let Err((refusal, other)) = chain.then(other) {
        step.refuse(&refusal);
        step.note(s.chains.push(other));
    }
    Some(())
}

fn find(s: &Session, step: &mut Step) -> Done {
    let chain = s.chains.last()?;
    let element = s.trees.element(step)?;
    found(chain.find(step.alloc, &element), step)
}

fn copies(s: &Session, step: &mut Step) -> Done {
    let (edit, plan) = (s.edits.last()?, s.plans.last()?);
    let element = s.trees.element(step)?;
    found(edit.copies(step.alloc, plan, &element), step)
}

fn found(called: Result<Vec<SyntaxElement>, AllocError>, step: &mut Step) -> Done {
    let found = asked(called, step)?;
    step.put(if found.is_empty() { "" } else { "ok" });
    Some(step.paths(&found))
}

fn chain_edits(s: &mut Session, step: &mut Step) -> Done {
    let called = s.chains.last()?.text_edits(step.alloc);
    keep(&mut s.trees, called, step)
}

// Where the elements of an annotation in the last edit stand in the new text and in the text edits of the last plan.
fn cursors(s: &Session, step: &mut Step) -> Done {
    let (edit, plan, annotation) = (s.edits.last()?, s.plans.last()?, annotation(step)?);
    let edits = asked(plan.text_edits(step.alloc), step)?;
    tell_cursors(edit.find_cursors(step.alloc, annotation, &edits), step)
}

fn tell_cursors(called: Result<Vec<ElementCursor>, AllocError>, step: &mut Step) -> Done {
    let found = asked(called, step)?;
    let mut before = "ok ";
    for cursor in &found {
        say!(step, "{before}{}-{} ", cursor.start, cursor.end);
        cursor.in_edit.show(step);
        before = ", ";
    }
    Some(step.put(if found.is_empty() { "ok none" } else { "" }))
}
