//! Annotations; elements made of parts; and blocks that are indented and dedented.

use crate::session::{Session, annotation_of, asked, keep_root};
use crate::{editors, errors};
use cst_core::ast::{BlockExpr, StmtList};
use cst_core::{AstNode, SyntaxToken, TreeIds};
use syntax_editor::{Annotations, AstNodeEdit, Error, IndentError, SyntaxFactory, SyntaxMapping};
use test_trees::{CHANGED, Done, Step, kind_name, level, made, read_level, read_tree, say};

/// Takes the step of this name, or passes on what is none of these.
pub fn answer(s: &mut Session, step: &mut Step) -> Done {
    match step.name {
        "errors" => Some(errors::print(step)),
        "annotations" => Some(annotations(step)),
        "token" => token(s, step),
        "whitespace" => whitespace(s, step),
        "node" => node(s, step),
        "wrap" => wrap(s, step),
        "indent_level" | "indent" | "reset_indent" | "dedent" => of_levels(s, step),
        "indent_with_mapping" => indent_with_mapping(s, step),
        _ => editors::answer(s, step),
    }
}

// Whether the calls of a source that begins at the first number give the annotations of the others, each above the one
// before; a word that is no number stands for none.
fn annotations(step: &mut Step) {
    let mut source = Annotations::new(step.number());
    let mut before = None;
    for word in step.rest().split_whitespace() {
        let given = source.next();
        if given != annotation_of(word) || (given.is_some() && given <= before) {
            step.put("none");
        }
        before = given;
    }
}

/// A factory that keeps mappings, or one that keeps none.
pub fn factory(step: &mut Step) -> Option<SyntaxFactory> {
    match step.word() {
        "mapped" => Some(SyntaxFactory::with_mappings(step.alloc)),
        "unmapped" => Some(SyntaxFactory::without_mappings(step.alloc)),
        _ => None,
    }
}

// The text of a tree, which is written as a row has it.
fn text_of_tree(step: &mut Step) -> Option<String> {
    let tree = read_tree(step.alloc, step.rest());
    let tree = step.read(tree)?;
    made(tree.to_string(step.alloc), step)
}

fn token(s: &mut Session, step: &mut Step) -> Done {
    let (kind, text) = (step.kind(), text_of_tree(step)?);
    let factory = SyntaxFactory::without_mappings(step.alloc);
    let called = factory.token(step.alloc, &mut s.trees.ids, kind, &text);
    show_token(called, step)
}

fn whitespace(s: &mut Session, step: &mut Step) -> Done {
    let (factory, text) = factory(step).zip(text_of_tree(step))?;
    let called = factory.whitespace(step.alloc, &mut s.trees.ids, &text);
    show_token(called, step)
}

// A token's kind, its text, the number of its tree, and what it stands below.
fn show_token<E: Into<Error>>(called: Result<SyntaxToken, E>, step: &mut Step) -> Done {
    let token = asked(called, step)?;
    say!(step, "ok {} ", kind_name(token.kind()));
    step.quote(token.text());
    show_parent(&token, step)
}

fn show_parent(token: &SyntaxToken, step: &mut Step) -> Done {
    let parent = made(token.parent(step.alloc), step)??;
    let count = made(parent.children_with_tokens(step.alloc), step)?.len();
    let (kind, tree) = (kind_name(parent.kind()), parent.tree());
    Some(say!(step, " of {tree}, one of {count} below {kind}"))
}

fn node(s: &mut Session, step: &mut Step) -> Done {
    let (kind, children) = (step.kind(), s.trees.others(step)?);
    let factory = SyntaxFactory::without_mappings(step.alloc);
    let called = factory.node(step.alloc, &mut s.trees.ids, kind, &children);
    let node = asked(called, step)?;
    Some(step.root(&node))
}

// A node, a kind, the elements that stand before `round`, and those after it.
fn wrap(s: &mut Session, step: &mut Step) -> Done {
    let editor = s.editors.last_mut()?;
    let (node, kind) = (s.trees.node(step), step.kind());
    let (before, after) = step.rest_around("round");
    let (before, after) = (s.trees.elements(before), s.trees.elements(after));
    let (node, (before, after)) = node.zip(step.read(before).zip(step.read(after)))?;
    let called = editor.wrap(step.alloc, &mut s.trees.ids, &node, kind, &before, &after);
    let copy = asked(called, step)?;
    Some(step.root_at(&copy))
}

// Of a list of statements, or of a block.
fn of_levels(s: &mut Session, step: &mut Step) -> Done {
    let node = s.trees.node(step)?;
    if StmtList::can_cast(node.kind()) {
        return indented(&StmtList::cast(node)?, &mut s.trees.ids, step);
    }
    indented(&BlockExpr::cast(node)?, &mut s.trees.ids, step)
}

// What a node's level is, or the new tree whose root it is.
fn indented<N: AstNodeEdit>(node: &N, ids: &mut TreeIds, step: &mut Step) -> Done {
    let alloc = step.alloc;
    let called = match step.name {
        "indent_level" => return level(node.indent_level(alloc), step),
        "reset_indent" => node.reset_indent(alloc, ids),
        "dedent" => node.dedent(alloc, ids, read_level(step)),
        _ => node.indent(alloc, ids, read_level(step)),
    };
    let root = asked(called, step)?;
    Some(step.root(root.syntax()))
}

// By a factory, whose mapping is the last one from then on, whatever the call answers but want of memory, which leaves
// the mapping empty. The new block goes by the name `it`.
fn indent_with_mapping(s: &mut Session, step: &mut Step) -> Done {
    let (block, level) = (s.trees.typed::<BlockExpr>(step), read_level(step));
    let (block, mut factory) = block.zip(factory(step))?;
    let called = block.indent_with_mapping(step.alloc, &mut s.trees.ids, level, &mut factory);
    let is_memory = matches!(&called, Err(IndentError::Memory));
    match factory.mappings() {
        Some(mapping) if !is_memory => keep_mapping(s, mapping, step),
        Some(mapping) if mapping.len() > 0 => step.stop(CHANGED),
        _ => (),
    }
    let block = asked(called, step)?;
    keep_root(&mut s.trees, "it", block.syntax(), step)
}

fn keep_mapping(s: &mut Session, mapping: &SyntaxMapping, step: &mut Step) {
    if let Some(copy) = made(mapping.try_clone(step.alloc), step) {
        step.note(s.trees.mappings.push(copy));
    }
}
