//! Tree numbers, roots and copies, shared trees, levels of indentation, positions, changes that are made of them, elements
//! that are made of values, and mappings with their builders.

use crate::step::{Done, NoAnswer, Show, Step, gave, given, granted, made, tried};
use crate::trees::Trees;
use crate::words::number_of;
use crate::{errors, say, texts};
use cst_core::ast::{BlockExpr, Fn, LetStmt, StmtList};
use cst_core::{AstNode, GreenNode, SyntaxElement, SyntaxKind, SyntaxNode, TreeIds};
use edit_change::{Change, Element, ElementList, Position};
use edit_map::{MapError, SyntaxMapping, SyntaxMappingBuilder};
use std::alloc::AllocError;
use whitespace::{IndentError, IndentLevel, indent};

/// Takes the step of this name, or passes on what is none of these.
pub fn answer(trees: &mut Trees, step: &mut Step) -> Done {
    match step.name {
        "tree" => tree(trees, step),
        "numbers" => numbers(trees, step),
        "new_root" => gave_root(new_root(trees, step), step),
        "clone_subtree" => clone_subtree(trees, step),
        "green_node" | "capped" => shared_node(trees, step),
        "splice_children" => splice_children(trees, step),
        "next" => Some(step.gave_or_none(&trees.ids.next())),
        "peek" => Some(peek(&trees.ids, step)),
        "errors" => Some(errors::print(step.word(), step)),
        "from_element" | "from_node" | "from_token" => level_at(trees, step),
        "is_zero" => {
            let is_zero = read_level(step).is_zero();
            Some(step.truth(is_zero))
        }
        "sum" => Some(sum(step)),
        "print" => Some(print(read_level(step), step)),
        "free_indent" => free_indent(trees, step),
        "before" | "after" | "first" | "last" => Some(is_there(trees, step)),
        "change" => change(trees, step),
        "syntax_element" => of_value(&trees.element(step)?, step),
        "typed_element" => typed_element(trees, step),
        "builder" => builder(trees, step),
        "map_node" => map_node(trees, step),
        "map_children" => map_children(trees, step),
        "map" => map(trees, step),
        "finish_builder" | "add_mapping" => map_by(trees, step),
        "mapping" => Some(step.note(trees.mappings.push(SyntaxMapping::new(step.alloc)))),
        "merge_mappings" => merge(trees, step),
        "clone_mapping" => clone_mapping(trees, step),
        "drop_mapping" => Some(drop(trees.mappings.pop())),
        "place" => place(trees, step),
        "follow" => follow(trees, step),
        _ => texts::answer(trees, step),
    }
}

// The root of a new tree, which goes by the name of the next word from then on.
fn tree(trees: &mut Trees, step: &mut Step) -> Done {
    let name = step.word();
    let root = new_root(trees, step)?;
    let kept = trees.add(name, root);
    step.read(kept)
}

fn new_root(trees: &mut Trees, step: &mut Step) -> Option<SyntaxNode> {
    let green = trees.tree(step.rest());
    let called = SyntaxNode::new_root(step.alloc, &mut trees.ids, step.read(green)?);
    tried(called, step)
}

fn gave_root(root: Option<SyntaxNode>, step: &mut Step) -> Done {
    Some(step.root(&root?))
}

// A new source of numbers, from this number on, or a spent one.
fn numbers(trees: &mut Trees, step: &mut Step) -> Done {
    let first = match step.word() {
        "spent" => u64::MAX,
        digits => step.read(number_of(digits))?,
    };
    Some(trees.ids = TreeIds::new(first))
}

fn peek(ids: &TreeIds, step: &mut Step) {
    let next = ids.peek();
    if ids.is_spent() != next.is_none() {
        step.put("spent in one way and not in another");
    }
    next.show(step);
}

// The copy goes by the name `it` from then on.
fn clone_subtree(trees: &mut Trees, step: &mut Step) -> Done {
    let node = trees.node(step)?;
    let copy = tried(node.clone_subtree(step.alloc, &mut trees.ids), step)?;
    step.root(&copy);
    let kept = trees.add("it", copy);
    step.read(kept)
}

// A shared node of these elements, by the call that refuses a long one, or by the other one.
fn shared_node(trees: &Trees, step: &mut Step) -> Done {
    let (alloc, kind, greens) = (step.alloc, SyntaxKind::NAME, trees.greens(step)?);
    match step.name {
        "capped" => gave(granted(GreenNode::capped(alloc, kind, greens), step), step),
        _ => gave(tried(GreenNode::new(alloc, kind, greens), step), step),
    }
}

// The trees of these elements in the place of the children of a tree from the first slot up to the second one.
fn splice_children(trees: &Trees, step: &mut Step) -> Done {
    let node = trees.tree(step.word());
    let (node, start, end) = (step.read(node), step.number(), step.number());
    let (node, new) = node.zip(trees.greens(step))?;
    if start > end || end > node.children().len() {
        return step.end_by(NoAnswer::Arguments);
    }
    let called = node.splice_children(step.alloc, start, end, new);
    gave(granted(called, step), step)
}

fn free_indent(trees: &mut Trees, step: &mut Step) -> Done {
    let (node, level) = (trees.node(step)?, read_level(step));
    let called = indent(step.alloc, &node, &mut trees.ids, level);
    gave_root(tried(called, step), step)
}

pub fn read_level(step: &mut Step) -> IndentLevel {
    IndentLevel(step.number())
}

pub fn level(called: Result<IndentLevel, IndentError>, step: &mut Step) -> Done {
    let level = tried(called, step)?;
    Some(step.gave(&u64::from(level.0)))
}

fn level_at(trees: &Trees, step: &mut Step) -> Done {
    let (alloc, element) = (step.alloc, trees.element(step)?);
    let called = match (step.name, &element) {
        ("from_element", it) => IndentLevel::from_element(alloc, it),
        ("from_node", SyntaxElement::Node(it)) => IndentLevel::from_node(alloc, it),
        (_, SyntaxElement::Token(it)) => IndentLevel::from_token(alloc, it),
        _ => return None,
    };
    level(called, step)
}

// Whether no indentation, and first one level more, then another one, is the third level.
fn sum(step: &mut Step) {
    let (first, second, third): (u8, u8, u8) = (step.number(), step.number(), step.number());
    if first.checked_add(second).is_none() {
        return step.put("none");
    }
    let mut level = IndentLevel::zero() + first;
    level += second;
    step.truth(level == IndentLevel::from(third));
}

// A level as it prints: as it is, and in a width of 14, 13 and 14, at the right end, the left end and in the middle.
fn print(level: IndentLevel, step: &mut Step) {
    say! { step, "[{level}] [{level:*>14}] [{level:*<13}] [{level:*^14}]" }
}

fn is_there(trees: &Trees, step: &mut Step) {
    let position = position_at(trees, step.name, step);
    step.put(if position.is_some() { "ok" } else { "none" });
}

/// The position that two words say, if one is there: `first NODE`, `last NODE`, `before REF` or `after REF`.
pub fn position(trees: &Trees, step: &mut Step) -> Option<Position> {
    position_at(trees, step.word(), step)
}

macro_rules! position_by {
    ($call:ident($given:expr), $step:ident) => {{
        let called = Position::$call($step.alloc, $given);
        given(concat!("Position::", stringify!($call)), called, $step)
    }};
}

fn position_at(trees: &Trees, side: &str, step: &mut Step) -> Option<Position> {
    match side {
        "before" => position_by!(before(trees.element(step)?), step)?,
        "after" => position_by!(after(&trees.element(step)?), step)?,
        "first" => position_by!(first_child_of(&trees.node(step)?), step),
        "last" => position_by!(last_child_of(&trees.node(step)?), step),
        _ => None,
    }
}

fn change(trees: &mut Trees, step: &mut Step) -> Done {
    let change = next_change(trees, step)?;
    Some(step.note(trees.changes.push(change)))
}

fn next_change(trees: &Trees, step: &mut Step) -> Option<Change> {
    Some(match step.word() {
        "insert" => {
            let (at, new) = position(trees, step).zip(trees.element(step))?;
            Change::Insert(at, new)
        }
        "insert_all" => {
            let (at, new) = position(trees, step).zip(trees.others(step))?;
            Change::InsertAll(at, ElementList::from(new))
        }
        "delete" => Change::Replace(trees.element(step)?, None),
        "replace" => {
            let (old, new) = trees.two_elements(step)?;
            Change::Replace(old, Some(new))
        }
        "replace_with_many" => {
            let (old, new) = trees.element(step).zip(trees.others(step))?;
            Change::ReplaceWithMany(old, ElementList::from(new))
        }
        "replace_all" => {
            let ((first, end), new) = trees.two_elements(step).zip(trees.others(step))?;
            Change::ReplaceAll(first, end, ElementList::from(new))
        }
        _ => return None,
    })
}

/// The paths of what changes delete, one element each, in the order of the changes.
pub fn deleted_paths(changes: &[Change], step: &mut Step) {
    for change in changes {
        if let Change::Replace(element, None) = change {
            step.next_path(element);
        }
    }
    step.none_if_empty();
}

/// What the last change inserts, if that is several elements: the text of each, and the number of its tree.
pub fn inserted(changes: &[Change], step: &mut Step) {
    if let Some(Change::InsertAll(_, elements)) = changes.last() {
        for element in elements.as_slice() {
            step.between(", ");
            step.made_text(element.text(step.alloc));
            say!(step, " of {}", element.tree());
        }
    }
    step.none_if_empty();
}

/// The text that shows a change, with \e for the byte ESC; or the same without the escape sequences.
pub fn change_text(change: &Change, step: &mut Step) -> Done {
    let called = match step.name {
        "text" => change.text(step.alloc),
        _ => change.plain_text(step.alloc),
    };
    let text = granted(called, step)?;
    step.gave(&text);
    Some(step.text = made(step.text.replace(step.alloc, '\x1b', "\\e"), step)?)
}

fn of_value<E: Element>(value: E, step: &mut Step) -> Done {
    let element = granted(value.syntax_element(step.alloc), step)?;
    step.put("ok ");
    Some(step.made_text(element.text(step.alloc)))
}

fn typed_element(trees: &Trees, step: &mut Step) -> Done {
    let node = trees.node(step)?;
    match node.kind() {
        SyntaxKind::BLOCK_EXPR => of_value(&BlockExpr::cast(node)?, step),
        SyntaxKind::STMT_LIST => of_value(&StmtList::cast(node)?, step),
        SyntaxKind::LET_STMT => of_value(&LetStmt::cast(node)?, step),
        _ => of_value(&Fn::cast(node)?, step),
    }
}

fn builder(trees: &mut Trees, step: &mut Step) -> Done {
    let builder = SyntaxMappingBuilder::new(step.alloc, trees.node(step)?);
    Some(step.note(trees.builders.push(builder)))
}

fn map_node(trees: &mut Trees, step: &mut Step) -> Done {
    let pair = trees.two_nodes(step);
    let (builder, (input, output)) = trees.builders.last_mut().zip(pair)?;
    tried(builder.map_node(step.alloc, input, output), step)
}

fn map_children(trees: &mut Trees, step: &mut Step) -> Done {
    let (inputs, outputs) = step.rest_around(" to ");
    let (inputs, outputs) = (trees.nodes(inputs), trees.nodes(outputs));
    let both = step.read(inputs).zip(step.read(outputs));
    let (builder, (inputs, outputs)) = trees.builders.last_mut().zip(both)?;
    tried(builder.map_children(step.alloc, &inputs, &outputs), step)
}

// The builder's pairs go into the last mapping, by its call or by the mapping's.
fn map_by(trees: &mut Trees, step: &mut Step) -> Done {
    let mapping = trees.mappings.last_mut()?;
    let builder = trees.builders.pop()?;
    let called = match step.name {
        "add_mapping" => mapping.add_mapping(step.alloc, builder),
        _ => builder.finish(step.alloc, mapping),
    };
    granted(called, step)
}

fn merge(trees: &mut Trees, step: &mut Step) -> Done {
    let [.., _, _] = trees.mappings.as_slice() else {
        return None;
    };
    let other = trees.mappings.pop()?;
    let mapping = trees.mappings.last_mut()?;
    granted(mapping.merge(step.alloc, other), step)
}

// A builder of the copy's parent, with one pair. Where memory runs out there is no such builder, so that the step can
// be taken again.
fn map(trees: &mut Trees, step: &mut Step) -> Done {
    let (input, output) = trees.two_nodes(step)?;
    let parent = made(output.parent(step.alloc), step)??;
    let mut builder = SyntaxMappingBuilder::new(step.alloc, parent);
    let called = builder.map_node(step.alloc, input, output);
    if !matches!(&called, Err(MapError::Memory)) {
        step.note(trees.builders.push(builder));
    }
    tried(called, step)
}

// A clone stands before the last mapping.
fn clone_mapping(trees: &mut Trees, step: &mut Step) -> Done {
    let clone = granted(trees.mappings.last()?.try_clone(step.alloc), step)?;
    step.note(trees.mappings.push(clone));
    let end = trees.mappings.len();
    if end >= 2 {
        trees.mappings.swap(end - 2, end - 1);
    }
    Some(())
}

fn place(trees: &Trees, step: &mut Step) -> Done {
    let mapping = trees.mappings.last()?;
    let (target, within) = trees.two_nodes(step)?;
    tell_place(mapping.place(step.alloc, &target, &within), step)
}

fn tell_place(called: Result<Option<Vec<usize>>, AllocError>, step: &mut Step) -> Done {
    let place = granted(called, step)?;
    Some(match &place {
        Some(path) => {
            step.put("ok ");
            step.path(path);
        }
        None => step.put("none"),
    })
}

fn follow(trees: &Trees, step: &mut Step) -> Done {
    let mapping = trees.mappings.last()?;
    let start = trees.element(step)?;
    tell_end(mapping.follow(step.alloc, &start), step)
}

// The form of the element, its text, the number of its tree and its path.
fn tell_end(called: Result<SyntaxElement, AllocError>, step: &mut Step) -> Done {
    let end = granted(called, step)?;
    let is_node = end.as_node().is_some();
    step.put(if is_node { "ok node " } else { "ok token " });
    step.made_text(end.text(step.alloc));
    say!(step, " of {} at ", end.tree());
    Some(step.path(end.slots()))
}
