//! `write_tree` and `write_tree_with`: the text of a tree, which `read_tree` reads.

ghost use Rattle.std.specs.Prelude.{◌≡◌, ◌++◌, [], IfOk, OnOk, Some, None, option_map, is_none, if◌then◌else◌, string_bytes, codes};
ghost use Rattle.cst_core.specs.Green.{branch_tree, leaf_tree};
ghost use Rattle.tree_text.specs.Grammar.{IsExpression, is_gap_blank, is_gap_space};
ghost use Rattle.tree_text.specs.KindNames.{name_in, text_in};
ghost use Rattle.cst_core.specs.GreenElement.{element_trees};
ghost use Rattle.tree_text.specs.inner.UnnamedKinds.{unnamed_among};
ghost use Rattle.tree_text.specs.TreeText.{NamesUnnamed, expression_of, unnamed_in};

use crate::escape::push_escaped;
use crate::kind_names::KindNames;
use crate::write_error::WriteError;
use cst_core::{GreenElement, GreenNode, GreenToken, SyntaxKind};
use green_tree::heaviest_child;
use std::alloc::{AllocError, Global};
use std::fmt::Write;

/// The tree expression of a tree, which `read_tree` and `read_line_tree` read: `(LITERAL INT_NUMBER"1")`, with one space before each
/// element.
///
/// `NoName` names the first kind, in document order, that has no name; it comes before `Memory`.
pub fn write_tree(alloc: Global, tree: &GreenNode) -> Result<String, WriteError>
    ensures ok { IfOk result (λ s. string_bytes s ≡ expression_of [] (branch_tree tree.now)) }
    ensures written { IfOk result
        (λ s. IsExpression (name_in []) is_gap_blank (branch_tree tree.now) (string_bytes s)) }
    ensures in_line { IfOk result
        (λ s. IsExpression (name_in []) is_gap_space (branch_tree tree.now) (string_bytes s)) }
    ensures no_name { NamesUnnamed result (unnamed_in [] (branch_tree tree.now)) }
{
    write_tree_with(alloc, tree, &KindNames::new(alloc))
}

/// `write_tree` with names of one's own. `read_tree_with` reads it, with the same names.
pub fn write_tree_with(
    alloc: Global,
    tree: &GreenNode,
    names: &KindNames,
) -> Result<String, WriteError>
    ensures ok { IfOk result (λ s. string_bytes s ≡ expression_of names.now (branch_tree tree.now)) }
    ensures written { IfOk result
        (λ s. IsExpression (name_in names.now) is_gap_blank (branch_tree tree.now) (string_bytes s)) }
    ensures in_line { IfOk result
        (λ s. IsExpression (name_in names.now) is_gap_space (branch_tree tree.now) (string_bytes s)) }
    ensures no_name { NamesUnnamed result (unnamed_in names.now (branch_tree tree.now)) }
{
    if let Some(kind) = first_unnamed(tree, names) {
        return Err(WriteError::NoName(kind));
    }
    let mut out = String::new(alloc);
    push_node(alloc, &mut out, names, tree)?;
    Ok(out)
}

// The first kind of a tree, in document order, that has no name. Calls nest for the lighter children alone, so few are open at once however
// deep the tree is. `later` is the first such kind after the node that is searched.
#[cycle(first_unnamed)]
fn first_unnamed(node: &GreenNode, names: &KindNames) -> Option<SyntaxKind>
    ensures { option_map (λ k. k.0) result ≡ unnamed_in names.now (branch_tree node.now) }
{
    let mut current = node;
    let mut later = None;
    loop {
        if let Some(kind) = unnamed_kind(current.kind(), names) {
            return Some(kind);
        }
        let children = current.children();
        let heaviest = heaviest_child(current).unwrap_or(children.len());
        let (lighter, rest) = children.split_at(heaviest);
        if let Some(kind) = first_among(lighter, names) {
            return Some(kind);
        }
        let Some((GreenElement::Node(below), after)) = rest.split_first() else {
            return first_among(rest, names).or(later);
        };
        later = first_among(after, names).or(later);
        current = below;
    }
}

// The first kind of these elements, in document order, that has no name.
#[cycle(first_unnamed)]
fn first_among(elements: &[GreenElement], names: &KindNames) -> Option<SyntaxKind>
    ensures { option_map (λ k. k.0) result ≡ unnamed_among names.now (element_trees elements.now) }
{
    for element in elements {
        let unnamed = match element {
            GreenElement::Node(node) => first_unnamed(node, names),
            GreenElement::Token(token) => unnamed_kind(token.kind(), names),
        };
        if let Some(kind) = unnamed {
            return Some(kind);
        }
    }
    None
}

fn unnamed_kind(kind: SyntaxKind, names: &KindNames) -> Option<SyntaxKind>
    ensures { option_map (λ k. k.0) result ≡ (if is_none (name_in names.now kind.0) then Some kind.0 else None) }
{
    match names.name(kind) {
        Some(_) => None,
        None => Some(kind),
    }
}

// The expression of a node. Of each node above, the list has the children that are still to be written.
fn push_node(
    alloc: Global,
    out: &mut String,
    names: &KindNames,
    node: &GreenNode,
) -> Result<(), AllocError>
    ensures { OnOk result
        (string_bytes out.new ≡ string_bytes out.old ++ expression_of names.now (branch_tree node.now)) }
{
    push_opening(out, names, node)?;
    let mut above: Vec<&[GreenElement]> = Vec::new(alloc);
    let mut rest = node.children();
    loop {
        let Some((child, after)) = rest.split_first() else {
            out.push(')')?;
            let Some(after) = above.pop() else {
                return Ok(());
            };
            rest = after;
            continue;
        };
        out.push(' ')?;
        rest = after;
        match child {
            GreenElement::Node(below) => {
                push_opening(out, names, below)?;
                above.push(after)?;
                rest = below.children();
            }
            GreenElement::Token(token) => push_token(out, names, token)?,
        }
    }
}

// How the expression of a node begins.
fn push_opening(out: &mut String, names: &KindNames, node: &GreenNode) -> Result<(), AllocError>
    ensures { OnOk result
        (string_bytes out.new ≡ string_bytes out.old ++ codes "(" ++ text_in names.now node.now.kind) }
{
    out.push('(')?;
    push_kind(out, names, node.kind())
}

fn push_token(out: &mut String, names: &KindNames, token: &GreenToken) -> Result<(), AllocError>
    ensures { OnOk result
        (string_bytes out.new ≡ string_bytes out.old ++ expression_of names.now (leaf_tree token.now)) }
{
    push_kind(out, names, token.kind())?;
    out.push('"')?;
    push_escaped(out, token.text())?;
    out.push('"')
}

// A kind's name; a kind without one as `{:?}` shows it.
pub(crate) fn push_kind(
    out: &mut String,
    names: &KindNames,
    kind: SyntaxKind,
) -> Result<(), AllocError>
    ensures { OnOk result (string_bytes out.new ≡ string_bytes out.old ++ text_in names.now kind.0) }
{
    match names.name(kind) {
        Some(name) => out.push_str(name),
        None => write!(out, "{kind:?}"),
    }
}
