//! `dump` and `dump_node`: a tree as text, a line for each element.

ghost use Rattle.std.specs.Prelude.{◌≡◌, ◌+◌, ◌++◌, ◌<◌, [], length, IfOk, OnOk, string_bytes};
ghost use Rattle.cst_core.specs.AtOffset.{end_of};
ghost use Rattle.cst_core.specs.Element.{subtree};
ghost use Rattle.cst_core.specs.Green.{branch_tree, leaf_tree, texts, length_limit};
ghost use Rattle.cst_core.specs.Order.{start};
ghost use Rattle.cst_core.specs.SyntaxElement.{element_of};
ghost use Rattle.tree_text.specs.KindNames.{text_in};
ghost use Rattle.tree_text.specs.Lines.{line, lines_in};
ghost use Rattle.tree_text.specs.inner.Indents.{indent, node_line};

use crate::escape::push_escaped;
use crate::kind_names::KindNames;
use crate::write::push_kind;
use cst_core::{
    GreenElement, GreenElementRef, GreenNode, GreenToken, SyntaxElement, SyntaxKind, SyntaxNode,
};
use std::alloc::{AllocError, Global};
use std::fmt::Write;

/// A line for the element and for each one below it, in document order, as `LITERAL@1..2`, with names of one's own.
///
/// Each level is indented by two spaces. A token's line has its text as well, quoted as in a tree expression. A kind without a
/// name is `SyntaxKind(NUMBER)`. Where the text starts and ends is counted in bytes of the whole tree's text.
pub fn dump(alloc: Global, element: &SyntaxElement, names: &KindNames) -> Result<String, AllocError>
    ensures { let e = element_of element.now in
        IfOk result (λ s. string_bytes s ≡ lines_in names.now [] (start e.root e.path) (subtree e)) }
{
    let mut out = String::new(alloc);
    let start = element.text_start();
    // For the proof: where the text ends is below the limit of lengths.
    let _end = element.text_end();
    match element.as_green() {
        GreenElementRef::Node(node) => push_lines(alloc, &mut out, names, node, start)?,
        GreenElementRef::Token(token) => push_token_line(&mut out, names, token, start, 0)?,
    }
    Ok(out)
}

/// `dump` of a node.
pub fn dump_node(alloc: Global, node: &SyntaxNode, names: &KindNames) -> Result<String, AllocError>
    ensures { let e = node.now in
        IfOk result (λ s. string_bytes s ≡ lines_in names.now [] (start e.root e.path) (subtree e)) }
{
    let mut out = String::new(alloc);
    // For the proof: where the text ends is below the limit of lengths.
    let _end = node.text_end();
    let green = node.as_green();
    push_lines(alloc, &mut out, names, green, node.text_start())?;
    Ok(out)
}

// The lines of a node whose text starts at this byte. Of each node above, the list has the children that are still to be written.
fn push_lines(
    alloc: Global,
    out: &mut String,
    names: &KindNames,
    node: &GreenNode,
    start: u64,
) -> Result<(), AllocError>
    requires { start + length (texts node.now.children) < length_limit }
    ensures { OnOk result
        (string_bytes out.new ≡ string_bytes out.old ++ lines_in names.now [] start (branch_tree node.now)) }
{
    push_node_line(out, names, node, start, 0)?;
    let mut above: Vec<&[GreenElement]> = Vec::new(alloc);
    let mut rest = node.children();
    let mut next = start;
    loop {
        let level = above.len() + 1;
        let Some((child, after)) = rest.split_first() else {
            let Some(after) = above.pop() else {
                return Ok(());
            };
            rest = after;
            continue;
        };
        rest = after;
        match child {
            GreenElement::Node(below) => {
                push_node_line(out, names, below, next, level)?;
                above.push(after)?;
                rest = below.children();
            }
            GreenElement::Token(token) => {
                push_token_line(out, names, token, next, level)?;
                next += token.length();
            }
        }
    }
}

fn push_node_line(
    out: &mut String,
    names: &KindNames,
    node: &GreenNode,
    start: u64,
    level: usize,
) -> Result<(), AllocError>
    requires { start + length (texts node.now.children) < length_limit }
    ensures { OnOk result
        (string_bytes out.new ≡ string_bytes out.old ++ node_line names.now level start node.now) }
{
    push_line(out, names, node.kind(), start, node.length(), level)?;
    out.push_str("\n")
}

fn push_token_line(
    out: &mut String,
    names: &KindNames,
    token: &GreenToken,
    start: u64,
    level: usize,
) -> Result<(), AllocError>
    requires { start + length token.now.text < length_limit }
    ensures { OnOk result
        (string_bytes out.new ≡ string_bytes out.old ++ lines_in names.now (indent level) start (leaf_tree token.now)) }
{
    let length = token.text().len() as u64;
    push_line(out, names, token.kind(), start, length, level)?;
    out.push_str(" \"")?;
    push_escaped(out, token.text())?;
    out.push_str("\"\n")
}

// How a line begins.
fn push_line(
    out: &mut String,
    names: &KindNames,
    kind: SyntaxKind,
    start: u64,
    length: u64,
    level: usize,
) -> Result<(), AllocError>
    requires { start + length < length_limit }
    ensures { OnOk result
        (string_bytes out.new ≡ string_bytes out.old ++ line (indent level) (text_in names.now kind.0) start length) }
{
    push_indent(out, level)?;
    push_kind(out, names, kind)?;
    let end = start + length;
    write!(out, "@{start}..{end}")
}

fn push_indent(out: &mut String, level: usize) -> Result<(), AllocError>
    ensures { OnOk result (string_bytes out.new ≡ string_bytes out.old ++ indent level) }
{
    for _ in 0..level {
        out.push_str("  ")?;
    }
    Ok(())
}
