//! What `{}`, `{:?}` and `{:#?}` write of nodes, tokens and elements.

ghost use Rattle.std.specs.Prelude.{◌≡◌, [], ◌∷◌, ◌++◌, OnOk};
ghost use Rattle.std.specs.Fmt.{WritesOnOk};
ghost use Rattle.cst_core.specs.Debug.{node_debug};

use crate::element::SyntaxElement;
use crate::node::SyntaxNode;
use crate::token::SyntaxToken;
use green_tree::{GreenElement, GreenNode};
use std::alloc::{AllocError, Global};
use std::fmt;

/// Prints the node's text, as `SyntaxNode::text` gives it. Options of a format, as a width, change nothing.
impl fmt::Display for SyntaxNode {
    ghost use Rattle.std.specs.Prelude.{Some};
    ghost use Rattle.green_tree.specs.Tree.{text};
    ghost use Rattle.cst_core.specs.Element.{subtree};

    ghost output = { λ n. Some (text (subtree n)) };

    fn fmt<W: fmt::Write>(&self, f: &mut fmt::Formatter<W>) -> fmt::Result {
        fmt::Display::fmt(self.as_green(), f)
    }
}

/// Prints the token's text. Options of a format, as a width, change nothing.
impl fmt::Display for SyntaxToken {
    ghost use Rattle.std.specs.Prelude.{Some};
    ghost use Rattle.green_tree.specs.Tree.{text};
    ghost use Rattle.cst_core.specs.Element.{subtree};

    ghost output = { λ t. Some (text (subtree t)) };

    fn fmt<W: fmt::Write>(&self, f: &mut fmt::Formatter<W>) -> fmt::Result {
        f.write_str(self.text())
    }
}

/// Prints the element's text, as the node or token does that it is.
impl fmt::Display for SyntaxElement {
    ghost use Rattle.std.specs.Prelude.{Some};
    ghost use Rattle.green_tree.specs.Tree.{text};
    ghost use Rattle.cst_core.specs.Element.{subtree};
    ghost use Rattle.cst_core.specs.SyntaxElement.{element_of};

    ghost output = { λ e. Some (text (subtree (element_of e))) };

    fn fmt<W: fmt::Write>(&self, f: &mut fmt::Formatter<W>) -> fmt::Result {
        match self {
            SyntaxElement::Node(node) => fmt::Display::fmt(node, f),
            SyntaxElement::Token(token) => fmt::Display::fmt(token, f),
        }
    }
}

/// Prints the node as `KIND@START..END`, in bytes of the whole tree's text.
///
/// `{:#?}` prints a line for the node and for each element below it, in document order. Each level is indented by two
/// spaces, and a token's line has its text as well.
///
/// ```text
/// ARG_LIST@0..6
///   LITERAL@1..2
///     INT_NUMBER@1..2 "1"
/// ```
impl fmt::Debug for SyntaxNode {
    ghost use Rattle.std.specs.Prelude.{Some};
    ghost use Rattle.cst_core.specs.Debug.{node_debug};

    ghost debug_output = { λ n. Some (node_debug n) };

    fn fmt<W: fmt::Write>(&self, f: &mut fmt::Formatter<W>) -> fmt::Result {
        if f.alternate() {
            return write_lines(self, f);
        }
        write_node(self, f)
    }
}

fn write_node<W: fmt::Write>(node: &SyntaxNode, f: &mut fmt::Formatter<W>) -> fmt::Result
    ensures { WritesOnOk W.write_str_gives f.old result (node_debug node.now) f.new }
{
    let kind = node.kind();
    let start = node.location.text_start();
    let end = node.text_end();
    write!(f, "{kind:?}@{start}..{end}")
}

fn write_lines<W: fmt::Write>(node: &SyntaxNode, f: &mut fmt::Formatter<W>) -> fmt::Result {
    write_node(node, f)?;
    f.write_str("\n")?;
    let alloc = node.location.alloc;
    write_below(alloc, &node.green, node.location.text_start(), f)
}

// The lines of all below a node that starts at this byte. Neither sum passes its type in a tree of an element value.
fn write_below<W: fmt::Write>(
    alloc: Global,
    node: &GreenNode,
    start: u64,
    f: &mut fmt::Formatter<W>,
) -> fmt::Result {
    let mut start = start;
    // Of each node on the way, the children that are still to come, the innermost last.
    let mut waiting = Vec::new(alloc);
    push_level(&mut waiting, node.children())?;
    'walk: while let Some(children) = waiting.pop() {
        let [child, rest @ ..] = children else {
            continue;
        };
        f.write_repeated("  ", waiting.len().saturating_add(1))?;
        write_line(child, start, f)?;
        push_level(&mut waiting, rest)?;
        match child {
            GreenElement::Node(below) => push_level(&mut waiting, below.children())?,
            GreenElement::Token(_) => start = start.saturating_add(child.length()),
        }
    }
    Ok(())
}

fn push_level<'a>(
    waiting: &mut Vec<&'a [GreenElement]>,
    children: &'a [GreenElement],
) -> Result<(), AllocError>
    ensures { OnOk result (waiting.new.items ≡ waiting.old.items ++ children.entry ∷ []) }
{
    Ok(waiting.push(children)?)
}

fn write_line<W: fmt::Write>(
    element: &GreenElement,
    start: u64,
    f: &mut fmt::Formatter<W>,
) -> fmt::Result {
    let kind = element.kind();
    let end = start.saturating_add(element.length());
    match element {
        GreenElement::Node(_) => writeln!(f, "{kind:?}@{start}..{end}"),
        GreenElement::Token(token) => {
            let text = token.text();
            writeln!(f, "{kind:?}@{start}..{end} {text:?}")
        }
    }
}

/// Prints the token as `KIND@START..END "TEXT"`, with the whole text as `{:?}` quotes it. The contract speaks of texts in ASCII.
/// `{:#?}` prints the same.
impl fmt::Debug for SyntaxToken {
    ghost use Rattle.cst_core.specs.Debug.{token_debug};

    ghost debug_output = { token_debug };

    fn fmt<W: fmt::Write>(&self, f: &mut fmt::Formatter<W>) -> fmt::Result {
        let kind = self.kind();
        let start = self.location.text_start();
        let end = self.text_end();
        let text = self.text();
        write!(f, "{kind:?}@{start}..{end} {text:?}")
    }
}

/// Prints `Node(..)` or `Token(..)` round what the node or token prints that it is. `{:#?}` prints only what the node or
/// token prints.
impl fmt::Debug for SyntaxElement {
    ghost use Rattle.cst_core.specs.Debug.{element_debug};

    ghost debug_output = { element_debug };

    fn fmt<W: fmt::Write>(&self, f: &mut fmt::Formatter<W>) -> fmt::Result {
        if f.alternate() {
            return match self {
                SyntaxElement::Node(node) => fmt::Debug::fmt(node, f),
                SyntaxElement::Token(token) => fmt::Debug::fmt(token, f),
            };
        }
        match self {
            SyntaxElement::Node(node) => write!(f, "Node({node:?})"),
            SyntaxElement::Token(token) => write!(f, "Token({token:?})"),
        }
    }
}
