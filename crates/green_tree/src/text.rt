//! The text of a node, and `Display` of shared trees.

ghost use Rattle.std.specs.Prelude.{◌≡◌, [], ◌∷◌, ◌++◌, IfOk, OnOk, string_bytes};
ghost use Rattle.std.specs.Fmt.{WritesOnOk};
ghost use Rattle.green_tree.specs.Tree.{text};
ghost use Rattle.green_tree.specs.Green.{branch_tree};

use crate::green::{GreenElement, GreenElementRef, GreenNode, GreenToken};
use std::alloc::{AllocError, Global};
use std::fmt::{self, Display};

// A node whose text is being written, and the slot of its child that comes next.
#[derive(Clone, Copy)]
struct OpenNode<'a> {
    node: &'a GreenNode,
    next: usize,
}

// A refused growth is an error of the formatter.
fn push_open<'a>(above: &mut Vec<OpenNode<'a>>, parent: OpenNode<'a>) -> fmt::Result
    ensures { OnOk result (above.new.items ≡ above.old.items ++ parent.entry ∷ []) }
{
    above.push(parent).map_err(|_| fmt::Error)
}

// The texts of the node's tokens, one after another. It takes memory for the nodes above the one that is being written, so
// none where no child is a node.
fn write_text<W: fmt::Write>(node: &GreenNode, f: &mut fmt::Formatter<W>) -> fmt::Result
    ensures { WritesOnOk W.write_str_gives f.old result (text (branch_tree node.now)) f.new }
{
    let mut above = Vec::new(node.allocator());
    let mut current = Some(OpenNode { node, next: 0 });
    while let Some(OpenNode { node, next }) = current {
        let Some(child) = node.children().get(next) else {
            current = above.pop();
            continue;
        };
        let rest = OpenNode {
            node,
            next: next + 1,
        };
        match child {
            GreenElement::Node(below) => {
                push_open(&mut above, rest)?;
                current = Some(OpenNode {
                    node: below,
                    next: 0,
                });
            }
            GreenElement::Token(token) => {
                f.write_str(token.text())?;
                current = Some(rest);
            }
        }
    }
    Ok(())
}

/// The text of a node: those of its tokens, one after another.
pub fn text_of(alloc: Global, node: &GreenNode) -> Result<String, AllocError>
    ensures { IfOk result (λ s. string_bytes s ≡ text (branch_tree node.now)) }
{
    node.to_string(alloc)
}

/// Prints the node's text, as `text_of` gives it. Options of a format, as a width, change nothing.
impl fmt::Display for GreenNode {
    ghost use Rattle.std.specs.Prelude.{Some};
    ghost use Rattle.green_tree.specs.Tree.{text};
    ghost use Rattle.green_tree.specs.Green.{branch_tree};

    ghost output = { λ n. Some (text (branch_tree n)) };

    fn fmt<W: fmt::Write>(&self, f: &mut fmt::Formatter<W>) -> fmt::Result {
        write_text(self, f)
    }
}

/// Prints the token's text. Options of a format, as a width, change nothing.
impl fmt::Display for GreenToken {
    ghost use Rattle.std.specs.Prelude.{Some};

    ghost output = { λ t. Some t.text };

    fn fmt<W: fmt::Write>(&self, f: &mut fmt::Formatter<W>) -> fmt::Result {
        f.write_str(self.text())
    }
}

/// Prints the element's text, as the node or token does that it is.
impl fmt::Display for GreenElement {
    ghost use Rattle.std.specs.Prelude.{Some};
    ghost use Rattle.green_tree.specs.Tree.{text};
    ghost use Rattle.green_tree.specs.GreenElement.{element_tree};

    ghost output = { λ e. Some (text (element_tree e)) };

    fn fmt<W: fmt::Write>(&self, f: &mut fmt::Formatter<W>) -> fmt::Result {
        match self {
            GreenElement::Node(node) => node.fmt(f),
            GreenElement::Token(token) => token.fmt(f),
        }
    }
}

/// Prints the element's text, as the node or token does that is lent.
impl<'a> fmt::Display for GreenElementRef<'a> {
    ghost use Rattle.std.specs.Prelude.{Some};
    ghost use Rattle.green_tree.specs.Tree.{text};
    ghost use Rattle.green_tree.specs.GreenElementRef.{ref_tree};

    ghost output = { λ e. Some (text (ref_tree e)) };

    fn fmt<W: fmt::Write>(&self, f: &mut fmt::Formatter<W>) -> fmt::Result {
        match self {
            GreenElementRef::Node(node) => node.fmt(f),
            GreenElementRef::Token(token) => token.fmt(f),
        }
    }
}
