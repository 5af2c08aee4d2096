//! Numbers, paths and trees, as the model writes them.

use cst_core::{GreenNode, SyntaxElement};
use std::alloc::{AllocError, Global};
use std::fmt::{self, Display, Formatter, Write};
use tree_text::write_tree;

/// Numbers, each after a space.
#[derive(Drop)]
pub struct Numbers<'a>(pub &'a [usize]);

impl Display for Numbers<'_> {
    fn fmt<W: Write>(&self, f: &mut Formatter<W>) -> fmt::Result {
        for number in self.0 {
            write!(f, " {number}")?;
        }
        Ok(())
    }
}

/// A path: its slots with `/` between them, and `.` for the root.
#[derive(Drop)]
pub struct Path<'a>(pub &'a [usize]);

impl Display for Path<'_> {
    fn fmt<W: Write>(&self, f: &mut Formatter<W>) -> fmt::Result {
        let Some((first, others)) = self.0.split_first() else {
            return f.write_str(".");
        };
        write!(f, "{first}")?;
        for slot in others {
            write!(f, "/{slot}")?;
        }
        Ok(())
    }
}

/// The paths of elements, each after a space.
#[derive(Drop)]
pub struct Paths<'a>(pub &'a [SyntaxElement]);

impl Display for Paths<'_> {
    fn fmt<W: Write>(&self, f: &mut Formatter<W>) -> fmt::Result {
        for element in self.0 {
            write!(f, " {}", Path(element.slots()))?;
        }
        Ok(())
    }
}

/// A tree's expression, or why there is none, and the end of its line.
pub fn push_tree(alloc: Global, out: &mut String, tree: &GreenNode) -> Result<(), AllocError> {
    match write_tree(alloc, tree) {
        Ok(expression) => writeln!(out, "{expression}"),
        Err(error) => writeln!(out, "{error}"),
    }
}
