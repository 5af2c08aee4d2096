//! Shared trees indented and dedented. What does not change is shared.
ghost use Rattle.std.specs.Prelude.{◌≡◌, ◌==◌, ◌&&◌, ◌++◌, ◌∷◌, ◌≤◌, true, length, option_map, unwrap_or, IfOk, IfErr, OnOk, string_bytes};
ghost use Rattle.cst_core.specs.Tree.{text_length};
ghost use Rattle.cst_core.specs.GreenElement.{element_tree, element_trees};
ghost use Rattle.cst_core.specs.Green.{branch_tree, leaf_tree};
ghost use Rattle.cst_core.specs.Kinds.{WHITESPACE};
ghost use Rattle.whitespace.specs.Level.{newline, has_newline};
ghost use Rattle.whitespace.specs.Indentation.{indented_text, dedented_line, dedented_text};
ghost use Rattle.whitespace.specs.inner.OpenNodes.{IsOpened, HasNext, IsAdvanced, IsClosed};
ghost use Rattle.whitespace.specs.inner.Shift.{shifted_text, shifted, IsShifted, with_changed, with_rest, ShiftRefuses};

use crate::indent_error::IndentError;
use crate::level::{IndentLevel, last_line};
use cst_core::{GreenElement, GreenNode, GreenToken, SyntaxKind};
use green_tree::share_all;
use std::alloc::{AllocError, Global};

/// What becomes of the lines of whitespace tokens.
#[derive(Clone, Copy)]
pub(crate) enum Shift {
    /// They are indented by a level.
    Indent(IndentLevel),
    /// They are dedented by a level.
    Dedent(IndentLevel),
}

// A line without the spaces of a level at its start, where it has them.
fn dedented_line<'a>(level: IndentLevel, line: &'a str) -> &'a str
    ensures { result.now ≡ dedented_line level.0 line.now }
{
    match line.strip_prefix(level.spaces()) {
        Some(rest) => rest,
        None => line,
    }
}

// Puts a newline and a line at the end of a text.
fn push_line(out: &mut String, line: &str) -> Result<(), AllocError>
    ensures { OnOk result (string_bytes out.new ≡ string_bytes out.old ++ newline ∷ line.now) }
{
    out.push_str("\n")?;
    out.push_str(line)
}

// A text with each line but the first dedented.
fn dedented_text(alloc: Global, level: IndentLevel, text: &str) -> Result<String, AllocError>
    ensures { IfOk result (λ s. string_bytes s ≡ dedented_text level.0 text.now) }
{
    let Some((first, lines)) = text.split_once('\n') else {
        return String::from_str(alloc, text);
    };
    let mut out = String::from_str(alloc, first)?;
    let mut rest = lines;
    'lines: while let Some((line, further)) = rest.split_once('\n') {
        push_line(&mut out, dedented_line(level, line))?;
        rest = further;
    }
    push_line(&mut out, dedented_line(level, rest))?;
    Ok(out)
}

// A text that holds a newline, with the spaces of a level after it.
fn indented_text(alloc: Global, level: IndentLevel, text: &str) -> Result<String, AllocError>
    requires { has_newline text.now ≡ true }
    ensures { IfOk result (λ s. string_bytes s ≡ indented_text level.0 text.now) }
{
    let mut out = String::from_str(alloc, text)?;
    out.push_str(level.spaces())?;
    Ok(out)
}

// A text that holds a newline, indented or dedented.
fn shifted_text(alloc: Global, shift: Shift, text: &str) -> Result<String, AllocError>
    requires { has_newline text.now ≡ true }
    ensures { IfOk result (λ s. string_bytes s ≡ shifted_text shift text.now) }
{
    match shift {
        Shift::Indent(level) => indented_text(alloc, level, text),
        Shift::Dedent(level) => dedented_text(alloc, level, text),
    }
}

// Whether a token is whitespace that holds a newline.
fn breaks_line(token: &GreenToken) -> bool
    ensures { result ≡ ((token.now.kind == WHITESPACE.0) && has_newline token.now.text) }
{
    token.kind() == SyntaxKind::WHITESPACE && last_line(token.text()).is_some()
}

// A whitespace token that holds a newline, indented or dedented; no answer for any other token, which stays.
fn shifted_token(
    alloc: Global,
    shift: Shift,
    token: &GreenToken,
) -> Result<Option<GreenElement>, IndentError>
    ensures ok { IfOk result (λ r. IsShifted shift (leaf_tree token.now) (option_map element_tree r)) }
    ensures refused { IfErr result (ShiftRefuses (text_length (shifted shift (leaf_tree token.now)))) }
{
    if !breaks_line(token) {
        return Ok(None);
    }
    let text = shifted_text(alloc, shift, token.text())?;
    match GreenToken::new(alloc, SyntaxKind::WHITESPACE, text.as_str()) {
        Ok(token) => Ok(Some(GreenElement::Token(token))),
        Err(error) => Err(IndentError::from(error)),
    }
}

// Puts a changed child at the end of a list that begins the new children, after those before it that stay.
fn push_changed(
    alloc: Global,
    built: &mut Vec<GreenElement>,
    before: &[GreenElement],
    new: GreenElement,
) -> Result<(), AllocError>
    requires { length built.old.items ≤ length before.now }
    ensures { OnOk result (element_trees built.new.items ≡ with_changed element_tree built.old.items before.now new) }
{
    let kept = built.len();
    share_all(alloc, built, &before[kept..])?;
    Ok(built.push(new)?)
}

// The node with a list that begins the new children, and those after it that stay.
fn with_rest(
    alloc: Global,
    node: &GreenNode,
    mut built: Vec<GreenElement>,
) -> Result<GreenNode, AllocError>
    requires { length built.items ≤ length node.now.children }
    ensures { IfOk result (λ n. branch_tree n ≡ with_rest element_tree node.now built.items) }
{
    let children = node.children();
    let kept = built.len();
    share_all(alloc, &mut built, &children[kept..])?;
    GreenNode::capped(alloc, node.kind(), built)
}

/// A node of which the children before a slot are done: a list begins the new ones, and those after it stay.
#[derive(Drop)]
struct OpenNode<'a> {
    node: &'a GreenNode,
    slot: usize,
    built: Vec<GreenElement>,
}

impl<'a> OpenNode<'a> {
    fn new(alloc: Global, node: &'a GreenNode) -> OpenNode<'a>
        ensures { IsOpened result node.now }
    {
        OpenNode {
            node,
            slot: 0,
            built: Vec::new(alloc),
        }
    }

    // One child more is done: it becomes this, or stays.
    fn advance(&mut self, alloc: Global, new: Option<GreenElement>) -> Result<(), AllocError>
        requires { HasNext self.old }
        ensures { OnOk result (IsAdvanced self.old new self.new) }
    {
        let children = self.node.children();
        if let Some(new) = new {
            push_changed(alloc, &mut self.built, &children[..self.slot], new)?;
        }
        self.slot += 1;
        Ok(())
    }

    // The node with its new children; no answer where all of them stay.
    fn close(self, alloc: Global) -> Result<Option<GreenNode>, AllocError>
        requires { length self.built.items ≤ length self.node.now.children }
        ensures { IfOk result (λ r. IsClosed self.entry (option_map branch_tree r)) }
    {
        if self.built.is_empty() {
            return Ok(None);
        }
        Ok(Some(with_rest(alloc, self.node, self.built)?))
    }
}

// A changed node; where there is none, the old one.
fn changed_or_shared(
    alloc: Global,
    node: &GreenNode,
    new: Option<GreenNode>,
) -> Result<GreenNode, AllocError>
    ensures { IfOk result (λ n. branch_tree n ≡ unwrap_or (option_map branch_tree new) (branch_tree node.now)) }
{
    match new {
        Some(new) => Ok(new),
        None => node.share(alloc),
    }
}

/// The node with the whitespace in it indented or dedented: the text of each whitespace token that holds a newline changes.
/// What holds no such token is shared.
///
/// `TooLong` comes only where the new text passes 4,294,967,295 bytes; else only `Memory` comes.
pub(crate) fn shifted_node(
    alloc: Global,
    shift: Shift,
    node: &GreenNode,
) -> Result<GreenNode, IndentError>
    ensures ok { IfOk result (λ n. branch_tree n ≡ shifted shift (branch_tree node.now)) }
    ensures refused { IfErr result (ShiftRefuses (text_length (shifted shift (branch_tree node.now)))) }
{
    let mut above: Vec<OpenNode> = Vec::new(alloc);
    let mut open = OpenNode::new(alloc, node);
    loop {
        match open.node.children().get(open.slot) {
            Some(GreenElement::Node(below)) => {
                above.push(open)?;
                open = OpenNode::new(alloc, below);
            }
            Some(GreenElement::Token(token)) => {
                open.advance(alloc, shifted_token(alloc, shift, token)?)?;
            }
            None => {
                let new = open.close(alloc)?;
                let Some(parent) = above.pop() else {
                    return Ok(changed_or_shared(alloc, node, new)?);
                };
                open = parent;
                open.advance(alloc, new.map(GreenElement::Node))?;
            }
        }
    }
}
