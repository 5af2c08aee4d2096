//! Levels of indentation, of four spaces each.
ghost use Rattle.std.specs.Prelude.{◌≡◌, ◌+◌, ◌≤◌, ◌==◌, true, Some, None, replicate, length, option_map};
ghost use Rattle.std.specs.Str.{chars};
ghost use Rattle.std.specs.Fmt.{styled_text};
ghost use Rattle.cst_core.specs.SyntaxElement.{element_of};
ghost use Rattle.cst_core.specs.declared.element.SyntaxElement.TheVariants.{Node, Token};
ghost use Rattle.cst_core.specs.Tree.{text};
ghost use Rattle.whitespace.specs.Level.{space, level_text, has_newline, breaks_line, level_after, token_level, level};
ghost use Rattle.whitespace.specs.LevelCalls.{ReadsLevel, ReadsAtOnce};
ghost use Rattle.whitespace.specs.inner.LastLine.{last_line};

use crate::indent_error::IndentError;
use cst_core::{SyntaxElement, SyntaxKind, SyntaxNode, SyntaxToken};
use std::alloc::Global;
use std::fmt;
use std::ops::{Add, AddAssign};

const SPACES: &str =
    "                                                                                                                                                                                                                                                                                                                                                                                                                                                                                                                                                                                                                                                                                                                                                                                                                                                                                                                                                                                                                                                            ";

/// A level of indentation, in units of four spaces.
#[derive(Debug, Clone, Copy, PartialEq, Eq)]
pub struct IndentLevel(pub u8);

impl From<u8> for IndentLevel {
    ghost use Rattle.std.specs.Prelude.{◌≡◌};

    ghost from_gives = { λ n level. level.0 ≡ n };

    fn from(level: u8) -> IndentLevel {
        IndentLevel(level)
    }
}

/// Prints the spaces of the level, by the rules of a printed text.
impl fmt::Display for IndentLevel {
    ghost use Rattle.std.specs.Prelude.{Some};
    ghost use Rattle.std.specs.Fmt.{styled_text};
    ghost use Rattle.whitespace.specs.Level.{space, level_text};

    ghost output = { λ level. Some (level_text level.0) };

    ghost styled_output = { λ level spec. Some (styled_text spec (level_text level.0)) };

    fn fmt<W: fmt::Write>(&self, f: &mut fmt::Formatter<W>) -> fmt::Result {
        f.pad(self.spaces())
    }
}

/// The sum of the levels, which is at most 255.
impl Add<u8> for IndentLevel {
    ghost use Rattle.std.specs.Prelude.{◌≡◌, ◌+◌, ◌≤◌};

    type Output = IndentLevel;

    ghost can_add = { λ level more. level.0 + more ≤ 255 };

    ghost add_gives = { λ level more sum. sum.0 ≡ level.0 + more };

    fn add(self, more: u8) -> IndentLevel {
        IndentLevel(self.0 + more)
    }
}

/// The sum of the levels, which is at most 255.
impl AddAssign<u8> for IndentLevel {
    ghost use Rattle.std.specs.Prelude.{◌≡◌, ◌+◌, ◌≤◌};

    ghost can_add_assign = { λ level more. level.0 + more ≤ 255 };

    ghost add_assign_gives = { λ level more sum. sum.0 ≡ level.0 + more };

    fn add_assign(&mut self, more: u8) {
        self.0 += more;
    }
}

impl IndentLevel {
    /// No indentation.
    pub fn zero() -> IndentLevel
        ensures { result.0 ≡ 0 }
    {
        IndentLevel(0)
    }

    /// Whether this is no indentation.
    pub fn is_zero(&self) -> bool
        ensures { result ≡ (self.now.0 == 0) }
    {
        self.0 == 0
    }

    /// The level of an element: that of its first token, and 0 where it has none.
    ///
    /// `LevelTooLarge` comes exactly where it passes 255; else only `Memory` comes, and not where `from_node` or `from_token` takes none.
    pub fn from_element(alloc: Global, element: &SyntaxElement) -> Result<IndentLevel, IndentError>
        ensures level { ReadsLevel (level (element_of element.now)) result }
        ensures at_once { ReadsAtOnce element.now result }
    {
        match element {
            SyntaxElement::Node(node) => IndentLevel::from_node(alloc, node),
            SyntaxElement::Token(token) => {
                // For the proof: what stands at its path is a token.
                let _ = token.kind();
                IndentLevel::from_token(alloc, token)
            }
        }
    }

    /// The level of a node, as of an element. A node without tokens is answered without memory.
    pub fn from_node(alloc: Global, node: &SyntaxNode) -> Result<IndentLevel, IndentError>
        ensures level { ReadsLevel (level node.now) result }
        ensures at_once { ReadsAtOnce (Node node.now) result }
    {
        match node.first_token(alloc)? {
            Some(token) => IndentLevel::from_token(alloc, &token),
            None => Ok(IndentLevel::zero()),
        }
    }

    /// The level of a token: of the nearest whitespace token that holds a newline, at it or before it, each four characters
    /// after the last newline; 0 if there is no such token. It looks no further than that token.
    ///
    /// `LevelTooLarge` comes exactly where the level passes 255; else only `Memory` comes, and not of a token that is such a
    /// whitespace token or the first of its tree.
    pub fn from_token(alloc: Global, token: &SyntaxToken) -> Result<IndentLevel, IndentError>
        ensures level { ReadsLevel (token_level token.now) result }
        ensures at_once { ReadsAtOnce (Token token.now) result }
    {
        if breaks_line(token) {
            return level_after(token.text());
        }
        match token.prev_token(alloc)? {
            Some(before) => level_back(alloc, before),
            None => Ok(IndentLevel::zero()),
        }
    }

    /// The spaces of the level: four times as many as its number.
    pub fn spaces(self) -> &'static str
        ensures { result.now ≡ level_text self.0 }
    {
        &all_spaces()[..4 * self.0 as usize]
    }
}

// The spaces of the greatest level.
fn all_spaces() -> &'static str
    ensures { result.now ≡ replicate 1020 space }
{
    SPACES
}

// Whether a token is whitespace that holds a newline.
fn breaks_line(token: &SyntaxToken) -> bool
    ensures { result ≡ breaks_line token.now }
{
    token.kind() == SyntaxKind::WHITESPACE && last_line(token.text()).is_some()
}

// What stands after the last newline of a text, if it holds one.
pub(crate) fn last_line(text: &str) -> Option<&str>
    ensures { option_map (λ line. line.now) result ≡ last_line text.now }
{
    match text.rsplit_once('\n') {
        Some((_, line)) => Some(line),
        None => None,
    }
}

// How many characters a text has.
fn count_chars(text: &str) -> usize
    ensures { result ≡ length (chars text.now) }
{
    text.chars().count()
}

// The level of a token, read from it on back.
fn level_back(alloc: Global, token: SyntaxToken) -> Result<IndentLevel, IndentError>
    ensures { ReadsLevel (token_level token) result }
{
    let mut current = token;
    'back: while !breaks_line(&current) {
        let Some(before) = current.prev_token(alloc)? else {
            return Ok(IndentLevel::zero());
        };
        current = before;
    }
    level_after(current.text())
}

// The level of what stands after a text that holds a newline.
fn level_after(text: &str) -> Result<IndentLevel, IndentError>
    requires { has_newline text.now ≡ true }
    ensures level { ReadsLevel (level_after text.now) result }
    ensures without_memory { ¬ (result ≡ Err IndentError.Memory) }
{
    let Some(line) = last_line(text) else {
        unreachable!();
    };
    match u8::try_from(count_chars(line) / 4) {
        Ok(level) => Ok(IndentLevel(level)),
        Err(_) => Err(IndentError::LevelTooLarge),
    }
}
