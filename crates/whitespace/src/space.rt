//! `Space`: the whitespace before the first and after the last of new elements. It reads only the levels that the rule names.

ghost use Rattle.std.specs.Prelude.{ℕ, suc, ◌≡◌, max, Some, IsSome, IfOk, IfErr};
ghost use Rattle.cst_core.specs.SyntaxElement.{element_of};
ghost use Rattle.whitespace.specs.Level.{level};
ghost use Rattle.whitespace.specs.LevelCalls.{ReadsLevel};
ghost use Rattle.whitespace.specs.Spacing.{NewLine, neighbor, between, space_following, space_before, space_after, next_of, space_in_front, space_at_end};
ghost use Rattle.whitespace.specs.inner.SpaceInCode.{FindsLevel, FindsSpace};
ghost use Rattle.whitespace.specs.inner.SpaceRefusal.{of_level};

use crate::indent_error::IndentError;
use crate::level::IndentLevel;
use crate::space_error::SpaceError;
use crate::space_rule::{SpaceRule, opens_list, space_rule};
use cst_core::{SyntaxElement, SyntaxNode};
use edit_change::Position;
use std::alloc::{AllocError, Global};

/// The whitespace that goes between two elements.
#[derive(Clone, Copy)]
pub(crate) enum Space {
    /// No whitespace.
    Nothing,
    /// One space.
    OneSpace,
    /// A new line at a level.
    NewLine(IndentLevel),
}

// The level of an element.
fn level_of(alloc: Global, element: &SyntaxElement) -> Result<IndentLevel, SpaceError>
    ensures { FindsLevel (level (element_of element.now)) result }
{
    as_space_error(IndentLevel::from_element(alloc, element))
}

// The level of a node.
fn node_level(alloc: Global, node: &SyntaxNode) -> Result<IndentLevel, SpaceError>
    ensures { FindsLevel (level node.now) result }
{
    as_space_error(IndentLevel::from_node(alloc, node))
}

// A refusal to read a level as one to find whitespace.
fn as_space_error(read: Result<IndentLevel, IndentError>) -> Result<IndentLevel, SpaceError>
    requires { IfErr read (λ e. IsSome (of_level e)) }
    ensures ok { IfOk read (λ level. result ≡ Ok level) }
    ensures err { IfErr read (λ e. IfErr result (λ f. of_level e ≡ Some f)) }
    ensures found { (level : ℕ) → ReadsLevel level read → FindsLevel level result }
{
    match read {
        Ok(level) => Ok(level),
        Err(error) => Err(SpaceError::of_level(error)),
    }
}

// A new line at the level of an element.
fn line_of(alloc: Global, element: &SyntaxElement) -> Result<Space, SpaceError>
    ensures { FindsSpace (NewLine (level (element_of element.now))) result }
{
    Ok(Space::NewLine(level_of(alloc, element)?))
}

// A new line at the greater level of two elements.
fn line_of_deeper(
    alloc: Global,
    left: &SyntaxElement,
    right: &SyntaxElement,
) -> Result<Space, SpaceError>
    ensures { FindsSpace (NewLine (max (level (element_of left.now)) (level (element_of right.now)))) result }
{
    let left = level_of(alloc, left)?;
    let right = level_of(alloc, right)?;
    Ok(Space::NewLine(IndentLevel(left.0.max(right.0))))
}

// The whitespace between two elements, by the table.
fn space_between(
    alloc: Global,
    left: &SyntaxElement,
    right: &SyntaxElement,
) -> Result<Space, SpaceError>
    ensures { FindsSpace (between (neighbor (element_of left.now)) (neighbor (element_of right.now))) result }
{
    match space_rule(left.kind(), right.kind()) {
        SpaceRule::Nothing => Ok(Space::Nothing),
        SpaceRule::OneSpace => Ok(Space::OneSpace),
        SpaceRule::LineOfLeft => line_of(alloc, left),
        SpaceRule::LineOfRight => line_of(alloc, right),
        SpaceRule::LineOfDeeper => line_of_deeper(alloc, left, right),
    }
}

// A new line one level deeper than that of a node.
fn line_below(alloc: Global, parent: &SyntaxNode) -> Result<Space, SpaceError>
    ensures { FindsSpace (NewLine (suc (level parent.now))) result }
{
    let level = node_level(alloc, parent)?;
    if level.0 == u8::MAX {
        return Err(SpaceError::LevelTooLarge);
    }
    Ok(Space::NewLine(level + 1))
}

// The whitespace between an anchor and the first new element after it.
fn space_in_parent(
    alloc: Global,
    anchor: &SyntaxElement,
    first: &SyntaxElement,
) -> Result<Space, SpaceError>
    ensures { FindsSpace (space_following (element_of anchor.now) (element_of first.now)) result }
{
    let Some(parent) = anchor.parent(alloc)? else {
        return space_between(alloc, anchor, first);
    };
    if opens_list(parent.kind(), anchor.kind(), first.kind()) {
        return line_below(alloc, &parent);
    }
    space_between(alloc, anchor, first)
}

// The whitespace at a position before the first new element.
fn space_before(alloc: Global, at: &Position, first: &SyntaxElement) -> Result<Space, SpaceError>
    ensures { FindsSpace (space_before at.now (element_of first.now)) result }
{
    match at.after_of() {
        Some(anchor) => space_in_parent(alloc, anchor, first),
        None => Ok(Space::Nothing),
    }
}

// The element that stands after a position.
fn next_of(alloc: Global, at: &Position) -> Result<Option<SyntaxElement>, AllocError>
    ensures { IfOk result (λ r. r ≡ next_of at.now) }
{
    if let Some(anchor) = at.after_of() {
        return anchor.next_sibling_or_token(alloc);
    }
    match at.first_of() {
        Some(node) => node.first_child_or_token(alloc),
        None => Ok(None),
    }
}

// The whitespace at a position after the last new element.
fn space_after(alloc: Global, at: &Position, last: &SyntaxElement) -> Result<Space, SpaceError>
    ensures { FindsSpace (space_after at.now (element_of last.now)) result }
{
    match next_of(alloc, at)? {
        Some(next) => space_between(alloc, last, &next),
        None => Ok(Space::Nothing),
    }
}

/// The whitespace before new elements: none where there are none.
pub(crate) fn space_in_front(
    alloc: Global,
    at: &Position,
    new: &[SyntaxElement],
) -> Result<Space, SpaceError>
    ensures { FindsSpace (space_in_front at.now new.now) result }
{
    match new.first() {
        Some(first) => space_before(alloc, at, first),
        None => Ok(Space::Nothing),
    }
}

/// The whitespace after new elements: none where there are none.
pub(crate) fn space_at_end(
    alloc: Global,
    at: &Position,
    new: &[SyntaxElement],
) -> Result<Space, SpaceError>
    ensures { FindsSpace (space_at_end at.now new.now) result }
{
    match new.last() {
        Some(last) => space_after(alloc, at, last),
        None => Ok(Space::Nothing),
    }
}
