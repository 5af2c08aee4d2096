//! `elements_with_spaces`: new elements between their whitespace tokens.

ghost use Rattle.std.specs.Prelude.{◌≡◌, ◌+◌, ◌∷◌, [], ◌++◌, ◌≤◌, None, IfOk, IfErr, OnOk, OnErr, string_bytes};
ghost use Rattle.cst_core.specs.TreeIds.{spent};
ghost use Rattle.whitespace.specs.Spacing.{space_text, space_elements, with_spaces, spaced, numbers_needed, space_refusal};
ghost use Rattle.whitespace.specs.inner.SpaceInCode.{space_of, numbers_of, NumbersRefuse, IsRound, RoundRefuses, SpacedRefuses};

use crate::lone_token::whitespace;
use crate::space::{Space, space_at_end, space_in_front};
use crate::space_error::SpaceError;
use cst_core::{SyntaxElement, TreeIds};
use edit_change::{Position, trial_source};
use std::alloc::{AllocError, Global};

// Whitespace as a text.
fn space_text(alloc: Global, space: Space) -> Result<String, AllocError>
    ensures { IfOk result (λ s. string_bytes s ≡ space_text (space_of space)) }
{
    match space {
        Space::Nothing => Ok(String::new(alloc)),
        Space::OneSpace => String::from_str(alloc, " "),
        Space::NewLine(level) => {
            let mut text = String::from_str(alloc, "\n")?;
            text.push_str(level.spaces())?;
            Ok(text)
        }
    }
}

// Puts an element at the end of a list.
fn push(out: &mut Vec<SyntaxElement>, element: SyntaxElement) -> Result<(), AllocError>
    ensures { OnOk result (out.new.items ≡ out.old.items ++ element ∷ []) }
{
    Ok(out.push(element)?)
}

// Puts whitespace at the end of a list, as a token in a tree of the next number, or as nothing.
fn push_space(
    alloc: Global,
    ids: &mut TreeIds,
    space: Space,
    out: &mut Vec<SyntaxElement>,
) -> Result<(), SpaceError>
    requires { ids.old ≤ spent }
    ensures ok { OnOk result (out.new.items ≡ out.old.items ++ space_elements ids.old (space_of space)) }
    ensures drawn { OnOk result (ids.new ≡ ids.old + numbers_of (space_of space)) }
    ensures given { OnOk result (ids.new ≤ spent) }
    ensures refused { IfErr result (NumbersRefuse ids.old (numbers_of (space_of space))) }
{
    if let Space::Nothing = space {
        return Ok(());
    }
    let text = space_text(alloc, space)?;
    match whitespace(alloc, ids, text.as_str()) {
        Ok(token) => Ok(push(out, SyntaxElement::Token(token))?),
        Err(error) => Err(SpaceError::of_whitespace(error)),
    }
}

// New elements between the whitespace before them and the whitespace after them.
fn with_spaces(
    alloc: Global,
    ids: &mut TreeIds,
    front: Space,
    mut new: Vec<SyntaxElement>,
    end: Space,
) -> Result<Vec<SyntaxElement>, SpaceError>
    requires { ids.old ≤ spent }
    ensures ok { IfOk result (λ all. all.items ≡ with_spaces ids.old (space_of front) new.items (space_of end)) }
    ensures drawn { OnOk result (ids.new ≡ ids.old + (numbers_of (space_of front) + numbers_of (space_of end))) }
    ensures given { OnOk result (ids.new ≤ spent) }
    ensures refused { IfErr result (NumbersRefuse ids.old (numbers_of (space_of front) + numbers_of (space_of end))) }
{
    let mut all = Vec::new(alloc);
    push_space(alloc, ids, front, &mut all)?;
    all.append(&mut new)?;
    push_space(alloc, ids, end, &mut all)?;
    Ok(all)
}

// The whitespace on both sides of new elements at a position.
fn spaces_round(
    alloc: Global,
    at: &Position,
    new: &[SyntaxElement],
) -> Result<(Space, Space), SpaceError>
    ensures ok { IfOk result (IsRound at.now new.now) }
    ensures refused { IfErr result (RoundRefuses at.now new.now) }
{
    let front = space_in_front(alloc, at, new)?;
    let end = space_at_end(alloc, at, new)?;
    Ok((front, end))
}

/// New elements, in their order, between the whitespace that goes before and after them at a position, each as a token in a tree of
/// its own under the next number of `ids`. Nothing goes round no elements.
///
/// `LevelTooLarge` comes first, where a new line would have a level past 255, then `NoTreeNumber`; `Memory` may come at any time. None
/// of them draws a number.
pub fn elements_with_spaces(
    alloc: Global,
    ids: &mut TreeIds,
    at: &Position,
    new: Vec<SyntaxElement>,
) -> Result<Vec<SyntaxElement>, SpaceError>
    ensures ok { IfOk result (λ all. all.items ≡ spaced ids.old at.now new.items) }
    ensures accepted { OnOk result (space_refusal ids.old at.now new.items ≡ None) }
    ensures drawn { OnOk result (ids.new ≡ ids.old + numbers_needed at.now new.items) }
    ensures refused { IfErr result (SpacedRefuses ids.old at.now new.items) }
    ensures err { OnErr result (ids.new ≡ ids.old) }
{
    let (front, end) = spaces_round(alloc, at, &new)?;
    // The numbers are drawn last, when nothing can fail any more.
    let mut drawn = trial_source(ids);
    let all = with_spaces(alloc, &mut drawn, front, new, end)?;
    *ids = drawn;
    Ok(all)
}
