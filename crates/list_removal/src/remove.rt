//! `remove_separated`: finds the separator that goes with an element, and records one deletion of both.

ghost use Rattle.std.specs.Prelude.{◌≡◌, IfOk, IfErr, OnOk, OnErr};
ghost use Rattle.cst_core.specs.SyntaxElement.{next_sibling, previous_sibling};
ghost use Rattle.syntax_editor.specs.Editor.{Records, Takes};
ghost use Rattle.list_removal.specs.Removal.{is_token_of, if_token_of, past_whitespace, next_separator, previous_separator, with_whitespace_after, removed_run, removal, RemovalRefuses};

use cst_core::{SyntaxElement, SyntaxKind};
use std::alloc::{AllocError, Global};
use syntax_editor::{RecordError, SyntaxEditor};

/// Deletes an element of a separated list, with one separator beside it, as one range.
///
/// Where the next sibling is a token of the separator's kind, the range goes from the element to that token, and over one
/// whitespace token directly after it. Else, where the previous sibling is such a token, it goes from that token to the element.
/// One whitespace token between the element and a separator is skipped, and goes too. Where there is no separator, the element
/// alone is deleted, as by `SyntaxEditor::delete`.
///
/// `Foreign` comes first, where the element is of another tree, then `DeletesRoot`. `Memory` may come before them. The editor
/// is unchanged after each.
///
/// ```text
/// // In `(1, 2)`, `one` and `two` are the literals.
/// remove_separated(alloc, &mut editor, &one, SyntaxKind::COMMA)?; // leaves `(2)`
/// remove_separated(alloc, &mut editor, &two, SyntaxKind::COMMA)?; // alone, leaves `(1)`
/// ```
pub fn remove_separated(
    alloc: Global,
    editor: &mut SyntaxEditor,
    element: &SyntaxElement,
    separator: SyntaxKind,
) -> Result<(), RecordError>
    ensures recorded { OnOk result (Records (removal separator element.now) editor.old editor.new) }
    ensures accepted { OnOk result (Takes editor.old (removal separator element.now)) }
    ensures refused { IfErr result (RemovalRefuses editor.old.root separator element.now) }
    ensures unchanged { OnErr result (editor.new ≡ editor.old) }
{
    let (first, last) = removed_run(alloc, element, separator)?;
    editor.delete_all(alloc, first, last)
}

// The first and the last of the siblings that go.
fn removed_run(
    alloc: Global,
    element: &SyntaxElement,
    separator: SyntaxKind,
) -> Result<(SyntaxElement, SyntaxElement), AllocError>
    ensures { IfOk result (λ run. run ≡ removed_run separator element.now) }
{
    let removed = element.try_clone(alloc)?;
    if let Some(after) = next_separator(alloc, element, separator)? {
        return Ok((removed, with_whitespace_after(alloc, after)?));
    }
    if let Some(before) = previous_separator(alloc, element, separator)? {
        return Ok((before, removed));
    }
    Ok((element.try_clone(alloc)?, removed))
}

// The separator after an element, with one whitespace token skipped.
fn next_separator(
    alloc: Global,
    element: &SyntaxElement,
    separator: SyntaxKind,
) -> Result<Option<SyntaxElement>, AllocError>
    ensures { IfOk result (λ r. r ≡ next_separator separator element.now) }
{
    let after = next_past_whitespace(alloc, element)?;
    Ok(if_token_of(separator, after))
}

// The separator before an element, with one whitespace token skipped.
fn previous_separator(
    alloc: Global,
    element: &SyntaxElement,
    separator: SyntaxKind,
) -> Result<Option<SyntaxElement>, AllocError>
    ensures { IfOk result (λ r. r ≡ previous_separator separator element.now) }
{
    let before = previous_past_whitespace(alloc, element)?;
    Ok(if_token_of(separator, before))
}

// The whitespace token directly after an element, or the element where there is none.
fn with_whitespace_after(alloc: Global, element: SyntaxElement) -> Result<SyntaxElement, AllocError>
    ensures { IfOk result (λ r. r ≡ with_whitespace_after element) }
{
    let next = element.next_sibling_or_token(alloc)?;
    match if_token_of(SyntaxKind::WHITESPACE, next) {
        Some(whitespace) => Ok(whitespace),
        None => Ok(element),
    }
}

fn next_past_whitespace(
    alloc: Global,
    element: &SyntaxElement,
) -> Result<Option<SyntaxElement>, AllocError>
    ensures { IfOk result (λ r. r ≡ past_whitespace next_sibling element.now) }
{
    match element.next_sibling_or_token(alloc)? {
        Some(next) if is_token_of(&next, SyntaxKind::WHITESPACE) => {
            next.next_sibling_or_token(alloc)
        }
        next => Ok(next),
    }
}

fn previous_past_whitespace(
    alloc: Global,
    element: &SyntaxElement,
) -> Result<Option<SyntaxElement>, AllocError>
    ensures { IfOk result (λ r. r ≡ past_whitespace previous_sibling element.now) }
{
    match element.prev_sibling_or_token(alloc)? {
        Some(previous) if is_token_of(&previous, SyntaxKind::WHITESPACE) => {
            previous.prev_sibling_or_token(alloc)
        }
        previous => Ok(previous),
    }
}

// An element, if it is a token of this kind.
fn if_token_of(kind: SyntaxKind, element: Option<SyntaxElement>) -> Option<SyntaxElement>
    ensures { result ≡ if_token_of kind element }
{
    match element {
        Some(token) if is_token_of(&token, kind) => Some(token),
        _ => None,
    }
}

fn is_token_of(element: &SyntaxElement, kind: SyntaxKind) -> bool
    ensures { result ≡ is_token_of kind element.now }
{
    match element {
        SyntaxElement::Node(_) => false,
        SyntaxElement::Token(token) => token.kind() == kind,
    }
}
