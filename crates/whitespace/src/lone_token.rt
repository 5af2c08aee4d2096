//! `token` and `whitespace`: a token in a tree of its own.

ghost use Rattle.std.specs.Prelude.{◌≡◌, ◌↔◌, ◌+◌, ◌<◌, ◌≤◌, [], length, IfOk, OnOk, OnErr};
ghost use Rattle.cst_core.specs.Green.{length_limit, branch_tree};
ghost use Rattle.cst_core.specs.TreeIds.{spent};
ghost use Rattle.cst_core.specs.declared.element.SyntaxElement.TheVariants.{Token};
ghost use Rattle.whitespace.specs.Spacing.{lone_tree, lone_token, whitespace, LacksTokenNumber};

use cst_core::{
    GreenElement, GreenNode, GreenToken, LENGTH_LIMIT, SyntaxKind, SyntaxNode, SyntaxToken,
    TreeError, TreeIds,
};
use std::alloc::{AllocError, Global};

/// A token of this kind and text, alone below a root of the kind SOURCE_FILE, in a tree of its own under the next number of
/// `ids`.
///
/// `TooLong` comes first, where the text passes 4,294,967,295 bytes, then `NoTreeNumber`, then `Memory`; none of them draws
/// a number.
pub fn token(
    alloc: Global,
    ids: &mut TreeIds,
    kind: SyntaxKind,
    text: &str,
) -> Result<SyntaxToken, TreeError>
    ensures ok { IfOk result (λ t. Token t ≡ lone_token ids.old kind text.now) }
    ensures drawn { OnOk result (ids.new ≡ ids.old + 1) }
    ensures too_long { (result ≡ Err TreeError.TooLong) ↔ (length_limit ≤ length text.now) }
    ensures no_number { (result ≡ Err TreeError.NoTreeNumber) ↔ LacksTokenNumber ids.old text.now }
    ensures err { OnErr result (ids.new ≡ ids.old) }
{
    if text.len() as u64 >= LENGTH_LIMIT {
        return Err(TreeError::TooLong);
    }
    let Some(number) = ids.peek() else {
        return Err(TreeError::NoTreeNumber);
    };
    // The number is drawn last, when nothing can fail any more.
    let token = token_of(alloc, number, kind, text)?;
    ids.next();
    Ok(token)
}

/// Such a token of the kind WHITESPACE. Its text is not looked at. The refusals are the same.
pub fn whitespace(alloc: Global, ids: &mut TreeIds, text: &str) -> Result<SyntaxToken, TreeError>
    ensures ok { IfOk result (λ t. Token t ≡ whitespace ids.old text.now) }
    ensures drawn { OnOk result (ids.new ≡ ids.old + 1) }
    ensures too_long { (result ≡ Err TreeError.TooLong) ↔ (length_limit ≤ length text.now) }
    ensures no_number { (result ≡ Err TreeError.NoTreeNumber) ↔ LacksTokenNumber ids.old text.now }
    ensures err { OnErr result (ids.new ≡ ids.old) }
{
    token(alloc, ids, SyntaxKind::WHITESPACE, text)
}

// Such a token in a tree of this number, of a text that is not too long.
fn token_of(
    alloc: Global,
    number: u64,
    kind: SyntaxKind,
    text: &str,
) -> Result<SyntaxToken, AllocError>
    requires number { number < spent }
    requires fits { length text.now < length_limit }
    ensures { IfOk result (λ t. Token t ≡ lone_token number kind text.now) }
{
    let Some(token) = root_of(alloc, number, kind, text)?.first_token(alloc)? else {
        unreachable!();
    };
    Ok(token)
}

// The root above it.
fn root_of(
    alloc: Global,
    number: u64,
    kind: SyntaxKind,
    text: &str,
) -> Result<SyntaxNode, AllocError>
    requires number { number < spent }
    requires fits { length text.now < length_limit }
    ensures { IfOk result (λ n. n ≡ record { number = number; root = lone_tree kind text.now; path = [] }) }
{
    let green = green_of(alloc, kind, text)?;
    match SyntaxNode::new_root(alloc, &mut TreeIds::new(number), green) {
        Ok(root) => Ok(root),
        Err(TreeError::TooLong) => unreachable!(),
        Err(TreeError::NoTreeNumber) => unreachable!(),
        Err(TreeError::Memory) => Err(AllocError),
    }
}

// The shared tree of that root.
fn green_of(alloc: Global, kind: SyntaxKind, text: &str) -> Result<GreenNode, AllocError>
    requires { length text.now < length_limit }
    ensures { IfOk result (λ n. branch_tree n ≡ lone_tree kind text.now) }
{
    let token = match GreenToken::new(alloc, kind, text) {
        Ok(token) => token,
        Err(TreeError::TooLong) => unreachable!(),
        Err(TreeError::NoTreeNumber) => unreachable!(),
        Err(TreeError::Memory) => return Err(AllocError),
    };
    let mut children = Vec::new(alloc);
    children.push(GreenElement::Token(token))?;
    GreenNode::capped(alloc, SyntaxKind::SOURCE_FILE, children)
}
