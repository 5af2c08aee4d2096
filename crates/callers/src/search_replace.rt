//! Replaces each literal `1` and puts each block into parentheses: `1 {2+1}` becomes `one ({2+one})`.

ghost use Rattle.std.specs.Prelude.{◌≡◌, ℕ, ◌+◌, [], ◌∷◌, None, All, IfOk, OnOk};
ghost use Rattle.syntax_editor.specs.Tree.{text};
ghost use Rattle.syntax_editor.specs.Element.{Element, subtree};
ghost use Rattle.syntax_editor.specs.Nesting.{owner};
ghost use Rattle.syntax_editor.specs.Plan.{Edit};
ghost use Rattle.syntax_editor.specs.RewritingLaws.{changed_text};
ghost use Rattle.syntax_editor.specs.Spacing.{lone_token};
ghost use Rattle.callers.specs.Rewritten.{is_match, ReplacesMatches, WrapsBlocks, Rewrites, IsRewritten};

use anyhow::Result;
use cst_core::{SyntaxElement, SyntaxKind, SyntaxNode, TreeIds};
use edit_plan::laws::edit_text_is_filled;
use std::alloc::Global;
use syntax_editor::{SyntaxEdit, SyntaxEditor};
use tree_text::read_root;

// A match has the pattern's kind and its text.
fn is_match(alloc: Global, node: &SyntaxNode, pattern: &SyntaxNode) -> Result<bool>
    ensures { IfOk result (λ b. b ≡ is_match pattern.now node.now) }
{
    Ok(node.kind() == pattern.kind() && node.text(alloc)? == pattern.text(alloc)?)
}

fn replace_match(
    alloc: Global,
    editor: &mut SyntaxEditor,
    node: &SyntaxNode,
    pattern: &SyntaxNode,
    new: &SyntaxNode,
) -> Result<()>
    ensures { OnOk result (ReplacesMatches pattern.now new.now (node.now ∷ []) editor.old editor.new) }
{
    if is_match(alloc, node, pattern)? {
        editor.replace(alloc, node, new)?;
    }
    Ok(())
}

fn replace_matches(
    alloc: Global,
    editor: &mut SyntaxEditor,
    nodes: &[SyntaxNode],
    pattern: &SyntaxNode,
    new: &SyntaxNode,
) -> Result<()>
    ensures { OnOk result (ReplacesMatches pattern.now new.now nodes.now editor.old editor.new) }
{
    for node in nodes {
        replace_match(alloc, editor, node, pattern, new)?;
    }
    Ok(())
}

fn parenthesis(
    alloc: Global,
    ids: &mut TreeIds,
    editor: &SyntaxEditor,
    kind: SyntaxKind,
    text: &str,
) -> Result<SyntaxElement>
    ensures ok { IfOk result (λ e. e ≡ lone_token ids.old kind text.now) }
    ensures drawn { OnOk result (ids.new ≡ ids.old + 1) }
{
    let token = editor.make().token(alloc, ids, kind, text)?;
    Ok(SyntaxElement::Token(token))
}

// What is replaced inside the block is replaced in its copy between the parentheses.
fn wrap_block(
    alloc: Global,
    ids: &mut TreeIds,
    editor: &mut SyntaxEditor,
    node: &SyntaxNode,
) -> Result<()>
    ensures { OnOk result (WrapsBlocks (node.now ∷ []) ids.old ids.new editor.old editor.new) }
{
    if node.kind() == SyntaxKind::BLOCK_EXPR {
        let open = parenthesis(alloc, ids, editor, SyntaxKind::L_PAREN, "(")?;
        let close = parenthesis(alloc, ids, editor, SyntaxKind::R_PAREN, ")")?;
        editor.wrap(alloc, ids, node, SyntaxKind::TUPLE_EXPR, &[open], &[close])?;
    }
    Ok(())
}

fn wrap_blocks(
    alloc: Global,
    ids: &mut TreeIds,
    editor: &mut SyntaxEditor,
    nodes: &[SyntaxNode],
) -> Result<()>
    ensures { OnOk result (WrapsBlocks nodes.now ids.old ids.new editor.old editor.new) }
{
    for node in nodes {
        wrap_block(alloc, ids, editor, node)?;
    }
    Ok(())
}

// Where no change is inside another one, the changes alone tell the new text.
fn text_is_told()
    ensures { (pattern new : Element) (next : ℕ) (file : Element) (edit : Edit)
        (r : IsRewritten pattern new next file edit) → All (λ c. owner r.plan.changes c ≡ None) r.plan.changes
        → text edit.new_root.root ≡ changed_text r.plan.changes (subtree r.plan.root) }
{
    edit_text_is_filled();
}

// All matches are replaced before any block is wrapped.
fn rewrite(
    alloc: Global,
    ids: &mut TreeIds,
    editor: &mut SyntaxEditor,
    root: &SyntaxNode,
    pattern: &SyntaxNode,
    new: &SyntaxNode,
) -> Result<()>
    ensures { OnOk result (Rewrites pattern.now new.now root.now ids.old ids.new editor.old editor.new) }
{
    let nodes = root.descendants(alloc)?;
    replace_matches(alloc, editor, &nodes, pattern, new)?;
    wrap_blocks(alloc, ids, editor, &nodes)
}

fn rewrite_edit(
    alloc: Global,
    ids: &mut TreeIds,
    file: SyntaxNode,
    pattern: &SyntaxNode,
    new: &SyntaxNode,
) -> Result<SyntaxEdit>
    ensures { IfOk result (IsRewritten pattern.now new.now ids.old file) }
{
    let (mut editor, root) = SyntaxEditor::new(alloc, ids, file)?;
    rewrite(alloc, ids, &mut editor, &root, pattern, new)?;
    Ok(editor.finish(alloc, ids)?)
}

const FILE: &str =
    r#"(SOURCE_FILE (LITERAL INT_NUMBER"1") WHITESPACE" " (BLOCK_EXPR L_CURLY"{" (LITERAL INT_NUMBER"2") PLUS"+" (LITERAL INT_NUMBER"1") R_CURLY"}"))"#;

const PATTERN: &str = r#"(LITERAL INT_NUMBER"1")"#;

const REPLACEMENT: &str = r#"(NAME_REF IDENT"one")"#;

fn rewrite_file(
    alloc: Global,
    ids: &mut TreeIds,
    pattern: &SyntaxNode,
    new: &SyntaxNode,
) -> Result<SyntaxEdit> {
    let file = read_root(alloc, ids, FILE)?;
    rewrite_edit(alloc, ids, file, pattern, new)
}

fn example_edit(alloc: Global) -> Result<SyntaxEdit> {
    let mut ids = TreeIds::new(1);
    let pattern = read_root(alloc, &mut ids, PATTERN)?;
    let new = read_root(alloc, &mut ids, REPLACEMENT)?;
    rewrite_file(alloc, &mut ids, &pattern, &new)
}

/// The new text of the file.
pub(crate) fn example(alloc: Global) -> Result<String> {
    Ok(example_edit(alloc)?.new_root().text(alloc)?)
}
