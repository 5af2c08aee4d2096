//! Renames a `let` and every use of it: `{let a = b; a+a;}` becomes `{let total = b; total+total;}`. It prints the new text, and then the
//! edits as a language server takes them.

use crate::printed::text_and_edits;
use anyhow::{Context, Result};
use cst_core::{SyntaxKind, SyntaxNode, SyntaxToken, TreeIds};
use std::alloc::Global;
use syntax_editor::{EditPlan, SyntaxEditor};
use tree_text::read_root;

// A definition is a NAME, a use a NAME_REF.
fn is_called(alloc: Global, node: &SyntaxNode, name: &str) -> Result<bool> {
    let is_name = node.kind() == SyntaxKind::NAME || node.kind() == SyntaxKind::NAME_REF;
    Ok(is_name && node.text(alloc)?.as_str() == name)
}

fn identifier_of(alloc: Global, name: &SyntaxNode) -> Result<SyntaxToken> {
    let token = name.first_token(alloc)?;
    token.context("a name has an identifier")
}

// The identifier alone is exchanged, so a NAME stays a NAME.
fn replace_names(
    alloc: Global,
    editor: &mut SyntaxEditor,
    nodes: &[SyntaxNode],
    old: &str,
    new: &SyntaxToken,
) -> Result<()> {
    for node in nodes {
        if is_called(alloc, node, old)? {
            let identifier = identifier_of(alloc, node)?;
            editor.replace(alloc, identifier, new)?;
        }
    }
    Ok(())
}

fn rename(
    alloc: Global,
    editor: &mut SyntaxEditor,
    root: &SyntaxNode,
    old: &str,
    new: &SyntaxToken,
) -> Result<()> {
    let nodes = root.descendants(alloc)?;
    replace_names(alloc, editor, &nodes, old, new)
}

fn rename_plan(
    alloc: Global,
    ids: &mut TreeIds,
    block: SyntaxNode,
    new: &SyntaxToken,
) -> Result<EditPlan> {
    let (mut editor, root) = SyntaxEditor::new(alloc, ids, block)?;
    rename(alloc, &mut editor, &root, "a", new)?;
    Ok(editor.plan(alloc)?)
}

const BLOCK: &str =
    r#"(BLOCK_EXPR L_CURLY"{" (LET_STMT LET_KW"let" WHITESPACE" " (NAME IDENT"a") WHITESPACE" " EQ"=" WHITESPACE" " (NAME_REF IDENT"b") SEMICOLON";") WHITESPACE" " (EXPR_STMT (BIN_EXPR (NAME_REF IDENT"a") PLUS"+" (NAME_REF IDENT"a")) SEMICOLON";") R_CURLY"}")"#;

fn new_name(alloc: Global, ids: &mut TreeIds) -> Result<SyntaxToken> {
    let name = read_root(alloc, ids, r#"(NAME IDENT"total")"#)?;
    identifier_of(alloc, &name)
}

/// The new text of the block, and the edits that make it.
pub(crate) fn example(alloc: Global) -> Result<String> {
    let mut ids = TreeIds::new(1);
    let new = new_name(alloc, &mut ids)?;
    let block = read_root(alloc, &mut ids, BLOCK)?;
    let plan = rename_plan(alloc, &mut ids, block, &new)?;
    text_and_edits(alloc, &mut ids, &plan)
}
