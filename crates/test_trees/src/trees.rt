//! The trees that rows of tests name, the elements in them, and what else steps on trees work on; and the trees that texts
//! say: row trees by their names, expressions, and trees that are long, wide, nested deep or at deep levels.

use crate::step::{NoAnswer, Step, made};
use crate::words::{first_word, number_of, slots_of};
use cst_core::{
    AstNode, GreenElement, GreenNode, GreenToken, SyntaxElement, SyntaxKind, SyntaxNode, TreeIds,
};
use edit_change::Change;
use edit_map::{SyntaxMapping, SyntaxMappingBuilder};
use std::alloc::{AllocError, Global};
use text_edit::TextEdits;

/// The trees that a table defined so far, by name, and what the steps of a row work on that need no editor: the roots
/// that they made, by name, the number that the next tree gets, and what is made of trees and texts.
#[derive(Drop)]
pub struct Trees {
    alloc: Global,
    defined: Vec<(String, GreenNode)>,
    made: Vec<(String, SyntaxNode)>,
    pub ids: TreeIds,
    pub builders: Vec<SyntaxMappingBuilder>,
    pub mappings: Vec<SyntaxMapping>,
    pub changes: Vec<Change>,
    pub lists: Vec<TextEdits>,
}

impl Trees {
    pub fn new(alloc: Global) -> Trees {
        Trees {
            alloc,
            defined: Vec::new(alloc),
            made: Vec::new(alloc),
            ids: TreeIds::new(1),
            builders: Vec::new(alloc),
            mappings: Vec::new(alloc),
            changes: Vec::new(alloc),
            lists: Vec::new(alloc),
        }
    }

    pub fn clear(&mut self) {
        self.made.clear();
        self.ids = TreeIds::new(1);
        self.builders.clear();
        self.mappings.clear();
        self.changes.clear();
        self.lists.clear();
    }

    pub fn define(&mut self, name: &str, text: &str) -> Result<(), NoAnswer> {
        let tree = read_tree(self.alloc, text)?;
        let name = String::from_str(self.alloc, name)?;
        Ok(self.defined.push((name, tree))?)
    }

    pub fn add(&mut self, name: &str, root: SyntaxNode) -> Result<(), NoAnswer> {
        let name = String::from_str(self.alloc, name)?;
        Ok(self.made.push((name, root))?)
    }

    /// The tree of this name that was defined, or else the one that `read_tree` gives.
    pub fn tree(&self, name: &str) -> Result<GreenNode, NoAnswer> {
        for (known, tree) in &self.defined {
            if known.as_str() == name {
                return Ok(tree.share(self.alloc)?);
            }
        }
        read_tree(self.alloc, name)
    }

    // The root of a tree, as `L` or with its number as `1:L`. Without a number it has the number 7.
    fn root_of(&self, tree: &str) -> Result<SyntaxNode, NoAnswer> {
        let (number, name) = tree.split_once(':').unwrap_or(("7", tree));
        let mut ids = TreeIds::new(number_of(number)?);
        Ok(SyntaxNode::new_root(self.alloc, &mut ids, self.tree(name)?)?)
    }

    // What a reference leads to: `R/1/0` is an element below the root R that a step made, or of a tree of the table, of
    // a source of its own.
    fn at(&self, reference: &str) -> Result<SyntaxElement, NoAnswer> {
        let (name, path) = reference.split_once('/').unwrap_or((reference, "."));
        for (made, root) in &self.made {
            if made.as_str() == name {
                return element_in(self.alloc, root, path);
            }
        }
        element_in(self.alloc, &self.root_of(name)?, path)
    }

    fn node_at(&self, reference: &str) -> Result<SyntaxNode, NoAnswer> {
        let node = self.at(reference)?.into_node();
        node.ok_or(NoAnswer::Row("a token stands where a node was asked for"))
    }

    pub fn element(&self, step: &mut Step) -> Option<SyntaxElement> {
        let found = self.at(step.word());
        step.read(found)
    }

    pub fn node(&self, step: &mut Step) -> Option<SyntaxNode> {
        let found = self.node_at(step.word());
        step.read(found)
    }

    pub fn elements(&self, text: &str) -> Result<Vec<SyntaxElement>, NoAnswer> {
        let mut elements = Vec::new(self.alloc);
        for word in text.split_whitespace() {
            elements.push(self.at(word)?)?;
        }
        Ok(elements)
    }

    /// The elements of all words that are left.
    pub fn others(&self, step: &mut Step) -> Option<Vec<SyntaxElement>> {
        let found = self.elements(step.rest());
        step.read(found)
    }

    pub fn nodes(&self, text: &str) -> Result<Vec<SyntaxNode>, NoAnswer> {
        let mut nodes = Vec::new(self.alloc);
        for word in text.split_whitespace() {
            nodes.push(self.node_at(word)?)?;
        }
        Ok(nodes)
    }

    pub fn greens(&self, step: &mut Step) -> Option<Vec<GreenElement>> {
        let mut greens = Vec::new(self.alloc);
        for element in &self.others(step)? {
            let green = made(element.green(self.alloc), step)?;
            step.note(greens.push(green));
        }
        Some(greens)
    }

    pub fn two_nodes(&self, step: &mut Step) -> Option<(SyntaxNode, SyntaxNode)> {
        self.node(step).zip(self.node(step))
    }

    pub fn two_elements(&self, step: &mut Step) -> Option<(SyntaxElement, SyntaxElement)> {
        self.element(step).zip(self.element(step))
    }

    pub fn typed<T: AstNode>(&self, step: &mut Step) -> Option<T> {
        T::cast(self.node(step)?)
    }
}

fn element_in(alloc: Global, root: &SyntaxNode, path: &str) -> Result<SyntaxElement, NoAnswer> {
    root.element_at(alloc, &slots_of(alloc, path)?)?
        .ok_or(NoAnswer::Row("no element stands there"))
}

// A line for each: its name and its expression.
const ROWS: &str =
    r##"L (ARG_LIST L_PAREN"(" (LITERAL INT_NUMBER"1") COMMA"," WHITESPACE" " (LITERAL INT_NUMBER"2") R_PAREN")")
U (SOURCE_FILE UNDERSCORE"_")
X (SOURCE_FILE IDENT"x")
Y (SOURCE_FILE IDENT"y")
A3 (LITERAL INT_NUMBER"3")
V (TUPLE_EXPR L_PAREN"(" R_PAREN")")
S1 (LET_STMT LET_KW"let" WHITESPACE" " (IDENT_PAT (NAME IDENT"first")) WHITESPACE" " EQ"=" WHITESPACE" " (LITERAL INT_NUMBER"1") SEMICOLON";")
S2 (LET_STMT LET_KW"let" WHITESPACE" " (IDENT_PAT (NAME IDENT"second")) WHITESPACE" " EQ"=" WHITESPACE" " (LITERAL INT_NUMBER"2") SEMICOLON";")
S3 (LET_STMT LET_KW"let" WHITESPACE" " (IDENT_PAT (NAME IDENT"third")) WHITESPACE" " EQ"=" WHITESPACE" " (LITERAL INT_NUMBER"3") SEMICOLON";")
B (BLOCK_EXPR (STMT_LIST L_CURLY"{" WHITESPACE"\n    " (LET_STMT LET_KW"let" WHITESPACE" " (IDENT_PAT (NAME IDENT"second")) WHITESPACE" " EQ"=" WHITESPACE" " (LITERAL INT_NUMBER"2") SEMICOLON";") WHITESPACE"\n" R_CURLY"}"))
BB (BLOCK_EXPR (STMT_LIST L_CURLY"{" WHITESPACE"\n    " (BLOCK_EXPR (STMT_LIST L_CURLY"{" WHITESPACE"\n    " (LET_STMT LET_KW"let" WHITESPACE" " (IDENT_PAT (NAME IDENT"second")) WHITESPACE" " EQ"=" WHITESPACE" " (LITERAL INT_NUMBER"2") SEMICOLON";") WHITESPACE"\n" R_CURLY"}")) WHITESPACE"\n" R_CURLY"}"))
BBB (BLOCK_EXPR (STMT_LIST L_CURLY"{" WHITESPACE"\n    " (BLOCK_EXPR (STMT_LIST L_CURLY"{" WHITESPACE"\n    " (BLOCK_EXPR (STMT_LIST L_CURLY"{" WHITESPACE"\n    " (LET_STMT LET_KW"let" WHITESPACE" " (IDENT_PAT (NAME IDENT"second")) WHITESPACE" " EQ"=" WHITESPACE" " (LITERAL INT_NUMBER"2") SEMICOLON";") WHITESPACE"\n" R_CURLY"}")) WHITESPACE"\n" R_CURLY"}")) WHITESPACE"\n" R_CURLY"}"))
D (BIN_EXPR (LITERAL INT_NUMBER"2") WHITESPACE" " PLUS"+" WHITESPACE" " (LITERAL INT_NUMBER"2"))
Q (TUPLE_EXPR L_PAREN"(" (BIN_EXPR (LITERAL INT_NUMBER"2") WHITESPACE" " PLUS"+" WHITESPACE" " (LITERAL INT_NUMBER"2")) COMMA"," WHITESPACE" " (LITERAL TRUE_KW"true") R_PAREN")")
M (MATCH_ARM (WILDCARD_PAT UNDERSCORE"_") WHITESPACE" " FAT_ARROW"=>" WHITESPACE" " (TUPLE_EXPR L_PAREN"(" (BIN_EXPR (LITERAL INT_NUMBER"2") WHITESPACE" " PLUS"+" WHITESPACE" " (LITERAL INT_NUMBER"2")) COMMA"," WHITESPACE" " (LITERAL TRUE_KW"true") R_PAREN")") COMMA",")
NM (NAME IDENT"var_name")
NR (NAME_REF IDENT"var_name")
W (BLOCK_EXPR (STMT_LIST L_CURLY"{" WHITESPACE"\n    " (LET_STMT LET_KW"let" WHITESPACE" " (IDENT_PAT (NAME IDENT"var_name")) WHITESPACE" " EQ"=" WHITESPACE" " (BIN_EXPR (LITERAL INT_NUMBER"2") WHITESPACE" " PLUS"+" WHITESPACE" " (LITERAL INT_NUMBER"2")) SEMICOLON";") WHITESPACE"\n    " (TUPLE_EXPR L_PAREN"(" (BIN_EXPR (LITERAL INT_NUMBER"2") WHITESPACE" " PLUS"+" WHITESPACE" " (LITERAL INT_NUMBER"2")) COMMA"," WHITESPACE" " (LITERAL TRUE_KW"true") R_PAREN")") WHITESPACE"\n" R_CURLY"}"))
E (ARG_LIST L_PAREN"(" (ATTR) R_PAREN")")
F (FN FN_KW"fn" WHITESPACE" " (NAME IDENT"it") (PARAM_LIST L_PAREN"(" R_PAREN")") WHITESPACE" " (RET_TYPE THIN_ARROW"->" WHITESPACE" " (TUPLE_TYPE L_PAREN"(" R_PAREN")")) WHITESPACE" " (BLOCK_EXPR (STMT_LIST L_CURLY"{" WHITESPACE"\n    " (TUPLE_EXPR L_PAREN"(" R_PAREN")") WHITESPACE"\n" R_CURLY"}")))
AR (MATCH_ARM (WILDCARD_PAT UNDERSCORE"_") WHITESPACE" " FAT_ARROW"=>" WHITESPACE" " (TUPLE_EXPR L_PAREN"(" R_PAREN")") COMMA",")
K (MATCH_ARM_LIST L_CURLY"{" WHITESPACE"\n    " (MATCH_ARM (WILDCARD_PAT UNDERSCORE"_") WHITESPACE" " FAT_ARROW"=>" WHITESPACE" " (TUPLE_EXPR L_PAREN"(" R_PAREN")") COMMA",") WHITESPACE"\n    " (MATCH_ARM (WILDCARD_PAT UNDERSCORE"_") WHITESPACE" " FAT_ARROW"=>" WHITESPACE" " (TUPLE_EXPR L_PAREN"(" R_PAREN")") COMMA",") WHITESPACE"\n" R_CURLY"}")
J (ITEM_LIST L_CURLY"{" R_CURLY"}")
G (USE USE_KW"use")
H (FN (ATTR POUND"#" L_BRACK"[" IDENT"a" R_BRACK"]") WHITESPACE"\n" COMMENT"// c" WHITESPACE"\n" FN_KW"fn" WHITESPACE" " (NAME IDENT"f") (PARAM_LIST L_PAREN"(" R_PAREN")") WHITESPACE" " (BLOCK_EXPR (STMT_LIST L_CURLY"{" R_CURLY"}")))"##;

pub fn green(alloc: Global, expression: &str) -> Result<GreenNode, NoAnswer> {
    Ok(tree_text::read_tree(alloc, expression)?)
}

/// The row tree of this name: L, U, X, Y, A3, V, S1, S2, S3, B, BB, BBB, D, Q, M, NM, NR, W, E, F, AR, K, J, G or H.
pub fn row(alloc: Global, name: &str) -> Result<GreenNode, NoAnswer> {
    for line in ROWS.lines() {
        let (known, expression) = first_word(line);
        if known == name {
            return green(alloc, expression);
        }
    }
    Err(NoAnswer::Row("UnknownRow"))
}

/// The tree that a text says: a name or an expression, `long BYTES TREE`, `deep LEVEL TREE`, `wide COUNT TREE`,
/// `nested NESTING DEPTH TREE` or `blank SPACES`.
pub fn read_tree(alloc: Global, text: &str) -> Result<GreenNode, NoAnswer> {
    let (form, words) = first_word(text);
    match form {
        "long" | "deep" | "wide" => large_tree(alloc, form, words),
        "nested" => {
            let (nesting, words) = first_word(words);
            large_tree(alloc, nesting, words)
        }
        "blank" => blank(alloc, number_of(words)?),
        _ => short_tree(alloc, text),
    }
}

fn large_tree(alloc: Global, form: &str, words: &str) -> Result<GreenNode, NoAnswer> {
    let (count, tree) = first_word(words);
    let (count, tree) = (number_of(count)?, short_tree(alloc, tree)?);
    match form {
        "long" => fill(alloc, count, &tree),
        "deep" => at_level(alloc, count, tree),
        "wide" => many(alloc, count, tree),
        nesting => nest(alloc, nesting, count, tree),
    }
}

// An expression, or the name of a row tree or of one that holds P_31 often: P, of 2^32 - 1 bytes, or P_31 n times.
fn short_tree(alloc: Global, text: &str) -> Result<GreenNode, NoAnswer> {
    match text {
        "P" => p_file(alloc),
        "P31x1" => capped_halves(alloc, 1),
        "P31x2" => capped_halves(alloc, 2),
        "P31x3" => capped_halves(alloc, 3),
        _ if text.starts_with('(') => green(alloc, text),
        _ => row(alloc, text),
    }
}

// No token of letters is longer.
const LONGEST: u64 = 65_536;

/// The tree P_k, of `2^k` bytes: P_0 is the token `a`, and each next one a LITERAL that holds the one before it twice.
/// `TooLong` from 32 on.
pub fn p(alloc: Global, k: usize) -> Result<GreenElement, NoAnswer> {
    let mut tree = token(alloc, SyntaxKind::IDENT, "a")?;
    for _ in 0..k {
        let children = copies(alloc, &tree, 2)?;
        tree = GreenElement::Node(GreenNode::new(alloc, SyntaxKind::LITERAL, children)?);
    }
    Ok(tree)
}

// The tree P, of `2^32 - 1` bytes: a SOURCE_FILE with the children P_31, P_30, .., P_1, P_0.
fn p_file(alloc: Global) -> Result<GreenNode, NoAnswer> {
    let mut children = Vec::new(alloc);
    for k in (0..32).rev() {
        children.push(p(alloc, k)?)?;
    }
    Ok(GreenNode::new(alloc, SyntaxKind::SOURCE_FILE, children)?)
}

// A LITERAL that holds P_31 this many times, whatever its length.
fn capped_halves(alloc: Global, count: u64) -> Result<GreenNode, NoAnswer> {
    let halves = copies(alloc, &p(alloc, 31)?, count)?;
    Ok(GreenNode::capped(alloc, SyntaxKind::LITERAL, halves)?)
}

fn many(alloc: Global, count: u64, node: GreenNode) -> Result<GreenNode, NoAnswer> {
    let children = copies(alloc, &GreenElement::Node(node), count)?;
    Ok(GreenNode::new(alloc, SyntaxKind::SOURCE_FILE, children)?)
}

fn copies(alloc: Global, tree: &GreenElement, count: u64) -> Result<Vec<GreenElement>, AllocError> {
    let mut children = Vec::new(alloc);
    for _ in 0..count {
        children.push(tree.share(alloc)?)?;
    }
    Ok(children)
}

fn token(alloc: Global, kind: SyntaxKind, text: &str) -> Result<GreenElement, NoAnswer> {
    Ok(GreenElement::Token(GreenToken::new(alloc, kind, text)?))
}

// The node with letters after its children, so that its text has n bytes.
fn fill(alloc: Global, bytes: u64, node: &GreenNode) -> Result<GreenNode, NoAnswer> {
    let missing = bytes.checked_sub(node.length()).ok_or(NoAnswer::Arguments)?;
    let (end, letters) = (node.children().len(), letters(alloc, missing)?);
    Ok(node.splice_children(alloc, end, end, letters)?)
}

// Elements with n letters in all, of the powers of two that the number is the sum of.
fn letters(alloc: Global, mut rest: u64) -> Result<Vec<GreenElement>, NoAnswer> {
    let mut all = Vec::new(alloc);
    let mut power = token(alloc, SyntaxKind::IDENT, "a")?;
    for _ in 0..40 {
        if rest % 2 == 1 {
            all.push(power.share(alloc)?)?;
        }
        rest /= 2;
        power = double(alloc, &power)?;
    }
    Ok(all)
}

// An element with twice the text: a token, or a node that holds the element two times.
fn double(alloc: Global, element: &GreenElement) -> Result<GreenElement, NoAnswer> {
    if let GreenElement::Token(short) = element {
        if short.length() < LONGEST {
            let text = format!(in alloc; "{}{}", short.text(), short.text())?;
            return token(alloc, SyntaxKind::IDENT, &text);
        }
    }
    let children = copies(alloc, element, 2)?;
    Ok(GreenElement::Node(GreenNode::capped(alloc, SyntaxKind::LITERAL, children)?))
}

fn at_level(alloc: Global, level: u64, node: GreenNode) -> Result<GreenNode, NoAnswer> {
    let children = vec![in alloc; line_of(alloc, level, "    ")?, GreenElement::Node(node)]?;
    Ok(GreenNode::new(alloc, SyntaxKind::SOURCE_FILE, children)?)
}

fn blank(alloc: Global, spaces: u64) -> Result<GreenNode, NoAnswer> {
    let children = vec![in alloc; line_of(alloc, spaces, " ")?]?;
    Ok(GreenNode::new(alloc, SyntaxKind::STMT_LIST, children)?)
}

fn line_of(alloc: Global, count: u64, part: &str) -> Result<GreenElement, NoAnswer> {
    let mut text = String::from_str(alloc, "\n")?;
    for _ in 0..count {
        text.push_str(part)?;
    }
    token(alloc, SyntaxKind::WHITESPACE, &text)
}

// The node in so many blocks, each in the next one. Beside it a block has no token (`bare`), one after it (`left`, as in
// `1}}}`), one before it (`right`), or both (`brackets`).
fn nest(alloc: Global, form: &str, depth: u64, node: GreenNode) -> Result<GreenNode, NoAnswer> {
    let (block, slot) = match form {
        "bare" => ("(BLOCK_EXPR)", 0),
        "left" => (r#"(BLOCK_EXPR R_CURLY"}")"#, 0),
        "right" => (r#"(BLOCK_EXPR L_CURLY"{")"#, 1),
        "brackets" => (r#"(BLOCK_EXPR L_CURLY"{" R_CURLY"}")"#, 1),
        _ => return Err(NoAnswer::Arguments),
    };
    let block = green(alloc, block)?;
    let slot = block.children().len().min(slot);
    let mut outer = node;
    for _ in 0..depth {
        let inner = vec![in alloc; GreenElement::Node(outer)]?;
        outer = block.splice_children(alloc, slot, slot, inner)?;
    }
    Ok(outer)
}
