//! Kinds and their names, shared trees, trees as text, also with names of kinds of one's own, and edits of texts: lists of
//! them, and the lines and columns of a text.

use crate::step::{CHANGED, Done, NoAnswer, Show, Step, gave, given, made, told, tried};
use crate::trees::{Trees, green, p, row};
use crate::words::number_of;
use crate::{elements, say};
use cst_core::{
    GreenElement, GreenElementRef, GreenNode, GreenToken, KIND_NAMES, LENGTH_LIMIT, SyntaxElement,
    SyntaxKind, SyntaxNode, TreeIds,
};
use std::alloc::Global;
use std::fmt::Display;
use text_edit::{Cursor, LineCol, LineIndex, TextEdit, TextEdits, WideEncoding, WideLineCol};
use tree_text::{
    ExpressionError, KindNames, NameError, WriteError, dump, dump_node, read_line_tree, read_root,
    read_tree, read_tree_with, write_tree, write_tree_with,
};

/// Takes the step of this name, or passes on what is none of these. A name `-` is given to no kind.
pub fn answer(trees: &mut Trees, step: &mut Step) -> Done {
    match step.name {
        "get" => get(trees, step),
        "write_tree" => write(trees, step),
        "write_named" => write_named(trees, step),
        "read_named" => read_named(step),
        "dump" => dump_one(trees, step),
        "dump_named" => dump_named(trees, step),
        "name_kind" => name_kind(step),
        "green_token" => green_token(step),
        "kind_name" => Some(name_of_kind(step)),
        "doubled" => Some(value_or_why(doubled(step), step)),
        "read_root" => Some(root(step)),
        "limit" => Some(LENGTH_LIMIT.show(step)),
        "row" => Some(value_or_why(row(step.alloc, step.rest()), step)),
        "kind_from_name" | "read" | "read_tree" | "read_line_tree" => {
            Some(of_text(&step.unquoted(), step))
        }
        "edits" => edits(trees, step),
        "listed" => Some(listed(trees.lists.last()?, step)),
        "then" => then(trees, step),
        "cursor" => cursor(trees.lists.last()?, step),
        "apply" | "inverse" | "trimmed" => on_text(trees, step),
        "line_col" | "offset" | "to_utf16" | "to_utf32" | "from_utf16" | "from_utf32" => {
            of_lines(step)
        }
        "utf16" | "utf32" => {
            let text = step.unquoted();
            Some(step.print(&encoding(step.name).measure(&text)))
        }
        _ => elements::answer(trees, step),
    }
}

fn of_text(text: &str, step: &mut Step) {
    let alloc = step.alloc;
    match step.name {
        "kind_from_name" => SyntaxKind::from_name(text).show(step),
        "read" => value_or_why(green(alloc, text), step),
        "read_tree" => read_by("read_tree", read_tree(alloc, text), step),
        _ => read_by("read_line_tree", read_line_tree(alloc, text), step),
    }
}

// The length of the tree P of a number.
fn doubled(step: &mut Step) -> Result<u64, NoAnswer> {
    Ok(p(step.alloc, step.number())?.length())
}

macro_rules! constants {
    ($($kind:ident)*) => { [$((stringify!($kind), SyntaxKind::$kind)),*] };
}

const CONSTANTS: [(&str, SyntaxKind); 65] = constants!(
    WHITESPACE COMMENT DOC_COMMENT SEMICOLON COMMA L_PAREN R_PAREN L_CURLY R_CURLY L_BRACK R_BRACK
    L_ANGLE R_ANGLE AMP POUND UNDERSCORE EQ FAT_ARROW THIN_ARROW PLUS IDENT INT_NUMBER
    LIFETIME_IDENT TRUE_KW LET_KW FN_KW USE_KW SOURCE_FILE ARG_LIST LITERAL TUPLE_EXPR BIN_EXPR
    BLOCK_EXPR STMT_LIST ITEM_LIST LET_STMT EXPR_STMT IDENT_PAT WILDCARD_PAT NAME NAME_REF MATCH_ARM
    MATCH_ARM_LIST PARAM_LIST RET_TYPE TUPLE_TYPE ATTR LIFETIME GENERIC_ARG_LIST USE CONST ENUM
    EXTERN_BLOCK EXTERN_CRATE FN IMPL MACRO_CALL MACRO_DEF MACRO_RULES MODULE STATIC STRUCT TRAIT
    TYPE_ALIAS UNION
);

// The name of the kind of a number, which leads back to the kind, is its constant's, and stands at its number in the
// table of names.
fn name_of_kind(step: &mut Step) {
    let kind = SyntaxKind(step.number());
    step.put(checked_name(kind));
}

fn checked_name(kind: SyntaxKind) -> &'static str {
    let in_table = KIND_NAMES.get(usize::from(kind.0)).copied();
    match kind.name() {
        None => in_table.unwrap_or("none"),
        name if in_table != name => "another name in the table",
        Some(name) if SyntaxKind::from_name(name) != Some(kind) => "a name that leads elsewhere",
        Some(name) if !CONSTANTS.contains(&(name, kind)) => "a name that is not its constant's",
        Some(name) => name,
    }
}

fn value_or_why<T: Show + Drop>(value: Result<T, NoAnswer>, step: &mut Step) {
    match value {
        Ok(value) => value.show(step),
        Err(NoAnswer::Row(why)) => step.put(why),
        Err(why) => step.stop(why),
    }
}

// A token of a kind by its number, and that token shared.
fn green_token(step: &mut Step) -> Done {
    let kind = SyntaxKind(step.number());
    let called = GreenToken::new(step.alloc, kind, &step.unquoted());
    let token = given("GreenToken::new", called, step)?;
    let shared = made(token.share(step.alloc), step)?;
    if shared.kind() != token.kind() || shared.text() != token.text() {
        step.stop(NoAnswer::Row("another token where it is shared"));
    }
    say!(step, "{} ", token.kind().0);
    Some(shared.show(step))
}

// In the tree, and with tree and element shared.
fn get(trees: &Trees, step: &mut Step) -> Done {
    let tree = trees.tree(step.word());
    let (tree, slots) = (step.read(tree)?, step.slots());
    Some(match tree.get(&slots) {
        Some(element) => element_and_shared(element, step),
        None => step.put("none"),
    })
}

fn element_and_shared(element: GreenElementRef, step: &mut Step) {
    element.show(step);
    let mut other = step.beside();
    if let Some(shared) = made(element.share(step.alloc), step) {
        told("GreenElement::share", shared.share(step.alloc), &mut other);
    }
    step.agree(&other);
}

fn refused(call: &'static str, error: &ExpressionError, step: &mut Step) {
    match error {
        ExpressionError::Memory => step.stop(NoAnswer::Refused(call)),
        error => say!(step, "{error}: {}", error.help()),
    }
}

fn read_by(call: &'static str, read: Result<GreenNode, ExpressionError>, step: &mut Step) {
    match read {
        Ok(tree) => tree.show(step),
        Err(error) => refused(call, &error, step),
    }
}

// Of a root its number, and of any such call the number that comes next.
fn root(step: &mut Step) {
    let mut ids = TreeIds::new(step.number());
    let before = ids.peek();
    match read_root(step.alloc, &mut ids, &step.unquoted()) {
        Ok(node) => {
            say!(step, "{} ", node.tree());
            node.as_green().show(step);
        }
        Err(error) if ids.peek() == before => refused("read_root", &error, step),
        Err(_) => step.stop(CHANGED),
    }
    step.put(", then ");
    ids.peek().show(step);
}

fn written(call: &'static str, called: Result<String, WriteError>, step: &mut Step) {
    match called {
        Ok(text) => step.quote(&text),
        Err(WriteError::Memory) => step.stop(NoAnswer::Refused(call)),
        Err(error) => step.print(&error),
    }
}

// The kind and its name of the next words.
fn names(step: &mut Step) -> Option<(SyntaxKind, KindNames)> {
    let (kind, name) = (SyntaxKind(step.number()), step.word());
    let mut names = KindNames::new(step.alloc);
    if name != "-" {
        given("KindNames::add", names.add(step.alloc, kind, name), step)?;
    }
    Some((kind, names))
}

// A node of this kind with the tree of all words that are left below it.
fn above(trees: &Trees, kind: SyntaxKind, step: &mut Step) -> Option<GreenNode> {
    let tree = trees.tree(step.rest());
    let tree = step.read(tree)?;
    let children = made(vec![in step.alloc; GreenElement::Node(tree)], step)?;
    made(GreenNode::new(step.alloc, kind, children), step)
}

fn write(trees: &Trees, step: &mut Step) -> Done {
    let tree = trees.tree(step.rest());
    let called = write_tree(step.alloc, &step.read(tree)?);
    Some(written("write_tree", called, step))
}

fn write_named(trees: &Trees, step: &mut Step) -> Done {
    let (kind, names) = names(step)?;
    let called = write_tree_with(step.alloc, &above(trees, kind, step)?, &names);
    Some(written("write_tree_with", called, step))
}

fn read_named(step: &mut Step) -> Done {
    let (_, names) = names(step)?;
    let read = read_tree_with(step.alloc, &step.unquoted(), &names);
    if let Ok(tree) = &read {
        say!(step, "{} ", tree.kind().0);
    }
    Some(read_by("read_tree_with", read, step))
}

fn dump_one(trees: &Trees, step: &mut Step) -> Done {
    let (element, names) = (trees.element(step)?, KindNames::new(step.alloc));
    Some(told("dump", dump(step.alloc, &element, &names), step))
}

// Of the node, and of it as an element.
fn dump_named(trees: &Trees, step: &mut Step) -> Done {
    let (kind, names) = names(step)?;
    let tree = above(trees, kind, step)?;
    let root = SyntaxNode::new_root(step.alloc, &mut TreeIds::new(1), tree);
    Some(dump_both(made(root, step)?, &names, step))
}

fn dump_both(node: SyntaxNode, names: &KindNames, step: &mut Step) {
    told("dump_node", dump_node(step.alloc, &node, names), step);
    let (mut other, element) = (step.beside(), SyntaxElement::from(node));
    told("dump", dump(step.alloc, &element, names), &mut other);
    step.agree(&other);
}

fn name_kind(step: &mut Step) -> Done {
    let (_, mut names) = names(step)?;
    let (kind, name) = (SyntaxKind(step.number()), step.unquoted());
    let before = names.kind(&name);
    let added = names.add(step.alloc, kind, &name);
    let after = names.kind(&name);
    Some(match added {
        Ok(()) if after == Some(kind) && names.name(kind) == Some(&name) => step.put("ok"),
        Err(NameError::Memory) if after == before => step.stop(NoAnswer::Refused("KindNames::add")),
        Err(error) if after == before => step.print(&error),
        _ => step.stop(CHANGED),
    })
}

// The edits of all words of a text, as `1-2"10"`: from where to where, and the text.
fn read(alloc: Global, words: &str) -> Result<Vec<TextEdit>, NoAnswer> {
    let mut edits = Vec::new(alloc);
    for word in words.split_whitespace() {
        edits.push(edit(alloc, word)?)?;
    }
    Ok(edits)
}

fn edit(alloc: Global, word: &str) -> Result<TextEdit, NoAnswer> {
    let (start, rest) = word.split_once('-').ok_or(NoAnswer::Arguments)?;
    let (end, text) = rest.split_once('"').ok_or(NoAnswer::Arguments)?;
    let text = text.strip_suffix('"').ok_or(NoAnswer::Arguments)?;
    let (start, end) = (number_of(start)?, number_of(end)?);
    let text = String::from_str(alloc, text)?;
    Ok(TextEdit { start, end, text })
}

fn edits(trees: &mut Trees, step: &mut Step) -> Done {
    let len = step.number();
    let edits = read(step.alloc, step.rest());
    let called = TextEdits::new(step.read(edits)?, len);
    keep(trees, called, step)
}

/// Keeps a list that a call gave, and shows each of its edits.
pub fn keep<E: Display + Drop>(
    trees: &mut Trees,
    called: Result<TextEdits, E>,
    step: &mut Step,
) -> Done {
    let edits = tried(called, step)?;
    step.put("ok");
    for edit in edits.as_slice() {
        edit.show(step);
    }
    Some(step.note(trees.lists.push(edits)))
}

impl Show for TextEdit {
    fn show(&self, step: &mut Step) {
        say!(step, " {}-{}", self.start, self.end);
        step.quote(&self.text);
    }
}

// How many edits there are, whether there is none, and each of them.
fn listed(edits: &TextEdits, step: &mut Step) {
    say!(step, "{} {}", edits.len(), edits.is_empty());
    for edit in edits.iter() {
        edit.show(step);
    }
}

// The last two lists as one, which is the last one then.
fn then(trees: &mut Trees, step: &mut Step) -> Done {
    let [.., first, next] = trees.lists.as_slice() else {
        return step.end_by(NoAnswer::Row("no two lists were made"));
    };
    let both = first.then(step.alloc, next);
    keep(trees, both, step)
}

// What the last list makes of a text; or what takes it back, or it without what it leaves as it was, which is the last
// one then.
fn on_text(trees: &mut Trees, step: &mut Step) -> Done {
    let text = step.unquoted();
    let edits = trees.lists.last()?;
    let made = match step.name {
        "inverse" => edits.inverse(step.alloc, &text),
        "trimmed" => edits.trimmed(step.alloc, &text),
        _ => return gave(tried(edits.apply(step.alloc, &text), step), step),
    };
    keep(trees, made, step)
}

fn cursor(edits: &TextEdits, step: &mut Step) -> Done {
    let (start, end) = (step.number(), step.number());
    Some(step.gave_or_none(&edits.cursor(start, end)))
}

impl Show for Cursor {
    fn show(&self, step: &mut Step) {
        say!(step, "{}:{}-{}", self.edit, self.start, self.end);
    }
}

fn encoding(name: &str) -> WideEncoding {
    match name.ends_with("16") {
        true => WideEncoding::Utf16,
        false => WideEncoding::Utf32,
    }
}

// The line and column of an offset, the offset of a line and column, or these in units and in bytes, in the text that
// stands last.
fn of_lines(step: &mut Step) -> Done {
    let line = step.number();
    let has_col = step.name != "line_col";
    let col = if has_col { step.number() } else { 0 };
    let text = step.unquoted();
    let called = LineIndex::new(step.alloc, &text);
    Some(tell_place(&given("LineIndex::new", called, step)?, line, col, step))
}

fn tell_place(index: &LineIndex, line: u64, col: u64, step: &mut Step) {
    if step.name == "offset" {
        return step.gave_or_none(&index.offset(LineCol { line, col }));
    }
    match place(index, step.name, line, col) {
        Some(place) => say!(step, "ok {} {}", place.line, place.col),
        None => step.put("none"),
    }
}

fn place(index: &LineIndex, name: &str, line: u64, col: u64) -> Option<LineCol> {
    let place = LineCol { line, col };
    match name {
        "line_col" => index.try_line_col(line),
        "to_utf16" | "to_utf32" => {
            let WideLineCol { line, col } = index.to_wide(encoding(name), place)?;
            Some(LineCol { line, col })
        }
        _ => index.to_utf8(encoding(name), WideLineCol { line, col }),
    }
}
