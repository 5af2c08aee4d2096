//! A step of a row: the words that are left of it, and what it answers, as far as that is written, or why there is no
//! answer; and the ways in which answers show values.

use crate::words::{first_word, number_of, push_path, push_quoted, slots_of, unquote};
use cst_core::{
    GreenElement, GreenElementRef, GreenNode, GreenToken, SyntaxElement, SyntaxKind, SyntaxNode,
    SyntaxToken, TokenAtOffset, TreeError,
};
use std::alloc::{AllocError, AllocFailed, Global};
use std::fmt::Display;
use std::str::FromStr;
use tree_text::ExpressionError;

/// A step is taken, and its answer is written; or it ends early, because what it works on is not there, or as it notes.
pub type Done = Option<()>;

pub const CHANGED: NoAnswer = NoAnswer::Row("the refused call changed what it works on");

/// In the place of a call's name, that of the step.
pub const STEP: &str = "the call";

// Texts of nodes up to this length are shown, and those of shared trees.
const SHOWN: u64 = 60;

const SHOWN_OF_TREES: u64 = 200;

/// Writes more of an answer.
#[macro_export]
macro_rules! say {
    ($step:ident, $($written:tt)*) => {{
        let written = write!($step.text, $($written)*);
        $step.note(written);
    }};
}

/// Why a row of a table has no answer, or which refusal is its answer.
#[derive(Clone, Copy)]
pub enum NoAnswer {
    /// The row asks for what is not there: this.
    Row(&'static str),
    /// There are too few words, too many, or one that means nothing there.
    Arguments,
    /// It was refused to what asks, and to no call that is asked about.
    Memory,
    /// The call that is asked about is refused, and its refusal is written. If memory is there, that is the answer.
    Refusal,
    /// The call of this name is asked about, and was refused for want of memory.
    Refused(&'static str),
}

impl NoAnswer {
    pub fn why(self) -> &'static str {
        match self {
            NoAnswer::Row(why) | NoAnswer::Refused(why) => why,
            NoAnswer::Arguments =>
                "there are too few words, too many, or one that means nothing there",
            NoAnswer::Memory => "Memory",
            NoAnswer::Refusal => "a call is refused",
        }
    }
}

impl From<TreeError> for NoAnswer {
    fn from(error: TreeError) -> NoAnswer {
        match error {
            TreeError::TooLong => NoAnswer::Row("TooLong"),
            TreeError::NoTreeNumber => NoAnswer::Row("NoTreeNumber"),
            TreeError::Memory => NoAnswer::Memory,
        }
    }
}

impl From<ExpressionError> for NoAnswer {
    fn from(error: ExpressionError) -> NoAnswer {
        match error {
            ExpressionError::Malformed { .. } => NoAnswer::Row("Malformed"),
            ExpressionError::UnknownKind { .. } => NoAnswer::Row("UnknownKind"),
            ExpressionError::TooDeep { .. } => NoAnswer::Row("TooDeep"),
            ExpressionError::Tree(error) => NoAnswer::from(error),
            ExpressionError::Memory => NoAnswer::Memory,
        }
    }
}

impl From<AllocError> for NoAnswer {
    fn from(_: AllocError) -> NoAnswer {
        NoAnswer::Memory
    }
}

impl<T: Drop> From<AllocFailed<T>> for NoAnswer {
    fn from(_: AllocFailed<T>) -> NoAnswer {
        NoAnswer::Memory
    }
}

/// A step. What reads a word or a number gives an empty one where it is not there, and what writes gives nothing: the
/// step notes the first reason for which its answer is not whole, and the row asks for it at the end.
#[derive(Drop)]
pub struct Step<'a> {
    pub alloc: Global,
    pub name: &'a str,
    // What is left of its words, any number of spaces between them.
    words: &'a str,
    /// The answer.
    pub text: String,
    /// The number of the tree that each element is of which is shown by its path and kind.
    pub tree: u64,
    /// Why the answer is not whole, if it is not, or that it is the refusal of a call.
    pub end: Option<NoAnswer>,
    /// A call that was refused because memory ran out, and was made once more.
    pub refused: Option<&'static str>,
}

pub fn kind_name(kind: SyntaxKind) -> &'static str {
    kind.name().unwrap_or("no name")
}

/// What a call gave. If it is refused, what the refusal prints is the answer.
pub fn tried<T, E: Display + Drop>(called: Result<T, E>, step: &mut Step) -> Option<T> {
    match called {
        Ok(given) => Some(given),
        Err(refusal) => {
            step.refuse(&refusal);
            None
        }
    }
}

// What a call gave, or else it ends for this reason.
fn or_stop<T, E: Drop>(called: Result<T, E>, why: NoAnswer, step: &mut Step) -> Option<T> {
    let Ok(value) = called else {
        step.stop(why);
        return None;
    };
    Some(value)
}

/// What was made, unless memory ran out.
pub fn made<T, E: Drop>(made: Result<T, E>, step: &mut Step) -> Option<T> {
    or_stop(made, NoAnswer::Memory, step)
}

/// What a call gave that may be refused because memory ran out, by its name in the sources.
pub fn given<T, E: Drop>(call: &'static str, called: Result<T, E>, step: &mut Step) -> Option<T> {
    or_stop(called, NoAnswer::Refused(call), step)
}

/// The same of the call that the step is.
pub fn granted<T, E: Drop>(called: Result<T, E>, step: &mut Step) -> Option<T> {
    given(STEP, called, step)
}

/// Answers what a call gave, unless it was refused.
pub fn gave<T: Show + Drop>(given: Option<T>, step: &mut Step) -> Done {
    Some(step.gave(&given?))
}

/// Shows what such a call gave, after what others gave.
pub fn told<T: Show + Drop, E: Drop>(call: &'static str, called: Result<T, E>, step: &mut Step) {
    step.between(" | ");
    if let Some(given) = given(call, called, step) {
        given.show(step);
    }
}

impl<'a> Step<'a> {
    /// One of this name, in these words, about elements of the tree with this number.
    pub fn of(alloc: Global, name: &'a str, words: &'a str, tree: u64) -> Step<'a> {
        Step {
            alloc,
            name,
            words: words.trim_start_matches(' '),
            text: String::new(alloc),
            tree,
            end: None,
            refused: None,
        }
    }

    /// Another one about elements of the same tree, in the same words.
    pub fn beside(&self) -> Step<'a> {
        Step::of(self.alloc, self.name, self.words, self.tree)
    }

    pub fn has_words(&self) -> bool {
        !self.words.is_empty()
    }

    /// The next word, or an empty one, which must not be.
    pub fn word(&mut self) -> &'a str {
        let (word, words) = first_word(self.words);
        self.words = words.trim_start_matches(' ');
        if word.is_empty() {
            self.stop(NoAnswer::Arguments);
        }
        word
    }

    pub fn word_or(&mut self, other: &'static str) -> &'a str {
        if self.has_words() { self.word() } else { other }
    }

    pub fn number<T: FromStr + Default>(&mut self) -> T
    where
        T::Err: Drop,
    {
        let read = number_of(self.word());
        self.read(read).unwrap_or_default()
    }

    pub fn kind(&mut self) -> SyntaxKind {
        let kind = SyntaxKind::from_name(self.word()).ok_or(NoAnswer::Arguments);
        self.read(kind).unwrap_or(SyntaxKind::NAME)
    }

    pub fn slots(&mut self) -> Vec<usize> {
        let read = slots_of(self.alloc, self.word());
        self.read(read).unwrap_or(Vec::new(self.alloc))
    }

    pub fn rest(&mut self) -> &'a str {
        let rest = self.words;
        self.words = "";
        rest
    }

    /// What stands before a word and after it in all that is left.
    pub fn rest_around(&mut self, word: &str) -> (&'a str, &'a str) {
        let parts = self.rest().split_once(word);
        if parts.is_none() {
            self.stop(NoAnswer::Arguments);
        }
        parts.unwrap_or(("", ""))
    }

    /// What the text between quotes that is left stands for.
    pub fn unquoted(&mut self) -> String {
        let read = unquote(self.alloc, self.rest());
        self.read(read).unwrap_or(String::new(self.alloc))
    }

    /// It ends early, for this reason or for one before it.
    pub fn stop(&mut self, why: NoAnswer) {
        if self.end.is_none() {
            self.end = Some(why);
        }
    }

    pub fn end_by(&mut self, why: NoAnswer) -> Done {
        self.stop(why);
        None
    }

    pub fn demand(&mut self, holds: bool, why: NoAnswer) -> Done {
        if holds { Some(()) } else { self.end_by(why) }
    }

    /// What was read, or the reason for which it was not.
    pub fn read<T>(&mut self, read: Result<T, NoAnswer>) -> Option<T> {
        match read {
            Ok(value) => Some(value),
            Err(why) => {
                self.stop(why);
                None
            }
        }
    }

    /// Something was written or kept, unless memory ran out.
    pub fn note<E: Drop>(&mut self, done: Result<(), E>) {
        if done.is_err() {
            self.stop(NoAnswer::Memory);
        }
    }

    /// What a refusal prints is the answer.
    pub fn refuse<E: Display>(&mut self, refusal: &E) {
        self.text.clear();
        self.print(refusal);
        self.stop(NoAnswer::Refusal);
    }

    pub fn put(&mut self, text: &str) {
        let written = self.text.push_str(text);
        self.note(written);
    }

    /// A text before something else, unless that comes first.
    pub fn between(&mut self, text: &str) {
        if !self.text.is_empty() {
            self.put(text);
        }
    }

    pub fn gave<T: Show>(&mut self, given: &T) {
        self.put("ok ");
        given.show(self);
    }

    pub fn gave_or_none<T: Show>(&mut self, given: &Option<T>) {
        match given {
            Some(given) => self.gave(given),
            None => self.put("none"),
        }
    }

    pub fn truth(&mut self, holds: bool) {
        self.put(if holds { "true" } else { "false" });
    }

    /// Another way to get the answer has to give the same one.
    pub fn agree(&mut self, other: &Step) {
        if let Some(why) = other.end {
            self.stop(why);
        }
        if self.text != other.text {
            self.put("; another way ");
            self.put(&other.text);
        }
    }

    pub fn print<T: Display>(&mut self, value: &T) {
        say!(self, "{value}");
    }

    /// A path, as `1/0`; that of a root is `.`.
    pub fn path(&mut self, slots: &[usize]) {
        let written = push_path(&mut self.text, slots);
        self.note(written);
    }

    pub fn quote(&mut self, text: &str) {
        let written = push_quoted(&mut self.text, text);
        self.note(written);
    }

    pub fn made_text(&mut self, made: Result<String, AllocError>) {
        if let Some(text) = or_stop(made, NoAnswer::Memory, self) {
            self.quote(&text);
        }
    }

    pub fn paths(&mut self, elements: &[SyntaxElement]) {
        for element in elements {
            self.next_path(element);
        }
        self.none_if_empty();
    }

    /// One more path, after a space.
    pub fn next_path(&mut self, element: &SyntaxElement) {
        self.between(" ");
        self.path(element.slots());
    }

    pub fn none_if_empty(&mut self) {
        if self.text.is_empty() {
            self.put("none");
        }
    }

    /// Path and kind of an element, which must be of the tree of this answer.
    pub fn place(&mut self, tree: u64, slots: &[usize], kind: SyntaxKind) {
        if tree != self.tree {
            self.stop(NoAnswer::Row("another tree"));
        }
        self.path(slots);
        self.put(" ");
        self.put(kind_name(kind));
    }

    /// A call gave a node: its text, or the length of a long one, and the number of its tree.
    pub fn root(&mut self, node: &SyntaxNode) {
        self.put("ok ");
        if node.text_len() > SHOWN {
            say!(self, "{} bytes", node.text_len());
        } else {
            self.made_text(node.text(self.alloc));
        }
        say!(self, " of {}", node.tree());
    }

    pub fn root_at(&mut self, node: &SyntaxNode) {
        self.root(node);
        self.put(" at ");
        self.path(node.slots());
    }
}

/// What is shown in one way, wherever it stands.
pub trait Show {
    fn show(&self, step: &mut Step);
}

impl Show for u64 {
    fn show(&self, step: &mut Step) {
        step.print(self);
    }
}

impl Show for usize {
    fn show(&self, step: &mut Step) {
        step.print(self);
    }
}

impl Show for SyntaxKind {
    fn show(&self, step: &mut Step) {
        step.print(&self.0);
    }
}

impl<T: Show> Show for Option<T> {
    fn show(&self, step: &mut Step) {
        match self {
            Some(given) => given.show(step),
            None => step.put("none"),
        }
    }
}

impl<T: Show> Show for Vec<T> {
    fn show(&self, step: &mut Step) {
        let mut comma = "";
        for item in self {
            step.put(comma);
            item.show(step);
            comma = ", ";
        }
        step.put(if comma.is_empty() { "none" } else { "" });
    }
}

impl Show for String {
    fn show(&self, step: &mut Step) {
        step.quote(self);
    }
}

impl Show for SyntaxElement {
    fn show(&self, step: &mut Step) {
        step.place(self.tree(), self.slots(), self.kind());
    }
}

impl Show for SyntaxNode {
    fn show(&self, step: &mut Step) {
        step.place(self.tree(), self.slots(), self.kind());
    }
}

impl Show for SyntaxToken {
    fn show(&self, step: &mut Step) {
        step.place(self.tree(), self.slots(), self.kind());
    }
}

impl Show for TokenAtOffset {
    fn show(&self, step: &mut Step) {
        match self {
            TokenAtOffset::None => step.put("none"),
            TokenAtOffset::Single(token) => token.show(step),
            TokenAtOffset::Between(left, right) => {
                left.show(step);
                step.put(", ");
                right.show(step);
            }
        }
    }
}

impl Show for GreenNode {
    fn show(&self, step: &mut Step) {
        let (name, count) = (kind_name(self.kind()), self.children().len());
        say!(step, "{name} of {count}, {} bytes", self.length());
        if self.length() <= SHOWN_OF_TREES {
            step.put(" ");
            let text = self.to_string(step.alloc);
            step.made_text(text);
        }
    }
}

impl Show for GreenToken {
    fn show(&self, step: &mut Step) {
        say!(step, "{}, {} bytes ", kind_name(self.kind()), self.length());
        step.quote(self.text());
    }
}

impl Show for GreenElement {
    fn show(&self, step: &mut Step) {
        self.as_ref().show(step);
    }
}

impl<'a> Show for GreenElementRef<'a> {
    fn show(&self, step: &mut Step) {
        match self {
            GreenElementRef::Node(node) => node.show(step),
            GreenElementRef::Token(token) => token.show(step),
        }
    }
}
