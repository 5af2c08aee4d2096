//! The reader of expressions: one step a character, or a run of them within a name or a quoted text.

ghost use Rattle.std.specs.Prelude.{ℕ, ◌≡◌, ◌≢◌, ◌<◌, ◌≤◌, ◌-◌, ◌++◌, ◌||◌, ◌==◌, [], take, length, false, true, IfOk, IfErr, OnOk, Some, string_bytes, encode_utf8};
ghost use Rattle.cst_core.specs.Green.{branch_tree, IsTooLong};
ghost use Rattle.cst_core.specs.Tree.{SyntaxTree};
ghost use Rattle.tree_text.specs.Depth.{depth};
ghost use Rattle.tree_text.specs.KindNames.{name_in, is_name_byte};
ghost use Rattle.tree_text.specs.Refusals.{IsRefused};
ghost use Rattle.tree_text.specs.inner.Nowhere.{Nowhere};
ghost use Rattle.tree_text.specs.inner.Reading.{IsLeft, IsReading, IsStuck, IsMisplaced, CannotEnd, Reads, ReadsUpTo, GoesOn};
ghost use Rattle.tree_text.specs.inner.Reading.{first_reading, is_outside, may_follow_kind, reading, unread};

use crate::error::ExpressionError;
use crate::escape::meant_by;
use crate::expected::Expected;
use crate::gaps::Gaps;
use crate::kind_names::KindNames;
use crate::last_kinds::LastKinds;
use crate::last_tokens::LastTokens;
use crate::open_nodes::OpenNodes;
use crate::runs::{name_length, plain_length};
use cst_core::{GreenElement, GreenNode, GreenToken, SyntaxKind};
use std::alloc::Global;

/// What the next character belongs to.
#[derive(Clone, Copy)]
pub(crate) enum State {
    Between,
    NodeKind,
    TokenKind,
    Text(SyntaxKind),
    /// After a backslash of a text.
    Escape(SyntaxKind),
}

/// What was read of a tree expression.
#[derive(Drop)]
pub(crate) struct Reader<'a> {
    pub(crate) alloc: Global,
    pub(crate) names: &'a KindNames,
    pub(crate) gaps: Gaps,
    pub(crate) open: OpenNodes,
    pub(crate) last_kinds: LastKinds,
    pub(crate) last_tokens: LastTokens,
    pub(crate) state: State,
    // Where the next character is.
    pub(crate) at: usize,
    // The name or the text that is being read.
    pub(crate) word: String,
    // The whole tree, once its last parenthesis was read.
    pub(crate) root: Option<GreenNode>,
}

impl<'a> Reader<'a> {
    pub(crate) fn new(alloc: Global, names: &'a KindNames, gaps: Gaps, limit: usize) -> Reader<'a>
        requires { 0 < limit }
        ensures first { reading result ≡ first_reading names.now gaps limit }
        ensures reading { IsReading (reading result) }
    {
        // For the proof: the names are names, and no two kinds have the same.
        names.are_names();
        Reader {
            alloc,
            names,
            gaps,
            open: OpenNodes::new(alloc, limit),
            last_kinds: LastKinds::new(),
            last_tokens: LastTokens::new(alloc),
            state: State::Between,
            at: 0,
            word: String::new(alloc),
            root: None,
        }
    }

    /// Reads the next character. After an error the reader is of no more use.
    pub(crate) fn step(&mut self, c: char) -> Result<(), ExpressionError>
        requires { IsReading (reading self.old) }
        ensures ok { OnOk result (Reads (reading self.old) (encode_utf8 c) (reading self.new)) }
        ensures err { IfErr result (IsStuck (reading self.old) self.old.at (encode_utf8 c)) }
    {
        match self.state {
            State::Between => self.between(c),
            State::NodeKind => self.in_node_kind(c),
            State::TokenKind => self.in_token_kind(c),
            State::Text(kind) => self.in_text(kind, c),
            State::Escape(kind) => self.in_escape(kind, c),
        }
    }

    /// Reads at once what the text begins with of the name or the quoted text that is being read. Gives what is left.
    pub(crate) fn run<'b>(&mut self, text: &'b str) -> Result<&'b str, ExpressionError>
        requires { IsReading (reading self.old) }
        ensures ok { IfOk result (λ left. ReadsUpTo (reading self.old) text.now left.now (reading self.new)) }
        ensures shorter { IfOk result (λ left. length left.now ≤ length text.now) }
        ensures err { IfErr result (IsRefused Nowhere Nowhere Nowhere ⊥) }
    {
        let count = self.run_length(text);
        if count == 0 {
            return Ok(text);
        }
        let Some((taken, left)) = text.split_at_checked(count) else {
            return Ok(text);
        };
        self.word.push_str(taken)?;
        Ok(left)
    }

    // How many bytes at the start of the text only make the word longer.
    fn run_length(&self, text: &str) -> usize
        ensures { GoesOn self.now.state (take result text.now) }
    {
        match self.state {
            State::NodeKind | State::TokenKind => name_length(text),
            State::Text(_) => plain_length(text),
            State::Between | State::Escape(_) => 0,
        }
    }

    fn between(&mut self, c: char) -> Result<(), ExpressionError>
        requires reading { IsReading (reading self.old) }
        requires state { self.old.state ≡ State.Between }
        ensures ok { OnOk result (Reads (reading self.old) (encode_utf8 c) (reading self.new)) }
        ensures err { IfErr result (IsMisplaced (reading self.old) self.old.at (encode_utf8 c)) }
    {
        if self.is_outside(c) {
            return Err(self.misses(self.expected_outside()));
        }
        match c {
            '(' => {
                self.state = State::NodeKind;
                Ok(())
            }
            ')' => self.close(),
            c if self.gaps.has(c) => Ok(()),
            c if is_name_character(c) => {
                self.state = State::TokenKind;
                self.push_to_name(c)
            }
            _ => Err(self.misses(Expected::Element)),
        }
    }

    // Outside the outermost node only its first parenthesis may stand.
    fn is_outside(&self, c: char) -> bool
        ensures { result ≡ is_outside (reading self.now) c }
    {
        self.open.is_empty() && (c != '(' || self.root.is_some())
    }

    fn in_node_kind(&mut self, c: char) -> Result<(), ExpressionError>
        requires reading { IsReading (reading self.old) }
        requires state { self.old.state ≡ State.NodeKind }
        ensures ok { OnOk result (Reads (reading self.old) (encode_utf8 c) (reading self.new)) }
        ensures err { IfErr result (IsStuck (reading self.old) self.old.at (encode_utf8 c)) }
    {
        if is_name_character(c) {
            return self.push_to_name(c);
        }
        if self.word.is_empty() {
            return Err(self.misses(Expected::KindName));
        }
        if !self.may_follow_kind(c) {
            return Err(self.misses(Expected::Element));
        }
        let at = self.word_at();
        let kind = self.take_kind()?;
        self.open.begin(self.alloc, kind, at)?;
        self.state = State::Between;
        self.between(c)
    }

    // Right behind its kind a node goes on with a gap, with the parenthesis of an element, or with its own.
    fn may_follow_kind(&self, c: char) -> bool
        ensures { result ≡ may_follow_kind self.now.gaps c }
    {
        c == '(' || c == ')' || self.gaps.has(c)
    }

    fn in_token_kind(&mut self, c: char) -> Result<(), ExpressionError>
        requires reading { IsReading (reading self.old) }
        requires state { self.old.state ≡ State.TokenKind }
        ensures ok { OnOk result (Reads (reading self.old) (encode_utf8 c) (reading self.new)) }
        ensures err { IfErr result (IsStuck (reading self.old) self.old.at (encode_utf8 c)) }
    {
        if is_name_character(c) {
            return self.push_to_name(c);
        }
        if c != '"' {
            return Err(self.misses(Expected::Text));
        }
        self.state = State::Text(self.take_kind()?);
        Ok(())
    }

    fn in_text(&mut self, kind: SyntaxKind, c: char) -> Result<(), ExpressionError>
        requires reading { IsReading (reading self.old) }
        requires state { self.old.state ≡ State.Text kind }
        ensures ok { OnOk result (Reads (reading self.old) (encode_utf8 c) (reading self.new)) }
        ensures err { IfErr result (IsMisplaced (reading self.old) self.old.at (encode_utf8 c)) }
    {
        match c {
            '"' => self.end_token(kind),
            '\\' => {
                self.state = State::Escape(kind);
                Ok(())
            }
            c => Ok(self.word.push(c)?),
        }
    }

    fn in_escape(&mut self, kind: SyntaxKind, c: char) -> Result<(), ExpressionError>
        requires reading { IsReading (reading self.old) }
        requires state { self.old.state ≡ State.Escape kind }
        ensures ok { OnOk result (Reads (reading self.old) (encode_utf8 c) (reading self.new)) }
        ensures err { IfErr result (IsMisplaced (reading self.old) self.old.at (encode_utf8 c)) }
    {
        let Some(meant) = meant_by(c) else {
            return Err(self.misses(Expected::Escape));
        };
        self.word.push(meant)?;
        self.state = State::Text(kind);
        Ok(())
    }

    fn push_to_name(&mut self, c: char) -> Result<(), ExpressionError>
        ensures ok { OnOk result
            (reading self.new ≡ record (reading self.old) { word = string_bytes self.old.word ++ encode_utf8 c }) }
        ensures err { IfErr result (IsRefused Nowhere Nowhere Nowhere ⊥) }
    {
        self.word.push(c)?;
        Ok(())
    }

    // Where the name that is being read begins.
    fn word_at(&self) -> usize
        ensures { result ≡ self.now.at - length (string_bytes self.now.word) }
    {
        self.at.saturating_sub(self.word.len())
    }

    // The kind of the name that was read.
    fn take_kind(&mut self) -> Result<SyntaxKind, ExpressionError>
        ensures named { IfOk result (λ k. name_in self.old.names.now k.0 ≡ Some (string_bytes self.old.word)) }
        ensures taken { OnOk result (reading self.new ≡ record (reading self.old) { word = [] }) }
        ensures stays { OnOk result (self.new.at ≡ self.old.at) }
        ensures unknown { IfErr result (IsRefused Nowhere (λ x. (x ≡ self.old.at - length (string_bytes self.old.word))
            × ((k : ℕ) → name_in self.old.names.now k ≢ Some (string_bytes self.old.word))) Nowhere ⊥) }
    {
        let Some(kind) = self.last_kinds.kind(self.names, &self.word) else {
            let at = self.word_at();
            return Err(ExpressionError::UnknownKind { at });
        };
        self.word.clear();
        Ok(kind)
    }

    fn end_token(&mut self, kind: SyntaxKind) -> Result<(), ExpressionError>
        requires reading { IsReading (reading self.old) }
        requires state { self.old.state ≡ State.Text kind }
        ensures ok { OnOk result (Reads (reading self.old) (encode_utf8 34) (reading self.new)) }
        ensures err { IfErr result (IsMisplaced (reading self.old) self.old.at (encode_utf8 34)) }
    {
        let token = self.last_tokens.token(self.alloc, kind, &self.word)?;
        self.word.clear();
        self.state = State::Between;
        self.open.put(GreenElement::Token(token), self.at)
    }

    fn close(&mut self) -> Result<(), ExpressionError>
        requires reading { IsReading (reading self.old) }
        requires state { self.old.state ≡ State.Between }
        requires inside { is_outside (reading self.old) 41 ≡ false }
        ensures ok { OnOk result (Reads (reading self.old) (encode_utf8 41) (reading self.new)) }
        ensures err { IfErr result (IsMisplaced (reading self.old) self.old.at (encode_utf8 41)) }
    {
        let node = self.open.end(self.alloc, self.at)?;
        if self.open.is_empty() {
            self.root = Some(node);
            return Ok(());
        }
        self.open.put(GreenElement::Node(node), self.at)
    }

    /// The tree, at the end of the text.
    pub(crate) fn finish(self) -> Result<GreenNode, ExpressionError>
        requires { IsReading (reading self) }
        ensures limited { IfOk result (λ n. depth (branch_tree n) ≤ (reading self.entry).limit) }
        ensures only { (t : SyntaxTree) → IsLeft (reading self.entry) t (unread (reading self.entry))
            → IfOk result (λ n. branch_tree n ≡ t) }
        ensures found { IfOk result (λ n. IsLeft (reading self.entry) (branch_tree n) (unread (reading self.entry))) }
        ensures err { IfErr result
            (IsRefused (λ x. (x ≡ self.entry.at) × CannotEnd (reading self.entry)) Nowhere Nowhere ⊥) }
    {
        let missing = self.misses(self.expected_at_end());
        self.root.ok_or(missing)
    }

    // What is expected where no node is open.
    fn expected_outside(&self) -> Expected {
        if self.root.is_some() {
            Expected::End
        } else {
            Expected::Node
        }
    }

    fn expected_at_end(&self) -> Expected {
        match self.state {
            State::Between if self.open.is_empty() => self.expected_outside(),
            State::NodeKind if self.word.is_empty() => Expected::KindName,
            State::Between | State::NodeKind => Expected::Element,
            State::TokenKind => Expected::Text,
            State::Text(_) => Expected::Quote,
            State::Escape(_) => Expected::Escape,
        }
    }

    // The error of a text that has something else here.
    fn misses(&self, expected: Expected) -> ExpressionError
        ensures { result ≡ ExpressionError.Malformed self.now.at expected }
    {
        let at = self.at;
        ExpressionError::Malformed { at, expected }
    }
}

fn is_name_character(c: char) -> bool
    ensures { result ≡ is_name_byte c }
{
    c.is_ascii_alphanumeric() || c == '_'
}
