//! The fields of a line, with spaces between them.
ghost use Rattle.std.specs.Prelude.{◌≡◌, ◌≢◌, ℕ, List, [], ◌∷◌, true, false};
ghost use Rattle.std.specs.Prelude.{IfErr, IfOk, IfSome, IsNone, MatchOption, OnErr, OnOk, codes};
ghost use Rattle.std.specs.List.{AllByRecursion};
ghost use Rattle.script_lines.specs.Line.{Each, IsNumber, IsRef, fields, no_command, words};
ghost use Rattle.script_lines.specs.LineValue.{ref_of, refs_of, texts_of};
ghost use Rattle.script_lines.specs.Refusals.{Refuses};
ghost use Rattle.cst_core.specs.SyntaxKind.{SyntaxKind};
ghost use Rattle.script_lines.specs.declared.detail.Detail.{Detail};
ghost use Rattle.script_lines.specs.inner.Taken.{AreRoundBar, Begins, IsDetail, IsFirstBar, IsKindName, IsLast, IsNamed, IsTaken};
ghost use Rattle.script_lines.specs.inner.Word.{IsFirstWord, IsLeft, IsSpread};

use crate::detail::Detail;
use crate::error::LineError;
use crate::fault::{Fault, Wanted};
use crate::name::Name;
use crate::reference::{Reference, read_number};
use crate::spaces::{cut_at_space, without_first_spaces, without_last_spaces};
use cst_core::SyntaxKind;
use std::alloc::{AllocError, Global};
use tree_text::KindNames;

/// A field, and where it begins in its line, in bytes from 0.
#[derive(Clone, Copy)]
pub struct Field<'a> {
    pub text: &'a str,
    pub at: usize,
}

/// What is left of a line.
#[derive(Drop)]
pub(crate) struct Fields<'a> {
    // Without the spaces at its end.
    line: &'a str,
    // It may begin with spaces.
    rest: &'a str,
}

impl<'a> Fields<'a> {
    /// The fields of a line: one carriage return at its end is dropped, and then spaces at both ends.
    pub(crate) fn of_line(text: &'a str) -> Fields<'a>
        ensures spread { IsSpread text.now result.rest.now }
        ensures fields { words result.rest.now ≡ fields text.now }
    {
        let text = text.strip_suffix('\r').unwrap_or(text);
        let line = without_last_spaces(text);
        Fields { line, rest: line }
    }

    // From the first field that is left on.
    fn left(&self) -> &'a str
        ensures { IsLeft self.now.rest.now result.now }
    {
        without_first_spaces(self.rest)
    }

    // Where the text that is left begins in the line, in bytes from 0.
    fn at(&self, left: &str) -> usize {
        self.line.len().saturating_sub(left.len())
    }

    /// The first field, if there is one and it begins no comment.
    pub(crate) fn word(&mut self) -> Option<Field<'a>>
        ensures blank { MatchOption result (no_command (words self.old.rest.now) ≡ true)
            (λ f. no_command (words self.old.rest.now) ≡ false) }
        ensures text { IfSome result (λ f. IsFirstWord self.old.rest.now f.text.now self.new.rest.now) }
        ensures words { IfSome result (λ f. words self.old.rest.now ≡ f.text.now ∷ words self.new.rest.now) }
    {
        let word = self.next()?;
        if word.text.starts_with('#') {
            None
        } else {
            Some(word)
        }
    }

    fn next(&mut self) -> Option<Field<'a>>
        ensures text { IfSome result (λ f. IsFirstWord self.old.rest.now f.text.now self.new.rest.now) }
        ensures words { MatchOption result (words self.old.rest.now ≡ [])
            (λ f. words self.old.rest.now ≡ f.text.now ∷ words self.new.rest.now) }
    {
        let left = self.left();
        if left.is_empty() {
            return None;
        }
        let at = self.at(left);
        let (text, rest) = cut_at_space(left);
        self.rest = rest;
        Some(Field { text, at })
    }

    /// The next field, in which this is wanted.
    pub(crate) fn field(&mut self, wanted: Wanted) -> Result<Field<'a>, Fault>
        ensures text { IfOk result (λ f. IsFirstWord self.old.rest.now f.text.now self.new.rest.now) }
        ensures ok { IfOk result (λ f. words self.old.rest.now ≡ f.text.now ∷ words self.new.rest.now) }
        ensures bad { OnErr result (words self.old.rest.now ≡ []) }
    {
        let end = self.line.len();
        self.next().ok_or(Fault::wanted(end, wanted))
    }

    pub(crate) fn name(&mut self) -> Result<Name<'a>, Fault>
        ensures text { IfOk result (λ n. IsFirstWord self.old.rest.now n.text.now self.new.rest.now) }
        ensures ok { IfOk result (λ n. IsTaken IsNamed (words self.old.rest.now) (words self.new.rest.now) n.text.now) }
        ensures bad { OnErr result ((name : List ℕ) → Begins IsNamed (words self.old.rest.now) name → ⊥) }
    {
        let field = self.field(Wanted::Name)?;
        Name::new(field.text, field.at).ok_or(Fault::wanted(field.at, Wanted::Name))
    }

    pub(crate) fn kind(&mut self, names: &KindNames) -> Result<SyntaxKind, Fault>
        ensures ok { IfOk result
            (λ kind. IsTaken (IsKindName names.now) (words self.old.rest.now) (words self.new.rest.now) kind) }
        ensures bad { OnErr result
            ((kind : SyntaxKind) → Begins (IsKindName names.now) (words self.old.rest.now) kind → ⊥) }
    {
        let field = self.field(Wanted::Kind)?;
        names
            .kind(field.text)
            .ok_or(Fault::wanted(field.at, Wanted::Kind))
    }

    /// What an answer is to show, after which nothing is left.
    pub(crate) fn last_detail(&mut self) -> Result<Detail, Fault>
        ensures ok { IfOk result (λ d. IsLast IsDetail (words self.old.rest.now) d) }
        ensures bad { OnErr result ((d : Detail) → IsLast IsDetail (words self.old.rest.now) d → ⊥) }
    {
        let field = self.field(Wanted::Detail)?;
        self.end()?;
        Detail::from_name(field.text).ok_or(Fault::wanted(field.at, Wanted::Detail))
    }

    pub(crate) fn reference(&mut self, alloc: Global) -> Result<Reference<'a>, LineError>
        ensures ok { IfOk result (λ r. IsTaken IsRef (words self.old.rest.now) (words self.new.rest.now) (ref_of r)) }
        ensures bad { IfErr result (Refuses (Begins IsRef (words self.old.rest.now))) }
    {
        let field = self.field(Wanted::Reference)?;
        Reference::read(alloc, field)
    }

    /// A reference, after which nothing is left.
    pub(crate) fn last_reference(&mut self, alloc: Global) -> Result<Reference<'a>, LineError>
        ensures ok { IfOk result (λ r. IsLast IsRef (words self.old.rest.now) (ref_of r)) }
        ensures bad { IfErr result (Refuses (IsLast IsRef (words self.old.rest.now))) }
    {
        let field = self.field(Wanted::Reference)?;
        self.end()?;
        Reference::read(alloc, field)
    }

    /// All fields that are left.
    pub(crate) fn references(&mut self, alloc: Global) -> Result<Vec<Reference<'a>>, LineError>
        ensures ok { IfOk result (λ rs. Each IsRef (words self.old.rest.now) (refs_of rs)) }
        ensures bad { IfErr result (Refuses (Each IsRef (words self.old.rest.now))) }
    {
        let fields = self.others(alloc)?;
        references_in(alloc, &fields)
    }

    /// References, a field `|`, and references up to the end of the line.
    pub(crate) fn references_round_bar(
        &mut self,
        alloc: Global,
    ) -> Result<(Vec<Reference<'a>>, Vec<Reference<'a>>), LineError>
        ensures ok { IfOk result (λ r. AreRoundBar (words self.old.rest.now) (refs_of r.0, refs_of r.1)) }
        ensures bad { IfErr result (Refuses (AreRoundBar (words self.old.rest.now))) }
    {
        let end = self.line.len();
        let fields = self.others(alloc)?;
        let Some(bar) = first_bar(&fields) else {
            return Err(LineError::from(Fault::wanted(end, Wanted::Bar)));
        };
        let before = references_in(alloc, &fields[..bar])?;
        let after = references_in(alloc, &fields[bar + 1..])?;
        Ok((before, after))
    }

    /// All fields that are left.
    pub(crate) fn numbers(&mut self, alloc: Global) -> Result<Vec<usize>, LineError>
        ensures ok { IfOk result (λ ns. Each IsNumber (words self.old.rest.now) ns.items) }
        ensures bad { IfErr result (Refuses (Each IsNumber (words self.old.rest.now))) }
    {
        let fields = self.others(alloc)?;
        let mut numbers = Vec::new(alloc);
        for field in &fields {
            numbers.push(number_of(*field)?)?;
        }
        Ok(numbers)
    }

    /// All fields that are left.
    pub(crate) fn others(&mut self, alloc: Global) -> Result<Vec<Field<'a>>, AllocError>
        ensures { IfOk result (λ fields. texts_of fields.items ≡ words self.old.rest.now) }
    {
        let mut fields = Vec::new(alloc);
        let Field { text: left, mut at } = self.take_rest();
        for text in left.split(' ') {
            if !text.is_empty() {
                fields.push(Field { text, at })?;
            }
            at = at.saturating_add(text.len()).saturating_add(1);
        }
        Ok(fields)
    }

    /// All that is left, as one field.
    pub(crate) fn take_rest(&mut self) -> Field<'a>
        ensures { IsLeft self.old.rest.now result.text.now }
    {
        let text = self.left();
        let at = self.at(text);
        self.rest = "";
        Field { text, at }
    }

    /// Nothing may be left.
    pub(crate) fn end(&self) -> Result<(), Fault>
        ensures ok { OnOk result (words self.now.rest.now ≡ []) }
        ensures bad { OnErr result (words self.now.rest.now ≢ []) }
    {
        let left = self.left();
        if left.is_empty() {
            Ok(())
        } else {
            Err(Fault::wanted(self.at(left), Wanted::End))
        }
    }
}

fn references_in<'a>(alloc: Global, fields: &[Field<'a>]) -> Result<Vec<Reference<'a>>, LineError>
    ensures ok { IfOk result (λ rs. Each IsRef (texts_of fields.now) (refs_of rs)) }
    ensures bad { IfErr result (Refuses (Each IsRef (texts_of fields.now))) }
{
    let mut references = Vec::new(alloc);
    for field in fields {
        references.push(Reference::read(alloc, *field)?)?;
    }
    Ok(references)
}

// Where the first field is that is `|`.
fn first_bar(fields: &[Field<'_>]) -> Option<usize>
    ensures first { IfSome result (IsFirstBar fields.now) }
    ensures none { IsNone result → AllByRecursion (λ f. f ≢ codes "|") (texts_of fields.now) }
{
    for (index, field) in fields.iter().enumerate() {
        if field.text == "|" {
            return Some(index);
        }
    }
    None
}

fn number_of(field: Field<'_>) -> Result<usize, Fault>
    ensures ok { IfOk result (λ n. IsNumber field.entry.text.now n) }
    ensures bad { OnErr result ((n : ℕ) → IsNumber field.entry.text.now n → ⊥) }
{
    read_number(field.text).ok_or(Fault::wanted(field.at, Wanted::Number))
}
