//! Two lists of edits composed into one.

ghost use Rattle.std.specs.Prelude.{◌≡◌, ◌+◌, ◌-◌, ◌∷◌, ◌++◌, ◌<◌, ◌≤◌, ◌^◌, [], length, IfOk, OnOk, IfErr, IsTrue, ◌↔◌, string_bytes, ℕ};
ghost use Rattle.text_edit.specs.TextPiece.{as_piece, pieces, AreApart};
ghost use Rattle.text_edit.specs.Composition.{AreComposed, ComposeRefuses};
ghost use Rattle.text_edit.specs.inner.Composing.{place_of, left_of, IsPlace, Passes, PassRefuses, Puts, PutsDeletion, IsKept, BeginsHere, CarriesOut, CarryRefuses, PutsAll, Finishes};
ghost use Rattle.text_edit.specs.declared.compose.Pass.{Pass};
ghost use Rattle.text_edit.specs.inner.Joined.{joined, EndsAt};

use crate::compose_error::ComposeError;
use crate::text_edit::TextEdit;
use std::alloc::{AllocError, Global};

// Lets an edit go on up to an end, with more text.
fn extend(edit: &mut TextEdit, end: u64, text: &str) -> Result<(), AllocError>
    ensures { OnOk result (as_piece edit.new ≡ joined (as_piece edit.old) end text.now) }
{
    edit.text.push_str(text)?;
    edit.end = end;
    Ok(())
}

// Whether the last edit ends at an offset.
fn last_ends_at(edits: &[TextEdit], offset: u64) -> bool
    ensures { IsTrue result ↔ EndsAt (pieces edits.now) offset }
{
    match edits.last() {
        Some(last) => last.end == offset,
        None => false,
    }
}

// Puts an edit after the others. One that touches the last edit makes it longer, and one that does nothing is left out.
fn put(
    alloc: Global,
    out: &mut Vec<TextEdit>,
    start: u64,
    end: u64,
    text: &str,
) -> Result<(), AllocError>
    requires apart { AreApart 0 (pieces out.old.items) start }
    requires ends { start ≤ end }
    ensures { OnOk result (Puts (pieces out.old.items) (pieces out.new.items) start end text.now) }
{
    if start == end && text.is_empty() {
        return Ok(());
    }
    if last_ends_at(out, start) {
        let last = out.len() - 1;
        return extend(&mut out[last], end, text);
    }
    let text = String::from_str(alloc, text)?;
    out.push(TextEdit { start, end, text })?;
    Ok(())
}

// What becomes of bytes that are passed.
#[derive(Clone, Copy)]
enum Pass {
    Keep,
    Delete,
}

// Puts a text that is passed after the others, if it is kept.
fn put_text(
    alloc: Global,
    out: &mut Vec<TextEdit>,
    at: u64,
    text: &str,
    pass: Pass,
) -> Result<(), AllocError>
    requires { AreApart 0 (pieces out.old.items) at }
    ensures { OnOk result (Puts (pieces out.old.items) (pieces out.new.items) at at (left_of pass text.now)) }
{
    match pass {
        Pass::Keep => put(alloc, out, at, at, text),
        Pass::Delete => Ok(()),
    }
}

// Puts a deletion after the others, if what is passed of the old text is deleted.
fn put_deletion(
    alloc: Global,
    out: &mut Vec<TextEdit>,
    start: u64,
    end: u64,
    pass: Pass,
) -> Result<(), AllocError>
    requires apart { AreApart 0 (pieces out.old.items) start }
    requires ends { start ≤ end }
    ensures { OnOk result (PutsDeletion pass (pieces out.old.items) (pieces out.new.items) start end) }
{
    match pass {
        Pass::Keep => Ok(()),
        Pass::Delete => put(alloc, out, start, end, ""),
    }
}

// A place in the text that the first list makes, and the composition up to there.
#[derive(Drop)]
struct Composing<'a> {
    // What is left of the text of the edit that the place is in.
    left: &'a str,
    // The offset in the old text.
    at: u64,
    // The edits of the first list that are still to come.
    rest: &'a [TextEdit],
    out: Vec<TextEdit>,
}

impl<'a> Composing<'a> {
    // Passes bytes of the text that is left, which is not empty.
    fn pass_text(
        &mut self,
        alloc: Global,
        n: u64,
        pass: Pass,
        index: usize,
    ) -> Result<u64, ComposeError>
        requires place { IsPlace (place_of self.old) }
        requires some { 0 < n }
        requires text { 0 < length self.old.left.now }
        ensures place { OnOk result (IsPlace (place_of self.new)) }
        ensures some { IfOk result (λ k. (0 < k) × (k ≤ n)) }
        ensures rest { OnOk result (self.new.rest.now ≡ self.old.rest.now) }
        ensures passes { IfOk result (λ k. Passes pass n k (place_of self.old) (place_of self.new)) }
        ensures refused { IfErr result (PassRefuses index n (place_of self.old)) }
    {
        let passed = n.min(self.left.len() as u64);
        if !self.left.is_char_boundary(passed as usize) {
            return Err(ComposeError::InsideCharacter { index });
        }
        let (text, left) = self.left.split_at(passed as usize);
        put_text(alloc, &mut self.out, self.at, text, pass)?;
        self.left = left;
        Ok(passed)
    }

    // Begins the next edit, which starts here.
    fn begin(&mut self, alloc: Global) -> Result<(), AllocError>
        requires place { IsPlace (place_of self.old) }
        requires text { self.old.left.now ≡ [] }
        requires next { BeginsHere (place_of self.old) }
        ensures place { OnOk result (IsPlace (place_of self.new)) }
        ensures rest { OnOk result (length self.new.rest.now + 1 ≡ length self.old.rest.now) }
        ensures passes { OnOk result
            ((pass : Pass) (n : ℕ) → Passes pass n 0 (place_of self.old) (place_of self.new)) }
    {
        let Some((edit, rest)) = self.rest.split_first() else {
            unreachable!()
        };
        put(alloc, &mut self.out, self.at, edit.end, "")?;
        self.left = &edit.text;
        self.at = edit.end;
        self.rest = rest;
        Ok(())
    }

    // How many of the next bytes, at most `n`, the first list keeps before its next edit.
    fn kept(&self, n: u64) -> u64
        requires { AreApart self.now.at (pieces self.now.rest.now) (2 ^ 64) }
        ensures { IsKept self.now.at (pieces self.now.rest.now) n result }
    {
        match self.rest.first() {
            Some(next) => n.min(next.start - self.at),
            None => n,
        }
    }

    // Passes bytes that the first list keeps before its next edit.
    fn pass_kept(
        &mut self,
        alloc: Global,
        n: u64,
        kept: u64,
        pass: Pass,
        index: usize,
    ) -> Result<(), ComposeError>
        requires place { IsPlace (place_of self.old) }
        requires text { self.old.left.now ≡ [] }
        requires kept { IsKept self.old.at (pieces self.old.rest.now) n kept }
        ensures place { OnOk result (IsPlace (place_of self.new)) }
        ensures rest { OnOk result (self.new.rest.now ≡ self.old.rest.now) }
        ensures passes { OnOk result (Passes pass n kept (place_of self.old) (place_of self.new)) }
        ensures refused { IfErr result (PassRefuses index n (place_of self.old)) }
    {
        let Some(end) = self.at.checked_add(kept) else {
            return Err(ComposeError::TooLong { index });
        };
        put_deletion(alloc, &mut self.out, self.at, end, pass)?;
        self.at = end;
        Ok(())
    }

    // Passes some of the next bytes, at most `n`, or begins an edit. Gives how many bytes are passed.
    fn step(&mut self, alloc: Global, n: u64, pass: Pass, index: usize) -> Result<u64, ComposeError>
        requires place { IsPlace (place_of self.old) }
        requires some { 0 < n }
        ensures place { OnOk result (IsPlace (place_of self.new)) }
        ensures bound { IfOk result (λ k. k ≤ n) }
        ensures nearer { IfOk result (λ k. length self.new.rest.now < length self.old.rest.now + k) }
        ensures passes { IfOk result (λ k. Passes pass n k (place_of self.old) (place_of self.new)) }
        ensures refused { IfErr result (PassRefuses index n (place_of self.old)) }
    {
        if !self.left.is_empty() {
            return self.pass_text(alloc, n, pass, index);
        }
        let kept = self.kept(n);
        if kept == 0 {
            self.begin(alloc)?;
        } else {
            self.pass_kept(alloc, n, kept, pass, index)?;
        }
        Ok(kept)
    }

    // Passes the next `n` bytes.
    fn pass(&mut self, alloc: Global, n: u64, pass: Pass, index: usize) -> Result<(), ComposeError>
        requires place { IsPlace (place_of self.old) }
        ensures place { OnOk result (IsPlace (place_of self.new)) }
        ensures passes { OnOk result (Passes pass n n (place_of self.old) (place_of self.new)) }
        ensures refused { IfErr result (PassRefuses index n (place_of self.old)) }
    {
        let mut to_pass = n;
        'bytes: while to_pass > 0 {
            to_pass -= self.step(alloc, to_pass, pass, index)?;
        }
        Ok(())
    }

    // Carries out the edit of the second list at an index, where its bytes before an offset are passed.
    fn carry_out(
        &mut self,
        alloc: Global,
        passed: u64,
        edit: &TextEdit,
        index: usize,
    ) -> Result<(), ComposeError>
        requires place { IsPlace (place_of self.old) }
        requires apart { (passed ≤ edit.now.start) × (edit.now.start ≤ edit.now.end) }
        ensures place { OnOk result (IsPlace (place_of self.new)) }
        ensures carried { OnOk result (CarriesOut passed (as_piece edit.now) (place_of self.old) (place_of self.new)) }
        ensures refused { IfErr result (CarryRefuses index passed (as_piece edit.now) (place_of self.old)) }
    {
        self.pass(alloc, edit.start - passed, Pass::Keep, index)?;
        put(alloc, &mut self.out, self.at, self.at, &edit.text)?;
        self.pass(alloc, edit.end - edit.start, Pass::Delete, index)
    }

    // The composition, once the edits of the second list are carried out.
    fn finish(self, alloc: Global) -> Result<Vec<TextEdit>, AllocError>
        requires { IsPlace (place_of self) }
        ensures { IfOk result (λ v. Finishes (place_of self.entry) (pieces v.items)) }
    {
        let Composing {
            left,
            at,
            rest,
            mut out,
        } = self;
        put(alloc, &mut out, at, at, left)?;
        put_all(alloc, &mut out, at, rest)?;
        Ok(out)
    }
}

// Puts edits after the others, which end before an offset.
fn put_all(
    alloc: Global,
    out: &mut Vec<TextEdit>,
    at: u64,
    edits: &[TextEdit],
) -> Result<(), AllocError>
    requires before { AreApart 0 (pieces out.old.items) at }
    requires behind { AreApart at (pieces edits.now) (2 ^ 64) }
    ensures { OnOk result (PutsAll (pieces out.old.items) (pieces out.new.items) at (pieces edits.now)) }
{
    for edit in edits {
        put(alloc, out, edit.start, edit.end, &edit.text)?;
    }
    Ok(())
}

/// One list of edits for two, which are carried out one after the other.
pub(crate) fn composed(
    alloc: Global,
    first: &[TextEdit],
    next: &[TextEdit],
) -> Result<Vec<TextEdit>, ComposeError>
    requires first { AreApart 0 (pieces first.now) (2 ^ 64) }
    requires next { AreApart 0 (pieces next.now) (2 ^ 64) }
    ensures apart { IfOk result (λ v. AreApart 0 (pieces v.items) (2 ^ 64)) }
    ensures composed { IfOk result (λ v. AreComposed (pieces first.now) (pieces next.now) (pieces v.items)) }
    ensures refused { IfErr result (ComposeRefuses (pieces first.now) (pieces next.now)) }
{
    let mut composing = Composing {
        left: "",
        at: 0,
        rest: first,
        out: Vec::new(alloc),
    };
    let mut passed = 0;
    for (index, edit) in next.iter().enumerate() {
        composing.carry_out(alloc, passed, edit, index)?;
        passed = edit.end;
    }
    Ok(composing.finish(alloc)?)
}
