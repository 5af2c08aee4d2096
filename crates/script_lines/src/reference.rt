//! `Reference`: a tree's name with the slots that lead to an element.

ghost use Rattle.std.specs.Prelude.{◌≡◌, ℕ, List, [], ◌∷◌, IfOk, IfErr, MatchOption, unwrap_or};
ghost use Rattle.script_lines.specs.Line.{Each, IsNumber, IsRef, between};
ghost use Rattle.script_lines.specs.LineValue.{ref_of};
ghost use Rattle.script_lines.specs.Refusals.{Refuses};
ghost use Rattle.script_lines.specs.inner.Slots.{slots_of};

use crate::error::LineError;
use crate::fault::{Fault, Wanted};
use crate::field::Field;
use crate::name::Name;
use std::alloc::{AllocError, Global};

/// The way to an element: the name of a tree, and child slots from its root down.
#[derive(Drop)]
pub struct Reference<'a> {
    pub name: Name<'a>,
    pub slots: Vec<usize>,
}

impl<'a> Reference<'a> {
    /// The reference that is spelled like this: a name, and before each slot a `/`.
    pub(crate) fn read(alloc: Global, field: Field<'a>) -> Result<Reference<'a>, LineError>
        ensures ok { IfOk result (λ r. IsRef field.entry.text.now (ref_of r)) }
        ensures bad { IfErr result (Refuses (IsRef field.entry.text.now)) }
    {
        let (text, slots) = cut_at_slash(field.text);
        let wanted = Fault::wanted(field.at, Wanted::Reference);
        let Some(name) = Name::new(text, field.at) else {
            return Err(LineError::from(wanted));
        };
        let Some(slots) = read_slots(alloc, slots)? else {
            return Err(LineError::from(wanted));
        };
        Ok(Reference { name, slots })
    }
}

// What stands before the first slash, and what is behind it, if there is one.
fn cut_at_slash(text: &str) -> (&str, Option<&str>)
    ensures { between 47 text.now ≡ result.0.now ∷ slots_of result.1 }
{
    match text.split_once('/') {
        Some((name, slots)) => (name, Some(slots)),
        None => (text, None),
    }
}

fn read_slots(alloc: Global, text: Option<&str>) -> Result<Option<Vec<usize>>, AllocError>
    ensures { IfOk result (λ read. MatchOption read
        ((path : List ℕ) → Each IsNumber (slots_of text.entry) path → ⊥)
        (λ path. Each IsNumber (slots_of text.entry) path.items)) }
{
    let mut slots = Vec::new(alloc);
    let Some(text) = text else {
        return Ok(Some(slots));
    };
    for part in text.split('/') {
        let Some(slot) = read_number(part) else {
            return Ok(None);
        };
        slots.push(slot)?;
    }
    Ok(Some(slots))
}

/// The number of these decimal digits, without a sign.
pub(crate) fn read_number(text: &str) -> Option<usize>
    ensures { MatchOption result ((n : ℕ) → IsNumber text.now n → ⊥) (λ n. IsNumber text.now n) }
{
    if text.bytes().next() == Some(b'+') {
        return None;
    }
    text.parse::<usize>().ok()
}
