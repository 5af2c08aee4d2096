//! The text that shows a change, with colours or without, written by one writer that takes memory for open nodes alone.

ghost use Rattle.std.specs.Prelude.{◌≡◌, ◌++◌, ◌∷◌, [], take, drop, IfOk, string_bytes};
ghost use Rattle.std.specs.Fmt.{WritesOnOk};
ghost use Rattle.cst_core.specs.Green.{texts};
ghost use Rattle.cst_core.specs.GreenElement.{element_trees};
ghost use Rattle.edit_change.specs.Display.{in_style, put_in, taken_away, reset, element_texts, siblings_of};
ghost use Rattle.edit_change.specs.Display.{exchanged, with_insert, with_range, at_position, change_text};
ghost use Rattle.edit_change.specs.declared.change_text.Style.TheVariants.{Coloured, Plain};

use crate::change::Change;
use crate::change_aims::slot_after;
use crate::fits::parent;
use crate::position::Position;
use cst_core::{GreenElement, GreenElementRef, SyntaxElement};
use std::alloc::{AllocError, Global};
use std::fmt::{self, Display};
use std::slice;

// Escape sequences: green from here on, red from here on, and no colour any more, up to the line's end.
const PUT_IN: &str = "\x1b[42m";

const TAKEN_AWAY: &str = "\x1b[41m";

const RESET: &str = "\x1b[0m\x1b[K";

/// Prints the text that shows the change, as `Change::text` gives it.
impl fmt::Display for Change {
    ghost use Rattle.std.specs.Prelude.{Some};
    ghost use Rattle.edit_change.specs.Display.{change_text};
    ghost use Rattle.edit_change.specs.declared.change_text.Style.TheVariants.{Coloured};

    ghost output = { λ change. Some (change_text Coloured change) };

    fn fmt<W: fmt::Write>(&self, f: &mut fmt::Formatter<W>) -> fmt::Result {
        write_change(self, Style::Coloured, f)
    }
}

/// Whether a text has escape sequences.
#[derive(Clone, Copy)]
pub enum Style {
    Coloured,
    Plain,
}

// A change that is printed without colours.
#[derive(Clone, Copy)]
struct PlainText<'a> {
    change: &'a Change,
}

impl<'a> fmt::Display for PlainText<'a> {
    ghost use Rattle.std.specs.Prelude.{Some};
    ghost use Rattle.edit_change.specs.Display.{change_text};
    ghost use Rattle.edit_change.specs.declared.change_text.Style.TheVariants.{Plain};

    ghost output = { λ plain. Some (change_text Plain plain.change.now) };

    fn fmt<W: fmt::Write>(&self, f: &mut fmt::Formatter<W>) -> fmt::Result {
        write_change(self.change, Style::Plain, f)
    }
}

impl Change {
    /// The text that shows the change to a reader of a terminal: the new text is green (after ESC[42m), the
    /// old text is red (after ESC[41m), and ESC[0m ESC[K ends the colour.
    ///
    /// An insert, or a change of a range, is shown inside the text of the parent. Any other change is the old text and
    /// the new text alone, and a deletion by `Replace` is the old text alone.
    pub fn text(&self, alloc: Global) -> Result<String, AllocError>
        ensures { IfOk result (λ s. string_bytes s ≡ change_text Coloured self.now) }
    {
        self.to_string(alloc)
    }

    /// The text that `text` gives, without the escape sequences: for a log, a file or a test.
    ///
    /// Of a replacement it is the old text and then the new one, with nothing between them.
    pub fn plain_text(&self, alloc: Global) -> Result<String, AllocError>
        ensures { IfOk result (λ s. string_bytes s ≡ change_text Plain self.now) }
    {
        PlainText { change: self }.to_string(alloc)
    }
}

fn write_change<W: fmt::Write>(
    change: &Change,
    style: Style,
    f: &mut fmt::Formatter<W>,
) -> fmt::Result
    ensures { WritesOnOk W.write_str_gives f.old result (change_text style change.now) f.new }
{
    match change {
        Change::Insert(position, element) => {
            write_insert(position, slice::from_ref(element), style, f)
        }
        Change::InsertAll(position, elements) => {
            write_insert(position, elements.as_slice(), style, f)
        }
        Change::Replace(target, None) => write_deletion(target, style, f),
        Change::Replace(target, Some(element)) => {
            write_replacement(target, slice::from_ref(element), style, f)
        }
        Change::ReplaceWithMany(target, elements) => {
            write_replacement(target, elements.as_slice(), style, f)
        }
        Change::ReplaceAll(first, last, elements) => {
            write_range(first, last, elements.as_slice(), style, f)
        }
    }
}

// The code of a colour, or nothing.
fn write_code<W: fmt::Write>(code: &str, style: Style, f: &mut fmt::Formatter<W>) -> fmt::Result
    ensures { WritesOnOk W.write_str_gives f.old result (in_style style code.now) f.new }
{
    match style {
        Style::Coloured => f.write_str(code),
        Style::Plain => Ok(()),
    }
}

// The parent's text, with the elements put in at the position.
fn write_insert<W: fmt::Write>(
    position: &Position,
    elements: &[SyntaxElement],
    style: Style,
    f: &mut fmt::Formatter<W>,
) -> fmt::Result
    ensures { let bytes = at_position style position.now (element_texts elements.now) in
        WritesOnOk W.write_str_gives f.old result bytes f.new }
{
    match position.after_of() {
        Some(element) => {
            write_opened(siblings(element), slot_after(element), elements, style, f)
        }
        None => match position.first_of() {
            Some(node) => write_opened(node.as_green().children(), 0, elements, style, f),
            None => unreachable!(),
        },
    }
}

// The texts of siblings, with the elements put in before the one in this slot.
fn write_opened<W: fmt::Write>(
    siblings: &[GreenElement],
    slot: usize,
    elements: &[SyntaxElement],
    style: Style,
    f: &mut fmt::Formatter<W>,
) -> fmt::Result
    ensures { let bytes = with_insert style (element_trees siblings.now) slot (element_texts elements.now) in
        WritesOnOk W.write_str_gives f.old result bytes f.new }
{
    write_shared(before(siblings, slot), f)?;
    write_code(PUT_IN, style, f)?;
    write_elements(elements, f)?;
    write_code(RESET, style, f)?;
    write_shared(from_slot(siblings, slot), f)
}

// The old text, taken away.
fn write_deletion<W: fmt::Write>(
    target: &SyntaxElement,
    style: Style,
    f: &mut fmt::Formatter<W>,
) -> fmt::Result
    ensures { let bytes = taken_away style ++ element_texts (target.now ∷ []) ++ reset style in
        WritesOnOk W.write_str_gives f.old result bytes f.new }
{
    write_code(TAKEN_AWAY, style, f)?;
    write_elements(slice::from_ref(target), f)?;
    write_code(RESET, style, f)
}

// The old text, taken away, and the elements, put in.
fn write_replacement<W: fmt::Write>(
    target: &SyntaxElement,
    elements: &[SyntaxElement],
    style: Style,
    f: &mut fmt::Formatter<W>,
) -> fmt::Result
    ensures { let bytes = exchanged style (element_texts (target.now ∷ [])) (element_texts elements.now) in
        WritesOnOk W.write_str_gives f.old result bytes f.new }
{
    write_code(TAKEN_AWAY, style, f)?;
    write_elements(slice::from_ref(target), f)?;
    write_put_in(elements, style, f)
}

// The elements, put in, with the end of the colour.
fn write_put_in<W: fmt::Write>(
    elements: &[SyntaxElement],
    style: Style,
    f: &mut fmt::Formatter<W>,
) -> fmt::Result
    ensures { let bytes = put_in style ++ element_texts elements.now ++ reset style in
        WritesOnOk W.write_str_gives f.old result bytes f.new }
{
    write_code(PUT_IN, style, f)?;
    write_elements(elements, f)?;
    write_code(RESET, style, f)
}

// The text of the parent of `first`, in which the siblings up to `last` are exchanged for the elements.
fn write_range<W: fmt::Write>(
    first: &SyntaxElement,
    last: &SyntaxElement,
    elements: &[SyntaxElement],
    style: Style,
    f: &mut fmt::Formatter<W>,
) -> fmt::Result
    ensures { let bytes = change_text style (Change.ReplaceAll first.now last.now elements.now) in
        WritesOnOk W.write_str_gives f.old result bytes f.new }
{
    write_exchanged(
        siblings(first),
        first.index(),
        slot_after(last),
        elements,
        style,
        f,
    )
}

// The texts of siblings, with those from slot `start` up to slot `end`, which stays, exchanged for the elements.
fn write_exchanged<W: fmt::Write>(
    siblings: &[GreenElement],
    start: usize,
    end: usize,
    elements: &[SyntaxElement],
    style: Style,
    f: &mut fmt::Formatter<W>,
) -> fmt::Result
    ensures { let bytes = with_range style (element_trees siblings.now) start end (element_texts elements.now) in
        WritesOnOk W.write_str_gives f.old result bytes f.new }
{
    write_shared(before(siblings, start), f)?;
    write_code(TAKEN_AWAY, style, f)?;
    write_shared(from_slot(before(siblings, end), start), f)?;
    write_put_in(elements, style, f)?;
    write_shared(from_slot(siblings, end), f)
}

// An element with its siblings; a root by itself has those below it.
fn siblings(element: &SyntaxElement) -> &[GreenElement]
    ensures { element_trees result.now ≡ siblings_of element.now }
{
    match element.top_green().get(parent(element.slots())) {
        Some(GreenElementRef::Node(node)) => node.children(),
        Some(GreenElementRef::Token(_)) => &[],
        None => &[],
    }
}

// Those before a slot, which are all where there is no such slot.
fn before(elements: &[GreenElement], slot: usize) -> &[GreenElement]
    ensures { element_trees result.now ≡ take slot (element_trees elements.now) }
{
    &elements[..slot.min(elements.len())]
}

// Those from a slot on, which are none where there is no such slot.
fn from_slot(elements: &[GreenElement], slot: usize) -> &[GreenElement]
    ensures { element_trees result.now ≡ drop slot (element_trees elements.now) }
{
    &elements[slot.min(elements.len())..]
}

fn write_elements<W: fmt::Write>(
    elements: &[SyntaxElement],
    f: &mut fmt::Formatter<W>,
) -> fmt::Result
    ensures { WritesOnOk W.write_str_gives f.old result (element_texts elements.now) f.new }
{
    for element in elements {
        element.fmt(f)?;
    }
    Ok(())
}

fn write_shared<W: fmt::Write>(elements: &[GreenElement], f: &mut fmt::Formatter<W>) -> fmt::Result
    ensures { WritesOnOk W.write_str_gives f.old result (texts (element_trees elements.now)) f.new }
{
    for element in elements {
        element.fmt(f)?;
    }
    Ok(())
}
