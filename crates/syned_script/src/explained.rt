//! What a script ended at, in a sentence.

use crate::changes::{lines_of_changes, misplaced_in};
use crate::fault::{Fault, Reason};
use crate::nearest::nearest_kind;
use crate::refusal::Refusal;
use crate::stop::{Stop, Stopped};
use script_lines::{Dialect, Flaw, Wanted};
use std::alloc::{AllocError, Global};
use syntax_editor::{EditError, ExecuteError};

// How many characters of a field are shown.
const SHOWN: usize = 40;

impl Stopped {
    /// Why this script of this dialect ended where it did, for people to read. Of a bad line it is the number, the column, what was read there and what is wrong
    /// with it; of a refused call what the answer says, what to do about it, and the line, or the lines of the two changes that it names. Lines and
    /// columns count from 1, columns in bytes.
    ///
    /// ```text
    /// line 3, column 8, at "u/0": no tree before this line has this name
    /// refused Intersecting 0 1: two changes replace or delete the same element; keep one of them: changes 0 (line 3) and 1 (line 4)
    /// ```
    pub fn explanation(
        &self,
        alloc: Global,
        dialect: Dialect,
        script: &str,
    ) -> Result<String, AllocError> {
        match &self.stop {
            Stop::Bad(fault) => of_fault(alloc, script, self.line, fault),
            Stop::Refused(refusal) => of_refusal(alloc, dialect, script, self.line, refusal),
            Stop::Memory => String::from_str(alloc, "memory ran out"),
        }
    }
}

fn of_refusal(
    alloc: Global,
    dialect: Dialect,
    script: &str,
    line: usize,
    refusal: &Refusal,
) -> Result<String, AllocError> {
    let help = refusal.help();
    let mut out = format!(in alloc; "refused {refusal}: {help}: ")?;
    match refusal {
        Refusal::Edit(EditError::Intersecting { first, second }) => {
            push_changes(alloc, &mut out, dialect, script, *first, *second)?;
        }
        Refusal::Edit(EditError::MissingMapping { change, owner }) => {
            push_changes(alloc, &mut out, dialect, script, *change, *owner)?;
        }
        Refusal::Order(ExecuteError::NotEachOnce) => push_misplaced(
            alloc, &mut out, dialect, script, line,
        )?,
        _ => write!(out, "line {line}")?,
    }
    Ok(out)
}

fn push_changes(
    alloc: Global,
    out: &mut String,
    dialect: Dialect,
    script: &str,
    one: usize,
    other: usize,
) -> Result<(), AllocError> {
    let lines = lines_of_changes(alloc, dialect, script)?;
    out.push_str("changes ")?;
    push_change(out, &lines, one)?;
    out.push_str(" and ")?;
    push_change(out, &lines, other)
}

// What is wrong with the order; the line at which it was found wrong, if that is all that is known.
fn push_misplaced(
    alloc: Global,
    out: &mut String,
    dialect: Dialect,
    script: &str,
    line: usize,
) -> Result<(), AllocError> {
    let Some(misplaced) = misplaced_in(alloc, dialect, script)? else {
        return write!(out, "line {line}");
    };
    let lines = lines_of_changes(alloc, dialect, script)?;
    out.push_str("change ")?;
    push_change(out, &lines, misplaced.change)?;
    out.push(' ')?;
    out.push_str(misplaced.how)
}

// The number of a change, and the line that recorded it, if there is one.
fn push_change(out: &mut String, lines: &[usize], change: usize) -> Result<(), AllocError> {
    match lines.get(change) {
        Some(line) => write!(out, "{change} (line {line})"),
        None => write!(out, "{change}"),
    }
}

fn of_fault(alloc: Global, script: &str, line: usize, fault: &Fault) -> Result<String, AllocError> {
    let reason = &fault.reason;
    let Some(text) = line_of(script, line) else {
        return format!(in alloc; "{reason}");
    };
    let column = fault.at.saturating_add(1);
    let rest = text.split_at_checked(fault.at).map_or("", |(_, rest)| rest);
    let mut out = format!(in alloc; "line {line}, column {column}, at ")?;
    push_read(&mut out, rest)?;
    write!(out, ": {reason}")?;
    if let Reason::Flaw(Flaw::Wanted(Wanted::Kind)) = reason {
        push_nearest(alloc, &mut out, rest)?;
    }
    Ok(out)
}

// The line with this number, counted from 1.
fn line_of(script: &str, number: usize) -> Option<&str> {
    let mut lines = script.split_terminator('\n');
    lines.nth(number.checked_sub(1)?)
}

// What a line's rest begins with, up to a space, in quotes.
fn push_read(out: &mut String, rest: &str) -> Result<(), AllocError> {
    let left = rest.strip_suffix('\r').unwrap_or(rest);
    if left.split(' ').all(|field| field.is_empty()) {
        return out.push_str("the end of the line");
    }
    let field = rest.split(' ').next().unwrap_or("");
    if field.is_empty() {
        return out.push_str("a space");
    }
    out.push('"')?;
    for c in field.chars().take(SHOWN) {
        out.push(c)?;
    }
    out.push('"')
}

// The kind that a word may have meant with which a line's rest begins, if it begins with one.
fn push_nearest(alloc: Global, out: &mut String, rest: &str) -> Result<(), AllocError> {
    let mut word = String::new(alloc);
    for c in rest.chars().take(SHOWN) {
        if !c.is_ascii_alphanumeric() && c != '_' {
            break;
        }
        word.push(c)?;
    }
    if word.as_str().is_empty() {
        return Ok(());
    }
    let nearest = nearest_kind(alloc, word.as_str())?;
    let (name, count) = (nearest.name, nearest.count);
    write!(out, "; the nearest of the {count} is {name}")
}
