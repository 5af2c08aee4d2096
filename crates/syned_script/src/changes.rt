//! The changes of a script that a refusal names: the lines that recorded them, and what an order has wrong.

use crate::carried_out::{Recorded, carry_out_line, record_script};
use crate::lines::lines_in;
use crate::session::Session;
use script_lines::Dialect;
use std::alloc::{AllocError, Global};
use syntax_editor::EditPlan;

/// A change that an order has too often, or not at all, and how it is so.
#[derive(Clone, Copy)]
pub(crate) struct Misplaced {
    pub(crate) change: usize,
    pub(crate) how: &'static str,
}

/// The line that recorded each change of a script, counted from 1, up to the line that ends it.
pub(crate) fn lines_of_changes(
    alloc: Global,
    dialect: Dialect,
    script: &str,
) -> Result<Vec<usize>, AllocError> {
    let mut session = Session::new(alloc, dialect);
    carried_out_lines(alloc, &mut session, script)
}

fn carried_out_lines(
    alloc: Global,
    session: &mut Session,
    script: &str,
) -> Result<Vec<usize>, AllocError> {
    let lines = lines_in(alloc, script)?;
    let mut numbers = Vec::new(alloc);
    for (index, text) in lines.iter().enumerate() {
        if !is_carried_out(alloc, session, text) {
            return Ok(numbers);
        }
        if session.count() > numbers.len() {
            numbers.push(index.saturating_add(1))?;
        }
    }
    Ok(numbers)
}

// Carries the line out. Answers whether the script goes on after it.
fn is_carried_out(alloc: Global, session: &mut Session, text: &str) -> bool {
    match carry_out_line(alloc, session, text) {
        Ok(is_finish) => !is_finish,
        Err(_) => false,
    }
}

/// The first number of a script's order that should not be there, or else the first that is missing.
pub(crate) fn misplaced_in(
    alloc: Global,
    dialect: Dialect,
    script: &str,
) -> Result<Option<Misplaced>, AllocError> {
    let Some(Recorded { editor, order, .. }) = record_script(alloc, dialect, script) else {
        return Ok(None);
    };
    let (Some(order), Ok(plan)) = (order, editor.plan(alloc)) else {
        return Ok(None);
    };
    first_misplaced(alloc, &plan, &order)
}

fn first_misplaced(
    alloc: Global,
    plan: &EditPlan,
    order: &[usize],
) -> Result<Option<Misplaced>, AllocError> {
    let mut is_there = vec![in alloc; false; plan.len()]?;
    for change in order {
        let change = *change;
        if change >= plan.len() {
            return Ok(Some(Misplaced {
                change,
                how: "was not recorded",
            }));
        }
        if plan.is_dropped(change) {
            return Ok(Some(Misplaced {
                change,
                how: "is dropped",
            }));
        }
        match is_there.get_mut(change) {
            Some(true) => return Ok(Some(Misplaced {
                change,
                how: "is there twice",
            })),
            Some(is_there) => *is_there = true,
            None => {}
        }
    }
    Ok(first_missing(plan, &is_there))
}

fn first_missing(plan: &EditPlan, is_there: &[bool]) -> Option<Misplaced> {
    for change in 0..plan.len() {
        if is_there.get(change) == Some(&false) && !plan.is_dropped(change) {
            return Some(Misplaced {
                change,
                how: "is missing",
            });
        }
    }
    None
}
