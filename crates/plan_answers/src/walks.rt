//! A plan one change at a time: the tree and the payloads after each step.

use crate::plans::Planned;
use crate::shown::{Numbers, push_tree};
use cst_core::TreeIds;
use std::alloc::{AllocError, Global};
use syntax_editor::EditRun;

/// The states of a run in an order, and the edit that it makes.
pub fn push_walk(
    planned: &Planned<'_>,
    out: &mut String,
    ids: &mut TreeIds,
    order: &[usize],
) -> Result<(), AllocError> {
    writeln!(out, "walk{}", Numbers(order))?;
    let mut run = EditRun::new(planned.alloc, planned.plan)?;
    push_steps(planned.alloc, out, &mut run, order)?;
    push_finish(planned, out, ids, run)
}

fn push_steps(
    alloc: Global,
    out: &mut String,
    run: &mut EditRun<'_>,
    order: &[usize],
) -> Result<(), AllocError> {
    push_state(alloc, out, run, &[])?;
    for (index, change) in order.iter().enumerate() {
        if *change >= run.plan().len() || !run.ready(*change) {
            return writeln!(out, "not ready: {change}");
        }
        run.step(alloc, *change)?;
        push_state(alloc, out, run, &order[..index + 1])?;
    }
    out.push_str("finish\n")
}

fn push_finish(
    planned: &Planned<'_>,
    out: &mut String,
    ids: &mut TreeIds,
    run: EditRun<'_>,
) -> Result<(), AllocError> {
    if !run.is_complete() {
        return out.push_str("not complete\n");
    }
    match run.finish(planned.alloc, ids) {
        Ok(edit) => planned.push_edit(out, &edit),
        Err(error) => writeln!(out, "{error}"),
    }
}

// What is done and what may be next, how many nodes were built, the tree, and each payload that has a stage.
fn push_state(
    alloc: Global,
    out: &mut String,
    run: &EditRun<'_>,
    done: &[usize],
) -> Result<(), AllocError> {
    push_changes(out, run, done)?;
    write!(out, "\nbuilt {}\ntree ", run.builds())?;
    push_tree(alloc, out, run.green())?;
    for change in 0..run.plan().len() {
        if let Some(payload) = run.payload(change) {
            write!(out, "payload {change} ")?;
            push_tree(alloc, out, payload)?;
        }
    }
    Ok(())
}

fn push_changes(out: &mut String, run: &EditRun<'_>, done: &[usize]) -> Result<(), AllocError> {
    out.push_str("at")?;
    for change in 0..run.plan().len() {
        if done.contains(&change) {
            write!(out, " {change}")?;
        }
    }
    out.push(':')?;
    for change in 0..run.plan().len() {
        if run.ready(change) {
            write!(out, " {change}")?;
        }
    }
    Ok(())
}
