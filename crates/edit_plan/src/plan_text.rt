//! The text of a plan: a line for each change.

ghost use Rattle.std.specs.Prelude.{◌++◌, ◌<◌, length, flat_map};
ghost use Rattle.std.specs.Fmt.{WritesOnOk};
ghost use Rattle.edit_plan.specs.PlanText.{slot_text, path_text, position_text, what_text, fate_text, line_text, plan_text};

use crate::plan::EditPlan;
use edit_change::{Change, Position};
use std::fmt;

/// Prints a line for each change: its number, what it does where, and what becomes of it.
///
/// Paths are those of the old tree, and `.` is the root. A position is `first` in a node or `after` an element. A change that is dropped,
/// or moves along with another one, says so; any other is carried out on the tree.
///
/// ```text
/// 0 insert after 1/0, along with 2
/// 1 delete 4/0, dropped
/// 2 replace 1
/// 3 replace_all 3 4
/// ```
impl fmt::Display for EditPlan {
    ghost use Rattle.std.specs.Prelude.{Some};
    ghost use Rattle.edit_plan.specs.PlanText.{plan_text};

    ghost output = { λ plan. Some (plan_text plan) };

    fn fmt<W: fmt::Write>(&self, f: &mut fmt::Formatter<W>) -> fmt::Result {
        write_plan(self, f)
    }
}

fn write_plan<W: fmt::Write>(plan: &EditPlan, f: &mut fmt::Formatter<W>) -> fmt::Result
    ensures { WritesOnOk W.write_str_gives f.old result (plan_text plan.now) f.new }
{
    for (number, change) in plan.changes().iter().enumerate() {
        write_line(plan, number, change, f)?;
    }
    Ok(())
}

// The line of the change with this number.
fn write_line<W: fmt::Write>(
    plan: &EditPlan,
    number: usize,
    change: &Change,
    f: &mut fmt::Formatter<W>,
) -> fmt::Result
    requires { number < length plan.now.changes }
    ensures { let bytes = line_text plan.now.changes (number, change.now) in
        WritesOnOk W.write_str_gives f.old result bytes f.new }
{
    write!(f, "{number} ")?;
    write_what(change, f)?;
    write_fate(plan, number, f)?;
    f.write_str("\n")
}

fn write_what<W: fmt::Write>(change: &Change, f: &mut fmt::Formatter<W>) -> fmt::Result
    ensures { WritesOnOk W.write_str_gives f.old result (what_text change.now) f.new }
{
    match change {
        Change::Insert(position, _) => write_position("insert", position, f),
        Change::InsertAll(position, _) => write_position("insert_all", position, f),
        Change::Replace(target, None) => write_target("delete ", target.slots(), f),
        Change::Replace(target, Some(_)) => write_target("replace ", target.slots(), f),
        Change::ReplaceWithMany(target, _) => write_target("replace_with_many ", target.slots(), f),
        Change::ReplaceAll(first, last, _) => {
            write_target("replace_all ", first.slots(), f)?;
            write_target(" ", last.slots(), f)
        }
    }
}

fn write_position<W: fmt::Write>(
    word: &str,
    position: &Position,
    f: &mut fmt::Formatter<W>,
) -> fmt::Result
    ensures { WritesOnOk W.write_str_gives f.old result (word.now ++ position_text position.now) f.new }
{
    f.write_str(word)?;
    if position.first_of().is_some() {
        write_target(" first ", position.anchor(), f)
    } else {
        write_target(" after ", position.anchor(), f)
    }
}

fn write_target<W: fmt::Write>(
    words: &str,
    path: &[usize],
    f: &mut fmt::Formatter<W>,
) -> fmt::Result
    ensures { WritesOnOk W.write_str_gives f.old result (words.now ++ path_text path.now) f.new }
{
    f.write_str(words)?;
    write_path(path, f)
}

// The slots with `/` between them, the top as `.`.
fn write_path<W: fmt::Write>(path: &[usize], f: &mut fmt::Formatter<W>) -> fmt::Result
    ensures { WritesOnOk W.write_str_gives f.old result (path_text path.now) f.new }
{
    let Some((first, others)) = path.split_first() else {
        return f.write_str(".");
    };
    write!(f, "{first}")?;
    write_slots(others, f)
}

// Each after a `/`.
fn write_slots<W: fmt::Write>(slots: &[usize], f: &mut fmt::Formatter<W>) -> fmt::Result
    ensures { WritesOnOk W.write_str_gives f.old result (flat_map slot_text slots.now) f.new }
{
    for slot in slots {
        write!(f, "/{slot}")?;
    }
    Ok(())
}

// What becomes of the change with this number, unless it is carried out on the tree.
fn write_fate<W: fmt::Write>(
    plan: &EditPlan,
    number: usize,
    f: &mut fmt::Formatter<W>,
) -> fmt::Result
    requires { number < length plan.now.changes }
    ensures { WritesOnOk W.write_str_gives f.old result (fate_text plan.now.changes number) f.new }
{
    if plan.is_dropped(number) {
        return f.write_str(", dropped");
    }
    match plan.owner(number) {
        Some(owner) => write!(f, ", along with {owner}"),
        None => Ok(()),
    }
}
