//! A plan, and the edit that it makes in each way.

use crate::batch::{Case, order_in};
use crate::shown::{Numbers, Path, Paths, push_tree};
use crate::texts::push_texts;
use crate::walks::push_walk;
use cst_core::TreeIds;
use std::alloc::{AllocError, Global};
use syned_script::{Dialect, Recorded, Words, record_script};
use syntax_editor::{EditPlan, OnePassEngine, SpliceEngine, SyntaxEdit};

/// A plan, and the annotation words that its elements are registered with.
#[derive(Clone, Copy)]
pub struct Planned<'a> {
    pub alloc: Global,
    pub plan: &'a EditPlan,
    pub words: &'a Words,
}

/// All that is said of the plan of a script, if there is one and its text is not too long.
pub fn push_plan(alloc: Global, out: &mut String, case: &Case<'_>) -> Result<(), AllocError> {
    match record_script(alloc, Dialect::Syned, &case.script) {
        Some(recorded) => push_recorded(alloc, out, recorded, case),
        None => Ok(()),
    }
}

fn push_recorded(
    alloc: Global,
    out: &mut String,
    recorded: Recorded,
    case: &Case<'_>,
) -> Result<(), AllocError> {
    let Recorded {
        editor,
        mut ids,
        words,
        ..
    } = recorded;
    match editor.plan(alloc) {
        Ok(plan) => {
            let (plan, words) = (&plan, &words);
            Planned { alloc, plan, words }.push_ways(out, &mut ids, case)
        }
        Err(_) => Ok(()),
    }
}

impl Planned<'_> {
    fn push_ways(
        &self,
        out: &mut String,
        ids: &mut TreeIds,
        case: &Case<'_>,
    ) -> Result<(), AllocError> {
        let mut engine = OnePassEngine::new(self.alloc);
        match self.plan.run_with(self.alloc, ids, &mut engine) {
            Ok(edit) => {
                self.push_one_pass(out, &edit)?;
                self.push_spliced(out, ids)?;
                writeln!(out, "built {}", engine.builds())?;
                self.push_stands(out, &edit)?;
                self.push_orders(out, ids, case)
            }
            Err(_) => Ok(()),
        }
    }

    fn push_one_pass(&self, out: &mut String, edit: &SyntaxEdit) -> Result<(), AllocError> {
        push_texts(self.alloc, out, self.plan, edit, self.words)?;
        out.push_str("engine one_pass\n")?;
        self.push_edit(out, edit)
    }

    fn push_spliced(&self, out: &mut String, ids: &mut TreeIds) -> Result<(), AllocError> {
        out.push_str("engine splice\n")?;
        let mut engine = SpliceEngine::new(self.alloc);
        match self.plan.run_with(self.alloc, ids, &mut engine) {
            Ok(edit) => self.push_edit(out, &edit),
            Err(error) => writeln!(out, "{error}"),
        }
    }

    /// The new tree of an edit, and its changed and found elements. Words are numbered from 1.
    pub fn push_edit(&self, out: &mut String, edit: &SyntaxEdit) -> Result<(), AllocError> {
        out.push_str("tree ")?;
        push_tree(self.alloc, out, edit.new_root().as_green())?;
        writeln!(out, "changed{}", Paths(edit.changed_elements()))?;
        for (index, word) in self.words.in_order().iter().enumerate() {
            let found = Paths(edit.find_annotation(word.annotation));
            writeln!(out, "found {}{found}", index + 1)?;
        }
        Ok(())
    }

    // For each node of the old tree that is found again: its path and that of its stand-in.
    fn push_stands(&self, out: &mut String, edit: &SyntaxEdit) -> Result<(), AllocError> {
        for node in &edit.old_root().descendants(self.alloc)? {
            if let Some(stand_in) = edit.find_element(self.alloc, node)? {
                writeln!(
                    out,
                    "stand {} {}",
                    Path(node.slots()),
                    Path(stand_in.slots())
                )?;
            }
        }
        Ok(())
    }

    fn push_orders(
        &self,
        out: &mut String,
        ids: &mut TreeIds,
        case: &Case<'_>,
    ) -> Result<(), AllocError> {
        self.push_default(out)?;
        for order in &case.tried {
            self.push_tried(out, ids, &order_in(self.alloc, order)?)?;
        }
        for order in &case.walked {
            push_walk(self, out, ids, &order_in(self.alloc, order)?)?;
        }
        Ok(())
    }

    fn push_default(&self, out: &mut String) -> Result<(), AllocError> {
        let order = self.plan.default_order(self.alloc)?;
        writeln!(out, "default{}", Numbers(&order))
    }

    fn push_tried(
        &self,
        out: &mut String,
        ids: &mut TreeIds,
        order: &[usize],
    ) -> Result<(), AllocError> {
        write!(out, "try{}: ", Numbers(order))?;
        match self.plan.execute(self.alloc, ids, order) {
            Ok(edit) => {
                out.push_str("allowed\n")?;
                self.push_edit(out, &edit)
            }
            Err(error) => writeln!(out, "{error}"),
        }
    }
}
