//! `Step`: a plan of a chain, with its edit.

use edit_plan::{EditPlan, SyntaxEdit};

/// A plan that was carried out, and the edit that it made.
#[derive(Drop)]
pub struct Step {
    pub plan: EditPlan,
    pub edit: SyntaxEdit,
}
