//! What the steps of a row work on, what stands for it, made without memory, and what calls of the editor give or
//! refuse.

use crate::making;
use cst_core::{SyntaxElement, SyntaxNode};
use edit_chain::EditChain;
use std::alloc::Global;
use syntax_editor::{
    Annotations, Change, EditPlan, Error, SyntaxAnnotation, SyntaxEdit, SyntaxEditor,
};
use test_trees::{Done, Group, Standing, Step, Steps, Taken, Trees, made, number_of, tried};

/// What the steps of a row work on, the trees of the table, and what is answered. A step on an editor, a plan, an
/// edit, a mapping or a builder is one on the last that was made.
#[derive(Drop)]
pub struct Session {
    pub trees: Trees,
    pub editors: Vec<SyntaxEditor>,
    /// The registered elements of a plan that is built.
    pub registrations: Vec<(SyntaxElement, SyntaxAnnotation)>,
    pub plans: Vec<EditPlan>,
    pub edits: Vec<SyntaxEdit>,
    pub chains: Vec<EditChain>,
}

impl Session {
    pub fn new(alloc: Global) -> Session {
        Session {
            trees: Trees::new(alloc),
            editors: Vec::new(alloc),
            registrations: Vec::new(alloc),
            plans: Vec::new(alloc),
            edits: Vec::new(alloc),
            chains: Vec::new(alloc),
        }
    }
}

// Values in their order, each by what stands for it.
macro_rules! group_of {
    ($value:ident of $values:expr => $standing:expr) => {{
        let mut group = Group::default();
        for $value in $values {
            group.add(&$standing);
        }
        group
    }};
}

impl Steps for Session {
    fn define(&mut self, name: &str, tree: &str) -> Taken {
        self.trees.define(name, tree)
    }

    fn clear(&mut self) {
        self.trees.clear();
        self.editors.clear();
        self.registrations.clear();
        self.plans.clear();
        self.edits.clear();
        self.chains.clear();
    }

    fn standing(&self) -> Standing {
        Standing {
            next: self.trees.ids.peek(),
            groups: [
                group_of!(mapping of &self.trees.mappings => mapping.len()),
                group_of!(editor of &self.editors => standing_of(editor.changes())),
                group_of!(plan of &self.plans => plan.len()),
                Group::of_count(self.trees.builders.len()),
                Group::of_count(self.trees.changes.len()),
                Group::of_count(self.registrations.len()),
                group_of!(chain of &self.chains => (chain.steps().len(), chain.last_root())),
            ],
        }
    }

    fn answer(&mut self, step: &mut Step) -> Done {
        making::answer(self, step)
    }
}

fn standing_of(changes: &[Change]) -> u64 {
    let mut group = Group::default();
    for change in changes {
        group.add_change(change);
    }
    group.all
}

/// What a call gave. If it is refused, what the refusal prints is the answer.
pub fn asked<T, E: Into<Error>>(called: Result<T, E>, step: &mut Step) -> Option<T> {
    match called {
        Ok(given) => Some(given),
        Err(refusal) => tried::<T, Error>(Err(refusal.into()), step),
    }
}

/// Keeps an edit that a call gave, and answers its new root.
pub fn keep_edit<E: Into<Error>>(
    s: &mut Session,
    called: Result<SyntaxEdit, E>,
    step: &mut Step,
) -> Done {
    let edit = asked(called, step)?;
    step.root(edit.new_root());
    Some(step.note(s.edits.push(edit)))
}

/// Answers a new root, which goes by this name then.
pub fn keep_root(trees: &mut Trees, name: &str, root: &SyntaxNode, step: &mut Step) -> Done {
    step.root(root);
    let kept = trees.add(name, made(root.try_clone(step.alloc), step)?);
    step.read(kept)
}

/// The annotation with this number, if that is one.
pub fn annotation_of(digits: &str) -> Option<SyntaxAnnotation> {
    Annotations::new(number_of(digits).ok()?).next()
}

/// The annotation of the next word, or the first one.
pub fn annotation(step: &mut Step) -> Option<SyntaxAnnotation> {
    annotation_of(step.word_or("1"))
}
