//! What errors print, and the sentences that say what to do.

use cst_core::TreeError;
use edit_chain::ChainError;
use std::alloc::AllocError;
use syntax_editor::{
    EditError, EngineError, Error, ExecuteError, IndentError, MapError, MergeError, RecordError,
    WrapError,
};
use test_trees::{NoAnswer, Step, errors_of, print_errors, say};

// The refusals of calls of the editor, each by the error that it holds, and others.
macro_rules! refusals {
    ($($kind:ident of $type:ident: $($case:ident)*;)* [$($other:expr),*]) => {
        &[$($other,)* $($(Error::$kind($type::$case),)*)*]
    };
}

const EDITOR: &[Error] = refusals! {
    Tree of TreeError: TooLong NoTreeNumber Memory;
    Map of MapError: NotAChild NotYounger OtherShape MoreInputs Memory;
    Record of RecordError:
        Foreign BadRange DeletesRoot RootReplacement LevelTooLarge NoTreeNumber Memory;
    Merge of MergeError: OtherRoot Memory;
    Wrap of WrapError: TooLong NoTreeNumber NotYounger Foreign Memory;
    Indent of IndentError: LevelTooLarge TooLong NoTreeNumber NotYounger Memory;
    Edit of EditError: TooLong NoTreeNumber Memory;
    Execute of ExecuteError: NotEachOnce OwnerTooEarly GapOutOfOrder TokenTooEarly;
    [
        Error::Edit(EditError::Intersecting { first: 0, second: 2 }),
        Error::Edit(EditError::MissingMapping { change: 1, owner: 0 }),
        Error::Execute(ExecuteError::Edit(EditError::TooLong)),
        Error::Memory
    ]
};

const ENGINE: &[EngineError] = errors_of!(EngineError: TooLong, Memory);

const CHAIN: &[ChainError] =
    errors_of!(ChainError: OtherRoot, TooLong, NoTreeNumber, Unfit { step: 1 }, Memory);

// What an error prints, and its sentence, after others.
macro_rules! say_error {
    ($step:ident, $error:ident) => {{
        $step.between(" | ");
        say!($step, "{}: {}", $error, $error.help());
    }};
}

/// Of the errors of the type that is named, one after another.
pub fn print(step: &mut Step) {
    match step.word() {
        "Engine" => of_engines(step),
        "Chain" => of_chains(step),
        "AllocError" => {
            let (any, of_trees) = (Error::from(AllocError), TreeError::from(AllocError));
            say_error!(step, any);
            say_error!(step, of_trees);
        }
        name => of_editor(name, step),
    }
}

fn of_engines(step: &mut Step) {
    for error in ENGINE {
        say_error!(step, error);
    }
}

fn of_chains(step: &mut Step) {
    for error in CHAIN {
        say_error!(step, error);
    }
}

// Of those that hold an error of this type, or are of this case; or of trees, texts and their edits.
fn of_editor(name: &str, step: &mut Step) {
    for error in EDITOR {
        match format!(in step.alloc; "{error:?}") {
            Ok(case) if case.starts_with(name) => say_error!(step, error),
            Ok(_) => (),
            Err(_) => step.stop(NoAnswer::Memory),
        }
    }
    if step.text.is_empty() {
        print_errors(name, step);
    }
}
