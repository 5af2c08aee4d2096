//! What errors of trees as text and of text edits print, and the sentences that say what to do.

use crate::say;
use crate::step::{NoAnswer, Step};
use cst_core::{SyntaxKind, TreeError};
use std::fmt::Display;
use text_edit::{ApplyError, ComposeError, OrderError};
use tree_text::{Expected, ExpressionError, NameError, WriteError};

/// Errors of one type.
#[macro_export]
macro_rules! errors_of {
    ($type:ident: $($case:ident $(($held:expr))? $({ $($field:ident: $value:expr),* })?),*) => {
        &[$($type::$case $(($held))? $({ $($field: $value),* })?),*]
    };
}

const EXPRESSION: &[ExpressionError] = errors_of! { ExpressionError:
    Malformed { at: 12, expected: Expected::KindName }, UnknownKind { at: 1 }, TooDeep { at: 201 },
    Tree(TreeError::NoTreeNumber), Memory
};

const WRITE: &[WriteError] = errors_of! { WriteError: NoName(SyntaxKind(65)), Memory };

const NAME: &[NameError] = errors_of! { NameError: Misspelled, Named, Taken, Memory };

const ORDER: &[OrderError] = errors_of! { OrderError:
    StartAfterEnd { index: 1 }, PastEnd { index: 2 }, OutOfOrder { index: 3 }, Overlapping { index: 4 }
};

const APPLY: &[ApplyError] =
    errors_of! { ApplyError: PastEnd { index: 1 }, InsideCharacter { index: 2 }, TooLong, Memory };

const COMPOSE: &[ComposeError] =
    errors_of! { ComposeError: InsideCharacter { index: 1 }, TooLong { index: 2 }, Memory };

macro_rules! say_all {
    ($errors:ident, $step:ident) => {
        for error in $errors {
            say_one(error, error.help(), $step);
        }
    };
}

/// What the errors of this type print, and their sentences, one after another.
pub fn print(name: &str, step: &mut Step) {
    match name {
        "Expression" => say_all!(EXPRESSION, step),
        "Write" => say_all!(WRITE, step),
        "Name" => say_all!(NAME, step),
        "Order" => say_all!(ORDER, step),
        "Apply" => say_all!(APPLY, step),
        "Compose" => say_all!(COMPOSE, step),
        "NoAnswer" => step.put(NoAnswer::from(ExpressionError::Memory).why()),
        _ => step.stop(NoAnswer::Arguments),
    }
}

fn say_one<E: Display>(error: &E, sentence: &str, step: &mut Step) {
    step.between(" | ");
    say!(step, "{error}: {sentence}");
}
