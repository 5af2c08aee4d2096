//! Carries the edit of a script out: the script comes on the standard input, the answer goes to the standard output, and a sentence to the
//! standard error where there is no edit. With the argument `wide` it reads scripts of that dialect, with another it says how it is called.
#![tactic(auto)]

use std::env;
use std::process::ExitCode;
use std::rt::Env;
use syned_run::{Dialect, run_explained_for};

const USAGE: &str = "syned carries out a script of edits and prints the new text.

    syned < SCRIPT
    syned wide < SCRIPT

The script comes on the standard input. With the argument wide it may name kinds of its
own, and may be as large and as deeply nested as memory allows. The exit status is 0 if
an edit was printed, 1 if a call of the script was refused, 2 if the script is bad, and
3 if the script could not be read, the answer not be written, or memory ran out.
";

// The dialect that the words after the name of the program ask for, if they ask for one.
fn dialect(rt: &(impl Env + Alloc)) -> Option<Dialect> {
    let Ok(mut arguments) = env::args(rt) else {
        return Some(Dialect::Syned);
    };
    let _program = arguments.next();
    let Some(word) = arguments.next() else {
        return Some(Dialect::Syned);
    };
    if arguments.len() > 0 {
        return None;
    }
    named(word.as_str())
}

fn named(word: &str) -> Option<Dialect> {
    if word == "wide" {
        Some(Dialect::Wide)
    } else {
        None
    }
}

fn main(rt: HostRuntime) -> ExitCode {
    let Some(dialect) = dialect(&rt) else {
        let _ = rt.eprint(USAGE);
        return ExitCode::from(2);
    };
    let status = run_explained_for(
        rt.alloc(),
        dialect,
        &mut rt.stdin(),
        &mut rt.stdout(),
        &mut rt.stderr(),
    );
    ExitCode::from(status)
}
