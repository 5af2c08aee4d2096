//! Prints all that the editor says of scripts, in the format of tests/models.py: the answer of `syned`, and of a plan its text, its text edits,
//! the edit by each engine, in each order to try, and the tree after each step of each order to walk. The standard input is a batch of scripts.
//! A script with the line `ends` is also run over readers and writers that fail, one with the line `endless` over a reader without end.
#![tactic(auto)]

mod batch;
mod ends;
mod plans;
mod shown;
mod texts;
mod walks;

use crate::batch::Case;
use crate::ends::{Ended, push_endless, push_ends};
use crate::plans::push_plan;
use anyhow::Result;
use std::alloc::{AllocError, Global};
use std::io::read_to_string;

fn push_answer(alloc: Global, out: &mut String, case: &Case<'_>) -> Result<(), AllocError> {
    let ended = Ended::of_script(alloc, &case.script);
    ended.push(alloc, out)?;
    if ended.status < 2 {
        push_plan(alloc, out, case)?;
    }
    Ok(())
}

fn push_case(alloc: Global, out: &mut String, case: &Case<'_>) -> Result<(), AllocError> {
    writeln!(out, "script {}", case.name)?;
    push_answer(alloc, out, case)?;
    if case.has_ends {
        push_ends(alloc, out, &case.script)?;
    }
    if case.is_endless {
        push_endless(alloc, out, &case.script)?;
    }
    out.push_str("end\n")
}

fn print_case<R: Print>(rt: &R, alloc: Global, case: &Case<'_>) -> Result<()> {
    let mut out = String::new(alloc);
    push_case(alloc, &mut out, case)?;
    print!(rt; "{out}")?;
    Ok(())
}

fn main(rt: HostRuntime) -> Result<()> {
    let alloc = rt.alloc();
    let batch = read_to_string(alloc, rt.stdin())?;
    let mut case = Case::new(alloc, "");
    for line in batch.split_terminator('\n') {
        if line == "end" {
            print_case(&rt, alloc, &case)?;
        } else {
            case.read(alloc, line)?;
        }
    }
    Ok(())
}
