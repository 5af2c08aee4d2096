//! Goes through a table of rows, from standard input and from the files of its groups, and compares what each answers
//! with what is expected. It prints a line for each row that answers otherwise, and for each answer that a call owes a
//! row and has none.
//!
//! The head of the table (`stdin`, beside this folder) says how a line is written, and docs/ROWS.md how to add one.
#![tactic(auto)]

mod editors;
mod errors;
mod making;
mod plans;
mod session;

use crate::session::Session;
use std::io::ErrorKind;
use std::process::ExitCode;
use std::{fs, io};
use test_trees::{REFUSED, Run};

fn main(rt: HostRuntime) -> io::Result<ExitCode> {
    let alloc = rt.alloc();
    take_table(&rt, &mut Run::new(alloc, Session::new(alloc)))
}

fn take_table(rt: &HostRuntime, run: &mut Run<Session>) -> io::Result<ExitCode> {
    for line in rt.lines(rt.alloc()) {
        // The line was not read because memory ran out.
        if matches!(&line, Err(error) if error.kind() == ErrorKind::OutOfMemory) {
            return Ok(ExitCode::from(REFUSED));
        }
        if !run.is_cut {
            take_line(rt, run, line?.as_str())?;
        }
    }
    let status = run.close();
    print!(rt; "{}", run.said)?;
    Ok(ExitCode::from(status))
}

// Takes a line of the table, and all lines of the group that it stands for, and prints what is said of them.
fn take_line(rt: &HostRuntime, run: &mut Run<Session>, text: &str) -> io::Result<()> {
    if let Some(name) = run.take_line(text) {
        let file = format!(in rt.alloc(); "{name}.rows")?;
        match fs::read_to_string(rt, file.as_str()) {
            Ok(lines) => run.take_group(name, lines.as_str()),
            Err(_) => run.note_wrong(text, "its file is not there"),
        }
    }
    print!(rt; "{}", run.said)?;
    Ok(run.said.clear())
}
