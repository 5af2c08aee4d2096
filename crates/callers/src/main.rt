//! Callers of the editor, which docs/CALLING.md shows beside those of examples/callers: each edits a small tree. The program prints what each
//! makes of it.
#![tactic(auto)]

mod assist;
mod printed;
mod rename;
mod search_replace;

use anyhow::Result;

fn show<R: Print>(rt: &R, text: &str) -> Result<()> {
    println!(rt; "{text}")?;
    Ok(())
}

fn main(rt: HostRuntime) -> Result<()> {
    show(&rt, &assist::example(rt.alloc())?)?;
    show(&rt, &search_replace::example(rt.alloc())?)?;
    show(&rt, &rename::example(rt.alloc())?)?;
    Ok(())
}
