//! A script as its lines.
ghost use Rattle.std.specs.Prelude.{◌≡◌, ◌==◌, IfOk};
ghost use Rattle.std.specs.List.{slice_split};
ghost use Rattle.syned_script.specs.Script.{lines_in};
ghost use Rattle.syned_script.specs.inner.Run.{texts_in};

use std::alloc::{AllocError, Global};

/// What stands before each newline, and the rest, unless that is empty.
pub(crate) fn lines_in<'a>(alloc: Global, script: &'a str) -> Result<Vec<&'a str>, AllocError>
    ensures { IfOk result (λ lines. texts_in lines.items ≡ lines_in script.now) }
{
    let mut lines = parts_of(alloc, script)?;
    let Some(rest) = lines.pop() else {
        return Ok(lines);
    };
    if rest.is_empty() {
        return Ok(lines);
    }
    lines.push(rest)?;
    Ok(lines)
}

fn parts_of<'a>(alloc: Global, script: &'a str) -> Result<Vec<&'a str>, AllocError>
    ensures { IfOk result (λ parts. texts_in parts.items ≡ slice_split (λ b. b == 10) script.now) }
{
    script.split('\n').collect(alloc)
}
