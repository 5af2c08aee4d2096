//! `push_escaped`, and what a letter after a backslash means.

ghost use Rattle.std.specs.Prelude.{◌≡◌, ◌++◌, OnOk, string_bytes};
ghost use Rattle.tree_text.specs.Escape.{escaped};
ghost use Rattle.tree_text.specs.inner.Meant.{meant};

use std::alloc::AllocError;

/// Puts `text` at the end of `out` as it stands between two quotes of a tree expression: newline, carriage return, tab,
/// quote and backslash as `\n`, `\r`, `\t`, `\"` and `\\`, every other character as itself.
pub fn push_escaped(out: &mut String, text: &str) -> Result<(), AllocError>
    ensures { OnOk result (string_bytes out.new ≡ string_bytes out.old ++ escaped text.now) }
{
    for c in text.chars() {
        match c {
            '\n' => out.push_str("\\n")?,
            '\r' => out.push_str("\\r")?,
            '\t' => out.push_str("\\t")?,
            '"' => out.push_str("\\\"")?,
            '\\' => out.push_str("\\\\")?,
            c => out.push(c)?,
        }
    }
    Ok(())
}

/// The character that a backslash and this one stand for.
pub(crate) fn meant_by(letter: char) -> Option<char>
    ensures { result ≡ meant letter }
{
    match letter {
        'n' => Some('\n'),
        'r' => Some('\r'),
        't' => Some('\t'),
        '"' | '\\' => Some(letter),
        _ => None,
    }
}
