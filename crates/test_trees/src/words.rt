//! The words, paths and texts that rows of tests are written in, and how answers write them.

use crate::step::NoAnswer;
use std::alloc::{AllocError, Global};
use std::str::FromStr;
use tree_text::push_escaped;

/// The first word, and what stands after the space after it.
pub fn first_word(text: &str) -> (&str, &str) {
    text.split_once(' ').unwrap_or((text, ""))
}

pub fn number_of<T: FromStr>(digits: &str) -> Result<T, NoAnswer>
where
    T::Err: Drop,
{
    digits.parse::<T>().ok().ok_or(NoAnswer::Arguments)
}

/// The slots of a path, as `1/0`; those of a root are `.`, and `1x5000` is slot 1 so many times.
pub fn slots_of(alloc: Global, path: &str) -> Result<Vec<usize>, NoAnswer> {
    let mut slots = Vec::new(alloc);
    for part in path.split('/') {
        if part == "." {
            continue;
        }
        let (digits, times) = part.split_once('x').unwrap_or((part, "1"));
        let end = slots.len().saturating_add(number_of(times)?);
        slots.resize(end, number_of(digits)?)?;
    }
    Ok(slots)
}

// So many slots that are the same are written as their number.
const MANY: usize = 100;

/// The slots of a path with `/` between them; that of a root is `.`. A slot that comes a hundred times or more is
/// written once, with the number of times, as `1x5000`.
pub fn push_path(out: &mut String, path: &[usize]) -> Result<(), AllocError> {
    if path.is_empty() {
        return out.push('.');
    }
    for (number, run) in path.chunk_by(|one, next| one == next).enumerate() {
        if number > 0 {
            out.push('/')?;
        }
        push_run(out, run)?;
    }
    Ok(())
}

fn push_run(out: &mut String, run: &[usize]) -> Result<(), AllocError> {
    let Some((slot, others)) = run.split_first() else {
        return Ok(());
    };
    write!(out, "{slot}")?;
    if run.len() >= MANY {
        return write!(out, "x{}", run.len());
    }
    for _ in others {
        write!(out, "/{slot}")?;
    }
    Ok(())
}

/// A text between quotes, with its escapes.
pub fn push_quoted(out: &mut String, text: &str) -> Result<(), AllocError> {
    out.push('"')?;
    push_escaped(out, text)?;
    out.push('"')
}

/// What a text between quotes stands for: `\n`, `\r`, `\t`, `\"` and `\\` are escapes.
pub fn unquote(alloc: Global, quoted: &str) -> Result<String, NoAnswer> {
    let inner = quoted.strip_prefix('"').unwrap_or("");
    let inner = inner.strip_suffix('"').ok_or(NoAnswer::Arguments)?;
    let mut text = String::new(alloc);
    let mut is_escaped = false;
    for c in inner.chars() {
        let was_escaped = is_escaped;
        is_escaped = c == '\\' && !was_escaped;
        if !is_escaped {
            text.push(if was_escaped { unescape(c)? } else { c })?;
        }
    }
    Ok(text)
}

fn unescape(c: char) -> Result<char, NoAnswer> {
    match c {
        'n' => Ok('\n'),
        'r' => Ok('\r'),
        't' => Ok('\t'),
        '"' | '\\' => Ok(c),
        _ => Err(NoAnswer::Arguments),
    }
}
