//! The scripts that the program reads, each with the orders to try and to walk.

use anyhow::{Result, bail};
use std::alloc::{AllocError, Global};

/// A script of a batch, with the orders to try and to walk as they are written.
#[derive(Drop)]
pub struct Case<'a> {
    pub name: &'a str,
    pub script: String,
    pub tried: Vec<&'a str>,
    pub walked: Vec<&'a str>,
    pub has_ends: bool,
    pub is_endless: bool,
}

impl<'a> Case<'a> {
    pub fn new(alloc: Global, name: &'a str) -> Case<'a> {
        Case {
            name,
            script: String::new(alloc),
            tried: Vec::new(alloc),
            walked: Vec::new(alloc),
            has_ends: false,
            is_endless: false,
        }
    }

    /// Takes a line of the batch up; the one with a name begins a new script.
    pub fn read(&mut self, alloc: Global, line: &'a str) -> Result<()> {
        let (word, rest) = line.split_once(' ').unwrap_or((line, ""));
        match word {
            "script" => *self = Case::new(alloc, rest),
            ">" => self.push_line(rest)?,
            "try" => self.tried.push(rest)?,
            "walk" => self.walked.push(rest)?,
            "ends" => self.has_ends = true,
            "endless" => self.is_endless = true,
            _ => bail!("no line of a batch"),
        }
        Ok(())
    }

    fn push_line(&mut self, text: &str) -> Result<(), AllocError> {
        self.script.push_str(text)?;
        self.script.push('\n')
    }
}

/// An order. What is no number stands for one that no change has.
pub fn order_in(alloc: Global, text: &str) -> Result<Vec<usize>, AllocError> {
    let mut order = Vec::new(alloc);
    for digits in text.split_whitespace() {
        order.push(digits.parse::<usize>().unwrap_or(usize::MAX))?;
    }
    Ok(order)
}
