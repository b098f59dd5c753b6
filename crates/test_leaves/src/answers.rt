//! Answers each row of a section.

use crate::fault::CaseFault;
use crate::row::row_of;
use std::alloc::{AllocError, Global};
use std::fmt::Display;

/// What answers rows, and may keep things from row to row.
pub(crate) trait Answers {
    /// Writes the answer to a row of that name, with these words and numbers behind it.
    fn answer(
        &mut self,
        name: &str,
        words: &[&str],
        numbers: &[u128],
        out: &mut String,
    ) -> Result<(), CaseFault>;
}

/// Adds each row of a text with its answer, or with why it has none. A row that is empty or begins with `//` is no case.
pub(crate) fn answer_rows<A: Answers>(
    alloc: Global,
    answers: &mut A,
    text: &str,
    out: &mut String,
) -> Result<(), AllocError> {
    for line in text.lines() {
        if !line.is_empty() && !line.starts_with("//") {
            answer_row(alloc, answers, line, out)?;
        }
    }
    Ok(())
}

/// Adds a row with its answer, or with why it has none.
fn answer_row<A: Answers>(
    alloc: Global,
    answers: &mut A,
    line: &str,
    out: &mut String,
) -> Result<(), AllocError> {
    let row = row_of(alloc, line)?;
    write!(out, "{line}: ")?;
    if let Err(fault) = answer_words(answers, row.words.as_slice(), row.numbers.as_slice(), out) {
        write!(out, "{fault}")?;
    }
    out.push_str("\n")
}

/// Writes the answer to a row of these words and numbers.
fn answer_words<A: Answers>(
    answers: &mut A,
    words: &[&str],
    numbers: &[u128],
    out: &mut String,
) -> Result<(), CaseFault> {
    match words.split_first() {
        Some((name, rest)) => answers.answer(name, rest, numbers, out),
        None => Err(CaseFault::NoCase),
    }
}

/// Writes what a call told, or why it told nothing.
pub(crate) fn show_told<T: Display + Drop, E: Display + Drop>(
    told: Result<T, E>,
    out: &mut String,
) -> Result<(), AllocError> {
    match told {
        Ok(value) => write!(out, "{value}"),
        Err(fault) => write!(out, "{fault}"),
    }
}
