//! The texts of the program, and words of no form, as they stand in files.

use gcsh_top::parse_words;
use std::alloc::{AllocError, Global};
use std::{fs, io};

/// Whether a file, of the folder in which the program runs, has this text.
pub(crate) fn has_text(rt: &HostRuntime, name: &str, text: &str) -> io::Result<bool> {
    Ok(fs::read_to_string(rt, name)?.as_str() == text)
}

/// The words of a line.
fn words_of(alloc: Global, line: &str) -> Result<Vec<String>, AllocError> {
    line.split_whitespace()
        .map(|word| String::from_str(alloc, word))
        .try_collect(alloc)
}

/// Whether the words of a line are of a form, or ask for a text: the status isn't 1 at once.
fn are_of_form(alloc: Global, line: &str) -> Result<bool, AllocError> {
    if matches!(line, "--help" | "--version") {
        return Ok(true);
    }
    let words = words_of(alloc, line)?;
    Ok(parse_words(words.as_slice()).is_some())
}

/// How many lines of a table have words of no form; each other one is written. Lines that begin with `#` say nothing.
pub(crate) fn count_formless(
    alloc: Global,
    table: &str,
    out: &mut String,
) -> Result<u32, AllocError> {
    let mut count = 0u32;
    for line in table.lines() {
        if line.starts_with('#') {
            continue;
        }
        if are_of_form(alloc, line)? {
            writeln!(out, "of a form: {line}")?;
        } else {
            count = count.saturating_add(1);
        }
    }
    Ok(count)
}
