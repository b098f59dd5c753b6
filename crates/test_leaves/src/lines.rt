//! Lines of scripts, and the command that each is.

use crate::fault::CaseFault;
use crate::spelled::line_of;
use gc_commands::parse_line;
use std::alloc::{AllocError, Global};

/// A shown command may be this long.
const MAX_SHOWN: usize = 400;

/// Of a longer one so many bytes are shown.
const FRONT: usize = 90;

/// Adds the command that each row is. An empty row is the empty line.
pub(crate) fn answer(alloc: Global, rows: &str, out: &mut String) -> Result<(), AllocError> {
    for row in rows.lines() {
        if !row.starts_with("//")
            && let Err(fault) = show(alloc, row, out)
        {
            write!(out, "{fault}\n")?;
        }
    }
    Ok(())
}

/// Adds the command that a row is.
fn show(alloc: Global, row: &str, out: &mut String) -> Result<(), CaseFault> {
    let line = line_of(alloc, row)?;
    Ok(show_command(alloc, line.as_slice(), out)?)
}

/// Adds the command that a line is, as its type shows it.
fn show_command(alloc: Global, line: &[u8], out: &mut String) -> Result<(), AllocError> {
    let command = parse_line(alloc, line)?;
    let text = format!(in alloc; "{command:?}")?;
    show_text(text.as_str(), out)
}

/// Adds a text; of a long one only the front, and its length.
fn show_text(text: &str, out: &mut String) -> Result<(), AllocError> {
    if text.len() <= MAX_SHOWN {
        return write!(out, "{text}\n");
    }
    for c in text.chars().take(FRONT) {
        out.push(c)?;
    }
    write!(out, ".. {} bytes\n", text.len())
}
